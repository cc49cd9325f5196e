//! Whether a notice may go out, whoever its recipients are. Each function reads the facts alone; nothing is changed and
//! no memory is taken.
ghost use Rattle.std.specs.Prelude.{◌≡◌};
ghost use Rattle.mon_notify.specs.Viable.{is_open, is_delayed, is_due, have_gone_by, is_old, is_settled, problem_viable, recovery_viable};

use crate::facts::Facts;

/// Whether no switch and no downtime holds a notice back: notifications are on in the program and for the object, and
/// no downtime of the object or of its host is active.
///
/// See the example of [`problem_viable`].
pub fn is_open(facts: &Facts) -> bool
    ensures { result ≡ is_open facts.now }
{
    facts.program_on && facts.object_on && facts.depth == 0 && facts.host_depth == 0
}

/// Whether a delay holds the notice back: the delay ends after the monitor's clock.
///
/// See the example of [`problem_viable`].
pub fn is_delayed(facts: &Facts) -> bool
    ensures { result ≡ is_delayed facts.now.not_before facts.now.clock }
{
    match facts.not_before {
        None => false,
        Some(moment) => facts.clock < moment,
    }
}

/// Whether a PROBLEM notice is due: it is the first (`number` is 0), its code is not that of the last, or the interval
/// is above 0 and has passed since the last; or a volatile service has a bad result.
///
/// See the example of [`problem_viable`].
pub fn is_due(facts: &Facts) -> bool
    ensures { result ≡ is_due facts.now }
{
    let other_state = match facts.notified {
        None => true,
        Some(code) => code != facts.code,
    };
    let over = match facts.last {
        None => true,
        // Not `last + facts.interval <= facts.clock`: the sum could overflow.
        Some(last) => last <= facts.clock && facts.interval <= facts.clock - last,
    };
    facts.volatile || facts.number == 0 || other_state || (facts.interval > 0 && over)
}

/// Whether these seconds have gone by since the second `from`; true where either is `None`.
fn have_gone_by(from: Option<u64>, seconds: Option<u64>, clock: u64) -> bool
    ensures { result ≡ have_gone_by from seconds clock }
{
    match (from, seconds) {
        // Not `from + seconds <= clock`: the sum could overflow.
        (Some(from), Some(seconds)) => from <= clock && seconds <= clock - from,
        _ => true,
    }
}

/// Whether the hard problem stands for as long as the object's first notification delay, where it has one (Object
/// Definitions, first_notification_delay).
///
/// See the example of [`problem_viable`].
pub fn is_old(facts: &Facts) -> bool
    ensures { result ≡ is_old facts.now }
{
    have_gone_by(facts.since, facts.delay, facts.clock)
}

/// Whether what stands above the object came back long enough ago for a first notice (profile). A later notice does not
/// wait for that.
///
/// See the example of [`problem_viable`].
pub fn is_settled(facts: &Facts) -> bool
    ensures { result ≡ is_settled facts.now }
{
    facts.number != 0 || have_gone_by(facts.above_back, facts.settle, facts.clock)
}

/// Whether a PROBLEM notice may go out, whoever its recipients are (Notifications; the test of number, state and
/// interval is profile). Notifications must be on in the program and for the object, no downtime of the object or of
/// its host active, and a service's host UP. The options must have the state's letter; the problem must be HARD and not
/// acknowledged, and no delay may hold the notice back. It must be the first (`number` is 0) or of another code than
/// the last, or the interval is above 0 and has passed, or a volatile service has a bad result. The first notification
/// delay must be over, and before a first notice the time that results are awaited.
///
/// Takes no memory.
///
/// ```
/// // FACTS: a hard problem of which nothing was said yet, nothing switched off and no downtime
/// assert!(rt; problem_viable(&FACTS));
/// let acknowledged = Facts {
///     acknowledged: true,
///     ..FACTS
/// };
/// assert!(rt; !problem_viable(&acknowledged));
/// ```
pub fn problem_viable(facts: &Facts) -> bool
    ensures { result ≡ problem_viable facts.now }
{
    is_open(facts)
        && facts.host_up
        && facts.letter_on
        && !facts.acknowledged
        && facts.hard
        && !is_delayed(facts)
        && is_due(facts)
        && is_old(facts)
        && is_settled(facts)
}

/// Whether a RECOVERY notice may go out after a hard recovery, whoever its recipients are (Notifications). The
/// notification number must be above 0, notifications on in the program and for the object, and no downtime of the
/// object or of its host active. The options must have the letter of a recovery: here `letter_on` is about that letter.
///
/// Takes no memory.
///
/// ```
/// // FACTS: no PROBLEM notice went out, so none of a recovery does
/// assert!(rt; !recovery_viable(&FACTS));
/// ```
pub fn recovery_viable(facts: &Facts) -> bool
    ensures { result ≡ recovery_viable facts.now }
{
    facts.number > 0 && is_open(facts) && facts.letter_on
}
