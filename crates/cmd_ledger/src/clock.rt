//! The number of the clock feed of a run: only this file tests whether a feed is the clock feed.
ghost use Rattle.std.specs.Prelude.{◌≡◌};
ghost use Rattle.mon_engine.specs.Telling.{is_clock};

/// Whether feed `number`, from 0, is the clock feed, which has the number `clock`; `None` for no clock feed (profile).
///
/// ```
/// assert!(rt; is_clock(Some(2), 2));
/// assert!(rt; !is_clock(Some(2), 1));
/// assert!(rt; !is_clock(None, 2));
/// ```
pub fn is_clock(clock: Option<u16>, number: usize) -> bool
    ensures { result ≡ is_clock clock number }
{
    match clock {
        None => false,
        Some(clock) => usize::from(clock) == number,
    }
}
