//! The events of a downtime: its start, its end and its expiry, and the order of events.
ghost use Rattle.std.specs.Prelude.{◌≡◌, ◌<◌, ◌+◌, ◌^◌};
ghost use Rattle.mon_downtime.specs.Events.{before, order_of};
ghost use Rattle.mon_downtime.specs.Order.{same};

use std::marker::Model;

/// The kinds of events: an active downtime ends; a pending one expires at its `end_time`; a pending one starts.
///
/// ```
/// // fixed: gives a fixed plan from second 100 to second 200
/// let mut downtimes = Downtimes::new(alloc);
/// let id = downtimes.schedule(alloc, 50, 0, fixed(alloc)?);
/// assert_eq!(rt; id, Ok(1));
/// assert_eq!(rt;
///     downtimes.take_event(300).map(|event| event.kind()),
///     Some(EventKind::Starts)
/// );
/// assert_eq!(rt;
///     downtimes.take_event(300).map(|event| event.kind()),
///     Some(EventKind::Ends)
/// );
/// ```
#[derive(Clone, Copy, Debug, PartialEq, Eq)]
pub enum EventKind {
    Ends,
    Expires,
    Starts,
}

/// An event of the downtime with this id, and the second at which the event happens.
///
/// ```
/// // fixed: gives a fixed plan from second 100 to second 200
/// let mut downtimes = Downtimes::new(alloc);
/// let id = downtimes.schedule(alloc, 50, 0, fixed(alloc)?);
/// assert_eq!(rt; id, Ok(1));
/// let starts = Event::new(100, EventKind::Starts, 1);
/// assert_eq!(rt; downtimes.take_event(150), Some(starts));
/// ```
#[derive(Clone, Copy, Debug, PartialEq, Eq)]
pub struct Event {
    // 4 times the moment, plus the kind: 16 bytes an event in place of 24, so that the queue moves a third less
    at: u64,
    id: u64,
}

impl Model for Event {
    ghost use Rattle.std.specs.Prelude.{◌≡◌, ◌+◌, ◌*◌, ◌/◌, ◌%◌};
    ghost use Rattle.std.proofs.Common.{ap, ◌∙◌};
    ghost use Rattle.std.proofs.Math.Nat.{div-add-mod};
    ghost use Rattle.mon_downtime.specs.Event.{Event as AnEvent, rank, kind_of};

    ghost Value = { AnEvent };

    ghost view = { λ a. record { moment = a.at / 4; kind = kind_of (a.at % 4); id = a.id } };

    ghost invariant = { λ a. rank (kind_of (a.at % 4)) ≡ a.at % 4 };

    ghost inverse = { λ e. record { at = 4 * e.moment + rank e.kind; id = e.id } };

    ghost inverse_ok = { λ a h. ap (λ n. record a { at = n }) (ap (λ r. 4 * (a.at / 4) + r) h ∙ div-add-mod a.at 4) };
}

impl Event {
    /// Makes an event of the downtime with this id, at a moment in seconds. Requires a moment below 2^62.
    pub fn new(moment: u64, kind: EventKind, id: u64) -> Event
        requires { moment < 2 ^ 62 }
        ensures { result ≡ record { moment = moment; kind = kind; id = id } }
    {
        Event {
            at: 4 * moment + kind as u64,
            id,
        }
    }

    /// The second at which the event happens.
    pub fn moment(&self) -> u64
        ensures { result ≡ self.now.moment }
    {
        self.at / 4
    }

    /// The kind of the event.
    pub fn kind(&self) -> EventKind
        ensures { result ≡ self.now.kind }
    {
        match self.at % 4 {
            0 => EventKind::Ends,
            1 => EventKind::Expires,
            _ => EventKind::Starts,
        }
    }

    /// The id of the event's downtime.
    pub fn id(&self) -> u64
        ensures { result ≡ self.now.id }
    {
        self.id
    }

    /// The equal event under the id that is `more` above this one's.
    pub fn under_id(&self, more: usize) -> Event
        requires { self.now.id + more < 2 ^ 64 }
        ensures { result ≡ record self.now { id = self.now.id + more } }
    {
        Event {
            at: self.at,
            id: self.id + more as u64,
        }
    }
}

/// The key by which events are ordered: the moment and the kind (Ends, Expires, Starts), then the id.
pub fn order_of(event: &Event) -> (u64, u64)
    ensures { result ≡ order_of event.now }
{
    (event.at, event.id)
}

/// Whether event `a` comes before event `b`: by moment, then by kind (Ends, Expires, Starts), then by id.
pub fn is_before(a: &Event, b: &Event) -> bool
    ensures { result ≡ before a.now b.now }
{
    order_of(a) < order_of(b)
}

/// Whether two events have the same moment, kind and id.
pub fn is_same(a: &Event, b: &Event) -> bool
    ensures { result ≡ same a.now b.now }
{
    a.at == b.at && a.id == b.id
}
