//! The figures: the number of entries since the monitor was made or resumed, and counts over all objects. Each change
//! of the state updates the counts, so that reading them walks no list.
ghost use Rattle.std.specs.Prelude.{◌≡◌, ◌<◌, ◌≤◌, All, length};
ghost use Rattle.mon_inventory.specs.declared.limits.TheConstants.{MOST_OBJECTS};
ghost use Rattle.mon_engine.specs.Figures.{figures};

use crate::state::State;

/// The number of entries applied since a monitor was made or resumed, and counts over all its objects (profile).
///
/// ```
/// // INVENTORY: the text of an inventory with the host web
/// let inventory = Inventory::parse(alloc, INVENTORY)?;
/// let monitor = Monitor::new(alloc, inventory)?;
/// let figures = monitor.figures();
/// assert_eq!(rt; (figures.entries, figures.problems), (0, 0));
/// ```
#[derive(Clone, Copy, Debug, PartialEq, Eq)]
pub struct Figures {
    /// The number of entries applied since the monitor was made or resumed, rejected ones included;
    /// [`entries_ever`](crate::Monitor::entries_ever) also has those before.
    pub entries: u32,
    /// The number of objects with a code other than 0.
    pub problems: u16,
    /// The number of acknowledged objects.
    pub acknowledged: u16,
    /// The number of objects with at least one active downtime.
    pub in_downtime: u16,
}

impl State {
    /// Returns the figures from the counts that are kept; walks no list. Requires at most
    /// [`MOST_OBJECTS`](mon_inventory::MOST_OBJECTS) objects, and that each downtime is of one of them.
    #[tactic(auto, unfolding(crate::specs::Figures::figures))]
    pub fn figures(&self) -> Figures
        requires few { length self.now.objects ≤ MOST_OBJECTS }
        requires known { All (λ d. d.object < length self.now.objects) self.now.downtimes }
        ensures counts { result ≡ figures self.now }
        ensures problems { result.problems ≤ MOST_OBJECTS }
        ensures acknowledged { result.acknowledged ≤ MOST_OBJECTS }
        ensures in_downtime { result.in_downtime ≤ MOST_OBJECTS }
    {
        Figures {
            entries: self.entries,
            problems: self.objects.problems() as u16,
            acknowledged: self.objects.acknowledged() as u16,
            in_downtime: self.downtimes.objects_in_downtime() as u16,
        }
    }
}
