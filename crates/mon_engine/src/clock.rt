//! Advances the monitor's clock: the events of downtimes that are due happen in order, each with its notice. Only the
//! clock, the downtimes and the notices change. If memory runs out, a part of the events has happened, and the monitor
//! is then broken.
ghost use Rattle.std.specs.Prelude.{◌≡◌, OnOk};
ghost use Rattle.mon_engine.specs.Clock.{drained, advanced, told_event};
ghost use Rattle.mon_engine.specs.Sound.{IsTimely};

use crate::notice::Word;
use crate::notices::DowntimeTurn;
use crate::state::State;
use cmd_types::Memory;
use mon_downtime::{Event, EventKind, law_of_the_clock};
use mon_inventory::Inventory;
use std::alloc::Global;

impl State {
    /// Applies each event that is due at or before the second `t`, in order, and sends its notice; the clock is
    /// unchanged. If memory runs out, a part of the events has happened, the last one without its notice.
    fn drain(&mut self, alloc: Global, inventory: &Inventory, t: u64) -> Result<(), Memory>
        requires { IsTimely inventory.now self.old }
        ensures { OnOk result (self.new ≡ drained inventory.now self.old t) }
    {
        // For the proof alone, at no cost when it runs: the first event that is due happens, then those due after
        // it.
        law_of_the_clock();
        'due: loop {
            match self.downtimes.take_event(t) {
                None => return Ok(()),
                Some(event) => self.tell_event(alloc, inventory, event)?,
            }
        }
    }

    /// Sends the notice of a downtime's start or end, with the event's moment; an expiry has no notice. Nothing but the
    /// notices changes. If memory runs out, the state is unchanged.
    fn tell_event(
        &mut self,
        alloc: Global,
        inventory: &Inventory,
        event: Event,
    ) -> Result<(), Memory>
        requires { IsTimely inventory.now self.old }
        ensures { OnOk result (self.new ≡ told_event inventory.now self.old event) }
    {
        let object = match self.downtimes.find(event.id()) {
            None => return Ok(()),
            Some(downtime) => downtime.object,
        };
        let word = match event.kind() {
            EventKind::Ends => Word::DowntimeEnd,
            EventKind::Starts => Word::DowntimeStart,
            EventKind::Expires => return Ok(()),
        };
        let turn = DowntimeTurn {
            word,
            moment: event.moment(),
            object,
        };
        self.tell_downtime(alloc, inventory, turn)
    }

    /// Applies all events that are due at or before the second `t`, and then sets the clock to `t`, unless the clock is
    /// later. If memory runs out, a part of the events has happened and the clock is unchanged.
    pub fn advance(&mut self, alloc: Global, inventory: &Inventory, t: u64) -> Result<(), Memory>
        requires { IsTimely inventory.now self.old }
        ensures { OnOk result (self.new ≡ advanced inventory.now self.old t) }
    {
        let clock = self.clock.max(t);
        self.drain(alloc, inventory, t)?;
        self.clock = clock;
        Ok(())
    }
}
