//! The last command of each sender since a ledger was made or rebased.
ghost use Rattle.std.specs.Prelude.{◌≡◌, ◌<◌, [], ℕ, Some, None, IfOk, length, slice_index_or, slice_set};
ghost use Rattle.cmd_types.specs.declared.entry.TheConstants.{MOST_SENDERS};
ghost use Rattle.cmd_ledger.specs.Ledgers.{AreLastsOf};

use cmd_types::{MOST_SENDERS, Memory, Stamped};
use std::alloc::Global;
use std::marker::Model;

/// The last command of each sender, by the sender's number; `None` for a sender without an entry (profile).
///
/// See the example of [`Ledger`].
#[derive(Drop)]
pub struct LastCommands {
    list: Vec<Option<Stamped>>,
}

impl Model for LastCommands {
    ghost use Rattle.std.specs.Prelude.{◌≡◌, List, Option, length};
    ghost use Rattle.cmd_types.specs.declared.entry.TheConstants.{MOST_SENDERS};
    ghost use Rattle.cmd_types.specs.Spelling.{Timed};

    ghost Value = { List (Option Timed) };

    ghost view = { λ l. l.list.items };

    ghost invariant = { λ l. length l.list.items ≡ MOST_SENDERS };
}

/// Sets each element to `None`.
#[tactic(auto, using(crate::proofs::LedgerLemmas::none_more))]
fn forget(lasts: &mut Vec<Option<Stamped>>)
    ensures as_many { length lasts.new.items ≡ length lasts.old.items }
    ensures none { (k : ℕ) → slice_index_or lasts.new.items k None ≡ None }
{
    for number in 0..lasts.len() {
        lasts[number] = None;
    }
}

impl LastCommands {
    /// The last commands before any entry: `None` for each sender. The error is out of memory.
    ///
    /// See the example of [`Ledger`].
    pub fn new(alloc: Global) -> Result<LastCommands, Memory>
        ensures { IfOk result (AreLastsOf []) }
    {
        let mut list = Vec::new(alloc);
        for _ in 0..MOST_SENDERS {
            list.push(None)?;
        }
        Ok(LastCommands { list })
    }

    /// The last command of each sender, at the index of the sender's number, from 0.
    ///
    /// See the example of [`Ledger`].
    pub fn as_slice(&self) -> &[Option<Stamped>]
        ensures value { result.now ≡ self.now }
        ensures senders { length result.now ≡ MOST_SENDERS }
    {
        self.list.as_slice()
    }

    /// Sets the last command of `sender`, which is required to be below `MOST_SENDERS`.
    pub(crate) fn set(&mut self, sender: u16, stamped: Stamped)
        requires { sender < MOST_SENDERS }
        ensures { self.new ≡ slice_set self.old sender (Some stamped) }
    {
        self.list[usize::from(sender)] = Some(stamped);
    }

    /// Sets the last command of each sender to `None`. Takes no memory.
    pub(crate) fn clear(&mut self)
        ensures { AreLastsOf [] self.new }
    {
        forget(&mut self.list);
    }
}
