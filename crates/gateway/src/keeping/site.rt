//! Locks and reads the state directory of a run before the run begins, and assigns numbers to the feeds of the call.
//! Creates no file but `lock`, and writes to no other file.
ghost use Rattle.std.specs.Prelude.{◌≡◌, ◌↔◌, ◌+◌, ◌≤◌, false, IfOk, IsTrue, OnOk, length, map};
ghost use Rattle.cmd_journal.specs.declared.journal.TheConstants.{GREATEST_LIMIT};
ghost use Rattle.cmd_types.specs.declared.entry.TheConstants.{MOST_SENDERS};
ghost use Rattle.cmd_types.specs.Entries.{IsSenderCount};
ghost use Rattle.cmd_answer.specs.Stops.{has_twice};
ghost use Rattle.mon_engine.specs.declared.state.TheConstants.{GREATEST_BEFORE};
ghost use Rattle.cmd_recovery.specs.Assigns.{TakesOver};

use crate::state_stops::{assign_stop, lock_stop, start_stop};
use cmd_answer::{FilesStop, StateWord, Stop, has_twice, inventory_text_in, may_pass};
use cmd_journal::GREATEST_LIMIT;
use cmd_live::{
    Call, Directory, Node, Numbered, Run, System, UNNAMED, at_start, end_last_line, passing,
};
use cmd_recovery::{Assigned, Recovered, Role, assign, start};
use cmd_types::{Memory, is_sender_count};
use mon_engine::GREATEST_BEFORE;
use mon_inventory::Inventory;
use mon_state::KeptFeeds;
use std::fs;
use std::io::Write;
use std::rt::Files;

/// What the error stream gets when a run begins.
#[derive(Clone, Copy, PartialEq, Eq)]
pub enum News {
    /// The line that feeds are followed: the run is the first one of the process.
    Following,
    /// The counts of the new inventory that ended the previous run.
    NewInventory,
    /// Nothing: a replaced file ended the previous run.
    Nothing,
}

/// The state found in a state directory, under the inventory and with the feeds that the call names.
#[derive(Drop)]
pub struct Site<'a> {
    /// The text of the inventory of the run; its last line ends in a line feed.
    pub inventory_text: &'a [u8],
    /// The state that the directory's entries lead to.
    pub recovered: Recovered,
    /// The kept data of each feed, in order of the feeds' numbers.
    pub feeds: KeptFeeds,
    /// What the error stream gets when the run begins.
    pub news: News,
}

/// Reads the text of the inventory file, which must have no fault, and ends its last line. Where the number of feeds is
/// out of range, fails with `Stop::Feeds`, and where a feed is named twice with `Stop::FeedTwice`, and reads no file.
pub(crate) fn read_inventory<'a, R: Files>(call: &Call<'a, R>) -> Result<Vec<u8>, FilesStop<'a>>
    ensures count { OnOk result (IsSenderCount (length call.now.asked.now.feeds.items)) }
    ensures once { OnOk result (has_twice (map (λ p. p.now) call.now.asked.now.feeds.items) ≡ false) }
{
    let Call { rt, alloc, asked } = *call;
    if !is_sender_count(asked.feeds.len()) {
        return Err(FilesStop::Other(Stop::Feeds));
    }
    if has_twice(&asked.feeds) {
        return Err(FilesStop::Other(Stop::FeedTwice));
    }
    let (text, _) = inventory_text_in(rt, alloc, asked.inventory)?;
    end_last_line(text).map_err(|_| FilesStop::Other(Stop::Memory))
}

/// Locks the state directory at `path` by its file `lock`, which is created where it is missing, and returns the lock
/// with the directory's node. Nothing else in the directory is read or written. Fails where there is no directory,
/// another program has locked it, the file cannot be locked, or memory runs out.
pub(crate) fn lock_directory<R: System>(
    call: &Call<'_, R>,
    path: &str,
) -> Result<(R::Lock, Node), Stop> {
    let found = match fs::metadata(call.rt, path) {
        Ok(found) => found,
        Err(error) if may_pass(&error) => return Err(passing(StateWord::Lock)),
        Err(_) => return Err(at_start(StateWord::NotThere)),
    };
    if !found.is_dir() {
        return Err(at_start(StateWord::NotThere));
    }
    let path = format!(in call.alloc; "{path}/lock")?;
    match call.rt.lock(&path) {
        Ok(lock) => Ok((lock, Node::of(&found))),
        Err(fault) => Err(lock_stop(fault)),
    }
}

/// Assigns numbers to the feeds that the call names, and to the clock feed where the call has one. Feeds in `feeds`
/// keep their numbers.
fn assigned<R>(call: &Call<'_, R>, feeds: &KeptFeeds) -> Result<Assigned, Stop>
    ensures takes_over { IfOk result (λ a. TakesOver feeds.now a.feeds) }
    ensures few { IfOk result (λ a. length a.feeds.list ≤ MOST_SENDERS) }
{
    let has_clock = call.asked.following.clock != 0;
    assign(call.alloc, feeds, &call.asked.feeds, has_clock).map_err(assign_stop)
}

/// The feeds of the directory and of the call, except the clock feed, in order of their numbers. The number of a feed
/// is the index of its role in `roles`. A feed that the call does not name has the path [`UNNAMED`]. Fails if memory
/// runs out.
fn named_feeds<'a, R>(call: &Call<'a, R>, roles: &[Role]) -> Result<Vec<Numbered<'a>>, Memory> {
    let mut feeds = Vec::new(call.alloc);
    for number in 0..roles.len() {
        let path = match roles[number] {
            Role::Given(place) => match call.asked.feeds.get(place) {
                Some(path) => *path,
                None => continue,
            },
            Role::Unnamed => UNNAMED,
            Role::Clock => continue,
        };
        feeds.push(Numbered {
            path,
            number: number as u64,
        })?;
    }
    Ok(feeds)
}

/// Whether a whole segment of entries may follow `entries` entries.
fn has_room(entries: u64) -> bool
    ensures { IsTrue result ↔ (entries + GREATEST_LIMIT ≤ GREATEST_BEFORE) }
{
    entries <= GREATEST_BEFORE - u64::from(GREATEST_LIMIT)
}

/// Reads the directory, finds the state that its entries lead to, and assigns the numbers of the feeds. Returns the
/// site, and a run over the feeds of the call in order of their numbers. Leaves the last segment open. Syncs the files
/// that it reads, and writes none.
pub(crate) fn find_site<'a, R: Files, O: Write + Drop>(
    call: &'a Call<'a, R>,
    inventory_text: &'a [u8],
    inventory: Inventory,
    directory: &mut Directory<'_, R, O>,
) -> Result<(Site<'a>, Run<'a, R>), Stop>
    ensures whole { IfOk result (λ f. f.0.recovered.ledger.monitor.broken ≡ false) }
    ensures takes_over { IfOk result (λ f. TakesOver f.0.recovered.feeds f.0.feeds) }
    ensures few { IfOk result (λ f. length f.0.feeds.list ≤ MOST_SENDERS) }
{
    let recovered = match start(&mut *directory, call.alloc, inventory_text, inventory) {
        Ok(recovered) => recovered,
        Err(fault) => return Err(start_stop(fault, directory.failed, directory.passes)),
    };
    if !has_room(recovered.ledger.monitor.entries_ever()) {
        return Err(at_start(StateWord::Full));
    }
    let Assigned { feeds, roles } = assigned(call, &recovered.feeds)?;
    let named = named_feeds(call, &roles)?;
    let run = Run::new(call, &named, feeds.clock)?;
    let site = Site {
        inventory_text,
        recovered,
        feeds,
        news: News::Following,
    };
    Ok((site, run))
}
