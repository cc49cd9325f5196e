//! The commands that earlier runs journaled of each feed. A feed is read from the position after them. A feed that is
//! now another file is read from its beginning: the kept feeds record that, and the error stream gets a line on it.
ghost use Rattle.std.specs.Prelude.{◌≡◌, ◌-◌, Some, true, false, IfOk, length, map, slice_get};
ghost use Rattle.cmd_live.specs.declared.start.Start.TheVariants.{Anew};
ghost use Rattle.gateway.specs.KnownFeeds.{known_from, begun_anew, renewed};

use cmd_answer::{FilesStop, FollowLine, Stop, write_text};
use cmd_ledger::is_clock;
use cmd_live::{Known, OpenFeeds, Run, Start, System};
use cmd_types::Memory;
use mon_state::{KeptFeed, KeptFeeds};
use std::alloc::Global;
use std::io::{Read, Write};
use std::rt::Files;

/// The journaled commands of the feed's present file; those of its earlier files do not count.
fn known_of(feed: &KeptFeed) -> Known<'_>
    ensures commands { result.commands ≡ feed.now.journaled - feed.now.earlier }
    ensures last { result.last.now ≡ feed.now.last }
{
    Known {
        commands: feed.journaled.saturating_sub(feed.earlier),
        last: feed.last.as_bytes(),
    }
}

/// The journaled commands of each feed except the clock feed, in order of the feeds' numbers. Fails if memory runs out.
fn all_known(alloc: Global, feeds: &KeptFeeds) -> Result<Vec<Known<'_>>, Memory>
    ensures { IfOk result (λ known. map (λ k. (k.commands, k.last.now)) known.items ≡ known_from feeds.now.clock 0 feeds.now.list) }
{
    let mut known = Vec::new(alloc);
    for number in 0..feeds.list.len() {
        if !is_clock(feeds.clock, number) {
            known.push(known_of(&feeds.list[number]))?;
        }
    }
    Ok(known)
}

/// Opens the feeds that the call names, each after its journaled commands. Returns the open feeds, and the position
/// where the reading of each begins. Fails as [`Run::open`] does, or if memory runs out. Writes to no file.
pub(crate) fn open_kept<'a, R: System, I: Read + Drop>(
    run: &'a Run<'a, R>,
    feeds: &KeptFeeds,
    input: I,
) -> Result<OpenFeeds<'a, R, I>, FilesStop<'a>> {
    let Ok(known) = all_known(run.call.alloc, feeds) else {
        return Err(FilesStop::Other(Stop::Memory));
    };
    if run.call.asked.following.drain {
        run.signal.renewal.forbid();
    }
    run.open(&known, input)
}

/// Writes to the error stream that a feed begins anew, as another file. If memory runs out, writes nothing; a
/// failed write is ignored.
fn print_anew<E: Write>(alloc: Global, feed: u64, errors: &mut E) {
    if let Ok(line) = (FollowLine::Anew { feed }).text(alloc) {
        // The feed is read even where the error stream takes no line.
        let _ = write_text(errors, line.as_bytes());
    }
}

/// Writes to the error stream which files were replaced, unless that was written before. A failed write is ignored.
pub(crate) fn print_replaced<R: Files, E: Write>(run: &Run<'_, R>, errors: &mut E) {
    for gate in &run.signal.gates {
        if gate.is_unprinted()
            && let Ok(line) = (FollowLine::Replaced { feed: gate.feed }).text(run.call.alloc)
        {
            let _ = write_text(errors, line.as_bytes());
        }
    }
}

/// Whether the reading of the feed at index `place` begins anew; false where `starts` has no such index.
fn begins_anew(starts: &[Start], place: usize) -> bool
    ensures anew { result ≡ true → slice_get starts.now place ≡ Some Anew }
    ensures other { result ≡ false → slice_get starts.now place ≡ Some Anew → ⊥ }
{
    matches!(starts.get(place), Some(Start::Anew))
}

/// Counts all journaled commands of the feed `number` as commands of earlier files; does nothing where there is no such
/// feed.
fn begin_anew(feeds: &mut KeptFeeds, number: usize)
    ensures clock { feeds.new.clock ≡ feeds.old.clock }
    ensures list { feeds.new.list ≡ begun_anew number feeds.old.list }
{
    if number < feeds.list.len() {
        let journaled = feeds.list[number].journaled;
        feeds.list[number].earlier = journaled;
    }
}

/// For each feed that is another file than before, counts all its journaled commands as those of earlier files, and
/// writes to the error stream that the feed begins anew. Other feeds are unchanged. A line that could not be written is
/// no error.
pub(crate) fn renew<R: Files, E: Write>(
    run: &Run<'_, R>,
    feeds: &mut KeptFeeds,
    starts: &[Start],
    errors: &mut E,
)
    ensures count { length feeds.new.list ≡ length feeds.old.list }
    ensures clock { feeds.new.clock ≡ feeds.old.clock }
    ensures list { feeds.new.list ≡ renewed (map (λ g. g.feed) run.now.signal.gates.items) starts.now feeds.old.list }
{
    let gates = &run.signal.gates;
    for place in 0..gates.len() {
        if begins_anew(starts, place) {
            let feed = gates[place].feed;
            print_anew(run.call.alloc, feed, errors);
            begin_anew(feeds, feed as usize);
        }
    }
}
