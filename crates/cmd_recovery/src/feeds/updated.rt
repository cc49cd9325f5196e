//! Updates the kept data of each feed, its count of commands and its last line, by the entries since the file `state`
//! was written. No file is read or written.
ghost use Rattle.std.specs.Prelude.{◌≡◌, ◌≢◌, ◌≤◌, ℕ, None, true, false, length, slice_index, slice_index_or, IfOk, All};
ghost use Rattle.cmd_types.specs.declared.limits.TheConstants.{GREATEST_NUMBER};
ghost use Rattle.cmd_types.specs.declared.entry.TheConstants.{MOST_SENDERS};
ghost use Rattle.cmd_types.specs.Spelling.{canonical};
ghost use Rattle.cmd_recovery.specs.Updates.{line_or, all_updated};

use cmd_journal::Past;
use cmd_types::{Memory, Stamped, Text};
use mon_state::KeptFeed;
use std::alloc::Global;

/// The canonical line of a command, without its line feed. Fails if memory runs out.
fn line_of(alloc: Global, stamped: &Stamped) -> Result<Text, Memory>
    ensures { IfOk result (λ line. line ≡ canonical stamped.now) }
{
    let mut line = Vec::new(alloc);
    stamped.write_line(alloc, &mut line)?;
    // `write_line` ends the line with a line feed, and the kept line has none.
    line.pop();
    Ok(Text::new(line))
}

/// The line of the command `last`, or a copy of the line `before` where `last` is `None`. Fails if memory runs out.
fn last_line(alloc: Global, before: &Text, last: &Option<Stamped>) -> Result<Text, Memory>
    ensures { IfOk result (λ line. line ≡ line_or before.now last.now) }
{
    match last {
        Some(stamped) => line_of(alloc, stamped),
        None => before.copy(alloc),
    }
}

/// A copy of the kept data of the feed `number`, with the count of its commands in `past`, and with the line of the
/// command `last` unless that is `None`. Fails if memory runs out.
fn update(
    alloc: Global,
    feed: &KeptFeed,
    number: u16,
    past: &Past,
    last: &Option<Stamped>,
) -> Result<KeptFeed, Memory>
    ensures value { IfOk result (λ f. f ≡ record feed.now { journaled = slice_index past.now.last_places number; last = line_or feed.now.last last.now }) }
    ensures small { IfOk result (λ f. f.journaled ≤ GREATEST_NUMBER) }
{
    Ok(KeptFeed {
        words: feed.words.copy(alloc)?,
        journaled: past.next_place(number) - 1,
        earlier: feed.earlier,
        last: last_line(alloc, &feed.last, last)?,
    })
}

/// A copy of the kept data of all feeds, each with the count of its commands in `past`, and with the line of its
/// command in `lasts` unless that is `None`. Fails if memory runs out.
pub(crate) fn update_all(
    alloc: Global,
    feeds: &[KeptFeed],
    past: &Past,
    lasts: &[Option<Stamped>],
) -> Result<Vec<KeptFeed>, Memory>
    requires lasts { length lasts.now ≡ MOST_SENDERS }
    requires few { length feeds.now ≤ MOST_SENDERS }
    ensures value { IfOk result (λ fs. fs.items ≡ all_updated past.now.last_places lasts.now 0 feeds.now) }
    ensures small { IfOk result (λ fs. All (λ f. f.journaled ≤ GREATEST_NUMBER) fs.items) }
{
    let mut list = Vec::new(alloc);
    for number in 0..feeds.len() {
        let feed = update(alloc, &feeds[number], number as u16, past, &lasts[number])?;
        list.push(feed)?;
    }
    Ok(list)
}

/// Whether each sender with a command in `lasts` has a number below `count`.
pub(crate) fn are_of_feeds(lasts: &[Option<Stamped>], count: usize) -> bool
    ensures none { result ≡ true → (k : ℕ) → count ≤ k → slice_index_or lasts.now k None ≡ None }
    ensures one { result ≡ false → (k : ℕ) × (count ≤ k) × (slice_index_or lasts.now k None ≢ None) }
{
    for number in count..lasts.len() {
        if lasts[number].is_some() {
            return false;
        }
    }
    true
}
