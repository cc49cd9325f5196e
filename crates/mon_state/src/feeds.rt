//! The part of the file `state` for the feeds of a state directory, written and read back. It has the name, the counts
//! of journaled commands and the last command of each feed, and the number of the clock feed. If memory runs out, a
//! `put_..` leaves a part of the lines in `out`; a `read_..` moves the cursor after the lines that it read.
ghost use Rattle.std.specs.Prelude.{◌≡◌, ◌≢◌, ◌++◌, [], Some, length, IfOk, IfErr, OnOk, OnErr};
ghost use Rattle.cmd_types.specs.Growth.{Grows};
ghost use Rattle.mon_engine.specs.Report.{each_index};
ghost use Rattle.mon_state.specs.Feeds.{feed_lines_of, feed_lines, feeds_text, AreReadBack, AreWritable};
ghost use Rattle.mon_state.specs.declared.fault.StateCause.{StateCause as ACause};
ghost use Rattle.mon_state.specs.Faults.{IsFeedsFault};
ghost use Rattle.mon_state.specs.Reading.{many_at};
ghost use Rattle.mon_state.specs.FileReading.{feed_at, next_feed, is_feed, feeds_at};
ghost use Rattle.mon_state.specs.Cursors.{Gives};

use crate::appending::put;
use crate::cursor::{Cursor, rest_after};
use crate::fault::{StateCause, StateFault};
use crate::places::{difference, line_at};
use cmd_types::{GREATEST_NUMBER, MOST_SENDERS, Memory, Text};
use mon_engine::Field;
use std::alloc::Global;
use std::marker::Model;

/// What a state directory keeps of one feed (profile).
///
/// See the example of [`read_feeds`].
#[derive(Drop)]
pub struct KeptFeed {
    /// The name of the feed: its path as given on the command line; empty for the clock feed.
    pub words: Text,
    /// The number of commands of the feed that were journaled.
    pub journaled: u64,
    /// The number of these commands that were in earlier files of the same name.
    pub earlier: u64,
    /// The canonical line of the last journaled command; empty where there is none.
    pub last: Text,
}

/// The feeds of a state directory, in order of their numbers (profile).
///
/// See the example of [`read_feeds`].
#[derive(Drop)]
pub struct KeptFeeds {
    pub list: Vec<KeptFeed>,
    /// The number of the clock feed; `None` where no feed is the clock feed.
    pub clock: Option<u16>,
}

impl Model for KeptFeeds {
    ghost use Rattle.mon_state.specs.Feeds.{Feeds};

    ghost Value = { Feeds };

    ghost view = { λ f. record { list = f.list.items; clock = f.clock } };
}

/// Appends the two lines of this feed, `feed` and `last`, with this number.
fn put_lines(out: &mut Vec<u8>, number: u64, feed: &KeptFeed) -> Result<(), Memory>
    ensures ok { OnOk result (out.new.items ≡ out.old.items ++ feed_lines_of number (Some feed.now)) }
    ensures grown { Grows out.old.items out.new.items }
{
    put(
        out,
        b"feed",
        &[
            Field::Number(number),
            Field::Number(feed.journaled),
            Field::Number(feed.earlier),
            Field::Bytes(feed.words.as_bytes()),
        ],
    )?;
    put(out, b"last", &[Field::Bytes(feed.last.as_bytes())])
}

/// Appends the two lines of each feed, in order of their numbers.
fn put_each(out: &mut Vec<u8>, feeds: &[KeptFeed]) -> Result<(), Memory>
    ensures ok { OnOk result (out.new.items ≡ out.old.items ++ each_index (feed_lines feeds.now) (length feeds.now)) }
    ensures grown { Grows out.old.items out.new.items }
{
    for (number, feed) in feeds.iter().enumerate() {
        put_lines(out, number as u64, feed)?;
    }
    Ok(())
}

/// Appends the text of the feeds: the line `feeds` with the number of the clock feed and the count, and the lines of
/// each feed.
#[tactic(auto, unfolding(crate::specs::Feeds::feeds_text))]
fn put_feeds(out: &mut Vec<u8>, feeds: &KeptFeeds) -> Result<(), Memory>
    ensures ok { OnOk result (out.new.items ≡ out.old.items ++ feeds_text feeds.now) }
    ensures grown { Grows out.old.items out.new.items }
{
    let clock = match feeds.clock {
        None => None,
        Some(clock) => Some(u64::from(clock)),
    };
    let count = feeds.list.len() as u64;
    put(
        out,
        b"feeds",
        &[Field::optional(clock), Field::Number(count)],
    )?;
    put_each(out, &feeds.list)
}

/// Appends the text of the feeds of a state directory (profile). If memory runs out, `out` is unchanged.
///
/// See the example of [`read_feeds`].
pub fn write_feeds(feeds: &KeptFeeds, out: &mut Vec<u8>) -> Result<(), Memory>
    ensures ok { OnOk result (out.new.items ≡ out.old.items ++ feeds_text feeds.now) }
    ensures err { OnErr result (out.new.items ≡ out.old.items) }
{
    let len = out.len();
    if let Err(refusal) = put_feeds(out, feeds) {
        out.truncate(len);
        return Err(refusal);
    }
    Ok(())
}

/// Reads the two lines of a feed. The number in them is not compared here.
#[tactic(auto, unfolding(crate::specs::FileReading::feed_at))]
fn read_feed(alloc: Global, cursor: &mut Cursor<'_>) -> Result<KeptFeed, StateCause>
    ensures { Gives (λ f. (f, cursor.new.rest)) cursor.new.last result (feed_at cursor.old.rest) }
{
    cursor.expect(b"feed;")?;
    let _number = cursor.number(b';')?;
    let journaled = cursor.small(GREATEST_NUMBER, b';')?;
    let earlier = cursor.small(journaled, b';')?;
    let words = cursor.field(b'\n')?;
    cursor.expect(b"last;")?;
    let last = cursor.field(b'\n')?;
    Ok(KeptFeed {
        words: Text::from_slice(alloc, words)?,
        journaled,
        earlier,
        last: Text::from_slice(alloc, last)?,
    })
}

/// Reads the lines of `count` feeds.
fn read_each(
    alloc: Global,
    cursor: &mut Cursor<'_>,
    count: u64,
) -> Result<Vec<KeptFeed>, StateCause>
    ensures { Gives (λ fs. (fs.items, cursor.new.rest)) cursor.new.last result (many_at next_feed count [] cursor.old.rest) }
{
    let mut feeds = Vec::new(alloc);
    for _ in 0..count {
        feeds.push(read_feed(alloc, cursor)?)?;
    }
    Ok(feeds)
}

/// Whether `clock` is below `count`, so that it is the number of a feed; true for `None`.
fn is_feed(clock: Option<u64>, count: u64) -> bool
    ensures { result ≡ is_feed clock count }
{
    match clock {
        None => true,
        Some(clock) => clock < count,
    }
}

/// Reads the text of the feeds: the line `feeds`, and the lines of each feed.
#[tactic(auto, unfolding(crate::specs::FileReading::feeds_at))]
fn read_table(alloc: Global, cursor: &mut Cursor<'_>) -> Result<KeptFeeds, StateCause>
    ensures { Gives (λ f. (f, cursor.new.rest)) cursor.new.last result (feeds_at cursor.old.rest) }
{
    cursor.expect(b"feeds;")?;
    let clock = cursor.optional(b';')?;
    let count = cursor.small(u64::from(MOST_SENDERS), b'\n')?;
    if !is_feed(clock, count) {
        return Err(StateCause::BadValue);
    }
    let list = read_each(alloc, cursor, count)?;
    let clock = match clock {
        None => None,
        Some(clock) => Some(clock as u16),
    };
    Ok(KeptFeeds { list, clock })
}

/// Reads the feeds of a state directory from the start of a text, as [`write_feeds`] writes them, and returns them with
/// the text after them (profile). Any other text is refused, with the line in which the first faulty field begins, or
/// with the first line that would be written differently. The memory that it takes is linear in the length of the text.
///
/// # Errors
/// The line, counted from 1, and the [`StateCause`]; it is [`StateCause::Memory`] if memory runs out.
///
/// ```
/// let mut feeds = KeptFeeds {
///     list: Vec::new(alloc),
///     clock: Some(0),
/// };
/// feeds.list.push(KeptFeed {
///     words: Text::from_slice(alloc, b"")?,
///     journaled: 2,
///     earlier: 0,
///     last: Text::from_slice(alloc, b"[9] RESTART_PROGRAM")?,
/// })?;
/// let mut text = Vec::new(alloc);
/// write_feeds(&feeds, &mut text)?;
/// assert_eq!(rt;
///     text.as_slice(),
///     b"feeds;0;1\nfeed;0;2;0;\nlast;[9] RESTART_PROGRAM\n".as_slice()
/// );
/// let Ok((read, rest)) = read_feeds(alloc, &text) else {
///     return Err(Fail::new("it is as written"));
/// };
/// assert_eq!(rt; (read.list.len(), read.clock), (1, Some(0)));
/// assert!(rt; rest.is_empty());
/// ```
pub fn read_feeds<'a>(alloc: Global, text: &'a [u8]) -> Result<(KeptFeeds, &'a [u8]), StateFault>
    // No other text is read.
    ensures text { IfOk result (λ r. text.now ≡ feeds_text r.0 ++ r.1.now) }
    ensures writable { IfOk result (λ r. AreWritable r.0) }
    // What is written is read back.
    ensures back { AreReadBack (λ r. (r.0, r.1.now)) text.now result }
    // The fault is the first of the text.
    ensures first { IfErr result (λ f. IsFeedsFault text.now f) }
    // The lines of feeds have no version.
    ensures known { IfErr result (λ f. f.cause ≢ ACause.UnknownVersion) }
{
    let mut cursor = Cursor::new(text);
    let feeds = match read_table(alloc, &mut cursor) {
        Ok(feeds) => feeds,
        Err(cause) => {
            let read = text.len().saturating_sub(cursor.last_left());
            return Err(StateFault {
                line: line_at(text, read),
                cause,
            });
        }
    };
    let mut written = Vec::new(alloc);
    let Ok(()) = write_feeds(&feeds, &mut written) else {
        return Err(StateFault {
            line: 1,
            cause: StateCause::Memory,
        });
    };
    match rest_after(text, &written) {
        Some(rest) => Ok((feeds, rest)),
        None => Err(StateFault {
            line: line_at(text, difference(text, &written)),
            cause: StateCause::NotAsWritten,
        }),
    }
}
