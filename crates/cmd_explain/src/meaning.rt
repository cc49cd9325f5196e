//! The meaning of a line in words: one sentence for each kind of line. Each function `put_..` appends to `out` and
//! changes nothing else; if memory runs out, a part of the words is in `out`.
ghost use Rattle.std.specs.Prelude.{◌≡◌, ◌++◌, [], ◌∷◌, codes, OnOk};
ghost use Rattle.std.specs.Fmt.{decimal};
ghost use Rattle.cmd_explain.specs.Meanings.{meaning, together};
ghost use Rattle.cmd_explain.specs.Words.{run_words, fault_words};

use crate::known::KnownLine;
use crate::pieces::Piece::{Number, Words};
use crate::pieces::put_pieces;
use crate::words::{
    absence_words, ending_words, inventory_words, journal_words, reason_words, state_line_words,
    state_words, withheld_words,
};
use cmd_lines::LineFault;
use cmd_run::RunCause;
use cmd_types::Memory;
use mon_engine::Withheld;

const USAGE: &[u8] =
    b"the words ask for nothing that the program does, or a value is out of its range";

const FEEDS: &[u8] =
    b"there is no separator, or no feed, or there are more than 64, a clock among them";

const OPEN: &[u8] =
    b"the file cannot be opened; or it is the inventory, and cannot be read to its end";

const IN_STATE: &[u8] = b" of the inventory in the file state";

const IN_SEGMENT: &[u8] = b" of the last segment of the journal";

const REPLACED: &[u8] = b" got shorter, or its name is that of another file or of none";

const ANEW: &[u8] = b" is not the one that was read before, and is read from its beginning";

const JUMPED: &[u8] = b"the system's clock jumped ahead of the time that passed; seconds: ";

const USED_AGAIN: &[u8] = b"; the clock feed uses it again once five readings agree";

const IN_NEW: &[u8] = b" of the new inventory";

const OLD_STAYS: &[u8] = b"; the old inventory stays in force";

/// Appends the words for the cause by which a run failed.
fn put_run_words(out: &mut Vec<u8>, cause: RunCause) -> Result<(), Memory>
    ensures { OnOk result (out.new.items ≡ out.old.items ++ together (run_words cause)) }
{
    match cause {
        RunCause::BadOptions => put_pieces(out, &[Words(b"an option is out of its range")]),
        RunCause::Memory => put_pieces(out, &[Words(b"memory was wanting")]),
        RunCause::Spawn(feed) => put_pieces(
            out,
            &[
                Words(b"the thread of feed "),
                Number(u64::from(feed)),
                Words(b" was not started"),
            ],
        ),
        RunCause::JournalFull => put_pieces(
            out,
            &[Words(b"the limit was reached and another command came")],
        ),
        RunCause::QueueLost => put_pieces(out, &[Words(b"the queue was lost")]),
        RunCause::SenderStopped(feed) => put_pieces(
            out,
            &[
                Words(b"feed "),
                Number(u64::from(feed)),
                Words(b" wanted memory, or the queue refused what it sent"),
            ],
        ),
        RunCause::Output => put_pieces(out, &[Words(b"the output took nothing any more")]),
    }
}

/// Appends the words on a faulty argument: its number, and then `words` for its fault.
fn put_argument(out: &mut Vec<u8>, argument: u8, words: &[u8]) -> Result<(), Memory>
    ensures { OnOk result (out.new.items ≡ out.old.items ++ together (codes "argument " ∷ decimal argument ∷ words.now ∷ [])) }
{
    put_pieces(
        out,
        &[
            Words(b"argument "),
            Number(u64::from(argument)),
            Words(words),
        ],
    )
}

/// Appends the words for the fault of a refused line.
pub fn put_fault_words(out: &mut Vec<u8>, fault: LineFault) -> Result<(), Memory>
    ensures { OnOk result (out.new.items ≡ out.old.items ++ together (fault_words fault)) }
{
    match fault {
        LineFault::TooLong => put_pieces(out, &[Words(b"it is too long")]),
        LineFault::Torn => put_pieces(out, &[Words(b"the feed broke off in it")]),
        LineFault::NoBracket => put_pieces(out, &[Words(b"it does not begin with [")]),
        LineFault::BadTime => put_pieces(
            out,
            &[Words(
                b"no whole number of 1 to 13 digits up to 1,099,511,627,775 stands between [ and ]",
            )],
        ),
        LineFault::NoSpace => put_pieces(out, &[Words(b"no space stands behind ]")]),
        LineFault::UnknownCommand => put_pieces(out, &[Words(b"no command has this name")]),
        LineFault::Missing(argument) => put_argument(out, argument, b" is missing"),
        LineFault::EmptyName(argument) => put_argument(out, argument, b" is an empty name"),
        LineFault::BadNumber(argument) => put_argument(
            out,
            argument,
            b" is no number, or none that may stand there",
        ),
        LineFault::Memory => put_pieces(out, &[Words(b"memory was wanting")]),
    }
}

/// Appends the sentence on a faulty line: its number, then `text`, which names the text that the line is in, then
/// `words` for the cause.
fn put_line<'a>(out: &mut Vec<u8>, line: u64, text: &'a [u8], words: &'a [u8]) -> Result<(), Memory>
    ensures { OnOk result (out.new.items ≡ out.old.items ++ together (codes "line " ∷ decimal line ∷ text.now ∷ words.now ∷ [])) }
{
    put_pieces(
        out,
        &[Words(b"line "), Number(line), Words(text), Words(words)],
    )
}

/// Appends the sentence on the file of a feed, which ends with `words`.
fn put_file(out: &mut Vec<u8>, feed: u64, words: &[u8]) -> Result<(), Memory>
    ensures { OnOk result (out.new.items ≡ out.old.items ++ together (codes "the file of feed " ∷ decimal feed ∷ words.now ∷ [])) }
{
    put_pieces(
        out,
        &[Words(b"the file of feed "), Number(feed), Words(words)],
    )
}

/// Appends the sentence on a jump of the system's clock, which moved by `seconds` more than the time that passed.
fn put_jump(out: &mut Vec<u8>, seconds: u64) -> Result<(), Memory>
    ensures { OnOk result (out.new.items ≡ out.old.items ++ meaning (KnownLine.ClockAhead seconds)) }
{
    put_pieces(out, &[Words(JUMPED), Number(seconds), Words(USED_AGAIN)])
}

/// Appends the sentence on a new inventory that was taken, with the number of its hosts and of its services.
fn put_inventory(out: &mut Vec<u8>, hosts: u64, services: u64) -> Result<(), Memory>
    ensures { OnOk result (out.new.items ≡ out.old.items ++ meaning (KnownLine.NewInventory hosts services)) }
{
    put_pieces(
        out,
        &[
            Words(b"a new inventory was taken without a restart; hosts: "),
            Number(hosts),
            Words(b"; services: "),
            Number(services),
        ],
    )
}

/// Appends the sentence on a new inventory that was not taken, with `words` for the cause of its faulty line.
fn put_old_inventory(out: &mut Vec<u8>, line: u64, words: &[u8]) -> Result<(), Memory>
    ensures { OnOk result (out.new.items ≡ out.old.items ++ together (codes "line " ∷ decimal line ∷ codes " of the new inventory" ∷ words.now ∷ codes "; the old inventory stays in force" ∷ [])) }
{
    put_pieces(
        out,
        &[
            Words(b"line "),
            Number(line),
            Words(IN_NEW),
            Words(words),
            Words(OLD_STAYS),
        ],
    )
}

/// Appends the sentence on a place whose file of told lines is missing.
fn put_missing(out: &mut Vec<u8>, segment: u64, line: u64) -> Result<(), Memory>
    ensures { OnOk result (out.new.items ≡ out.old.items ++ meaning (KnownLine.ToldMissing segment line)) }
{
    put_pieces(
        out,
        &[
            Words(b"line "),
            Number(line),
            Words(b" of the file told."),
            Number(segment),
            Words(
                b" is not there; the lines begin at the first later one that is, or else at the first of all",
            ),
        ],
    )
}

/// Appends the sentence on a run that begins: the number of its feeds, of the entries before it, and the monitor's
/// clock in seconds.
fn put_start(out: &mut Vec<u8>, feeds: u64, entries: u64, clock: u64) -> Result<(), Memory>
    ensures { OnOk result (out.new.items ≡ out.old.items ++ meaning (KnownLine.Following feeds entries clock)) }
{
    put_pieces(
        out,
        &[
            Words(b"feeds that are followed: "),
            Number(feeds),
            Words(b"; commands that were applied before: "),
            Number(entries),
            Words(b"; the clock is "),
            Number(clock),
        ],
    )
}

/// Appends the sentence on a command that waits, with the seconds by which it is ahead of the system's clock.
fn put_wait(out: &mut Vec<u8>, feed: u64, line: u64, seconds: u64) -> Result<(), Memory>
    ensures { OnOk result (out.new.items ≡ out.old.items ++ meaning (KnownLine.Waits feed line seconds)) }
{
    put_pieces(
        out,
        &[
            Words(b"the command in line "),
            Number(line),
            Words(b" of feed "),
            Number(feed),
            Words(b" waits; seconds from the system's clock to its time: "),
            Number(seconds),
        ],
    )
}

/// Appends the sentence on the end of a followed feed, with `words` for its ending.
fn put_end(out: &mut Vec<u8>, feed: u64, words: &[u8]) -> Result<(), Memory>
    ensures { OnOk result (out.new.items ≡ out.old.items ++ together (codes "feed " ∷ decimal feed ∷ codes " has ended: " ∷ words.now ∷ [])) }
{
    put_pieces(
        out,
        &[
            Words(b"feed "),
            Number(feed),
            Words(b" has ended: "),
            Words(words),
        ],
    )
}

/// Appends the sentence on a rejected command, with its place in its feed and `words` for the reason.
fn put_rejection(out: &mut Vec<u8>, feed: u64, place: u64, words: &[u8]) -> Result<(), Memory>
    ensures { OnOk result (out.new.items ≡ out.old.items ++ together (codes "command " ∷ decimal place ∷ codes " of feed " ∷ decimal feed ∷ codes " had no effect: " ∷ words.now ∷ [])) }
{
    put_pieces(
        out,
        &[
            Words(b"command "),
            Number(place),
            Words(b" of feed "),
            Number(feed),
            Words(b" had no effect: "),
            Words(words),
        ],
    )
}

/// Appends the sentence on a feed that has ended: the number of its commands, and `words` for its ending.
fn put_feed(out: &mut Vec<u8>, feed: u64, accepted: u64, words: &[u8]) -> Result<(), Memory>
    ensures { OnOk result (out.new.items ≡ out.old.items ++ together (codes "commands that feed " ∷ decimal feed ∷ codes " gave: " ∷ decimal accepted ∷ codes "; " ∷ words.now ∷ [])) }
{
    put_pieces(
        out,
        &[
            Words(b"commands that feed "),
            Number(feed),
            Words(b" gave: "),
            Number(accepted),
            Words(b"; "),
            Words(words),
        ],
    )
}

/// Appends the sentence on what withholds the notice of an object's problem; `None` where nothing does.
fn put_withheld(out: &mut Vec<u8>, withheld: Option<Withheld>) -> Result<(), Memory>
    ensures { OnOk result (out.new.items ≡ out.old.items ++ meaning (KnownLine.Times withheld)) }
{
    match withheld {
        None => put_pieces(
            out,
            &[Words(b"nothing withholds a notice of the object now")],
        ),
        Some(withheld) => put_pieces(
            out,
            &[
                Words(b"nobody is notified of the problem now: "),
                Words(withheld_words(withheld)),
            ],
        ),
    }
}

/// Appends the sentence on a run that failed by this cause.
fn put_failure(out: &mut Vec<u8>, cause: RunCause) -> Result<(), Memory>
    ensures { OnOk result (out.new.items ≡ out.old.items ++ meaning (KnownLine.Fault cause)) }
{
    out.extend_from_slice(b"the run failed: ")?;
    put_run_words(out, cause)
}

/// Appends the sentence on a refused line of a feed, with the words for the line's fault.
fn put_refusal(out: &mut Vec<u8>, feed: u64, line: u64, fault: LineFault) -> Result<(), Memory>
    ensures { OnOk result (out.new.items ≡ out.old.items ++ meaning (KnownLine.Refused feed line fault)) }
{
    put_pieces(
        out,
        &[
            Words(b"line "),
            Number(line),
            Words(b" of feed "),
            Number(feed),
            Words(b" is no command: "),
        ],
    )?;
    put_fault_words(out, fault)
}

/// Appends the meaning of a line: one sentence without a line feed. If memory runs out, a part of it is in `out`.
pub fn put_meaning(out: &mut Vec<u8>, known: KnownLine) -> Result<(), Memory>
    ensures { OnOk result (out.new.items ≡ out.old.items ++ meaning known) }
{
    match known {
        KnownLine::Usage => out.extend_from_slice(USAGE),
        KnownLine::Input => out.extend_from_slice(b"the input could not be read to its end"),
        KnownLine::Feeds => out.extend_from_slice(FEEDS),
        KnownLine::FeedTwice => out.extend_from_slice(b"the words name a feed twice"),
        KnownLine::Memory => out.extend_from_slice(b"memory was wanting"),
        KnownLine::Output => out.extend_from_slice(b"the output failed: not all stands there"),
        KnownLine::Open => out.extend_from_slice(OPEN),
        KnownLine::Inventory { line, cause } => put_line(out, line, b"", inventory_words(cause)),
        KnownLine::Journal { line, cause } => {
            put_line(out, line, b" of the journal", journal_words(cause))
        }
        KnownLine::Fault { cause } => put_failure(out, cause),
        KnownLine::State { word } => out.extend_from_slice(state_words(word)),
        KnownLine::StateLine { line, cause } => {
            put_line(out, line, b" of the file state", state_line_words(cause))
        }
        KnownLine::StateInventory { line, cause } => {
            put_line(out, line, IN_STATE, inventory_words(cause))
        }
        KnownLine::StateJournal { line, cause } => {
            put_line(out, line, IN_SEGMENT, journal_words(cause))
        }
        KnownLine::Following {
            feeds,
            entries,
            clock,
        } => put_start(out, feeds, entries, clock),
        KnownLine::Waits {
            feed,
            line,
            seconds,
        } => put_wait(out, feed, line, seconds),
        KnownLine::Replaced { feed } => put_file(out, feed, REPLACED),
        KnownLine::Anew { feed } => put_file(out, feed, ANEW),
        KnownLine::Ended { feed, ending } => put_end(out, feed, ending_words(ending)),
        KnownLine::ClockAhead { seconds } => put_jump(out, seconds),
        KnownLine::Absent { is_there } => out.extend_from_slice(absence_words(is_there)),
        KnownLine::NewInventory { hosts, services } => put_inventory(out, hosts, services),
        KnownLine::InventoryRefused { line, cause } => {
            put_old_inventory(out, line, inventory_words(cause))
        }
        KnownLine::ToldMissing { segment, line } => put_missing(out, segment, line),
        KnownLine::Refused { feed, line, fault } => put_refusal(out, feed, line, fault),
        KnownLine::Rejected {
            feed,
            place,
            reason,
        } => put_rejection(out, feed, place, reason_words(reason)),
        KnownLine::Feed {
            feed,
            accepted,
            ending,
        } => put_feed(out, feed, accepted, ending_words(ending)),
        KnownLine::Times { withheld } => put_withheld(out, withheld),
    }
}
