//! The words for causes, faults, reasons and what withholds a notice: this is the only table of them. The words are parts
//! of the sentences of `meaning`.
ghost use Rattle.std.specs.Prelude.{◌≡◌};
ghost use Rattle.cmd_explain.specs.Words.{inventory_words, journal_words, state_line_words, state_words, absence_words, ending_words, reason_words, withheld_words};

use cmd_answer::StateWord;
use cmd_journal::ReadCause;
use cmd_run::Ending;
use mon_engine::{Reason, Withheld};
use mon_inventory::Cause;
use mon_state::StateCause;

/// The words for the cause of a faulty inventory line. They follow the words for the line.
pub fn inventory_words(cause: Cause) -> &'static [u8]
    ensures { result.now ≡ inventory_words cause }
{
    match cause {
        Cause::BadForm =>
            b" has none of the forms contact;NAME;HOSTOPTS;SVCOPTS, host;NAME;MAX;INTERVAL;OPTS;CONTACTS, service;HOST;DESC;MAX;INTERVAL;OPTS;CONTACTS, escalation;HOST;DESC or empty;FIRST;LAST;INTERVAL;OPTS;CONTACTS, option;NAME;VALUE, settle;SECONDS, delay;HOST;DESC or empty;SECONDS and volatile;HOST;DESC (look at the first word and the number of fields; an option's NAME is passive_host_checks_are_soft, tell_by_clock or recover_the_told), or an empty name, an empty item in a list or a comma in a contact's name",
        Cause::BadNumber => b" has a field that is no number, or none that may stand there",
        Cause::BadOption => b" has a letter that this kind of line does not allow",
        Cause::Duplicate => b" defines again what a line before it defines",
        Cause::UnknownHost => b" names a host that no line before it defines",
        Cause::UnknownService => b" names a service that no line before it defines",
        Cause::UnknownContact => b" names a contact that no line before it defines",
        Cause::TooMany => b" is one contact, host, service or escalation more than there may be",
        Cause::Memory => b" could not be read: out of memory",
    }
}

/// The words for the cause of a faulty journal line. They follow the words for the line.
pub fn journal_words(cause: ReadCause) -> &'static [u8]
    ensures { result.now ≡ journal_words cause }
{
    match cause {
        ReadCause::BadEntry =>
            b" is neither the heading nor an entry: a clock, a feed, a place and a command",
        ReadCause::BadPlace => b" has a place that is not the next one of its feed",
        ReadCause::BadClock => b" has a clock that is not the greatest time so far",
        ReadCause::Full => b" is one entry more than the limit allows",
        ReadCause::Memory => b" could not be read: out of memory",
    }
}

/// The words for the cause of a faulty line in the file `state`. They follow the words for the line.
pub fn state_line_words(cause: StateCause) -> &'static [u8]
    ensures { result.now ≡ state_line_words cause }
{
    match cause {
        StateCause::BadLine => b" is not of the form that is due there",
        StateCause::BadValue => b" has a value that nothing can have led to",
        StateCause::NotAsWritten => b" would be written otherwise: the file was cut or edited",
        StateCause::UnknownVersion => b" names a version that this program does not read",
        StateCause::Memory => b" could not be read: out of memory",
    }
}

/// The whole sentence for the fault of a state directory that this word names. Where a word has two meanings, the
/// sentence gives that of exit status 2 first.
pub fn state_words(word: StateWord) -> &'static [u8]
    ensures { result.now ≡ state_words word }
{
    match word {
        StateWord::NotThere => b"there is no such state directory",
        StateWord::Lock => b"the file lock of the state directory cannot be made or held",
        StateWord::InUse => b"another run holds the state directory",
        StateWord::Read => b"a file of the state directory cannot be read",
        StateWord::Mark => b"the file state has no line ---",
        StateWord::Inventory => b"the inventory has no object, and that of the directory has some",
        StateWord::Feeds =>
            b"a feed of the state is not given, the journal has an entry of another feed, or a path has a line feed",
        StateWord::Told =>
            b"the file told does not match the journal; with status 3, the told lines could not be written",
        StateWord::Full => b"one more segment might have more entries than a state can count",
        StateWord::File => b"the file state could not be written",
        StateWord::Journal =>
            b"a segment stands behind the last one of the state, or there is no state; with status 3, the journal could not be written",
        StateWord::Sync => b"the system does not keep what is written to the state directory",
        StateWord::Status => b"the file status could not be written",
    }
}

/// The whole sentence for a feed whose file cannot be read yet, by whether the file exists.
pub fn absence_words(is_there: bool) -> &'static [u8]
    ensures { result.now ≡ absence_words is_there }
{
    if is_there {
        b"the file of this feed cannot be opened or read; the program looks again each second, and the other feeds continue"
    } else {
        b"the file of this feed is not there; the program looks again each second, and the other feeds continue"
    }
}

/// The words for the ending of a feed. They follow the words for the feed.
pub fn ending_words(ending: Ending) -> &'static [u8]
    ensures { result.now ≡ ending_words ending }
{
    match ending {
        Ending::Whole => b"it was read to its end",
        Ending::ReadFailed => b"a read of it failed, or it broke off inside a line",
        Ending::TooManyReads => b"it gave bytes at each of the most reads that a feed may have",
        Ending::Memory => b"memory was wanting",
        Ending::QueueRefused => b"the queue took nothing any more",
    }
}

/// The words for the reason of a rejected command. They follow the words for the command.
pub fn reason_words(reason: Reason) -> &'static [u8]
    ensures { result.now ≡ reason_words reason }
{
    match reason {
        Reason::UnknownHost => b"there is no such host",
        Reason::UnknownService => b"there is no such service",
        Reason::UnknownContact => b"there is no such contact",
        Reason::NoSuchComment => b"there is no such comment of that kind of object",
        Reason::NoSuchDowntime =>
            b"there is no such downtime of that kind of object, or it is over",
        Reason::NotAProblem => b"what it acknowledges is no problem",
        Reason::BadWindow => b"the downtime does not end after its start",
        Reason::PastWindow => b"the downtime's end is past",
        Reason::NoDuration => b"the downtime is flexible and lasts 0 seconds",
        Reason::NoTrigger => b"the downtime's trigger was never scheduled",
        Reason::TriggerOver => b"the downtime's trigger is over",
        Reason::PassiveOff =>
            b"passive results are switched off, for the program or for the object",
    }
}

/// The words for what withholds the notice of a problem. They follow the words for the problem.
pub fn withheld_words(withheld: Withheld) -> &'static [u8]
    ensures { result.now ≡ withheld_words withheld }
{
    match withheld {
        Withheld::Program => b"notifications are off",
        Withheld::Switch => b"its notifications are off",
        Withheld::Downtime => b"it or its host is in a downtime",
        Withheld::Host => b"its host is not UP",
        Withheld::Letter => b"its options lack the letter of its state",
        Withheld::Acknowledged => b"it is acknowledged",
        Withheld::Soft => b"its state is soft",
        Withheld::NotBefore => b"the time of a DELAY has not come",
        Withheld::Interval => b"this state was notified, and the interval is 0 or not over",
        Withheld::Delay => b"its first notification delay is not over",
        Withheld::Settle => b"its host came back too short a time ago for a first notice",
        Withheld::Nobody => b"no contact may get the notice",
    }
}
