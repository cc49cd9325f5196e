//! The kinds of lines that the program prints, each with the form of its lines.
ghost use Rattle.std.specs.Prelude.{◌≡◌};
ghost use Rattle.cmd_explain.specs.KnownLines.{state_form, ended_form, feed_form, form_of, kind_of};

use cmd_answer::StateWord;
use cmd_run::Ending;

/// The kind of a line. All lines of one kind have one form.
#[derive(Clone, Copy, Debug, PartialEq, Eq)]
pub enum LineKind {
    Usage,
    Input,
    Feeds,
    FeedTwice,
    Memory,
    Output,
    Inventory,
    Journal,
    Fault,
    State(StateWord),
    StateLine,
    StateInventory,
    StateJournal,
    Following,
    Waits,
    Replaced,
    Anew,
    Ended(Ending),
    ClockAhead,
    NewInventory,
    InventoryRefused,
    ToldMissing,
    Refused,
    Rejected,
    NoReport,
    Feed(Ending),
}

/// All kinds of lines; [`kind_of`] finds only these.
const KINDS: [LineKind; 46] = [
    LineKind::Usage,
    LineKind::Input,
    LineKind::Feeds,
    LineKind::FeedTwice,
    LineKind::Memory,
    LineKind::Output,
    LineKind::Inventory,
    LineKind::Journal,
    LineKind::Fault,
    LineKind::State(StateWord::NotThere),
    LineKind::State(StateWord::Lock),
    LineKind::State(StateWord::InUse),
    LineKind::State(StateWord::Read),
    LineKind::State(StateWord::Mark),
    LineKind::State(StateWord::Inventory),
    LineKind::State(StateWord::Feeds),
    LineKind::State(StateWord::Told),
    LineKind::State(StateWord::Full),
    LineKind::State(StateWord::File),
    LineKind::State(StateWord::Journal),
    LineKind::State(StateWord::Sync),
    LineKind::State(StateWord::Status),
    LineKind::StateLine,
    LineKind::StateInventory,
    LineKind::StateJournal,
    LineKind::Following,
    LineKind::Waits,
    LineKind::Replaced,
    LineKind::Anew,
    LineKind::Ended(Ending::Whole),
    LineKind::Ended(Ending::ReadFailed),
    LineKind::Ended(Ending::TooManyReads),
    LineKind::Ended(Ending::Memory),
    LineKind::Ended(Ending::QueueRefused),
    LineKind::ClockAhead,
    LineKind::NewInventory,
    LineKind::InventoryRefused,
    LineKind::ToldMissing,
    LineKind::Refused,
    LineKind::Rejected,
    LineKind::NoReport,
    LineKind::Feed(Ending::Whole),
    LineKind::Feed(Ending::ReadFailed),
    LineKind::Feed(Ending::TooManyReads),
    LineKind::Feed(Ending::Memory),
    LineKind::Feed(Ending::QueueRefused),
];

/// The form of the line `gateway: state ..` for this reason.
fn state_form(word: StateWord) -> &'static [u8]
    ensures { result.now ≡ state_form word }
{
    match word {
        StateWord::NotThere => b"gateway: state not there",
        StateWord::Lock => b"gateway: state lock",
        StateWord::InUse => b"gateway: state in use",
        StateWord::Read => b"gateway: state read",
        StateWord::Mark => b"gateway: state mark",
        StateWord::Inventory => b"gateway: state inventory",
        StateWord::Feeds => b"gateway: state feeds",
        StateWord::Told => b"gateway: state told",
        StateWord::Full => b"gateway: state full",
        StateWord::File => b"gateway: state file",
        StateWord::Journal => b"gateway: state journal",
        StateWord::Sync => b"gateway: state sync",
        StateWord::Status => b"gateway: state status",
    }
}

/// The form of the line `gateway: feed ..` for a followed feed with this ending.
fn ended_form(ending: Ending) -> &'static [u8]
    ensures { result.now ≡ ended_form ending }
{
    match ending {
        Ending::Whole => b"gateway: feed 0: whole",
        Ending::ReadFailed => b"gateway: feed 0: read-failed",
        Ending::TooManyReads => b"gateway: feed 0: too-many-reads",
        Ending::Memory => b"gateway: feed 0: memory",
        Ending::QueueRefused => b"gateway: feed 0: queue-refused",
    }
}

/// The form of the line `feed;..`, which follows a report, with this ending.
fn feed_form(ending: Ending) -> &'static [u8]
    ensures { result.now ≡ feed_form ending }
{
    match ending {
        Ending::Whole => b"feed;0;0;whole",
        Ending::ReadFailed => b"feed;0;0;read-failed",
        Ending::TooManyReads => b"feed;0;0;too-many-reads",
        Ending::Memory => b"feed;0;0;memory",
        Ending::QueueRefused => b"feed;0;0;queue-refused",
    }
}

/// The form of the lines of a kind.
fn form_of(kind: LineKind) -> &'static [u8]
    ensures { result.now ≡ form_of kind }
{
    match kind {
        LineKind::Usage => b"gateway: usage",
        LineKind::Input => b"gateway: input",
        LineKind::Feeds => b"gateway: feeds",
        LineKind::FeedTwice => b"gateway: feed twice",
        LineKind::Memory => b"gateway: memory",
        LineKind::Output => b"gateway: output",
        LineKind::Inventory => b"gateway: inventory line 0: 0",
        LineKind::Journal => b"gateway: journal line 0: 0",
        LineKind::Fault => b"gateway: fault 0 0",
        LineKind::State(word) => state_form(word),
        LineKind::StateLine => b"gateway: state line 0: 0",
        LineKind::StateInventory => b"gateway: state inventory line 0: 0",
        LineKind::StateJournal => b"gateway: state journal line 0: 0",
        LineKind::Following => b"gateway: following 0 feeds, 0 entries, clock 0",
        LineKind::Waits => b"gateway: feed 0 waits: line 0 is 0 seconds ahead",
        LineKind::Replaced => b"gateway: feed 0: replaced",
        LineKind::Anew => b"gateway: feed 0: begins anew",
        LineKind::Ended(ending) => ended_form(ending),
        LineKind::ClockAhead => b"gateway: clock: 0 seconds ahead",
        LineKind::NewInventory => b"gateway: inventory: 0 hosts, 0 services",
        LineKind::InventoryRefused => b"gateway: inventory refused: line 0: 0",
        LineKind::ToldMissing => b"gateway: told 0.0: not there",
        LineKind::Refused => b"refused;0;0;0;0",
        LineKind::Rejected => b"rejected;0;0;0",
        LineKind::NoReport => b"fault;0;0",
        LineKind::Feed(ending) => feed_form(ending),
    }
}

/// The kind whose form is `form`; `None` where no kind has this form.
#[tactic(auto, unfolding(crate::specs::KnownLines::kind_of))]
pub fn kind_of(form: &[u8]) -> Option<LineKind>
    ensures { result ≡ kind_of form.now }
{
    KINDS.iter().copied().find(|kind| form_of(*kind) == form)
}
