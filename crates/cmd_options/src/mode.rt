//! The modes of the program with their options and paths. Values only, which `cmd_words` makes.
use crate::options::RunOptions;

/// The most reads of a feed or another input: a choice, the greatest value of [`RunOptions::reads`]. So a feed of fewer
/// bytes is read to its end, even where each read returns one byte (profile).
pub const MOST_READS: u32 = u32::MAX;

/// Which optional parts are printed after the lines on the feeds (profile).
///
/// See the example of [`Mode`].
#[derive(Clone, Copy, Debug, PartialEq, Eq)]
pub struct Asked {
    /// Whether the run keeps live figures, and prints them at its end.
    pub figures: bool,
    /// Whether the journal is printed.
    pub journal: bool,
}

/// The options of a run over feeds, and which optional parts are printed beside the report (profile).
///
/// See the example of [`Mode`].
#[derive(Clone, Copy, Debug, PartialEq, Eq)]
pub struct Options {
    pub run: RunOptions,
    pub asked: Asked,
}

/// The mode of a call that reads the program's input, with its options (profile).
///
/// ```
/// let run = RunOptions {
///     capacity: 64,
///     piece: 4_096,
///     limit: 1_000,
///     reads: MOST_READS,
/// };
/// let asked = Asked {
///     figures: false,
///     journal: true,
/// };
/// let mode = Mode::Bundle(Options { run, asked });
/// assert!(rt; mode != Mode::Replay { limit: 1_000 });
/// ```
#[derive(Clone, Copy, Debug, PartialEq, Eq)]
pub enum Mode {
    /// Reads a bundle, which is an inventory and 1 to [`MOST_SENDERS`](cmd_types::MOST_SENDERS) feeds, and prints the
    /// report of what the feeds mean.
    Bundle(Options),
    /// Reads an inventory and a journal of at most `limit` entries, 1 to [`cmd_journal::GREATEST_LIMIT`], and prints
    /// the report of what the journal means.
    Replay { limit: u32 },
}

/// A call of the mode `files`: the path of the inventory, the path of each feed, and the options (profile).
///
/// ```
/// // OPTIONS: options of a run
/// let mut feeds = Vec::new(alloc);
/// feeds.push("checks")?;
/// let call = FilesCall {
///     inventory: "inventory",
///     feeds,
///     options: OPTIONS,
/// };
/// assert_eq!(rt; call.feeds.len(), 1);
/// ```
#[derive(Drop)]
pub struct FilesCall<'a> {
    pub inventory: &'a str,
    pub feeds: Vec<&'a str>,
    pub options: Options,
}

/// How the mode `follow` reads its feeds (profile).
///
/// ```
/// let following = Following {
///     drain: true,
///     clock: 0,
///     ahead: 60,
///     verbose: false,
/// };
/// assert!(rt; following.drain);
/// ```
#[derive(Clone, Copy, Debug, PartialEq, Eq)]
pub struct Following {
    /// Whether the feeds end: a file at the last line feed that it has at the start, and a pipe where its last writer
    /// has closed it.
    pub drain: bool,
    /// The seconds from one command of the clock feed to the next; these commands have no effect but their time. 0 for
    /// no clock feed.
    pub clock: u32,
    /// The most seconds that the time of a command may be ahead of the system's clock; a command further ahead
    /// waits before it is sent. 0 for no bound.
    pub ahead: u32,
    /// Whether the first bytes of a refused line are printed too.
    pub verbose: bool,
}

/// The place of a told line of a state directory: line `line`, from 1, of the file `told.SEGMENT`. Line 0 is the place
/// before the first line. It is the same after any restart (profile).
///
/// ```
/// let place = ToldPlace {
///     segment: 0,
///     line: 12,
/// };
/// assert_eq!(rt; (place.segment, place.line), (0, 12));
/// ```
#[derive(Clone, Copy, Debug, PartialEq, Eq)]
pub struct ToldPlace {
    pub segment: u64,
    pub line: u64,
}

/// A call of the mode `told`: the path of the state directory, and which of its told lines are printed (profile).
///
/// ```
/// let call = ToldCall {
///     state: "site",
///     after: None,
///     since: Some(3_600),
///     follow: false,
/// };
/// assert_eq!(rt; call.state, "site");
/// ```
#[derive(Clone, Copy, Debug, PartialEq, Eq)]
pub struct ToldCall<'a> {
    pub state: &'a str,
    /// Only lines behind this place are printed; `None` for all.
    pub after: Option<ToldPlace>,
    /// Notices of more than so many seconds before the system's clock are not printed; `None` for no bound.
    pub since: Option<u32>,
    /// Whether the call continues as lines are printed.
    pub follow: bool,
}

/// Where the mode `follow` keeps the commands that it takes (profile).
///
/// ```
/// let keeping = Keeping {
///     state: Some("site"),
///     syncs: true,
/// };
/// assert_eq!(rt; keeping.state, Some("site"));
/// ```
#[derive(Clone, Copy, Debug, PartialEq, Eq)]
pub struct Keeping<'a> {
    /// The path of the state directory; `None` where nothing is kept.
    pub state: Option<&'a str>,
    /// Whether each message is synced to the disk before its lines are printed.
    pub syncs: bool,
}

/// A call of the mode `follow`: the path of the inventory, the path of each feed, and the options (profile).
///
/// ```
/// // RUN: options of a run
/// let mut feeds = Vec::new(alloc);
/// feeds.push("checks")?;
/// let call = FollowCall {
///     inventory: "inventory",
///     feeds,
///     run: RUN,
///     following: Following {
///         drain: true,
///         clock: 0,
///         ahead: 0,
///         verbose: false,
///     },
///     keeping: Keeping {
///         state: None,
///         syncs: true,
///     },
/// };
/// assert_eq!(rt; call.feeds.len(), 1);
/// ```
#[derive(Drop)]
pub struct FollowCall<'a> {
    pub inventory: &'a str,
    pub feeds: Vec<&'a str>,
    pub run: RunOptions,
    pub following: Following,
    pub keeping: Keeping<'a>,
}
