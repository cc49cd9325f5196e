//! The words that the program knows: its modes, their options (written with two dashes before them), and the names of
//! their arguments.

pub const BUNDLE: &str = "bundle";

pub const FILES: &str = "files";

pub const REPLAY: &str = "replay";

pub const FOLLOW: &str = "follow";

pub const TOLD: &str = "told";

pub const CHECK: &str = "check";

pub const EXPLAIN: &str = "explain";

pub const HELP: &str = "help";

pub const VERSION: &str = "version";

pub const CAPACITY: &str = "capacity";

pub const PIECE: &str = "piece";

pub const LIMIT: &str = "limit";

pub const JOURNAL: &str = "journal";

pub const FIGURES: &str = "figures";

pub const DRAIN: &str = "drain";

pub const CLOCK: &str = "clock";

pub const AHEAD: &str = "ahead";

pub const VERBOSE: &str = "verbose";

pub const STATE: &str = "state";

pub const NO_SYNC: &str = "no-sync";

pub const AFTER: &str = "after";

pub const SINCE: &str = "since";

pub const INVENTORY: &str = "INVENTORY";

pub const FEEDS: &str = "FEED";

pub const DIRECTORY: &str = "DIR";
