//! The mode that the first word of a call names.
ghost use Rattle.std.specs.Prelude.{◌≡◌, map};
ghost use Rattle.cmd_words.specs.Words.{mode_by, mode_alone, mode_named};

use crate::names::{BUNDLE, CHECK, EXPLAIN, FILES, FOLLOW, HELP, REPLAY, TOLD, VERSION};

/// A mode of the program, as the first word of a call names it (profile).
///
/// See the example of [`mode_named`].
#[derive(Clone, Copy, Debug, PartialEq, Eq)]
pub enum ModeName {
    /// Feeds within the input are run.
    Bundle,
    /// Feeds in files are run.
    Files,
    /// A journal is replayed, or a state directory.
    Replay,
    /// Feeds are followed.
    Follow,
    /// The told lines of a state directory are printed.
    Told,
    /// An inventory is read, and its counts or its fault are printed.
    Check,
    /// Lines of the program are explained.
    Explain,
    /// The usage of all modes is printed: the word stands alone.
    Help,
    /// The version is printed: the word stands alone.
    Version,
}

/// The mode that this first word names, other words behind it or not; `None` for another word.
fn mode_by(first: &str) -> Option<ModeName>
    ensures { result ≡ mode_by first.now }
{
    match first {
        BUNDLE => Some(ModeName::Bundle),
        FILES => Some(ModeName::Files),
        REPLAY => Some(ModeName::Replay),
        FOLLOW => Some(ModeName::Follow),
        TOLD => Some(ModeName::Told),
        CHECK => Some(ModeName::Check),
        EXPLAIN => Some(ModeName::Explain),
        _ => None,
    }
}

/// The mode that this word names where no other word follows.
fn mode_alone(word: &str) -> Option<ModeName>
    ensures { result ≡ mode_alone word.now }
{
    match word {
        HELP => Some(ModeName::Help),
        VERSION => Some(ModeName::Version),
        _ => mode_by(word),
    }
}

/// The mode that the first word names; `None` where there is no word, or it names no mode. `help` and `version` name
/// one only where no other word follows (profile).
///
/// ```
/// assert_eq!(rt;
///     mode_named(&["files", "inventory", "checks"]),
///     Some(ModeName::Files)
/// );
/// assert_eq!(rt; mode_named(&["help"]), Some(ModeName::Help));
/// assert_eq!(rt; mode_named(&["help", "files"]), None);
/// assert_eq!(rt; mode_named(&["--journal"]), None);
/// ```
pub fn mode_named(words: &[&str]) -> Option<ModeName>
    ensures { result ≡ mode_named (map (λ w. w.now) words.now) }
{
    match words {
        [] => None,
        [word, others @ ..] if others.is_empty() => mode_alone(word),
        [first, ..] => mode_by(first),
    }
}
