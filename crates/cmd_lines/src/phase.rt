//! The phase of a text: it may still grow, has ended or broke off.

/// The phase of a text, which decides the item of an unfinished last line.
#[derive(Clone, Copy, Debug, PartialEq, Eq)]
pub enum Phase {
    /// The text may still grow, so an unfinished last line has no item yet.
    Open,
    /// The text ended, so an unfinished last line counts as a line.
    Finished,
    /// The text broke off, so an unfinished last line is refused.
    CutOff,
}
