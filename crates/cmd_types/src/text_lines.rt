//! An iterator over the lines of a text. The lines are borrowed from the text, so no call takes memory.
ghost use Rattle.std.specs.Prelude.{◌≡◌, Some};
ghost use Rattle.std.specs.Iterator.{item_count};
ghost use Rattle.std.specs.Option.{option_copied};
ghost use Rattle.cmd_types.specs.TextLines.{lines_left, GivesLine};

use crate::cutting::cut;
use std::marker::Model;

/// An iterator over the lines of a text: its parts between line feeds, without the line feeds. The last line is the
/// part after the last line feed, which may be empty (profile).
///
/// Contracts see the part of the text that is left, or `None` where no line is left.
///
/// ```
/// let mut lines = TextLines::new(b"a\nb");
/// assert_eq!(rt; lines.next(), Some(b"a".as_slice()));
/// assert_eq!(rt; lines.rest(), Some(b"b".as_slice()));
/// assert_eq!(rt; lines.next(), Some(b"b".as_slice()));
/// assert_eq!(rt; lines.next(), None);
/// ```
#[derive(Drop)]
pub struct TextLines<'a> {
    rest: Option<&'a [u8]>,
}

impl<'a> Model for TextLines<'a> {
    ghost use Rattle.std.specs.Prelude.{ℕ, List, Option};
    ghost use Rattle.std.specs.Option.{option_copied};

    ghost Value = { Option (List ℕ) };

    ghost view = { λ l. option_copied l.rest };
}

impl<'a> TextLines<'a> {
    /// An iterator over all lines of `text`. Takes no memory.
    pub fn new(text: &'a [u8]) -> TextLines<'a>
        ensures { result ≡ Some text.now }
    {
        TextLines { rest: Some(text) }
    }

    /// The part of the text not read yet: before the first line the whole text, then the bytes after the line feed of
    /// the line last returned. `None` where no line feed ended that line. Takes no memory.
    pub fn rest(&self) -> Option<&'a [u8]>
        ensures { option_copied result ≡ self.now }
    {
        self.rest
    }
}

impl<'a> Iterator for TextLines<'a> {
    type Item = &'a [u8];

    ghost next_gives = { GivesLine };

    ghost remaining = { item_count lines_left };

    /// Returns the next line, without its line feed; `None` after the last line. Takes no memory.
    fn next(&mut self) -> Option<&'a [u8]> {
        let text = self.rest?;
        let (line, rest) = cut(b'\n', text);
        self.rest = rest;
        Some(line)
    }
}
