//! A cursor in a text that is read from left to right, field by field. It has the unread bytes, and the start of the
//! last field that it read or tried to read: a fault is reported in the line of that field.
ghost use Rattle.std.specs.Prelude.{◌≡◌, length};
ghost use Rattle.std.specs.Option.{option_copied};
ghost use Rattle.cmd_types.specs.Cuts.{before};
ghost use Rattle.mon_state.specs.Reading.{field_at, word_at, rest_after, expect_at};
ghost use Rattle.mon_state.specs.Cursors.{Gives};

use crate::fault::StateCause;
use cmd_types::cut;
use std::marker::Model;

/// The text after the prefix `expected`; `None` where the text does not begin with it.
pub(crate) fn rest_after<'a>(text: &'a [u8], expected: &[u8]) -> Option<&'a [u8]>
    ensures { option_copied result ≡ rest_after expected.now text.now }
{
    text.strip_prefix(expected)
}

/// The unread bytes of a text, and the start of the last field that was read or tried.
#[derive(Drop)]
pub struct Cursor<'a> {
    rest: &'a [u8],
    /// The text from the start of that last field on.
    last: &'a [u8],
}

impl<'a> Model for Cursor<'a> {
    ghost use Rattle.mon_state.specs.Cursors.{Place};

    ghost Value = { Place };

    ghost view = { λ c. record { rest = c.rest.now; last = c.last.now } };
}

impl<'a> Cursor<'a> {
    /// Makes a cursor at the start of a text.
    pub fn new(text: &'a [u8]) -> Cursor<'a>
        ensures { result ≡ record { rest = text.now; last = text.now } }
    {
        Cursor {
            rest: text,
            last: text,
        }
    }

    /// The number of bytes from the start of the last field that was read or tried to the end of the text.
    pub fn last_left(&self) -> usize
        ensures { result ≡ length self.now.last }
    {
        self.last.len()
    }

    /// The unread bytes of this line, without the line feed that ends it.
    pub fn line(&self) -> &'a [u8]
        ensures { result.now ≡ before 10 self.now.rest }
    {
        cut(b'\n', self.rest).0
    }

    /// Reads the bytes before the next byte `end`, and moves after that byte. Where there is none, returns `BadLine`
    /// and the unread bytes are unchanged.
    #[tactic(auto, unfolding(crate::specs::Reading::field_at))]
    pub fn field(&mut self, end: u8) -> Result<&'a [u8], StateCause>
        ensures read { Gives (λ x. (x.now, self.new.rest)) self.new.last result (field_at end self.old.rest) }
        ensures at { self.new.last ≡ self.old.rest }
    {
        self.last = self.rest;
        let (field, rest) = cut(end, self.rest);
        match rest {
            None => Err(StateCause::BadLine),
            Some(rest) => {
                self.rest = rest;
                Ok(field)
            }
        }
    }

    /// Reads the bytes before the next semicolon, and moves after the semicolon. Where the line has none, returns
    /// `BadLine`.
    #[tactic(auto, unfolding(crate::specs::Reading::word_at))]
    pub fn word(&mut self) -> Result<&'a [u8], StateCause>
        ensures read { Gives (λ x. (x.now, self.new.rest)) self.new.last result (word_at self.old.rest) }
        ensures at { self.new.last ≡ self.old.rest }
    {
        let word = self.field(b';')?;
        match cut(b'\n', word) {
            (_, None) => Ok(word),
            (_, Some(_)) => Err(StateCause::BadLine),
        }
    }

    /// Moves after these bytes. Where the unread bytes do not begin with them, returns `BadLine`, and the unread bytes
    /// are unchanged.
    #[tactic(auto, unfolding(crate::specs::Reading::expect_at))]
    pub fn expect(&mut self, expected: &[u8]) -> Result<(), StateCause>
        ensures { Gives (λ _. self.new.rest) self.new.last result (expect_at expected.now self.old.rest) }
    {
        self.last = self.rest;
        match rest_after(self.rest, expected) {
            None => Err(StateCause::BadLine),
            Some(rest) => {
                self.rest = rest;
                Ok(())
            }
        }
    }
}
