//! The bytes of a name or of another text in a command or an inventory, as they were read. They never change.

ghost use Rattle.std.specs.Prelude.{◌≡◌, IfOk};

use crate::memory::Memory;
use std::alloc::Global;
use std::fmt;
use std::fmt::{Debug, Formatter, Write};
use std::marker::Model;

/// The most bytes that a text holds inside itself: a choice, with which a text takes 32 bytes.
const MOST_INSIDE: usize = 30;

/// The bytes of a text: inside the text, or in an allocation.
#[derive(Drop)]
enum Held {
    /// The first `count` of these bytes, inside the text. Most names are so short.
    Inside { count: u8, bytes: [u8; MOST_INSIDE] },
    /// In an allocation.
    Outside(Vec<u8>),
}

/// Bytes that a command or an inventory carries, as a name or a comment, compared byte by byte. A text made by
/// [`from_slice`](Text::from_slice) or [`copy`](Text::copy) takes no memory where it has at most 30 bytes, as most
/// names have; a text made by [`new`](Text::new) keeps the memory of its bytes.
///
/// ```
/// let text = Text::new(Vec::from_slice(alloc, b"web")?);
/// let copy = text.copy(alloc)?;
/// assert_eq!(rt; copy.as_bytes(), b"web".as_slice());
/// ```
pub struct Text {
    held: Held,
}

impl Model for Text {
    ghost use Rattle.std.specs.Prelude.{List, ℕ};
    ghost use Rattle.cmd_types.specs.Held.{bytes_of, IsHeld};

    ghost Value = { List ℕ };

    ghost view = { λ t. bytes_of t.held };

    ghost invariant = { λ t. IsHeld t.held };
}

// Written by hand, so that dropping a text is one call. A derive costs a `match` at each `?` past which a text is
// alive, and the borrow checker then does not cover functions that hold several texts.
impl Drop for Text {
    fn drop(self) {
        let Text { held: _ } = self;
    }
}

impl Text {
    /// The text of `bytes`, which are moved and not copied. Takes no memory.
    pub fn new(bytes: Vec<u8>) -> Text
        ensures { result ≡ bytes.items }
    {
        Text {
            held: Held::Outside(bytes),
        }
    }

    /// A text with a copy of `bytes`. The error is out of memory, possible only for more than 30 bytes.
    pub fn from_slice(alloc: Global, bytes: &[u8]) -> Result<Text, Memory>
        ensures { IfOk result (λ t. t ≡ bytes.now) }
    {
        let count = bytes.len();
        if count > MOST_INSIDE {
            return Ok(Text::new(Vec::from_slice(alloc, bytes)?));
        }
        let mut inside = [0; MOST_INSIDE];
        inside[..count].copy_from_slice(bytes);
        Ok(Text {
            held: Held::Inside {
                count: count as u8,
                bytes: inside,
            },
        })
    }

    /// The bytes of the text.
    pub fn as_bytes(&self) -> &[u8]
        ensures { result.now ≡ self.now }
    {
        match &self.held {
            Held::Inside { count, bytes } => &bytes[..*count as usize],
            Held::Outside(bytes) => bytes,
        }
    }

    /// A copy of the text. The error is out of memory, possible only for more than 30 bytes.
    pub fn copy(&self, alloc: Global) -> Result<Text, Memory>
        ensures { IfOk result (λ t. t ≡ self.now) }
    {
        Text::from_slice(alloc, self.as_bytes())
    }
}

impl Clone for Text {
    ghost is_clone = { λ s t. t ≡ s };

    /// A copy of the text, with an allocation only where the text has one. The error is out of memory.
    fn clone(&self) -> Result<Text, Memory> {
        match &self.held {
            Held::Inside { count, bytes } => Ok(Text {
                held: Held::Inside {
                    count: *count,
                    bytes: *bytes,
                },
            }),
            Held::Outside(bytes) => Ok(Text::new(bytes.clone()?)),
        }
    }
}

impl Debug for Text {
    /// Writes the bytes as a list of numbers to the formatter.
    fn fmt<W: Write>(&self, f: &mut Formatter<W>) -> fmt::Result {
        self.as_bytes().fmt(f)
    }
}
