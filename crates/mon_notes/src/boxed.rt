//! A text in an allocation of its own.
ghost use Rattle.std.specs.Prelude.{◌≡◌, IfOk};

use cmd_types::{Memory, Text};
use std::alloc::Global;
use std::marker::Model;

/// A text in an allocation of its own, so that moving it moves one pointer (profile).
///
/// See the example of [`Comment`].
#[derive(Drop)]
pub struct BoxedText {
    text: Box<Text>,
}

impl Model for BoxedText {
    ghost use Rattle.std.specs.Prelude.{List, ℕ};

    ghost Value = { List ℕ };

    ghost view = { λ b. b.text.value };
}

impl BoxedText {
    /// Moves the text into an allocation. If memory runs out, the text is dropped.
    pub fn new(alloc: Global, text: Text) -> Result<BoxedText, Memory>
        ensures { IfOk result (λ b. b ≡ text) }
    {
        Ok(BoxedText {
            text: Box::new(alloc, text)?,
        })
    }

    /// The text.
    pub fn as_text(&self) -> &Text
        ensures { result.now ≡ self.now }
    {
        &self.text
    }

    /// The bytes of the text.
    pub fn as_bytes(&self) -> &[u8]
        ensures { result.now ≡ self.now }
    {
        self.text.as_bytes()
    }
}
