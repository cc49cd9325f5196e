//! The lines of a feed that its sender got last, so that a refused line can be shown. Of a line that has not ended yet
//! only the first bytes are kept.
ghost use Rattle.std.specs.Prelude.{◌≡◌, ◌-◌, []};
ghost use Rattle.cmd_types.specs.Cuts.{before};
ghost use Rattle.cmd_live.specs.PipeTexts.{behind_lines};

use crate::pipe_text::{behind_lines, count_ends};
use cmd_types::cut;
use std::alloc::Global;

/// The number of first bytes that are kept of a line that has not ended: more than are shown of a line.
const KEPT: usize = 128;

/// The lines that the sender got last, and the number of lines that it got before them.
#[derive(Drop)]
pub struct SeenLines {
    text: Vec<u8>,
    /// The number of lines before those of `text`.
    before: u64,
}

impl SeenLines {
    /// Makes the lines of a feed whose sender has got no line yet.
    pub fn new(alloc: Global) -> SeenLines
        ensures text { result.text.items ≡ [] }
        ensures before { result.before ≡ 0 }
    {
        SeenLines {
            text: Vec::new(alloc),
            before: 0,
        }
    }

    /// Adds the bytes that the sender gets now. Lines that had ended before are forgotten, since the sender has handled
    /// them. If memory runs out, the lines of these bytes are counted but not kept.
    pub fn note(&mut self, piece: &[u8]) {
        if let Some(last) = self.text.iter().rposition(|byte| *byte == b'\n') {
            self.before = self.before.saturating_add(count_ends(&self.text));
            self.text.drain(..=last);
        }
        self.text.truncate(KEPT);
        if self.text.extend_from_slice(piece).is_err() {
            self.text.clear();
            self.before = self.before.saturating_add(count_ends(piece));
        }
    }

    /// The line of this number, counted from 1, without its line feed; empty where it is not kept.
    pub fn line(&self, number: u64) -> &[u8]
        ensures { result.now ≡ before 10 (behind_lines (number - 1 - self.now.before) self.now.text.items) }
    {
        let before = number.saturating_sub(1).saturating_sub(self.before);
        let (line, _) = cut(b'\n', behind_lines(&self.text, before));
        line
    }
}
