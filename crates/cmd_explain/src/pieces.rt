//! Appends a text in pieces, which are words and numbers, to a buffer `out`. If memory runs out, a part of the pieces
//! is in `out`.
ghost use Rattle.std.specs.Prelude.{◌≡◌, ◌++◌, OnOk};
ghost use Rattle.std.specs.List.{flat_map};
ghost use Rattle.cmd_explain.specs.Meanings.{shown};

use cmd_types::Memory;
use itoa::Buffer;

/// A piece of a text.
#[derive(Clone, Copy)]
pub enum Piece<'a> {
    /// The bytes of some words.
    Words(&'a [u8]),
    /// A number, written in decimal digits.
    Number(u64),
}

impl Piece<'_> {
    /// Appends the piece: its bytes, or its digits. If memory runs out, a part of the piece may be in `out`.
    fn put(&self, out: &mut Vec<u8>) -> Result<(), Memory>
        ensures { OnOk result (out.new.items ≡ out.old.items ++ shown self.now) }
    {
        match self {
            Piece::Words(words) => out.extend_from_slice(words),
            Piece::Number(n) => {
                let mut buffer = Buffer::new();
                out.extend_from_slice(buffer.format(*n).as_bytes())
            }
        }
    }
}

/// Appends the pieces, in order, with nothing between them. If memory runs out, a part of the pieces is in `out`.
pub fn put_pieces(out: &mut Vec<u8>, pieces: &[Piece<'_>]) -> Result<(), Memory>
    ensures { OnOk result (out.new.items ≡ out.old.items ++ flat_map shown pieces.now) }
{
    for piece in pieces {
        piece.put(out)?;
    }
    Ok(())
}
