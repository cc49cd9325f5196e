//! Writes texts to a stream. After an error the stream has only a prefix of the text.
ghost use Rattle.std.specs.Prelude.{◌≡◌, ℕ, List, OnOk, OnErr, map};
ghost use Rattle.std.specs.Io.KnownBytes.{Appends};
ghost use Rattle.cmd_answer.specs.Written.{AppendsPart, joined};

use std::io::{self, Write};

/// Appends a text to the stream, in one write where the stream takes the whole text, and repeats a write that was
/// interrupted. A write that takes no byte is an error. After an error the stream has only a prefix of the text.
///
/// ```
/// let mut out = Vec::new(alloc);
/// assert!(rt; write_text(&mut out, b"clock;0\n").is_ok());
/// assert_eq!(rt; out.as_slice(), b"clock;0\n".as_slice());
/// ```
pub fn write_text<O: Write>(out: &mut O, text: &[u8]) -> io::Result<()>
    ensures whole { OnOk result (Appends (O.contents out.old) (O.contents out.new) text.now) }
    ensures part { OnErr result (AppendsPart (O.contents out.old) (O.contents out.new) text.now) }
{
    let mut done = 0;
    'writes: for _ in 0..u64::MAX {
        if done == text.len() {
            break;
        }
        match out.write(&text[done..]) {
            Ok(0) => return Err(io::Error::from(io::ErrorKind::WriteZero)),
            Ok(count) => done += count,
            Err(error) if error.kind() == io::ErrorKind::Interrupted => {}
            Err(error) => return Err(error),
        }
    }
    if done == text.len() {
        return Ok(());
    }
    Err(io::Error::from(io::ErrorKind::WriteZero))
}

/// Appends `pieces` to the stream, in order, each in one write where the stream takes the whole piece. After an error
/// the stream has only a prefix of the joined text.
///
/// ```
/// let mut out = Vec::new(alloc);
/// assert!(rt; write_pieces(&mut out, &[b"clock;", b"0\n"]).is_ok());
/// assert_eq!(rt; out.as_slice(), b"clock;0\n".as_slice());
/// ```
pub fn write_pieces<O: Write>(out: &mut O, pieces: &[&[u8]]) -> io::Result<()>
    ensures whole { OnOk result (Appends (O.contents out.old) (O.contents out.new) (joined (map (λ p. p.now) pieces.now))) }
    ensures part { OnErr result (AppendsPart (O.contents out.old) (O.contents out.new) (joined (map (λ p. p.now) pieces.now))) }
{
    for piece in pieces {
        write_text(out, piece)?;
    }
    Ok(())
}
