//! The lines of the report: a word, then the fields, each after a semicolon, and a line feed. Each function appends to
//! `out` and changes nothing else. If memory runs out, `put_line` leaves `out` unchanged; the other calls on a line may
//! leave a beginning of their bytes in `out`.
ghost use Rattle.std.specs.Prelude.{◌≡◌, ◌++◌, OnOk, OnErr, length, take};
ghost use Rattle.cmd_types.specs.Growth.{Grows};
ghost use Rattle.mon_engine.specs.Report.{line, fields_text, optional};
ghost use Rattle.mon_engine.specs.Fields.{shown, texts};

use cmd_types::Memory;
use itoa::Buffer;

/// A field of a line: bytes as they are, without escapes; a number in decimal digits; or a flag as 1 or 0.
///
/// See the example of [`put_line`].
#[derive(Clone, Copy)]
pub enum Field<'a> {
    Bytes(&'a [u8]),
    Number(u64),
    Flag(bool),
}

impl<'a> Field<'a> {
    /// The field of an optional number; empty for `None`.
    ///
    /// See the example of [`put_line`].
    pub fn optional(number: Option<u64>) -> Field<'a>
        ensures { shown result ≡ optional number }
    {
        match number {
            None => Field::Bytes(b""),
            Some(number) => Field::Number(number),
        }
    }

    /// Appends the text of the field, without a semicolon. If memory runs out, `out` is unchanged.
    fn put(&self, out: &mut Vec<u8>) -> Result<(), Memory>
        ensures ok { OnOk result (out.new.items ≡ out.old.items ++ shown self.now) }
        ensures err { OnErr result (out.new.items ≡ out.old.items) }
    {
        match self {
            Field::Bytes(bytes) => out.extend_from_slice(bytes),
            Field::Number(n) => {
                let mut buffer = Buffer::new();
                out.extend_from_slice(buffer.format(*n).as_bytes())
            }
            Field::Flag(on) => {
                out.push(if *on { b'1' } else { b'0' })?;
                Ok(())
            }
        }
    }
}

/// Appends a semicolon and the field's text for each field, in order. If memory runs out, a beginning of these bytes is
/// in `out`.
///
/// See the example of [`put_line`].
pub fn put_fields(out: &mut Vec<u8>, fields: &[Field<'_>]) -> Result<(), Memory>
    ensures ok { OnOk result (out.new.items ≡ out.old.items ++ fields_text (texts fields.now)) }
    ensures grown { take (length out.old.items) out.new.items ≡ out.old.items }
{
    for field in fields {
        out.push(b';')?;
        field.put(out)?;
    }
    Ok(())
}

/// Appends the word, and then each field with a semicolon before it, without a line feed. If memory runs out, a
/// beginning of these bytes is in `out`.
///
/// See the example of [`put_line`].
pub fn put_word(out: &mut Vec<u8>, word: &[u8], fields: &[Field<'_>]) -> Result<(), Memory>
    ensures ok { OnOk result (out.new.items ≡ out.old.items ++ word.now ++ fields_text (texts fields.now)) }
    ensures grown { take (length out.old.items) out.new.items ≡ out.old.items }
{
    out.extend_from_slice(word)?;
    put_fields(out, fields)
}

/// Appends the word, each field with a semicolon before it, and a line feed. If memory runs out, a beginning of the
/// line is in `out`; `put_line` removes it.
pub fn put_whole(out: &mut Vec<u8>, word: &[u8], fields: &[Field<'_>]) -> Result<(), Memory>
    ensures ok { OnOk result (out.new.items ≡ out.old.items ++ line word.now (texts fields.now)) }
    ensures grown { Grows out.old.items out.new.items }
{
    put_word(out, word, fields)?;
    out.push(b'\n')?;
    Ok(())
}

/// Appends a line (profile): a word, each field with a semicolon before it, and a line feed. If memory runs out, `out`
/// is unchanged.
///
/// ```
/// let mut out = Vec::new(alloc);
/// put_line(&mut out, b"word", &[Field::Number(7), Field::Flag(true)])?;
/// assert_eq!(rt; out.as_slice(), b"word;7;1\n".as_slice());
/// ```
pub fn put_line(out: &mut Vec<u8>, word: &[u8], fields: &[Field<'_>]) -> Result<(), Memory>
    ensures ok { OnOk result (out.new.items ≡ out.old.items ++ line word.now (texts fields.now)) }
    ensures err { OnErr result (out.new.items ≡ out.old.items) }
{
    let len = out.len();
    if let Err(refusal) = put_whole(out, word, fields) {
        out.truncate(len);
        return Err(refusal);
    }
    Ok(())
}
