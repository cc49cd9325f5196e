//! Appends a line from its fields, of which some may be empty.
ghost use Rattle.std.specs.Prelude.{◌≡◌, ◌++◌, OnOk};
ghost use Rattle.cmd_types.specs.Growth.{Grows};
ghost use Rattle.mon_engine.specs.Fields.{shown, texts};
ghost use Rattle.mon_engine.specs.Report.{line, optional, or_empty};

use cmd_types::Memory;
use mon_engine::{Field, put_line};
use mon_inventory::ObjectSpec;

/// Appends a line by [`put_line`]: the word, each field with a semicolon before it, and a line feed. If memory runs
/// out, the bytes that were in `out` remain.
pub fn put(out: &mut Vec<u8>, word: &[u8], fields: &[Field<'_>]) -> Result<(), Memory>
    ensures ok { OnOk result (out.new.items ≡ out.old.items ++ line word.now (texts fields.now)) }
    ensures grown { Grows out.old.items out.new.items }
{
    put_line(out, word, fields)
}

/// The field of an optional code; empty for `None`.
pub fn optional_code<'a>(code: Option<u8>) -> Field<'a>
    ensures { shown result ≡ optional code }
{
    match code {
        None => Field::Bytes(b""),
        Some(code) => Field::Number(u64::from(code)),
    }
}

/// The name of a service; empty for a host.
pub fn service_name(spec: &ObjectSpec) -> &[u8]
    ensures { result.now ≡ or_empty spec.now.service }
{
    match &spec.service {
        None => b"",
        Some(name) => name.as_bytes(),
    }
}
