//! Reads the lines of a text one after another: each adds its record to a new index, up to the first line with a fault.
//! The index is dropped where there is a fault or memory runs out.
ghost use Rattle.std.specs.Prelude.{◌≡◌, ◌≢◌, IfOk, IfErr, OnOk};
ghost use Rattle.mon_inventory.specs.Configuration.{inventory};
ghost use Rattle.mon_inventory.specs.Index.{configuration, IsIndexed};
ghost use Rattle.mon_inventory.specs.Read.{HasNoFault, IsFirstFault, Reads, Adds};
ghost use Rattle.cmd_types.specs.TextLines.{split_lines};

use crate::fault::{Cause, InventoryFault};
use crate::form::form_of;
use crate::index::Index;
use cmd_types::{TextLines, without_returns};
use std::alloc::Global;

/// Adds the record that one line defines; an empty line adds nothing. A line with a fault leaves the index unchanged.
/// If memory runs out, a part of the record may be added, and the caller drops the index.
fn add_line(alloc: Global, index: &mut Index, line: &[u8]) -> Result<(), Cause>
    requires { IsIndexed index.old }
    ensures added { Adds (configuration index.old) line.now (configuration index.new) result }
    ensures indexed { OnOk result (IsIndexed index.new) }
{
    let line = without_returns(line);
    if line.is_empty() {
        return Ok(());
    }
    let Some(form) = form_of(line) else {
        return Err(Cause::BadForm);
    };
    let found = index.look_up(&form);
    if let Some(cause) = index.cause_of(&form, found) {
        return Err(cause);
    }
    index.add(alloc, &form, found)
}

/// Reads the lines of a text into a new index, or returns the first line with a fault and its first cause, or the line
/// at which memory ran out.
pub fn index_of(alloc: Global, text: &[u8]) -> Result<Index, InventoryFault>
    ensures read { Reads configuration result (inventory text.now) }
    ensures indexed { IfOk result IsIndexed }
    ensures first_fault { IfErr result (λ f. f.cause ≢ Cause.Memory → IsFirstFault (split_lines text.now) f.line f.cause) }
    ensures memory { IfErr result (λ f. f.cause ≡ Cause.Memory → HasNoFault (split_lines text.now) f.line) }
{
    let mut index = Index::new(alloc);
    let mut count = 0u64;
    for line in TextLines::new(text) {
        count += 1;
        match add_line(alloc, &mut index, line) {
            Ok(()) => {}
            Err(cause) => return Err(InventoryFault { line: count, cause }),
        }
    }
    Ok(index)
}
