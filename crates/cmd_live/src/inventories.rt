//! Compares the present text of the inventory file with the text of a run: it is the same text, a new inventory, or a
//! text with a fault.
ghost use Rattle.std.specs.Prelude.{◌≡◌, ◌≢◌, IfOk, IfErr, OnErr, MatchOption};
ghost use Rattle.mon_inventory.specs.declared.fault.Cause.TheVariants.{Memory};
ghost use Rattle.cmd_live.specs.NewInventories.{whole_lines_of, IsNewInventory, IsInventoryFault, IsLineOf};

use cmd_answer::{FollowLine, InventoryCounts};
use cmd_types::Memory;
use mon_inventory::{Cause, Inventory, InventoryFault};
use std::alloc::Global;

/// The text with a line feed at the end of its last line, as the file `state` has it. Fails if memory runs out.
pub fn end_last_line(mut text: Vec<u8>) -> Result<Vec<u8>, Memory>
    ensures { IfOk result (λ t. t.items ≡ whole_lines_of text.items) }
{
    match text.last() {
        None | Some(b'\n') => {}
        Some(_) => text.push(b'\n')?,
    }
    Ok(text)
}

/// The inventory in `text`, where `text` is not `current`, the text under which a run applies its commands, and has an
/// object. `None` where it is the same text.
///
/// The error is the first fault of the text. A text without an object, such as a file that is being written, has a
/// fault in its first line: it is no host.
pub fn new_inventory(
    alloc: Global,
    current: &[u8],
    text: &[u8],
) -> Result<Option<Inventory>, InventoryFault>
    ensures new { IfOk result (λ found. MatchOption found (text.now ≡ current.now) (λ inv. IsNewInventory current.now text.now inv)) }
    ensures other { OnErr result (text.now ≢ current.now) }
    ensures fault { IfErr result (λ f. f.cause ≢ Memory → IsInventoryFault text.now f) }
{
    if text == current {
        return Ok(None);
    }
    let inventory = Inventory::parse(alloc, text)?;
    if inventory.objects().is_empty() {
        return Err(InventoryFault {
            line: 1,
            cause: Cause::BadForm,
        });
    }
    Ok(Some(inventory))
}

/// The line on a new inventory, with the numbers of its hosts and of its services.
pub fn inventory_line(inventory: &Inventory) -> FollowLine
    ensures { IsLineOf inventory.now.objects result }
{
    let counts = InventoryCounts::of(inventory);
    FollowLine::NewInventory {
        hosts: counts.hosts,
        services: counts.services,
    }
}
