//! The mode `check`: it reads an inventory, and prints its counts or its fault in words. It runs no feed.
ghost use Rattle.std.specs.Prelude.{IfOk, IfErr};
ghost use Rattle.cmd_answer.specs.Stops.{StopsInventory};
ghost use Rattle.gateway.specs.Modes.{IsCounted, ServesCheck, streams};

use cmd_answer::{Ended, FilesStop, InventoryCounts, Stop, inventory_in, put, stopped};
use cmd_explain::stopped_in_words;
use std::alloc::Global;
use std::io::Write;
use std::rt::Files;

/// The line with the counts of the inventory in the file at `path`. Fails as [`inventory_in`] does.
fn counted<'a, R: Files>(rt: &R, alloc: Global, path: &'a str) -> Result<Vec<u8>, FilesStop<'a>>
    ensures counts { IfOk result (λ text. IsCounted R.File.remaining text.items 0) }
    ensures stops { IfErr result (StopsInventory R.File.remaining path.now) }
{
    let inventory = inventory_in(rt, alloc, path)?;
    match InventoryCounts::of(&inventory).text(alloc) {
        Ok(text) => Ok(text.into_bytes()),
        Err(_) => Err(FilesStop::Other(Stop::Memory)),
    }
}

/// Reads the inventory in the file at `path`. Appends its counts to the output; or the line of its stop, with the
/// meaning of that line, to the error stream. Returns the end of the call.
pub fn serve_check<R: Files, O: Write, E: Write>(
    rt: &R,
    alloc: Global,
    path: &str,
    output: &mut O,
    errors: &mut E,
) -> Ended
    ensures { ServesCheck R.File.remaining path.now result (streams (O.contents output.old) (O.contents output.new) (E.contents errors.old) (E.contents errors.new)) }
{
    match counted(rt, alloc, path) {
        Ok(text) => match put((text, 0), output) {
            Ok(status) => Ended {
                status,
                printed: true,
            },
            Err(stop) => stopped(FilesStop::Other(stop), errors),
        },
        Err(stop) => match stopped_in_words(alloc, stop, errors) {
            Ok(ended) => ended,
            Err(_) => stopped(FilesStop::Other(Stop::Memory), errors),
        },
    }
}
