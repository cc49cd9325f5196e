//! The inventories that a state directory had before its present one. The file `inventory.N` has the text under which
//! the segments before N were applied; where no entry came between two changes, `inventory.N.2` has the text after
//! that, and so on. Each file is written once, before the first run under the next inventory begins.
ghost use Rattle.std.specs.Prelude.{◌≡◌, ◌≢◌, ◌++◌, true, IfOk, codes, drop, length, string_bytes, take};
ghost use Rattle.std.specs.Fmt.{decimal};
ghost use Rattle.cmd_live.specs.Reading.{segment_path};

use super::names::any_name;
use super::whole_file::replace_file;
use crate::segment_names::{INVENTORY, file_path, number_behind, segment_path};
use cmd_answer::{InputFault, read_all};
use cmd_options::MOST_READS;
use cmd_store::StoreFailed;
use cmd_types::Memory;
use mon_state::{StateFile, read_file};
use std::alloc::Global;
use std::fs;
use std::fs::OpenFile;
use std::io::ErrorKind;
use std::rt::Files;

/// The bytes of the file at `path`; `None` where there is no such file.
///
/// Believed: the bytes are those of the file (premise 1; new-inventory).
pub fn read_whole<R: Files>(
    rt: &R,
    alloc: Global,
    path: &str,
) -> Result<Option<Vec<u8>>, InputFault> {
    match fs::open(rt, path) {
        Ok(mut file) => Ok(Some(read_all(alloc, &mut file, MOST_READS)?)),
        Err(error) if error.kind() == ErrorKind::NotFound => Ok(None),
        Err(error) => Err(InputFault::of(&error)),
    }
}

/// The failure to keep an inventory where a file of the directory was not read.
fn not_kept(fault: InputFault) -> StoreFailed {
    match fault {
        InputFault::Memory => StoreFailed::Memory,
        InputFault::Failed | InputFault::Passing => StoreFailed::Failed,
    }
}

/// The path of the inventory before the change `change`, from 1, of those at the segment `number`. Fails if memory runs
/// out.
pub fn inventory_path(
    alloc: Global,
    directory: &str,
    number: u64,
    change: u64,
) -> Result<String, Memory>
    ensures first { change ≡ 1 → IfOk result (λ path. string_bytes path ≡ segment_path directory.now (codes "inventory") number) }
    ensures later { change ≢ 1 → IfOk result (λ path. string_bytes path ≡ segment_path directory.now (codes "inventory") number ++ (codes "." ++ decimal change)) }
{
    let path = segment_path(alloc, directory, INVENTORY, number)?;
    if change == 1 {
        Ok(path)
    } else {
        format!(in alloc; "{path}.{change}")
    }
}

/// The numbers of the files of the directory whose names are `word` and a number, in ascending order. The path of the
/// directory may be a link.
///
/// Believed: each such file is found (premise 13; new-inventory).
pub fn list_numbers<R: Files>(
    rt: &R,
    alloc: Global,
    directory: &str,
    word: &[u8],
) -> Result<Vec<u64>, InputFault> {
    let mut numbers = Vec::new(alloc);
    let path = file_path(alloc, directory, "")?;
    let is_out_of_memory = any_name(rt, &path, |name| match number_behind(name, word) {
        Some(number) => numbers.push(number).is_err(),
        None => false,
    });
    match is_out_of_memory {
        Ok(false) => {}
        Ok(true) => return Err(InputFault::Memory),
        Err(error) => return Err(InputFault::of(&error)),
    }
    numbers.sort_unstable();
    Ok(numbers)
}

/// An inventory that a state directory had before its present one.
#[derive(Drop)]
pub struct OldInventory {
    /// The number of the first segment that was not applied under it.
    pub number: u64,
    pub text: Vec<u8>,
}

/// The inventories that the directory had before its present one, in the order of their time.
///
/// Believed: as [`keep_old_inventory`] (new-inventory).
pub fn old_inventories<R: Files>(
    rt: &R,
    alloc: Global,
    directory: &str,
) -> Result<Vec<OldInventory>, InputFault> {
    let mut inventories = Vec::new(alloc);
    for number in list_numbers(rt, alloc, directory, b"inventory.")? {
        for change in 1..u64::MAX {
            let path = inventory_path(alloc, directory, number, change)?;
            let Some(text) = read_whole(rt, alloc, &path)? else {
                break;
            };
            let old = OldInventory { number, text };
            if inventories.push(old).is_err() {
                return Err(InputFault::Memory);
            }
        }
    }
    Ok(inventories)
}

/// Whether the file `state` has this text as its inventory.
fn has_inventory(state: &[u8], inventory: &[u8]) -> bool
    ensures begins { result ≡ true → take (length inventory.now) state.now ≡ inventory.now }
    ensures mark { result ≡ true → take 4 (drop (length inventory.now) state.now) ≡ codes "---\n" }
{
    match state.strip_prefix(inventory) {
        Some(rest) => rest.starts_with(b"---\n".as_slice()),
        None => false,
    }
}

/// Keeps the inventory of the directory's file `state`, where it differs from `given`. `number` is the segment that is
/// about to begin under `given`. Does nothing where that inventory was kept already, or there is no file `state`.
///
/// Believed: the inventory survives a crash from then on (premises 4 to 6; new-inventory).
pub fn keep_old_inventory<R: Files>(
    rt: &R,
    alloc: Global,
    directory: &str,
    given: &[u8],
    number: u64,
) -> Result<(), StoreFailed> {
    let state = file_path(alloc, directory, "state")?;
    let Some(state) = read_whole(rt, alloc, &state).map_err(not_kept)? else {
        return Ok(());
    };
    if has_inventory(&state, given) {
        return Ok(());
    }
    let Ok(StateFile { given: before, .. }) = read_file(alloc, &state) else {
        return Err(StoreFailed::Failed);
    };
    for change in 1..u64::MAX {
        let path = inventory_path(alloc, directory, number, change)?;
        let next = inventory_path(alloc, directory, number, change + 1)?;
        match read_whole(rt, alloc, &path).map_err(not_kept)? {
            Some(kept) if kept.as_slice() == before && fs::metadata(rt, &next).is_err() => {
                return Ok(());
            }
            Some(_) => {}
            None => return write_inventory(rt, alloc, directory, &path, before),
        }
    }
    Ok(())
}

/// Writes the inventory to the file at `path` in the directory, and syncs both.
///
/// Believed: as [`keep_old_inventory`] (new-inventory).
fn write_inventory<R: Files>(
    rt: &R,
    alloc: Global,
    directory: &str,
    path: &str,
    inventory: &[u8],
) -> Result<(), StoreFailed> {
    let beside = file_path(alloc, directory, "inventory.new")?;
    let is_written = replace_file(rt, path, &beside, inventory);
    match fs::open(rt, directory) {
        Ok(folder) if is_written && folder.sync_all().is_ok() => Ok(()),
        _ => Err(StoreFailed::Failed),
    }
}
