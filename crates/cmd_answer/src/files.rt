//! Opens the files that a call names, and reads the inventory to its end. The files of feeds are opened but not read
//! here. No file is written.
ghost use Rattle.std.specs.Prelude.{◌≡◌, ◌⊎◌, false, IfOk, IfErr, Ok, length, map};
ghost use Rattle.std.specs.List.{list_any};
ghost use Rattle.std.specs.Str.{bytes_eq};
ghost use Rattle.cmd_types.specs.Entries.{IsSenderCount};
ghost use Rattle.cmd_answer.specs.Files.{IsInFile, IsOfFile};
ghost use Rattle.mon_inventory.specs.Configuration.{inventory};
ghost use Rattle.std.specs.IoError.{error_kind};
ghost use Rattle.cmd_answer.specs.Passing.{MayPass};
ghost use Rattle.cmd_answer.specs.declared.stop.FilesStop.TheVariants.{Open, OpenPassing};
ghost use Rattle.cmd_answer.specs.Stops.{has_twice, StopsFiles, StopsInventory, StopsOpening};

use crate::opening::{may_pass, open_file};
use crate::reading::{InputFault, read_all};
use crate::stop::{FilesStop, Stop};
use cmd_options::{FilesCall, MOST_READS};
use cmd_types::is_sender_count;
use mon_inventory::Inventory;
use std::alloc::Global;
use std::io::Error;
use std::rt::Files;

/// The stop for a file that was not opened by this fault.
fn unopened<'a>(path: &'a str, error: &Error) -> FilesStop<'a>
    ensures { (MayPass (error_kind error.now) × (result ≡ OpenPassing path.entry)) ⊎ ((MayPass (error_kind error.now) → ⊥) × (result ≡ Open path.entry)) }
{
    if may_pass(error) {
        FilesStop::OpenPassing(path)
    } else {
        FilesStop::Open(path)
    }
}

/// Reads the inventory in the file at `path` to its end, and closes the file (profile).
///
/// # Errors
/// [`FilesStop::Open`] where the file cannot be opened or cannot be read to its end, or [`FilesStop::OpenPassing`] where
/// that may pass; the first fault of the inventory; or out of memory.
///
/// ```
/// let Ok(inventory) = inventory_in(&rt, alloc, "/dev/null") else {
///     return Err(Fail::new("it has no bytes"));
/// };
/// assert_eq!(rt; inventory.object_count(), 0);
/// ```
pub fn inventory_in<'a, R: Files>(
    rt: &R,
    alloc: Global,
    path: &'a str,
) -> Result<Inventory, FilesStop<'a>>
    ensures read { IfOk result (IsInFile R.File.remaining) }
    ensures stops { IfErr result (StopsInventory R.File.remaining path.now) }
{
    let (_, inventory) = inventory_text_in(rt, alloc, path)?;
    Ok(inventory)
}

/// Reads the file at `path` to its end, and returns its text and the inventory that the text defines (profile).
///
/// # Errors
/// [`FilesStop::Open`] where the file cannot be opened or cannot be read to its end, or [`FilesStop::OpenPassing`] where
/// that may pass; the first fault of the inventory; or out of memory.
///
/// ```
/// let Ok((text, inventory)) = inventory_text_in(&rt, alloc, "/dev/null") else {
///     return Err(Fail::new("it has no bytes"));
/// };
/// assert_eq!(rt; (text.len(), inventory.object_count()), (0, 0));
/// ```
pub fn inventory_text_in<'a, R: Files>(
    rt: &R,
    alloc: Global,
    path: &'a str,
) -> Result<(Vec<u8>, Inventory), FilesStop<'a>>
    ensures read { IfOk result (λ p. IsOfFile R.File.remaining p.0.items × (inventory p.0.items ≡ Ok p.1)) }
    ensures stops { IfErr result (StopsInventory R.File.remaining path.now) }
{
    let mut file = match open_file(rt, path) {
        Ok(file) => file,
        Err(error) => return Err(unopened(path, &error)),
    };
    match read_all(alloc, &mut file, MOST_READS) {
        Ok(text) => match Inventory::parse(alloc, &text) {
            Ok(inventory) => Ok((text, inventory)),
            Err(fault) => Err(FilesStop::Other(Stop::from(fault))),
        },
        Err(InputFault::Failed) => Err(FilesStop::Open(path)),
        Err(InputFault::Passing) => Err(FilesStop::OpenPassing(path)),
        Err(InputFault::Memory) => Err(FilesStop::Other(Stop::Memory)),
    }
}

/// Opens the file at each path, in order. Where a file cannot be opened or memory runs out, the files opened before it
/// are closed.
fn open_all<'a, R: Files>(
    rt: &R,
    alloc: Global,
    paths: &[&'a str],
) -> Result<Vec<R::File>, FilesStop<'a>>
    ensures one_each { IfOk result (λ v. length v.items ≡ length paths.now) }
    ensures stops { IfErr result (StopsOpening (map (λ p. p.now) paths.now)) }
{
    let Ok(mut files) = Vec::with_capacity(alloc, paths.len()) else {
        return Err(FilesStop::Other(Stop::Memory));
    };
    for path in paths {
        match open_file(rt, *path) {
            Ok(file) => files.push_reserved(file),
            Err(error) => return Err(unopened(*path, &error)),
        }
    }
    Ok(files)
}

/// Whether these paths include `path`.
fn is_among(path: &str, paths: &[&str]) -> bool
    ensures { result ≡ list_any (λ other. bytes_eq other.now path.now) paths.now }
{
    paths.iter().any(|other| *other == path)
}

/// Whether two of these paths are equal, byte for byte (profile). Two different paths of one file are not equal.
///
/// ```
/// assert!(rt; has_twice(&["checks", "web", "checks"]));
/// assert!(rt; !has_twice(&["checks", "./checks"]));
/// ```
pub fn has_twice(paths: &[&str]) -> bool
    ensures { result ≡ has_twice (map (λ p. p.now) paths.now) }
{
    match paths {
        [] => false,
        [path, others @ ..] => is_among(path, others) || has_twice(others),
    }
}

/// Reads the inventory that a call names, and opens the file of each of its feeds, in order. Checks the number and
/// the paths of the feeds before it opens a file, and reads the inventory before it opens the first feed (profile).
/// After an error no file remains open.
///
/// # Errors
/// [`Stop::Feeds`] where there is no feed, or more than [`MOST_SENDERS`](cmd_types::MOST_SENDERS); [`Stop::FeedTwice`]
/// where two feeds have the same path. [`FilesStop::Open`] or [`FilesStop::OpenPassing`] with the path of a file that
/// cannot be opened, or of the inventory where it cannot be read to its end. The first fault of the inventory; or out
/// of memory.
///
/// ```
/// // OPTIONS: options of a run
/// let mut feeds = Vec::new(alloc);
/// feeds.push("/dev/null")?;
/// let call = FilesCall {
///     inventory: "/dev/null",
///     feeds,
///     options: OPTIONS,
/// };
/// let Ok((inventory, files)) = open_files(&rt, alloc, &call) else {
///     return Err(Fail::new("both are opened, and have no bytes"));
/// };
/// assert_eq!(rt; inventory.object_count(), 0);
/// assert_eq!(rt; files.len(), 1);
/// ```
pub fn open_files<'a, R: Files>(
    rt: &R,
    alloc: Global,
    call: &FilesCall<'a>,
) -> Result<(Inventory, Vec<R::File>), FilesStop<'a>>
    ensures count { IfOk result (λ _. IsSenderCount (length call.now.feeds.items)) }
    ensures once { IfOk result (λ _. has_twice (map (λ p. p.now) call.now.feeds.items) ≡ false) }
    ensures read { IfOk result (λ x. IsInFile R.File.remaining x.0) }
    ensures one_each { IfOk result (λ x. length x.1.items ≡ length call.now.feeds.items) }
    ensures stops { IfErr result (StopsFiles R.File.remaining call.now) }
{
    if !is_sender_count(call.feeds.len()) {
        return Err(FilesStop::Other(Stop::Feeds));
    }
    if has_twice(&call.feeds) {
        return Err(FilesStop::Other(Stop::FeedTwice));
    }
    let inventory = inventory_in(rt, alloc, call.inventory)?;
    let files = open_all(rt, alloc, &call.feeds)?;
    Ok((inventory, files))
}
