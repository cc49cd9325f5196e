//! The mode that follows feeds and keeps the commands that it takes. Each command is in the journal of the state
//! directory before its lines are printed; however a run ends, the next run resumes from the directory.
ghost use Rattle.std.specs.Prelude.{◌≡◌, ◌≤◌, false, IfOk, length};
ghost use Rattle.cmd_types.specs.declared.entry.TheConstants.{MOST_SENDERS};
ghost use Rattle.gateway.specs.Modes.{ServesKept};
ghost use Rattle.gateway.specs.Renewals.{IsLow, GoesOn};

mod known;
mod showing;
mod site;

use crate::ends::due;
use crate::state_stops::{keeping_stop, later_stop, run_stop};
use cmd_answer::{Ended, FilesStop, Stop, put, stopped, write_text};
use cmd_dispatch::{Followed, Keeper, RunCause, follow_stored};
use cmd_ledger::Ledger;
use cmd_live::{
    Attending, Call, CarriedRun, Directory, FeedSystem, InventoryWatch, Locks, OpenFeeds, Place,
    Run, System, give_carried, inventory_line, keep_old_inventory, print_start, take_carried,
};
use cmd_recovery::{Resumed, proceed};
use cmd_types::Memory;
use known::{open_kept, print_replaced, renew};
use mon_inventory::Inventory;
use showing::{Watching, write_status};
use site::{News, Site, find_site, lock_directory, read_inventory};
use std::io::{Read, Write};
use std::marker::Send;
use std::rt::Files;
use std::sync::Wait;
use std::sync::atomic::{AtomicBool, Ordering};
use std::thread::Threads;
use std::time::Clock;

/// The end of a run that did not fail.
#[derive(Clone, Copy)]
pub(crate) enum RunEnd {
    /// All feeds have ended; the program ends with this status.
    Over(u8),
    /// The next run is to begin.
    Renewed,
}

/// Ends a run whose feeds have all ended: writes the file `status`, and appends to the output the lines on the feeds.
/// Returns the end. After an error the output has a prefix of these lines.
fn finish<R: FeedSystem + Sync, O: Write>(
    run: &Run<'_, R>,
    directory: &str,
    followed: &Followed<Attending<'_, R>>,
    output: &mut O,
) -> Result<RunEnd, Stop>
where
    R::File: Send,
    R::Dir: Send,
    R::Stream: Send,
    ensures { IfOk result IsLow }
{
    write_status(run.call, directory, &followed.monitor)?;
    let due = due(run, &followed.feeds)?;
    let status = put(due, output)?;
    Ok(RunEnd::Over(status))
}

/// Whether a run with this cause ended for the next run, because a feed has left a waiting command to that run.
fn has_left_command<R: Files>(run: &Run<'_, R>, cause: RunCause) -> bool {
    let signal = &run.signal;
    matches!(cause, RunCause::SenderStopped(_))
        && signal.renewal.is_ending()
        && !signal.has_failed()
}

/// Follows the open feeds of a run from `resumed`, and at its end appends the lines on the feeds to the output, unless
/// the next run is to begin. `inventory_text` is the text of the inventory. Returns the end and the output. After an
/// error the directory keeps what was stored before.
fn run_kept<'a, R: FeedSystem + Locks + Threads + Sync, I: Read + Send + Drop, O: Write + Drop>(
    run: &'a Run<'a, R>,
    inventory_text: &'a [u8],
    resumed: Resumed,
    opened: OpenFeeds<'a, R, I>,
    directory: Directory<'_, R, O>,
) -> (Result<RunEnd, Stop>, O)
where
    R::File: Send,
    R::Dir: Send,
    R::Stream: Send,
    ensures { IfOk result.0 IsLow }
{
    let Call { rt, alloc, .. } = *run.call;
    let Resumed { ledger, checkpoint } = resumed;
    let path = directory.path;
    let Ok(fed) = run.feeds(opened, Some(inventory_text)) else {
        return (Err(Stop::Memory), directory.output);
    };
    let is_shown = AtomicBool::new(true);
    let watching = match Watching::begin(run, path, &ledger.monitor, &is_shown) {
        Ok(watching) => watching,
        Err(stop) => return (Err(stop), directory.output),
    };
    let keeper = Keeper {
        store: directory,
        checkpoint,
        observer: watching,
    };
    let (followed, mut directory) = follow_stored(rt, alloc, ledger, fed, keeper);
    let is_moved = followed.is_ok() && directory.check_place().is_err();
    let failed = directory.failed;
    let mut output = directory.output;
    match followed {
        Ok(_) if is_moved => (Err(later_stop(failed)), output),
        Ok(_) if run.signal.renewal.is_ending() => (Ok(RunEnd::Renewed), output),
        Ok(followed) => (finish(run, path, &followed, &mut output), output),
        Err(fault) if has_left_command(run, fault.cause) => (Ok(RunEnd::Renewed), output),
        Err(fault) => {
            let stop = run_stop(fault.cause, failed, is_shown.load(Ordering::SeqCst));
            (Err(stop), output)
        }
    }
}

/// Writes the news of a run that begins from `ledger` to the error stream. Fails if memory runs out. A failed write is
/// no error.
fn print_news<R, E: Write>(
    call: &Call<'_, R>,
    news: News,
    ledger: &Ledger,
    errors: &mut E,
) -> Result<(), Memory>
    requires { ledger.now.monitor.broken ≡ false }
{
    let Call { alloc, asked, .. } = *call;
    match news {
        News::Following => {
            let entries = ledger.monitor.entries_ever();
            print_start(
                alloc,
                asked.feeds.len(),
                entries,
                ledger.past.clock(),
                errors,
            )
        }
        News::NewInventory => {
            let line = inventory_line(ledger.monitor.inventory()).text(alloc)?;
            let _ = write_text(errors, line.as_bytes());
            Ok(())
        }
        News::Nothing => Ok(()),
    }
}

/// Writes the beginning of a run to the directory, and follows its open feeds. Where the inventory is new, first keeps
/// the previous one. The error stream gets the news of the run. Returns the end and the output. Where the directory
/// cannot be written, no feed is read.
fn follow_kept<'a, R: System + Sync, I: Read + Send + Drop, O: Write + Drop, E: Write>(
    run: &'a Run<'a, R>,
    site: Site<'a>,
    opened: OpenFeeds<'a, R, I>,
    mut directory: Directory<'_, R, O>,
    errors: &mut E,
) -> (Result<RunEnd, Stop>, O)
where
    R::File: Send,
    R::Dir: Send,
    R::Stream: Send,
    requires whole { site.recovered.ledger.monitor.broken ≡ false }
    requires few { length site.feeds.list ≤ MOST_SENDERS }
    ensures { IfOk result.0 IsLow }
{
    let Call { rt, alloc, .. } = *run.call;
    let Site {
        inventory_text,
        recovered,
        feeds,
        news,
    } = site;
    let number = recovered.ledger.monitor.entries_ever();
    let path = directory.path;
    if let Err(failed) = keep_old_inventory(rt, alloc, path, inventory_text, number) {
        return (Err(keeping_stop(failed)), directory.output);
    }
    let resumed = match proceed(&mut directory, alloc, inventory_text, recovered, feeds) {
        Ok(resumed) => resumed,
        Err(_) => return (Err(later_stop(directory.failed)), directory.output),
    };
    if print_news(run.call, news, &resumed.ledger, errors).is_err() {
        return (Err(Stop::Memory), directory.output);
    }
    run_kept(run, inventory_text, resumed, opened, directory)
}

/// What follows one of the runs of a call.
pub(crate) enum Onward<F: Drop> {
    /// The program ends.
    Ended(Ended),
    /// The next run begins, with what this run left.
    Renewed(RunLeft<F>),
}

/// What a run leaves to the next run in the same process.
#[derive(Drop)]
pub(crate) struct RunLeft<F: Drop> {
    /// What the run leaves of each feed, and what it has seen of the clocks and the inventory.
    carried: CarriedRun<F>,
    /// The text of a new inventory; `None` where the next run has the same.
    inventory: Option<Vec<u8>>,
}

/// Appends the line of a stop to the error stream; the program ends.
fn stop<F: Drop, E: Write>(why: FilesStop<'_>, errors: &mut E) -> Onward<F>
    ensures { GoesOn result (E.contents errors.new) }
{
    Onward::Ended(stopped(why, errors))
}

/// Opens the feeds of a run and follows them, resuming from the directory. Returns what comes next, and the output.
/// Where a feed is not opened, the directory is unchanged and no feed is read.
fn serve_site<'a, R: System + Sync, I: Read + Send, O: Write + Drop, E: Write>(
    run: &'a Run<'a, R>,
    mut site: Site<'a>,
    directory: Directory<'_, R, O>,
    input: &mut I,
    errors: &mut E,
) -> (Onward<R::File>, O)
where
    R::File: Send,
    R::Dir: Send,
    R::Stream: Send,
    requires whole { site.recovered.ledger.monitor.broken ≡ false }
    requires few { length site.feeds.list ≤ MOST_SENDERS }
    ensures { GoesOn result.0 (E.contents errors.new) }
{
    let opened = match open_kept(run, &site.feeds, &mut *input) {
        Ok(opened) => opened,
        Err(why) => return (stop(why, errors), directory.output),
    };
    renew(run, &mut site.feeds, &opened.starts, errors);
    match follow_kept(run, site, opened, directory, errors) {
        (Ok(RunEnd::Over(status)), output) => {
            (
                Onward::Ended(Ended {
                    status,
                    printed: true,
                }),
                output,
            )
        }
        (Ok(RunEnd::Renewed), output) => (leave_run(run, errors), output),
        (Err(why), output) => (stop(FilesStop::Other(why), errors), output),
    }
}

/// Prints which files were replaced, and takes from the run what it leaves to the next one.
fn leave_run<R: Files + Clock + Wait, E: Write>(run: &Run<'_, R>, errors: &mut E) -> Onward<R::File>
    ensures { GoesOn result (E.contents errors.new) }
{
    print_replaced(run, errors);
    let Call { rt, alloc, .. } = *run.call;
    match take_carried(rt, alloc, &run.signal) {
        Ok(carried) => Onward::Renewed(RunLeft {
            carried,
            inventory: run.signal.take_inventory(rt),
        }),
        Err(_) => stop(FilesStop::Other(Stop::Memory), errors),
    }
}

/// What each run of a call begins with.
#[derive(Drop)]
struct RunBeginning<'t, F: Drop> {
    /// The state directory.
    place: Place<'t>,
    /// The text of the inventory; its last line ends in a line feed.
    inventory_text: &'t [u8],
    /// What the error stream gets when the run begins.
    news: News,
    /// What the previous run left; `None` where this run is the first one of the process.
    carried: Option<CarriedRun<F>>,
}

/// Serves one run of the call: reads the directory, opens the feeds with what the previous run left, and follows them.
/// Returns what comes next, and the output.
fn serve_once<'t, R: System + Sync, I: Read + Send, O: Write + Drop, E: Write>(
    call: &'t Call<'t, R>,
    beginning: RunBeginning<'t, R::File>,
    input: &mut I,
    output: O,
    errors: &mut E,
) -> (Onward<R::File>, O)
where
    R::File: Send,
    R::Dir: Send,
    R::Stream: Send,
    ensures { GoesOn result.0 (E.contents errors.new) }
{
    let Call { rt, alloc, asked } = *call;
    let RunBeginning {
        place,
        inventory_text,
        news,
        carried,
    } = beginning;
    let Ok(inventory) = Inventory::parse(alloc, inventory_text) else {
        return (stop(FilesStop::Other(Stop::Memory), errors), output);
    };
    let mut directory = Directory::new(rt, alloc, place, asked.keeping.syncs, output);
    let (mut site, run) = match find_site(call, inventory_text, inventory, &mut directory) {
        Ok(found) => found,
        Err(why) => return (stop(FilesStop::Other(why), errors), directory.output),
    };
    site.news = news;
    if let Some(carried) = carried {
        give_carried(rt, &run.signal, carried);
    }
    serve_site(&run, site, directory, input, errors)
}

/// Follows feeds and keeps each command in the state directory at `path`, from which the run resumes (profile). First
/// appends the lines that an earlier run did not print, then the lines of this run as they come. Writes the start, each
/// refused line and the cause of a failure to the error stream. Where the file of a feed is replaced, or the inventory
/// file has a new text without a fault, a new run begins. Holds the directory's lock until it returns. Returns the end
/// of the call, and the output, which the run owns until then.
pub fn serve_kept<R: System + Sync, I: Read + Send, O: Write + Drop, E: Write>(
    call: &Call<'_, R>,
    path: &str,
    input: &mut I,
    mut output: O,
    errors: &mut E,
) -> (Ended, O)
where
    R::File: Send,
    R::Dir: Send,
    R::Stream: Send,
    ensures { ServesKept result.0 (E.contents errors.new) }
{
    let rt = call.rt;
    let mut inventory_text = match read_inventory(call) {
        Ok(text) => text,
        Err(stop) => return (stopped(stop, errors), output),
    };
    let (_lock, node) = match lock_directory(call, path) {
        Ok(locked) => locked,
        Err(stop) => return (stopped(FilesStop::Other(stop), errors), output),
    };
    let mut news = News::Following;
    let mut carried = None;
    for _ in rt.forever() {
        let beginning = RunBeginning {
            place: Place { path, node },
            inventory_text: &inventory_text,
            news,
            carried,
        };
        let (onward, returned) = serve_once(&*call, beginning, &mut *input, output, &mut *errors);
        output = returned;
        let left = match onward {
            Onward::Ended(ended) => return (ended, output),
            Onward::Renewed(left) => left,
        };
        carried = Some(left.carried);
        news = News::Nothing;
        if let Some(text) = left.inventory {
            inventory_text = text;
            news = News::NewInventory;
        }
    }
    unreachable!()
}
