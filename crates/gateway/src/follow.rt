//! The mode that follows feeds and keeps nothing. The effects of the feeds' commands are printed to the output as they
//! happen; refused lines, the start and a stop are printed to the error stream. No file is written.
ghost use Rattle.std.specs.Prelude.{◌≡◌, false, IfOk, IfErr, OnOk, length, map};
ghost use Rattle.cmd_types.specs.Entries.{IsSenderCount};
ghost use Rattle.cmd_answer.specs.Files.{IsInFile};
ghost use Rattle.cmd_answer.specs.Stops.{has_twice};
ghost use Rattle.gateway.specs.Followed.{given_feeds, all_feeds, clock_after, IsRun, IsRunCutOff};
ghost use Rattle.gateway.specs.Modes.{ServesFollow, StopsFollow, streams};

use crate::ends::{due, stop_of};
use cmd_answer::{Ended, FilesStop, Stop, has_twice, inventory_in, put, stopped};
use cmd_dispatch::{Audience, follow};
use cmd_live::{
    Call, FeedSystem, Locks, OpenFeeds, Run, System, TellingOutput, number_feeds, print_start,
};
use cmd_options::FollowCall;
use cmd_types::{Memory, is_sender_count};
use mon_inventory::Inventory;
use std::io::{Read, Write};
use std::marker::Send;
use std::rt::Files;
use std::thread::Threads;

/// The number of feeds in the call, including the clock feed where there is one.
fn all_feeds(asked: &FollowCall<'_>) -> usize
    ensures { result ≡ all_feeds asked.now }
{
    let given = asked.feeds.len();
    if asked.following.clock == 0 {
        given
    } else {
        given + 1
    }
}

/// The number of the clock feed, after all other feeds; `None` where there is no clock feed. Requires 1 to 64 feeds.
fn clock_of(asked: &FollowCall<'_>) -> Option<u16>
    requires { IsSenderCount (given_feeds asked.now) }
    ensures { result ≡ clock_after asked.now.following.clock (given_feeds asked.now) }
{
    if asked.following.clock == 0 {
        None
    } else {
        Some(asked.feeds.len() as u16)
    }
}

/// A run over the feeds of the call, numbered in the call's order, and the clock feed after them. Requires 1 to 64
/// feeds. Fails if memory runs out.
fn run_of<'a, R: Files>(call: &'a Call<'a, R>) -> Result<Run<'a, R>, Memory>
    requires { IsSenderCount (given_feeds call.now.asked.now) }
    ensures call { IfOk result (λ run. run.call.now ≡ call.now) }
    ensures clock { IfOk result (λ run. run.clock ≡ clock_after call.now.asked.now.following.clock (given_feeds call.now.asked.now)) }
    ensures paths { IfOk result (λ run. map (λ g. g.path.now) run.signal.gates.items ≡ map (λ p. p.now) call.now.asked.now.feeds.items) }
{
    let feeds = number_feeds(call.alloc, &call.asked.feeds)?;
    Run::new(call, &feeds, clock_of(call.asked))
}

/// Reads the inventory file. Where the number of feeds, without the clock feed or with it, is out of range, fails with
/// `Stop::Feeds`, and where a feed is named twice with `Stop::FeedTwice`, and reads no file.
fn read_inventory<'a, R: Files>(call: &Call<'a, R>) -> Result<Inventory, FilesStop<'a>>
    ensures count { IfOk result (λ _. IsSenderCount (given_feeds call.now.asked.now) × IsSenderCount (all_feeds call.now.asked.now)) }
    ensures once { OnOk result (has_twice (map (λ p. p.now) call.now.asked.now.feeds.items) ≡ false) }
    ensures read { IfOk result (IsInFile R.File.remaining) }
    ensures stops { IfErr result (StopsFollow R.File.remaining call.now.asked.now) }
{
    if !is_sender_count(call.asked.feeds.len()) || !is_sender_count(all_feeds(call.asked)) {
        return Err(FilesStop::Other(Stop::Feeds));
    }
    if has_twice(&call.asked.feeds) {
        return Err(FilesStop::Other(Stop::FeedTwice));
    }
    inventory_in(call.rt, call.alloc, call.asked.inventory)
}

/// Follows the open feeds of a run, and appends to the output the lines that their commands print and, with `drain`,
/// the lines `feed`. Returns the exit status and the output. After an error the output has a prefix of that text.
fn follow_all<'a, R: FeedSystem + Locks + Threads + Sync, I: Read + Send + Drop, O: Write + Drop>(
    run: &'a Run<'a, R>,
    inventory: Inventory,
    opened: OpenFeeds<'a, R, I>,
    output: O,
) -> (Result<u8, Stop>, O)
where
    R::File: Send,
    R::Dir: Send,
    R::Stream: Send,
    requires one_each { length opened.sources.items ≡ given_feeds run.now.call.now.asked.now }
    requires clock { run.now.clock ≡ clock_after run.now.call.now.asked.now.following.clock (given_feeds run.now.call.now.asked.now) }
    ensures ran { IfOk result.0 (λ status. IsRun run.now.call.now.asked.now inventory (O.contents output) (O.contents result.1) status) }
    ensures cut_off { IfErr result.0 (λ stop. IsRunCutOff run.now.call.now.asked.now inventory (O.contents output) (O.contents result.1) stop) }
{
    let Call { rt, alloc, .. } = *run.call;
    let Ok(fed) = run.feeds(opened, None) else {
        return (Err(Stop::Memory), output);
    };
    let audience = Audience {
        teller: TellingOutput {
            rt,
            signal: &run.signal,
            output,
        },
        clock: run.clock,
    };
    let (followed, teller) = follow(rt, alloc, inventory, fed, audience);
    let TellingOutput { mut output, .. } = teller;
    match followed {
        Ok(followed) => match due(run, &followed.feeds) {
            Ok(due) => (put(due, &mut output), output),
            Err(_) => (Err(Stop::Memory), output),
        },
        Err(fault) => (Err(stop_of(fault.cause)), output),
    }
}

/// Opens the feeds of a run, writes to the error stream that the run begins, and follows the feeds. Returns the end of
/// the call and the output. Where a feed cannot be opened, the error stream has only the line of the stop.
fn serve_run<'a, R: System + Sync, I: Read + Send, O: Write + Drop, E: Write>(
    run: &'a Run<'a, R>,
    inventory: Inventory,
    input: &mut I,
    output: O,
    errors: &mut E,
) -> (Ended, O)
where
    R::File: Send,
    R::Dir: Send,
    R::Stream: Send,
    requires count { IsSenderCount (given_feeds run.now.call.now.asked.now) × IsSenderCount (all_feeds run.now.call.now.asked.now) }
    requires clock { run.now.clock ≡ clock_after run.now.call.now.asked.now.following.clock (given_feeds run.now.call.now.asked.now) }
    requires read { IsInFile R.File.remaining inventory }
    requires paths { map (λ g. g.path.now) run.now.signal.gates.items ≡ map (λ p. p.now) run.now.call.now.asked.now.feeds.items }
    ensures { ServesFollow R.File.remaining run.now.call.now.asked.now result.0 (streams (O.contents output) (O.contents result.1) (E.contents errors.old) (E.contents errors.new)) }
{
    run.signal.renewal.forbid();
    let opened = match run.open(&[], &mut *input) {
        Ok(opened) => opened,
        Err(stop) => return (stopped(stop, errors), output),
    };
    let feeds = run.call.asked.feeds.len();
    if print_start(run.call.alloc, feeds, 0, 0, errors).is_err() {
        return (stopped(FilesStop::Other(Stop::Memory), errors), output);
    }
    match follow_all(run, inventory, opened, output) {
        (Ok(status), output) => (
            Ended {
                status,
                printed: true,
            },
            output,
        ),
        (Err(stop), output) => (stopped(FilesStop::Other(stop), errors), output),
    }
}

/// Follows feeds (profile). Appends to the output the lines that their commands print, as they come, and with `drain`
/// the lines `feed` at the end. The error stream gets a line on the start, each refused line, and after a stop the line
/// of the stop. Returns the end of the call, and the output, which the run takes by value.
pub fn serve_follow<R: System + Sync, I: Read + Send, O: Write + Drop, E: Write>(
    call: &Call<'_, R>,
    input: &mut I,
    output: O,
    errors: &mut E,
) -> (Ended, O)
where
    R::File: Send,
    R::Dir: Send,
    R::Stream: Send,
    ensures { ServesFollow R.File.remaining call.now.asked.now result.0 (streams (O.contents output) (O.contents result.1) (E.contents errors.old) (E.contents errors.new)) }
{
    let inventory = match read_inventory(call) {
        Ok(inventory) => inventory,
        Err(stop) => return (stopped(stop, errors), output),
    };
    let Ok(run) = run_of(call) else {
        return (stopped(FilesStop::Other(Stop::Memory), errors), output);
    };
    serve_run(&run, inventory, input, output, errors)
}
