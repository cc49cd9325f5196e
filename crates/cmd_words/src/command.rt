//! Describes the modes, with their options and arguments, to `clap`, and lets `clap` read the words of a call. Each
//! function but the last two builds one part of the description; if memory runs out, the part is dropped.
use crate::fault::WordsFault;
use crate::names::{
    AFTER, AHEAD, BUNDLE, CAPACITY, CHECK, CLOCK, DIRECTORY, DRAIN, FEEDS, FIGURES, FILES, FOLLOW,
    INVENTORY, JOURNAL, LIMIT, NO_SYNC, PIECE, REPLAY, SINCE, STATE, TOLD, VERBOSE,
};
use clap::error::ErrorKind;
use clap::{Arg, ArgAction, ArgMatches, Command, Error, value_parser};
use cmd_journal::GREATEST_LIMIT;
use cmd_options::MOST_PIECE;
use cmd_queue::MOST_CAPACITY;
use cmd_types::Memory;
use std::alloc::Global;

/// The default of `--capacity`, the messages that may wait in the queue: a choice, some two thousand
/// commands where all messages are full (profile).
const USUAL_CAPACITY: &str = "64";

/// The default of `--piece`, the bytes that one read asks for: a choice, as many as a page of memory
/// has (profile).
const USUAL_PIECE: &str = "4096";

/// The default of `--limit`, the most entries of a journal: a choice, with which a run takes a few
/// hundred MiB of memory (profile).
const USUAL_LIMIT: &str = "1000000";

/// The option `name` with a number from 1 to `greatest`; `usual` is its default.
fn number_option<'a>(alloc: Global, name: &'a str, usual: &'a str, greatest: u32) -> Arg<'a> {
    Arg::new(alloc, name)
        .long(name)
        .action(ArgAction::Set)
        .default_value(usual)
        .value_parser(value_parser!(u32).range(1..=i64::from(greatest)))
}

/// The option `name` with a number of seconds, 0 or more. Its default depends on `--drain`, so that `clap` has none.
fn seconds_option<'a>(alloc: Global, name: &'a str) -> Arg<'a> {
    Arg::new(alloc, name)
        .long(name)
        .action(ArgAction::Set)
        .value_parser(value_parser!(u32).range(0..=i64::from(u32::MAX)))
}

/// The option `name` with a path. It has no default.
fn path_option<'a>(alloc: Global, name: &'a str) -> Arg<'a> {
    Arg::new(alloc, name).long(name).action(ArgAction::Set)
}

/// The option `name` without a value: a flag, which is off where the words do not have it.
fn flag<'a>(alloc: Global, name: &'a str) -> Arg<'a> {
    Arg::new(alloc, name).long(name).action(ArgAction::SetTrue)
}

/// The option `--capacity`: how many messages may wait in the queue.
fn capacity<'a>(alloc: Global) -> Arg<'a> {
    number_option(alloc, CAPACITY, USUAL_CAPACITY, MOST_CAPACITY as u32)
}

/// The option `--piece`: how many bytes one read asks for.
fn piece<'a>(alloc: Global) -> Arg<'a> {
    number_option(alloc, PIECE, USUAL_PIECE, MOST_PIECE as u32)
}

/// The option `--limit`: how many entries a journal, or a segment of one, may have.
fn limit<'a>(alloc: Global) -> Arg<'a> {
    number_option(alloc, LIMIT, USUAL_LIMIT, GREATEST_LIMIT)
}

/// Appends `item` to `list`. If one of them is an error, or memory runs out, drops both and returns `Memory`. So the
/// callers need no proof that they drop commands and arguments.
fn with<T: Drop>(list: Result<Vec<T>, Memory>, item: Result<T, Memory>) -> Result<Vec<T>, Memory> {
    let mut list = list?;
    list.push(item?)?;
    Ok(list)
}

/// The options of the modes `bundle` and `files`.
fn options<'a>(alloc: Global) -> Result<Vec<Arg<'a>>, Memory> {
    let options = with(Ok(Vec::new(alloc)), Ok(capacity(alloc)));
    let options = with(options, Ok(piece(alloc)));
    let options = with(options, Ok(limit(alloc)));
    let options = with(options, Ok(flag(alloc, FIGURES)));
    with(options, Ok(flag(alloc, JOURNAL)))
}

/// The mode `bundle`, with its options.
fn bundle<'a>(alloc: Global) -> Result<Command<'a>, Memory> {
    let options = options(alloc)?;
    Command::new(alloc, BUNDLE).args(options)
}

/// Appends the arguments to the options: the path of the inventory, which is required, and the paths of the feeds.
fn with_paths<'a>(
    alloc: Global,
    options: Result<Vec<Arg<'a>>, Memory>,
) -> Result<Vec<Arg<'a>>, Memory> {
    let inventory = Arg::new(alloc, INVENTORY).required(true);
    let feeds = Arg::new(alloc, FEEDS)
        .action(ArgAction::Append)
        .num_args(0..);
    with(with(options, Ok(inventory)), Ok(feeds))
}

/// The mode `files`, with its options and paths.
fn files<'a>(alloc: Global) -> Result<Command<'a>, Memory> {
    let args = with_paths(alloc, options(alloc))?;
    Command::new(alloc, FILES).args(args)
}

/// The mode `follow`, with its options and paths.
fn follow<'a>(alloc: Global) -> Result<Command<'a>, Memory> {
    let options = with(Ok(Vec::new(alloc)), Ok(capacity(alloc)));
    let options = with(options, Ok(piece(alloc)));
    let options = with(options, Ok(limit(alloc)));
    let options = with(options, Ok(path_option(alloc, STATE)));
    let options = with(options, Ok(flag(alloc, NO_SYNC)));
    let options = with(options, Ok(seconds_option(alloc, CLOCK)));
    let options = with(options, Ok(seconds_option(alloc, AHEAD)));
    let options = with(options, Ok(flag(alloc, VERBOSE)));
    let args = with_paths(alloc, with(options, Ok(flag(alloc, DRAIN))))?;
    Command::new(alloc, FOLLOW).args(args)
}

/// The mode `replay`, with its options.
fn replay<'a>(alloc: Global) -> Result<Command<'a>, Memory> {
    let options = with(Ok(Vec::new(alloc)), Ok(limit(alloc)));
    let options = with(options, Ok(path_option(alloc, STATE)));
    Command::new(alloc, REPLAY).args(options?)
}

/// The mode `told`, with its options and the path of the state directory.
fn told<'a>(alloc: Global) -> Result<Command<'a>, Memory> {
    let options = with(Ok(Vec::new(alloc)), Ok(path_option(alloc, AFTER)));
    let options = with(options, Ok(seconds_option(alloc, SINCE)));
    let options = with(options, Ok(flag(alloc, FOLLOW)));
    let directory = Arg::new(alloc, DIRECTORY).required(true);
    let args = with(options, Ok(directory))?;
    Command::new(alloc, TOLD).args(args)
}

/// The mode `check`, with the path of its inventory.
fn check<'a>(alloc: Global) -> Result<Command<'a>, Memory> {
    let inventory = Arg::new(alloc, INVENTORY).required(true);
    let args = with(Ok(Vec::new(alloc)), Ok(inventory))?;
    Command::new(alloc, CHECK).args(args)
}

/// All modes that have arguments, but for `explain`: the words of `explain` may be any words, so `clap` does not read
/// them.
fn modes<'a>(alloc: Global) -> Result<Vec<Command<'a>>, Memory> {
    let modes = with(Ok(Vec::new(alloc)), bundle(alloc));
    let modes = with(with(modes, files(alloc)), replay(alloc));
    with(with(with(modes, follow(alloc)), told(alloc)), check(alloc))
}

/// The description of the program, with its modes.
fn command<'a>(alloc: Global) -> Result<Command<'a>, Memory> {
    let modes = modes(alloc)?;
    Command::new(alloc, "gateway")
        .no_binary_name(true)
        .subcommand_required(true)
        .subcommands(modes)
}

/// The `WordsFault` of an error of `clap`: `Memory` for out of memory, and `Usage` for any other error or a call for
/// help.
fn fault_of(error: Error) -> WordsFault {
    if error.kind() == ErrorKind::OutOfMemory {
        WordsFault::Memory
    } else {
        WordsFault::Usage
    }
}

/// Lets `clap` read the words: returns the mode, options and arguments that `clap` finds, or the `WordsFault` for which
/// it refuses the words.
pub fn matches_of<'a>(alloc: Global, words: &'a [&'a str]) -> Result<ArgMatches<'a>, WordsFault> {
    command(alloc)?
        .try_get_matches_from(words)
        .map_err(fault_of)
}
