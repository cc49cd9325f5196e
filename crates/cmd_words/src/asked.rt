//! Turns the modes and options that `clap` found in the words of a call into the values of `cmd_options`, and tests
//! their ranges. A fault is a `WordsFault`: wrong use, or out of memory. Only lists of paths take memory.
ghost use Rattle.std.specs.Prelude.{◌≡◌, IfOk, None};
ghost use Rattle.cmd_journal.specs.Journals.{IsLimit};
ghost use Rattle.cmd_journal.specs.declared.journal.TheConstants.{GREATEST_LIMIT};
ghost use Rattle.cmd_words.specs.Words.{AreOfWords, HasRanges};

use crate::fault::WordsFault;
use crate::names::{
    AFTER, AHEAD, BUNDLE, CAPACITY, CHECK, CLOCK, DIRECTORY, DRAIN, FEEDS, FIGURES, FILES, FOLLOW,
    INVENTORY, JOURNAL, LIMIT, NO_SYNC, PIECE, REPLAY, SINCE, STATE, TOLD, VERBOSE,
};
use clap::ArgMatches;
use cmd_journal::{GREATEST_LIMIT, is_limit};
use cmd_options::{
    Asked, FilesCall, FollowCall, Following, Keeping, MOST_READS, Mode, Options, RunOptions,
    ToldCall, ToldPlace,
};
use cmd_types::Memory;
use std::alloc::Global;

/// The default of `--clock` without `--drain`, in seconds: a choice, so that notices of due events are
/// printed at most some seconds late (profile).
const USUAL_CLOCK: u32 = 10;

/// The default of `--ahead` without `--drain`, in seconds past the system's clock: a choice, as much as
/// the clocks of two machines may differ (profile).
const USUAL_AHEAD: u32 = 60;

/// The number of the option `name`, written in decimal digits alone, without a sign. `Usage` where it is missing
/// or written otherwise.
fn number_of(matches: &ArgMatches<'_>, name: &str) -> Result<u32, WordsFault> {
    match (matches.get_str(name), matches.get_one::<u32>(name)) {
        (Some(written), Some(number)) if written.bytes().all(|byte| byte.is_ascii_digit()) => {
            Ok(number)
        }
        _ => Err(WordsFault::Usage),
    }
}

/// The number of the option `name`, or `usual` where the option is missing. `Usage` where the option has no number.
fn number_or(matches: &ArgMatches<'_>, name: &str, usual: u32) -> Result<u32, WordsFault> {
    match matches.get_str(name) {
        Some(_) => number_of(matches, name),
        None => Ok(usual),
    }
}

/// The number of `--limit`; `Usage` where it is out of its range. The test repeats that of `clap`, so that the contract
/// can state the range.
fn limit_of(matches: &ArgMatches<'_>) -> Result<u32, WordsFault>
    ensures range { IfOk result IsLimit }
{
    let limit = number_of(matches, LIMIT)?;
    if is_limit(limit) {
        Ok(limit)
    } else {
        Err(WordsFault::Usage)
    }
}

/// The options of a run, with this limit; `Usage` where one is out of its range. The tests repeat those of `clap`, so
/// that the contract can state the ranges.
fn run_of(matches: &ArgMatches<'_>, limit: u32) -> Result<RunOptions, WordsFault>
    ensures given { IfOk result AreOfWords }
    ensures limit { IfOk result (λ run. run.limit ≡ limit) }
{
    let run = RunOptions {
        capacity: number_of(matches, CAPACITY)? as usize,
        piece: number_of(matches, PIECE)? as usize,
        limit,
        reads: MOST_READS,
    };
    if run.are_in_range() {
        Ok(run)
    } else {
        Err(WordsFault::Usage)
    }
}

/// The options of a run that ends with a report, with `--figures` and `--journal`; `Usage` where a number is missing,
/// not written in decimal digits alone, or out of its range.
fn options_of(matches: &ArgMatches<'_>) -> Result<Options, WordsFault>
    ensures given { IfOk result (λ o. AreOfWords o.run) }
{
    let limit = number_of(matches, LIMIT)?;
    Ok(Options {
        run: run_of(matches, limit)?,
        asked: Asked {
            figures: matches.get_flag(FIGURES),
            journal: matches.get_flag(JOURNAL),
        },
    })
}

/// The path of the inventory; `Usage` where it is missing.
fn inventory_of<'a>(matches: &ArgMatches<'a>) -> Result<&'a str, WordsFault> {
    matches.get_str(INVENTORY).ok_or(WordsFault::Usage)
}

/// The paths of the feeds, in order; the list may be empty. `Memory` if memory runs out for the list.
fn feeds_of<'a>(alloc: Global, matches: &ArgMatches<'a>) -> Result<Vec<&'a str>, Memory> {
    let mut feeds = Vec::new(alloc);
    if let Some(paths) = matches.get_strs(FEEDS) {
        feeds.extend_from_slice(paths)?;
    }
    Ok(feeds)
}

/// The mode of a call that reads the input, with its options: `bundle` or `replay`. `Usage` for any other mode, and
/// where an option is out of its range.
pub fn mode_in(matches: &ArgMatches<'_>) -> Result<Mode, WordsFault>
    ensures ranges { IfOk result HasRanges }
{
    match matches.subcommand() {
        Some((BUNDLE, inner)) => Ok(Mode::Bundle(options_of(inner)?)),
        Some((REPLAY, inner)) => Ok(Mode::Replay {
            limit: limit_of(inner)?,
        }),
        _ => Err(WordsFault::Usage),
    }
}

/// The state directory that `--state` names in a call of the mode `replay`; `None` for any other call.
pub fn state_to_replay_in<'a>(matches: &ArgMatches<'a>) -> Option<&'a str> {
    match matches.subcommand() {
        Some((REPLAY, inner)) => inner.get_str(STATE),
        _ => None,
    }
}

/// The call of the mode `files`: its options and its paths. `Usage` for another mode or an option out of its range,
/// `Memory` if memory runs out for the paths.
pub fn files_in<'a>(alloc: Global, matches: &ArgMatches<'a>) -> Result<FilesCall<'a>, WordsFault>
    ensures given { IfOk result (λ call. AreOfWords call.options.run) }
{
    let Some((FILES, inner)) = matches.subcommand() else {
        return Err(WordsFault::Usage);
    };
    let options = options_of(inner)?;
    Ok(FilesCall {
        inventory: inventory_of(inner)?,
        feeds: feeds_of(alloc, inner)?,
        options,
    })
}

/// How feeds are followed: `--drain`, `--clock`, `--ahead` and `--verbose`. With `--drain` the default of both numbers is 0: no
/// clock feed and no bound. `Usage` where `--clock` or `--ahead` has no number.
fn following_of(matches: &ArgMatches<'_>) -> Result<Following, WordsFault> {
    let drain = matches.get_flag(DRAIN);
    let (clock, ahead) = if drain {
        (0, 0)
    } else {
        (USUAL_CLOCK, USUAL_AHEAD)
    };
    Ok(Following {
        drain,
        clock: number_or(matches, CLOCK, clock)?,
        ahead: number_or(matches, AHEAD, ahead)?,
        verbose: matches.get_flag(VERBOSE),
    })
}

/// Where a run keeps the commands that it takes: `--state` and `--no-sync`.
fn keeping_of<'a>(matches: &ArgMatches<'a>) -> Keeping<'a> {
    Keeping {
        state: matches.get_str(STATE),
        syncs: !matches.get_flag(NO_SYNC),
    }
}

/// The limit of a run that follows feeds: `--limit` for each segment; without `--state`, where there is no segment, the
/// greatest limit. `Usage` where `--limit` has no number.
fn followed_limit_of(matches: &ArgMatches<'_>, keeping: Keeping<'_>) -> Result<u32, WordsFault>
    ensures limit { keeping.entry.state ≡ None → IfOk result (λ limit. limit ≡ GREATEST_LIMIT) }
{
    let limit = number_of(matches, LIMIT)?;
    match keeping.state {
        Some(_) => Ok(limit),
        None => Ok(GREATEST_LIMIT),
    }
}

/// The call of the mode `follow`: its options and its paths. `Usage` for another mode or an option out of its range,
/// `Memory` if memory runs out for the paths.
pub fn follow_in<'a>(alloc: Global, matches: &ArgMatches<'a>) -> Result<FollowCall<'a>, WordsFault>
    ensures given { IfOk result (λ call. AreOfWords call.run) }
    ensures limit { IfOk result (λ call. call.keeping.state ≡ None → call.run.limit ≡ GREATEST_LIMIT) }
{
    let Some((FOLLOW, inner)) = matches.subcommand() else {
        return Err(WordsFault::Usage);
    };
    let keeping = keeping_of(inner);
    let limit = followed_limit_of(inner, keeping)?;
    let run = run_of(inner, limit)?;
    let following = following_of(inner)?;
    Ok(FollowCall {
        inventory: inventory_of(inner)?,
        feeds: feeds_of(alloc, inner)?,
        run,
        following,
        keeping,
    })
}

/// The path of the inventory in a call of the mode `check`. `Usage` for another mode.
pub fn checked_in<'a>(matches: &ArgMatches<'a>) -> Result<&'a str, WordsFault> {
    match matches.subcommand() {
        Some((CHECK, inner)) => inventory_of(inner),
        _ => Err(WordsFault::Usage),
    }
}

/// The number that a part of a place spells in decimal digits alone. `Usage` where it spells none of 64 bits.
fn part_of(written: &str) -> Result<u64, WordsFault> {
    if !written.bytes().all(|byte| byte.is_ascii_digit()) {
        return Err(WordsFault::Usage);
    }
    written.parse::<u64>().map_err(|_| WordsFault::Usage)
}

/// The place that `--after` names as N.L, the number of a segment and that of a line. `Usage` where it is written
/// otherwise.
fn place_of(written: &str) -> Result<ToldPlace, WordsFault> {
    let Some((segment, line)) = written.split_once('.') else {
        return Err(WordsFault::Usage);
    };
    Ok(ToldPlace {
        segment: part_of(segment)?,
        line: part_of(line)?,
    })
}

/// The call of the mode `told`: the path of its state directory and its options. `Usage` for another mode, or an option
/// that is not written as it should be.
pub fn told_in<'a>(matches: &ArgMatches<'a>) -> Result<ToldCall<'a>, WordsFault> {
    let Some((TOLD, inner)) = matches.subcommand() else {
        return Err(WordsFault::Usage);
    };
    Ok(ToldCall {
        state: inner.get_str(DIRECTORY).ok_or(WordsFault::Usage)?,
        after: match inner.get_str(AFTER) {
            Some(written) => Some(place_of(written)?),
            None => None,
        },
        since: match inner.get_str(SINCE) {
            Some(_) => Some(number_of(inner, SINCE)?),
            None => None,
        },
        follow: inner.get_flag(FOLLOW),
    })
}
