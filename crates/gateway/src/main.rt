//! The program `gateway`: it applies the external commands of its feeds, or of a journal that it replays, in order, and
//! prints the report on the state that they lead to. `specs/Modes.antt` says for each mode what is proved of it.
#![tactic(auto)]

mod bundle;
mod check;
mod ends;
mod explain;
mod feeds;
mod files;
mod follow;
mod help;
mod keeping;
mod program;
mod state_replay;
mod state_stops;
mod told;
mod unkept;
mod watching;

use cmd_answer::{Stop, misused};
use cmd_types::Memory;
use cmd_words::usage_of;
use program::serve;
use std::alloc::Global;
use std::fs::{File, OpenOptions};
use std::io::Write;
use std::os::fd::AsRawFd;
use std::process::ExitCode;
use std::{env, fs, io};

/// The program's arguments without the first one, which is its name. Fails if memory runs out.
fn words_of<'a>(alloc: Global, given: &'a [String]) -> Result<Vec<&'a str>, Memory> {
    let mut words = Vec::new(alloc);
    if let [_, given @ ..] = given {
        for word in given {
            words.push(word.as_str())?;
        }
    }
    Ok(words)
}

/// Ends a program for whose arguments memory ran out: writes the line of the stop to the error stream, and returns the
/// exit status of the stop.
fn without_memory<E: Write>(errors: &mut E) -> ExitCode {
    // Where the error stream cannot be written either, the exit status alone says why.
    let _ = Stop::Memory.print(errors);
    ExitCode::from(Stop::Memory.status())
}

/// The path of the null device.
const NOTHING: &str = "/dev/null";

/// Opens the null device as the input where the input was closed when the program began, so that each read of the input
/// fails. Returns `None` where the input is open, or the device cannot be opened.
fn input_held(rt: &HostRuntime) -> Option<File> {
    let mut how = OpenOptions::new();
    how.write(true);
    let file = how.open(rt, NOTHING).ok()?;
    if file.as_raw_fd() == 0 {
        Some(file)
    } else {
        None
    }
}

fn main(rt: HostRuntime) -> io::Result<ExitCode> {
    // Where a stream was closed when the program began, the file of a feed would get its descriptor number. So the null
    // device gets that number: open for writing where the stream is read, for reading where it is written, so that each
    // use fails.
    let _input = input_held(&rt);
    let _output = fs::open(&rt, NOTHING);
    let _errors = fs::open(&rt, NOTHING);
    let args = match env::args(&rt) {
        Ok(args) => args,
        Err(error) if error.kind() == io::ErrorKind::OutOfMemory => {
            return Ok(without_memory(&mut rt.stderr()));
        }
        // An argument is not UTF-8.
        Err(_) => {
            let ended = misused(usage_of(None), &mut rt.stderr());
            return Ok(ExitCode::from(ended.status));
        }
    };
    let Ok(given) = args.collect::<Vec<String>>(rt.alloc()) else {
        return Ok(without_memory(&mut rt.stderr()));
    };
    let Ok(words) = words_of(rt.alloc(), &given) else {
        return Ok(without_memory(&mut rt.stderr()));
    };
    let status = serve(&rt, &words, rt.stdin(), rt.stdout(), rt.stderr());
    Ok(ExitCode::from(status))
}

#[cfg(test)]
mod tests;
