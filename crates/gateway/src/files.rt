//! The mode that runs feeds in files: the files are opened, the feeds are run, and the text for the run is made. Files
//! are only read; nothing is printed here.
ghost use Rattle.std.specs.Prelude.{◌≡◌, IfOk, IfErr, length, map};
ghost use Rattle.gateway.specs.Answers.{AnswersFiles};
ghost use Rattle.cmd_answer.specs.Stops.{StopsFiles};

use crate::feeds::answer_feeds;
use cmd_answer::{FilesStop, Stop, open_files};
use cmd_dispatch::Outside;
use cmd_live::System;
use cmd_options::FilesCall;
use cmd_types::Memory;
use std::alloc::Global;
use std::io::Read;
use std::marker::Send;

/// Makes a reader over each file, in order. Fails if memory runs out.
fn readers_of<F: Read + Send + Drop>(
    alloc: Global,
    files: Vec<F>,
) -> Result<Vec<Outside<F>>, Memory>
    ensures { IfOk result (λ v. map (λ o. o.reader) v.items ≡ files.items) }
{
    let mut readers = Vec::with_capacity(alloc, files.len())?;
    for file in files {
        readers.push_reserved(Outside::new(file));
    }
    Ok(readers)
}

/// Reads an inventory in a file and runs feeds in files. Returns the text for the run, and the exit status: 0 or 1, or
/// 3 with a fault line instead of the report. Checks the number of feeds before it opens a file, and opens all feeds
/// before the run starts (profile). Fails as [`open_files`] does, or if memory runs out outside the run. Prints
/// nothing.
pub fn answer_files<'a, R: System + Sync>(
    rt: &R,
    alloc: Global,
    call: &FilesCall<'a>,
) -> Result<(Vec<u8>, u8), FilesStop<'a>>
where
    R::File: Send,
    ensures answers { IfOk result (λ x. AnswersFiles R.File.remaining call.now.options (length call.now.feeds.items) x.0.items x.1) }
    ensures stops { IfErr result (StopsFiles R.File.remaining call.now) }
{
    let (inventory, files) = open_files(rt, alloc, call)?;
    let Ok(readers) = readers_of(alloc, files) else {
        return Err(FilesStop::Other(Stop::Memory));
    };
    let Ok(answered) = answer_feeds(rt, alloc, inventory, readers, call.options) else {
        return Err(FilesStop::Other(Stop::Memory));
    };
    Ok(answered)
}
