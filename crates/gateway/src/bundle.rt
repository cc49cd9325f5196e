//! The mode that runs the feeds of a bundle: the bundle is read, its feeds are run, and the text for the run is made.
//! Nothing is printed here.
ghost use Rattle.std.specs.Prelude.{◌≡◌, IfOk, IfErr, map};
ghost use Rattle.gateway.specs.Answers.{Answers};
ghost use Rattle.cmd_answer.specs.declared.stop.FilesStop.TheVariants.{Other};
ghost use Rattle.cmd_answer.specs.Stops.{StopsBundle};

use crate::feeds::answer_feeds;
use cmd_answer::{Stop, bundle_in};
use cmd_dispatch::Bytes;
use cmd_options::{MOST_READS, Options};
use cmd_types::Memory;
use std::alloc::Global;
use std::sync::Wait;
use std::thread::Threads;

/// Makes a reader over each feed, in order. Fails if memory runs out.
fn readers_of<'a>(alloc: Global, feeds: &[&'a [u8]]) -> Result<Vec<Bytes<'a>>, Memory>
    ensures { IfOk result (λ v. map (λ b. b.rest.now) v.items ≡ map (λ f. f.now) feeds.now) }
{
    let mut readers = Vec::new(alloc);
    for feed in feeds {
        readers.push(Bytes::new(feed))?;
    }
    Ok(readers)
}

/// Reads a bundle and runs its feeds. Returns the text for the run, and the exit status: 0 or 1, or 3 with a fault line
/// instead of the report. Requires that the options have [`MOST_READS`] reads. Fails as [`bundle_in`] does, or if
/// memory runs out outside the run. Prints nothing.
pub fn answer<R: Threads + Wait + Sync>(
    rt: &R,
    alloc: Global,
    options: Options,
    input: &[u8],
) -> Result<(Vec<u8>, u8), Stop>
    requires { options.run.reads ≡ MOST_READS }
    ensures answers { IfOk result (λ x. Answers options input.now x.0.items x.1) }
    ensures stops { IfErr result (λ s. StopsBundle input.now (Other s)) }
{
    let (inventory, feeds) = bundle_in(alloc, input)?;
    let readers = readers_of(alloc, &feeds)?;
    Ok(answer_feeds(rt, alloc, inventory, readers, options)?)
}
