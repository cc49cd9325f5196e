//! The mode `told`: it prints the told lines of a state directory after a place, each after its key.
ghost use Rattle.gateway.specs.Modes.{ServesTold};

use cmd_answer::{Ended, FilesStop, stopped};
use cmd_live::{System, print_told};
use cmd_options::ToldCall;
use std::alloc::Global;
use std::io::Write;

/// Prints the told lines of a state directory after a place, each after its key `N.L;`, over all existing segments in
/// order; with `follow` continues as lines are printed, into the next segment too. Appends the line of a stop to the
/// error stream. Returns the end of the call.
pub fn serve_told<R: System, O: Write, E: Write>(
    rt: &R,
    alloc: Global,
    call: ToldCall<'_>,
    output: &mut O,
    errors: &mut E,
) -> Ended
    ensures { ServesTold result (E.contents errors.old) (E.contents errors.new) }
{
    match print_told(rt, alloc, call, output) {
        Ok(()) => Ended {
            status: 0,
            printed: true,
        },
        Err(stop) => stopped(FilesStop::Other(stop), errors),
    }
}
