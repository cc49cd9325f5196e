//! The plan of a queue: what each of its senders may send. It is for the proofs alone: no value of it is made.
ghost use Rattle.cmd_queue.specs.Plans.{Plan};

use std::marker::Brand;

/// A plan: of each sender, by its number, all commands that it may ever send, where they are known. It is chosen where
/// [`planned_queue`](crate::planned_queue) makes a queue (profile).
///
/// See the example of [`planned_queue`].
pub trait Planning {
    ghost plan: { Plan };
}

/// The plan that knows the commands of no sender.
impl Planning for Brand {
    ghost use Rattle.std.specs.Prelude.{[]};

    ghost plan = { [] };
}
