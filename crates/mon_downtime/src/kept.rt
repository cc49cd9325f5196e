//! The index over the records, so that no call walks all records. The records alone decide its values, but for the
//! marks `all_over` of the links.
ghost use Rattle.std.specs.Prelude.{[]};
ghost use Rattle.mon_downtime.specs.Kept.{AreKept};

use crate::depths::Depths;
use crate::links::Link;
use crate::queue::Queue;
use crate::waiting::Waiting;
use std::alloc::Global;

/// An index over the records: the queue of events, the links from a record to those that it triggers, the depths of the
/// objects, and the downtimes that await problems.
#[derive(Drop)]
pub struct RecordIndex {
    pub queue: Queue,
    pub links: Vec<Link>,
    pub depths: Depths,
    pub waiting: Waiting,
}

impl RecordIndex {
    /// Makes the index over no records. Takes no memory.
    pub fn new(alloc: Global) -> RecordIndex
        ensures { AreKept [] result }
    {
        RecordIndex {
            queue: Queue::new(alloc),
            links: Vec::new(alloc),
            depths: Depths::new(alloc),
            waiting: Waiting::new(alloc),
        }
    }
}
