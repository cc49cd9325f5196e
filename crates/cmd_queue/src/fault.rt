//! The faults for which no queue is made, with their numbers.
ghost use Rattle.std.specs.Prelude.{◌≡◌};
ghost use Rattle.cmd_queue.specs.Queue.{fault_number};

/// Why no queue was made: the first fault that holds, in this order (profile).
///
/// ```
/// let made = queue(&rt, alloc, 65, 4);
/// assert!(rt; made.is_err_and(|fault| fault == QueueFault::BadSenders));
/// assert_eq!(rt; QueueFault::BadSenders.number(), 2);
/// ```
#[derive(Clone, Copy, Debug, PartialEq, Eq)]
pub enum QueueFault {
    /// The capacity is not 1 to [`MOST_CAPACITY`](crate::MOST_CAPACITY).
    BadCapacity,
    /// The number of senders is not 1 to [`MOST_SENDERS`](cmd_types::MOST_SENDERS).
    BadSenders,
    /// Memory ran out.
    Memory,
}

impl QueueFault {
    /// The number of the fault: 1 to 3, in the order of the tests.
    pub fn number(self) -> u8
        ensures { result ≡ fault_number self }
    {
        match self {
            QueueFault::BadCapacity => 1,
            QueueFault::BadSenders => 2,
            QueueFault::Memory => 3,
        }
    }
}
