//! The error of a call that runs out of memory.

use std::alloc::AllocError;

/// Out of memory: the allocator refused an allocation.
pub type Memory = AllocError;
