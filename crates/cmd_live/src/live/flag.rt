//! A fact that one thread records and other threads read.
use std::sync::atomic::{AtomicBool, Ordering};

/// Whether a fact is recorded. Every change is atomic.
#[derive(Drop)]
pub struct Flag {
    value: AtomicBool,
}

impl Flag {
    /// The flag of a fact that is not recorded.
    ///
    /// Believed: [`is_set`](Flag::is_set) returns false until [`set`](Flag::set) is called (premise 11; follow-file).
    pub fn new() -> Flag {
        Flag {
            value: AtomicBool::new(false),
        }
    }

    /// Records the fact, and returns whether it was recorded before.
    ///
    /// Believed: [`is_set`](Flag::is_set) returns true from then on in all threads (premise 11; follow-full, rotation).
    pub fn set(&self) -> bool {
        self.value.swap(true, Ordering::SeqCst)
    }

    /// Records the fact where `is_set` is true, else that it is over.
    ///
    /// Believed: as [`set`](Flag::set) and [`clear`](Flag::clear) (absent-feed, ahead-rotation).
    pub fn store(&self, is_set: bool) {
        self.value.store(is_set, Ordering::SeqCst);
    }

    /// Records that the fact is over.
    ///
    /// Believed: [`is_set`](Flag::is_set) returns false from then on (premise 11; rotation).
    pub fn clear(&self) {
        self.value.store(false, Ordering::SeqCst);
    }

    /// Whether the fact is recorded.
    ///
    /// Believed: as [`set`](Flag::set) and [`clear`](Flag::clear) (follow-full, rotation).
    pub fn is_set(&self) -> bool {
        self.value.load(Ordering::SeqCst)
    }
}
