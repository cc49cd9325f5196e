//! The operating system as a run that follows feeds uses it.
use super::error_streams::ErrorStreams;
use super::locks::Locks;
use std::rt::Files;
use std::sync::Wait;
use std::thread::Threads;
use std::time::Clock;

/// The parts of the runtime that the thread of a feed uses: files, a clock, writers on the error stream, and waiting.
pub trait FeedSystem: Files + Clock + ErrorStreams + Wait {}

impl<R: Files + Clock + ErrorStreams + Wait> FeedSystem for R {}

/// The parts of the runtime that a run uses: those that its feeds use, locks on files, and threads.
pub trait System: FeedSystem + Locks + Threads {}

impl<R: FeedSystem + Locks + Threads> System for R {}
