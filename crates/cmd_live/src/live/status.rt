//! The file `status` of a state directory: the status and the figures of the monitor's present state. While commands
//! come, it is written at most once a second. No file is touched but `status` and `status.new`.

ghost use Rattle.std.specs.Prelude.{◌≡◌, IfOk, codes, string_bytes};
ghost use Rattle.cmd_live.specs.Reading.{file_path};

use super::whole_file::write_whole;
use crate::segment_names::file_path;
use cmd_answer::put_figures;
use cmd_store::StoreFailed;
use mon_engine::Monitor;
use std::alloc::Global;
use std::fs;
use std::rt::Files;
use std::time::{Clock, Instant};

/// The writer of the file `status`. A new text is written to `status.new`, which is then renamed: so `status` is always
/// whole.
#[derive(Drop)]
pub struct StatusFile<'a, R: Files + Clock> {
    rt: &'a R,
    alloc: Global,
    path: String,
    beside: String,
    /// The text that was written last. Its memory is reused for each write.
    text: Vec<u8>,
    /// The time of the last write; `None` where no write succeeded or the system's clock could not be read.
    written: Option<Instant>,
}

impl<'a, R: Files + Clock> StatusFile<'a, R> {
    /// The writer of the file `status` in `directory`. Writes nothing. Fails if memory runs out.
    pub fn new(rt: &'a R, alloc: Global, directory: &str) -> Result<StatusFile<'a, R>, StoreFailed>
        ensures path { IfOk result (λ s. string_bytes s.path ≡ file_path directory.now (codes "status")) }
        ensures beside { IfOk result (λ s. string_bytes s.beside ≡ file_path directory.now (codes "status.new")) }
    {
        Ok(StatusFile {
            rt,
            alloc,
            path: file_path(alloc, directory, "status")?,
            beside: file_path(alloc, directory, "status.new")?,
            text: Vec::new(alloc),
            written: None,
        })
    }

    /// Whether the file was written within the last second; false where the system's clock cannot be read.
    ///
    /// Believed: it is the time since the last write (premise 9; state-segments).
    fn is_fresh(&self) -> bool {
        match &self.written {
            Some(written) => match written.elapsed(self.rt) {
                Ok(since) => since.as_secs() < 1,
                Err(_) => false,
            },
            None => false,
        }
    }

    /// Replaces the text of the file `status` by the status and the figures of the monitor. After an error the file
    /// `status` is unchanged. For a broken monitor the error is out of memory.
    ///
    /// Believed: a reader of the file finds a whole text (premises 2 and 6; status-console, state-segments).
    pub fn write(&mut self, monitor: &Monitor) -> Result<(), StoreFailed> {
        if monitor.is_broken() {
            return Err(StoreFailed::Memory);
        }
        self.text.clear();
        monitor.status(self.alloc, &mut self.text)?;
        put_figures(&mut self.text, Some(monitor.figures()))?;
        if write_whole(self.rt, &self.beside, &self.text).is_none()
            || fs::rename(self.rt, &self.beside, &self.path).is_err()
        {
            return Err(StoreFailed::Failed);
        }
        self.written = Instant::now(self.rt).ok();
        Ok(())
    }

    /// Calls [`write`](StatusFile::write), unless the file was written within the last second. Returns whether the file
    /// was written. After an error the file `status` is unchanged.
    ///
    /// Believed: as [`write`](StatusFile::write) and at most once a second (premise 9; state-segments).
    pub fn write_later(&mut self, monitor: &Monitor) -> Result<bool, StoreFailed> {
        if self.is_fresh() {
            return Ok(false);
        }
        self.write(monitor)?;
        Ok(true)
    }
}
