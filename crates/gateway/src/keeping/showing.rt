//! The file `status` of a state directory, which shows the present state of a run. The file is written when the run
//! begins, at most once a second while commands come, and when the run ends. A change that the file lacks is shown with
//! the next command of the clock feed, which then comes within two seconds.
use crate::state_stops::status_stop;
use cmd_answer::Stop;
use cmd_dispatch::{Observer, RunCause};
use cmd_live::{Call, Run, Signal, StatusFile};
use cmd_store::{Store, StoreFailed};
use mon_engine::Monitor;
use std::rt::Files;
use std::sync::Wait;
use std::sync::atomic::{AtomicBool, Ordering};
use std::time::Clock;

/// The observer of a run that keeps what it takes. It writes the file `status`, and ends the feeds where the run fails.
#[derive(Drop)]
pub struct Watching<'a, 's, R: Files + Clock> {
    rt: &'a R,
    signal: &'a Signal<'a, R>,
    status: StatusFile<'a, R>,
    /// False once a write of the file `status` failed for another reason than out of memory.
    is_shown: &'s AtomicBool,
}

/// Replaces the file `status` in `directory` by one with the monitor's present state. After an error the file is
/// unchanged.
pub(crate) fn write_status<R: Files + Clock>(
    call: &Call<'_, R>,
    directory: &str,
    monitor: &Monitor,
) -> Result<(), Stop> {
    let mut status = StatusFile::new(call.rt, call.alloc, directory).map_err(status_stop)?;
    status.write(monitor).map_err(status_stop)
}

impl<'a, 's, R: Files + Clock> Watching<'a, 's, R> {
    /// Writes the file `status` as a run begins, and returns the observer of the run. `is_shown`, which is true, is
    /// unchanged here; the observer sets it to false where a later write fails. After an error the file is unchanged.
    pub(crate) fn begin(
        run: &'a Run<'a, R>,
        directory: &str,
        monitor: &Monitor,
        is_shown: &'s AtomicBool,
    ) -> Result<Watching<'a, 's, R>, Stop> {
        let Call { rt, alloc, .. } = *run.call;
        let Ok(status) = StatusFile::new(rt, alloc, directory) else {
            return Err(Stop::Memory);
        };
        write_status(run.call, directory, monitor)?;
        Ok(Watching {
            rt,
            signal: &run.signal,
            status,
            is_shown,
        })
    }
}

impl<R: Files + Clock + Wait> Observer for Watching<'_, '_, R> {
    ghost sees = { λ _ _. Unit {0} };

    ghost has_failed = { Unit {0} };

    /// Writes the file `status`. Where the file was written within the last second, records in `signal` that it is late
    /// instead, so that the clock feed makes its next command soon. Where the write failed for another reason than out of
    /// memory, sets `is_shown` to false.
    fn stored<S: Store>(&mut self, _store: &S, monitor: &Monitor) -> Result<(), StoreFailed> {
        match self.status.write_later(monitor) {
            Ok(true) => self.signal.is_status_late.clear(),
            Ok(false) => {
                self.signal.is_status_late.set();
            }
            Err(failed) => {
                if failed == StoreFailed::Failed {
                    self.is_shown.store(false, Ordering::SeqCst);
                }
                return Err(failed);
            }
        }
        Ok(())
    }

    /// Records in `signal` that the run has failed, so that its feeds end. The file `status` is unchanged.
    fn failed(&mut self, _cause: RunCause) {
        self.signal.fail(self.rt);
    }
}
