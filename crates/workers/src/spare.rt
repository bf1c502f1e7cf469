//! Logs of groups that are done, for groups that are to run.

ghost use Rattle.std.specs.Prelude.{◌≡◌, IfOk};
ghost use Rattle.group_join.specs.Launches.{heap_log};

use group_join::HeapLog;
use std::alloc::{AllocError, Global};
use std::hint::spin_loop;
use std::sync::{Mutex, MutexGuard};

/// At most this many logs are kept: one for each worker that there may be.
const MOST: usize = 16;

/// How often the logs are asked for while other threads are at them.
const TRIES: u32 = 8;

/// Logs of groups of a launch that are done, for further groups of it: the memory of a new log is touched for the first
/// time, which takes long. No thread waits here for another, and no result depends on which log a group gets.
#[derive(Drop)]
pub(crate) struct SpareLogs {
    logs: Mutex<Vec<HeapLog>>,
}

impl SpareLogs {
    /// No logs yet. An error is out of memory.
    pub(crate) fn new(alloc: Global) -> Result<Self, AllocError> {
        let logs = Vec::with_capacity(alloc, MOST)?;
        Ok(SpareLogs {
            logs: Mutex::new(logs),
        })
    }

    /// The logs, unless other threads are at them each time.
    fn open(&self) -> Option<MutexGuard<'_, Vec<HeapLog>>> {
        for _ in 0..TRIES {
            if let Some(logs) = self.logs.try_lock() {
                return Some(logs);
            }
            spin_loop();
        }
        None
    }

    /// A log that has served groups, if one is there and no other thread is at them each time.
    fn taken(&self) -> Option<HeapLog> {
        self.open()?.pop()
    }

    /// A log of a launch that is uniform or not, which is to be cleared: one that has served groups, or a new one. An
    /// error is out of memory.
    pub(crate) fn take(&self, alloc: Global, uniform: bool) -> Result<HeapLog, AllocError>
        ensures { IfOk result (λ log. (heap_log log).uniform ≡ uniform) }
    {
        match self.taken() {
            Some(log) if log.is_uniform() == uniform => Ok(log),
            _ => HeapLog::new(alloc, uniform),
        }
    }

    /// Keeps the memory of a log for further groups, where there is room.
    pub(crate) fn give(&self, log: HeapLog) {
        if let Some(mut logs) = self.open() {
            if logs.len() < logs.capacity() {
                logs.push_reserved(log);
            }
        }
    }
}
