//! Launches that can't be run.

use byte_io::WriteFailed;
use host_commands::build::NotBuilt;
use std::alloc::AllocError;

/// A launch isn't run: its source doesn't build, its sizes are refused, or memory is.
#[derive(Clone, Copy, Debug)]
pub struct NotRun;

impl From<AllocError> for NotRun {
    fn from(_why: AllocError) -> Self {
        NotRun
    }
}

impl From<WriteFailed> for NotRun {
    fn from(_why: WriteFailed) -> Self {
        NotRun
    }
}

impl From<NotBuilt> for NotRun {
    fn from(_why: NotBuilt) -> Self {
        NotRun
    }
}
