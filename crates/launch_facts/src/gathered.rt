//! A writer that keeps what is written.
#![tactic(auto)]

ghost use Rattle.std.specs.Prelude.{◌≡◌, [], Some};

use byte_io::{Write, WriteFailed};
use std::alloc::Global;

/// What was written, in memory. A call fails where memory is refused.
#[derive(Drop)]
pub struct Gathered {
    pub bytes: Vec<u8>,
    pub failed: u64,
}

impl Gathered {
    /// Nothing yet.
    pub fn new(alloc: Global) -> Self
        ensures bytes { result.bytes.items ≡ [] }
        ensures failed { result.failed ≡ 0 }
    {
        Gathered {
            bytes: Vec::new(alloc),
            failed: 0,
        }
    }
}

impl Write for Gathered {
    ghost use Rattle.byte_io.specs.Sink.{Sink};
    ghost use Rattle.std.specs.Prelude.{Some, []};

    ghost sink = { λ w. record { written = Some w.bytes.items; held = []; failed = w.failed } };

    fn write(&mut self, bytes: &[u8]) -> Result<(), WriteFailed> {
        if self.bytes.extend_from_slice(bytes).is_err() {
            self.failed = self.failed.saturating_add(1);
            return Err(WriteFailed);
        }
        Ok(())
    }

    fn flush(&mut self) -> Result<(), WriteFailed> {
        Ok(())
    }
}
