//! The line of a reply, kept in memory until it is told.
#![tactic(auto)]

ghost use Rattle.std.specs.Prelude.{◌≡◌, []};

use byte_io::{Write, WriteFailed};
use std::alloc::Global;

/// The bytes of a line. Their room stays from reply to reply.
#[derive(Drop)]
pub struct Answer {
    bytes: Vec<u8>,
    failed: u64,
}

impl Answer {
    /// No bytes.
    pub(crate) fn new(alloc: Global) -> Self
        ensures { result.bytes.items ≡ [] }
    {
        Answer {
            bytes: Vec::new(alloc),
            failed: 0,
        }
    }

    /// Takes the bytes away.
    pub(crate) fn clear(&mut self)
        ensures { self.new.bytes.items ≡ [] }
    {
        self.bytes.clear();
    }

    /// The bytes.
    pub(crate) fn as_slice(&self) -> &[u8]
        ensures { result.now ≡ self.now.bytes.items }
    {
        self.bytes.as_slice()
    }
}

impl Write for Answer {
    ghost use Rattle.std.specs.Prelude.{[], Some};
    ghost use Rattle.byte_io.specs.Sink.{Sink};

    ghost sink = { λ answer. record { written = Some answer.bytes.items; held = []; failed = answer.failed } };

    fn write(&mut self, bytes: &[u8]) -> Result<(), WriteFailed> {
        if self.bytes.extend_from_slice(bytes).is_err() {
            self.failed = self.failed.saturating_add(1);
            return Err(WriteFailed);
        }
        Ok(())
    }

    fn flush(&mut self) -> Result<(), WriteFailed> {
        Ok(())
    }
}
