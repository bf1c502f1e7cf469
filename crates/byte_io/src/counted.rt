//! Readers and writers, seen as the bytes that they give and take and as counts of their failed calls.
//!
//! `Write` takes a whole text, or a call failed: then the failure is counted, and a beginning of the text was written.
//! `Read` gives all that is left, or counts a failure. `write_pieces` writes the parts of a line one after another,
//! numbers in decimal. The crate knows neither files nor the standard library's traits.
#![tactic(auto)]

ghost use Rattle.std.specs.Prelude.{◌≡◌, ℕ, List, [], Option, OnOk};
ghost use Rattle.byte_io.specs.Sink.{Sink, Puts};
ghost use Rattle.byte_io.specs.Source.{ReadsAll};

use std::alloc::Global;

/// A writer failed.
#[derive(Clone, Copy, Debug, PartialEq, Eq)]
pub struct WriteFailed;

/// Why the rest of a reader was not read.
#[derive(Clone, Copy, Debug, PartialEq, Eq)]
pub enum ReadFault {
    /// The reader failed
    Failed,
    OutOfMemory,
}

/// A writer whose failed calls are counted.
pub trait Write {
    // The bytes that were written, where they are known, those of them that are held back, and the count of failed
    // calls.
    ghost sink: { Self → Sink };

    /// Writes the bytes. Where it fails a beginning of them may be written.
    fn write(&mut self, bytes: &[u8]) -> Result<(), WriteFailed>
        ensures { Puts (sink self.old) result (sink self.new) bytes.now };

    /// Lets go of what is held back. Where it fails some of it may still be held back.
    fn flush(&mut self) -> Result<(), WriteFailed>
        ensures bytes { Puts (sink self.old) result (sink self.new) [] }
        ensures released { OnOk result ((sink self.new).held ≡ []) };
}

/// A reader whose failed calls are counted.
pub trait Read {
    // The bytes that it has left, where they are known.
    ghost rest: { Self → Option (List ℕ) };

    ghost failures: { Self → ℕ };

    /// All that is left.
    fn read_all(&mut self, alloc: Global) -> Result<Vec<u8>, ReadFault>
        ensures { ReadsAll (λ bytes. bytes.items) (rest self.old) (failures self.old) result (failures self.new) };
}
