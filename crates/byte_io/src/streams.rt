//! Readers and writers of the standard library, with their failed calls counted.
//!
//! `Input` and `Output` keep the promises of the traits `Read` and `Write` where the standard library promises the
//! bytes. A failure that is counted is answered. That none is counted where no call failed is only tested.
#![tactic(auto)]

ghost use Rattle.std.specs.Prelude.{◌≡◌, []};
ghost use Rattle.std.specs.Io.Buffered.{writer_inner};
ghost use Rattle.byte_io.specs.Sink.{Pushes};

use crate::{Read, ReadFault, Write, WriteFailed};
use std::alloc::Global;
use std::io;
use std::io::{BufWriter, ErrorKind, Write as _};

/// A writer of the standard library behind a buffer, whose failed calls are counted.
#[derive(Drop)]
pub struct Output<W: io::Write + Drop> {
    inner: BufWriter<W>,
    failed: u64,
}

impl<W: io::Write + Drop> Output<W> {
    /// The writer, of which no call failed so far.
    pub fn new(inner: BufWriter<W>) -> Self
        ensures { result ≡ record { inner = inner; failed = 0 } }
    {
        Output { inner, failed: 0 }
    }

    /// The writer behind the buffer. What the buffer still holds back is dropped.
    pub fn into_inner(self) -> W
        ensures { result ≡ writer_inner self.inner }
    {
        let Output { inner, failed: _ } = self;
        let (inner, _) = inner.into_parts();
        inner
    }
}

/// Writes all the bytes, in as many calls as it takes.
fn push_all<W: io::Write>(inner: &mut W, bytes: &[u8]) -> Result<(), WriteFailed>
    ensures { Pushes (W.contents inner.old) result (W.contents inner.new) bytes.now }
{
    let mut rest = bytes;
    for _ in 0..u64::MAX {
        if rest.is_empty() {
            return Ok(());
        }
        match inner.write(rest) {
            Ok(0) => return Err(WriteFailed),
            Ok(count) => rest = &rest[count..],
            Err(error) => {
                if error.kind() != ErrorKind::Interrupted {
                    return Err(WriteFailed);
                }
            }
        }
    }
    Err(WriteFailed)
}

impl<W: io::Write + Drop> Write for Output<W> {
    ghost use Rattle.byte_io.specs.Sink.{Sink};
    ghost use Rattle.std.specs.Io.Buffered.{writer_contents, writer_buffer};

    ghost sink = { λ w. record { written = writer_contents W.contents w.inner; held = writer_buffer w.inner; failed = w.failed } };

    fn write(&mut self, bytes: &[u8]) -> Result<(), WriteFailed> {
        let pushed = push_all(&mut self.inner, bytes);
        if pushed.is_err() {
            self.failed = self.failed.saturating_add(1);
        }
        pushed
    }

    fn flush(&mut self) -> Result<(), WriteFailed> {
        if self.inner.flush().is_err() {
            self.failed = self.failed.saturating_add(1);
            return Err(WriteFailed);
        }
        Ok(())
    }
}

/// The room that a text begins with. The C library hands memory back to the system as soon as 128 KiB lie free at the
/// end of the heap, and takes it again page by page; once a block as large as this one has been given back, it keeps
/// twice as much. So what one group of a launch frees serves the next. The room behind the text is never touched, and
/// takes no memory; 32 MiB is the largest block that counts.
const TEXT_ROOM: usize = 31 * 1_048_576;

/// An empty text, with that room if it can be had.
fn empty_text(alloc: Global) -> Vec<u8>
    ensures { result.items ≡ [] }
{
    match Vec::with_capacity(alloc, TEXT_ROOM) {
        Ok(text) => text,
        Err(_) => Vec::new(alloc),
    }
}

/// A reader of the standard library.
#[derive(Drop)]
pub struct Input<R: io::Read> {
    inner: R,
    failures: u64,
}

impl<R: io::Read> Input<R> {
    /// The reader, of which no call failed so far.
    pub fn new(inner: R) -> Self
        ensures { result ≡ record { inner = inner; failures = 0 } }
    {
        Input { inner, failures: 0 }
    }
}

impl<R: io::Read> Read for Input<R> {
    ghost rest = { λ r. R.remaining r.inner };

    ghost failures = { λ r. r.failures };

    fn read_all(&mut self, alloc: Global) -> Result<Vec<u8>, ReadFault> {
        let mut bytes = empty_text(alloc);
        match self.inner.read_to_end(&mut bytes) {
            Ok(_) => Ok(bytes),
            Err(error) => {
                if error.kind() == ErrorKind::OutOfMemory {
                    return Err(ReadFault::OutOfMemory);
                }
                self.failures = self.failures.saturating_add(1);
                Err(ReadFault::Failed)
            }
        }
    }
}
