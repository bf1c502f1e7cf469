//! The program's reader and writer over streams that are slow, that are interrupted, and that fail.

use byte_io::{Input, Output, Read, ReadFault, Write};
use std::alloc::Global;
use std::io;
use std::io::{BufWriter, Error, ErrorKind};

/// The nine bytes that are written and read.
const TEXT: &str = "clean\nok\n";

/// Moves one byte at each other call, is interrupted at the rest, and fails where no calls are left.
#[derive(Drop)]
struct Slow {
    bytes: Vec<u8>,
    calls: u32,
}

impl Slow {
    /// One call less.
    fn call(&mut self) -> io::Result<()> {
        if self.calls == 0 {
            return Err(Error::from(ErrorKind::Other));
        }
        self.calls -= 1;
        if self.calls % 2 == 1 {
            return Err(Error::from(ErrorKind::Interrupted));
        }
        Ok(())
    }
}

impl io::Write for Slow {
    fn write(&mut self, buffer: &[u8]) -> io::Result<usize> {
        self.call()?;
        let Some(byte) = buffer.first() else {
            return Ok(0);
        };
        self.bytes.push(*byte)?;
        Ok(1)
    }

    fn flush(&mut self) -> io::Result<()> {
        if self.calls == 0 {
            return Err(Error::from(ErrorKind::Other));
        }
        Ok(())
    }
}

impl io::Read for Slow {
    // It gives its last byte first.
    fn read(&mut self, buffer: &mut [u8]) -> io::Result<usize> {
        self.call()?;
        if buffer.is_empty() {
            return Ok(0);
        }
        let Some(byte) = self.bytes.pop() else {
            return Ok(0);
        };
        buffer[0] = byte;
        Ok(1)
    }
}

/// Whether the text is written in two pieces, and flushed.
fn writes(output: &mut Output<Slow>) -> bool {
    let (front, back) = TEXT.as_bytes().split_at(2);
    output.write(front).is_ok() && output.write(back).is_ok() && output.flush().is_ok()
}

/// Whether the text is written over a small buffer and a stream that takes so many calls, or its start if that fails.
fn is_written(alloc: Global, calls: u32) -> Option<bool> {
    let slow = Slow {
        bytes: Vec::new(alloc),
        calls,
    };
    let mut output = Output::new(BufWriter::with_capacity(alloc, 4, slow).ok()?);
    let is_whole = writes(&mut output);
    let slow = output.into_inner();
    Some(
        (is_whole == (calls > 18))
            & (slow.bytes.len() == TEXT.len().min((calls as usize + 1) / 2))
            & TEXT.as_bytes().starts_with(&slow.bytes),
    )
}

/// Shows that a text is written over a slow stream, or its beginning where the stream fails.
// Two calls a byte, and a flush: of each stream that fails at a call before, what it took has come out.
#[test]
fn writing(rt: HostRuntime) {
    let alloc = rt.alloc();
    for calls in 0..22u32 {
        assert!(rt; is_written(alloc, calls) == Some(true), "{calls}");
    }
}

/// Whether the text is read from a stream that takes so many calls, and the reader fails where the stream does.
fn is_read(alloc: Global, calls: u32) -> Option<bool> {
    let mut bytes = TEXT.as_bytes().to_vec(alloc).ok()?;
    bytes.reverse();
    match Input::new(Slow { bytes, calls }).read_all(alloc) {
        Ok(text) => Some((calls > 18) & (text.as_slice() == TEXT.as_bytes())),
        Err(ReadFault::Failed) => Some(calls <= 18),
        Err(ReadFault::OutOfMemory) => None,
    }
}

/// Shows that a text is read from a slow stream, and that the reader fails where the stream does.
// Two calls a byte, and those at the end of the text.
#[test]
fn reading(rt: HostRuntime) {
    let alloc = rt.alloc();
    for calls in 0..22u32 {
        assert!(rt; is_read(alloc, calls) == Some(true), "{calls}");
    }
}
