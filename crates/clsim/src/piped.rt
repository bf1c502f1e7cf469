//! A writer that notes whether the reader of its pipe is gone.
#![tactic(auto)]

use std::io;
use std::io::ErrorKind;

/// A writer whose writes are passed on. It notes whether one failed since the reader of the pipe is gone.
#[derive(Drop)]
pub(crate) struct Piped<W> {
    inner: W,
    gone: bool,
}

impl<W: io::Write> Piped<W> {
    /// The writer, of which no reader is gone so far.
    pub(crate) fn new(inner: W) -> Self {
        Piped { inner, gone: false }
    }

    /// Whether the reader of the pipe is gone.
    pub(crate) fn is_gone(&self) -> bool {
        self.gone
    }
}

impl<W: io::Write> io::Write for Piped<W> {
    fn write(&mut self, bytes: &[u8]) -> io::Result<usize> {
        let outcome = self.inner.write(bytes);
        if let Err(error) = &outcome {
            self.gone = error.kind() == ErrorKind::BrokenPipe;
        }
        outcome
    }

    fn flush(&mut self) -> io::Result<()> {
        self.inner.flush()
    }
}
