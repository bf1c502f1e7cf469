//! A peer over a reader and a writer.
#![tactic(auto)]

ghost use Rattle.std.specs.Prelude.{◌≡◌, []};

use crate::lines::read_line;
use crate::transcript::Transcript;
use crate::{Peer, ReadFault, Write, WriteFailed};
use std::io;
use std::io::ErrorKind;

/// A peer that is heard by a buffered reader of the standard library, and told by a writer whose failed calls are
/// counted.
#[derive(Drop)]
pub struct StreamPeer<R: io::BufRead + Drop, W: Write + Drop> {
    reader: R,
    failures: u64,
    writer: W,
    talk: Transcript,
}

impl<R: io::BufRead + Drop, W: Write + Drop> StreamPeer<R, W> {
    /// The peer, of which nothing was heard and to which nothing was told so far.
    pub fn new(reader: R, writer: W) -> Self
        ensures reader { result.reader ≡ reader }
        ensures writer { result.writer ≡ writer }
        ensures failures { result.failures ≡ 0 }
        ensures talk { result.talk.events ≡ [] }
    {
        StreamPeer {
            reader,
            failures: 0,
            writer,
            talk: Transcript::new(),
        }
    }
}

impl<R: io::BufRead + Drop, W: Write + Drop> Peer for StreamPeer<R, W> {
    ghost view = { λ peer. record { rest = R.remaining peer.reader; failures = peer.failures; sink = W.sink peer.writer; talk = peer.talk.events } };

    fn hear(&mut self, line: &mut Vec<u8>) -> Result<usize, ReadFault> {
        let start = line.len();
        let outcome = read_line(&mut self.reader, line);
        self.talk.heard(&line[start..]);
        match outcome {
            Ok(count) => Ok(count),
            Err(error) => {
                if error.kind() == ErrorKind::OutOfMemory {
                    return Err(ReadFault::OutOfMemory);
                }
                self.failures = self.failures.saturating_add(1);
                Err(ReadFault::Failed)
            }
        }
    }

    fn tell(&mut self, text: &[u8]) -> Result<(), WriteFailed> {
        self.writer.write(text)?;
        self.writer.flush()?;
        self.talk.told(text);
        Ok(())
    }
}
