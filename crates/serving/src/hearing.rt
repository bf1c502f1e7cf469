//! The lines of a command's text, heard one by one.
#![tactic(auto)]

ghost use Rattle.std.specs.Prelude.{◌≡◌, IfOk, IfErr};
ghost use Rattle.std.specs.Io.BufRead.{ends_with_byte};
ghost use Rattle.serving.specs.Hearing.{HeardLine, HeardSource, NotHeard, NotHeardSource};

use byte_io::Peer;
use simfile::faults::{Reader, RunFault, read_fault};

/// Whether bytes end with a line feed.
fn ends_line(bytes: &[u8]) -> bool
    ensures { result ≡ ends_with_byte 10 bytes.now }
{
    !bytes.is_empty() && bytes[bytes.len() - 1] == b'\n'
}

/// Hears a line and adds it to the text. Answers whether it has its line feed; without one the input has ended.
pub(crate) fn hear_line<P: Peer>(peer: &mut P, text: &mut Vec<u8>) -> Result<bool, RunFault>
    ensures heard { IfOk result (HeardLine (P.view peer.old) (P.view peer.new) text.old.items text.new.items) }
    ensures failed { IfErr result (NotHeard (P.view peer.old) (P.view peer.new)) }
{
    let count = match peer.hear(text) {
        Ok(count) => count,
        Err(fault) => return Err(read_fault(Reader::First, fault)),
    };
    if count == 0 {
        return Ok(false);
    }
    Ok(ends_line(text.as_slice()))
}

/// Hears the lines of a source and adds them to the text. Answers whether all of them came.
pub(crate) fn hear_source<P: Peer>(
    peer: &mut P,
    count: u64,
    text: &mut Vec<u8>,
) -> Result<bool, RunFault>
    ensures heard { IfOk result (HeardSource (P.view peer.old) (P.view peer.new) count text.old.items text.new.items) }
    ensures failed { IfErr result (NotHeardSource (P.view peer.old) (P.view peer.new)) }
{
    for _ in 0..count {
        if !hear_line(peer, text)? {
            return Ok(false);
        }
    }
    Ok(true)
}
