//! Texts that are gathered in memory.
#![tactic(auto)]

ghost use Rattle.std.specs.Prelude.{◌≡◌, IfOk};
ghost use Rattle.simfile.specs.Lines.{line};

use byte_io::Write;
use device::Reply;
use launch_facts::Gathered;
use simfile::replies::write_reply;
use std::alloc::{AllocError, Global};

/// The line of a reply. An error is out of memory.
pub(crate) fn reply_line(alloc: Global, reply: &Reply) -> Result<Vec<u8>, AllocError>
    ensures { IfOk result (λ bytes. bytes.items ≡ line reply.now) }
{
    let mut gathered = Gathered::new(alloc);
    if write_reply(reply, &mut gathered).is_err() {
        return Err(AllocError);
    }
    Ok(gathered.bytes)
}

/// The same as a text without its line feed. Bytes that are no UTF-8 are replaced, of which no name of a script has
/// any. An error is out of memory.
pub(crate) fn reply_words(alloc: Global, reply: &Reply) -> Result<String, AllocError> {
    let line = reply_line(alloc, reply)?;
    String::from_utf8_lossy(alloc, line.as_slice().trim_ascii_end())
}
