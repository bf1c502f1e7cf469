//! A text passed from a reader to a writer: what `clsim plain` does with a script that is read as a plain text.
#![tactic(auto)]

ghost use Rattle.std.specs.Prelude.{◌≡◌, [], OnOk, IfErr};
ghost use Rattle.byte_io.specs.Sink.{Puts};
ghost use Rattle.clsim.specs.Plain.{Passed, Unpassed};

use byte_io::{Read, Write, WriteFailed};
use cli::reading::bytes_of;
use simfile::faults::{Reader, RunFault};
use std::alloc::Global;

/// Writes a text, and holds none of it back.
pub(crate) fn put_all<W: Write>(text: &[u8], writer: &mut W) -> Result<(), WriteFailed>
    ensures whole { Puts (W.sink writer.old) result (W.sink writer.new) text.now }
    ensures released { OnOk result ((W.sink writer.new).held ≡ []) }
{
    writer.write(text)?;
    writer.flush()
}

/// Reads a text and writes it whole. Faults are `Read(First)` and `OutOfMemory`, where nothing was written, and
/// `Write`, after which a beginning of the text was.
pub(crate) fn pass<R: Read, W: Write>(
    alloc: Global,
    reader: &mut R,
    writer: &mut W,
) -> Result<(), RunFault>
    ensures passed { OnOk result (Passed (R.rest reader.old) (W.sink writer.old) (W.sink writer.new)) }
    ensures failed { IfErr result
        (Unpassed (R.rest reader.old) (R.failures reader.old) (R.failures reader.new) (W.sink writer.old) (W.sink writer.new)) }
{
    let text = bytes_of(alloc, reader, Reader::First)?;
    Ok(put_all(text.as_slice(), writer)?)
}
