//! Files explained: a script is read, with a schedule file where one is named, and the explanation is written.
//!
//! What is explained, which answer is given, and what is written, `explaining` defines, and `wide_faults` what is
//! written behind it of other bytes and numbers. A reader's failure is told apart from its faults.
#![tactic(auto)]

ghost use Rattle.std.specs.Prelude.{◌≡◌, IfOk, IfErr};
ghost use Rattle.std.specs.Option.{option_map};
ghost use Rattle.wide_faults.specs.Faults.{IsFaultAsides};
ghost use Rattle.clsim.specs.Files.{IsGiven, Answered, Unanswered, ScriptTold, ScriptUntold, FileTold, FileUntold};
ghost use Rattle.clsim.specs.Wide.{WidelyAnswered, WidelyUnanswered, WidelyTold, WidelyUntold};

use crate::own_lines::Written;
use crate::passing::put_all;
use byte_io::{Read, Write};
use cli::reading::bytes_of;
use explaining::{ExplainOptions, Given, explain};
use placed_scripts::PlacedScript;
use simfile::faults::{Reader, RunFault};
use std::alloc::Global;
use wide_faults::fault_asides;

/// The texts that are explained: the script's name, its bytes, those of a schedule file, if one is named, and the text
/// as which a user wrote the script, if it is another one.
#[derive(Drop)]
struct Texts<'a> {
    name: Vec<u8>,
    script: Vec<u8>,
    schedule: Option<Vec<u8>>,
    written: Option<PlacedScript<'a>>,
}

impl Texts<'_> {
    /// The bytes of the schedule file, if one is named.
    fn schedule(&self) -> Option<&[u8]>
        ensures { option_map (λ bytes. bytes.now) result ≡ option_map (λ bytes. bytes.items) self.now.schedule }
    {
        match &self.schedule {
            Some(bytes) => Some(bytes.as_slice()),
            None => None,
        }
    }

    /// The texts, lent to an explanation.
    fn given(&self) -> Given<'_>
        ensures is { IsGiven result self.now.name.items self.now.script.items (option_map (λ bytes. bytes.items) self.now.schedule) }
        ensures by { result.written ≡ self.now.written }
    {
        let schedule = self.schedule();
        Given {
            name: self.name.as_slice(),
            script: self.script.as_slice(),
            schedule,
            written: self.written,
        }
    }
}

/// Explains texts.
fn explain_texts<W: Write>(
    alloc: Global,
    texts: &Texts<'_>,
    options: ExplainOptions,
    writer: &mut W,
) -> Result<bool, RunFault>
    ensures told { IfOk result (Answered options texts.now.name.items texts.now.script.items (option_map (λ bytes. bytes.items) texts.now.schedule) texts.now.written (W.sink writer.old) (W.sink writer.new)) }
    ensures untold { IfErr result (Unanswered options.configuration texts.now.name.items texts.now.script.items (option_map (λ bytes. bytes.items) texts.now.schedule) (W.sink writer.old) (W.sink writer.new)) }
{
    explain(alloc, texts.given(), options, writer)
}

/// Reads a script and explains its first fault, or its first command that is refused, or all of them; a source, which
/// is a file whose name ends in `.cl`, is built alone. Writes the explanation and answers true, or the word `clean`,
/// `ordered` or `ok` and answers false. The lines that are told are the script's own.
///
/// Faults are `Read(First)`, `BadLine`, `OutOfMemory`, and `Write`, after which a beginning of the text was written;
/// after the others nothing was.
pub(crate) fn explain_script<R: Read + Written, W: Write>(
    alloc: Global,
    name: &str,
    reader: &mut R,
    options: ExplainOptions,
    writer: &mut W,
) -> Result<bool, RunFault>
    ensures told { IfOk result (ScriptTold options name.now (R.rest reader.old) (R.lines reader.new) (W.sink writer.old) (W.sink writer.new)) }
    ensures untold { IfErr result
        (ScriptUntold options.configuration name.now (R.rest reader.old) (R.failures reader.old) (R.failures reader.new) (W.sink writer.old) (W.sink writer.new)) }
{
    let script = bytes_of(alloc, reader, Reader::First)?;
    let name = name.as_bytes().to_vec(alloc)?;
    let texts = Texts {
        name,
        script,
        schedule: None,
        written: reader.written(),
    };
    explain_texts(alloc, &texts, options, writer)
}

/// Explains texts, and writes lines behind the explanation.
fn explain_with<W: Write>(
    alloc: Global,
    texts: &Texts<'_>,
    options: ExplainOptions,
    asides: &[u8],
    writer: &mut W,
) -> Result<bool, RunFault>
    ensures told { IfOk result (WidelyAnswered options texts.now.name.items texts.now.script.items (option_map (λ bytes. bytes.items) texts.now.schedule) texts.now.written asides.now (W.sink writer.old) (W.sink writer.new)) }
    ensures untold { IfErr result
        (WidelyUnanswered options texts.now.name.items texts.now.script.items (option_map (λ bytes. bytes.items) texts.now.schedule) texts.now.written asides.now (W.sink writer.old) (W.sink writer.new)) }
{
    let answer = explain_texts(alloc, texts, options, writer)?;
    put_all(asides, writer)?;
    Ok(answer)
}

/// Reads a script and explains its first fault, or all of them, as `explain_script` does, and writes behind the
/// explanation of each fault whether it is in the kernel or in the data. These lines are made first: where that fails,
/// nothing is written.
///
/// Faults are those of `explain_script`.
pub(crate) fn explain_widely<R: Read + Written, W: Write>(
    alloc: Global,
    name: &str,
    reader: &mut R,
    options: ExplainOptions,
    writer: &mut W,
) -> Result<bool, RunFault>
    ensures told { IfOk result (WidelyTold options name.now (R.rest reader.old) (R.lines reader.new) (W.sink writer.old) (W.sink writer.new)) }
    ensures untold { IfErr result
        (WidelyUntold options name.now (R.rest reader.old) (R.lines reader.new) (R.failures reader.old) (R.failures reader.new) (W.sink writer.old) (W.sink writer.new)) }
{
    let script = bytes_of(alloc, reader, Reader::First)?;
    let written = reader.written();
    let asides = fault_asides(
        alloc,
        options.configuration,
        script.as_slice(),
        written,
        options.all,
    )?;
    let name = name.as_bytes().to_vec(alloc)?;
    let schedule = None;
    let texts = Texts {
        name,
        script,
        schedule,
        written,
    };
    explain_with(alloc, &texts, options, asides.as_slice(), writer)
}

/// Reads a script and a schedule file, and explains the fault of that file. Writes the explanation and answers true, or
/// the word `no` and answers false where the schedule doesn't lead to the fault.
///
/// No fault is a `NoSuchKernel`; after `Write` a beginning of the text was written, after the others nothing.
pub(crate) fn explain_schedule<R: Read + Written, S: Read, W: Write>(
    alloc: Global,
    name: &str,
    reader: &mut R,
    file: &mut S,
    options: ExplainOptions,
    writer: &mut W,
) -> Result<bool, RunFault>
    ensures told { IfOk result (FileTold options name.now (R.rest reader.old) (S.rest file.old) (R.lines reader.new) (W.sink writer.old) (W.sink writer.new)) }
    ensures untold { IfErr result
        (FileUntold options.configuration name.now (R.rest reader.old) (S.rest file.old) (R.failures reader.old) (R.failures reader.new) (S.failures file.old) (S.failures file.new)
        (W.sink writer.old) (W.sink writer.new)) }
{
    let script = bytes_of(alloc, reader, Reader::First)?;
    let schedule = bytes_of(alloc, file, Reader::Second)?;
    let name = name.as_bytes().to_vec(alloc)?;
    let texts = Texts {
        name,
        script,
        schedule: Some(schedule),
        written: reader.written(),
    };
    explain_texts(alloc, &texts, options, writer)
}
