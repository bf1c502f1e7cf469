//! A script, for which bytes and numbers its replies hold.
#![tactic(auto)]

ghost use Rattle.std.specs.Prelude.{◌≡◌, ◌++◌, [], ◌∷◌, List, ℕ, IfOk, IfErr, OnOk};
ghost use Rattle.std.specs.List.{list_any};
ghost use Rattle.byte_io.specs.Sink.{Puts, Wrote};
ghost use Rattle.serde_json.specs.Written.{compact_text};
ghost use Rattle.simfile.specs.Faults.{NoScript};
ghost use Rattle.wide_sources.specs.Replies.{is_fault, is_refused};
ghost use Rattle.wide_text.specs.Members.{report_data};
ghost use Rattle.wide_text.specs.Told.{lines_of};
ghost use Rattle.wide_text.specs.Widened.{IsReport, IsTold, IsWidened, Unwidened, end_of, is_clean, is_ordered, status_of};

use crate::data::{Format, WideEnd, WideReport};
use crate::json::json_of;
use crate::lines::lines_of;
use crate::text::text_of;
use crate::told_launches::{Performed, launches_of};
use byte_io::{Write, WriteFailed};
use device::{Configuration, Reply};
use placed_scripts::{PlacedScript, told_script};
use simfile::copies::copies_of;
use simfile::faults::RunFault;
use simfile::script::{Script, read_script};
use std::alloc::{AllocError, Global};
use wide_scripts::widen_script;
use wide_sources::{is_fault, is_refused};

/// Whether a reply is that of a launch that was ordered.
fn is_ordered(reply: &Reply) -> bool
    ensures { result ≡ is_ordered reply.now }
{
    matches!(reply, Reply::Ordered)
}

/// Whether one of these replies is a fault.
fn has_fault(replies: &[Reply]) -> bool
    ensures { result ≡ list_any is_fault replies.now }
{
    replies.iter().any(|reply| is_fault(reply))
}

/// Whether one of these replies is a refusal.
fn has_refusal(replies: &[Reply]) -> bool
    ensures { result ≡ list_any is_refused replies.now }
{
    replies.iter().any(|reply| is_refused(reply))
}

/// Whether one of these replies is that of a launch that was ordered.
fn has_ordered(replies: &[Reply]) -> bool
    ensures { result ≡ list_any is_ordered replies.now }
{
    replies.iter().any(|reply| is_ordered(reply))
}

/// What replies come to.
fn end_of(replies: &[Reply]) -> WideEnd
    ensures { result ≡ end_of replies.now }
{
    WideEnd {
        faulted: has_fault(replies),
        refused: has_refusal(replies),
        ordered: has_ordered(replies),
    }
}

/// Whether no launch faulted or was ordered, and no command was refused.
fn is_clean(end: WideEnd) -> bool
    ensures { result ≡ is_clean end }
{
    !(end.faulted || end.refused || end.ordered)
}

/// What is told of a script that was performed. An error is out of memory.
fn report_of(
    alloc: Global,
    configuration: Configuration,
    performed: Performed<'_>,
    end: WideEnd,
) -> Result<WideReport, AllocError>
    ensures { IfOk result (IsReport (is_clean end) (lines_of performed.entry.wide.now.free.items performed.entry.told.places.now) (lines_of performed.entry.wide.now.reads.items performed.entry.told.places.now)) }
{
    let launches = launches_of(alloc, configuration.limits, performed)?;
    let free = lines_of(alloc, performed.wide.free.as_slice(), performed.told.places)?;
    let reads = lines_of(
        alloc,
        performed.wide.reads.as_slice(),
        performed.told.places,
    )?;
    Ok(WideReport {
        launches,
        clean: is_clean(end),
        free,
        reads,
    })
}

/// The line of JSON of it, as bytes. An error is out of memory.
fn json_bytes(alloc: Global, report: &WideReport) -> Result<Vec<u8>, AllocError>
    ensures { IfOk result (λ text. text.items ≡ compact_text (report_data report.now) ++ 10 ∷ []) }
{
    let text = json_of(alloc, report)?;
    text.as_bytes().to_vec(alloc)
}

/// The text of it in a format. An error is out of memory.
fn written(
    alloc: Global,
    format: Format,
    replies: &[Reply],
    report: &WideReport,
) -> Result<Vec<u8>, AllocError>
    ensures { IfOk result (λ text. IsTold format replies.now report.now.clean report.now.free.items report.now.reads.items text.items) }
{
    match format {
        Format::Text => text_of(alloc, replies, report),
        Format::Json => json_bytes(alloc, report),
    }
}

/// A text, and what the replies of its script come to.
#[derive(Drop)]
struct Told {
    text: Vec<u8>,
    end: WideEnd,
}

/// Performs a script, with the text of what is told of it in a format, and by the lines of the text that is given.
fn tell_of(
    alloc: Global,
    configuration: Configuration,
    script: &[u8],
    own: Option<PlacedScript<'_>>,
    format: Format,
) -> Result<Told, RunFault>
    ensures told { IfOk result (λ told. IsWidened configuration script.now own.entry format told.end told.text.items) }
    ensures failed { IfErr result (NoScript script.now) }
{
    let Script { commands, places } = read_script(alloc, script)?;
    let by = told_script(script, places.as_slice(), own);
    let same = copies_of(alloc, commands.as_slice())?;
    let wide = widen_script(alloc, configuration, same)?;
    let end = end_of(wide.replies.as_slice());
    let performed = Performed {
        commands: commands.as_slice(),
        told: by,
        wide: &wide,
    };
    let report = report_of(alloc, configuration, performed, end)?;
    let text = written(alloc, format, wide.replies.as_slice(), &report)?;
    Ok(Told { text, end })
}

/// Writes a text, and lets go of what is held back.
fn tell<W: Write>(text: &[u8], writer: &mut W) -> Result<(), WriteFailed>
    ensures text { Puts (W.sink writer.old) result (W.sink writer.new) text.now }
    ensures released { OnOk result ((W.sink writer.new).held ≡ []) }
{
    writer.write(text)?;
    writer.flush()
}

/// Performs a script on a device of this configuration, and writes its replies, for which bytes and numbers each
/// launch's holds, and for all bytes of which writes and fills all of them hold, in a format. The lines that are told
/// are those of the text that a user wrote, where one is given with a place for each command, and else those of the
/// script. Nothing is written where the bytes are no script, or memory is refused. It takes the time of the script's
/// run and of `widen_script`, and that of a build for each program that a launch runs.
pub fn widen<W: Write>(
    alloc: Global,
    configuration: Configuration,
    script: &[u8],
    written: Option<PlacedScript<'_>>,
    format: Format,
    writer: &mut W,
) -> Result<WideEnd, RunFault>
    ensures ok { IfOk result (λ end. (text : List ℕ) × IsWidened configuration script.now written.entry format end text × Wrote (W.sink writer.old) (W.sink writer.new) text × ((W.sink writer.new).held ≡ [])) }
    ensures failed { IfErr result (Unwidened configuration script.now written.entry format (W.sink writer.old) (W.sink writer.new)) }
{
    let Told { text, end } = tell_of(alloc, configuration, script, written, format)?;
    tell(text.as_slice(), writer)?;
    Ok(end)
}

/// The status of it, as a run's: 2 where a command was refused or it failed, else 1 where a launch faulted, else 0.
pub fn status(outcome: &Result<WideEnd, RunFault>) -> u8
    ensures { result ≡ status_of outcome.now }
{
    match outcome {
        Ok(end) if !end.refused => u8::from(end.faulted),
        _ => 2,
    }
}
