//! Why bytes of a buffer aren't copied (OpenCL 1.2, section 5.2.2, clEnqueueCopyBuffer).
#![tactic(auto)]

ghost use Rattle.std.specs.Prelude.{◌≡◌, ◌<◌, ◌+◌, true, IfOk};
ghost use Rattle.host_commands.specs.declared.command.Command.TheVariants as command;
ghost use Rattle.explain_refusals.specs.Reasons.{HoldsOf};

use crate::buffers::{missing_buffer, no_bytes, outside};
use crate::names::text_of;
use crate::reasons::{Found, Refusing};
use clmodel::text::Name;
use host_commands::command::Refusal;
use refused_commands::RefusalReason;
use std::alloc::AllocError;

/// A copy: from a buffer, from an offset, into a buffer, from an offset on, so many bytes.
#[derive(Clone, Copy)]
pub(crate) struct Copied<'a> {
    pub source: &'a Name,
    pub offset: u64,
    pub target: &'a Name,
    pub target_offset: u64,
    pub count: u64,
}

/// The buffer of a copy that isn't there.
fn missing(refusing: &Refusing<'_>, copied: &Copied<'_>) -> Result<Option<Found>, AllocError>
    ensures { IfOk result (HoldsOf refusing.now (command.Copy copied.now.source.now copied.now.offset copied.now.target.now copied.now.target_offset copied.now.count)) }
{
    if let Some(found) = missing_buffer(refusing, copied.source, 1)? {
        return Ok(Some(found));
    }
    missing_buffer(refusing, copied.target, 3)
}

/// The range of a copy that passes the end of its buffer.
fn passing(refusing: &Refusing<'_>, copied: &Copied<'_>) -> Result<Option<Found>, AllocError>
    ensures { IfOk result (HoldsOf refusing.now (command.Copy copied.now.source.now copied.now.offset copied.now.target.now copied.now.target_offset copied.now.count)) }
{
    let count = copied.count;
    if let Some(found) = outside(refusing, copied.source, copied.offset, count, 2)? {
        return Ok(Some(found));
    }
    outside(refusing, copied.target, copied.target_offset, count, 4)
}

/// Whether two names are one.
fn is_same(name: &Name, other: &Name) -> bool
    ensures { result ≡ true → name.now ≡ other.now }
{
    name == other
}

/// Whether two ranges of as many bytes share one.
fn do_overlap(first: u64, second: u64, count: u64) -> bool
    ensures { result ≡ true → (first < second + count) × (second < first + count) }
{
    if first < second {
        second - first < count
    } else {
        first - second < count
    }
}

/// The ranges of a copy within a buffer, if they share a byte.
fn overlapping(refusing: &Refusing<'_>, copied: &Copied<'_>) -> Result<Option<Found>, AllocError>
    ensures { IfOk result (HoldsOf refusing.now (command.Copy copied.now.source.now copied.now.offset copied.now.target.now copied.now.target_offset copied.now.count)) }
{
    let (offset, other_offset, count) = (copied.offset, copied.target_offset, copied.count);
    if !is_same(copied.source, copied.target) || !do_overlap(offset, other_offset, count) {
        return Ok(None);
    }
    let reason = RefusalReason::Overlapping {
        name: text_of(refusing.alloc, copied.source)?,
        offset,
        other_offset,
        count,
    };
    Ok(Some(Found { reason, word: 4 }))
}

/// Why bytes aren't copied.
pub(crate) fn copy_reason(
    refusing: &Refusing<'_>,
    copied: &Copied<'_>,
    refusal: Refusal,
) -> Result<Option<Found>, AllocError>
    ensures { IfOk result (HoldsOf refusing.now (command.Copy copied.now.source.now copied.now.offset copied.now.target.now copied.now.target_offset copied.now.count)) }
{
    match refusal {
        Refusal::NoSuchName => missing(refusing, copied),
        Refusal::BadSize => Ok(no_bytes(refusing, copied.count, 5)),
        Refusal::OutOfRange => passing(refusing, copied),
        Refusal::Overlap => overlapping(refusing, copied),
        _ => Ok(None),
    }
}
