//! The lines behind the reply to a launch.
#![tactic(auto)]

ghost use Rattle.std.specs.Prelude.{◌≡◌, ◌++◌, List, ℕ, IfOk, OnOk};
ghost use Rattle.wide_sources.specs.Words.{IsOneLine};
ghost use Rattle.wide_text.specs.Told.{AreAsides, aside};

use crate::data::{FreeBuffer, WideLaunch};
use std::alloc::{AllocError, Global};
use std::fmt::Write;
use wide_sources::{Deciding, push_arguments, push_deciding, push_in_line};

/// No lines.
pub(crate) fn no_asides(alloc: Global) -> Vec<u8>
    ensures { AreAsides result.items }
{
    Vec::new(alloc)
}

/// Adds a text as a line that begins with two blanks.
fn push_aside(text: &str, out: &mut Vec<u8>) -> Result<(), AllocError>
    ensures { OnOk result ((line : List ℕ) × IsOneLine line × (out.new.items ≡ out.old.items ++ aside line)) }
{
    out.extend_from_slice(b"  ")?;
    push_in_line(text.as_bytes(), out)?;
    out.push(b'\n')?;
    Ok(())
}

/// Adds a buffer that is free.
fn push_buffer(buffer: &FreeBuffer, out: &mut String) -> Result<(), AllocError> {
    out.push_str(buffer.name.as_str())?;
    if let Some(line) = buffer.from {
        write!(out, " (from line {line} on)")?;
    }
    Ok(())
}

/// Adds the buffers that are free, with commas between them.
fn push_buffers(buffers: &[FreeBuffer], out: &mut String) -> Result<(), AllocError> {
    let mut before = "for all bytes of ";
    for buffer in buffers {
        out.push_str(before)?;
        push_buffer(buffer, out)?;
        before = ", ";
    }
    Ok(())
}

/// For which bytes and numbers the reply to a launch holds, in words. An error is out of memory.
fn held_text(alloc: Global, launch: &WideLaunch) -> Result<String, AllocError> {
    let mut out = String::new(alloc);
    push_buffers(launch.buffers.as_slice(), &mut out)?;
    let first = if launch.buffers.is_empty() {
        "for all numbers of "
    } else {
        "; for all numbers of "
    };
    push_arguments(first, launch.arguments.as_slice(), &mut out)?;
    if launch.buffers.is_empty() && launch.arguments.is_empty() {
        out.push_str("for these bytes and numbers alone")?;
    }
    Ok(out)
}

/// What decides, and where, in words. An error is out of memory.
fn deciding_text(alloc: Global, deciding: &Deciding) -> Result<String, AllocError> {
    let mut out = String::from_str(alloc, "not for ")?;
    push_deciding(deciding, &mut out)?;
    Ok(out)
}

/// The lines behind the reply to a launch. An error is out of memory.
pub(crate) fn asides_of(alloc: Global, launch: &WideLaunch) -> Result<Vec<u8>, AllocError>
    ensures { IfOk result (λ text. AreAsides text.items) }
{
    let mut out = Vec::new(alloc);
    let held = held_text(alloc, launch)?;
    push_aside(held.as_str(), &mut out)?;
    for deciding in launch.deciding.as_slice() {
        let text = deciding_text(alloc, deciding)?;
        push_aside(text.as_str(), &mut out)?;
    }
    Ok(out)
}
