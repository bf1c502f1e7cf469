//! A command that was refused as text: where it stands, the refusal, why, and its line with carets.
#![tactic(auto)]

ghost use Rattle.std.specs.Prelude.{◌≡◌, ◌++◌, codes, decimal, string_bytes, IfOk, OnOk};
ghost use Rattle.refused_commands.specs.Refusals.{IsRefusedText, IsTitle};

use crate::told::{RefusalReason, RefusedCommand, WordSpot};
use crate::words::words_of;
use explain_text::{place_text, write_quote};
use std::alloc::{AllocError, Global};
use std::fmt::Write;

/// Why a command was refused. An error is out of memory.
pub fn refusal_reason_text(alloc: Global, reason: &RefusalReason) -> Result<String, AllocError> {
    words_of(alloc, reason)
}

/// The sentence of a reason behind a colon, where there is one.
fn why_text(alloc: Global, why: &Option<RefusalReason>) -> Result<String, AllocError> {
    match why {
        Some(reason) => {
            let sentence = words_of(alloc, reason)?;
            format!(in alloc; ": {sentence}")
        }
        None => Ok(String::new(alloc)),
    }
}

/// Adds a refusal by its number and its name, and what stands behind it.
fn push_refusal(number: u32, name: &str, why: &str, out: &mut String) -> Result<(), AllocError>
    ensures { OnOk result (string_bytes out.new ≡ string_bytes out.old ++ (codes "refused " ++ decimal number ++ codes " " ++ name.now ++ why.now)) }
{
    write!(out, "refused {number} {name}{why}")
}

/// The refusal of a command, and why. An error is out of memory.
pub fn refused_title(alloc: Global, told: &RefusedCommand) -> Result<String, AllocError>
    ensures { IfOk result (λ text. IsTitle told.now (string_bytes text)) }
{
    let why = why_text(alloc, &told.why)?;
    let mut out = String::new(alloc);
    push_refusal(told.number, told.name, why.as_str(), &mut out)?;
    Ok(out)
}

/// The line of a command with carets under a word of it.
fn quote_of(alloc: Global, spot: &WordSpot) -> Result<String, AllocError> {
    let from = spot.column.saturating_sub(1);
    let to = from.saturating_add(spot.length);
    let mut out = String::new(alloc);
    write_quote(alloc, spot.line, spot.text.as_str(), from, to, &mut out)?;
    Ok(out)
}

/// Adds a title behind a place, and a text below.
fn push_title(title: &str, below: &str, out: &mut String) -> Result<(), AllocError>
    ensures { OnOk result (string_bytes out.new ≡ string_bytes out.old ++ (codes ": " ++ title.now ++ codes "\n" ++ below.now)) }
{
    write!(out, ": {title}\n{below}")
}

/// A command that was refused as text. An error is out of memory.
pub fn refused_text(alloc: Global, told: &RefusedCommand) -> Result<String, AllocError>
    ensures { IfOk result (λ text. IsRefusedText told.now (string_bytes text)) }
{
    let title = refused_title(alloc, told)?;
    let quote = quote_of(alloc, &told.spot)?;
    let script = told.script.as_str();
    let mut out = place_text(alloc, script, told.spot.line, told.spot.column)?;
    push_title(title.as_str(), quote.as_str(), &mut out)?;
    Ok(out)
}
