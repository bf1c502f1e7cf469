//! A fault of a source, told as data and as text.
#![tactic(auto)]

ghost use Rattle.std.specs.Prelude.{◌≡◌, ◌++◌, codes, string_bytes, option_copied, OnOk, IfOk};
ghost use Rattle.build_hints.specs.Refusals.{IsRefusal, TellsRefusal, hint_line, hint_lines};

use crate::faults::{Refused, kind_of, name_of, number_of, place_of};
use crate::hints::hint_of;
use crate::titles::title_of;
use explain_text::{place_text, write_quote};
use explanation::line_as_text;
use opencl_words::word_at;
use std::alloc::{AllocError, Global};
use std::fmt::Write;
use text_lines::{line_text, position_of};

/// A fault of a source, with where it lies. Lines and columns count from 1, columns and lengths in bytes.
#[derive(Drop)]
pub struct Refusal {
    /// `syntax` or `type`
    pub kind: &'static str,
    /// The number and the name that `clsim check` writes
    pub number: u8,
    pub name: &'static str,
    /// The byte of the source at which it lies, from 0; past the end it is the end
    pub offset: usize,
    /// How many bytes the word there has; 1 where none stands there
    pub length: usize,
    /// The line of the source, and that of the file
    pub line: usize,
    pub script_line: usize,
    pub column: usize,
    /// The text of its line, in which its column is the same
    pub text: String,
    /// What the fault says
    pub title: &'static str,
    /// What is wanted there, or how to write what the language lacks
    pub hint: Option<&'static str>,
}

/// A fault of a source as data. The source begins at this line of its file. A place past the end stands for the end. An
/// error is out of memory. It takes the time of the source.
pub fn refusal_of(
    alloc: Global,
    source: &[u8],
    first_line: usize,
    fault: Refused,
) -> Result<Refusal, AllocError>
    ensures { IfOk result (IsRefusal source.now first_line fault) }
{
    let offset = (place_of(fault) as usize).min(source.len());
    let place = position_of(source, offset);
    let text = line_as_text(alloc, line_text(source, place.begin))?;
    let hint = hint_of(alloc, source, fault, offset)?;
    let (kind, number, name) = (kind_of(fault), number_of(fault), name_of(fault));
    let length = word_at(source, offset).len().max(1);
    let script_line = first_line.saturating_add(place.line - 1);
    let title = title_of(fault);
    Ok(Refusal {
        kind,
        number,
        name,
        offset,
        length,
        line: place.line,
        script_line,
        column: place.column,
        text,
        title,
        hint,
    })
}

/// The line of a refusal with carets under its word.
fn quote_text(alloc: Global, refusal: &Refusal) -> Result<String, AllocError> {
    let from = refusal.column.saturating_sub(1);
    let to = from.saturating_add(refusal.length);
    let mut out = String::new(alloc);
    write_quote(
        alloc,
        refusal.script_line,
        refusal.text.as_str(),
        from,
        to,
        &mut out,
    )?;
    Ok(out)
}

/// Adds what a fault says behind its place, and its line below.
fn push_title(title: &str, quote: &str, out: &mut String) -> Result<(), AllocError>
    ensures { OnOk result (string_bytes out.new ≡ string_bytes out.old ++ (codes ": " ++ title.now ++ codes "\n" ++ quote.now)) }
{
    write!(out, ": {title}\n{quote}")
}

/// Adds the line of a hint.
fn push_hint(hint: &str, out: &mut String) -> Result<(), AllocError>
    ensures { OnOk result (string_bytes out.new ≡ string_bytes out.old ++ hint_line hint.now) }
{
    writeln!(out, "  hint: {hint}")
}

/// Adds the line of a hint, if there is one.
fn push_maybe_hint(hint: Option<&'static str>, out: &mut String) -> Result<(), AllocError>
    ensures { OnOk result (string_bytes out.new ≡ string_bytes out.old ++ hint_lines (option_copied hint.entry)) }
{
    match hint {
        Some(hint) => push_hint(hint, out),
        None => Ok(()),
    }
}

/// A fault of a source as text: where it lies and what it is, the line with a caret, and a hint. The source begins at
/// this line of the file that is named. A place past the end stands for the end. An error is out of memory. It takes
/// the time of the source.
pub fn refusal_text(
    alloc: Global,
    name: &str,
    source: &[u8],
    first_line: usize,
    fault: Refused,
) -> Result<String, AllocError>
    ensures { IfOk result (λ text. TellsRefusal name.now source.now first_line fault (string_bytes text)) }
{
    let refusal = refusal_of(alloc, source, first_line, fault)?;
    let quote = quote_text(alloc, &refusal)?;
    let mut out = place_text(alloc, name, refusal.script_line, refusal.column)?;
    push_title(refusal.title, quote.as_str(), &mut out)?;
    push_maybe_hint(refusal.hint, &mut out)?;
    Ok(out)
}
