//! A line of source with carets under a place in it.
#![tactic(auto)]

ghost use Rattle.std.specs.Prelude.{◌≡◌, length, string_bytes, IfOk, OnOk};
ghost use Rattle.explain_text.specs.Texts.{AddsLines, AreLines, IsPlaceText, quote_lines};

use crate::lines::{place_line, place_text, push_line};
use explanation::{CallSite, LoopSite, Spot};
use std::alloc::{AllocError, Global};
use std::fmt::Write;
use unicode_width::UnicodeWidthChar;

/// How wide a line of source is at most, in columns of a terminal. A line that is longer is cut, so that the place is
/// seen.
const WIDTH: usize = 100;

/// How many columns stand in front of a place at most.
const LEAD: usize = 60;

/// How many columns a tab takes.
const TAB: usize = 4;

/// Where carets stand under a line, in columns: how many are in front of them, and how many there are.
#[derive(Clone, Copy)]
struct Carets {
    before: usize,
    count: usize,
}

/// How many columns a character takes, as it is told: a tab and each other control character as blanks.
fn width_of(letter: char) -> usize {
    if letter == '\t' {
        return TAB;
    }
    match letter.width() {
        Some(width) => width,
        None => 1,
    }
}

/// Where the carets stand for the bytes of a line from one number up to another.
fn carets_of(text: &str, from: usize, to: usize) -> Carets {
    let mut byte = 0usize;
    let mut carets = Carets {
        before: 0,
        count: 0,
    };
    for letter in text.chars() {
        let width = width_of(letter);
        if byte < from {
            carets.before = carets.before.saturating_add(width);
        } else if byte < to {
            carets.count = carets.count.saturating_add(width);
        }
        byte = byte.saturating_add(letter.len_utf8());
    }
    carets
}

/// Adds so many of a character.
fn push_many(letter: char, count: usize, out: &mut String) -> Result<(), AllocError> {
    for _ in 0..count {
        out.push(letter)?;
    }
    Ok(())
}

/// Columns of a line, from one number up to another.
#[derive(Clone, Copy)]
struct Columns {
    from: usize,
    to: usize,
}

/// Adds a character of a line that takes these columns, as far as they are in a window: blanks for a control character,
/// and for one that is cut.
fn push_letter(
    letter: char,
    columns: Columns,
    window: Columns,
    out: &mut String,
) -> Result<(), AllocError> {
    if letter.is_control() || columns.from < window.from || window.to < columns.to {
        let end = columns.to.min(window.to);
        let seen = end.saturating_sub(columns.from.max(window.from));
        return push_many(' ', seen, out);
    }
    out.push(letter)
}

/// Adds a line as far as its columns are in a window.
fn push_window(text: &str, window: Columns, out: &mut String) -> Result<(), AllocError> {
    let mut from = 0usize;
    for letter in text.chars() {
        let to = from.saturating_add(width_of(letter));
        push_letter(letter, Columns { from, to }, window, out)?;
        from = to;
    }
    Ok(())
}

/// A line of source behind its number, from a column on.
fn source_line(alloc: Global, number: usize, text: &str, cut: usize) -> Result<String, AllocError> {
    let mut line = String::new(alloc);
    write!(line, "{number:>8} | ")?;
    if cut > 0 {
        line.push_str("..")?;
    }
    let window = Columns {
        from: cut,
        to: cut.saturating_add(WIDTH),
    };
    push_window(text, window, &mut line)?;
    Ok(line)
}

/// The carets under a line of source that is told from a column on: at least one.
fn caret_line(alloc: Global, carets: Carets, cut: usize) -> Result<String, AllocError> {
    let mut line = String::from_str(alloc, "         | ")?;
    if cut > 0 {
        line.push_str("  ")?;
    }
    let lead = carets.before.saturating_sub(cut);
    push_many(' ', lead, &mut line)?;
    push_many(
        '^',
        carets.count.max(1).min(WIDTH.saturating_sub(lead)),
        &mut line,
    )?;
    Ok(line)
}

/// Adds a line of source with its number, and under it the carets of its bytes from one number up to another. An error
/// is out of memory.
pub fn write_quote(
    alloc: Global,
    number: usize,
    text: &str,
    from: usize,
    to: usize,
    out: &mut String,
) -> Result<(), AllocError>
    ensures { OnOk result (AddsLines 2 (string_bytes out.old) (string_bytes out.new)) }
{
    let carets = carets_of(text, from, to);
    let cut = carets.before.saturating_sub(LEAD);
    let source = source_line(alloc, number, text, cut)?;
    let under = caret_line(alloc, carets, cut)?;
    push_line(alloc, source.as_str(), out)?;
    push_line(alloc, under.as_str(), out)?;
    Ok(())
}

/// The line of the call of a helper.
fn call_line(alloc: Global, call: &CallSite) -> Result<String, AllocError> {
    let (line, column) = (call.script_line, call.column);
    let text = call.text.as_str().trim();
    format!(in alloc; "           called at {line}:{column}: {text}")
}

/// Adds the calls of helpers round a place, the innermost first.
fn push_calls(alloc: Global, calls: &[CallSite], out: &mut String) -> Result<(), AllocError>
    ensures { OnOk result (AddsLines (length calls.now) (string_bytes out.old) (string_bytes out.new)) }
{
    for number in 0..calls.len() {
        let line = call_line(alloc, &calls[calls.len() - 1 - number])?;
        push_line(alloc, line.as_str(), out)?;
    }
    Ok(())
}

/// Adds where in the turns of a loop a place stands, where it is known.
fn push_turn(turn: Option<u32>, out: &mut String) -> Result<(), AllocError> {
    match turn {
        Some(0) => out.push_str("before the first turn of"),
        Some(turn) => write!(out, "in turn {turn} of"),
        None => out.push_str("in"),
    }
}

/// The line of a loop.
fn loop_line(alloc: Global, site: &LoopSite) -> Result<String, AllocError> {
    let (line, column) = (site.script_line, site.column);
    let mut out = String::from_str(alloc, "           ")?;
    push_turn(site.turn, &mut out)?;
    write!(out, " the loop at {line}:{column}")?;
    Ok(out)
}

/// Adds the loops round a place, the innermost first.
fn push_loops(alloc: Global, loops: &[LoopSite], out: &mut String) -> Result<(), AllocError>
    ensures { OnOk result (AddsLines (length loops.now) (string_bytes out.old) (string_bytes out.new)) }
{
    for number in 0..loops.len() {
        let line = loop_line(alloc, &loops[loops.len() - 1 - number])?;
        push_line(alloc, line.as_str(), out)?;
    }
    Ok(())
}

/// The line of a place, with the calls of helpers and the loops round it.
fn quote_of(alloc: Global, spot: &Spot) -> Result<String, AllocError>
    ensures { IfOk result (λ text. AreLines (quote_lines spot.now) (string_bytes text)) }
{
    let mut out = String::new(alloc);
    let from = spot.column.saturating_sub(1);
    let to = from.saturating_add(spot.length);
    write_quote(
        alloc,
        spot.script_line,
        spot.text.as_str(),
        from,
        to,
        &mut out,
    )?;
    push_calls(alloc, spot.calls.as_slice(), &mut out)?;
    push_loops(alloc, spot.loops.as_slice(), &mut out)?;
    Ok(out)
}

/// A place in a script with its line, the calls of helpers and the loops round it.
pub(crate) fn place_and_quote(
    alloc: Global,
    script: &str,
    spot: &Spot,
) -> Result<String, AllocError>
    ensures { IfOk result (λ text. IsPlaceText script.now spot.now (string_bytes text)) }
{
    let place = place_text(alloc, script, spot.script_line, spot.column)?;
    let quote = quote_of(alloc, spot)?;
    place_line(alloc, place.as_str(), quote.as_str())
}
