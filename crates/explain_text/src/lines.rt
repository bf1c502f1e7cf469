//! Parts of lines whose text is promised.
#![tactic(auto)]

ghost use Rattle.std.specs.Prelude.{◌≡◌, ◌≢◌, ◌++◌, [], ◌∷◌, length, codes, decimal, string_bytes, IfOk, OnOk};
ghost use Rattle.explain_text.specs.Texts.{AddsLines, IsOneLine, numbers_text, rest_text, list_text, ids_text, place_text};

use explanation::Ids;
use std::alloc::{AllocError, Global};
use std::fmt::Write;

/// A character, and a blank in place of a line feed.
fn in_line(letter: char) -> char
    ensures { result ≢ 10 }
{
    if letter == '\n' { ' ' } else { letter }
}

/// A text in one line: with a blank in place of each line feed.
pub(crate) fn one_line(alloc: Global, text: &str) -> Result<String, AllocError>
    ensures { IfOk result (λ line. IsOneLine (string_bytes line)) }
{
    let mut line = String::new(alloc);
    for letter in text.chars() {
        line.push(in_line(letter))?;
    }
    Ok(line)
}

/// Adds the numbers behind the first, each behind a comma.
fn push_rest(numbers: &[u64], out: &mut String) -> Result<(), AllocError>
    ensures { OnOk result (string_bytes out.new ≡ string_bytes out.old ++ rest_text numbers.now) }
{
    for number in numbers {
        write!(out, ", {number}")?;
    }
    Ok(())
}

/// Numbers with commas between them.
fn list_text(alloc: Global, numbers: &[u64]) -> Result<String, AllocError>
    ensures { IfOk result (λ text. string_bytes text ≡ list_text numbers.now) }
{
    let mut out = String::new(alloc);
    if let Some((first, others)) = numbers.split_first() {
        write!(out, "{first}")?;
        push_rest(others, &mut out)?;
    }
    Ok(out)
}

/// One number as it is, several in parentheses with commas between them.
pub fn numbers_text(alloc: Global, numbers: &[u64]) -> Result<String, AllocError>
    ensures { IfOk result (λ text. string_bytes text ≡ numbers_text numbers.now) }
{
    let list = list_text(alloc, numbers)?;
    if numbers.len() == 1 {
        return Ok(list);
    }
    format!(in alloc; "({list})")
}

/// Adds a word and a text behind it.
pub(crate) fn push_both(word: &str, text: &str, out: &mut String) -> Result<(), AllocError>
    ensures { OnOk result (string_bytes out.new ≡ string_bytes out.old ++ (word.now ++ text.now)) }
{
    out.push_str(word)?;
    out.push_str(text)
}

/// Adds a text as a line of its own, with a blank in place of each line feed in it.
pub(crate) fn push_line(alloc: Global, words: &str, out: &mut String) -> Result<(), AllocError>
    ensures { OnOk result (AddsLines 1 (string_bytes out.old) (string_bytes out.new)) }
{
    let line = one_line(alloc, words)?;
    push_both(line.as_str(), "\n", out)?;
    Ok(())
}

/// Adds a work-item.
fn push_item(item: u32, out: &mut String) -> Result<(), AllocError>
    ensures { OnOk result (string_bytes out.new ≡ string_bytes out.old ++ (codes "work-item " ++ decimal item)) }
{
    write!(out, "work-item {item}")
}

/// A work-item with its ids.
pub fn ids_text(alloc: Global, item: u32, ids: &Ids) -> Result<String, AllocError>
    ensures { IfOk result (λ text. string_bytes text ≡ ids_text item ids.now) }
{
    let global = numbers_text(alloc, ids.global.as_slice())?;
    let local = numbers_text(alloc, ids.local.as_slice())?;
    let group = numbers_text(alloc, ids.group.as_slice())?;
    let mut out = String::new(alloc);
    push_item(item, &mut out)?;
    push_both(": global id ", global.as_str(), &mut out)?;
    push_both(", local id ", local.as_str(), &mut out)?;
    push_both(", group ", group.as_str(), &mut out)?;
    Ok(out)
}

/// Adds a number behind a colon.
fn push_number(number: usize, out: &mut String) -> Result<(), AllocError>
    ensures { OnOk result (string_bytes out.new ≡ string_bytes out.old ++ (codes ":" ++ decimal number)) }
{
    write!(out, ":{number}")
}

/// A place in a script.
pub fn place_text(
    alloc: Global,
    script: &str,
    line: usize,
    column: usize,
) -> Result<String, AllocError>
    ensures { IfOk result (λ text. string_bytes text ≡ place_text script.now line column) }
{
    let mut out = String::from_str(alloc, script)?;
    push_number(line, &mut out)?;
    push_number(column, &mut out)?;
    Ok(out)
}

/// Adds a place in a line of its own, with a text below.
fn push_place(place: &str, below: &str, out: &mut String) -> Result<(), AllocError>
    ensures { OnOk result (string_bytes out.new ≡ string_bytes out.old ++ (codes "      " ++ place.now ++ codes "\n" ++ below.now)) }
{
    write!(out, "      {place}\n{below}")
}

/// A place in a line of its own, with a text below.
pub(crate) fn place_line(alloc: Global, place: &str, below: &str) -> Result<String, AllocError>
    ensures { IfOk result (λ text. string_bytes text ≡ codes "      " ++ place.now ++ codes "\n" ++ below.now) }
{
    let mut out = String::new(alloc);
    push_place(place, below, &mut out)?;
    Ok(out)
}
