//! The items that a fault names.
#![tactic(auto)]

ghost use Rattle.std.specs.Prelude.{◌≡◌, ◌++◌, List, ℕ, codes, string_bytes, IfOk, OnOk};
ghost use Rattle.explain_text.specs.Texts.{AreItems, IsItemText, IsLastPlace, IsLastText, IsOneLine, IsSpotText, IsWord};

use crate::lines::{ids_text, one_line, push_both};
use crate::quotes::place_and_quote;
use clmodel::access::AccessKind;
use explanation::{Does, Explanation, MemoryKind, NamedItem, Spot};
use fault_lines::class_word;
use std::alloc::{AllocError, Global};
use std::fmt::Write;

/// Adds what an item does by an access.
fn push_verb(kind: AccessKind, out: &mut String) -> Result<(), AllocError> {
    match kind {
        AccessKind::Load => out.push_str("loads"),
        AccessKind::Store => out.push_str("stores"),
        AccessKind::Fetch => out.push_str("fetches"),
        AccessKind::Update(class) => {
            out.push_str("performs an atomic ")?;
            out.push_str(class_word(class))
        }
    }
}

/// What joins an access to the memory that a fault is about.
fn joining_words(number: u32, kind: AccessKind) -> &'static str {
    match (number, kind) {
        (4, _) => " outside of it here",
        (_, AccessKind::Update(_)) => " on it here",
        _ => " it here",
    }
}

/// Adds what an item does by an access that a fault is about.
fn push_access(number: u32, kind: AccessKind, out: &mut String) -> Result<(), AllocError> {
    push_verb(kind, out)?;
    out.push_str(joining_words(number, kind))?;
    out.push_str(if number == 5 {
        ", and nothing has set it"
    } else {
        ""
    })
}

/// What an item that can't go on does.
fn failing_words(number: u32, kind: Option<MemoryKind>) -> &'static str {
    match number {
        4 => "names an element outside of it here",
        5 => "reads it here, and nothing has set it",
        6 | 7 => "divides here",
        8 => "has no tick left here",
        _ => match kind {
            Some(_) => "stops here",
            None => "stops",
        },
    }
}

/// Adds the turns of the loops round a barrier, if there are any.
fn push_turns(turns: &[u32], out: &mut String) -> Result<(), AllocError> {
    let Some((first, others)) = turns.split_first() else {
        return Ok(());
    };
    write!(out, ", in turn {first}")?;
    for turn in others {
        write!(out, " and {turn}")?;
    }
    out.push_str(if others.is_empty() {
        " of the loop round it"
    } else {
        " of the loops round it"
    })
}

/// Adds what an item does.
fn push_deed(whole: &Explanation, item: &NamedItem, out: &mut String) -> Result<(), AllocError> {
    let number = whole.fault.number;
    match &item.does {
        Does::Access(kind) => push_access(number, *kind, out),
        Does::Waits { barrier, turns } => {
            write!(out, "waits at barrier {barrier}")?;
            push_turns(turns.as_slice(), out)
        }
        Does::Ended => out.push_str("has ended"),
        Does::Fails => {
            let kind = match &whole.memory {
                Some(memory) => Some(memory.kind),
                None => None,
            };
            out.push_str(failing_words(number, kind))
        }
    }
}

/// What an item does, with the number of the event where it is one, in one line.
fn deed_text(alloc: Global, whole: &Explanation, item: &NamedItem) -> Result<String, AllocError>
    ensures { IfOk result (λ text. IsOneLine (string_bytes text)) }
{
    let mut out = String::new(alloc);
    push_deed(whole, item, &mut out)?;
    if let Some(event) = item.event {
        write!(out, ", event {event}")?;
    }
    one_line(alloc, out.as_str())
}

/// The place of an item; nothing, where none is known.
fn spot_text(alloc: Global, script: &str, spot: &Option<Spot>) -> Result<String, AllocError>
    ensures { IfOk result (λ text. IsSpotText script.now spot.now (string_bytes text)) }
{
    match spot {
        Some(spot) => place_and_quote(alloc, script, spot),
        None => Ok(String::new(alloc)),
    }
}

/// The place of a last access, behind words that say so.
fn last_place(alloc: Global, script: &str, spot: &Spot) -> Result<String, AllocError>
    ensures { IfOk result (λ text. IsLastPlace script.now spot.now (string_bytes text)) }
{
    let place = place_and_quote(alloc, script, spot)?;
    let mut out = String::new(alloc);
    push_both("    its last access:\n", place.as_str(), &mut out)?;
    Ok(out)
}

/// The last access of an item that has ended; nothing, where none is known.
fn last_text(alloc: Global, script: &str, spot: &Option<Spot>) -> Result<String, AllocError>
    ensures { IfOk result (λ text. IsLastText script.now spot.now (string_bytes text)) }
{
    match spot {
        Some(spot) => last_place(alloc, script, spot),
        None => Ok(String::new(alloc)),
    }
}

/// Adds the first line of an item: a word that says which of two it is, its ids, and what it does.
fn push_first_line(word: &str, ids: &str, deed: &str, out: &mut String) -> Result<(), AllocError>
    ensures { OnOk result (string_bytes out.new ≡ string_bytes out.old ++ (codes "  " ++ word.now ++ ids.now ++ codes " " ++ deed.now ++ codes "\n")) }
{
    write!(out, "  {word}{ids} {deed}\n")
}

/// The word in front of an item, by its place among the items: which of two accesses comes first.
fn word_of(number: u32, place: usize) -> &'static str
    ensures { IsWord result.now }
{
    match (number, place) {
        (1 | 2, 0) => "first: ",
        (1 | 2, _) => "then: ",
        _ => "",
    }
}

/// Adds an item behind a word that says which of two it is.
fn push_item(
    alloc: Global,
    whole: &Explanation,
    source: &str,
    place: usize,
    item: &NamedItem,
    out: &mut String,
) -> Result<(), AllocError>
    ensures { OnOk result ((text : List ℕ) × IsItemText source.now item.now text × (string_bytes out.new ≡ string_bytes out.old ++ text)) }
{
    let ids = ids_text(alloc, item.item, &item.ids)?;
    let deed = deed_text(alloc, whole, item)?;
    let spot = spot_text(alloc, source, &item.spot)?;
    let last = last_text(alloc, source, &item.last)?;
    let word = word_of(whole.fault.number, place);
    push_first_line(word, ids.as_str(), deed.as_str(), out)?;
    push_both(spot.as_str(), last.as_str(), out)?;
    Ok(())
}

/// The items, whose places are in a source that stands in a file of this name.
pub(crate) fn items_text(
    alloc: Global,
    whole: &Explanation,
    source: &str,
) -> Result<String, AllocError>
    ensures { IfOk result (λ text. AreItems source.now whole.now.items.items (string_bytes text)) }
{
    let mut out = String::new(alloc);
    for (place, item) in whole.items.as_slice().iter().enumerate() {
        push_item(alloc, whole, source, place, item, &mut out)?;
    }
    Ok(out)
}
