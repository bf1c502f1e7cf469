//! Logs: they keep what they kept where memory is refused. `len` of `GroupLog` is how many accesses it tells other
//! groups, of the other two how many they have.

use crate::came::{Came, done_if, is_done};
use access_list::{AccessLog, Entry, ListLog};
use clmodel::access::{Operation, Region, Width};
use group_log::GroupLog;
use page_log::PageLog;
use shadow::GroupAccesses;
use std::alloc::Global;

/// How many items store. With so many, a note of a conflict takes memory in each log.
const ITEMS: u8 = 6;

/// The item that stores where the store of one of those was refused.
const OTHER: u8 = ITEMS;

/// What each of them does to two words.
const STORE: Operation = Operation::Store(Width::Eight, 7);

/// What comes of noting an item's operation from a word of buffer 0 on, which meets another at its first byte or meets
/// none: the log's `len` is one more, or, out of memory, what it was.
fn noted<L: AccessLog + GroupAccesses>(
    log: &mut L,
    item: u8,
    word: u16,
    operation: Operation,
    is_met: bool,
) -> Came {
    let first = 4 * word as u64;
    let before = log.len();
    let entry = Entry::of(item as u32, Region::Buffer(0), first, operation, 0);
    // As a group does: `note` judges what the log doesn't see at once to conflict with none.
    let outcome = match log.note_if_clear(entry) {
        Ok(true) => Ok(None),
        Ok(false) => log.note(entry),
        Err(error) => Err(error),
    };
    let after = log.len();
    let is_kept = after == before.wrapping_add(1);
    match outcome {
        Ok(Some(hit)) => done_if(is_kept && is_met && hit.byte == first),
        Ok(None) => done_if(is_kept && !is_met),
        Err(_) if after == before => Came::OutOfMemory,
        Err(_) => Came::Wrong,
    }
}

/// Notes the store of item 0. Where it is refused, that of another item there meets nothing, since the log is as it
/// was.
fn try_first<R: Print, L: AccessLog + GroupAccesses>(rt: &R, call: &str, log: &mut L) {
    let _ = is_done(rt, call, noted(log, 0, 0, STORE, false))
        || is_done(rt, call, noted(log, OTHER, 0, STORE, false));
}

/// What comes of noting the store of an item to the word of its number and the next one. It meets that of the item
/// before.
fn met<L: AccessLog + GroupAccesses>(log: &mut L, item: u8) -> Came {
    noted(log, item, item as u16, STORE, true)
}

/// The same again after it was refused. Before it another item stores to bytes of the second word, at which the refused
/// store alone was, and the item before loads the first word, at which but for the refused store it alone was. Both
/// meet nothing, since the log is as it was.
fn met_again<L: AccessLog + GroupAccesses>(log: &mut L, item: u8) -> Came {
    let word = item as u16;
    let second = noted(log, OTHER, word + 1, Operation::Store(Width::Two, 7), false);
    let first = noted(
        log,
        item.saturating_sub(1),
        word,
        Operation::Load(Width::Four),
        false,
    );
    match (second, first) {
        (Came::Done, Came::Done) => met(log, item),
        _ => Came::Wrong,
    }
}

/// Notes stores of all items, each again where it is refused.
fn try_notes<R: Print, L: AccessLog + GroupAccesses>(
    rt: &R,
    first: &str,
    later: &str,
    log: &mut L,
) {
    try_first(rt, first, log);
    for item in 1..ITEMS {
        let _ = is_done(rt, later, met(log, item)) || is_done(rt, later, met_again(log, item));
    }
}

/// Tries the notes of the three logs.
pub fn try_all<R: Print>(rt: &R, alloc: Global) {
    let mut list = ListLog::new(alloc, false);
    try_notes(rt, "list note", "list note of a conflict", &mut list);
    let mut log = GroupLog::new(alloc, false);
    try_notes(rt, "log note", "log note of a conflict", &mut log);
    let mut pages = PageLog::new(alloc, false);
    try_notes(rt, "pages note", "pages note of a conflict", &mut pages);
}
