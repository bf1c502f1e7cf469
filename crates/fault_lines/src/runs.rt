//! The schedule behind a fault.
#![tactic(auto)]

ghost use Rattle.std.specs.Prelude.{◌≡◌, ◌==◌, ◌||◌, codes, map, length, if◌then◌else◌, IfOk};
ghost use Rattle.std.specs.Option.{option_map};
ghost use Rattle.std.specs.List.{list_all};
ghost use Rattle.fault_lines.specs.Reading.{item_run_at, release_at, run_at, run_of, run_named, is_run, words_of, is_schedule, schedule_of, schedule_at};

use crate::fields::{line_of, number32_at, number32_before};
use clmodel::schedule::{EventRun, Schedule};
use std::alloc::{AllocError, Global};
use text_lines::{after, number_at};

/// A run of events of one item in front: the item, `*` and the count, which is at least 1; and the rest.
#[tactic(auto, unfolding(crate::specs::Reading::item_run_at))]
fn item_run_at(bytes: &[u8]) -> Option<(EventRun, &[u8])>
    ensures { option_map (λ read. (read.0, read.1.now)) result ≡ item_run_at bytes.now }
{
    let (item, rest) = number32_before(b'*', bytes)?;
    let (count, rest) = number_at(rest)?;
    if count == 0 {
        return None;
    }
    Some((EventRun::Item { item, count }, rest))
}

/// A release of a group from its barrier, behind the letter `r`, and the rest.
#[tactic(auto, unfolding(crate::specs::Reading::release_at))]
fn release_at(bytes: &[u8]) -> Option<(EventRun, &[u8])>
    ensures { option_map (λ read. (read.0, read.1.now)) result ≡ release_at bytes.now }
{
    let (group, rest) = number32_at(bytes)?;
    Some((EventRun::Release { group }, rest))
}

/// A run of events in front, of one item or a release, and the rest.
#[tactic(auto, unfolding(crate::specs::Reading::run_at))]
fn run_at(bytes: &[u8]) -> Option<(EventRun, &[u8])>
    ensures { option_map (λ read. (read.0, read.1.now)) result ≡ run_at bytes.now }
{
    if let Some(rest) = after(b"r", bytes) {
        return release_at(rest);
    }
    item_run_at(bytes)
}

/// The run that a word is, if it is one.
#[tactic(auto, unfolding(crate::specs::Reading::run_of))]
fn run_of(word: &[u8]) -> Option<EventRun>
    ensures { result ≡ run_of word.now }
{
    let (run, rest) = run_at(word)?;
    if !rest.is_empty() {
        return None;
    }
    Some(run)
}

/// Whether a text is runs with a space between each two.
fn are_runs(text: &[u8]) -> bool
    ensures { result ≡ list_all is_run (words_of text.now) }
{
    text.split(|byte| *byte == b' ')
        .all(|word| run_of(word).is_some())
}

/// The runs that a text is.
fn runs_of(alloc: Global, text: &[u8]) -> Result<Vec<EventRun>, AllocError>
    ensures { IfOk result (λ runs. runs.items ≡ map run_named (words_of text.now)) }
{
    let words = text.split(|byte| *byte == b' ');
    let runs = words.map(|word| run_of(word).unwrap_or(EventRun::Release { group: 0 }));
    runs.collect(alloc)
}

/// The text of the schedule, which ends its line, with nothing after it.
#[tactic(auto, unfolding(crate::specs::Reading::schedule_at))]
pub fn schedule_at(bytes: &[u8]) -> Option<&[u8]>
    ensures { option_map (λ text. text.now) result ≡ schedule_at bytes.now }
{
    let text = line_of(after(b"schedule ", bytes)?)?;
    if text != b"-".as_slice() && !are_runs(text) {
        return None;
    }
    Some(text)
}

/// The schedule that a text is.
pub fn schedule_of(alloc: Global, text: &[u8]) -> Result<Schedule, AllocError>
    ensures { IfOk result (λ schedule. schedule ≡ schedule_of text.now) }
{
    if text == b"-".as_slice() {
        return Ok(Schedule::new(Vec::new(alloc)));
    }
    Ok(Schedule::new(runs_of(alloc, text)?))
}
