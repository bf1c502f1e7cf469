//! A schedule file, read.
#![tactic(auto)]

ghost use Rattle.std.specs.Prelude.{◌≡◌, map, IfOk, IfErr, List, ℕ};
ghost use Rattle.std.specs.Option.{option_map};
ghost use Rattle.clmodel.specs.declared.fault.Fault.{Fault};
ghost use Rattle.clmodel.specs.declared.schedule.EventRun.{EventRun};
ghost use Rattle.text_lines.specs.Texts.{between_commas};
ghost use Rattle.fault_lines.specs.Fields.{turn_of, turns_of};
ghost use Rattle.fault_lines.specs.Reading.{file_of, schedule_of};
ghost use Rattle.fault_lines.specs.Views.{location_of, stop_of, conflict_of, divergence_of, bounds_of, unset_of, fault_of};
ghost use Rattle.fault_lines.specs.ScheduleFile.{IsScheduleFile};
ghost use Rattle.fault_lines.specs.Faults.{IsRefused};

use crate::fields::turn_of;
use crate::forms::fault_at;
use crate::lent::{
    Bounds, Conflict, Divergence, LentFault, LentLocation, LentStop, Private, Unset,
};
use crate::runs::{schedule_at, schedule_of};
use clmodel::action::{Instance, Stop, Turns};
use clmodel::fault::{Fault, Location};
use clmodel::schedule::Schedule;
use clmodel::text::Name;
use std::alloc::{AllocError, Global};
use text_lines::{after, number_before};

/// Why a text is no schedule file, or was not read.
#[derive(Clone, Copy, Debug, PartialEq, Eq)]
pub enum ReadFault {
    BadText,
    OutOfMemory,
}

/// A location with a copy of the name.
fn location_of(alloc: Global, place: LentLocation<'_>) -> Result<Location, AllocError>
    ensures { IfOk result (λ location. location ≡ location_of place.entry) }
{
    match place {
        LentLocation::Buffer(name) => Ok(Location::Buffer(Name::copy_of(alloc, name)?)),
        LentLocation::Local { group, name } => {
            let name = Name::copy_of(alloc, name)?;
            Ok(Location::Local { group, name })
        }
    }
}

/// The numbers of a list of turns.
fn numbers_of(alloc: Global, text: &[u8]) -> Result<Vec<u32>, AllocError>
    ensures { IfOk result (λ numbers. numbers.items ≡ map turn_of (between_commas text.now)) }
{
    let parts = text.split(|byte| *byte == b',');
    let numbers = parts.map(|digits| turn_of(digits).unwrap_or(0));
    numbers.collect(alloc)
}

/// The turns of a list.
fn listed_turns(alloc: Global, text: &[u8]) -> Result<Turns, AllocError>
    ensures { IfOk result (λ turns. turns ≡ map turn_of (between_commas text.now)) }
{
    let numbers = numbers_of(alloc, text)?;
    Turns::copy_of(alloc, numbers.as_slice())
}

/// The turns round a barrier, none where no list of them stands in the line.
fn turns_of(alloc: Global, turns: Option<&[u8]>) -> Result<Turns, AllocError>
    ensures { IfOk result (λ made. made ≡ turns_of (option_map (λ list. list.now) turns.entry)) }
{
    match turns {
        None => Ok(Turns::empty(alloc)),
        Some(text) => listed_turns(alloc, text),
    }
}

/// A stop with its turns as numbers.
fn stop_of(alloc: Global, halt: LentStop<'_>) -> Result<Stop, AllocError>
    ensures { IfOk result (λ stop. stop ≡ stop_of halt.entry) }
{
    match halt {
        LentStop::End => Ok(Stop::Ended),
        LentStop::Barrier { site, turns } => {
            let turns = turns_of(alloc, turns)?;
            Ok(Stop::At(Instance { site, turns }))
        }
    }
}

/// Two accesses that conflict, with a copy of the name of their place.
fn conflict_of(alloc: Global, lent: Conflict<'_>) -> Result<Fault, AllocError>
    ensures { IfOk result (λ fault. fault ≡ conflict_of lent.entry) }
{
    Ok(Fault::Conflict {
        clash: lent.clash,
        item: lent.item,
        kind: lent.kind,
        other_item: lent.other_item,
        other_kind: lent.other_kind,
        location: location_of(alloc, lent.place)?,
        byte: lent.byte,
    })
}

/// Two items at different stops, with the turns of both as numbers.
fn divergence_of(alloc: Global, lent: Divergence<'_>) -> Result<Fault, AllocError>
    ensures { IfOk result (λ fault. fault ≡ divergence_of lent.entry) }
{
    Ok(Fault::Divergence {
        item: lent.item,
        stop: stop_of(alloc, lent.stop)?,
        other_item: lent.other_item,
        other_stop: stop_of(alloc, lent.other_stop)?,
    })
}

/// An access out of range, with a copy of the name of its place.
fn bounds_of(alloc: Global, lent: Bounds<'_>) -> Result<Fault, AllocError>
    ensures { IfOk result (λ fault. fault ≡ bounds_of lent.entry) }
{
    Ok(Fault::Bounds {
        item: lent.item,
        kind: lent.kind,
        location: location_of(alloc, lent.place)?,
        element: lent.element,
    })
}

/// An access of an unset byte, with a copy of the name of its place.
fn unset_of(alloc: Global, lent: Unset<'_>) -> Result<Fault, AllocError>
    ensures { IfOk result (λ fault. fault ≡ unset_of lent.entry) }
{
    Ok(Fault::Unset {
        item: lent.item,
        kind: lent.kind,
        location: location_of(alloc, lent.place)?,
        byte: lent.byte,
    })
}

/// A fault with copies of the names.
fn fault_of(alloc: Global, lent: LentFault<'_>) -> Result<Fault, AllocError>
    ensures { IfOk result (λ fault. fault ≡ fault_of lent.entry) }
{
    match lent {
        LentFault::Conflict(conflict) => conflict_of(alloc, conflict),
        LentFault::Divergence(divergence) => divergence_of(alloc, divergence),
        LentFault::Bounds(bounds) => bounds_of(alloc, bounds),
        LentFault::PrivateBounds(place) => Ok(Fault::PrivateBounds {
            item: place.item,
            array: Name::copy_of(alloc, place.array)?,
            element: place.element,
        }),
        LentFault::Unset(unset) => unset_of(alloc, unset),
        LentFault::UnsetVariable { item, variable } => Ok(Fault::UnsetVariable {
            item,
            variable: Name::copy_of(alloc, variable)?,
        }),
        LentFault::UnsetElement(place) => Ok(Fault::UnsetElement {
            item: place.item,
            array: Name::copy_of(alloc, place.array)?,
            element: place.element,
        }),
        LentFault::DivideByZero { item } => Ok(Fault::DivideByZero { item }),
        LentFault::DivideOverflow { item } => Ok(Fault::DivideOverflow { item }),
        LentFault::Budget { item } => Ok(Fault::Budget { item }),
    }
}

/// What a schedule file tells, with names and a schedule that are lent.
#[derive(Clone, Copy)]
struct File<'a> {
    ticket: u64,
    fault: LentFault<'a>,
    schedule: &'a [u8],
}

/// What a schedule file tells, if the bytes are one, to their end.
#[tactic(auto, unfolding(crate::specs::Reading::file_of))]
fn file_of(bytes: &[u8]) -> Option<File<'_>>
    ensures { option_map (λ file. (file.ticket, fault_of file.fault, file.schedule.now)) result ≡ file_of bytes.now }
{
    let rest = after(b"ticket ", bytes)?;
    let (ticket, rest) = number_before(b'\n', rest)?;
    let (fault, rest) = fault_at(rest)?;
    let schedule = schedule_at(rest)?;
    Some(File {
        ticket,
        fault,
        schedule,
    })
}

/// The fault and the schedule of a file.
fn parts_of(alloc: Global, file: File<'_>) -> Result<(Fault, Schedule), AllocError>
    ensures { IfOk result (λ parts. (parts.0 ≡ fault_of file.entry.fault) × (parts.1 ≡ schedule_of file.entry.schedule.now)) }
{
    let fault = fault_of(alloc, file.fault)?;
    let schedule = schedule_of(alloc, file.schedule)?;
    Ok((fault, schedule))
}

/// Reads a schedule file: a line `ticket T`, which tells the number of a launch among a script's commands, and a line
/// with a fault and its schedule, as `write` writes it, but that runs may be split. Names are of any length up to a
/// source's. Every other text is `BadText`.
pub fn read(alloc: Global, bytes: &[u8]) -> Result<(u64, Fault, Schedule), ReadFault>
    ensures found { IfOk result (λ file. IsScheduleFile bytes.now file.0 file.1 file.2) }
    ensures only { (ticket : ℕ) (fault : Fault) (runs : List EventRun) → IsScheduleFile bytes.now ticket fault runs →
        IfOk result (λ file. (file.0 ≡ ticket) × (file.1 ≡ fault) × (file.2 ≡ runs)) }
    ensures bad { IfErr result (IsRefused bytes.now) }
{
    let Some(file) = file_of(bytes) else {
        return Err(ReadFault::BadText);
    };
    match parts_of(alloc, file) {
        Ok((fault, schedule)) => Ok((file.ticket, fault, schedule)),
        Err(AllocError) => Err(ReadFault::OutOfMemory),
    }
}
