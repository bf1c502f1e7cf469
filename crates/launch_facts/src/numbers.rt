//! The number of a fault, its name, its items and its place in memory.
#![tactic(auto)]

ghost use Rattle.std.specs.Prelude.{◌≡◌, ◌∷◌, None, IfOk};
ghost use Rattle.std.specs.Option.{option_to_list, IsSomeAnd};
ghost use Rattle.fault_lines.specs.Text.{fault_words, fault_item};
ghost use Rattle.launch_facts.specs.Facts.{fault_number, number_name, words_of_number, named_items, kind_at, name_at, IsMemory, TellsMemory};

use clmodel::access::Clash;
use clmodel::fault::{Fault, Location};
use clmodel::text::Name;
use explanation::{Memory, MemoryKind};
use std::alloc::{AllocError, Global};

/// The number of a fault in a reply, 1 to 8.
pub fn fault_number(fault: &Fault) -> u32
    ensures number { result ≡ fault_number fault.now }
    ensures words { fault_words fault.now ≡ words_of_number result }
{
    match fault {
        Fault::Conflict {
            clash: Clash::Race,
            ..
        } => 1,
        Fault::Conflict {
            clash: Clash::Order,
            ..
        } => 2,
        Fault::Divergence { .. } => 3,
        Fault::Bounds { .. } | Fault::PrivateBounds { .. } => 4,
        Fault::Unset { .. } | Fault::UnsetVariable { .. } | Fault::UnsetElement { .. } => 5,
        Fault::DivideByZero { .. } => 6,
        Fault::DivideOverflow { .. } => 7,
        Fault::Budget { .. } => 8,
    }
}

/// The name of a fault in a reply, by its number.
pub fn fault_name(number: u32) -> &'static str
    ensures { result.now ≡ number_name number }
{
    match number {
        1 => "race",
        2 => "order",
        3 => "divergence",
        4 => "bounds",
        5 => "unset",
        6 => "divide_by_zero",
        7 => "divide_overflow",
        _ => "budget",
    }
}

/// The items that a fault names, in its order: one, and another one if there is one.
pub fn named_items(fault: &Fault) -> (u32, Option<u32>)
    ensures items { result.0 ∷ option_to_list result.1 ≡ named_items fault.now }
    ensures first { result.0 ≡ fault_item fault.now }
{
    match fault {
        Fault::Conflict {
            item,
            other_item,
            ..
        }
        | Fault::Divergence {
            item,
            other_item,
            ..
        } => (*item, Some(*other_item)),
        Fault::Bounds { item, .. }
        | Fault::PrivateBounds { item, .. }
        | Fault::Unset { item, .. }
        | Fault::UnsetVariable { item, .. }
        | Fault::UnsetElement { item, .. }
        | Fault::DivideByZero { item }
        | Fault::DivideOverflow { item }
        | Fault::Budget { item } => (*item, None),
    }
}

/// Memory of a kind and a name, without more.
fn memory(
    alloc: Global,
    kind: MemoryKind,
    name: &Name,
    byte: Option<u64>,
    element: Option<i64>,
) -> Result<Memory, AllocError>
    ensures { IfOk result (IsMemory kind name.now byte element) }
{
    let name = String::from_utf8_lossy(alloc, name.as_slice())?;
    Ok(Memory {
        kind,
        name,
        byte,
        element,
        size: None,
        parameters: Vec::new(alloc),
    })
}

/// Memory at a location.
fn memory_at(
    alloc: Global,
    location: &Location,
    byte: Option<u64>,
    element: Option<i64>,
) -> Result<Option<Memory>, AllocError>
    ensures { IfOk result (λ found. IsSomeAnd found (IsMemory (kind_at location.now) (name_at location.now) byte element)) }
{
    match location {
        Location::Buffer(name) => Ok(Some(memory(alloc, MemoryKind::Buffer, name, byte, element)?)),
        Location::Local { group, name } => {
            let kind = MemoryKind::Local(*group);
            Ok(Some(memory(alloc, kind, name, byte, element)?))
        }
    }
}

/// Private memory.
fn private_memory(
    alloc: Global,
    kind: MemoryKind,
    name: &Name,
    element: Option<i64>,
) -> Result<Option<Memory>, AllocError>
    ensures { IfOk result (λ found. IsSomeAnd found (IsMemory kind name.now None element)) }
{
    Ok(Some(memory(alloc, kind, name, None, element)?))
}

/// The memory that a fault is about, with the byte or the element that it names, if it is about any. Its size and its
/// parameters are for the caller to add. An error is out of memory.
pub fn memory_of(alloc: Global, fault: &Fault) -> Result<Option<Memory>, AllocError>
    ensures { IfOk result (TellsMemory fault.now) }
{
    match fault {
        Fault::Conflict { location, byte, .. } | Fault::Unset { location, byte, .. } => {
            memory_at(alloc, location, Some(*byte), None)
        }
        Fault::Bounds {
            location,
            element,
            ..
        } => memory_at(alloc, location, None, Some(*element)),
        Fault::PrivateBounds { array, element, .. } | Fault::UnsetElement { array, element, .. } =>
            { private_memory(alloc, MemoryKind::Private, array, Some(*element)) }
        Fault::UnsetVariable { variable, .. } => {
            private_memory(alloc, MemoryKind::Variable, variable, None)
        }
        Fault::Divergence { .. }
        | Fault::DivideByZero { .. }
        | Fault::DivideOverflow { .. }
        | Fault::Budget { .. } => Ok(None),
    }
}
