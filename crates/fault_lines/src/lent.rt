//! What is read from a fault's line, with names that are lent.
#![tactic(auto)]

use clmodel::access::{AccessKind, Clash};

/// Where a byte or an element lies, with a name that is lent.
#[derive(Clone, Copy)]
pub enum LentLocation<'a> {
    Buffer(&'a [u8]),
    Local { group: u32, name: &'a [u8] },
}

/// Where an item waits or that it has ended, with the text of the turns round a barrier, if there are any.
#[derive(Clone, Copy)]
pub enum LentStop<'a> {
    Barrier { site: u32, turns: Option<&'a [u8]> },
    End,
}

/// Two accesses that conflict on a byte, the earlier one first.
#[derive(Clone, Copy)]
pub struct Conflict<'a> {
    pub clash: Clash,
    pub item: u32,
    pub kind: AccessKind,
    pub other_item: u32,
    pub other_kind: AccessKind,
    pub place: LentLocation<'a>,
    pub byte: u64,
}

/// Two items at different stops.
#[derive(Clone, Copy)]
pub struct Divergence<'a> {
    pub item: u32,
    pub stop: LentStop<'a>,
    pub other_item: u32,
    pub other_stop: LentStop<'a>,
}

/// An access of an element that is out of range.
#[derive(Clone, Copy)]
pub struct Bounds<'a> {
    pub item: u32,
    pub kind: AccessKind,
    pub place: LentLocation<'a>,
    pub element: i64,
}

/// An access that reads an unset byte.
#[derive(Clone, Copy)]
pub struct Unset<'a> {
    pub item: u32,
    pub kind: AccessKind,
    pub place: LentLocation<'a>,
    pub byte: u64,
}

/// An item at an element of one of its private arrays.
#[derive(Clone, Copy)]
pub struct Private<'a> {
    pub item: u32,
    pub array: &'a [u8],
    pub element: i64,
}

/// A fault, with names that are lent.
#[derive(Clone, Copy)]
pub enum LentFault<'a> {
    Conflict(Conflict<'a>),
    Divergence(Divergence<'a>),
    Bounds(Bounds<'a>),
    PrivateBounds(Private<'a>),
    Unset(Unset<'a>),
    UnsetVariable { item: u32, variable: &'a [u8] },
    UnsetElement(Private<'a>),
    DivideByZero { item: u32 },
    DivideOverflow { item: u32 },
    Budget { item: u32 },
}
