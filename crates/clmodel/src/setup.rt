//! What a launch is asked with: its range and its kernel's arguments, and the built-in functions of the language.
#![tactic(auto)]

ghost use Rattle.std.specs.Prelude.{◌≡◌, slice_get};
ghost use Rattle.clmodel.specs.BuiltIns.{built_in, meanings, meaning_of_place};
ghost use Rattle.clmodel.specs.Next.{is_update};
ghost use Rattle.clmodel.specs.Typing.Context.{is_reserved};

use crate::action::Fences;
use crate::setup::BuiltIn::{Atomic, Integer, WorkDim, WorkItem};
use crate::setup::Predefined::Function;
use crate::setup::WorkItemFunction::{
    GlobalId, GlobalOffset, GlobalSize, GroupId, LocalId, LocalSize, NumGroups,
};
use crate::text::{Name, Numbers};
use clnum::Builtin;

/// An index space (OpenCL 1.2, section 3.2): in each dimension the number of work-items, the number in a work-group,
/// and the offset that is added to the global ids. And whether the launch is uniform: two stores of different items
/// that leave the same byte don't conflict there.
#[derive(Drop)]
pub struct Range {
    pub global: Numbers,
    pub local: Numbers,
    pub offset: Numbers,
    pub uniform: bool,
}

/// An argument of a kernel: a buffer for a pointer to global or constant memory, a number for an integer, a size in
/// bytes for a pointer to local memory.
#[derive(Drop)]
pub enum Argument {
    Buffer(Name),
    Value(i128),
    Local(u64),
}

/// What a work-item asks of its index space in one dimension (OpenCL 1.2, section 6.12.1).
#[derive(Clone, Copy, PartialEq, Eq)]
pub enum WorkItemFunction {
    /// `get_global_id(d)`
    GlobalId,
    /// `get_local_id(d)`
    LocalId,
    /// `get_group_id(d)`
    GroupId,
    /// `get_global_offset(d)`
    GlobalOffset,
    /// `get_global_size(d)`
    GlobalSize,
    /// `get_local_size(d)`
    LocalSize,
    /// `get_num_groups(d)`
    NumGroups,
}

/// An atomic function on 32 bits (OpenCL 1.2, section 6.12.11).
#[derive(Clone, Copy, PartialEq, Eq)]
pub enum AtomicFunction {
    /// `atomic_add(p, v)`
    Add,
    /// `atomic_sub(p, v)`
    Sub,
    /// `atomic_min(p, v)`
    Min,
    /// `atomic_max(p, v)`
    Max,
    /// `atomic_and(p, v)`
    And,
    /// `atomic_or(p, v)`
    Or,
    /// `atomic_xor(p, v)`
    Xor,
    /// `atomic_inc(p)`
    Inc,
    /// `atomic_dec(p)`
    Dec,
    /// `atomic_xchg(p, v)`
    Exchange,
    /// `atomic_cmpxchg(p, c, v)`
    CompareExchange,
}

impl AtomicFunction {
    /// Whether it is an update where its call is a whole statement: each but exchange and compare-exchange.
    pub fn is_update(self) -> bool
        ensures { result ≡ is_update self }
    {
        match self {
            AtomicFunction::Exchange | AtomicFunction::CompareExchange => false,
            _ => true,
        }
    }
}

/// A built-in function (OpenCL 1.2, sections 6.12.1, 6.12.3 and 6.12.11).
#[derive(Clone, Copy)]
pub enum BuiltIn {
    /// `get_work_dim()`
    WorkDim,
    WorkItem(WorkItemFunction),
    /// A function of integers alone
    Integer(Builtin),
    Atomic(AtomicFunction),
}

/// What a name means without a declaration: a built-in function, the barrier, or what a barrier fences (OpenCL 1.2,
/// section 6.12.8).
#[derive(Clone, Copy)]
pub enum Predefined {
    Function(BuiltIn),
    Barrier,
    Fence(Fences),
}

/// The names that have a meaning without a declaration. A tree's table of names begins with these, in this order.
pub static PREDEFINED: [(&[u8], Predefined); 28] = [
    (b"get_work_dim", Function(WorkDim)),
    (b"get_global_id", Function(WorkItem(GlobalId))),
    (b"get_local_id", Function(WorkItem(LocalId))),
    (b"get_group_id", Function(WorkItem(GroupId))),
    (b"get_global_offset", Function(WorkItem(GlobalOffset))),
    (b"get_global_size", Function(WorkItem(GlobalSize))),
    (b"get_local_size", Function(WorkItem(LocalSize))),
    (b"get_num_groups", Function(WorkItem(NumGroups))),
    (b"min", Function(Integer(Builtin::Min))),
    (b"max", Function(Integer(Builtin::Max))),
    (b"abs", Function(Integer(Builtin::Abs))),
    (b"clz", Function(Integer(Builtin::Clz))),
    (b"popcount", Function(Integer(Builtin::Popcount))),
    (b"rotate", Function(Integer(Builtin::Rotate))),
    (b"barrier", Predefined::Barrier),
    (b"atomic_add", Function(Atomic(AtomicFunction::Add))),
    (b"atomic_sub", Function(Atomic(AtomicFunction::Sub))),
    (b"atomic_min", Function(Atomic(AtomicFunction::Min))),
    (b"atomic_max", Function(Atomic(AtomicFunction::Max))),
    (b"atomic_and", Function(Atomic(AtomicFunction::And))),
    (b"atomic_or", Function(Atomic(AtomicFunction::Or))),
    (b"atomic_xor", Function(Atomic(AtomicFunction::Xor))),
    (b"atomic_inc", Function(Atomic(AtomicFunction::Inc))),
    (b"atomic_dec", Function(Atomic(AtomicFunction::Dec))),
    (
        b"CLK_LOCAL_MEM_FENCE",
        Predefined::Fence(Fences {
            local: true,
            global: false,
        }),
    ),
    (
        b"CLK_GLOBAL_MEM_FENCE",
        Predefined::Fence(Fences {
            local: false,
            global: true,
        }),
    ),
    (b"atomic_xchg", Function(Atomic(AtomicFunction::Exchange))),
    (
        b"atomic_cmpxchg",
        Function(Atomic(AtomicFunction::CompareExchange)),
    ),
];

/// The meaning at a place of a table.
fn meaning_in(table: &[(&[u8], Predefined)], place: usize) -> Option<Predefined>
    ensures { result ≡ slice_get (meanings table.now) place }
{
    match table.get(place) {
        Some(entry) => Some(entry.1),
        None => None,
    }
}

/// What a name means by its place in a tree's table of names, if it is predefined.
pub fn meaning_of_place(name: u32) -> Option<Predefined>
    ensures { result ≡ meaning_of_place name }
{
    meaning_in(&PREDEFINED, name as usize)
}

/// The built-in function of a name, by its place in a tree's table of names.
pub fn built_in_named(name: u32) -> Option<BuiltIn>
    ensures { result ≡ built_in name }
{
    match meaning_of_place(name) {
        Some(Predefined::Function(function)) => Some(function),
        _ => None,
    }
}

/// Whether nothing else can have a name, since it is predefined.
pub fn is_reserved(name: u32) -> bool
    ensures { result ≡ is_reserved name }
{
    (name as usize) < PREDEFINED.len()
}
