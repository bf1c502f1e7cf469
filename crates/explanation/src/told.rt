//! An explanation and what it tells of the launch, the fault, the memory and the items.
#![tactic(auto)]

use crate::places::Spot;
use crate::reasons::Reason;
use crate::steps::{ScheduleFacts, ToldEvent};
use clmodel::access::AccessKind;

/// The launch of a fault: the number of its command from 0, which is its ticket, its line in the script, and what it
/// runs over which index space.
#[derive(Drop)]
pub struct LaunchFacts {
    pub command: u64,
    pub script_line: usize,
    /// The text of that line
    pub text: String,
    pub kernel: String,
    pub function: String,
    pub program: String,
    pub global_size: Vec<u64>,
    pub local_size: Vec<u64>,
    pub offset: Vec<u64>,
    pub uniform: bool,
    /// Whether the launch has `orders`, so that a conflict of kind order is no report (own)
    pub orders: bool,
    pub budget: u32,
}

/// A fault: its number and its name as a reply has them, and its line without the schedule.
#[derive(Drop)]
pub struct FaultFacts {
    pub number: u32,
    pub name: String,
    pub line: String,
}

/// What kind of memory a fault is about.
#[derive(Clone, Copy, Debug, PartialEq, Eq)]
pub enum MemoryKind {
    Buffer,
    /// A local object of this group
    Local(u32),
    /// A private array
    Private,
    /// A private variable
    Variable,
}

/// The parameter that an argument is for: its index from 0, its name and its type, and of a pointer the element of its
/// type in which the byte lies that a fault is about, from 0.
#[derive(Drop)]
pub struct ParameterFacts {
    pub index: usize,
    pub name: String,
    pub type_name: String,
    pub element: Option<u64>,
}

/// The memory that a fault is about, with the byte or the element that it names.
#[derive(Drop)]
pub struct Memory {
    pub kind: MemoryKind,
    pub name: String,
    pub byte: Option<u64>,
    pub element: Option<i64>,
    /// How many bytes the object has
    pub size: Option<u64>,
    pub parameters: Vec<ParameterFacts>,
}

/// An item's ids, in as many dimensions as the launch has (OpenCL 1.2, section 3.2).
#[derive(Drop)]
pub struct Ids {
    pub global: Vec<u64>,
    pub local: Vec<u64>,
    pub group: Vec<u64>,
}

/// What an item does in a fault.
#[derive(Drop)]
pub enum Does {
    Access(AccessKind),
    /// It waits at the barrier of this number, in these turns of the loops round it, the outermost first.
    Waits { barrier: u32, turns: Vec<u32> },
    Ended,
    /// It can't go on.
    Fails,
}

/// An item that a fault names.
#[derive(Drop)]
pub struct NamedItem {
    pub item: u32,
    pub ids: Ids,
    pub does: Does,
    /// The number of its event from 1, where what it does is an event of the short schedule, and not what it would do
    /// next
    pub event: Option<usize>,
    /// Where it does this
    pub spot: Option<Spot>,
    /// Where its last access was made, of an item that has ended
    pub last: Option<Spot>,
}

/// An explanation of a fault.
#[derive(Drop)]
pub struct Explanation {
    /// The script's name, as on the command line
    pub script: String,
    pub launch: LaunchFacts,
    pub fault: FaultFacts,
    pub memory: Option<Memory>,
    /// One or two
    pub items: Vec<NamedItem>,
    /// Why it comes about
    pub why: Vec<Reason>,
    pub schedule: ScheduleFacts,
    /// The events of the short schedule, in their order, each told or counted
    pub steps: Vec<ToldEvent>,
}
