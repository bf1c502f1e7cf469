//! One work-group's canonical run.
//!
//! `run_group` makes exactly the events of the group's canonical run. It ends with the group's report, or with all
//! items ended and with what the spaces hold. It asks for whole groups with items and budgets below 2^32, for spaces
//! that hold the buffers' bytes, and for an empty log. A group that makes 2^32 events ends as one that is out of
//! memory. It knows a launch by what the launch says of itself, spaces and logs by their traits, and no other group.
#![tactic(auto)]

mod brief_stop;
mod faults;
mod group;
mod loops;
mod machine;
mod result;
mod running;
mod runs;

pub use faults::{bounds_fault, conflict_fault, fault_of, unset_fault};
pub use result::{GroupEnd, GroupResult};
pub use running::run_group;
pub use runs::Runs;
