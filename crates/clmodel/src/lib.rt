//! The model: what a launch is, what its work-items may do, and what the device promises of it.
//!
//! The definitions that all crates share stand here, each once, with the plain types for trees, launches, accesses,
//! faults and schedules. The law `determinacy`: where the canonical run has no report, no schedule reaches a fault,
//! each schedule can be completed, and all complete ones leave the same buffers. Where it has one, its schedule leads
//! to a state that shows it. The words of accesses, of predefined names and of faults are those defined.
//! `Tree::name_number` gives a name's number, and `Tree::kernel` the kernel of that number, with its place.
#![tactic(auto)]

pub mod access;
pub mod action;
pub mod barrier;
pub mod declaration;
pub mod determinacy;
pub mod fault;
pub mod limit_laws;
pub mod lookup;
pub mod operand;
pub mod outcome;
pub mod run_laws;
pub mod schedule;
pub mod setup;
pub mod text;
pub mod tree;
pub mod type_fault;
