//! Runs of a launch in which what depends on the order of atomic operations is no fault: the canonical order over one
//! memory, each work-group on what the lower groups left (own, on OpenCL 1.2, sections 3.3.1 and 6.12.11).
//!
//! The ordered run reports a race, and each fault that is no conflict, as the canonical run does, and goes on over a
//! conflict of kind order. The laws say what it is: it never sticks, it ends, there is one, its schedule is one
//! interleaving, and its report is one that its schedule leads to. Where no two accesses in it conflict as order, it is
//! the canonical run, and the launch is clean; a launch whose canonical run ends otherwise than by order has that end.
//! The crate knows launches by their definitions alone, and no code.
#![tactic(auto)]

pub mod laws;
