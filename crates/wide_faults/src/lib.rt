//! Whether the faults of a script are in their kernels or in their data.
//!
//! `fault_asides` tells it of each fault, for who explains it. That a fault is said to be in its kernel only where the
//! launch has it, by the same schedule, with whatever bytes and numbers, is proved (`laws`); the places where the data
//! decide are only tested. Of a launch with `orders` it says that nothing is said for other data.
#![tactic(auto)]

mod faults;
pub mod laws;

pub use faults::fault_asides;
