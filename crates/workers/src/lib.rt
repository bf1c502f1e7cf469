//! The run of a launch by several workers.
//!
//! `run_parallel` comes to what `run_launch` comes to, for every number of workers from 1 to 16 and every gate, or is
//! out of memory. The groups run in rounds; each round is joined in the order of its groups and let go. No clause says
//! that workers overlap.
#![tactic(auto)]

mod group_calls;
mod overlap;
mod round;
mod round_size;
mod run;
mod shares;
mod spare;
mod units;

pub use run::run_parallel;
pub use workers_draw::gate::{Gate, OpenGate};
