//! Groups on workers: any work in groups, drawn by 1 to 16 workers on threads and gathered in order.
//!
//! The results of `run_groups` are those of the groups in order, each once, up to and with the first that stops,
//! whatever the threads do. A group is left out only where a lower one stops. A thread that can't be started is done
//! without. An error is out of memory. The crate knows groups by its trait `Work`, and no launch.
#![tactic(auto)]

pub mod board;
pub mod crew;
pub mod gate;
pub mod gather;
pub mod run;
pub mod work;
pub mod worker;
