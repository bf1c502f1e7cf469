//! Why a fault that was played comes about, as data. A reason is told only where it holds, and none behind another one
//! that holds. Where a barrier or the nearest store stands in the source, how many elements an object has, and which
//! loops made turns, are only tested. It knows a launch with its source, and neither words a reason nor performs a
//! command.
#![tactic(auto)]

mod arrays;
mod budget;
mod reasons;
mod turns;
mod unset;

pub use arrays::{PrivateArray, array_of};
pub use reasons::reasons_of;
