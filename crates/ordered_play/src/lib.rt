//! The ordered run of a launch, over one memory that all work-items share (own, on OpenCL 1.2, sections 3.2, 3.3.1 and
//! 6.12.11).
//!
//! `run_ordered` makes exactly the events of the ordered run, group after group, and answers them as a schedule: with
//! what the run leaves in the buffers, or with its report, which the schedule leads to (out of memory aside). It asks
//! for whole groups with items and budgets below 2^32, and leaves the buffers that it is given. `step_item` is one
//! item's turn in whatever order: it makes its next access, and tells a race of that access, or where it waits, or the
//! fault that keeps it. `newest_race` is the race of a log's last access, exactly as defined, by a search among all
//! earlier ones.
//!
//! The crate plays events by the player of `replay`, and uses neither overlays nor the runner of groups. It says
//! nothing of other orders.
#![tactic(auto)]

mod groups;
mod ordered;
mod races;
mod stepping;
mod watching;

pub use ordered::{OrderedEnd, run_ordered};
pub use races::newest_race;
pub use stepping::{Stepped, step_item};
pub use watching::Watched;
