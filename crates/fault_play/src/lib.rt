//! A fault that is played: its schedule made shorter, and played with where the item of each event stands.
//!
//! `shorter` shortens a schedule that leads a launch to a fault; `replay` judges each candidate. `play` plays one, and
//! tells its events with the numbers that their accesses find and leave, its accesses, the two that conflict, and where
//! the items stand that the fault names. Where an item stands is an instruction and the turns of the loops round it:
//! those of the item's machine, to which the launch's code comes from the item's start, with the answers that it had.
//! One `Player` of `replay` plays and tells all of it. The crate knows a launch and its buffers by what `launches` says
//! of them, and neither a tree nor a source.
#![tactic(auto)]

mod judging;
mod marks;
mod played;
mod short_way;

pub use marks::{Mark, dividend_of, mark_schedule, stand_of};
pub use played::{Played, Standing, Touch, event_of, last_of, play};
pub use replay::{Pair, Stand, same_location};
pub use short_way::shorter;
