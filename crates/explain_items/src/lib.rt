//! The items that a fault names, each with its ids and where it stands in the source, as an explanation tells them:
//! where an instruction's own expression or statement begins, with the loops and calls round it. The items are those of
//! the fault, with the ids, places, calls and turns that are defined. What each does is the access or the stop of the
//! fault's line, and the number of its event that of the event which made its access. The ids are what `get_global_id`,
//! `get_local_id` and `get_group_id` give an item, in each dimension of its launch. The crate knows a launch with its
//! source, and performs no command.
#![tactic(auto)]

mod context;
mod events;
mod item_ids;
mod named;

pub use context::Context;
pub use events::{is_access, is_release, stand_at};
pub use item_ids::ids_of;
pub use named::named_items;
