//! A kernel that is ready to run, as verified code with its steps, and its work-items.
//!
//! For every list of answers an item that a launch starts does what the tree says. `Item::next` gives the item's action
//! and changes none of its later ones; `Item::next_brief` says the same and copies no turns. After `answer` the item
//! makes, for each list of answers, the action of the old item for that answer followed by the list. It begins at its
//! launch's code with the ids and arguments of its number, and comes where it stands by instructions and answers alone.
//! It goes by prepared steps. The crate knows no memory: an item hands out an access as an action, and takes its
//! answer. Sizes and names of local objects are those defined, and so is whether they pass the limit of a device
//! together. A launch asks for fewer than 2^32 buffers, and for local objects for which some device has room.
#![tactic(auto)]

mod accessing;
mod asking;
mod brief_action;
mod dividing;
mod item;
mod launch;
mod local_objects;
mod rest;
mod run;
mod setup;

pub use brief_action::BriefAction;
pub use item::Item;
pub use item_value::item_context::ItemContext;
pub use launch::Launch;
pub use local_objects::is_local_too_large;
pub use setup::Setup;
