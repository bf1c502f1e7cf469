//! For which bytes and numbers a launch's verdict holds.
//!
//! `widen` finds buffers and arguments on which neither a branch, an address, a divisor nor the like of the kernel's
//! code depends, by a search that nothing rests on, and checks what it found by labels (`same_items`). What it
//! promises: with any other bytes of these buffers and numbers of these arguments, each schedule is possible in both
//! launches or in neither, shows the same faults, and leaves the same in the other buffers; so the verdict is the same.
//! It tells the first place of the code at which each other source decides, of which nothing is promised. The crate
//! knows code and a launch's arguments, and neither a tree nor a device.
#![tactic(auto)]

mod checker;
mod decisions;
mod flows;
mod found;
mod free;
mod kinds;
mod known;
mod labels;
pub mod laws;
mod row;
mod search;
mod searched;
mod step;
pub mod wide;

pub use decisions::{Decision, Source, Why};
pub use free::Free;
pub use wide::{Wide, widen};
