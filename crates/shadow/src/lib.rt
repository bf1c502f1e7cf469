//! How the bytes of a launch's buffers were accessed by the work-groups so far, kept so that an access of a further
//! group is judged exactly: whatever the number of groups and accesses, it takes memory for the bytes that they
//! touched.
//!
//! `Footprint::meeting` answers exactly the defined conflict of one more access, by another group, with all accesses so
//! far (the lowest byte, there the earliest access), and none for a local object. `is_written` says whether a byte was
//! written. `add` keeps an access, and answers false only where it changes no mark. An error leaves the footprint.
//! `AccessSummary::of` stands for its log: it leaves out accesses of local objects, and those that change no mark of
//! their group's own. The crate knows no memory and no schedule.
#![tactic(auto)]

mod footprint;
mod group_accesses;
mod pages;
mod seen;
mod words;

pub use footprint::Footprint;
pub use group_accesses::{AccessSummary, GroupAccesses};
pub use seen::{Mark, Meeting, mark_clash, mark_of, one_sort};
pub use words::{WordMark, agrees, byte_mark, word_mark};
