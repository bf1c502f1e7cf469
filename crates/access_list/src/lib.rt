//! Access logs of work-groups, which find the accesses that conflict.
//!
//! `note` answers exactly the conflict of the canonical report (the lowest byte, there the earliest access), by the
//! rule of the log's launch, uniform or not. An error leaves the log as it was. `ListLog` is a log that keeps each
//! access once; its `conflicts_with` compares all pairs of two groups' accesses, and only tests call it. Its index,
//! `Cells`, summarizes the accesses to each word of four bytes, or to each byte of a word that was accessed in part.
//! `Entry::of` makes the access of an operation, for all crates.
#![tactic(auto)]

mod cells;
mod compare;
mod index;
mod keys;
mod kinds;
pub mod list;
pub mod log;
mod marks;
mod recent;
mod search;
mod sizes;
mod word;

pub use compare::{byte_of, hit_between, left_at};
pub use keys::object_number;
pub use kinds::{both_store, clash, kind_number};
pub use list::ListLog;
pub use log::{AccessLog, Accesses, Entry, Fenced, Hit, Logged, stamped};
pub use search::{hit, is_same};
pub use sizes::{BYTE_BITS, BYTE_VALUES, VALUE_BYTES, WORD_BYTES, WORD_VALUES};
