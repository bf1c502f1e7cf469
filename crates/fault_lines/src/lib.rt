//! Faults and the schedules after which a launch shows them, as text.
//!
//! `write` writes the defined line, with names of any length; `write_fault` and `write_schedule` write its two parts.
//! `read` gives the ticket, the fault and the runs of a schedule file, and BadText exactly where the bytes are none
//! (out of memory aside). Every `fault` reply goes through here. `kind_word` and `class_word` are the words of accesses
//! that replies and explanations share. The crate knows no device.
#![tactic(auto)]

mod access_words;
mod fields;
mod forms;
mod lent;
mod reading;
mod runs;
pub mod writing;

pub use access_words::{class_word, kind_word};
pub use reading::{ReadFault, read};
pub use writing::{write, write_fault, write_schedule};
