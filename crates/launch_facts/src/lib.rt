//! What is told of a fault and of its launch without playing it.
//!
//! Of a fault: its number and name, its words, the items that it names, and its place in memory. Of its launch, by the
//! commands before it: the source of its program with its line in the script, and the parameters that are given a
//! buffer. The crate knows commands as data, with the place of each and whether it was done, the text of a fault's line
//! by `fault_lines`, and no device.
#![tactic(auto)]

mod commands;
mod gathered;
mod lines;
mod numbers;
mod parameters;

pub use commands::{ProgramSource, source_of};
pub use gathered::Gathered;
pub use lines::{fault_words, schedule_words};
pub use numbers::{fault_name, fault_number, memory_of, named_items};
pub use parameters::{parameters_given, parameters_named, type_text};
