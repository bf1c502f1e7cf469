//! The words of the command line: its forms, as clap reads them, and what an invocation asks for.
//!
//! `command` answers what the words ask for by their form, and an error of clap's where they are none of it or have a
//! value that asks for nothing. It knows nothing of scripts, devices and files.
#![tactic(auto)]

pub mod forms;
pub mod options;
pub mod wish;

pub use forms::{Invocation, command};
pub use options::Options;
pub use wish::{ExplainWish, ExploreWish};
