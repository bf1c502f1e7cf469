//! Names of what a launch's reply depends on and of what it doesn't, and places in the sources of a script.
//!
//! `Sources` goes over the commands of a script, and builds a program for the places that are told of its kernels. What
//! is told is data (`Deciding`, `FreeArgument`), and words in one line. That words have no line feed is proved; that a
//! place is the first one where a source decides, and that names are the right ones, is only tested.
#![tactic(auto)]

mod data;
mod deciding;
mod flags;
mod replies;
mod sources;
mod words;

pub use data::{Deciding, FreeArgument};
pub use deciding::{all_deciding, free_arguments, text_of};
pub use flags::is_set;
pub use replies::{is_fault, is_refused};
pub use sources::{LaunchSource, Sources};
pub use words::{push_arguments, push_deciding, push_in_line, why_word};
