//! A script as it is told: by its own text, or by the one that a user wrote and of which it was made.
//!
//! `PlacedScript` is a text with the places of a script's commands, and with the names of the files that have sources.
//! `told_script` chooses between the script's own and another one that is given with as many places. What a text says
//! is `simfile`'s.
#![tactic(auto)]

mod placed;

pub use placed::{PlacedScript, told_script};
