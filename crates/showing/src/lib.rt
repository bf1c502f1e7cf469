//! How the replies to commands are shown: behind the number of their command's line, and bytes as numbers of a type.
//!
//! `write_next` writes the defined line of a reply. Of bytes that were read it shows the numbers that loads of the type
//! are answered, where these take up all the bytes; every other reply has the line that `simfile` writes. The crate
//! knows replies as data: which line a command has, and which type it names, is its caller's.
#![tactic(auto)]

mod lines;
mod numbers;

pub use lines::{Shown, behind, write_next};
