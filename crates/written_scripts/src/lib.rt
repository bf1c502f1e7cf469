//! Scripts of version 3, which people write by hand, turned into plain ones.
//!
//! `plain_script` gives a plain text of version 3 of the same commands, and of each its line in the script, what it is
//! called and in which type the numbers of its reply are. It gives the lowest bad line where the script has one, and
//! passes over a text that isn't of version 3 (out of memory aside). Sources stand in the script or in files, which the
//! caller reads: `files_of` gives their paths before. What a single line says is `script_lines`', and the text of a
//! command `simfile`'s; this crate says which lines are commands and which are sources.
#![tactic(auto)]

mod files;
mod lines;
mod paths;
mod places;
mod reading;
mod telling;
mod texts;
mod turning;

pub use files::NamedFile;
pub use paths::files_of;
pub use places::{PlainScript, Turned, WrittenPlace};
pub use turning::plain_script;
