//! Register code as text, an instruction a line.
//!
//! `dump` writes the defined text: of each instruction its place, its name, and what it names. Its only error is a
//! writer that fails; then a beginning of the text was written. It takes no memory. The crate runs nothing, and
//! reads no text of code back. `clsim dump` shows what is written here.
#![tactic(auto)]

pub mod dumping;
mod words;

pub use dumping::{DumpFault, dump};
