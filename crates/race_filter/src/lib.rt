//! Whether an access can race with earlier ones, by what these have in common at its bytes (own, on OpenCL 1.2, section
//! 3.3.1).
//!
//! `RaceFilter::pass` notes an access, and says of it that it races with none of those noted before: where all of them
//! at its words of 4 bytes are its own item's, where they and it are loads, where they and it are atomic, or where they
//! and it store the same in a uniform launch. Where all are of its work-group, those of lower intervals don't count,
//! since a barrier orders them; where all touch one byte, and it too, those at other bytes don't. It says so of no
//! access that has a race. Where it doesn't say so there may be one or none: items that store in one word at different
//! pairs of bytes, say. It takes memory for the words and bytes that were accessed, however many accesses there are.
//! The crate knows launches by their definitions alone.
#![tactic(auto)]

mod filter;
mod kept;
mod part;
mod sort;

pub use filter::RaceFilter;
