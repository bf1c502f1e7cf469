//! Code whose table of registers has no more of them than its instructions name: it acts as the code that it is made
//! from.
//!
//! `renumber` takes verified code and gives verified code: the given instructions with other registers. For each
//! launch, item and list of answers the new code makes the action that the given one makes. It names each register of
//! its table (where the given table has fewer than 2^32 entries). All other tables are the same. Its only error is out
//! of memory. The crate knows no tree. `device` calls it after `lower`, since a work-item keeps 16 bytes for each
//! register of the table.
#![tactic(auto)]

mod numbering;
mod renamed;
mod renumbered;

pub use renumbered::renumber;
