//! The tables of a kernel's code, by its instructions.
//!
//! `tables_of` gives the defined tables (`tabled`): of each register what it may hold and its name, of each private
//! array its greatest length, how many local objects and names there are, and how many loops are entered where each
//! instruction stands. It takes the types of parameters as they are given. It counts what instructions name, and knows
//! no tree; `lower`, which calls it, says that code with these tables is verified. Its only error is out of memory.
#![tactic(auto)]

mod tables;

pub use tables::tables_of;
