//! The text of scripts and of replies, read and written.
//!
//! `read_script` gives the commands exactly where the bytes are a script of version 1, 2 or 3, each with the place
//! where it stands, else the lowest bad line (out of memory aside). Bytes have one list of commands or one lowest bad
//! line. `write_reply` writes the defined line of a reply. `RunFault` is the fault of every command of the program, and
//! the faults below become it by `?`. The crate knows commands and replies as data, and no device.
#![tactic(auto)]

mod commands;
pub mod copies;
pub mod faults;
mod fields;
mod forms;
pub mod hex;
pub mod laws;
pub mod lines;
pub mod replies;
pub mod script;
pub mod stepwise;
