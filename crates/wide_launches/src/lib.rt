//! For which bytes of buffers and numbers of arguments the machine's reply to a launch holds.
//!
//! `widen_launch` asks it of a launch's code and arguments. With any other bytes of the buffers that it answers, and
//! any other numbers of the arguments, the reply to the launch is `clean`, or the same fault with the same schedule,
//! and the buffers that it doesn't answer hold the same bytes after both. The crate performs no command.
#![tactic(auto)]

mod launch;
pub mod laws;

pub use launch::widen_launch;
pub use widening::{Decision, Source, Why, Wide};
