//! For which bytes of its writes and fills the replies to a script hold.
//!
//! `widen_script` performs a script. With any other bytes of the writes and fills that it answers, each reply is the
//! same: what launches answer, by `widen_launch`, refusals, and the bytes of all reads but those that it names. A
//! command puts what may differ into a buffer, a copy and a launch carry it on, and no launch may have it in a buffer
//! that isn't free there, as none is in a launch with `orders`. `walk` tests that along the notes of a script; its law
//! is over runs of the machine.
#![tactic(auto)]

pub mod laws;
mod note;
mod performed;
mod script;
mod search;
mod taint;
mod walks;

pub use note::Note;
pub use script::{WideScript, widen_script};
pub use walks::walk;
pub use wide_launches::{Decision, Source, Why, Wide};
