//! What is told of arguments and buffers.
#![tactic(auto)]

use explanation::Code;
use widening::Why;

/// An argument for all of whose numbers the reply to a launch holds.
#[derive(Drop)]
pub struct FreeArgument {
    pub index: usize,
    /// The name of the parameter in the source
    pub name: String,
}

/// A source of numbers on which the reply to a launch may depend, and the first place where it decides.
#[derive(Drop)]
pub struct Deciding {
    /// The name of the buffer in the script, or of the argument's parameter in the source
    pub name: String,
    /// The index of an argument; None of a buffer
    pub index: Option<usize>,
    pub why: Why,
    /// Where it decides, if that is known
    pub code: Option<Code>,
    /// The name of the file in which that is, where it is another one than the script's
    pub file: Option<String>,
}
