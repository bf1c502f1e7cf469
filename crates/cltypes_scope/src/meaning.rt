//! What a name can stand for.
#![tactic(auto)]

use clmodel::declaration::Declaration;
use clmodel::setup::BuiltIn;
use clmodel::tree::VariableType;
use clnum::IntType;

/// What a call of a function of the text has to know of it.
#[derive(Drop)]
pub struct Signature {
    pub is_kernel: bool,
    /// The type of the value that it gives, if it gives one
    pub result: Option<IntType>,
    /// The types of its parameters
    pub parameters: Vec<VariableType>,
}

/// What a name stands for.
#[derive(Clone, Copy)]
pub enum Meaning<'a> {
    /// A variable, a parameter or an array
    Bound(Declaration),
    /// A function of the text before this one
    Callable(&'a Signature),
    /// The function whose text this is
    Current(&'a Signature),
    BuiltInFunction(BuiltIn),
    /// The barrier
    Barrier,
    Unknown,
}
