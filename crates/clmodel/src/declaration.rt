//! What a name can be declared as.
#![tactic(auto)]

use crate::tree::VariableType;
use clnum::IntType;

/// What a name is declared as (OpenCL 1.2, sections 6.5.2 and 6.5.4).
#[derive(Clone, Copy)]
pub enum Declaration {
    /// A variable or a parameter of a type
    Single(VariableType),
    /// An array of elements of a type in local memory
    LocalArray(IntType),
    /// An array of elements of a type in private memory
    PrivateArray(IntType),
}
