//! What names stand for at a place of a program, and the types and the faults of expressions there (OpenCL 1.2,
//! sections 6.2, 6.3, 6.9 and 6.12; C99 6.2.1 and 6.2.3).
//!
//! A name stands for what the innermost scope that has it declares, else for a function, else for a predefined one. An
//! expression has its type exactly where it has no fault; else its first fault is answered. Names are numbers here: the
//! table of names begins with the predefined ones.
#![tactic(auto)]

mod context;
mod expressions;
mod faults;
mod flags;
pub mod kinds;
mod meaning;
mod names;
mod values;

pub use context::Context;
pub use expressions::checked;
pub use faults::{
    CallPlace, TypedOperand, front_fault, integer_fault, lesser, moves, name_fault, passing_fault,
    pointer_fault,
};
pub use meaning::{Meaning, Signature};
pub use names::Identifier;
pub use values::{check_call, check_expression, check_value, void_fault};
