//! The whole numbers of OpenCL C: integer types, their values and the operators on them.
//!
//! `convert`, `unary`, `binary` and `builtin` give the defined formula for all eight types and all values: a whole
//! number, wrapped into its type, or one of the two faults of a division. `builtin` answers None exactly where the
//! arguments don't fit. A value carries its type, so no caller converts by hand. The crate knows no memory and no text.
#![tactic(auto)]

mod builtins;
mod int_type;
mod kinds;
mod operations;
mod operators;
mod values;

pub use builtins::builtin;
pub use int_type::IntType;
pub use kinds::{binary_kind, unary_kind};
pub use operations::{binary, convert, truth, unary};
pub use operators::{ArithFault, BinaryOperator, Builtin, UnaryOperator};
pub use values::Value;
