//! Values of expressions.
#![tactic(auto)]

use crate::access::Object;
use clnum::{IntType, Value};

/// A pointer to elements of a type, n elements behind an object's start.
#[derive(Clone, Copy, PartialEq, Eq)]
pub struct Pointer {
    pub object: Object,
    pub element: IntType,
    pub offset: i64,
}

/// The value of an expression: a whole number or a pointer.
#[derive(Clone, Copy)]
pub enum Operand {
    Integral(Value),
    Pointed(Pointer),
}
