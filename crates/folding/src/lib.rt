//! What is known of an expression before it runs: its type, and its value where it is constant.
//!
//! A constant expression is one of numbers, operators, casts, choices and functions of integers (C99 6.6). Its value is
//! worked out from those of its parts, each of which is given as `None` where it isn't constant, so that whoever walks
//! a tree asks once at each node. What would fault has no value here, and what isn't evaluated, as the branch that
//! isn't chosen, needn't have one.
//!
//! It promises that evaluation goes on with that value, without an action or a fault (`constants_evaluate`). It knows
//! nothing of code.
#![tactic(auto)]

pub mod constants;
mod known;
pub mod laws;
mod types;

pub use known::Known;
pub use types::{base_type, call_type, infix_type};
