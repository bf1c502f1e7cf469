//! The register code of expressions and of the targets of assignments.
//!
//! Each function writes exactly the defined code where it succeeds; `expressions_run` is the law that this code acts as
//! the expression.
//!
//! Code is written forward, since the type of a value, which its register depends on, is known only after its operands.
//! A jump past code that isn't written yet is written as a jump by 0, and set once that code is there.
//!
//! The only error is out of memory. Code that was lent is only longer then: it begins with what was there. The levels
//! below 2^28 have registers, and an expression needs no more levels than it has nodes; so each function asks that its
//! level and the nodes are below that. Then each jump has a length of 32 bits too, since a node has at most six
//! instructions.
#![tactic(auto)]

pub mod destinations;
pub mod emission;
pub mod expression_laws;
pub mod instructions;
mod jumps;
pub mod scope;
