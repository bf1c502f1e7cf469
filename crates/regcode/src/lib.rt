//! Register code: the instructions that a work-item runs, what they do, and which code is verified.
//!
//! `verify` accepts exactly the code that meets the rules. The law `never_sticks`: verified code stays inside, keeps
//! the types of its registers, names nothing but entries of its tables, goes back only to turns of loops, and stops
//! only at its end. A register that is read unset is the fault unset, with the name that the tables give the register.
#![tactic(auto)]

pub mod code;
pub mod instruction;
pub mod judge;
mod kinds;
pub mod machine_laws;
mod rules;
pub mod safety;
pub mod tables;

pub use code::Code;
pub use instruction::{FetchOperands, Instruction};
pub use judge::{VerifyFault, verify};
pub use tables::{Register, RegisterKind, Tables};
