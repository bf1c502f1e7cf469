//! The values of an item's registers, each of 16 bytes or unset, and the operators on them.
//!
//! A register gives back the value that was put there, or that there is none. Numbers stay 64 bits, those of a negative
//! one as its two's complement: each operator gives the value of the defined one, the fault with which a run fails
//! there, or that the run is over. `binary_word`, `unary_word` and `converted_word` give the bits of the number that
//! `clnum` defines, for all eight types and all values, or one of the two faults of a division. One addition serves all
//! types, and its sum is wrapped once: no operand is converted, and no number of 128 bits is made. The type of a result
//! is that of `binary_kind` and `unary_kind`. The crate knows no code and no item.
#![tactic(auto)]

pub mod expected;
pub mod kept_values;
pub mod operations;
pub mod operators;
pub mod pointers;
pub mod register_value;
pub mod termination;

pub use operations::{binary_word, converted_word, unary_word, wrapped_word};
