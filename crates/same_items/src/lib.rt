//! Two runs of one code on numbers that may differ: labels of registers that, where they fit the code, make both items
//! act alike.
//!
//! A `Label` says what two runs have in a register at a place of the code: nothing, the same number, numbers that may
//! differ, or a pointer to bytes that are the same or may differ. `Flows` (specs) is the rule of one instruction, and
//! `AreLabels` asks it of each place. The law `items_are_same`: where labels fit, two items whose arguments and answers
//! differ only where labels allow make actions that differ only in the numbers that they write into free objects.
#![tactic(auto)]

pub mod label;
pub mod laws;

pub use label::Label;
