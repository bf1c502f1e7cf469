//! Hints at the first token of a source at which no program goes on, by the tokens round it. The table of rules is the
//! definition: the hint at a place is that of the first rule that fits, and the contracts say exactly when a rule fits.
//! The crate knows a source and its tokens alone, and neither faults nor a tree.
#![tactic(auto)]

mod marks;
mod near;
mod rules;
mod seen;

pub use marks::{Mark, mark_at};
pub use near::{TokensAround, callee, nth, nth_last, place_in, word_of};
pub use rules::token_hint;
