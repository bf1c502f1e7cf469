//! Explanations of a source that doesn't build, as data and as text: its line with a caret, a title that says what is
//! wanted there, and, where the text is OpenCL C that the language lacks, a hint how to write it. The contracts say
//! where the fault lies, its title, and its hint, by the tables of `opencl_words` and `hint_rules`; how far carets go
//! is only tested. The crate knows faults and tokens, and neither a tree nor a device.
#![tactic(auto)]

mod faults;
mod hints;
mod refusals;
mod titles;

pub use faults::Refused;
pub use refusals::{Refusal, refusal_of, refusal_text};
