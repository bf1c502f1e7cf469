//! An explanation as text for a terminal: the fault, its items with the lines of source under carets, the reason, the
//! steps, and the schedule. It knows an explanation as data alone, and neither a launch nor a source. It promises the
//! number of the fault, each item with its ids and places, a line for each reason, each step behind its number or
//! counted, and the schedule, in their order, in lines that have no line feed of their own; the wording and the carets
//! are only tested. It alone words reasons.
#![tactic(auto)]

mod items;
mod lines;
mod quotes;
mod reasons;
mod steps;
mod whole;

pub use lines::{ids_text, numbers_text, place_text};
pub use quotes::write_quote;
pub use reasons::reason_text;
pub use whole::text_of;
