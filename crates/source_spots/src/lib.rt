//! Places of a source as an explanation tells them: with lines and columns in source and script, the text of the line,
//! the length of what stands there, and the calls and loops round it. It knows a tree and the bytes of its source, and
//! no code. Lines, columns, the text of the line, the calls and the turns of the loops are those defined; the length
//! and which loops are told are only tested.
#![tactic(auto)]

mod kinds;
mod loops;
mod places;
mod spots;

pub use kinds::{expression_kind, statement_kind, target_kind};
pub use loops::{DEPTH, function_at, inside, last_begun, statement_at};
pub use places::Source;
pub use spots::{code_of, spot_of};
