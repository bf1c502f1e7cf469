//! Lines of a text: the fields of a line, and where a byte stands.
//!
//! Each function for a field reads it exactly where it stands in front of the bytes, and leaves those behind it. A name
//! has at most as many bytes as are asked, a number is below 2^64 without leading zeros (a signed one from -2^63), and
//! the numbers of a list are below a limit.
//!
//! `line_feeds` counts lines, `position_of` gives the line and column of a byte, `line_text` what a line holds, and
//! `extent` how far what begins at a byte extends, for carets under it. Lines and columns are those defined by counting
//! line feeds; extents are only kept inside of the source. The crate knows bytes alone, and no other crate.
#![tactic(auto)]

mod extents;
mod feeds;
mod lines;
mod lists;
mod names;
mod numbers;
mod words;

pub use extents::{SourceForm, extent};
pub use feeds::line_feeds;
pub use lines::{LineAndColumn, line_text, position_of};
pub use lists::{list_before, list_below, number_below};
pub use names::{name_before, name_to};
pub use numbers::{number_at, number_before, value_at};
pub use words::after;
