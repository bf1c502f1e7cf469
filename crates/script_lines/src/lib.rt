//! Lines of scripts of version 3, which people write by hand.
//!
//! A line may have blanks, a comment behind `#`, and the line end of another system. `line_says` gives exactly what
//! it says: nothing, a command as plain scripts of version 3 have it, a `write`, a `fill` or a `read` of numbers in
//! decimal, or the beginning of a program whose source follows or is that of a file. A line that says nothing of these
//! has none (out of memory aside). `plain_text` gives a line without its blanks and its comment, `comment_of` what a
//! launch is called, `is_version_line` finds the first line of such a script, and `ends_source` the line that ends a
//! source. The crate reads single lines: which lines are those of a source is its caller's, and so are the files.
#![tactic(auto)]

mod forms;
mod numbers;
mod plain;
mod reading;
mod says;

pub use plain::{comment_of, ends_source, is_version_line, plain_text};
pub use reading::line_says;
pub use says::LineSays;
