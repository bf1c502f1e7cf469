//! A fault of a launch told as data: where in the source, in whose ids, by which schedule, in which steps, and why. A
//! schedule is judged by `replay` on the device that stands before the launch, made shorter unless it is wanted as it
//! was given, and played with the places of its items, which lead back to the source. Whether there is an explanation,
//! and the errors, are those defined; so are its launch, its fault with its memory, its schedule, its items with what
//! they do, its steps, its reasons and the names of the script and of its source's file. The text of the launch's line,
//! the sizes of memory that is no buffer, the parameters, and the counts of schedules are only tested. It performs no
//! command, writes no text, and knows no script but the text by which it is told and its commands.
#![tactic(auto)]

mod facts;
mod told;

pub use facts::TellOptions;
pub use told::{ExplainedCase, LaunchedScript, explain_case};
