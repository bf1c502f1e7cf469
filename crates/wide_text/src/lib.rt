//! For which bytes and numbers the replies to a script hold, as text and as JSON.
//!
//! `widen` reads a script, performs it (`wide_scripts`), and writes the replies; behind each launch for which bytes of
//! its buffers and which numbers of its arguments the reply holds, and where the others decide; and at the end for all
//! bytes of which writes and fills all replies hold. The script, its replies, the lines of the free commands and of the
//! reads that may differ, and the errors are those defined. What is told behind a launch is only tested; that it stands
//! in lines which no reply has is proved. The crate knows no file and no option's text.
#![tactic(auto)]

mod asides;
mod data;
mod gathering;
mod json;
mod lines;
mod text;
mod told_launches;
mod widened;

pub use data::{Format, FreeBuffer, WideEnd, WideLaunch, WideReport};
pub use json::json_of;
pub use text::text_of;
pub use wide_sources::{Deciding, FreeArgument};
pub use widened::{status, widen};
