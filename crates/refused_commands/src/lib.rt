//! A command that was refused, as plain data and as text: its place in the script, the refusal, a sentence that says
//! why, and the line with carets. Of the text it promises the place and the refusal; the wording and the carets are
//! only tested. It knows no device, and neither how a reason is found.
#![tactic(auto)]

mod told;
mod whole;
mod words;

pub use told::{Divided, Limited, MadeName, NameKind, RefusalReason, RefusedCommand, WordSpot};
pub use whole::{refusal_reason_text, refused_text, refused_title};
