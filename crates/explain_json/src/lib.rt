//! An explanation as JSON, a source that doesn't build: its fault, where it lies, and what to write; and a command that
//! was refused. It knows them as data alone. What it writes, by the kit's `serde_json`, is one line: the writer's text
//! of the value that was made of the data, whose member `version` is 3. It reads back as this value. The sentences are
//! those of `explain_text`.
#![tactic(auto)]

mod commands;
mod items;
mod memory;
mod object;
mod places;
mod reasons;
mod refusals;
mod steps;
mod values;
mod whole;

pub use commands::command_json;
pub use refusals::{refusal_value, refused_json};
pub use whole::{json_of, value_of};
