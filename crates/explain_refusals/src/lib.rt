//! Why a command of a script was refused, as data of `refused_commands`: a condition of its refusal that holds, with
//! the numbers and names that it compares, and the word of the command's line that it is about. Of a reason that a
//! limit, a range or a length makes it promises that it holds of the device's limits and buffers, and of the command.
//! Only tested are: which one is told where several hold, which names are known, and what the parameters of a kernel
//! are. The commands before it were done. It knows buffers, and no device.
#![tactic(auto)]

mod arguments;
mod buffers;
mod copies;
mod launches;
mod names;
mod reasons;
mod refused;
mod trees;
mod words;

pub use reasons::{Found, Refusing, reason_of};
pub use refused::{RefusedAt, refused_command};
pub use words::{refusal_words, word_of};
