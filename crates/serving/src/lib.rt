//! Commands that are heard from a peer one by one, and replies that are told to it.
//!
//! A `Server` hears the text of a command, line by line, gives the command, and tells the reply's line; the caller does
//! the command in between. Each contract says which events of the peer's talk a call made, so that a caller's loop is
//! known to tell each reply before it hears the next command. There may be any number of commands. A line that begins
//! no command's text ends it at once, with its number, and nothing behind that line is heard.
//!
//! It knows commands and replies by their texts alone (`simfile`), and its peer by the trait `Peer` of `peers`. It
//! knows no device and no budget.
#![tactic(auto)]

mod answer;
mod hearing;
pub mod server;

pub use server::Server;
