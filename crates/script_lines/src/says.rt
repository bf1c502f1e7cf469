//! What a line of a script of version 3 says.
#![tactic(auto)]

use clmodel::text::{Bytes, Name};
use clnum::IntType;
use host_commands::command::Command;

/// What a line says.
#[derive(Drop)]
pub enum LineSays {
    /// No command: the line is empty, or a comment alone
    Nothing,
    /// A command, with the bytes of its numbers where it has numbers
    Command(Command),
    /// A `read` of `count` numbers of a type
    ReadNumbers {
        buffer: Name,
        offset: u64,
        kind: IntType,
        count: u64,
    },
    /// A program of which so many source lines follow
    SourceLines {
        name: Name,
        count: u64,
    },
    /// A program of which the source lines follow up to the line that is this word
    SourceUntil {
        name: Name,
        word: Name,
    },
    /// A program whose source is that of a file
    SourceFile {
        name: Name,
        path: Bytes,
    },
}
