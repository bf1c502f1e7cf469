//! What a script of version 3 is turned into.
#![tactic(auto)]

use clmodel::text::Bytes;
use clnum::IntType;

/// Where a command stands in a script of version 3, and what its line says beside it.
#[derive(Drop)]
pub struct WrittenPlace {
    /// The number of its line, from 1
    pub line: usize,
    /// The type of the numbers that its reply has, where the line says one
    pub kind: Option<IntType>,
    /// The words of its comment, which are what a launch is called
    pub called: Bytes,
    /// The path of the file that has its source, where the line names one
    pub file: Option<Bytes>,
}

/// The plain text of a script, which is of version 3, and the place of each command.
#[derive(Drop)]
pub struct PlainScript {
    pub text: Vec<u8>,
    pub places: Vec<WrittenPlace>,
}

/// What comes of a text.
#[derive(Drop)]
pub enum Turned {
    /// The script as a plain one
    Plain(PlainScript),
    /// The number of the lowest bad line, from 1
    BadLine(usize),
    /// Nothing: its first line isn't that of version 3
    Other,
}
