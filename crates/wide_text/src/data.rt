//! What is told of a script whose replies hold for other bytes.
#![tactic(auto)]

use wide_sources::{Deciding, FreeArgument};

/// How it is written.
#[derive(Clone, Copy, Debug, PartialEq, Eq)]
pub enum Format {
    Text,
    Json,
}

/// What the replies of a script come to.
#[derive(Clone, Copy, Debug, PartialEq, Eq)]
pub struct WideEnd {
    /// A launch ended in a fault
    pub faulted: bool,
    /// A command was refused
    pub refused: bool,
    /// A launch with `orders` was ordered
    pub ordered: bool,
}

/// A buffer for all of whose bytes the reply to a launch holds.
#[derive(Drop)]
pub struct FreeBuffer {
    pub name: String,
    /// The line of the earliest write or fill of it since which no launch before this one depends on its bytes
    pub from: Option<usize>,
}

/// A launch that wasn't refused, and for what its reply holds.
#[derive(Drop)]
pub struct WideLaunch {
    /// The number of the command, from 0
    pub command: usize,
    /// The line of the script
    pub script_line: usize,
    /// The line of the reply, without its line feed
    pub reply: String,
    pub buffers: Vec<FreeBuffer>,
    pub arguments: Vec<FreeArgument>,
    pub deciding: Vec<Deciding>,
}

/// What is told of a script.
#[derive(Drop)]
pub struct WideReport {
    pub launches: Vec<WideLaunch>,
    /// Whether no reply is a fault, a refusal or `ordered`
    pub clean: bool,
    /// The lines of the writes and fills for all of whose bytes the replies hold
    pub free: Vec<usize>,
    /// The lines of the reads whose bytes may be others then
    pub reads: Vec<usize>,
}
