//! What the run of a group answers.

use clmodel::fault::Fault;
use clmodel::schedule::Schedule;

/// How the run of a group ends.
#[derive(Drop)]
pub enum GroupEnd<G> {
    /// All items have ended, and the buffers are left so.
    Done(Vec<G>),
    /// The run shows this fault.
    Stopped(Fault),
}

/// A group that has run, by its number: its log, the runs of its items, and its end.
#[derive(Drop)]
pub struct GroupResult<G, L> {
    pub group: u32,
    pub log: L,
    pub runs: Schedule,
    pub end: GroupEnd<G>,
}
