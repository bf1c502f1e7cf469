//! How an order ends.

ghost use Rattle.std.specs.Prelude.{◌≡◌, Some, map, IfOk};

use clmodel::fault::Fault;
use clmodel::schedule::Schedule;
use clmodel::text::Bytes;
use spaces::Plain;
use std::alloc::{AllocError, Global};

/// An order in which each item has ended.
#[derive(Drop)]
pub struct Complete {
    /// Its events.
    pub schedule: Schedule,
    /// What it left in the launch's buffers, in the order of their numbers.
    pub buffers: Vec<Bytes>,
}

/// How an order of a launch's events ends (own).
#[derive(Drop)]
pub enum OrderEnd {
    /// Each item has ended.
    Complete(Complete),
    /// A fault is shown, which is no conflict of kind order, after this schedule.
    Shown(Fault, Schedule),
    /// It had more turns than it was given.
    GivenUp,
}

/// The bytes that spaces hold, in their order. An error is out of memory.
pub(crate) fn contents_of(alloc: Global, spaces: Vec<Plain>) -> Result<Vec<Bytes>, AllocError>
    ensures { IfOk result (λ contents. map (λ bytes. map Some bytes) contents.items ≡ spaces.items) }
{
    let mut contents = Vec::new(alloc);
    for space in spaces {
        contents.push(Bytes::new(space.into_bytes()))?;
    }
    Ok(contents)
}
