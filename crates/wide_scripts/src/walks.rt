//! A walk over what is noted of a script, which says whether its replies hold.
#![tactic(auto)]

ghost use Rattle.std.specs.Prelude.{[], IfOk, IfSome};
ghost use Rattle.wide_scripts.specs.Notes.{IsWalk, no_taint};

use crate::note::Note;
use crate::taint::{Taint, is_free};
use std::alloc::{AllocError, Global};

/// Of each command whether the bytes that it reads may differ, where a script's replies hold for all bytes of those
/// commands that are free, by their places; None where a launch has a buffer that may differ and isn't free. It takes
/// time in proportion to the commands and to the buffers of the launches. An error is out of memory.
pub fn walk(alloc: Global, notes: &[Note], free: &[bool]) -> Result<Option<Vec<bool>>, AllocError>
    ensures { IfOk result (λ found. IfSome found (λ reads. IsWalk no_taint notes.now free.now reads.items)) }
{
    let mut taint = Taint::new(alloc);
    let mut reads = Vec::new(alloc);
    for place in 0..notes.len() {
        let note = &notes[place];
        reads.push(taint.may_read(note))?;
        if !taint.pass(note, is_free(free, place))? {
            return Ok(None);
        }
    }
    Ok(Some(reads))
}

/// The same where no command is free: no bytes that are read may differ. An error is out of memory.
#[tactic(auto, using(crate::proofs::Marks::plain_walk))]
pub(crate) fn plain_walk(alloc: Global, notes: &[Note]) -> Result<Vec<bool>, AllocError>
    ensures { IfOk result (λ reads. IsWalk no_taint notes.now [] reads.items) }
{
    let reads = vec![in alloc; false; notes.len()]?;
    Ok(reads)
}
