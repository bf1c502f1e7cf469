//! What the replies to a script don't depend on.
#![tactic(auto)]

ghost use Rattle.std.specs.Prelude.{IfOk};
ghost use Rattle.device.specs.Machine.{Machine, opening};
ghost use Rattle.wide_scripts.specs.Notes.{AreNoted, IsWalk, no_taint};
ghost use Rattle.wide_scripts.specs.Scripts.{IsWideScript};

use crate::laws::walks_are_wide;
use crate::note::Note;
use crate::performed::{Performed, perform_all};
use crate::search::free_commands;
use crate::walks::{plain_walk, walk};
use device::{Command, Configuration, Reply};
use std::alloc::{AllocError, Global};

/// The replies to a script, and what they don't depend on.
#[derive(Drop)]
pub struct WideScript {
    /// The reply to each command
    pub replies: Vec<Reply>,
    /// What is noted of each command: of a launch for which bytes of its buffers and which numbers of arguments its
    /// reply holds
    pub notes: Vec<Note>,
    /// Of each command whether it is a write or a fill, for all of whose bytes the replies hold
    pub free: Vec<bool>,
    /// Of each command whether it is a read, the bytes of which may be others for other bytes of the free commands
    pub reads: Vec<bool>,
}

/// Which commands are free, and which reads may differ.
#[derive(Drop)]
struct Found {
    free: Vec<bool>,
    reads: Vec<bool>,
}

/// As many free commands as the notes of a script let, with a walk that shows that they are. An error is out of memory.
fn find(alloc: Global, notes: &[Note]) -> Result<Found, AllocError>
    ensures { IfOk result (λ found. IsWalk no_taint notes.now found.free.items found.reads.items) }
{
    let free = free_commands(alloc, notes)?;
    match walk(alloc, notes, free.as_slice())? {
        Some(reads) => Ok(Found { free, reads }),
        None => Ok(Found {
            free: Vec::new(alloc),
            reads: plain_walk(alloc, notes)?,
        }),
    }
}

/// Performs the commands of a script on a device of this configuration, and answers what the replies don't depend on
/// (OpenCL 1.2, sections 3.2 and 3.3.1). With any other bytes of the writes and any other patterns of the fills that
/// are free, as many, each reply is the same, but for the bytes of the reads that may differ. Of each launch that isn't
/// refused the notes tell for which bytes of its buffers and which numbers of its arguments its reply holds, whatever
/// else the machine has, and where the others decide; of one with `orders` none is free. Beside the commands' own, it
/// takes the time of `widen_launch` for each launch, and time in proportion to the commands and to the buffers of the
/// launches. An error is out of memory.
pub fn widen_script(
    alloc: Global,
    configuration: Configuration,
    commands: Vec<Command>,
) -> Result<WideScript, AllocError>
    ensures noted { IfOk result (λ w. (new : Machine) × AreNoted (opening configuration) commands.items w.replies.items w.notes.items new) }
    ensures wide { IfOk result (λ w. IsWideScript configuration w.free.items w.reads.items commands.items w.replies.items) }
{
    walks_are_wide();
    let Performed { replies, notes } = perform_all(alloc, configuration, commands)?;
    let Found { free, reads } = find(alloc, notes.as_slice())?;
    Ok(WideScript {
        replies,
        notes,
        free,
        reads,
    })
}
