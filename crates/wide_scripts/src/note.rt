//! What is known of a command that was performed.
#![tactic(auto)]

use clmodel::text::Name;
use wide_launches::Wide;

/// What a walk over a script has to know of a command that was performed: where it puts bytes, and from where.
#[derive(Drop)]
pub enum Note {
    /// It puts no bytes into a buffer and reads none, or it was refused
    Other,
    /// It made a buffer
    Made { buffer: Name },
    /// It put bytes of its own into a buffer: a write or a fill
    Put { buffer: Name },
    /// It put bytes of one buffer into another, which may be the same
    Copied { source: Name, target: Name },
    /// It read bytes of a buffer
    Read { buffer: Name },
    /// It ran a kernel on these buffers; for which of their bytes and numbers of arguments its reply holds, as far as
    /// that was found, and where the others decide
    Launched { buffers: Vec<Name>, wide: Wide },
}
