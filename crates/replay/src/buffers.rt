//! The buffers of a launch as the replay's memory.

ghost use Rattle.std.specs.Prelude.{◌≡◌, Some, map, IfOk};
ghost use Rattle.spaces.specs.Buffers.{bytes_in};

use clmodel::text::Name;
use spaces::{Buffers, Plain};
use std::alloc::{AllocError, Global};

/// A copy of the buffers of these names, none of whose bytes are unset (OpenCL 1.2, section 5.2.1). An error is out of
/// memory.
pub fn copies(alloc: Global, names: &[Name], buffers: &Buffers) -> Result<Vec<Plain>, AllocError>
    ensures { IfOk result (λ copies. copies.items ≡ map (λ name. map Some (bytes_in buffers.now name)) names.now) }
{
    let mut copies = Vec::with_capacity(alloc, names.len())?;
    for name in names {
        let bytes = buffers.bytes_in(name).to_vec(alloc)?;
        copies.push(Plain::new(bytes))?;
    }
    Ok(copies)
}
