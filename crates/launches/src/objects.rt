//! The objects that a work-group sees: its launch's buffers and its own local objects, as spaces in the order of their
//! numbers.
//!
//! Local objects are unset and have the sizes given. An operation on an object does to each memory that the spaces hold
//! what the definition says, and leaves the others. Unset comes with the lowest unset byte, and changes nothing. The
//! crate knows no work-item that runs.
#![tactic(auto)]

ghost use Rattle.std.specs.Prelude.{◌≡◌, ◌+◌, ◌≤◌, ℕ, None, IfOk, false, length, map, replicate};
ghost use Rattle.clmodel.specs.Cells.{size_of};
ghost use Rattle.clmodel.specs.Launch.{Launch, region_of};
ghost use Rattle.launches.specs.Objects.{IsMoved, ObjectsHold, space_of};

use clmodel::access::{Object, Operation};
use clmodel::action::Answer;
use spaces::{LocalMem, Space, SpaceFault, perform};
use std::alloc::{AllocError, Global};

/// Local objects of these sizes, unset (OpenCL 1.2, section 6.5.2). An error is out of memory.
pub fn local_objects(alloc: Global, sizes: &[u64]) -> Result<Vec<LocalMem>, AllocError>
    ensures { IfOk result (λ locals. locals.items ≡ map (λ size. replicate size None) sizes.now) }
{
    let mut locals = Vec::with_capacity(alloc, sizes.len())?;
    for i in 0..sizes.len() {
        locals.push(LocalMem::new(alloc, sizes[i] as usize)?)?;
    }
    Ok(locals)
}

/// How many bytes an object has, none where there is no such object.
pub fn size_of<G: Space>(buffers: &[G], locals: &[LocalMem], object: Object) -> u64
    ensures { result ≡ length (space_of G.bytes buffers.now locals.now object) }
{
    match object {
        Object::Buffer(number) => match buffers.get(number as usize) {
            Some(space) => space.size(),
            None => 0,
        },
        Object::Local(number) => match locals.get(number as usize) {
            Some(space) => space.size(),
            None => 0,
        },
    }
}

/// Does an operation on an object at the bytes from `first` on. An error leaves the objects: a byte that is read is
/// unset, or no memory is left to keep what is stored.
// A call would cost each access more than the look at the object that it comes to.
#[inline(always)]
pub fn perform_on<G: Space>(
    buffers: &mut Vec<G>,
    locals: &mut Vec<LocalMem>,
    object: Object,
    first: u64,
    operation: Operation,
) -> Result<Answer, SpaceFault>
    requires writable { G.read_only ≡ false }
    requires inside { first + size_of operation ≤ length (space_of G.bytes buffers.old.items locals.old.items object) }
    ensures { (launch : Launch) (group : ℕ) → IsMoved (ObjectsHold G.bytes launch group buffers.old.items locals.old.items) (ObjectsHold G.bytes launch group buffers.new.items locals.new.items) (region_of group object) first operation result }
{
    match object {
        Object::Buffer(number) => perform(&mut buffers[number as usize], first, operation),
        Object::Local(number) => perform(&mut locals[number as usize], first, operation),
    }
}
