//! Spaces: they hold what they held where memory is refused.

use crate::came::{Came, done_if, is_done};
use clmodel::access::{Class, FetchOp, Width};
use spaces::{Overlay, Space, SpaceFault};
use std::alloc::Global;

/// The bytes that are lent.
const BYTES: [u8; 8] = [1, 2, 3, 4, 5, 6, 7, 8];

/// All 8 of them as one number.
const BEFORE: u64 = 0x0807_0605_0403_0201;

/// A call on a space.
#[derive(Clone, Copy)]
enum Call {
    Store,
    Update,
    Fetch,
}

/// Makes a call on the first four bytes, which leaves 7 more there.
fn make(space: &mut Overlay<'_>, call: Call) -> Result<(), SpaceFault> {
    match call {
        Call::Store => space.store(0, Width::Four, 0x0403_0208),
        Call::Update => space.update(0, Class::Add, 7),
        Call::Fetch => match space.fetch(0, FetchOp::Class(Class::Add), 7) {
            Ok(_) => Ok(()),
            Err(fault) => Err(fault),
        },
    }
}

/// Whether the bytes of a space are this number.
fn holds(space: &Overlay<'_>, wanted: u64) -> bool {
    match space.load(0, Width::Eight) {
        Ok(found) => found == wanted,
        Err(_) => false,
    }
}

/// What comes of a call on a space: it leaves 7 more, or, out of memory, all as it was.
fn called(space: &mut Overlay<'_>, call: Call) -> Came {
    match make(space, call) {
        Ok(()) => done_if(holds(space, BEFORE + 7)),
        Err(SpaceFault::OutOfMemory) if holds(space, BEFORE) => Came::OutOfMemory,
        Err(_) => Came::Wrong,
    }
}

/// Tries a call on a space of its own, and again where it is refused.
fn try_call<R: Print>(rt: &R, alloc: Global, name: &str, call: Call) {
    let mut space = Overlay::new(alloc, BYTES.as_slice());
    let _ = is_done(rt, name, called(&mut space, call))
        || is_done(rt, name, called(&mut space, call));
}

/// Tries the calls.
pub fn try_all<R: Print>(rt: &R, alloc: Global) {
    try_call(rt, alloc, "store", Call::Store);
    try_call(rt, alloc, "update", Call::Update);
    try_call(rt, alloc, "fetch", Call::Fetch);
}
