//! Commands of a device that take no memory.

use crate::came::{Came, done_if, is_done, refuse_all, refuse_none};
use crate::scripts::{commands_of, device_of, does_all};
use device::{Command, Device};
use std::alloc::Global;

/// The device's buffer.
const BUFFER: &str = "buffer b 4\n";

/// The commands.
const THREE: &str = "write b 0 01020304\nfill b 0 4 09\nrelease b\n";

/// Tries a write, a fill and a release, with every request refused.
fn try_all_on<R: Print + Eprint>(rt: &R, device: &mut Device, commands: Vec<Command>) -> bool {
    refuse_all(rt);
    let are_done = does_all(device, commands);
    refuse_none(rt);
    is_done(
        rt,
        "device write, fill and release without memory",
        done_if(are_done),
    )
}

/// Tries them with these commands. False where memory is refused before.
fn try_commands<R: Print + Eprint>(rt: &R, alloc: Global, commands: Vec<Command>) -> bool {
    match device_of(alloc, BUFFER) {
        Some(mut device) => {
            let are_done = try_all_on(rt, &mut device, commands);
            drop(device);
            are_done
        }
        None => is_done(rt, "device of a buffer", Came::OutOfMemory),
    }
}

/// Tries them. False where memory is refused before.
fn try_device<R: Print + Eprint>(rt: &R, alloc: Global) -> bool {
    match commands_of(alloc, THREE) {
        Some(commands) => try_commands(rt, alloc, commands),
        None => is_done(rt, "device commands", Came::OutOfMemory),
    }
}

/// Tries the commands, and again where memory is refused before.
pub fn try_all<R: Print + Eprint>(rt: &R, alloc: Global) {
    let _ = try_device(rt, alloc) || try_device(rt, alloc);
}
