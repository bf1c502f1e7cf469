//! Launches with `orders` on two workers: the ordered run comes behind theirs, and is that of one worker.

use crate::scripts::all_but_the_last;
use clmodel::text::Name;
use device::{Command, Device, Reply};
use spaces::Buffers;
use std::alloc::Global;
use std::marker::Sync;
use std::sync::Wait;
use std::thread::Threads;
use workers::OpenGate;

/// Four groups of an item, each of which draws a place.
const PLACES: &str = "clsim 3
buffer a 20
program p 1
__kernel void f(__global int *a) { a[1 + atomic_inc(&a[0])] = 7 + get_global_id(0); }
kernel k p f
arg k 0 buffer a
launch k 4 1 orders
";

/// What buffer a holds after it: the places are drawn in the order of the items.
const DRAWN: [u8; 20] = [4, 0, 0, 0, 7, 0, 0, 0, 8, 0, 0, 0, 9, 0, 0, 0, 10, 0, 0, 0];

/// Whether a reply is that of a launch whose ordered run came to its end.
fn is_ordered(reply: &Reply) -> bool {
    match reply {
        Reply::Ordered => true,
        _ => false,
    }
}

/// Whether buffer a holds what the ordered run leaves.
fn holds_drawn(alloc: Global, buffers: &Buffers) -> bool {
    match Name::copy_of(alloc, b"a") {
        Ok(name) => buffers.bytes_in(&name) == DRAWN.as_slice(),
        Err(_) => false,
    }
}

/// Whether a device does a command by `apply_with`, on two workers, as the ordered run does.
fn is_drawn<W: Threads + Wait + Sync>(
    rt: &W,
    alloc: Global,
    device: &mut Device,
    command: Command,
) -> bool {
    let reply = device.apply_with(rt, command, 2, &OpenGate);
    is_ordered(&reply) & holds_drawn(alloc, device.buffers())
}

/// Whether the launch by two workers is the ordered run.
fn are_drawn_by_two<W: Threads + Wait + Sync>(rt: &W, alloc: Global) -> bool {
    match all_but_the_last(alloc, PLACES) {
        Some((device, command)) => {
            let mut device = device;
            is_drawn(rt, alloc, &mut device, command)
        }
        None => false,
    }
}

/// Shows that a launch with `orders` by two workers answers and leaves what its ordered run does.
#[test]
fn two_workers_come_to_the_ordered_run(rt: HostRuntime) {
    assert!(rt; are_drawn_by_two(&rt, rt.alloc()));
}
