//! Launches with `orders` on a device: the ordered run, which leaves its bytes, and one that ends in a race. Where
//! memory is refused, the device holds what it held.

use crate::came::{Came, done_if, is_done};
use crate::scripts::{command_of, device_of};
use clmodel::access::Clash;
use clmodel::fault::Fault;
use clmodel::text::Name;
use device::{Device, Refusal, Reply};
use std::alloc::Global;

/// A buffer of three numbers. The items of both kernels draw places from the first one. Those of f write to the place
/// that they drew, and those of g all to one.
const SCRIPT: &str = "buffer a 12
program p 2
__kernel void f(__global int *a) { a[1 + atomic_inc(&a[0])] = 7 + get_global_id(0); }
__kernel void g(__global int *a) { a[1] = atomic_inc(&a[0]); }
kernel k p f
arg k 0 buffer a
kernel l p g
arg l 0 buffer a
";

/// What the buffer holds before a launch.
const BEFORE: [u8; 12] = [0; 12];

/// What it holds once two items have drawn places, in the order of their numbers.
const DRAWN: [u8; 12] = [2, 0, 0, 0, 7, 0, 0, 0, 8, 0, 0, 0];

/// A launch of two groups of one item.
#[derive(Clone, Copy)]
enum Case {
    /// Of f
    Places,
    /// Of g
    Race,
}

impl Case {
    /// How the call is told.
    fn call(self) -> &'static str {
        match self {
            Case::Places => "orders launch",
            Case::Race => "orders launch of a race",
        }
    }

    /// The launch.
    fn launch(self) -> &'static str {
        match self {
            Case::Places => "clsim 3\nlaunch k 2 1 orders\n",
            Case::Race => "clsim 3\nlaunch l 2 1 orders\n",
        }
    }

    /// Whether this is its reply, and what it leaves.
    fn is_right(self, reply: &Reply, left: &[u8]) -> bool {
        match self {
            Case::Places => matches!(reply, Reply::Ordered) && left == DRAWN.as_slice(),
            Case::Race => is_race(reply) && left == BEFORE.as_slice(),
        }
    }
}

/// Whether a reply is a race of items 0 and 1.
fn is_race(reply: &Reply) -> bool {
    match reply {
        Reply::Fault { fault, .. } => match fault {
            Fault::Conflict {
                clash: Clash::Race,
                ..
            } => true,
            _ => false,
        },
        _ => false,
    }
}

/// What came of a launch on a device that held nothing but zeros.
fn came_of(device: &Device, buffer: &Name, reply: &Reply, case: Case) -> Came {
    let left = device.buffers().bytes_in(buffer);
    match reply {
        Reply::Refused(Refusal::OutOfMemory) if left == BEFORE.as_slice() => Came::OutOfMemory,
        _ => done_if(case.is_right(reply, left)),
    }
}

/// Tries a launch on a device. False where memory is refused.
fn try_launch<R: Print>(
    rt: &R,
    alloc: Global,
    device: &mut Device,
    buffer: &Name,
    case: Case,
) -> bool {
    let Some(command) = command_of(alloc, case.launch()) else {
        return is_done(rt, "orders command", Came::OutOfMemory);
    };
    let reply = device.apply(command);
    let came = came_of(device, buffer, &reply, case);
    drop(reply);
    is_done(rt, case.call(), came)
}

/// Tries a launch on a device of its own, and again where it is refused. False where memory is refused before.
fn try_device<R: Print>(rt: &R, alloc: Global, buffer: &Name, case: Case) -> bool {
    match device_of(alloc, SCRIPT) {
        Some(mut device) => {
            let is_tried = try_launch(rt, alloc, &mut device, buffer, case)
                || try_launch(rt, alloc, &mut device, buffer, case);
            drop(device);
            is_tried
        }
        None => is_done(rt, "orders device", Came::OutOfMemory),
    }
}

/// Tries a launch, and again where memory is refused before.
fn try_case<R: Print>(rt: &R, alloc: Global, buffer: &Name, case: Case) {
    let _ = try_device(rt, alloc, buffer, case) || try_device(rt, alloc, buffer, case);
}

/// Tries the launches. False where memory is refused before.
fn try_cases<R: Print>(rt: &R, alloc: Global) -> bool {
    match Name::copy_of(alloc, b"a") {
        Ok(buffer) => {
            try_case(rt, alloc, &buffer, Case::Places);
            try_case(rt, alloc, &buffer, Case::Race);
            drop(buffer);
            true
        }
        Err(_) => is_done(rt, "orders name", Came::OutOfMemory),
    }
}

/// Tries the launches, and again where memory is refused before.
pub fn try_all<R: Print>(rt: &R, alloc: Global) {
    let _ = try_cases(rt, alloc) || try_cases(rt, alloc);
}
