//! The launch of a device: prepared, run on one thread, and by workers.
ghost use Rattle.item_step.specs.Launches.{setup_of};
ghost use Rattle.launches.specs.Groups.{HasGroups};

use crate::came::{Came, done_if, is_done};
use crate::one_thread;
use crate::scripts::{command_of, device_of};
use clmodel::text::Name;
use device::{Command, Device, Refusal};
use item_step::Launch;
use spaces::Buffers;
use std::alloc::Global;
use std::marker::Sync;
use std::sync::Wait;
use std::thread::Threads;
use workers::{OpenGate, run_parallel};

/// A kernel of which three groups of one item are launched. Its helper has an array. Group 1 divides by 0.
const SCRIPT: &str = "buffer a 4
write a 0 02000309
program p 2
int part(int n) { int u[2]; u[0] = 6; u[1] = n; return u[0] / u[1]; }
__kernel void f(__global uchar *a) { int i = get_global_id(0); a[i] = part(a[i]); }
kernel k p f
arg k 0 buffer a
";

/// Its launch.
const LAUNCH: &str = "launch k 3 1\n";

/// The launch, run by two workers.
fn try_parallel<R: Print + Threads + Wait + Sync>(
    rt: &R,
    alloc: Global,
    launch: &Launch<'_>,
    buffers: &Buffers,
) -> bool
    requires whole { HasGroups (setup_of launch.now) }
{
    let came = one_thread::ran(run_parallel(rt, alloc, launch, buffers, 2, &OpenGate));
    is_done(rt, "launches run_parallel", came)
}

/// The calls that run a launch, each again where it is refused.
fn try_launch<R: Print + Eprint + Threads + Wait + Sync>(
    rt: &R,
    alloc: Global,
    launch: &Launch<'_>,
    buffers: &Buffers,
)
    requires whole { HasGroups (setup_of launch.now) }
{
    one_thread::try_all(rt, alloc, launch, buffers);
    let _ = try_parallel(rt, alloc, launch, buffers) || try_parallel(rt, alloc, launch, buffers);
}

/// Prepares the launch of a device, and tries the calls. False where that is refused.
fn try_prepared<R: Print + Eprint + Threads + Wait + Sync>(
    rt: &R,
    alloc: Global,
    device: &Device,
    command: &Command,
) -> bool {
    let Command::Launch { kernel, range, .. } = command else {
        return is_done(rt, "launches prepare", Came::Wrong);
    };
    match device.prepare(kernel, range) {
        Ok(launch) => {
            is_done(rt, "launches prepare", Came::Done);
            try_launch(rt, alloc, &launch, device.buffers());
            true
        }
        Err(Refusal::OutOfMemory) => is_done(rt, "launches prepare", Came::OutOfMemory),
        Err(_) => is_done(rt, "launches prepare", Came::Wrong),
    }
}

/// Whether the device's buffer is as it was before all.
fn is_as_it_was<R: Print>(rt: &R, alloc: Global, device: &Device) -> bool {
    let Ok(name) = Name::copy_of(alloc, b"a") else {
        return is_done(rt, "launches name", Came::OutOfMemory);
    };
    let is_same = device.buffers().bytes_in(&name) == [2, 0, 3, 9].as_slice();
    is_done(rt, "launches buffers stay", done_if(is_same))
}

/// Tries the calls that borrow the launch of a device, and compares its buffer with what it was.
fn try_launched<R: Print + Eprint + Threads + Wait + Sync>(
    rt: &R,
    alloc: Global,
    device: &Device,
    command: &Command,
) {
    let _ = try_prepared(rt, alloc, device, command) || try_prepared(rt, alloc, device, command);
    let _ = is_as_it_was(rt, alloc, device) || is_as_it_was(rt, alloc, device);
}

/// Tries the calls on a device. False where the launch's command is refused.
fn try_command<R: Print + Eprint + Threads + Wait + Sync>(
    rt: &R,
    alloc: Global,
    device: &Device,
) -> bool {
    match command_of(alloc, LAUNCH) {
        Some(command) => {
            try_launched(rt, alloc, device, &command);
            drop(command);
            true
        }
        None => is_done(rt, "launches command", Came::OutOfMemory),
    }
}

/// Tries the calls. False where memory is refused before.
fn try_device<R: Print + Eprint + Threads + Wait + Sync>(rt: &R, alloc: Global) -> bool {
    match device_of(alloc, SCRIPT) {
        Some(device) => {
            let is_tried = try_command(rt, alloc, &device);
            drop(device);
            is_tried
        }
        None => is_done(rt, "launches device", Came::OutOfMemory),
    }
}

/// Tries the calls, and again where memory is refused before.
pub fn try_all<R: Print + Eprint + Threads + Wait + Sync>(rt: &R, alloc: Global) {
    let _ = try_device(rt, alloc) || try_device(rt, alloc);
}
