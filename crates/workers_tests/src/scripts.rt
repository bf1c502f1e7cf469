//! Devices that have done the commands of a script.

use device::{Command, Device};
use limits::{Configuration, Limits};
use simfile::script::read_script;
use std::alloc::Global;

/// A sum of two vectors by two groups of two items each.
pub const SUM: &str = "buffer a 16
buffer b 16
buffer c 16
write a 0 01000000ffffff7fffffffff0a000000
write b 0 0200000001000000ffffffff14000000
program p 1
__kernel void f(__global const int *a, __global const int *b, __global int *c) { ulong i = get_global_id(0); c[i] = a[i] + b[i]; }
kernel k p f
arg k 0 buffer a
arg k 1 buffer b
arg k 2 buffer c
launch k 4 2
";

/// What buffer c holds after it.
pub const SUMS: [u8; 16] = [
    3, 0, 0, 0, 0, 0, 0, 0x80, 0xfe, 0xff, 0xff, 0xff, 0x1e, 0, 0, 0,
];

/// A device that has done commands.
fn done(alloc: Global, commands: Vec<Command>) -> Device {
    let configuration = Configuration {
        limits: Limits::profile(),
        budget: 1_000_000,
    };
    let mut device = Device::new(alloc, configuration);
    for command in commands {
        device.apply(command);
    }
    device
}

/// A device that has done all commands of a script but the last, and that one. None where it is no script.
pub fn all_but_the_last(alloc: Global, script: &str) -> Option<(Device, Command)> {
    let Ok(script) = read_script(alloc, script.as_bytes()) else {
        return None;
    };
    let mut commands = script.commands;
    match commands.pop() {
        Some(last) => Some((done(alloc, commands), last)),
        None => None,
    }
}
