//! Devices that have done the commands of a script, and commands that are yet to be done.

use device::{Command, Device, Reply};
use limits::{Configuration, Limits};
use simfile::script::read_script;
use std::alloc::Global;

/// The budget of all devices.
const BUDGET: u32 = 1000;

/// The commands of a script. None where memory is refused.
pub fn commands_of(alloc: Global, script: &str) -> Option<Vec<Command>> {
    match read_script(alloc, script.as_bytes()) {
        Ok(script) => Some(script.commands),
        Err(_) => None,
    }
}

/// The last command of a script. None where memory is refused.
pub fn command_of(alloc: Global, script: &str) -> Option<Command> {
    match commands_of(alloc, script) {
        Some(mut commands) => commands.pop(),
        None => None,
    }
}

/// Whether a device does all of these commands.
pub fn does_all(device: &mut Device, commands: Vec<Command>) -> bool {
    let mut is_done = true;
    for command in commands {
        let reply = device.apply(command);
        is_done = is_done && matches!(reply, Reply::Done);
        drop(reply);
    }
    is_done
}

/// A device that has done these commands. None where memory is refused.
fn device_after(alloc: Global, commands: Vec<Command>) -> Option<Device> {
    let configuration = Configuration {
        limits: Limits::profile(),
        budget: BUDGET,
    };
    let mut device = Device::new(alloc, configuration);
    if does_all(&mut device, commands) {
        Some(device)
    } else {
        drop(device);
        None
    }
}

/// A device that has done all commands of a script. None where memory is refused.
pub fn device_of(alloc: Global, script: &str) -> Option<Device> {
    match commands_of(alloc, script) {
        Some(commands) => device_after(alloc, commands),
        None => None,
    }
}
