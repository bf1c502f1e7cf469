//! Who looks on while commands are done.
#![tactic(auto)]

use device::{Gate, OpenGate};
use host_commands::command::Command;

/// Who looks on while the commands of a run are done, one after another (own): a gate for the groups of each launch,
/// with a call before and after each command. No reply depends on it.
pub trait Watch: Gate {
    /// Called before a command is done. The groups that come to the gate from here on are those of its launch.
    fn begin(&self, command: &Command);

    /// Called once the command is done, before its reply is written.
    fn end(&self);
}

impl Watch for OpenGate {
    fn begin(&self, _command: &Command) {}

    fn end(&self) {}
}
