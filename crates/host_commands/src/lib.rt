//! What a device keeps: names with buffers, programs and kernels, and the commands, replies and refusals of a host.
//!
//! Each test is the condition of its refusal, for sizes of any product. The `group_items` of a range that isn't refused
//! is at least 1, within the device's limits, and divides the launch's items. `build` makes a program exactly where its
//! source is typed within the device's limits, out of memory aside. The crate does no command.
#![tactic(auto)]

pub mod build;
pub mod command;
pub mod fills;
pub mod kernel;
pub mod ranges;
