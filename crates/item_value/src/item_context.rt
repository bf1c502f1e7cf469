//! What stays while an item runs.
#![tactic(auto)]

ghost use Rattle.std.specs.Prelude.{◌≡◌, ◌<◌, ◌^◌, length, map};
ghost use Rattle.item_value.specs.Arguments.{buffer_place};

use crate::position::ItemPosition;
use clmodel::setup::Argument;
use clmodel::text::Name;
use regcode::Register;
use std::alloc::Global;

/// The allocator of a running item, the item's place in its range, the names of the launch's buffers, the kernel's
/// arguments with the places of the buffers that they name, and the code's table of registers.
#[derive(Clone, Copy)]
pub struct ItemContext<'a> {
    pub alloc: Global,
    pub position: ItemPosition<'a>,
    pub buffers: &'a [Name],
    pub arguments: &'a [Option<Argument>],
    pub places: &'a [u32],
    pub registers: &'a [Register],
    ghost few: { length buffers.now < 2 ^ 32 },
    ghost placed: { places.now ≡ map (buffer_place buffers.now) arguments.now },
}
