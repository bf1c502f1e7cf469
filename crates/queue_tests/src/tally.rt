//! A machine that adds.
ghost use Rattle.std.specs.Prelude.{◌≡◌, ◌+◌, ◌%◌, ◌^◌};

use crate::questions::Questions;
use host_queue::Machine;
use std::alloc::{AllocError, Global};

/// The sum of all that was given, up to 32 bits.
#[derive(Drop)]
pub struct Tally {
    pub total: u32,
}

impl Machine<u32, u32> for Tally {
    ghost step = { λ before add reply after. (reply ≡ (before.total + add) % 2 ^ 32) × (after.total ≡ reply) };

    fn apply(&mut self, add: u32) -> u32 {
        self.total = self.total.wrapping_add(add);
        self.total
    }
}

impl Questions<u32, u32> for Tally {
    fn question(_alloc: Global, number: u8, _place: u32) -> Result<u32, AllocError> {
        Ok(u32::from(number))
    }

    fn sum(number: u8, _place: u32, reply: u32) -> Option<(u32, u32)> {
        Some((u32::from(number), reply))
    }
}
