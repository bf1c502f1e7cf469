//! All that is known of registers, told once each. Nothing rests on it: what is found is checked.
#![tactic(auto)]

use crate::known::{Known, NOTHING};
use std::alloc::{AllocError, Global};

/// How many slots a table has at first.
const FIRST_SLOTS: usize = 64;

/// The different things that are known of registers, by their numbers: 0 is nothing. So a row takes 4 bytes for each
/// register.
#[derive(Drop)]
pub(crate) struct Kinds {
    alloc: Global,
    pub(crate) all: Vec<Known>,
    /// Of each of these one more than its number, in the first slot from that of its hash on that was empty; else 0
    slots: Vec<u32>,
}

impl Kinds {
    /// Nothing, by the number 0. An error is out of memory.
    pub(crate) fn new(alloc: Global) -> Result<Self, AllocError> {
        let mut kinds = Kinds {
            alloc,
            all: Vec::new(alloc),
            slots: vec![in alloc; 0; FIRST_SLOTS]?,
        };
        kinds.number(NOTHING)?;
        Ok(kinds)
    }

    /// What has a number.
    pub(crate) fn get(&self, number: u32) -> Known {
        match self.all.get(number as usize) {
            Some(known) => *known,
            None => NOTHING,
        }
    }

    /// The slot of what is known, or the empty one where it belongs.
    fn slot(&self, known: Known) -> usize {
        let mut slot = known.hash() as usize & self.slots.len().saturating_sub(1);
        for _ in 0..self.slots.len() {
            match self.slots.get(slot) {
                Some(next) if *next != 0 && self.get(*next - 1) != known => {
                    slot = slot.saturating_add(1) & self.slots.len().saturating_sub(1);
                }
                _ => break,
            }
        }
        slot
    }

    /// Twice as many slots. An error is out of memory.
    fn grow(&mut self) -> Result<(), AllocError> {
        let count = self.slots.len().saturating_mul(2);
        self.slots = vec![in self.alloc; 0; count]?;
        for number in 0..self.all.len() {
            let known = match self.all.get(number) {
                Some(known) => *known,
                None => NOTHING,
            };
            let slot = self.slot(known);
            self.fill(slot, number);
        }
        Ok(())
    }

    /// Puts a number into a slot.
    fn fill(&mut self, slot: usize, number: usize) {
        if slot < self.slots.len() && number < u32::MAX as usize {
            self.slots[slot] = number as u32 + 1;
        }
    }

    /// The number of what is known. An error is out of memory.
    pub(crate) fn number(&mut self, known: Known) -> Result<u32, AllocError> {
        let slot = self.slot(known);
        match self.slots.get(slot) {
            Some(number) if *number != 0 => return Ok(*number - 1),
            _ => {}
        }
        let number = self.all.len();
        if number >= u32::MAX as usize {
            return Err(AllocError);
        }
        self.all.push(known)?;
        self.fill(slot, number);
        if number >= self.slots.len() / 2 {
            self.grow()?;
        }
        Ok(number as u32)
    }

    /// The number of what is known of a register that comes from two places. An error is out of memory.
    pub(crate) fn joined(&mut self, number: u32, other: u32) -> Result<u32, AllocError> {
        let known = self.get(number);
        let both = known.joined(self.get(other));
        if both == known {
            Ok(number)
        } else {
            self.number(both)
        }
    }
}
