//! Orders by priorities with few changes.

use crate::chooser::{Chooser, Streak};
use crate::random::Random;
use crate::ready::Ready;
use std::alloc::{AllocError, Global};

/// Each item draws a priority, and the highest that can go on does. At few atomic operations, drawn among all, the item
/// that would make it falls to the lowest (own). A mistake that shows where a few operations come in a certain order is
/// so found with a chance that falls with the number of items, and with that of operations for each change but the
/// first. An item that waits for another one falls too.
#[derive(Drop)]
pub struct ByPriority {
    /// The items' priorities at the start.
    priorities: Vec<u64>,
    /// Before which of the operations the priorities change, counted from 1 on.
    changes: Vec<u64>,
    asked: u64,
    /// All priorities from here on are drawn ones or were given to an item that fell.
    lowest: u64,
    streak: Streak,
}

/// Drawn priorities are from here on.
const DRAWN: u64 = 1 << 63;

/// The priorities of so many items. An error is out of memory.
fn priorities(alloc: Global, random: &mut Random, items: u32) -> Result<Vec<u64>, AllocError> {
    let mut priorities = Vec::with_capacity(alloc, items as usize)?;
    for _ in 0..items {
        priorities.push(random.draw() | DRAWN)?;
    }
    Ok(priorities)
}

/// So many numbers from 1 up to a length. An error is out of memory.
fn draws(
    alloc: Global,
    random: &mut Random,
    count: u32,
    length: u64,
) -> Result<Vec<u64>, AllocError> {
    let mut draws = Vec::with_capacity(alloc, count as usize)?;
    for _ in 0..count {
        draws.push(random.below(length).saturating_add(1))?;
    }
    Ok(draws)
}

impl ByPriority {
    /// For so many items, with so many changes in an order of about `length` atomic operations. An error is out of
    /// memory.
    pub fn new(
        alloc: Global,
        mut random: Random,
        items: u32,
        changes: u32,
        length: u64,
    ) -> Result<Self, AllocError> {
        let priorities = priorities(alloc, &mut random, items)?;
        let changes = draws(alloc, &mut random, changes, length)?;
        Ok(ByPriority {
            priorities,
            changes,
            asked: 0,
            lowest: DRAWN,
            streak: Streak::new(),
        })
    }
}

impl Chooser for ByPriority {
    fn begin(&self, ready: &mut Ready) {
        let mut item: u32 = 0;
        for priority in &self.priorities {
            ready.set_rank(item, *priority);
            item = item.saturating_add(1);
        }
    }

    fn switches(&mut self, item: u32, ready: &mut Ready) -> bool {
        self.asked = self.asked.saturating_add(1);
        let long = self.streak.is_long(item);
        if !long && !self.changes.as_slice().contains(&self.asked) {
            return false;
        }
        self.lowest = self.lowest.saturating_sub(1);
        ready.set_rank(item, self.lowest);
        true
    }

    fn choose(&mut self, ready: &Ready) -> Option<u32> {
        ready.highest()
    }
}
