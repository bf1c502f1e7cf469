//! Which items can go on, and which wait.

use crate::ready::Ready;
use std::alloc::{AllocError, Global};

/// Which items of a launch can go on, and which wait, as far as is known. Nothing that is said of an order rests on it.
#[derive(Drop)]
pub(crate) struct Roster {
    group_size: u32,
    /// The items that are at no stop.
    pub ready: Ready,
    /// The one of them that is under way, if one is.
    running: Option<u32>,
    /// For each group, which of its items wait.
    groups: Vec<Waiting>,
}

/// The items of a group that wait at a stop.
#[derive(Clone, Copy)]
struct Waiting {
    count: u32,
    /// One of them, where there are some.
    item: u32,
}

impl Roster {
    /// At the start of a launch of so many groups. An error is out of memory.
    pub fn new(
        alloc: Global,
        items: u32,
        groups: u32,
        group_size: u32,
    ) -> Result<Self, AllocError> {
        let mut waiting = Vec::with_capacity(alloc, groups as usize)?;
        waiting.resize(groups as usize, Waiting { count: 0, item: 0 })?;
        Ok(Roster {
            group_size,
            ready: Ready::new(alloc, items)?,
            running: None,
            groups: waiting,
        })
    }

    /// The item that is under way, if one is.
    pub fn running(&self) -> Option<u32> {
        self.running
    }

    /// This item is under way now, if it is at no stop, and none without one.
    pub fn run(&mut self, item: Option<u32>) -> Option<u32> {
        self.running = match item {
            Some(item) if self.ready.has(item) => Some(item),
            _ => None,
        };
        self.running
    }

    /// An item of this group that waits, if one does.
    pub fn waiting(&self, group: u32) -> Option<u32> {
        let waiting = self.groups.as_slice().get(group as usize)?;
        if waiting.count == 0 {
            None
        } else {
            Some(waiting.item)
        }
    }

    /// The item that is under way, of this group, waits now.
    pub fn stop(&mut self, group: u32, item: u32) {
        self.ready.stop(item);
        self.running = None;
        if let Some(waiting) = self.groups.get_mut(group as usize) {
            waiting.count = waiting.count.saturating_add(1);
            waiting.item = item;
        }
    }

    /// Whether all items of a group wait.
    pub fn is_gathered(&self, group: u32) -> bool {
        match self.groups.as_slice().get(group as usize) {
            Some(waiting) => waiting.count == self.group_size,
            None => false,
        }
    }

    /// All items of a group can go on. An error is out of memory.
    pub fn release(&mut self, group: u32) -> Result<(), AllocError> {
        if let Some(waiting) = self.groups.get_mut(group as usize) {
            waiting.count = 0;
        }
        let first = group.saturating_mul(self.group_size);
        for item in first..first.saturating_add(self.group_size) {
            self.ready.go(item)?;
        }
        Ok(())
    }
}
