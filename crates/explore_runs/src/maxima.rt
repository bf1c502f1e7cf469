//! The greatest of numbers that change.

use std::alloc::{AllocError, Global};

/// A number for each place, in a binary tree of nodes from 1 on: below node n are the nodes 2n and 2n + 1, the places
/// are the leaves, and each other node has the greater number of the two below it (own). So a change, and each search,
/// takes one step a level.
#[derive(Drop)]
pub(crate) struct Maxima {
    /// How many leaves there are: a power of two, 2^31 at most.
    leaves: u32,
    /// The numbers of the nodes.
    numbers: Vec<u64>,
}

/// How many levels a tree has at most.
const LEVELS: u32 = 32;

/// The least power of two that is no less than this, 2^31 at most.
fn leaves_for(places: u32) -> u32 {
    let mut leaves: u32 = 1;
    for _ in 1..LEVELS {
        if leaves < places {
            leaves = leaves.saturating_mul(2);
        }
    }
    leaves
}

impl Maxima {
    /// Zeros for so many places. An error is out of memory.
    pub fn new(alloc: Global, places: u32) -> Result<Self, AllocError> {
        let leaves = leaves_for(places);
        let nodes = (leaves as usize).saturating_mul(2);
        let mut numbers = Vec::with_capacity(alloc, nodes)?;
        numbers.resize(nodes, 0)?;
        Ok(Maxima { leaves, numbers })
    }

    /// The number of a node, 0 where there is none.
    fn number(&self, node: u32) -> u64 {
        match self.numbers.as_slice().get(node as usize) {
            Some(number) => *number,
            None => 0,
        }
    }

    /// Gives a node a number, if it is there.
    fn put(&mut self, node: u32, number: u64) {
        if let Some(old) = self.numbers.get_mut(node as usize) {
            *old = number;
        }
    }

    /// Gives a node the greater number of the two below it.
    fn settle(&mut self, node: u32) {
        let left = node.saturating_mul(2);
        let number = self.number(left).max(self.number(left.saturating_add(1)));
        self.put(node, number);
    }

    /// Gives a place a number, if it is there.
    pub fn set(&mut self, place: u32, number: u64) {
        if place >= self.leaves {
            return;
        }
        let mut node = self.leaves.saturating_add(place);
        self.put(node, number);
        for _ in 1..LEVELS {
            node /= 2;
            if node == 0 {
                return;
            }
            self.settle(node);
        }
    }

    /// The place with the greatest number, the highest of several; none where each is 0.
    pub fn greatest(&self) -> Option<u32> {
        if self.number(1) == 0 {
            return None;
        }
        let mut node: u32 = 1;
        for _ in 1..LEVELS {
            if node >= self.leaves {
                break;
            }
            let right = node.saturating_mul(2).saturating_add(1);
            let is_right = self.number(right) == self.number(node);
            node = if is_right {
                right
            } else {
                right.saturating_sub(1)
            };
        }
        Some(node.saturating_sub(self.leaves))
    }

    /// The lowest place from this one on whose number isn't 0, if there is one.
    pub fn next_from(&self, place: u32) -> Option<u32> {
        if place >= self.leaves {
            return None;
        }
        let node = self.first_above(self.leaves.saturating_add(place))?;
        Some(self.first_below(node))
    }

    /// The first node with a number above 0 of this leaf and of those that stand right of it and of its ancestors.
    fn first_above(&self, leaf: u32) -> Option<u32> {
        let mut node = leaf;
        if self.number(node) > 0 {
            return Some(node);
        }
        for _ in 1..LEVELS {
            let right = node.saturating_add(1);
            if node % 2 == 0 && self.number(right) > 0 {
                return Some(right);
            }
            node /= 2;
        }
        None
    }

    /// The lowest place below a node whose number isn't 0, where the node has one.
    fn first_below(&self, node: u32) -> u32 {
        let mut node = node;
        for _ in 1..LEVELS {
            if node >= self.leaves {
                break;
            }
            let left = node.saturating_mul(2);
            let is_left = self.number(left) > 0;
            node = if is_left {
                left
            } else {
                left.saturating_add(1)
            };
        }
        node.saturating_sub(self.leaves)
    }
}
