//! The items that can go on.

use crate::maxima::Maxima;
use std::alloc::{AllocError, Global};

/// The items of a launch that are at no stop, as far as is known, each with a rank. Nothing that is said of an order
/// rests on it.
#[derive(Drop)]
pub struct Ready {
    /// The items that are at no stop, in any order.
    items: Vec<u32>,
    /// For each item of the launch its place there, or a place that isn't there.
    places: Vec<usize>,
    /// For each item of the launch its rank, above 0.
    ranks: Vec<u64>,
    /// The rank of each item that is at no stop, and 0 of the others.
    highest: Maxima,
    /// How often an item has come to a stop.
    stops: u64,
}

/// The rank of an item that was given none.
const RANK: u64 = 1;

/// The place of an item that is at a stop.
const NOWHERE: usize = usize::MAX;

impl Ready {
    /// So many items, at no stop, with one rank. An error is out of memory.
    pub fn new(alloc: Global, items: u32) -> Result<Self, AllocError> {
        let mut ranks = Vec::with_capacity(alloc, items as usize)?;
        ranks.resize(items as usize, RANK)?;
        let mut places = Vec::with_capacity(alloc, items as usize)?;
        places.resize(items as usize, NOWHERE)?;
        let mut ready = Ready {
            items: Vec::with_capacity(alloc, items as usize)?,
            places,
            ranks,
            highest: Maxima::new(alloc, items)?,
            stops: 0,
        };
        for item in 0..items {
            ready.go(item)?;
        }
        Ok(ready)
    }

    /// How many items are at no stop.
    pub fn count(&self) -> u64 {
        self.items.len() as u64
    }

    /// How often an item has come to a stop.
    pub fn stops(&self) -> u64 {
        self.stops
    }

    /// The item at this place among those that are at no stop, if there is one.
    pub fn at(&self, place: u64) -> Option<u32> {
        self.items.as_slice().get(place as usize).copied()
    }

    /// The place of an item among those that are at no stop.
    fn place(&self, item: u32) -> Option<usize> {
        let place = *self.places.as_slice().get(item as usize)?;
        if place < self.items.len() {
            Some(place)
        } else {
            None
        }
    }

    /// Whether an item is at no stop.
    pub fn has(&self, item: u32) -> bool {
        self.place(item).is_some()
    }

    /// The rank of an item, 0 of one that the launch hasn't.
    fn rank(&self, item: u32) -> u64 {
        match self.ranks.as_slice().get(item as usize) {
            Some(rank) => *rank,
            None => 0,
        }
    }

    /// Gives an item a rank above 0.
    pub fn set_rank(&mut self, item: u32, rank: u64) {
        if let Some(old) = self.ranks.get_mut(item as usize) {
            *old = rank;
        }
        if self.has(item) {
            self.highest.set(item, rank);
        }
    }

    /// The item of the highest rank that is at no stop, if there is one.
    pub fn highest(&self) -> Option<u32> {
        self.highest.greatest()
    }

    /// The lowest item from this one on that is at no stop, or else the lowest that is.
    pub fn next_from(&self, item: u32) -> Option<u32> {
        match self.highest.next_from(item) {
            Some(next) => Some(next),
            None => self.highest.next_from(0),
        }
    }

    /// Notes at which place an item is.
    fn put(&mut self, item: u32, place: usize) {
        if let Some(old) = self.places.get_mut(item as usize) {
            *old = place;
        }
    }

    /// An item comes to a stop: the last one takes its place.
    pub fn stop(&mut self, item: u32) {
        self.stops = self.stops.saturating_add(1);
        self.highest.set(item, 0);
        let Some(place) = self.place(item) else {
            return;
        };
        self.put(item, NOWHERE);
        if place < self.items.len() {
            self.items.swap_remove(place);
        }
        if let Some(moved) = self.at(place as u64) {
            self.put(moved, place);
        }
    }

    /// An item can go on again: it takes the last place. An error is out of memory.
    pub fn go(&mut self, item: u32) -> Result<(), AllocError> {
        let place = self.items.len();
        self.items.push(item)?;
        self.put(item, place);
        let rank = self.rank(item);
        self.highest.set(item, rank);
        Ok(())
    }
}
