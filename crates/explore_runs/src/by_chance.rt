//! Orders by chance.

use crate::chooser::{Chooser, Streak};
use crate::random::Random;
use crate::ready::Ready;

/// Before an atomic operation it is drawn whether another item goes first, and which (own).
#[derive(Drop)]
pub struct ByChance {
    random: Random,
    /// One in so many draws lets another item go.
    odds: u64,
    streak: Streak,
}

impl ByChance {
    /// With a chance of one in `odds` before each atomic operation.
    pub fn new(random: Random, odds: u64) -> Self {
        ByChance {
            random,
            odds,
            streak: Streak::new(),
        }
    }
}

impl Chooser for ByChance {
    fn begin(&self, _ready: &mut Ready) {}

    fn switches(&mut self, item: u32, _ready: &mut Ready) -> bool {
        let long = self.streak.is_long(item);
        let drawn = self.random.below(self.odds);
        long || drawn == 0
    }

    fn choose(&mut self, ready: &Ready) -> Option<u32> {
        ready.at(self.random.below(ready.count()))
    }
}
