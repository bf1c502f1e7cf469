//! The canonical order.

use crate::chooser::{Chooser, Streak};
use crate::ready::Ready;

/// The order of the items' numbers, each up to its next stop: what the ordered run does (own). An item that waits for
/// another one lets others go.
#[derive(Drop)]
pub struct InTurn {
    streak: Streak,
    /// The item that goes next is the lowest from this one on, or else the lowest.
    from: u32,
}

impl InTurn {
    /// At the start of a launch.
    pub fn new() -> Self {
        InTurn {
            streak: Streak::new(),
            from: 0,
        }
    }
}

impl Chooser for InTurn {
    fn begin(&self, _ready: &mut Ready) {}

    fn switches(&mut self, item: u32, _ready: &mut Ready) -> bool {
        if !self.streak.is_long(item) {
            return false;
        }
        self.from = item.saturating_add(1);
        true
    }

    fn choose(&mut self, ready: &Ready) -> Option<u32> {
        let next = ready.next_from(self.from);
        self.from = 0;
        next
    }
}
