//! Who says which item goes next.

use crate::ready::Ready;

/// Who says which work-item goes next. Whatever it answers, an order is one of the launch's.
pub trait Chooser {
    /// Gives the items their ranks, before the first event.
    fn begin(&self, ready: &mut Ready);

    /// Whether another item may go before this one makes its next atomic operation (OpenCL 1.2, section 6.12.11).
    /// Other accesses need no such question: where they don't race, their order counts for nothing.
    fn switches(&mut self, item: u32, ready: &mut Ready) -> bool;

    /// The item that goes next, of those that are at no stop. It is asked where none is under way. With no item, or
    /// with another one, the order ends.
    fn choose(&mut self, ready: &Ready) -> Option<u32>;
}

/// How many atomic operations an item has made in a row.
#[derive(Drop)]
pub(crate) struct Streak {
    item: u32,
    count: u32,
}

/// After so many atomic operations in a row an item that waits for another one has waited long enough (own).
const LONGEST: u32 = 64;

impl Streak {
    /// No item has made one.
    pub fn new() -> Self {
        Streak { item: 0, count: 0 }
    }

    /// Counts an item's next one. Whether others should go first: then its count begins again.
    pub fn is_long(&mut self, item: u32) -> bool {
        if item != self.item {
            self.item = item;
            self.count = 0;
        }
        self.count = self.count.saturating_add(1);
        if self.count <= LONGEST {
            return false;
        }
        self.count = 0;
        true
    }
}
