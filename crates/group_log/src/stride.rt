//! Strides: what an entry gains from one round of a loop to the next.

ghost use Rattle.std.specs.Prelude.{◌≡◌, IsTrue};
ghost use Rattle.group_log.specs.Progressions.{ahead};

use access_list::Entry;
use clmodel::access::Access;

/// What the item, the first byte, the value and the event of an entry gain from one round to the next, as numbers that
/// wrap around.
#[derive(Clone, Copy)]
pub(crate) struct EntryStride {
    item: u32,
    first: u64,
    value: u64,
    event: u32,
}

impl EntryStride {
    /// The stride from an entry to another.
    pub(crate) fn between(from: &Entry, to: &Entry) -> Self {
        EntryStride {
            item: to.access.item.wrapping_sub(from.access.item),
            first: to.access.first.wrapping_sub(from.access.first),
            value: to.access.value.wrapping_sub(from.access.value),
            event: to.event.wrapping_sub(from.event),
        }
    }

    /// The entry that stands some rounds behind another.
    #[tactic(auto, unfolding(crate::specs::Progressions::ahead))]
    pub(crate) fn ahead(&self, entry: &Entry, rounds: u64) -> Entry
        ensures { result ≡ ahead self.now entry.now rounds }
    {
        let few = (rounds % 0x1_0000_0000) as u32;
        Entry {
            access: Access {
                item: entry.access.item.wrapping_add(self.item.wrapping_mul(few)),
                first: entry
                    .access
                    .first
                    .wrapping_add(self.first.wrapping_mul(rounds)),
                value: entry
                    .access
                    .value
                    .wrapping_add(self.value.wrapping_mul(rounds)),
                ..entry.access
            },
            event: entry.event.wrapping_add(self.event.wrapping_mul(few)),
        }
    }
}

/// Whether two entries are equal.
pub(crate) fn is_same(x: &Entry, y: &Entry) -> bool
    ensures { IsTrue result → x.now ≡ y.now }
{
    x.access == y.access && x.event == y.event
}
