//! Progressions of entries: rounds of a loop, of which the first is kept, and the strides to the next.

ghost use Rattle.std.specs.Prelude.{◌≡◌, ◌+◌, ◌<◌, ◌≤◌, length};
ghost use Rattle.group_log.specs.Progressions.{entry_at};

use crate::stride::EntryStride;
use access_list::Entry;

/// Entries that follow one another in a log, in rounds of `period` entries. The entries of the first round are kept,
/// and the stride of each from one round to the next; all later entries are computed from these.
#[derive(Clone, Copy)]
pub(crate) struct Progression {
    /// How many entries of the log stand before its first one
    pub(crate) start: usize,
    /// Where its first round begins among the kept entries of all progressions
    pub(crate) head: usize,
    /// How many entries a round has
    pub(crate) period: usize,
    /// Where the strides of its rounds begin among those of all progressions, if it has a second round
    pub(crate) step: usize,
    /// How many entries it has, in all rounds; the last round may be cut short
    pub(crate) count: usize,
}

impl Progression {
    /// A progression without entries, behind `start` entries of the log and `head` kept ones.
    pub(crate) fn empty(start: usize, head: usize) -> Self
        ensures start { result.start ≡ start }
        ensures head { result.head ≡ head }
        ensures period { result.period ≡ 0 }
        ensures count { result.count ≡ 0 }
    {
        Progression {
            start,
            head,
            period: 0,
            step: 0,
            count: 0,
        }
    }

    /// Entry k, which stands behind the first round. Past the end, the entry with which the progression would go on.
    #[inline(never)]
    #[tactic(auto, unfolding(crate::specs::Progressions::entry_at))]
    fn later_entry(&self, heads: &[Entry], steps: &[EntryStride], k: usize) -> Entry
        requires later { self.now.period ≤ k }
        requires some { 0 < self.now.period }
        requires heads { self.now.head + self.now.period ≤ length heads.now }
        requires steps { self.now.step + self.now.period ≤ length steps.now }
        ensures { result ≡ entry_at heads.now steps.now self.now.head self.now.period self.now.step k }
    {
        let place = k % self.period;
        let rounds = (k / self.period) as u64;
        steps[self.step + place].ahead(&heads[self.head + place], rounds)
    }

    /// Entry k. Past the end, the entry with which the progression would go on.
    #[inline(always)]
    #[tactic(auto, unfolding(crate::specs::Progressions::entry_at))]
    pub(crate) fn entry(&self, heads: &[Entry], steps: &[EntryStride], k: usize) -> Entry
        requires heads { self.now.head + self.now.period ≤ length heads.now }
        requires steps { self.now.period ≤ k → (0 < self.now.period) × (self.now.step + self.now.period ≤ length steps.now) }
        ensures { result ≡ entry_at heads.now steps.now self.now.head self.now.period self.now.step k }
    {
        if k < self.period {
            return heads[self.head + k];
        }
        self.later_entry(heads, steps, k)
    }
}
