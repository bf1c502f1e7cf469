//! What is kept of the accesses to a word of four bytes, of which each was to all four.

ghost use Rattle.std.specs.Prelude.{◌≡◌, ◌<◌, ◌==◌, ◌||◌, ℕ, None, not, true, false, slice_index_or};
ghost use Rattle.shadow.specs.Seen.{one_sort, mark_clash, byte_mark};
ghost use Rattle.group_traces.specs.Traces.{first_in, trace_with, passes, tells, takes, word_byte};

use crate::single::is_same;
use crate::trace::{Sight, Trace, or};
use shadow::{WordMark, agrees, byte_mark};

/// How a group accessed a word, as a `Trace` says it of each byte.
#[derive(Clone, Copy)]
pub struct WordTrace {
    pub interval: u32,
    /// The first access of that interval
    pub mark: WordMark,
    /// Whether another item than that of the first one accessed it in the interval
    pub many: bool,
    /// At which bytes an access of another sort than the first one was made in the interval
    pub mixed: [bool; 4],
    /// At which bytes accesses of two sorts were made, in whatever intervals
    pub several: [bool; 4],
}

/// At which bytes one of two holds.
fn either(a: [bool; 4], b: [bool; 4]) -> [bool; 4]
    ensures { (k : ℕ) → k < 4 → slice_index_or result k false ≡ (slice_index_or a k false || slice_index_or b k false) }
{
    [
        or(a[0], b[0]),
        or(a[1], b[1]),
        or(a[2], b[2]),
        or(a[3], b[3]),
    ]
}

/// At which bytes it doesn't hold.
fn negated(a: [bool; 4]) -> [bool; 4]
    ensures { (k : ℕ) → k < 4 → slice_index_or result k false ≡ not (slice_index_or a k false) }
{
    [!a[0], !a[1], !a[2], !a[3]]
}

/// Whether it holds at every byte.
fn is_all(a: [bool; 4]) -> bool
    ensures { result ≡ true → (k : ℕ) → k < 4 → slice_index_or a k false ≡ true }
{
    a[0] & a[1] & a[2] & a[3]
}

/// Whether it holds at no byte.
fn is_none(a: [bool; 4]) -> bool
    ensures { result ≡ true → (k : ℕ) → k < 4 → slice_index_or a k false ≡ false }
{
    !a[0] && !a[1] && !a[2] && !a[3]
}

/// Whether two accesses to all of a word leave one number at byte k of it.
fn leave_same(a: WordMark, b: WordMark, k: usize) -> bool
    requires { k < 4 }
    ensures { result ≡ ((byte_mark a k).left == (byte_mark b k).left) }
{
    byte_mark(a, k).left == byte_mark(b, k).left
}

/// At which bytes two accesses to all of a word are of one sort: at none where their kinds differ.
#[inline(always)]
fn alike(a: WordMark, b: WordMark) -> [bool; 4]
    ensures { (k : ℕ) → k < 4 → slice_index_or result k false ≡ one_sort (byte_mark a k) (byte_mark b k) }
{
    if !is_same(a.kind, b.kind) {
        return [false; 4];
    }
    if a.left == b.left {
        return [true; 4];
    }
    [
        leave_same(a, b, 0),
        leave_same(a, b, 1),
        leave_same(a, b, 2),
        leave_same(a, b, 3),
    ]
}

/// Whether at each byte one of two holds.
#[inline(always)]
fn settled(a: [bool; 4], b: [bool; 4]) -> bool
    ensures { result ≡ true → (k : ℕ) → k < 4 → (slice_index_or a k false || slice_index_or b k false) ≡ true }
{
    is_all(either(a, b))
}

impl WordTrace {
    /// Of one access.
    #[inline(always)]
    pub fn of(interval: u32, mark: WordMark) -> Self
        ensures { (k : ℕ) → k < 4 → word_byte result k ≡ first_in interval (byte_mark mark k) false }
    {
        WordTrace {
            interval,
            mark,
            many: false,
            mixed: [false; 4],
            several: [false; 4],
        }
    }

    /// Byte k of it.
    pub fn byte(self, k: usize) -> Trace
        requires { k < 4 }
        ensures { result ≡ word_byte self k }
    {
        Trace {
            interval: self.interval,
            mark: byte_mark(self.mark, k),
            touched: true,
            many: self.many,
            mixed: self.mixed[k],
            several: self.several[k],
        }
    }

    /// With one access more, made in an interval.
    pub fn with(self, interval: u32, mark: WordMark) -> Self
        ensures { (k : ℕ) → k < 4 → word_byte result k ≡ trace_with (word_byte self k) interval (byte_mark mark k) }
    {
        let differing = negated(alike(self.mark, mark));
        let several = either(self.several, differing);
        if self.interval == interval {
            return WordTrace {
                many: or(self.many, self.mark.item != mark.item),
                mixed: either(self.mixed, differing),
                several,
                ..self
            };
        }
        WordTrace {
            interval,
            mark,
            many: false,
            mixed: [false; 4],
            several,
        }
    }

    /// Whether all accesses of the interval were of one sort, which doesn't conflict with an access to all of the word.
    #[inline(always)]
    fn all_agree(self, uniform: bool, mark: WordMark) -> bool
        ensures alike { result ≡ true → (k : ℕ) → k < 4 → slice_index_or self.mixed k false ≡ false }
        ensures clear { result ≡ true → (k : ℕ) → mark_clash uniform (byte_mark self.mark k) (byte_mark mark k) ≡ None }
    {
        is_none(self.mixed) && agrees(uniform, self.mark, mark)
    }

    /// Whether two items made accesses of one sort alone in the interval, which is that of an access at all bytes.
    fn repeats(self, alike: [bool; 4]) -> bool
        ensures many { result ≡ true → self.many ≡ true }
        ensures alike { result ≡ true → (k : ℕ) → k < 4 → slice_index_or self.mixed k false ≡ false }
        ensures same { result ≡ true → (k : ℕ) → k < 4 → slice_index_or alike k false ≡ true }
    {
        self.many && is_none(self.mixed) && is_all(alike)
    }

    /// What is seen of an access of an interval.
    #[inline(always)]
    pub fn sight(self, uniform: bool, interval: u32, mark: WordMark) -> Sight
        ensures clear { result.clear ≡ true → (k : ℕ) → k < 4 → passes uniform (word_byte self k) interval (byte_mark mark k) ≡ true }
        ensures told { result.told ≡ true → (k : ℕ) → k < 4 → tells (word_byte self k) interval (byte_mark mark k) ≡ true }
        ensures taken { result.taken ≡ true → (k : ℕ) → k < 4 → takes (word_byte self k) (byte_mark mark k) ≡ true }
    {
        let alike = alike(self.mark, mark);
        let taken = settled(self.several, alike);
        if self.interval != interval {
            return Sight {
                clear: true,
                told: false,
                taken,
            };
        }
        if !self.many && self.mark.item == mark.item {
            return Sight {
                clear: true,
                told: settled(self.mixed, alike),
                taken,
            };
        }
        Sight {
            clear: self.all_agree(uniform, mark),
            told: self.repeats(alike),
            taken,
        }
    }
}
