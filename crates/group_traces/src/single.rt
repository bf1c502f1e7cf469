//! What is kept of a word of which each byte was accessed once.

ghost use Rattle.std.specs.Prelude.{◌≡◌, ◌<◌, ◌≤◌, ◌+◌, ◌%◌, ◌^◌, ℕ, false, true, slice_index_or};
ghost use Rattle.group_traces.specs.Traces.{untouched, first_in, part_with, single_byte, HoldsByte, HoldsBytes};

use crate::trace::Trace;
use access_list::WORD_BYTES;
use clmodel::access::{Access, AccessKind};
use shadow::{Mark, mark_of};

/// Of which kind the accesses were, at which bytes, and what a store left of each; 0 of all other kinds.
#[derive(Clone, Copy)]
pub struct SingleBytes {
    pub kind: AccessKind,
    pub touched: [bool; 4],
    pub left: [u8; 4],
}

/// In which interval the accesses were made, and by which item at each byte.
#[derive(Clone, Copy)]
pub struct SingleItems {
    pub interval: u32,
    pub items: [u32; 4],
}

/// How a group accessed some bytes of a word, each by one item alone, which left one number there: all in one interval,
/// and by accesses of one kind.
#[derive(Clone, Copy)]
pub struct Singles {
    pub how: SingleBytes,
    pub who: SingleItems,
}

/// Whether two kinds are one.
#[inline(always)]
pub(crate) fn is_same(kind: AccessKind, other: AccessKind) -> bool
    ensures same { result ≡ true → kind ≡ other }
    ensures other { result ≡ false → kind ≡ other → ⊥ }
{
    kind == other
}

impl Singles {
    /// No bytes, in an interval and of a kind.
    pub fn none(interval: u32, kind: AccessKind) -> Self
        ensures bytes { (k : ℕ) → k < 4 → single_byte result k ≡ untouched }
        ensures interval { result.who.interval ≡ interval }
        ensures kind { result.how.kind ≡ kind }
        ensures touched { (k : ℕ) → k < 4 → slice_index_or result.how.touched k false ≡ false }
    {
        Singles {
            how: SingleBytes {
                kind,
                touched: [false; 4],
                left: [0; 4],
            },
            who: SingleItems {
                interval,
                items: [0; 4],
            },
        }
    }

    /// Byte k of it.
    pub fn byte(self, k: usize) -> Trace
        requires { k < 4 }
        ensures { result ≡ single_byte self k }
    {
        if !self.how.touched[k] {
            return Trace::untouched();
        }
        Trace {
            interval: self.who.interval,
            mark: Mark {
                item: self.who.items[k],
                kind: self.how.kind,
                left: self.how.left[k],
            },
            touched: true,
            many: false,
            mixed: false,
            several: false,
        }
    }

    /// Whether byte k wasn't accessed, or by an access that leaves this mark, if it is of the same kind.
    fn holds_byte(self, k: usize, mark: Mark) -> bool
        requires { k < 4 }
        ensures { result ≡ true → self.how.kind ≡ mark.kind → HoldsByte self k mark }
    {
        if !self.how.touched[k] {
            return true;
        }
        self.who.items[k] == mark.item && self.how.left[k] == mark.left
    }

    /// Whether each byte is still accessed once where an access is added at so many of them, from the first on.
    #[inline(never)]
    pub fn holds(self, x: &Access, first: u64, count: u64) -> bool
        requires { first + count < 2 ^ 64 }
        ensures { result ≡ true → HoldsBytes self x.now first count }
    {
        if self.who.interval != x.interval || !is_same(self.how.kind, x.kind) {
            return false;
        }
        for byte in first..first + count {
            if !self.holds_byte((byte % WORD_BYTES) as usize, mark_of(x, byte)) {
                return false;
            }
        }
        true
    }

    /// With an access at byte k, of the same interval and kind.
    fn with_byte(self, k: usize, mark: Mark) -> Self
        requires { k < 4 }
        ensures here { self.how.kind ≡ mark.kind → single_byte result k ≡ first_in self.who.interval mark false }
        ensures others { (j : ℕ) → (j ≡ k → ⊥) → single_byte result j ≡ single_byte self j }
        ensures interval { result.who.interval ≡ self.who.interval }
        ensures kind { result.how.kind ≡ self.how.kind }
    {
        let mut singles = self;
        singles.how.touched[k] = true;
        singles.who.items[k] = mark.item;
        singles.how.left[k] = mark.left;
        singles
    }

    /// With an access at so many bytes, from the first on, each of which is still accessed once.
    #[inline(never)]
    pub fn with(self, x: &Access, first: u64, count: u64) -> Self
        requires one_word { first % 4 + count ≤ 4 }
        requires short { first + count < 2 ^ 64 }
        requires holds { HoldsBytes self x.now first count }
        ensures { (k : ℕ) → k < 4 → single_byte result k ≡ part_with x.now first count k (single_byte self k) }
    {
        let mut singles = self;
        for byte in first..first + count {
            singles = singles.with_byte((byte % WORD_BYTES) as usize, mark_of(x, byte));
        }
        singles
    }
}
