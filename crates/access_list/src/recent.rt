//! What is kept of the accesses to a byte, or to all bytes of a word at once.

ghost use Rattle.std.specs.Prelude.{◌≡◌, ℕ, IsTrue, None, true};
ghost use Rattle.clmodel.specs.Cells.{byte_of};
ghost use Rattle.clmodel.specs.Launch.{left_at, within_group, clash_at};
ghost use Rattle.clmodel.specs.declared.access.Access.{Access as TheAccess};
ghost use Rattle.access_list.specs.Cells.{Passes};
ghost use Rattle.access_list.specs.Recent.{is_how, is_item, Describes, nothing, how_part, part_of};

use crate::compare::byte_of;
use crate::kinds::{both_store, clash};
use clmodel::access::{Access, AccessKind};

/// Whose accesses there were in an interval.
#[derive(Clone, Copy)]
pub(crate) enum Who {
    Nobody,
    One(u32),
    Many,
}

/// Of which kind they were, and which number they left, a byte or a word: 0 where none is a store.
#[derive(Clone, Copy)]
pub(crate) enum How {
    One(AccessKind, u32),
    Mixed,
}

/// The accesses that a byte or a whole word had in the newest interval in which it had any.
#[derive(Clone, Copy)]
pub(crate) struct Recent {
    pub(crate) interval: u32,
    pub(crate) who: Who,
    pub(crate) how: How,
}

impl Who {
    /// Whether an item is one of them.
    fn has(self, item: u32) -> bool
        ensures { result ≡ is_item self item }
    {
        match self {
            Who::Nobody => false,
            Who::One(first) => item == first,
            Who::Many => true,
        }
    }
}

impl How {
    /// Whether an access that leaves a number is of their kind and leaves what they left.
    fn has(self, x: &Access, left: u32) -> bool
        ensures { IsTrue result → (part : ℕ → ℕ) (byte : ℕ) → left_at x.now byte ≡ part left → is_how (how_part part self) x.now byte ≡ true }
    {
        match self {
            How::One(kind, first) => x.kind == kind && left == first,
            How::Mixed => true,
        }
    }

    /// These after one more access, which leaves a number.
    fn with(self, x: &Access, left: u32) -> Self
        ensures kept { (part : ℕ → ℕ) (y : TheAccess) (at : ℕ) → is_how (how_part part self) y at ≡ true → is_how (how_part part result) y at ≡ true }
        ensures added { (part : ℕ → ℕ) (byte : ℕ) → left_at x.now byte ≡ part left → is_how (how_part part result) x.now byte ≡ true }
    {
        if self.has(x, left) { self } else { How::Mixed }
    }

    /// Whether an access that leaves a number conflicts with none of them, in a launch that is uniform or not.
    fn agrees(self, uniform: bool, x: &Access, left: u32) -> bool
        ensures { IsTrue result → (part : ℕ → ℕ) (byte : ℕ) (y : TheAccess) → left_at x.now byte ≡ part left → is_how (how_part part self) y byte ≡ true → clash_at (within_group uniform) y x.now byte ≡ None }
    {
        match self {
            How::One(kind, first) if x.kind == kind => {
                clash(x.kind, x.kind).is_none()
                    || uniform && both_store(x.kind, x.kind) && left == first
            }
            _ => false,
        }
    }
}

impl Recent {
    /// No accesses.
    pub(crate) fn nothing() -> Self
        ensures { result ≡ nothing }
    {
        Recent {
            interval: 0,
            who: Who::Nobody,
            how: How::Mixed,
        }
    }

    /// What is kept of a byte of a word, of which this is kept.
    pub(crate) fn byte(self, k: u64) -> Self
        ensures { result ≡ part_of (byte_of k) self }
    {
        let how = match self.how {
            How::One(kind, left) => How::One(kind, byte_of(k, left as u64) as u32),
            How::Mixed => How::Mixed,
        };
        Recent { how, ..self }
    }

    /// Whether an access that leaves a number is one of them already.
    pub(crate) fn has(self, x: &Access, left: u32) -> bool
        ensures { IsTrue result → (part : ℕ → ℕ) (byte : ℕ) → left_at x.now byte ≡ part left → Describes (part_of part self) x.now byte }
    {
        self.interval == x.interval && self.who.has(x.item) && self.how.has(x, left)
    }

    /// The same with one access more, which leaves a number. One of an interval that is over isn't kept.
    pub(crate) fn with(self, x: &Access, left: u32) -> Self
        ensures kept { (part : ℕ → ℕ) (y : TheAccess) (at : ℕ) → Describes (part_of part self) y at → Describes (part_of part result) y at }
        ensures added { (part : ℕ → ℕ) (byte : ℕ) → left_at x.now byte ≡ part left → Describes (part_of part result) x.now byte }
    {
        if x.interval < self.interval {
            return self;
        }
        let alone = Recent {
            interval: x.interval,
            who: Who::One(x.item),
            how: How::One(x.kind, left),
        };
        if self.interval < x.interval {
            return alone;
        }
        let how = self.how.with(x, left);
        match self.who {
            Who::Nobody => alone,
            Who::One(item) if item == x.item => Recent { how, ..self },
            _ => Recent {
                how,
                who: Who::Many,
                ..self
            },
        }
    }

    /// Whether an access that leaves a number conflicts with none of them, in a launch that is uniform or not: it is of
    /// a later interval, all are of its own item, all are of one kind that agrees with its own, or all are stores that
    /// leave what it leaves.
    pub(crate) fn passes(self, uniform: bool, x: &Access, left: u32) -> bool
        ensures { IsTrue result → (part : ℕ → ℕ) (byte : ℕ) → left_at x.now byte ≡ part left → Passes uniform (part_of part self) x.now byte }
    {
        if self.interval != x.interval {
            return self.interval < x.interval;
        }
        match self.who {
            Who::Nobody => true,
            Who::One(item) if item == x.item => true,
            _ => self.how.agrees(uniform, x, left),
        }
    }
}
