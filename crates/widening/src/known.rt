//! What the search knows of a register. Nothing rests on it: what is found is checked.
#![tactic(auto)]

use crate::labels::constant_label;
use clnum::Value;
use same_items::Label;

/// A set of numbers. All from 63 on count as one number.
#[derive(Clone, Copy, PartialEq, Eq)]
pub(crate) struct Set {
    bits: u64,
}

/// The set of no number.
pub(crate) const NO_NUMBER: Set = Set { bits: 0 };

impl Set {
    /// The set of one number.
    pub(crate) fn of(number: usize) -> Self {
        if number < 63 {
            Set {
                bits: 1u64 << number,
            }
        } else {
            Set { bits: 1u64 << 63 }
        }
    }

    /// The numbers of both sets.
    pub(crate) fn with(self, other: Set) -> Self {
        Set {
            bits: self.bits | other.bits,
        }
    }

    /// The numbers that another set lacks.
    pub(crate) fn without(self, other: Set) -> Self {
        Set {
            bits: self.bits & !other.bits,
        }
    }

    /// Whether a number is in it.
    pub(crate) fn has(self, number: usize) -> bool {
        self.bits & Set::of(number).bits != 0
    }

    /// Whether it has no number.
    pub(crate) fn is_empty(self) -> bool {
        self.bits == 0
    }
}

/// What is known of a register at a place: whether it may be set, the sources of its number, and the objects that it
/// may point to. Sources are buffers by their places among the launch's, and behind them arguments by their indices.
/// Objects are buffers likewise, and behind them local objects by their numbers.
#[derive(Clone, Copy, PartialEq, Eq)]
pub(crate) struct Known {
    pub(crate) is_set: bool,
    pub(crate) is_divisor: bool,
    pub(crate) sources: Set,
    pub(crate) objects: Set,
}

/// What is known of a register that is never set.
pub(crate) const NOTHING: Known = Known {
    is_set: false,
    is_divisor: true,
    sources: NO_NUMBER,
    objects: NO_NUMBER,
};

impl Known {
    /// A number from these sources.
    pub(crate) fn number(sources: Set) -> Self {
        Known {
            is_set: true,
            is_divisor: false,
            sources,
            objects: NO_NUMBER,
        }
    }

    /// A constant.
    pub(crate) fn constant(value: Value) -> Self {
        Known {
            is_set: true,
            is_divisor: constant_label(value) == Label::Divisor,
            sources: NO_NUMBER,
            objects: NO_NUMBER,
        }
    }

    /// A pointer to an object.
    pub(crate) fn pointer(object: usize) -> Self {
        Known {
            is_set: true,
            is_divisor: false,
            sources: NO_NUMBER,
            objects: Set::of(object),
        }
    }

    /// What is known of a register that comes from two places.
    pub(crate) fn joined(self, other: Known) -> Self {
        Known {
            is_set: self.is_set || other.is_set,
            is_divisor: self.is_divisor && other.is_divisor,
            sources: self.sources.with(other.sources),
            objects: self.objects.with(other.objects),
        }
    }

    /// The same without what is known of divisions.
    pub(crate) fn plain(self) -> Self {
        Known {
            is_set: self.is_set,
            is_divisor: false,
            sources: self.sources,
            objects: self.objects,
        }
    }

    /// A number that is another one for most others.
    pub(crate) fn hash(self) -> u64 {
        let mut hash = self.sources.bits.wrapping_mul(0x9E37_79B9_7F4A_7C15);
        hash ^= self.objects.bits.wrapping_mul(0xC2B2_AE3D_27D4_EB4F);
        if self.is_set {
            hash ^= 1;
        }
        if self.is_divisor {
            hash ^= 2;
        }
        hash ^ (hash >> 32)
    }
}
