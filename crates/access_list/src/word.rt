//! What is kept of the accesses to a word of four bytes.

ghost use Rattle.std.specs.Prelude.{◌≡◌, ◌+◌, ◌/◌, ◌%◌, ◌<◌, ◌≤◌, ◌^◌, ℕ, IsTrue, length, slice_index_or};
ghost use Rattle.clmodel.specs.declared.access.Access.{Access as TheAccess};
ghost use Rattle.access_list.specs.Cells.{Passes};
ghost use Rattle.access_list.specs.Recent.{word_left, in_word, nothing, Describes, IsInside};

use crate::compare::left_at;
use crate::recent::Recent;
use crate::sizes::{BYTE_BITS, VALUE_BYTES, WORD_BYTES, WORD_VALUES};
use clmodel::access::Access;

/// What is kept of the accesses to the four bytes of a word.
#[derive(Clone, Copy)]
pub(crate) enum ListedWord {
    /// Of all four at once, as long as each access was to all four
    Whole(Recent),
    /// Of each byte, from this place on in a list of those
    Apart(usize),
}

/// The four bytes of a number from byte k on, as a number, the lowest first.
fn four_from(k: u64, value: u64) -> u32
    ensures { result ≡ value / 256 ^ k % 2 ^ 32 }
{
    if k < VALUE_BYTES {
        ((value >> (BYTE_BITS * k)) % WORD_VALUES) as u32
    } else {
        0
    }
}

/// The number that a store leaves at the four bytes from this one on.
pub(crate) fn word_left(x: &Access, first: u64) -> u32
    ensures { result ≡ word_left x.now first }
{
    four_from(first.saturating_sub(x.first), x.value)
}

impl ListedWord {
    /// What is kept of a byte of the word.
    fn byte(&self, apart: &[Recent], k: u64) -> Recent
        requires inside { IsInside apart.now self.now }
        requires in_word { k < 4 }
        ensures { result ≡ in_word apart.now self.now k }
    {
        match *self {
            ListedWord::Whole(all) => all.byte(k),
            ListedWord::Apart(at) => apart[at + k as usize],
        }
    }

    /// Whether an access passes at each of so many bytes of the word, from the first on.
    #[inline(never)]
    fn bytes_pass(
        &self,
        apart: &[Recent],
        uniform: bool,
        x: &Access,
        first: u64,
        count: u64,
    ) -> bool
        requires inside { IsInside apart.now self.now }
        requires one_word { first % 4 + count ≤ 4 }
        requires short { first + count < 2 ^ 64 }
        ensures { IsTrue result → (byte : ℕ) → first ≤ byte → byte < first + count → Passes uniform (in_word apart.now self.now (byte % 4)) x.now byte }
    {
        for byte in first..first + count {
            let left = left_at(x, byte) as u32;
            if !self.byte(apart, byte % WORD_BYTES).passes(uniform, x, left) {
                return false;
            }
        }
        true
    }

    /// Whether an access passes at so many bytes of the word, from the first on.
    pub(crate) fn passes(
        &self,
        apart: &[Recent],
        uniform: bool,
        x: &Access,
        first: u64,
        count: u64,
    ) -> bool
        requires inside { IsInside apart.now self.now }
        requires one_word { first % 4 + count ≤ 4 }
        requires short { first + count < 2 ^ 64 }
        requires after { x.now.first ≤ first }
        ensures { IsTrue result → (byte : ℕ) → first ≤ byte → byte < first + count → Passes uniform (in_word apart.now self.now (byte % 4)) x.now byte }
    {
        match *self {
            ListedWord::Whole(all) if count == WORD_BYTES => all.passes(
                uniform,
                x,
                word_left(x, first),
            ),
            _ => self.bytes_pass(apart, uniform, x, first, count),
        }
    }
}

/// Adds an access to those of so many bytes of a word, from the first on, of whose bytes is kept what stands from a
/// place on.
pub(crate) fn add(apart: &mut Vec<Recent>, at: usize, x: &Access, first: u64, count: u64)
    requires there { at + 4 ≤ length apart.old.items }
    requires one_word { first % 4 + count ≤ 4 }
    requires short { first + count < 2 ^ 64 }
    ensures long { length apart.new.items ≡ length apart.old.items }
    ensures kept { (k : ℕ) (y : TheAccess) (byte : ℕ) → Describes (slice_index_or apart.old.items k nothing) y byte → Describes (slice_index_or apart.new.items k nothing) y byte }
    ensures added { (byte : ℕ) → first ≤ byte → byte < first + count → Describes (slice_index_or apart.new.items (at + byte % 4) nothing) x.now byte }
{
    for byte in first..first + count {
        let place = at + (byte % WORD_BYTES) as usize;
        let kept = apart[place];
        let left = left_at(x, byte) as u32;
        if !kept.has(x, left) {
            apart[place] = kept.with(x, left);
        }
    }
}
