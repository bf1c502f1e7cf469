//! Words of a cell.

ghost use Rattle.std.specs.Prelude.{◌≡◌, ◌<◌, ◌≤◌, ◌+◌, ◌%◌, ◌^◌, ℕ, List, true, slice_index_or, MatchOption};
ghost use Rattle.shadow.specs.Seen.{byte_mark, mark_of};
ghost use Rattle.group_traces.specs.Traces.{untouched, passes, tells, takes, part_with, single_byte};
ghost use Rattle.group_traces.specs.Cells.{apart_at, own_trace, word_trace, FitsInPlace, IsWhole, IsApart, FitsWith};
ghost use Rattle.group_traces.specs.declared.cell.Apart.{Apart as TheApart};

use crate::single::{SingleBytes, SingleItems, Singles};
use crate::trace::{Sight, Trace};
use crate::word::WordTrace;
use access_list::WORD_BYTES;
use clmodel::access::Access;
use shadow::{WordMark, mark_of};

/// How many words a cell has.
pub(crate) const CELL_WORDS: usize = 8;

/// What is kept of the accesses to a word of four bytes.
#[derive(Clone, Copy)]
pub enum TracedWord {
    Untouched,
    /// Of all four at once, as long as each access was to all four
    Whole(WordTrace),
    /// Of bytes that were accessed once each: the two parts of `Singles`, which take less memory so than as one
    Single(SingleBytes, SingleItems),
    /// Of each byte, at this place of a list of those
    Apart(usize),
}

/// What is kept of each byte of a word.
#[derive(Clone, Copy)]
pub struct Apart {
    /// The key of its cell
    pub key: u64,
    /// Which word of the cell it is
    pub word: usize,
    pub traces: [Trace; 4],
}

/// What is kept of the accesses to eight words.
#[derive(Clone, Copy)]
pub struct Cell {
    pub key: u64,
    pub words: [TracedWord; CELL_WORDS],
}

/// What is kept of byte k of a word of a cell, by the bytes at a place: nothing where they are of another word, which
/// never happens.
fn own_trace(apart: &[Apart], key: u64, n: usize, at: usize, k: usize) -> Trace
    requires { k < 4 }
    ensures { result ≡ own_trace key n (apart_at apart.now at) k }
{
    match apart.get(at) {
        Some(own) if own.key == key && own.word == n => own.traces[k],
        _ => Trace::untouched(),
    }
}

impl TracedWord {
    /// What is kept of byte k of the word, which is word n of a cell.
    pub fn byte(&self, apart: &[Apart], key: u64, n: usize, k: usize) -> Trace
        requires { k < 4 }
        ensures { result ≡ word_trace apart.now key n self.now k }
    {
        match *self {
            TracedWord::Untouched => Trace::untouched(),
            TracedWord::Whole(whole) => whole.byte(k),
            TracedWord::Single(how, who) => Singles { how, who }.byte(k),
            TracedWord::Apart(at) => own_trace(apart, key, n, at, k),
        }
    }

    /// What is kept of each byte of the word.
    pub(crate) fn bytes(&self, apart: &[Apart], key: u64, n: usize) -> [Trace; 4]
        ensures { (k : ℕ) → k < 4 → slice_index_or result k untouched ≡ word_trace apart.now key n self.now k }
    {
        [
            self.byte(apart, key, n, 0),
            self.byte(apart, key, n, 1),
            self.byte(apart, key, n, 2),
            self.byte(apart, key, n, 3),
        ]
    }

    /// Whether an access at so many bytes of the word, from the first on, can be added to what is kept of it.
    #[inline(always)]
    pub(crate) fn fits(
        &self,
        apart: &[Apart],
        key: u64,
        n: usize,
        x: &Access,
        first: u64,
        count: u64,
    ) -> bool
        requires { first + count < 2 ^ 64 }
        ensures { result ≡ true → FitsWith apart.now key n x.now first count self.now }
    {
        match *self {
            TracedWord::Untouched => true,
            TracedWord::Whole(_) => count == WORD_BYTES,
            TracedWord::Single(how, who) => Singles { how, who }.holds(x, first, count),
            TracedWord::Apart(at) => match apart.get(at) {
                None => false,
                Some(own) => own.key == key && own.word == n,
            },
        }
    }

    /// Where its bytes are kept apart, if they are.
    #[inline(always)]
    pub(crate) fn place(self) -> Option<usize>
        ensures { MatchOption result (IsWhole self) (IsApart self) }
    {
        match self {
            TracedWord::Untouched | TracedWord::Whole(_) | TracedWord::Single(_, _) => None,
            TracedWord::Apart(at) => Some(at),
        }
    }

    /// A word of bytes that were accessed once each.
    #[inline(always)]
    fn of_singles(singles: Singles) -> Self
        ensures bytes { (apart : List TheApart) (key n k : ℕ) → word_trace apart key n result k ≡ single_byte singles k }
        ensures whole { IsWhole result }
    {
        TracedWord::Single(singles.how, singles.who)
    }

    /// A word that wasn't accessed, with an access at so many bytes of it.
    #[inline(always)]
    fn first(x: &Access, first: u64, count: u64, mark: WordMark) -> Self
        requires one_word { first % 4 + count ≤ 4 }
        requires short { first + count < 2 ^ 64 }
        requires mark { count ≡ 4 → (k : ℕ) → k < 4 → byte_mark mark k ≡ mark_of x.now (first + k) }
        ensures with { (apart : List TheApart) (key n k : ℕ) → k < 4 → word_trace apart key n result k ≡ part_with x.now first count k untouched }
        ensures whole { IsWhole result }
    {
        if count == WORD_BYTES {
            return TracedWord::Whole(WordTrace::of(x.interval, mark));
        }
        TracedWord::of_singles(Singles::none(x.interval, x.kind).with(x, first, count))
    }

    /// The word with one access more at so many bytes of it, from the first on, which fits, by the mark of the access
    /// at all of it. One whose bytes are kept apart stays.
    #[inline(always)]
    pub(crate) fn with(self, x: &Access, first: u64, count: u64, mark: WordMark) -> Self
        requires one_word { first % 4 + count ≤ 4 }
        requires short { first + count < 2 ^ 64 }
        requires mark { count ≡ 4 → (k : ℕ) → k < 4 → byte_mark mark k ≡ mark_of x.now (first + k) }
        requires holds { FitsInPlace x.now first count self }
        ensures with { (apart : List TheApart) (key n k : ℕ) → k < 4 → word_trace apart key n result k ≡ part_with x.now first count k (word_trace apart key n self k) }
        ensures whole { IsWhole result }
    {
        match self {
            TracedWord::Untouched => TracedWord::first(x, first, count, mark),
            TracedWord::Whole(whole) => TracedWord::Whole(whole.with(x.interval, mark)),
            TracedWord::Single(how, who) => TracedWord::of_singles(Singles { how, who }.with(
                x, first, count,
            )),
            TracedWord::Apart(_) => self,
        }
    }

    /// What is seen of an access at so many bytes of the word, from the first on.
    #[inline(never)]
    fn bytes_sight(
        &self,
        apart: &[Apart],
        key: u64,
        n: usize,
        uniform: bool,
        x: &Access,
        first: u64,
        count: u64,
    ) -> Sight
        requires one_word { first % 4 + count ≤ 4 }
        requires short { first + count < 2 ^ 64 }
        ensures clear { result.clear ≡ true → (byte : ℕ) → first ≤ byte → byte < first + count → passes uniform (word_trace apart.now key n self.now (byte % 4)) x.now.interval (mark_of x.now byte) ≡ true }
        ensures told { result.told ≡ true → (byte : ℕ) → first ≤ byte → byte < first + count → tells (word_trace apart.now key n self.now (byte % 4)) x.now.interval (mark_of x.now byte) ≡ true }
        ensures taken { result.taken ≡ true → (byte : ℕ) → first ≤ byte → byte < first + count → takes (word_trace apart.now key n self.now (byte % 4)) (mark_of x.now byte) ≡ true }
    {
        let mut sight = Sight {
            clear: true,
            told: true,
            taken: true,
        };
        for byte in first..first + count {
            let trace = self.byte(apart, key, n, (byte % WORD_BYTES) as usize);
            sight = sight.and(trace.sight(uniform, x.interval, mark_of(x, byte)));
        }
        sight
    }

    /// The same, by the mark of the access at the whole word, if it is at all of it.
    #[inline(always)]
    pub fn sight(
        &self,
        apart: &[Apart],
        key: u64,
        n: usize,
        uniform: bool,
        x: &Access,
        first: u64,
        count: u64,
        mark: WordMark,
    ) -> Sight
        requires one_word { first % 4 + count ≤ 4 }
        requires short { first + count < 2 ^ 64 }
        requires mark { count ≡ 4 → (k : ℕ) → k < 4 → byte_mark mark k ≡ mark_of x.now (first + k) }
        ensures clear { result.clear ≡ true → (byte : ℕ) → first ≤ byte → byte < first + count → passes uniform (word_trace apart.now key n self.now (byte % 4)) x.now.interval (mark_of x.now byte) ≡ true }
        ensures told { result.told ≡ true → (byte : ℕ) → first ≤ byte → byte < first + count → tells (word_trace apart.now key n self.now (byte % 4)) x.now.interval (mark_of x.now byte) ≡ true }
        ensures taken { result.taken ≡ true → (byte : ℕ) → first ≤ byte → byte < first + count → takes (word_trace apart.now key n self.now (byte % 4)) (mark_of x.now byte) ≡ true }
    {
        match *self {
            TracedWord::Untouched => Sight {
                clear: true,
                told: count == 0,
                taken: count == 0,
            },
            TracedWord::Whole(whole) if count == WORD_BYTES => whole.sight(
                uniform, x.interval, mark,
            ),
            _ => {
                // a copy, so that other accesses needn't lie in memory
                let part = *x;
                let seen = self.bytes_sight(apart, key, n, uniform, &part, first, count);
                Sight {
                    clear: seen.clear,
                    told: seen.told,
                    taken: seen.taken,
                }
            }
        }
    }
}

/// What is kept of four bytes, with an access more that is at so many of them, from the first on.
pub fn bytes_with(traces: [Trace; 4], x: &Access, first: u64, count: u64) -> [Trace; 4]
    requires one_word { first % 4 + count ≤ 4 }
    requires short { first + count < 2 ^ 64 }
    ensures { (k : ℕ) → k < 4 → slice_index_or result k untouched ≡ part_with x.now first count k (slice_index_or traces k untouched) }
{
    let mut traces = traces;
    for byte in first..first + count {
        let k = (byte % WORD_BYTES) as usize;
        traces[k] = traces[k].with(x.interval, mark_of(x, byte));
    }
    traces
}
