//! What is kept of the accesses to a word: to four bytes, of which the first stands at a multiple of 4.

ghost use Rattle.std.specs.Prelude.{◌≡◌, List, ◌<◌, ◌+◌, ◌==◌, ℕ, true, false, slice_index_or, if◌then◌else◌};
ghost use Rattle.clmodel.specs.Cells.{byte_of};
ghost use Rattle.clmodel.specs.Launch.{left_at};
ghost use Rattle.shadow.specs.Seen.{one_sort, left_by, mark_of, seen_with, is_new, mark_clash, against, byte_mark, bytes_at, own_seen, byte_seen, is_ready, IsApart, half_start};
ghost use Rattle.shadow.specs.declared.seen.Seen.TheVariants as seen;
ghost use Rattle.shadow.specs.declared.words.Bytes.{Bytes as TheBytes};

use crate::seen::{Mark, Seen, is_new, seen_with};
use access_list::{BYTE_BITS, BYTE_VALUES, WORD_VALUES, both_store, clash, kind_number};
use clmodel::access::{Access, AccessKind};

/// Who accessed all four bytes of a word, and how.
#[derive(Clone, Copy)]
pub struct WordMark {
    pub item: u32,
    pub kind: AccessKind,
    /// The number that a store left; 0 of all others
    pub left: u32,
}

/// What is kept of each byte of a word.
#[derive(Clone, Copy)]
pub(crate) struct Bytes {
    /// The number of the word
    pub(crate) word: usize,
    pub(crate) bytes: [Seen; 4],
}

/// What is kept of the accesses to a word.
#[derive(Clone, Copy)]
pub(crate) enum MarkedWord {
    Untouched,
    /// What is kept of each byte is that of one access to all four
    Touched(WordMark),
    /// What is kept of each byte is that of two accesses to all four: of the first alone where they are of one sort at
    /// the byte
    Mixed(WordMark, WordMark),
    /// What is kept of each byte stands at this place in the buffer's list
    Apart(usize),
}

/// The low or the high four bytes of a value.
fn half(value: u64, high: bool) -> u32
    ensures { (k : ℕ) → k < 4 → byte_of k result ≡ byte_of (half_start high + k) value }
{
    if high {
        (value / WORD_VALUES) as u32
    } else {
        (value % WORD_VALUES) as u32
    }
}

/// What an access leaves in the first or the second word that it is at.
fn left_in(x: &Access, high: bool) -> u32
    ensures { (k : ℕ) → k < 4 → byte_of k result ≡ left_by x.now.kind (left_at x.now (x.now.first + (half_start high + k))) }
{
    match x.kind {
        AccessKind::Store => half(x.value, high),
        AccessKind::Load | AccessKind::Update(_) | AccessKind::Fetch => 0,
    }
}

/// The mark of an access at the first or the second word that it is at.
pub fn word_mark(x: &Access, high: bool) -> WordMark
    ensures { (k : ℕ) → k < 4 → byte_mark result k ≡ mark_of x.now (x.now.first + (half_start high + k)) }
{
    WordMark {
        item: x.item,
        kind: x.kind,
        left: left_in(x, high),
    }
}

/// What the mark of a word says of its byte k.
pub fn byte_mark(mark: WordMark, k: usize) -> Mark
    requires { k < 4 }
    ensures { result ≡ byte_mark mark k }
{
    Mark {
        item: mark.item,
        kind: mark.kind,
        left: ((mark.left as u64 >> (BYTE_BITS * k as u64)) % BYTE_VALUES) as u8,
    }
}

/// What is kept of byte k of a word, by the bytes at a place in the list: nothing where they are of another word, which
/// never happens.
fn own_seen(apart: &[Bytes], number: usize, at: usize, k: usize) -> Seen
    requires { k < 4 }
    ensures { result ≡ own_seen number (bytes_at apart.now at) k }
{
    match apart.get(at) {
        Some(own) if own.word == number => own.bytes[k],
        _ => Seen::Untouched,
    }
}

/// What is kept of byte k of a word of this number.
pub(crate) fn byte_seen(apart: &[Bytes], number: usize, word: MarkedWord, k: usize) -> Seen
    requires { k < 4 }
    ensures { result ≡ byte_seen apart.now number word k }
{
    match word {
        MarkedWord::Untouched => Seen::Untouched,
        MarkedWord::Touched(first) => Seen::Touched(byte_mark(first, k)),
        MarkedWord::Mixed(first, other) => seen_with(
            Seen::Touched(byte_mark(first, k)),
            byte_mark(other, k),
        ),
        MarkedWord::Apart(at) => own_seen(apart, number, at, k),
    }
}

/// Whether two stores left the same number.
fn leaves_same(left: u32, other: u32) -> bool
    ensures same { result ≡ true → left ≡ other }
    ensures other { result ≡ false → (k : ℕ) × (k < 4) × ((byte_of k left == byte_of k other) ≡ false) }
{
    left == other
}

/// Whether two accesses to a word are of one sort at each byte.
fn is_one_sort(a: WordMark, b: WordMark) -> bool
    ensures same { result ≡ true → (k : ℕ) → k < 4 → one_sort (byte_mark a k) (byte_mark b k) ≡ true }
    ensures other { result ≡ false → (k : ℕ) × (k < 4) × (one_sort (byte_mark a k) (byte_mark b k) ≡ false) }
{
    kind_number(a.kind) == kind_number(b.kind) && leaves_same(a.left, b.left)
}

/// Whether a word stays one when an access to all of it is added.
pub(crate) fn is_ready(word: &MarkedWord) -> bool
    ensures { result ≡ is_ready word.now }
{
    match word {
        MarkedWord::Untouched | MarkedWord::Touched(_) => true,
        MarkedWord::Mixed(first, other) => kind_number(first.kind) != kind_number(other.kind),
        MarkedWord::Apart(_) => false,
    }
}

/// Marks a word by an access to all of it. Whether what is kept of one of its bytes changes.
pub(crate) fn mark_whole(word: &mut MarkedWord, mark: WordMark) -> bool
    requires { is_ready word.old ≡ true }
    ensures marked { (apart : List TheBytes) (n k : ℕ) → k < 4 → byte_seen apart n word.new k ≡ seen_with (byte_seen apart n word.old k) (byte_mark mark k) }
    ensures quiet { result ≡ false → (apart : List TheBytes) (n k : ℕ) → k < 4 → is_new (byte_seen apart n word.old k) (byte_mark mark k) ≡ false }
    ensures told { result ≡ true → (apart : List TheBytes) (n : ℕ) → (k : ℕ) × (k < 4) × (is_new (byte_seen apart n word.old k) (byte_mark mark k) ≡ true) }
{
    let first = match word {
        MarkedWord::Untouched => {
            *word = MarkedWord::Touched(mark);
            return true;
        }
        MarkedWord::Touched(first) => *first,
        MarkedWord::Mixed(_, _) | MarkedWord::Apart(_) => return false,
    };
    if is_one_sort(first, mark) {
        return false;
    }
    *word = MarkedWord::Mixed(first, mark);
    true
}

/// Whether each byte of a word of this number is kept apart.
pub(crate) fn is_apart(apart: &[Bytes], number: usize, word: MarkedWord) -> bool
    ensures { result ≡ true → IsApart apart.now number word }
{
    match word {
        MarkedWord::Untouched | MarkedWord::Touched(_) | MarkedWord::Mixed(_, _) => false,
        MarkedWord::Apart(at) => match apart.get(at) {
            None => false,
            Some(own) => own.word == number,
        },
    }
}

/// What is kept of each byte of a word of this number.
pub(crate) fn bytes_of(apart: &[Bytes], number: usize, word: MarkedWord) -> Bytes
    ensures word { result.word ≡ number }
    ensures bytes { (k : ℕ) → k < 4 → slice_index_or result.bytes k seen.Untouched ≡ byte_seen apart.now number word k }
{
    let bytes = [
        byte_seen(apart, number, word, 0),
        byte_seen(apart, number, word, 1),
        byte_seen(apart, number, word, 2),
        byte_seen(apart, number, word, 3),
    ];
    Bytes {
        word: number,
        bytes,
    }
}

/// Marks byte k of four. Whether what is kept of it changes.
pub(crate) fn mark_in(bytes: &mut [Seen; 4], k: usize, mark: Mark) -> bool
    requires { k < 4 }
    ensures marked { (j : ℕ) → slice_index_or bytes.new j seen.Untouched ≡ (if k == j then seen_with (slice_index_or bytes.old j seen.Untouched) mark else slice_index_or bytes.old j seen.Untouched) }
    ensures news { result ≡ is_new (slice_index_or bytes.old k seen.Untouched) mark }
{
    let seen = bytes[k];
    bytes[k] = seen_with(seen, mark);
    is_new(seen, mark)
}

/// Whether accesses to all of a word with these marks don't conflict.
#[inline(always)]
pub fn agrees(uniform: bool, a: WordMark, b: WordMark) -> bool
    ensures { result ≡ true → (k : ℕ) → mark_clash uniform (byte_mark a k) (byte_mark b k) ≡ None }
{
    both_store(a.kind, b.kind) && uniform && a.left == b.left || clash(a.kind, b.kind).is_none()
}

/// Whether an access to all of a word is seen to conflict with none of those that are kept.
pub(crate) fn passes(uniform: bool, mark: WordMark, word: &MarkedWord) -> bool
    ensures { result ≡ true → (apart : List TheBytes) (n k byte : ℕ) → k < 4 → against uniform (byte_mark mark k) byte (byte_seen apart n word.now k) ≡ None }
{
    match word {
        MarkedWord::Untouched => true,
        MarkedWord::Touched(first) => agrees(uniform, *first, mark),
        MarkedWord::Mixed(first, other) => agrees(uniform, *first, mark)
            && agrees(uniform, *other, mark),
        MarkedWord::Apart(_) => false,
    }
}
