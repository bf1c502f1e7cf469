//! What is kept of the accesses to the bytes of one buffer.

ghost use Rattle.std.specs.Prelude.{◌≡◌, List, ◌+◌, ◌*◌, ◌<◌, ◌≤◌, ◌/◌, ◌%◌, ◌==◌, ◌^◌, ℕ, [], length, slice_index_or, true, false, MatchOption, OnOk, OnErr, IfOk};
ghost use Rattle.clmodel.specs.Cells.{byte_count, covers};
ghost use Rattle.shadow.specs.Seen.{is_new, mark_of, against, against_from, byte_mark, is_ready, IsApart, row_of, word_in, cell_in, IsPage, IsMarked};
ghost use Rattle.shadow.specs.declared.words.Bytes.{Bytes as TheBytes};
ghost use Rattle.shadow.specs.declared.words.MarkedWord.{MarkedWord as TheWord};
ghost use Rattle.shadow.specs.declared.words.MarkedWord.TheVariants as word;

use crate::seen::{Mark, Meeting, Seen, against, is_new, mark_of};
use crate::words::{
    Bytes, MarkedWord, WordMark, byte_seen, bytes_of, is_apart, is_ready, mark_in, mark_whole,
    passes, word_mark,
};
use clmodel::access::Access;
use std::alloc::{AllocError, Global};

/// How many bytes a word has.
const WORD_BYTES: usize = access_list::WORD_BYTES as usize;

/// How many bytes the widest access is at.
const VALUE_BYTES: usize = access_list::VALUE_BYTES as usize;

/// How many words a page has.
const PAGE_WORDS: usize = 64;

/// How many bytes a page has.
const PAGE_BYTES: usize = PAGE_WORDS * WORD_BYTES;

/// The words of a buffer, in pages. A page has words once one of them was touched.
#[derive(Drop)]
pub(crate) struct Pages {
    pub(crate) pages: Vec<Vec<MarkedWord>>,
    /// The bytes of the words whose bytes are kept apart
    pub(crate) apart: Vec<Bytes>,
}

/// Places for `count` pages.
#[tactic(auto, using(crate::proofs::Cells::pushed))]
fn grow(alloc: Global, pages: &mut Vec<Vec<MarkedWord>>, count: usize) -> Result<(), AllocError>
    ensures long { OnOk result (count ≤ length pages.new.items) }
    ensures same { (page : ℕ) → row_of pages.new.items page ≡ row_of pages.old.items page }
{
    while pages.len() < count {
        pages.push(Vec::new(alloc))?;
    }
    Ok(())
}

/// Fills the words of a page up to `PAGE_WORDS`.
fn fill(row: &mut Vec<MarkedWord>) -> Result<(), AllocError>
    ensures long { OnOk result (64 ≤ length row.new.items) }
    ensures same { (k : ℕ) → slice_index_or row.new.items k word.Untouched ≡ slice_index_or row.old.items k word.Untouched }
    ensures longer { length row.old.items ≤ length row.new.items }
{
    if row.len() >= PAGE_WORDS {
        return Ok(());
    }
    row.reserve_exact(PAGE_WORDS - row.len())?;
    while row.len() < PAGE_WORDS {
        row.push(MarkedWord::Untouched)?;
    }
    Ok(())
}

/// Marks a word by an access to all of it. Whether what is kept of one of its bytes changes.
fn mark_word(pages: &mut Vec<Vec<MarkedWord>>, number: usize, mark: WordMark) -> bool
    requires page { IsPage pages.old.items (number / 64) }
    requires ready { is_ready (word_in pages.old.items number) ≡ true }
    ensures marked { (apart : List TheBytes) → IsMarked (cell_in apart pages.old.items) (cell_in apart pages.new.items) (λ byte. byte_mark mark (byte % 4)) (4 * number) 4 result }
    ensures kept { (page : ℕ) → IsPage pages.old.items page → IsPage pages.new.items page }
    ensures others { (n : ℕ) → (n ≡ number → ⊥) → word_in pages.new.items n ≡ word_in pages.old.items n }
{
    let row = &mut pages[number / PAGE_WORDS];
    mark_whole(&mut row[number % PAGE_WORDS], mark)
}

/// Marks the word that an access is at, or the two of them. Whether what is kept of one of its bytes changes.
fn mark_words(pages: &mut Vec<Vec<MarkedWord>>, x: &Access, number: usize, count: usize) -> bool
    requires inside { 4 * number + count < 2 ^ 64 }
    requires first { x.now.first ≡ 4 * number }
    requires count { count ≡ byte_count x.now.width }
    requires whole { 4 ≤ count }
    requires there { IsPage pages.old.items (number / 64) }
    requires ready { is_ready (word_in pages.old.items number) ≡ true }
    requires there_two { count ≡ 8 → IsPage pages.old.items ((number + 1) / 64) }
    requires ready_two { count ≡ 8 → is_ready (word_in pages.old.items (number + 1)) ≡ true }
    ensures { (apart : List TheBytes) → IsMarked (cell_in apart pages.old.items) (cell_in apart pages.new.items) (mark_of x.now) (4 * number) count result }
{
    let low = mark_word(pages, number, word_mark(x, false));
    if count == WORD_BYTES {
        return low;
    }
    let high = mark_word(pages, number + 1, word_mark(x, true));
    low || high
}

/// Marks a byte of a word that is kept apart. Whether what is kept of it changes.
fn mark_byte(pages: &[Vec<MarkedWord>], apart: &mut Vec<Bytes>, byte: usize, mark: Mark) -> bool
    requires { IsApart apart.old.items (byte / 4) (word_in pages.now (byte / 4)) }
    ensures kept { (n : ℕ) (w : TheWord) → IsApart apart.old.items n w → IsApart apart.new.items n w }
    ensures marked { IsMarked (cell_in apart.old.items pages.now) (cell_in apart.new.items pages.now) (λ _. mark) byte 1 result }
{
    let number = byte / WORD_BYTES;
    match pages[number / PAGE_WORDS][number % PAGE_WORDS] {
        MarkedWord::Apart(at) => mark_in(&mut apart[at].bytes, byte % WORD_BYTES, mark),
        MarkedWord::Untouched | MarkedWord::Touched(_) | MarkedWord::Mixed(_, _) => unreachable!(),
    }
}

/// Marks `count` bytes from the first on, which an access is at, of words that are kept apart. Whether what is kept of
/// one of them changes.
fn mark_bytes(
    pages: &[Vec<MarkedWord>],
    apart: &mut Vec<Bytes>,
    x: &Access,
    first: usize,
    count: usize,
) -> bool
    requires inside { first + count < 2 ^ 64 }
    requires there { (byte : ℕ) → first ≤ byte → byte < first + count → IsApart apart.old.items (byte / 4) (word_in pages.now (byte / 4)) }
    ensures { IsMarked (cell_in apart.old.items pages.now) (cell_in apart.new.items pages.now) (mark_of x.now) first count result }
{
    if count == 0 {
        return false;
    }
    let here = mark_byte(pages, apart, first, mark_of(x, first as u64));
    let there = mark_bytes(pages, apart, x, first + 1, count - 1);
    here || there
}

/// Keeps what is known of the bytes of a word apart.
fn split_word(
    pages: &mut Vec<Vec<MarkedWord>>,
    apart: &mut Vec<Bytes>,
    number: usize,
) -> Result<(), AllocError>
    requires { IsPage pages.old.items (number / 64) }
    ensures apart { OnOk result (IsApart apart.new.items number (word_in pages.new.items number)) }
    ensures kept { (page : ℕ) → IsPage pages.old.items page → IsPage pages.new.items page }
    ensures others { (n : ℕ) → IsApart apart.old.items n (word_in pages.old.items n) → IsApart apart.new.items n (word_in pages.new.items n) }
    ensures same { (byte : ℕ) → cell_in apart.new.items pages.new.items byte ≡ cell_in apart.old.items pages.old.items byte }
{
    let row = &mut pages[number / PAGE_WORDS];
    let word = row[number % PAGE_WORDS];
    if is_apart(apart, number, word) {
        return Ok(());
    }
    let place = apart.len();
    let bytes = bytes_of(apart, number, word);
    apart.push(bytes)?;
    row[number % PAGE_WORDS] = MarkedWord::Apart(place);
    Ok(())
}

/// The same of the words from `start` to `last`.
fn split_words(
    pages: &mut Vec<Vec<MarkedWord>>,
    apart: &mut Vec<Bytes>,
    start: usize,
    last: usize,
) -> Result<(), AllocError>
    requires inside { last < 2 ^ 63 }
    requires there { (n : ℕ) → start ≤ n → n ≤ last → IsPage pages.old.items (n / 64) }
    ensures apart { OnOk result ((n : ℕ) → start ≤ n → n ≤ last → IsApart apart.new.items n (word_in pages.new.items n)) }
    ensures same { (byte : ℕ) → cell_in apart.new.items pages.new.items byte ≡ cell_in apart.old.items pages.old.items byte }
{
    for number in start..last + 1 {
        split_word(pages, apart, number)?;
    }
    Ok(())
}

impl Pages {
    /// No bytes touched. It takes no memory.
    pub(crate) fn new(alloc: Global) -> Self
        ensures { result.pages.items ≡ [] }
    {
        Pages {
            pages: Vec::new(alloc),
            apart: Vec::new(alloc),
        }
    }

    /// A word that has its place.
    fn word(&self, number: usize) -> Option<&MarkedWord>
        ensures { MatchOption result (word_in self.now.pages.items number ≡ word.Untouched) (λ w. w.now ≡ word_in self.now.pages.items number) }
    {
        match self.pages.get(number / PAGE_WORDS) {
            None => None,
            Some(row) => row.get(number % PAGE_WORDS),
        }
    }

    /// What is kept of a byte.
    pub(crate) fn cell(&self, byte: usize) -> Seen
        ensures { result ≡ cell_in self.now.apart.items self.now.pages.items byte }
    {
        match self.word(byte / WORD_BYTES) {
            None => Seen::Untouched,
            Some(word) => byte_seen(&self.apart, byte / WORD_BYTES, *word, byte % WORD_BYTES),
        }
    }

    /// Whether an access to all of a word, with this mark, is seen to conflict with none there.
    fn passes(&self, uniform: bool, number: usize, mark: WordMark) -> bool
        ensures { result ≡ true → (byte : ℕ) → byte / 4 ≡ number → against uniform (byte_mark mark (byte % 4)) byte (cell_in self.now.apart.items self.now.pages.items byte) ≡ None }
    {
        match self.word(number) {
            None => true,
            Some(word) => passes(uniform, mark, word),
        }
    }

    /// Whether an access is to whole words and is seen to conflict with none there.
    fn passes_whole(&self, uniform: bool, x: &Access, first: usize, count: usize) -> bool
        requires first { first ≡ x.now.first }
        requires count { count ≡ byte_count x.now.width }
        requires inside { first + count < 2 ^ 64 }
        ensures { result ≡ true → (byte : ℕ) → first ≤ byte → byte < first + count → against uniform (mark_of x.now byte) byte (cell_in self.now.apart.items self.now.pages.items byte) ≡ None }
    {
        if first % WORD_BYTES != 0 || count < WORD_BYTES {
            return false;
        }
        let number = first / WORD_BYTES;
        let low = self.passes(uniform, number, word_mark(x, false));
        low && (count == WORD_BYTES || self.passes(uniform, number + 1, word_mark(x, true)))
    }

    /// The conflict of an access on the lowest of n bytes that has one, by whether the launch is uniform.
    fn against(&self, uniform: bool, x: &Access, first: usize, count: usize) -> Option<Meeting>
        requires { first + count < 2 ^ 64 }
        ensures { result ≡ against_from uniform x.now (cell_in self.now.apart.items self.now.pages.items) first count }
    {
        if count == 0 {
            return None;
        }
        let byte = first as u64;
        match against(uniform, mark_of(x, byte), byte, self.cell(first)) {
            Some(meeting) => Some(meeting),
            None => self.against(uniform, x, first + 1, count - 1),
        }
    }

    /// Whether an access is to whole words and is seen to conflict with none.
    pub(crate) fn is_clear(&self, uniform: bool, x: &Access) -> bool
        requires { x.now.first + byte_count x.now.width < 2 ^ 64 }
        ensures { result ≡ true → against_from uniform x.now (cell_in self.now.apart.items self.now.pages.items) x.now.first (byte_count x.now.width) ≡ None }
    {
        let first = x.first as usize;
        let count = x.width.bytes() as usize;
        self.passes_whole(uniform, x, first, count)
    }

    /// The conflict of an access on the lowest of its bytes that has one, by whether the launch is uniform.
    pub(crate) fn meeting(&self, uniform: bool, x: &Access) -> Option<Meeting>
        requires { x.now.first + byte_count x.now.width < 2 ^ 64 }
        ensures { result ≡ against_from uniform x.now (cell_in self.now.apart.items self.now.pages.items) x.now.first (byte_count x.now.width) }
    {
        if self.is_clear(uniform, x) {
            return None;
        }
        let first = x.first as usize;
        let count = x.width.bytes() as usize;
        self.against(uniform, x, first, count)
    }

    /// Gives a page the words that it lacks. An error is out of memory.
    #[inline(never)]
    fn make_page(&mut self, alloc: Global, page: usize) -> Result<(), AllocError>
        requires { page < 2 ^ 63 }
        ensures there { OnOk result (IsPage self.new.pages.items page) }
        ensures kept { (other : ℕ) → IsPage self.old.pages.items other → IsPage self.new.pages.items other }
        ensures same { (byte : ℕ) → cell_in self.new.apart.items self.new.pages.items byte ≡ cell_in self.old.apart.items self.old.pages.items byte }
    {
        grow(alloc, &mut self.pages, page + 1)?;
        fill(&mut self.pages[page])
    }

    /// Gives a page its words, where it lacks some. An error is out of memory.
    // A call would cost each access more than the test: nearly all pages have their words.
    #[inline(always)]
    fn make(&mut self, alloc: Global, page: usize) -> Result<(), AllocError>
        requires { page < 2 ^ 63 }
        ensures there { OnOk result (IsPage self.new.pages.items page) }
        ensures kept { (other : ℕ) → IsPage self.old.pages.items other → IsPage self.new.pages.items other }
        ensures same { (byte : ℕ) → cell_in self.new.apart.items self.new.pages.items byte ≡ cell_in self.old.apart.items self.old.pages.items byte }
    {
        match self.pages.get(page) {
            Some(row) if row.len() >= PAGE_WORDS => Ok(()),
            _ => self.make_page(alloc, page),
        }
    }

    /// The words of the pages of two bytes, which may be one page.
    fn make_both(&mut self, alloc: Global, first: usize, last: usize) -> Result<(), AllocError>
        ensures first { OnOk result (IsPage self.new.pages.items (first / 256)) }
        ensures last { OnOk result (IsPage self.new.pages.items (last / 256)) }
        ensures same { (byte : ℕ) → cell_in self.new.apart.items self.new.pages.items byte ≡ cell_in self.old.apart.items self.old.pages.items byte }
    {
        self.make(alloc, first / PAGE_BYTES)?;
        if last / PAGE_BYTES == first / PAGE_BYTES {
            return Ok(());
        }
        self.make(alloc, last / PAGE_BYTES)
    }

    /// Whether a word that has its place stays one when an access to all of it is added.
    fn is_ready(&self, number: usize) -> bool
        ensures { result ≡ is_ready (word_in self.now.pages.items number) }
    {
        match self.word(number) {
            None => true,
            Some(word) => is_ready(word),
        }
    }

    /// Whether bytes are whole words that stay so when an access to them is added.
    fn is_whole(&self, first: usize, count: usize) -> bool
        requires { first + count < 2 ^ 64 }
        ensures aligned { result ≡ true → (4 * (first / 4) ≡ first) × (4 ≤ count) }
        ensures ready { result ≡ true → is_ready (word_in self.now.pages.items (first / 4)) ≡ true }
        ensures ready_two { result ≡ true → (count ≡ 8) → is_ready (word_in self.now.pages.items (first / 4 + 1)) ≡ true }
    {
        if first % WORD_BYTES != 0 || count < WORD_BYTES {
            return false;
        }
        let number = first / WORD_BYTES;
        self.is_ready(number) && (count != VALUE_BYTES || self.is_ready(number + 1))
    }

    /// Whether an access is new to what is kept of one of `count` bytes.
    fn has_news(&self, x: &Access, first: usize, count: usize) -> bool
        requires { first + count < 2 ^ 64 }
        ensures { result ≡ false → (byte : ℕ) → first ≤ byte → byte < first + count → is_new (cell_in self.now.apart.items self.now.pages.items byte) (mark_of x.now byte) ≡ false }
    {
        for byte in first..first + count {
            if is_new(self.cell(byte), mark_of(x, byte as u64)) {
                return true;
            }
        }
        false
    }

    /// Adds an access. Whether what is kept of one of its bytes changes. Where memory is refused nothing is added.
    pub(crate) fn add(&mut self, alloc: Global, x: &Access) -> Result<bool, AllocError>
        requires { x.now.first + byte_count x.now.width < 2 ^ 64 }
        ensures marked { IfOk result (λ news. IsMarked (cell_in self.old.apart.items self.old.pages.items) (cell_in self.new.apart.items self.new.pages.items) (mark_of x.now) x.now.first (byte_count x.now.width) news) }
        ensures same { OnErr result ((byte : ℕ) → cell_in self.new.apart.items self.new.pages.items byte ≡ cell_in self.old.apart.items self.old.pages.items byte) }
    {
        let first = x.first as usize;
        let count = x.width.bytes() as usize;
        self.make_both(alloc, first, first + count - 1)?;
        if self.is_whole(first, count) {
            return Ok(mark_words(&mut self.pages, x, first / WORD_BYTES, count));
        }
        if !self.has_news(x, first, count) {
            return Ok(false);
        }
        split_words(
            &mut self.pages,
            &mut self.apart,
            first / WORD_BYTES,
            (first + count - 1) / WORD_BYTES,
        )?;
        Ok(mark_bytes(&self.pages, &mut self.apart, x, first, count))
    }
}
