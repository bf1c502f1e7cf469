//! What is kept of the accesses of a group to the objects of an address space.

ghost use Rattle.std.specs.Prelude.{◌≡◌, ◌<◌, ◌≤◌, ◌+◌, ◌/◌, ◌%◌, ◌^◌, ℕ, true, false, nat_eq, OnOk, OnErr, IfOk, MatchOption, length};
ghost use Rattle.std.specs.HashMap.{get};
ghost use Rattle.clmodel.specs.Cells.{byte_count, covers};
ghost use Rattle.clmodel.specs.declared.access.Access.{Access as TheAccess};
ghost use Rattle.shadow.specs.Seen.{byte_mark, mark_of};
ghost use Rattle.group_traces.specs.Cells.{word_trace, word_at, cell_at, cell_trace, at_key, key_of, trace_of, IsOwn, IsNear, IsWritten, IsMarked, IsSame, IsPut, IsPart, IsFitting};
ghost use Rattle.group_traces.specs.Traces.{untouched, passes, tells, takes, part_with};

use crate::cell::{Apart, CELL_WORDS, Cell, TracedWord, bytes_with};
use crate::trace::Sight;
use access_list::{VALUE_BYTES, WORD_BYTES, WORD_VALUES};
use clmodel::access::Access;
use shadow::{WordMark, word_mark};
use std::alloc::{AllocError, Global};
use std::collections::HashMap;

/// How many bytes a cell has.
const CELL_BYTES: u64 = CELL_WORDS as u64 * WORD_BYTES;

/// An access that ends at this byte of its object or later isn't near. The cells before it have numbers below 2^32, as
/// objects have, so that both numbers make one key of 64 bits.
const NEAR_BYTES: u64 = WORD_VALUES * CELL_BYTES;

/// What is kept of each byte of numbered objects, in cells of eight words that were touched.
#[derive(Drop)]
pub struct Traces {
    /// Where the cell of each key stands
    pub(crate) places: HashMap<u64, usize>,
    pub(crate) cells: Vec<Cell>,
    /// The bytes of the words whose bytes are kept apart
    pub(crate) apart: Vec<Apart>,
}

/// What is seen of an access, and where the cell of its bytes stands, if it is there.
#[derive(Clone, Copy)]
pub struct Look {
    pub place: Option<usize>,
    pub sight: Sight,
}

/// Whether the bytes of an access are in one word, or in the two of a pair, and their places are small. The bytes of a
/// kernel's accesses are.
pub fn is_near(x: &Access) -> bool
    requires { x.now.first + byte_count x.now.width < 2 ^ 64 }
    ensures { result ≡ true → IsNear x.now }
{
    let count = x.width.bytes();
    x.first + count < NEAR_BYTES
        && (x.first % WORD_BYTES + count <= WORD_BYTES
            || count == VALUE_BYTES && x.first % VALUE_BYTES == 0)
}

/// The key of the cell of a byte of an object.
fn key_of(number: u32, byte: u64) -> u64
    requires { byte < 2 ^ 37 }
    ensures { result ≡ key_of number byte }
{
    byte / CELL_BYTES * WORD_VALUES + number as u64
}

/// The word of a byte in its cell.
fn word_of(byte: u64) -> usize
    ensures value { result ≡ byte % 32 / 4 }
    ensures small { result < 8 }
{
    (byte % CELL_BYTES / WORD_BYTES) as usize
}

impl Traces {
    /// No accesses. It takes no memory.
    pub fn new(alloc: Global) -> Self
        ensures { (q b : ℕ) → at_key result q b ≡ untouched }
    {
        Traces {
            places: HashMap::new(alloc),
            cells: Vec::new(alloc),
            apart: Vec::new(alloc),
        }
    }

    /// Forgets all accesses, and keeps the memory.
    pub fn clear(&mut self)
        ensures { (q b : ℕ) → at_key self.new q b ≡ untouched }
    {
        self.places.clear();
        self.cells.clear();
        self.apart.clear();
    }

    /// Whether less than an eighth of the memory is in use.
    pub fn is_roomy(&self) -> bool {
        self.cells.len() < self.cells.capacity() / 8
    }

    /// Whether the cell at a place is that of a key.
    fn is_at(&self, i: usize, key: u64) -> bool
        ensures inside { result ≡ true → i < length self.now.cells.items }
        ensures own { result ≡ true → (cell_at self.now.cells.items i).key ≡ key }
        ensures other { result ≡ false → (b : ℕ) → cell_trace self.now.apart.items key (cell_at self.now.cells.items i) b ≡ untouched }
    {
        match self.cells.get(i) {
            None => false,
            Some(cell) => cell.key == key,
        }
    }

    /// What the map says of a key.
    fn place(&self, key: u64) -> Option<usize>
        ensures { result ≡ get nat_eq self.now.places key }
    {
        self.places.get(&key).copied()
    }

    /// Where the cell of a key stands, if it is there.
    fn found(&self, key: u64) -> Option<usize>
        ensures { MatchOption result ((b : ℕ) → at_key self.now key b ≡ untouched) (IsOwn self.now key) }
    {
        match self.place(key) {
            None => None,
            Some(i) => { if self.is_at(i, key) { Some(i) } else { None } }
        }
    }

    /// What is seen of an access at so many bytes of a word, from the first on, by its cell and by the mark of the
    /// access there.
    #[inline(always)]
    fn part(
        &self,
        i: usize,
        uniform: bool,
        x: &Access,
        first: u64,
        count: u64,
        mark: WordMark,
    ) -> Sight
        requires inside { i < length self.now.cells.items }
        requires one_word { first % 4 + count ≤ 4 }
        requires short { first + count < 2 ^ 64 }
        requires mark { count ≡ 4 → (k : ℕ) → k < 4 → byte_mark mark k ≡ mark_of x.now (first + k) }
        ensures clear { result.clear ≡ true → (byte : ℕ) → first ≤ byte → byte < first + count → passes uniform (word_trace self.now.apart.items (cell_at self.now.cells.items i).key (first % 32 / 4) (word_at (cell_at self.now.cells.items i) (first % 32 / 4)) (byte % 4)) x.now.interval (mark_of x.now byte) ≡ true }
        ensures told { result.told ≡ true → (byte : ℕ) → first ≤ byte → byte < first + count → tells (word_trace self.now.apart.items (cell_at self.now.cells.items i).key (first % 32 / 4) (word_at (cell_at self.now.cells.items i) (first % 32 / 4)) (byte % 4)) x.now.interval (mark_of x.now byte) ≡ true }
        ensures taken { result.taken ≡ true → (byte : ℕ) → first ≤ byte → byte < first + count → takes (word_trace self.now.apart.items (cell_at self.now.cells.items i).key (first % 32 / 4) (word_at (cell_at self.now.cells.items i) (first % 32 / 4)) (byte % 4)) (mark_of x.now byte) ≡ true }
    {
        let cell = &self.cells[i];
        let n = word_of(first);
        cell.words[n].sight(&self.apart, cell.key, n, uniform, x, first, count, mark)
    }

    /// What is seen of an access of eight bytes, by the place of the cell of its bytes.
    #[inline(never)]
    fn pair_sight(&self, i: usize, uniform: bool, x: &Access) -> Sight
        requires inside { i < length self.now.cells.items }
        requires near { IsNear x.now }
        requires wide { 4 < byte_count x.now.width }
        ensures clear { result.clear ≡ true → (number : ℕ) → IsOwn self.now (key_of number x.now.first) i → (byte : ℕ) → covers x.now.first (byte_count x.now.width) byte ≡ true → passes uniform (trace_of self.now number byte) x.now.interval (mark_of x.now byte) ≡ true }
        ensures told { result.told ≡ true → (number : ℕ) → IsOwn self.now (key_of number x.now.first) i → (byte : ℕ) → covers x.now.first (byte_count x.now.width) byte ≡ true → tells (trace_of self.now number byte) x.now.interval (mark_of x.now byte) ≡ true }
        ensures taken { result.taken ≡ true → (number : ℕ) → IsOwn self.now (key_of number x.now.first) i → (byte : ℕ) → covers x.now.first (byte_count x.now.width) byte ≡ true → takes (trace_of self.now number byte) (mark_of x.now byte) ≡ true }
    {
        let low = self.part(i, uniform, x, x.first, WORD_BYTES, word_mark(x, false));
        let high = self.part(
            i,
            uniform,
            x,
            x.first + WORD_BYTES,
            WORD_BYTES,
            word_mark(x, true),
        );
        low.and(high)
    }

    /// What is seen of an access, by the place of the cell of its bytes.
    #[inline(always)]
    fn sight(&self, i: usize, uniform: bool, x: &Access) -> Sight
        requires inside { i < length self.now.cells.items }
        requires near { IsNear x.now }
        ensures clear { result.clear ≡ true → (number : ℕ) → IsOwn self.now (key_of number x.now.first) i → (byte : ℕ) → covers x.now.first (byte_count x.now.width) byte ≡ true → passes uniform (trace_of self.now number byte) x.now.interval (mark_of x.now byte) ≡ true }
        ensures told { result.told ≡ true → (number : ℕ) → IsOwn self.now (key_of number x.now.first) i → (byte : ℕ) → covers x.now.first (byte_count x.now.width) byte ≡ true → tells (trace_of self.now number byte) x.now.interval (mark_of x.now byte) ≡ true }
        ensures taken { result.taken ≡ true → (number : ℕ) → IsOwn self.now (key_of number x.now.first) i → (byte : ℕ) → covers x.now.first (byte_count x.now.width) byte ≡ true → takes (trace_of self.now number byte) (mark_of x.now byte) ≡ true }
    {
        let count = x.width.bytes();
        if count > WORD_BYTES {
            // a copy, so that other accesses needn't lie in memory
            let wide = *x;
            let seen = self.pair_sight(i, uniform, &wide);
            // made anew of its parts, so that what is seen of other accesses doesn't lie where a call answers
            return Sight {
                clear: seen.clear,
                told: seen.told,
                taken: seen.taken,
            };
        }
        self.part(i, uniform, x, x.first, count, word_mark(x, false))
    }

    /// What is seen of an access to an object of a number, in a launch that is uniform or not.
    #[inline(always)]
    pub fn look(&self, uniform: bool, number: u32, x: &Access) -> Look
        requires { IsNear x.now }
        ensures place { MatchOption result.place ((b : ℕ) → at_key self.now (key_of number x.now.first) b ≡ untouched) (IsOwn self.now (key_of number x.now.first)) }
        ensures clear { result.sight.clear ≡ true → (byte : ℕ) → covers x.now.first (byte_count x.now.width) byte ≡ true → passes uniform (trace_of self.now number byte) x.now.interval (mark_of x.now byte) ≡ true }
        ensures told { result.sight.told ≡ true → (byte : ℕ) → covers x.now.first (byte_count x.now.width) byte ≡ true → tells (trace_of self.now number byte) x.now.interval (mark_of x.now byte) ≡ true }
        ensures taken { result.sight.taken ≡ true → (byte : ℕ) → covers x.now.first (byte_count x.now.width) byte ≡ true → takes (trace_of self.now number byte) (mark_of x.now byte) ≡ true }
    {
        let place = self.found(key_of(number, x.first));
        match place {
            None => Look {
                place,
                sight: Sight {
                    clear: true,
                    told: false,
                    taken: false,
                },
            },
            Some(i) => Look {
                place,
                sight: self.sight(i, uniform, x),
            },
        }
    }

    /// Makes the cell of a key, which isn't there, and gives its place.
    fn add(&mut self, key: u64) -> Result<usize, AllocError>
        requires { (b : ℕ) → at_key self.old key b ≡ untouched }
        ensures own { IfOk result (IsOwn self.new key) }
        ensures same { IsSame self.old self.new }
    {
        let i = self.cells.len();
        self.cells.push(Cell {
            key,
            words: [TracedWord::Untouched; CELL_WORDS],
        })?;
        self.places.insert(key, i)?;
        Ok(i)
    }

    /// The place of the cell of a key, which is made where it isn't there.
    fn make(&mut self, place: Option<usize>, key: u64) -> Result<usize, AllocError>
        requires { MatchOption place ((b : ℕ) → at_key self.old key b ≡ untouched) (IsOwn self.old key) }
        ensures own { IfOk result (IsOwn self.new key) }
        ensures same { IsSame self.old self.new }
    {
        match place {
            None => self.add(key),
            Some(i) => Ok(i),
        }
    }

    /// Puts a word of a cell.
    fn put(&mut self, i: usize, n: usize, word: TracedWord)
        requires inside { i < length self.old.cells.items }
        requires small { n < 8 }
        ensures places { self.new.places ≡ self.old.places }
        ensures apart { self.new.apart ≡ self.old.apart }
        ensures cells { IsPut self.old.cells.items i n word self.new.cells.items }
    {
        self.cells[i].words[n] = word;
    }

    /// Keeps the bytes of the word of a byte, in a cell, apart.
    #[inline(never)]
    fn split(&mut self, i: usize, first: u64) -> Result<(), AllocError>
        requires own { IsOwn self.old (cell_at self.old.cells.items i).key i }
        ensures same { IsSame self.old self.new }
        ensures own { (key j : ℕ) → IsOwn self.old key j → IsOwn self.new key j }
        ensures fits { OnOk result ((y : TheAccess) (f c : ℕ) → IsFitting self.new i (first % 32 / 4) y f c) }
        ensures others { (m : ℕ) (y : TheAccess) (f c : ℕ) → (m ≡ first % 32 / 4 → ⊥) → IsFitting self.old i m y f c → IsFitting self.new i m y f c }
    {
        let n = word_of(first);
        let cell = &self.cells[i];
        let key = cell.key;
        let at = self.apart.len();
        let traces = cell.words[n].bytes(&self.apart, key, n);
        self.apart.push(Apart {
            key,
            word: n,
            traces,
        })?;
        self.put(i, n, TracedWord::Apart(at));
        Ok(())
    }

    /// Keeps the bytes of a word of a cell apart, unless an access at so many of them, from the first on, can be added
    /// to what is kept of it.
    #[inline(always)]
    fn fit(&mut self, i: usize, x: &Access, first: u64, count: u64) -> Result<(), AllocError>
        requires own { IsOwn self.old (cell_at self.old.cells.items i).key i }
        requires short { first + count < 2 ^ 64 }
        ensures same { IsSame self.old self.new }
        ensures own { (key j : ℕ) → IsOwn self.old key j → IsOwn self.new key j }
        ensures fits { OnOk result (IsFitting self.new i (first % 32 / 4) x.now first count) }
        ensures others { (m : ℕ) (y : TheAccess) (f c : ℕ) → (m ≡ first % 32 / 4 → ⊥) → IsFitting self.old i m y f c → IsFitting self.new i m y f c }
    {
        let n = word_of(first);
        let cell = &self.cells[i];
        if cell.words[n].fits(&self.apart, cell.key, n, x, first, count) {
            return Ok(());
        }
        self.split(i, first)
    }

    /// Adds an access to so many of the bytes that are kept apart at a place, from the first on.
    #[inline(never)]
    fn write_apart(&mut self, at: usize, x: &Access, first: u64, count: u64)
        requires there { at < length self.old.apart.items }
        requires one_word { first % 4 + count ≤ 4 }
        requires short { first + count < 2 ^ 64 }
        ensures places { self.new.places ≡ self.old.places }
        ensures cells { self.new.cells ≡ self.old.cells }
        ensures apart { IsPart x.now first count self.old.apart.items at self.new.apart.items }
    {
        let own = &mut self.apart[at];
        own.traces = bytes_with(own.traces, x, first, count);
    }

    /// Adds an access to so many bytes of a word that fits, from the first on, by the mark of the access there.
    #[inline(always)]
    fn write(&mut self, i: usize, x: &Access, first: u64, count: u64, mark: WordMark)
        requires inside { i < length self.old.cells.items }
        requires one_word { first % 4 + count ≤ 4 }
        requires short { first + count < 2 ^ 64 }
        requires mark { count ≡ 4 → (k : ℕ) → k < 4 → byte_mark mark k ≡ mark_of x.now (first + k) }
        requires fits { IsFitting self.old i (first % 32 / 4) x.now first count }
        ensures written { (key : ℕ) → IsOwn self.old key i → IsWritten (at_key self.old) (at_key self.new) key (first % 32 / 4) (part_with x.now first count) }
        ensures own { (key j : ℕ) → IsOwn self.old key j → IsOwn self.new key j }
        ensures others { (m : ℕ) (y : TheAccess) (f c : ℕ) → (m ≡ first % 32 / 4 → ⊥) → IsFitting self.old i m y f c → IsFitting self.new i m y f c }
    {
        let n = word_of(first);
        let word = self.cells[i].words[n];
        match word.place() {
            None => self.put(i, n, word.with(x, first, count, mark)),
            Some(at) => self.write_apart(at, x, first, count),
        }
    }

    /// Adds an access to one word of a cell, of which it is at so many bytes.
    #[inline(always)]
    fn mark_one(&mut self, i: usize, x: &Access, count: u64) -> Result<(), AllocError>
        requires own { IsOwn self.old (cell_at self.old.cells.items i).key i }
        requires count { count ≡ byte_count x.now.width }
        requires one_word { x.now.first % 4 + count ≤ 4 }
        requires short { x.now.first + count < 2 ^ 64 }
        ensures marked { OnOk result ((number : ℕ) → number < 2 ^ 32 → IsOwn self.old (key_of number x.now.first) i → IsMarked self.old self.new number x.now) }
        ensures same { OnErr result (IsSame self.old self.new) }
    {
        self.fit(i, x, x.first, count)?;
        self.write(i, x, x.first, count, word_mark(x, false));
        Ok(())
    }

    /// Adds an access of eight bytes to two words of a cell.
    #[inline(never)]
    fn mark_two(&mut self, i: usize, x: &Access) -> Result<(), AllocError>
        requires own { IsOwn self.old (cell_at self.old.cells.items i).key i }
        requires wide { byte_count x.now.width ≡ 8 }
        requires even { x.now.first % 8 ≡ 0 }
        requires short { x.now.first + 8 < 2 ^ 64 }
        ensures marked { OnOk result ((number : ℕ) → number < 2 ^ 32 → IsOwn self.old (key_of number x.now.first) i → IsMarked self.old self.new number x.now) }
        ensures same { OnErr result (IsSame self.old self.new) }
    {
        self.fit(i, x, x.first, WORD_BYTES)?;
        self.fit(i, x, x.first + WORD_BYTES, WORD_BYTES)?;
        self.write(i, x, x.first, WORD_BYTES, word_mark(x, false));
        self.write(i, x, x.first + WORD_BYTES, WORD_BYTES, word_mark(x, true));
        Ok(())
    }

    /// Adds an access to an object of a number, by where the cell of its bytes stands. Where memory is refused nothing
    /// is added.
    pub fn mark(&mut self, place: Option<usize>, number: u32, x: &Access) -> Result<(), AllocError>
        requires near { IsNear x.now }
        requires place { MatchOption place ((b : ℕ) → at_key self.old (key_of number x.now.first) b ≡ untouched) (IsOwn self.old (key_of number x.now.first)) }
        ensures marked { OnOk result (IsMarked self.old self.new number x.now) }
        ensures same { OnErr result (IsSame self.old self.new) }
    {
        let i = self.make(place, key_of(number, x.first))?;
        let count = x.width.bytes();
        if count <= WORD_BYTES {
            self.mark_one(i, x, count)
        } else {
            self.mark_two(i, x)
        }
    }
}
