//! How the bytes of each cell were accessed last: what is kept, and what it tells of a new access.

ghost use Rattle.std.specs.Prelude.{◌≡◌, ◌+◌, ◌%◌, ◌<◌, ◌≤◌, ◌^◌, ℕ, length, None, Some, slice_index_or, IsTrue, OnOk, IfOk};
ghost use Rattle.std.specs.HashMap.{get};
ghost use Rattle.clmodel.specs.Cells.{byte_count};
ghost use Rattle.clmodel.specs.Launch.{within_group, conflict_between};
ghost use Rattle.clmodel.specs.declared.access.Access.{Access as TheAccess};
ghost use Rattle.access_list.specs.Recent.{Describes, at_place, no_word};
ghost use Rattle.access_list.specs.Cells.{cell_of, IsMarked, Passes, KeepsAll, KeepsWords};
ghost use Rattle.access_list.specs.Keys.{cell_key, same_cell};
ghost use Rattle.access_list.specs.declared.keys.CellKey.{CellKey as TheCellKey};

use crate::cells::Cells;
use crate::keys::{CellKey, cell_key};
use crate::recent::Recent;
use crate::sizes::{CELL_BYTES, WORD_BYTES};
use crate::word::{ListedWord, add, word_left};
use clmodel::access::{Access, Region};
use std::alloc::AllocError;
use std::collections::HashMap;

/// Adds the words of a cell, to which no access was made. Where memory is refused one may be added.
#[tactic(auto, using(crate::proofs::Words::pushed_word))]
fn add_words(words: &mut Vec<ListedWord>) -> Result<(), AllocError>
    ensures long { OnOk result (length words.new.items ≡ length words.old.items + 2) }
    ensures longer { length words.old.items ≤ length words.new.items }
    ensures same { (place : ℕ) → slice_index_or words.new.items place no_word ≡ slice_index_or words.old.items place no_word }
{
    words.push(ListedWord::Whole(Recent::nothing()))?;
    words.push(ListedWord::Whole(Recent::nothing()))?;
    Ok(())
}

/// Adds where the words of a cell start that isn't there. Where memory is refused nothing is added.
fn add_start(
    starts: &mut HashMap<CellKey, usize>,
    key: CellKey,
    start: usize,
) -> Result<(), AllocError>
    requires { get same_cell starts.old key ≡ None }
    ensures there { OnOk result (get same_cell starts.new key ≡ Some start) }
    ensures kept { (q : TheCellKey) (s : ℕ) → get same_cell starts.old q ≡ Some s → get same_cell starts.new q ≡ Some s }
    ensures inside { (long : ℕ) → start + 2 ≤ long → ((q : TheCellKey) (s : ℕ) → get same_cell starts.old q ≡ Some s → s + 2 ≤ long) → (q : TheCellKey) (s : ℕ) → get same_cell starts.new q ≡ Some s → s + 2 ≤ long }
{
    match starts.insert(key, start) {
        Ok(_) => Ok(()),
        Err(_) => Err(AllocError),
    }
}

impl Cells {
    /// Where the words of the cell of a byte start, if it is there.
    pub(crate) fn found(&self, region: Region, byte: u64) -> Option<usize>
        ensures { result ≡ get same_cell self.now.starts (cell_key region byte) }
    {
        self.starts.get(&cell_key(region, byte)).copied()
    }

    /// Whether an access passes the accesses to some bytes of one cell, by where that starts, in a launch that is
    /// uniform or not.
    fn passes(&self, cell: Option<usize>, uniform: bool, x: &Access, first: u64, count: u64) -> bool
        requires found { cell ≡ get same_cell self.now.starts (cell_key x.now.region first) }
        requires one_cell { first % 8 + count ≤ 8 }
        requires short { first + count < 2 ^ 64 }
        requires after { x.now.first ≤ first }
        ensures { IsTrue result → (byte : ℕ) → first ≤ byte → byte < first + count → Passes uniform (cell_of self.now x.now.region byte) x.now byte }
    {
        match cell {
            None => true,
            Some(start) => {
                let here = count.min(WORD_BYTES - first % WORD_BYTES);
                let word = &self.words[start + (first % CELL_BYTES / WORD_BYTES) as usize];
                let next = &self.words[start + 1];
                word.passes(&self.apart, uniform, x, first, here)
                    && (here == count
                        || next.passes(&self.apart, uniform, x, first + here, count - here))
            }
        }
    }

    /// The same of the last bytes of an access, behind the first few, by the cell that they lie in.
    fn next_passes(&self, uniform: bool, x: &Access, here: u64, count: u64) -> bool
        requires one_cell { (x.now.first + here) % 8 + count ≤ 8 }
        requires short { x.now.first + here + count < 2 ^ 64 }
        ensures { IsTrue result → (byte : ℕ) → x.now.first + here ≤ byte → byte < x.now.first + here + count → Passes uniform (cell_of self.now x.now.region byte) x.now byte }
    {
        let first = x.first + here;
        self.passes(self.found(x.region, first), uniform, x, first, count)
    }

    /// Whether an access conflicts with none of those that are kept, by where the cell of its first byte starts, in a
    /// launch that is uniform or not.
    pub(crate) fn is_clear(&self, cell: Option<usize>, uniform: bool, x: &Access) -> bool
        requires short { x.now.first + byte_count x.now.width < 2 ^ 64 }
        requires found { cell ≡ get same_cell self.now.starts (cell_key x.now.region x.now.first) }
        ensures { IsTrue result → (y : TheAccess) (byte : ℕ) → IsMarked self.now y → conflict_between (within_group uniform) y x.now byte ≡ None }
    {
        let count = x.width.bytes();
        let here = count.min(CELL_BYTES - x.first % CELL_BYTES);
        self.passes(cell, uniform, x, x.first, here)
            && (here == count || self.next_passes(uniform, x, here, count - here))
    }

    /// Where the words of the cell of a byte start, which is made if it isn't there.
    fn start(&mut self, cell: Option<usize>, region: Region, byte: u64) -> Result<usize, AllocError>
        requires { cell ≡ get same_cell self.old.starts (cell_key region byte) }
        ensures same { KeepsAll self.old self.new }
        ensures there { IfOk result (λ start. get same_cell self.new.starts (cell_key region byte) ≡ Some start) }
    {
        if let Some(start) = cell {
            return Ok(start);
        }
        let start = self.words.len();
        add_words(&mut self.words)?;
        add_start(&mut self.starts, cell_key(region, byte), start)?;
        Ok(start)
    }

    /// Where what is kept of the bytes of the word at a place stands apart. Until it does, it is what is kept of all of
    /// them. Where memory is refused all stays.
    fn split(&mut self, place: usize) -> Result<usize, AllocError>
        requires { place < length self.old.words.items }
        ensures kept { KeepsWords self.old self.new }
        ensures apart { IfOk result (λ at. slice_index_or self.new.words.items place no_word ≡ ListedWord.Apart at) }
    {
        let word = self.words[place];
        match word {
            ListedWord::Apart(at) => Ok(at),
            ListedWord::Whole(all) => {
                let at = self.apart.len();
                let bytes = [all.byte(0), all.byte(1), all.byte(2), all.byte(3)];
                self.apart.extend_from_slice(&bytes)?;
                self.words[place] = ListedWord::Apart(at);
                Ok(at)
            }
        }
    }

    /// Adds an access to those of all bytes of the word at a place, of which this is kept.
    fn mark_whole(&mut self, place: usize, all: Recent, x: &Access, first: u64)
        requires there { place < length self.old.words.items }
        requires word { slice_index_or self.old.words.items place no_word ≡ ListedWord.Whole all }
        requires even { first % 4 ≡ 0 }
        requires after { x.now.first ≤ first }
        ensures kept { KeepsWords self.old self.new }
        ensures added { (byte : ℕ) → first ≤ byte → byte < first + 4 → Describes (at_place self.new.words.items self.new.apart.items place (byte % 4)) x.now byte }
    {
        let left = word_left(x, first);
        if all.has(x, left) {
            return;
        }
        self.words[place] = ListedWord::Whole(all.with(x, left));
    }

    /// Adds an access to those of so many bytes of the word at a place, from the first on, each of which stands apart
    /// from then on.
    #[inline(never)]
    fn mark_bytes(
        &mut self,
        place: usize,
        x: &Access,
        first: u64,
        count: u64,
    ) -> Result<(), AllocError>
        requires there { place < length self.old.words.items }
        requires one_word { first % 4 + count ≤ 4 }
        requires short { first + count < 2 ^ 64 }
        ensures kept { KeepsWords self.old self.new }
        ensures added { OnOk result ((byte : ℕ) → first ≤ byte → byte < first + count → Describes (at_place self.new.words.items self.new.apart.items place (byte % 4)) x.now byte) }
    {
        let at = self.split(place)?;
        add(&mut self.apart, at, x, first, count);
        Ok(())
    }

    /// Adds an access to those of so many bytes of the word at a place, from the first on.
    fn mark_word(
        &mut self,
        place: usize,
        x: &Access,
        first: u64,
        count: u64,
    ) -> Result<(), AllocError>
        requires there { place < length self.old.words.items }
        requires one_word { first % 4 + count ≤ 4 }
        requires short { first + count < 2 ^ 64 }
        requires after { x.now.first ≤ first }
        ensures kept { KeepsWords self.old self.new }
        ensures added { OnOk result ((byte : ℕ) → first ≤ byte → byte < first + count → Describes (at_place self.new.words.items self.new.apart.items place (byte % 4)) x.now byte) }
    {
        let word = self.words[place];
        match word {
            ListedWord::Whole(all) if count == WORD_BYTES => {
                self.mark_whole(place, all, x, first);
                Ok(())
            }
            _ => self.mark_bytes(place, x, first, count),
        }
    }

    /// Adds an access to those of some bytes of one cell, by where that starts.
    fn mark_part(
        &mut self,
        cell: Option<usize>,
        x: &Access,
        first: u64,
        count: u64,
    ) -> Result<(), AllocError>
        requires found { cell ≡ get same_cell self.old.starts (cell_key x.now.region first) }
        requires one_cell { first % 8 + count ≤ 8 }
        requires short { first + count < 2 ^ 64 }
        requires after { x.now.first ≤ first }
        ensures kept { KeepsAll self.old self.new }
        ensures added { OnOk result ((byte : ℕ) → first ≤ byte → byte < first + count → Describes (cell_of self.new x.now.region byte) x.now byte) }
    {
        let start = self.start(cell, x.region, first)?;
        let here = count.min(WORD_BYTES - first % WORD_BYTES);
        self.mark_word(
            start + (first % CELL_BYTES / WORD_BYTES) as usize,
            x,
            first,
            here,
        )?;
        if here == count {
            return Ok(());
        }
        self.mark_word(start + 1, x, first + here, count - here)
    }

    /// Keeps an access, by where the cell of its first byte starts. Where memory is refused a part of it may be kept.
    pub(crate) fn mark(&mut self, cell: Option<usize>, x: &Access) -> Result<(), AllocError>
        requires short { x.now.first + byte_count x.now.width < 2 ^ 64 }
        requires found { cell ≡ get same_cell self.old.starts (cell_key x.now.region x.now.first) }
        ensures kept { (y : TheAccess) → IsMarked self.old y → IsMarked self.new y }
        ensures added { OnOk result (IsMarked self.new x.now) }
    {
        let count = x.width.bytes();
        let here = count.min(CELL_BYTES - x.first % CELL_BYTES);
        self.mark_part(cell, x, x.first, here)?;
        if here < count {
            let next = self.found(x.region, x.first + here);
            self.mark_part(next, x, x.first + here, count - here)?;
        }
        Ok(())
    }
}
