//! Cells of eight bytes.

ghost use Rattle.std.specs.Prelude.{◌≡◌, ◌+◌, ◌≤◌, ℕ, [], length, Some, slice_index_or};
ghost use Rattle.std.specs.HashMap.{get, IsEmpty};
ghost use Rattle.access_list.specs.Keys.{same_cell};
ghost use Rattle.access_list.specs.Recent.{no_word, IsInside};
ghost use Rattle.access_list.specs.declared.keys.CellKey.{CellKey as TheCellKey};

use crate::keys::CellKey;
use crate::recent::Recent;
use crate::word::ListedWord;
use std::alloc::Global;
use std::collections::HashMap;

/// What is kept of the accesses to each byte, in cells of eight bytes, which are two words of four: where the two words
/// of a cell start, for those that were accessed.
#[derive(Drop)]
pub(crate) struct Cells {
    pub(crate) starts: HashMap<CellKey, usize>,
    pub(crate) words: Vec<ListedWord>,
    /// What is kept of the bytes of those words that were not only accessed as a whole, four for each
    pub(crate) apart: Vec<Recent>,
    ghost inside: { (key : TheCellKey) (start : ℕ) → get same_cell starts key ≡ Some start → start + 2 ≤ length words.items },
    ghost bytes_inside: { (place : ℕ) → IsInside apart.items (slice_index_or words.items place no_word) },
}

impl Cells {
    /// No cells. It takes no memory.
    pub(crate) fn new(alloc: Global) -> Self
        ensures starts { IsEmpty result.starts }
        ensures words { result.words.items ≡ [] }
        ensures apart { result.apart.items ≡ [] }
    {
        Cells {
            starts: HashMap::new(alloc),
            words: Vec::new(alloc),
            apart: Vec::new(alloc),
        }
    }
}
