//! Where the accesses of a log are, and what of them is kept at each byte.

ghost use Rattle.std.specs.Prelude.{◌≡◌, ◌≤◌, length, [], ◌∷◌, ◌++◌, if◌then◌else◌, All, IsTrue, is_ok, false, drop};
ghost use Rattle.std.specs.HashMap.{get, IsEmpty};
ghost use Rattle.clmodel.specs.Launch.{within_group};
ghost use Rattle.access_list.specs.Index.{newest_of, IsIndexed};
ghost use Rattle.access_list.specs.Keys.{cell_key, same_cell};
ghost use Rattle.access_list.specs.Log.{IsPlaced, IsThere, hit};

use crate::cells::Cells;
use crate::keys::{AccessKey, access_key};
use crate::log::{Entry, Hit};
use crate::search::{hit, is_among, is_same};
use clmodel::access::{Access, Rule};
use std::alloc::{AllocError, Global};
use std::collections::HashMap;

/// The place of the newest access of each key in a log, and what is kept of the accesses at each byte. A place counts
/// the accesses up to one and with it, and 0 stands for none.
#[derive(Drop)]
pub(crate) struct Index {
    pub(crate) newest: HashMap<AccessKey, usize>,
    pub(crate) cells: Cells,
}

impl Index {
    /// The index of a log without accesses. It takes no memory.
    pub(crate) fn new(alloc: Global) -> Self
        ensures indexed { IsIndexed [] result }
        ensures newest { IsEmpty result.newest }
        ensures starts { IsEmpty result.cells.starts }
        ensures words { result.cells.words.items ≡ [] }
        ensures apart { result.cells.apart.items ≡ [] }
    {
        Index {
            newest: HashMap::new(alloc),
            cells: Cells::new(alloc),
        }
    }

    /// The place of the newest access of a key.
    fn newest(&self, key: AccessKey) -> usize
        ensures { result ≡ newest_of self.now.newest key }
    {
        self.newest.get(&key).copied().unwrap_or(0)
    }
}

/// The conflict of an access with those of a log from a place on, by where the cell of its first byte starts, in a
/// launch that is uniform or not. Only where there may be one are all of them walked.
pub(crate) fn hit_from(
    uniform: bool,
    x: &Entry,
    log: &[Entry],
    index: &Index,
    from: usize,
    cell: Option<usize>,
) -> Option<Hit>
    requires placed { IsPlaced x.now }
    requires all_placed { All IsPlaced log.now }
    requires indexed { IsIndexed log.now index.now }
    requires within { from ≤ length log.now }
    requires found { cell ≡ get same_cell index.now.cells.starts (cell_key x.now.access.region x.now.access.first) }
    ensures { result ≡ hit (within_group uniform) x.now (drop from log.now) }
{
    if index.cells.is_clear(cell, uniform, &x.access) {
        None
    } else {
        hit(Rule::within_group(uniform), x, &log[from..])
    }
}

/// Whether an access is in a log, among those from a place on. Only where another access has its key are all of them
/// walked.
pub(crate) fn is_there(x: &Entry, log: &[Entry], index: &Index, from: usize) -> bool
    requires indexed { IsIndexed log.now index.now }
    requires within { from ≤ length log.now }
    ensures there { IsTrue result → IsThere log.now x.now.access }
    ensures new { result ≡ false → IsThere (drop from log.now) x.now.access → ⊥ }
{
    let place = index.newest(access_key(&x.access));
    if place <= from {
        return false;
    }
    if let Some(y) = log.get(place - 1) {
        if is_same(&y.access, &x.access) {
            return true;
        }
    }
    is_among(&x.access, &log[from..])
}

/// Adds an access to a log and to its index, by where the cell of its first byte starts. Where memory is refused the
/// log stays.
pub(crate) fn keep(
    log: &mut Vec<Entry>,
    index: &mut Index,
    entry: Entry,
    cell: Option<usize>,
) -> Result<(), AllocError>
    requires placed { IsPlaced entry }
    requires found { cell ≡ get same_cell index.old.cells.starts (cell_key entry.access.region entry.access.first) }
    requires indexed { IsIndexed log.old.items index.old }
    ensures items { log.new.items ≡ (if is_ok result then log.old.items ++ entry ∷ [] else log.old.items) }
    ensures indexed { IsIndexed log.new.items index.new }
{
    index.cells.mark(cell, &entry.access)?;
    index
        .newest
        .insert(access_key(&entry.access), log.len() + 1)?;
    log.push(entry)?;
    Ok(())
}
