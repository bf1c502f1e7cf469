//! A log that is a list.

ghost use Rattle.std.specs.Prelude.{◌≡◌, ◌≤◌, ◌+◌, All, OnOk, false, true, length, take};
ghost use Rattle.clmodel.specs.Run.{by_region};
ghost use Rattle.access_list.specs.Index.{IsIndexed};
ghost use Rattle.access_list.specs.Log.{IsPlaced, IsNoted, IsKeptOnce, stamped, logged, fresh_log, in_buffer, across};
ghost use Rattle.access_list.specs.Past.{IsBefore};

use crate::index::{Index, hit_from, is_there, keep};
use crate::log::{AccessLog, Accesses, Entry, Fenced, Hit, Logged, stamped};
use crate::search::hit;
use clmodel::access::{Region, Rule};
use std::alloc::{AllocError, Global};

/// A log with an index: for each word of four bytes, or for each byte of a word that was accessed in part, whose its
/// accesses were in its newest interval and of which kind, and for each access where the newest equal one stands. So a
/// new access costs three look-ups in hash tables, or two where an equal one is there, up to four more where it lies in
/// two cells of eight bytes or is the first of one, and a step or two for each of its words, or of its bytes in a word
/// that was accessed in part, however many items access the same bytes: where nothing has conflicted yet, all accesses
/// of a byte in an interval are of one item or of one kind. Nothing is written where an equal access is there, nor at a
/// word that was accessed by several items in the same way. The index takes some 80 bytes for each cell that was
/// accessed, some 80 more for each word that was accessed in part, and some 30 for each entry.
///
/// A launch that runs keeps its groups' accesses in logs without a list of them, and joins the groups by those accesses
/// alone that tell other groups something new. This list, of all of them, is for results that are merged whole: `get`,
/// `len` and `conflicts_with` ask it. `note` reads one entry of it at most, that of the same key: but where an access
/// may conflict, all entries since the barrier are walked for the exact answer, which ends a launch where there is a
/// conflict. `fence` reads none.
#[derive(Drop)]
pub struct ListLog {
    entries: Vec<Entry>,
    local_interval: u32,
    global_interval: u32,
    /// Whether the launch is uniform.
    uniform: bool,
    /// How many entries there were when the running interval of local memory began.
    local_first: usize,
    /// How many entries there were when the running interval of global memory began.
    global_first: usize,
    index: Index,
    ghost placed: { All IsPlaced entries.items },
    ghost local_start: { local_first ≤ length entries.items },
    ghost global_start: { global_first ≤ length entries.items },
    ghost local_made: { All (IsBefore false (local_interval + 1)) entries.items },
    ghost global_made: { All (IsBefore true (global_interval + 1)) entries.items },
    ghost local_past: { All (IsBefore false local_interval) (take local_first entries.items) },
    ghost global_past: { All (IsBefore true global_interval) (take global_first entries.items) },
    ghost indexed: { IsIndexed entries.items index },
}

impl ListLog {
    /// A log without accesses, in the first interval of both address spaces, of a launch that is uniform or not. It
    /// takes no memory.
    pub fn new(alloc: Global, uniform: bool) -> Self
        ensures { logged result.entries.items result.local_interval result.global_interval result.uniform ≡ fresh_log uniform }
    {
        ListLog {
            entries: Vec::new(alloc),
            local_interval: 0,
            global_interval: 0,
            uniform,
            local_first: 0,
            global_first: 0,
            index: Index::new(alloc),
        }
    }

    /// From where on the entries are that an access of a region can conflict with or be equal to: none before is of its
    /// address space and of the running interval there.
    fn first(&self, region: Region) -> usize
        ensures within { result ≤ length self.now.entries.items }
        ensures past { All (IsBefore (in_buffer region) (by_region region self.now.global_interval self.now.local_interval)) (take result self.now.entries.items) }
    {
        match region {
            Region::Buffer(_) => self.global_first,
            Region::Local { .. } => self.local_first,
        }
    }

    /// The conflict with the log of a later group of the launch, of its first access that has one: a walk over all
    /// pairs.
    pub fn conflicts_with<M: Accesses>(&self, later: &M) -> Option<Hit>
        requires { (M.Logged.log later.now).uniform ≡ self.now.uniform }
        ensures { result ≡ across self.now.uniform self.now.entries.items (M.Logged.log later.now).accesses }
    {
        let rule = Rule::across_groups(self.uniform);
        for i in 0..later.len() {
            let entry = later.get(i);
            if let Region::Buffer(_) = entry.access.region {
                if let Some(found) = hit(rule, &entry, self.entries.as_slice()) {
                    return Some(found);
                }
            }
        }
        None
    }
}

impl Logged for ListLog {
    ghost log = { λ l. logged l.entries.items l.local_interval l.global_interval l.uniform };
}

impl Accesses for ListLog {
    fn len(&self) -> usize {
        self.entries.len()
    }

    fn get(&self, i: usize) -> Entry {
        self.entries[i]
    }
}

impl AccessLog for ListLog {
    /// Judges a new access, and keeps it where it isn't there yet. An error is out of memory, and changes nothing.
    fn note(&mut self, entry: Entry) -> Result<Option<Hit>, AllocError>
        requires { IsPlaced entry }
        ensures noted { IsNoted (logged self.old.entries.items self.old.local_interval self.old.global_interval self.old.uniform) entry (logged self.new.entries.items self.new.local_interval self.new.global_interval self.new.uniform) result }
        ensures once { OnOk result (IsKeptOnce self.old.entries.items (stamped (logged self.old.entries.items self.old.local_interval self.old.global_interval self.old.uniform) entry) self.new.entries.items) }
    {
        let from = self.first(entry.access.region);
        let entry = stamped(entry, self.global_interval, self.local_interval);
        let log = self.entries.as_slice();
        let cell = self
            .index
            .cells
            .found(entry.access.region, entry.access.first);
        let found = hit_from(self.uniform, &entry, log, &self.index, from, cell);
        if !is_there(&entry, log, &self.index, from) {
            keep(&mut self.entries, &mut self.index, entry, cell)?;
        }
        Ok(found)
    }

    fn fence(&mut self, space: Fenced) {
        match space {
            Fenced::Local => {
                self.local_interval += 1;
                self.local_first = self.entries.len();
            }
            Fenced::Global => {
                self.global_interval += 1;
                self.global_first = self.entries.len();
            }
        }
    }
}
