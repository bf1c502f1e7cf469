//! The accesses of a work-group that tell other groups something new.

ghost use Rattle.std.specs.Prelude.{◌≡◌, ◌<◌, ◌++◌, ◌∷◌, [], All, Bool, List, IfOk, OnOk, true, if◌then◌else◌, length, slice_index_or};
ghost use Rattle.shadow.specs.Lasting.{StandsWith, TellsNews};
ghost use Rattle.access_list.specs.Log.{IsPlaced};
ghost use Rattle.access_list.specs.declared.log.Entry.{Entry as TheEntry};

use crate::footprint::Footprint;
use access_list::{Accesses, Entry};
use std::alloc::{AllocError, Global};

/// Accesses of a work-group as its join to other groups asks for them: in their order, the oldest first. Accesses that
/// tell other groups nothing new may be left out.
pub trait GroupAccesses {
    // the accesses that are there
    ghost listed: { Self → List TheEntry };

    // whether the last of the group's accesses is there
    ghost has_last: { Self → Bool };

    /// How many accesses are there.
    fn len(&self) -> usize
        ensures { result ≡ length (listed self.now) };

    /// An access.
    fn get(&self, i: usize) -> Entry
        requires { i < length (listed self.now) }
        ensures value { result ≡ slice_index_or (listed self.now) i result }
        ensures placed { IsPlaced result };

    /// Whether the last of the group's accesses is there.
    fn has_last(&self) -> bool
        ensures { result ≡ has_last self.now };
}

/// A log has all accesses of its group.
impl<L: Accesses> GroupAccesses for L {
    ghost listed = { λ l. (L.log l).accesses };

    ghost has_last = { λ l. true };

    fn len(&self) -> usize {
        Accesses::len(self)
    }

    fn get(&self, i: usize) -> Entry {
        Accesses::get(self, i)
    }

    fn has_last(&self) -> bool {
        true
    }
}

/// The accesses of a log that tell other groups something new: at most two for each byte of a buffer that was accessed,
/// of some 56 bytes. A result that waits to be joined needs no more.
#[derive(Drop)]
pub struct AccessSummary {
    pub(crate) entries: Vec<Entry>,
    /// Whether the last of the group's accesses is among them
    pub(crate) has_last: bool,
    ghost placed: { All IsPlaced entries.items },
}

/// Keeps an access where it tells something new.
fn keep(entries: &mut Vec<Entry>, entry: Entry, is_new: bool) -> Result<(), AllocError>
    requires placed { IsPlaced entry }
    requires all { All IsPlaced entries.old.items }
    ensures kept { OnOk result (entries.new.items ≡ (if is_new then entries.old.items ++ entry ∷ [] else entries.old.items)) }
    ensures all { OnOk result (All IsPlaced entries.new.items) }
{
    if is_new {
        entries.push(entry)?;
    }
    Ok(())
}

impl AccessSummary {
    /// These accesses, of a group whose last access is one of them or not. Memory to spare is given back, where the
    /// smaller block isn't refused.
    pub fn from_entries(entries: Vec<Entry>, has_last: bool) -> Self
        requires { All IsPlaced entries.items }
        ensures entries { result.entries.items ≡ entries.items }
        ensures has_last { result.has_last ≡ has_last }
    {
        let mut entries = entries;
        entries.shrink_to_fit();
        AccessSummary { entries, has_last }
    }

    /// The accesses of a log that tell other groups something new. An error is out of memory.
    pub fn of<L: Accesses>(alloc: Global, log: &L) -> Result<Self, AllocError>
        ensures stands { IfOk result (λ list. StandsWith list.has_last list.entries.items (L.log log.now).accesses) }
        ensures news { IfOk result (λ list. TellsNews [] list.entries.items (L.log log.now).accesses) }
    {
        let mut footprint = Footprint::new(alloc);
        let mut entries = Vec::new(alloc);
        let mut has_last = false;
        for i in 0..log.len() {
            let entry = log.get(i);
            has_last = footprint.add(alloc, &entry.access)?;
            keep(&mut entries, entry, has_last)?;
        }
        entries.shrink_to_fit();
        Ok(AccessSummary { entries, has_last })
    }
}

impl GroupAccesses for AccessSummary {
    ghost listed = { λ l. l.entries.items };

    ghost has_last = { λ l. l.has_last };

    fn len(&self) -> usize {
        self.entries.len()
    }

    fn get(&self, i: usize) -> Entry {
        self.entries[i]
    }

    fn has_last(&self) -> bool {
        self.has_last
    }
}
