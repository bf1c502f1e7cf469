//! The accesses of a group that are kept for other groups.

ghost use Rattle.std.specs.Prelude.{◌≡◌, ◌++◌, ◌∷◌, [], All, IfOk, OnOk, false, true, if◌then◌else◌};
ghost use Rattle.access_list.specs.Log.{IsPlaced};

use crate::progressions::Progressions;
use access_list::Entry;
use shadow::AccessSummary;
use std::alloc::{AllocError, Global};

/// The accesses to buffers that tell other groups something that none before tells: at most two for each byte of these.
#[derive(Drop)]
pub(crate) struct Lasting {
    pub(crate) entries: Progressions,
    /// Whether the newest access of the group is one of them.
    pub(crate) has_last: bool,
    ghost placed: { All IsPlaced entries.items },
}

impl Lasting {
    /// No accesses. It takes no memory.
    pub(crate) fn new(alloc: Global) -> Self
        ensures entries { result.entries.items ≡ [] }
        ensures has_last { result.has_last ≡ false }
    {
        Lasting {
            entries: Progressions::new(alloc),
            has_last: false,
        }
    }

    /// Forgets all accesses, and keeps the memory.
    fn forget(&mut self)
        ensures entries { self.new.entries.items ≡ [] }
        ensures has_last { self.new.has_last ≡ false }
    {
        self.entries.clear();
        self.has_last = false;
    }

    /// Forgets all accesses. The memory is kept, or given back where less than an eighth of it was in use.
    pub(crate) fn clear(&mut self, alloc: Global)
        ensures entries { self.new.entries.items ≡ [] }
        ensures has_last { self.new.has_last ≡ false }
    {
        if self.entries.is_roomy() {
            *self = Lasting::new(alloc);
        } else {
            self.forget();
        }
    }

    /// Makes room for one access more, where it is to be kept. Where memory is refused the accesses stay.
    pub(crate) fn make_room(&mut self, news: bool) -> Result<(), AllocError>
        ensures entries { self.new.entries.items ≡ self.old.entries.items }
        ensures has_last { self.new.has_last ≡ self.old.has_last }
        ensures room { OnOk result (news ≡ true → self.new.entries.has_room ≡ true) }
    {
        if news {
            self.entries.reserve()?;
        }
        Ok(())
    }

    /// Keeps an access, for which there is room, where it may tell something new.
    #[inline(always)]
    pub(crate) fn note(&mut self, entry: Entry, news: bool)
        requires placed { IsPlaced entry }
        requires room { news ≡ true → self.old.entries.has_room ≡ true }
        ensures entries { self.new.entries.items ≡ (if news then self.old.entries.items ++ entry ∷ [] else self.old.entries.items) }
        ensures has_last { self.new.has_last ≡ news }
    {
        self.has_last = news;
        if news {
            // a copy, as in `Side::note_entry`
            let kept = entry;
            self.entries.push_reserved(kept);
        }
    }

    /// Passes over an access of which other groups aren't told.
    pub(crate) fn pass(&mut self)
        ensures entries { self.new.entries.items ≡ self.old.entries.items }
        ensures has_last { self.new.has_last ≡ false }
    {
        self.has_last = false;
    }

    /// The accesses as other groups ask for them, copied. An error is out of memory.
    pub(crate) fn list(&self, alloc: Global) -> Result<AccessSummary, AllocError>
        ensures entries { IfOk result (λ list. list.entries.items ≡ self.now.entries.items) }
        ensures has_last { IfOk result (λ list. list.has_last ≡ self.now.has_last) }
    {
        let entries = self.entries.to_vec(alloc)?;
        Ok(AccessSummary::from_entries(entries, self.has_last))
    }
}
