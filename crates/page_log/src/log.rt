//! A log with an index by pages.

ghost use Rattle.std.specs.Prelude.{◌≡◌, IfOk, OnOk};
ghost use Rattle.access_list.specs.Log.{IsPlaced, IsNoted, IsKeptOnce, stamped, logged, fresh_log, across};
ghost use Rattle.page_log.specs.Counted.{found_of};
ghost use Rattle.page_log.specs.Pages.{count_on_page};

use crate::between::conflicts_between;
use crate::list::PagedList;
use access_list::{AccessLog, Accesses, Entry, Fenced, Hit, Logged, stamped};
use clmodel::access::Rule;
use std::alloc::{AllocError, Global};

/// A log with an index by object and page of 64 bytes. A new access costs two look-ups in a hash table, and one
/// comparison with each access of the list that is of the same object and touches the same page, whatever its interval.
/// It takes some 64 bytes for each access, and some 40 more for each page.
#[derive(Drop)]
pub struct PageLog {
    list: PagedList,
    local_interval: u32,
    global_interval: u32,
    /// Whether the launch is uniform.
    uniform: bool,
}

impl PageLog {
    /// A log without accesses, in the first interval of both address spaces, of a launch that is uniform or not. It
    /// takes no memory.
    pub fn new(alloc: Global, uniform: bool) -> Self
        ensures { logged result.list.entries.items result.local_interval result.global_interval result.uniform ≡ fresh_log uniform }
    {
        PageLog {
            list: PagedList::new(alloc),
            local_interval: 0,
            global_interval: 0,
            uniform,
        }
    }

    /// Judges a new access as `note` does, and says with how many accesses it was compared: with all that are of the
    /// same object and touch the same page. An error is out of memory, and changes nothing.
    pub fn note_counted(&mut self, entry: Entry) -> Result<(Option<Hit>, u64), AllocError>
        requires { IsPlaced entry }
        ensures noted { IsNoted (logged self.old.list.entries.items self.old.local_interval self.old.global_interval self.old.uniform) entry (logged self.new.list.entries.items self.new.local_interval self.new.global_interval self.new.uniform) (found_of result) }
        ensures once { OnOk result (IsKeptOnce self.old.list.entries.items (stamped (logged self.old.list.entries.items self.old.local_interval self.old.global_interval self.old.uniform) entry) self.new.list.entries.items) }
        ensures counted { IfOk result (λ r. r.1 ≡ count_on_page entry.access self.old.list.entries.items) }
    {
        let entry = stamped(entry, self.global_interval, self.local_interval);
        let tally = self.list.compare(Rule::within_group(self.uniform), &entry);
        if !tally.is_there {
            self.list.push(entry)?;
        }
        Ok((tally.found, tally.compared))
    }

    /// The conflict with the log of a later group of the launch, of its first access that has one: a walk over all
    /// pairs.
    pub fn conflicts_with<M: Accesses>(&self, later: &M) -> Option<Hit>
        requires { (M.Logged.log later.now).uniform ≡ self.now.uniform }
        ensures { result ≡ across self.now.uniform self.now.list.entries.items (M.Logged.log later.now).accesses }
    {
        conflicts_between(self.uniform, self, later)
    }
}

impl Logged for PageLog {
    ghost log = { λ l. logged l.list.entries.items l.local_interval l.global_interval l.uniform };
}

impl Accesses for PageLog {
    fn len(&self) -> usize {
        self.list.entries.len()
    }

    fn get(&self, i: usize) -> Entry {
        self.list.entries[i]
    }
}

impl AccessLog for PageLog {
    /// Judges a new access, and keeps it where it isn't there yet. An error is out of memory, and changes nothing.
    fn note(&mut self, entry: Entry) -> Result<Option<Hit>, AllocError>
        requires { IsPlaced entry }
        ensures noted { IsNoted (logged self.old.list.entries.items self.old.local_interval self.old.global_interval self.old.uniform) entry (logged self.new.list.entries.items self.new.local_interval self.new.global_interval self.new.uniform) result }
        ensures once { OnOk result (IsKeptOnce self.old.list.entries.items (stamped (logged self.old.list.entries.items self.old.local_interval self.old.global_interval self.old.uniform) entry) self.new.list.entries.items) }
    {
        let (found, _) = self.note_counted(entry)?;
        Ok(found)
    }

    fn fence(&mut self, space: Fenced) {
        match space {
            Fenced::Local => self.local_interval += 1,
            Fenced::Global => self.global_interval += 1,
        }
    }
}
