//! A list of accesses with an index by pages.

ghost use Rattle.std.specs.Prelude.{◌≡◌, ◌+◌, ◌∷◌, ◌++◌, ◌<◌, ◌≤◌, ◌^◌, [], All, true, length, if◌then◌else◌, is_ok, slice_get};
ghost use Rattle.std.specs.HashMap.{IsEmpty};
ghost use Rattle.clmodel.specs.Cells.{byte_count};
ghost use Rattle.access_list.specs.Log.{IsPlaced};
ghost use Rattle.access_list.specs.declared.log.Entry.{Entry as TheEntry};
ghost use Rattle.page_log.specs.Pages.{share_page, newest_of, IsIndexed, IsNewest, IsOnOnePage};

use crate::pages::{Page, is_on_one_page, page_of, share_page};
use crate::tally::Tally;
use access_list::Entry;
use clmodel::access::{Access, Rule};
use std::alloc::{AllocError, Global};
use std::collections::HashMap;

/// Accesses, the oldest first, linked by the pages that they begin in. A place counts the accesses up to one and with
/// it, and 0 stands for none.
#[derive(Drop)]
pub struct PagedList {
    pub(crate) entries: Vec<Entry>,
    /// Of each page, the place of the newest access that begins there.
    newest: HashMap<Page, usize>,
    /// Of each access, the place of the next older one that begins in its page.
    older: Vec<usize>,
    /// Whether each access touches one page. It does where it begins at a multiple of its width, as all accesses of a
    /// kernel do: then the links find those that share a page with a new one. A list with another is walked whole.
    on_one_page: bool,
    ghost placed: { All IsPlaced entries.items },
    ghost indexed: { IsIndexed entries.items newest older.items },
    ghost single: { on_one_page ≡ true → All (λ (y : TheEntry). IsOnOnePage y.access) entries.items },
}

impl PagedList {
    ghost use Rattle.page_log.specs.Tally.{IsTally};

    /// No accesses. It takes no memory.
    pub(crate) fn new(alloc: Global) -> Self
        ensures { result.entries.items ≡ [] }
    {
        PagedList {
            entries: Vec::new(alloc),
            newest: HashMap::new(alloc),
            older: Vec::new(alloc),
            on_one_page: true,
        }
    }

    /// The place of the newest of the first n accesses that shares a page with this one: a walk.
    fn newest_below(&self, x: &Access, n: usize) -> usize
        requires placed { x.now.first + byte_count x.now.width < 2 ^ 64 }
        requires within { n ≤ length self.now.entries.items }
        ensures { IsNewest (share_page x.now) self.now.entries.items n result }
    {
        let mut place = n;
        while place > 0 && !share_page(x, &self.entries[place - 1].access) {
            place -= 1;
        }
        place
    }

    /// Whether an access and all of the list touch one page each.
    fn is_linked(&self, x: &Access) -> bool
        requires { x.now.first + byte_count x.now.width < 2 ^ 64 }
        ensures on_one_page { result ≡ true → self.now.on_one_page ≡ true }
        ensures own { result ≡ true → IsOnOnePage x.now }
    {
        self.on_one_page && is_on_one_page(x)
    }

    /// The place of the newest access that begins in a page.
    fn link(&self, page: Page) -> usize
        ensures { result ≡ newest_of self.now.newest page }
    {
        self.newest.get(&page).copied().unwrap_or(0)
    }

    /// The place of the newest access that shares a page with this one.
    fn newest(&self, x: &Access) -> usize
        requires { x.now.first + byte_count x.now.width < 2 ^ 64 }
        ensures { IsNewest (share_page x.now) self.now.entries.items (length self.now.entries.items) result }
    {
        if !self.is_linked(x) {
            return self.newest_below(x, self.entries.len());
        }
        self.link(page_of(x))
    }

    /// The place of the next older access that shares a page with this one, after one that does.
    fn older(&self, x: &Access, i: usize) -> usize
        requires placed { x.now.first + byte_count x.now.width < 2 ^ 64 }
        requires within { i < length self.now.entries.items }
        requires shared { (y : TheEntry) → slice_get self.now.entries.items i ≡ Some y → share_page x.now y.access ≡ true }
        ensures { IsNewest (share_page x.now) self.now.entries.items i result }
    {
        if !self.is_linked(x) {
            return self.newest_below(x, i);
        }
        self.older[i]
    }

    /// Compares an access with each that shares a page with it, and counts these.
    pub(crate) fn compare(&self, rule: Rule, x: &Entry) -> Tally
        requires { IsPlaced x.now }
        ensures { IsTally rule x.now self.now.entries.items result }
    {
        let mut tally = Tally::none();
        let mut place = self.newest(&x.access);
        while place > 0 {
            tally = tally.with(rule, x, &self.entries[place - 1]);
            place = self.older(&x.access, place - 1);
        }
        tally
    }

    /// Adds an access at the end. Where memory is refused the accesses stay.
    pub(crate) fn push(&mut self, entry: Entry) -> Result<(), AllocError>
        requires { IsPlaced entry }
        ensures { self.new.entries.items ≡ (if is_ok result then self.old.entries.items ++ entry ∷ [] else self.old.entries.items) }
    {
        let linked = self.is_linked(&entry.access);
        let page = page_of(&entry.access);
        let older = self.link(page);
        self.entries.reserve(1)?;
        self.older.reserve(1)?;
        self.newest.insert(page, self.entries.len() + 1)?;
        self.on_one_page = linked;
        self.older.push_reserved(older);
        self.entries.push_reserved(entry);
        Ok(())
    }
}
