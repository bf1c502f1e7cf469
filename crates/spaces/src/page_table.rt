//! A table of the pages that have copies.

ghost use Rattle.std.specs.Prelude.{◌≡◌, ◌≢◌, ◌+◌, ◌<◌, ◌≤◌, ◌^◌, ℕ, max, length, slice_index, IfOk, OnOk, OnErr};
ghost use Rattle.spaces.specs.Overlay.{copies, copy_at};

use std::alloc::{AllocError, Global};
use std::marker::Model;

/// For each page the count of its copy, or 0. It takes memory in proportion to the pages from the lowest that has a
/// copy to the highest.
#[derive(Drop)]
pub(crate) struct PageTable {
    /// The first page that the row tells of.
    first: usize,
    /// The count of the copy of each page from the first on, up to the last that has one.
    row: Vec<usize>,
}

impl Model for PageTable {
    ghost use Rattle.std.specs.Prelude.{ℕ, ◌+◌, ◌<◌, ◌^◌, length};
    ghost use Rattle.spaces.specs.Overlay.{PageCounts};

    ghost Value = { PageCounts };

    ghost view = { λ t. record { first = t.first; row = t.row.items } };

    ghost invariant = { λ t. t.first + length t.row.items < 2 ^ 64 };
}

impl PageTable {
    /// No page has a copy. It takes no memory.
    pub(crate) fn new(alloc: Global) -> Self
        ensures { (page : ℕ) → copies result page ≡ 0 }
    {
        PageTable {
            first: 0,
            row: Vec::new(alloc),
        }
    }

    /// The count of a page's copy, or 0.
    pub(crate) fn copy_of(&self, page: usize) -> usize
        ensures { result ≡ copies self.now page }
    {
        if page < self.first {
            return 0;
        }
        match self.row.get(page - self.first) {
            None => 0,
            Some(copy) => *copy,
        }
    }

    /// Sets the index of a page's copy. An error is out of memory, and nothing is changed.
    pub(crate) fn set(&mut self, page: usize, copy: usize) -> Result<(), AllocError>
        requires { page + 1 < 2 ^ 64 }
        ensures here { OnOk result (copies self.new page ≡ copy) }
        ensures others { OnOk result ((other : ℕ) → other ≢ page → copies self.new other ≡ copies self.old other) }
        ensures same { OnErr result ((other : ℕ) → copies self.new other ≡ copies self.old other) }
    {
        self.first = reach(&mut self.row, self.first, page)?;
        self.row[page - self.first] = copy;
        Ok(())
    }
}

/// Extends a row that covers the pages from the first on so that it covers one more, and returns the first page that it
/// then covers.
fn reach(row: &mut Vec<usize>, first: usize, page: usize) -> Result<usize, AllocError>
    requires low { page + 1 < 2 ^ 64 }
    requires inside { first + length row.old.items < 2 ^ 64 }
    ensures there { IfOk result (λ begin. (begin ≤ page) × (page < begin + length row.new.items) × (begin + length row.new.items < 2 ^ 64)) }
    ensures same { IfOk result (λ begin. (other : ℕ) → copy_at begin row.new.items other ≡ copy_at first row.old.items other) }
    ensures err { OnErr result (row.new.items ≡ row.old.items) }
{
    if row.is_empty() {
        row.push(0)?;
        return Ok(page);
    }
    if page < first {
        return move_up(row, first, page);
    }
    make_room(row, page - first)?;
    Ok(first)
}

/// Makes a row longer, so that it has a place.
fn make_room(row: &mut Vec<usize>, place: usize) -> Result<(), AllocError>
    requires { place + 1 < 2 ^ 64 }
    ensures long { OnOk result (length row.new.items ≡ max (place + 1) (length row.old.items)) }
    ensures same { OnOk result ((other : ℕ) → slice_index row.new.items other ≡ slice_index row.old.items other) }
    ensures err { OnErr result (row.new.items ≡ row.old.items) }
{
    if row.len() <= place {
        row.resize(place + 1, 0)?;
    }
    Ok(())
}

/// Makes a row begin with a lower page, and answers the page that it then begins with: that page, or a lower one where
/// the row is not yet twice as long. So the entries are moved seldom where pages are copied one by one from the last to
/// the first.
fn move_up(row: &mut Vec<usize>, first: usize, page: usize) -> Result<usize, AllocError>
    requires below { page < first }
    requires inside { first + length row.old.items < 2 ^ 64 }
    ensures lower { IfOk result (λ lowest. (lowest ≤ page) × (length row.new.items + lowest ≡ length row.old.items + first)) }
    ensures same { IfOk result (λ lowest. (other : ℕ) → copy_at lowest row.new.items other ≡ copy_at first row.old.items other) }
    ensures err { OnErr result (row.new.items ≡ row.old.items) }
{
    let lowest = page.min(first.saturating_sub(row.len()));
    let more = first - lowest;
    row.resize(row.len() + more, 0)?;
    row.rotate_right(more);
    Ok(lowest)
}
