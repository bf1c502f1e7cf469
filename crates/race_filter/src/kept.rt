//! What is kept of the accesses at a word or a byte.

ghost use Rattle.std.specs.Prelude.{◌≡◌};
ghost use Rattle.race_filter.specs.Sorts.{are_of_bytes, is_let, is_of_byte, is_store_of, kept_of, kept_with, lets_behind, lets_by, newest_with, next_kept, written_of};

use crate::sort::Sort;
use clmodel::access::{Access, AccessKind, Width};

/// What a store writes: the low bytes of its value, from a byte of the object on.
#[derive(Clone, Copy)]
pub struct Written {
    pub first: u64,
    pub value: u64,
}

/// What is kept of some accesses.
#[derive(Clone, Copy)]
pub struct Kept {
    /// What all of them have in common
    pub all: Sort,
    /// The work-group of the first of them
    pub group: u32,
    /// They are all of that group
    pub is_one_group: bool,
    /// The highest interval of them
    pub interval: u32,
    /// What those of that interval have in common
    pub newest: Sort,
    /// They are all stores that write this
    pub written: Option<Written>,
    /// They touch one byte each
    pub are_of_bytes: bool,
}

/// Whether an access of this width touches one byte (OpenCL 1.2, section 6.1.1).
pub(crate) fn is_of_byte(width: Width) -> bool
    ensures { result ≡ is_of_byte width }
{
    match width {
        Width::One => true,
        Width::Two | Width::Four | Width::Eight => false,
    }
}

/// What a store writes; none of another access.
fn written_of(x: &Access) -> Option<Written>
    ensures { result ≡ written_of x.now }
{
    match x.kind {
        AccessKind::Store => Some(Written {
            first: x.first,
            value: x.value,
        }),
        AccessKind::Load | AccessKind::Update(_) | AccessKind::Fetch => None,
    }
}

/// Whether an access is a store that writes this.
fn is_store_of(written: Option<Written>, x: &Access) -> bool
    ensures { result ≡ is_store_of written x.now }
{
    let Some(same) = written else {
        return false;
    };
    match x.kind {
        AccessKind::Store => same.first == x.first && same.value == x.value,
        AccessKind::Load | AccessKind::Update(_) | AccessKind::Fetch => false,
    }
}

impl Kept {
    /// That of an access by itself, whose item is of this group.
    fn of(group: u32, x: &Access) -> Self
        ensures { result ≡ kept_of group x.now }
    {
        Kept {
            all: Sort::of(x),
            group,
            is_one_group: true,
            interval: x.interval,
            newest: Sort::of(x),
            written: written_of(x),
            are_of_bytes: is_of_byte(x.width),
        }
    }

    /// What those of the highest interval have in common with one access more.
    fn newest_with(&self, x: &Access) -> Sort
        ensures { result ≡ newest_with self.now x.now }
    {
        if self.interval < x.interval {
            Sort::of(x)
        } else if self.interval == x.interval {
            self.newest.with(x)
        } else {
            self.newest
        }
    }

    /// That of the same accesses and one more, whose item is of this group.
    fn with(&self, group: u32, x: &Access) -> Self
        ensures { result ≡ kept_with group self.now x.now }
    {
        let interval = if self.interval < x.interval {
            x.interval
        } else {
            self.interval
        };
        let written = if is_store_of(self.written, x) {
            self.written
        } else {
            None
        };
        Kept {
            all: self.all.with(x),
            group: self.group,
            is_one_group: self.is_one_group && self.group == group,
            interval,
            newest: self.newest_with(x),
            written,
            are_of_bytes: self.are_of_bytes && is_of_byte(x.width),
        }
    }

    /// Whether an access by an item of this group is behind a barrier that orders it behind all of these (OpenCL 1.2,
    /// section 6.12.8), or behind all but those with which it doesn't race.
    fn lets_behind(&self, group: u32, x: &Access) -> bool
        ensures { result ≡ lets_behind group self.now x.now }
    {
        let is_own = self.is_one_group && self.group == group;
        let is_behind = self.interval < x.interval;
        let is_beside = self.interval == x.interval && self.newest.lets(x);
        is_own && (is_behind || is_beside)
    }

    /// Whether an access by an item of this group races with none of these: by what they have in common, by barriers,
    /// or since it stores what they store in a uniform launch.
    fn lets_by(&self, group: u32, uniform: bool, x: &Access) -> bool
        ensures { result ≡ lets_by group uniform self.now x.now }
    {
        let by_sort = self.all.lets(x);
        let by_barrier = self.lets_behind(group, x);
        let by_store = uniform && is_store_of(self.written, x);
        by_sort || by_barrier || by_store
    }
}

/// What is kept with one access more, whose item is of this group.
pub(crate) fn next_kept(group: u32, found: Option<Kept>, x: &Access) -> Kept
    ensures { result ≡ next_kept group found x.now }
{
    match found {
        Some(kept) => kept.with(group, x),
        None => Kept::of(group, x),
    }
}

/// Whether an access by an item of this group races with none of those of which this is kept.
pub(crate) fn is_let(group: u32, uniform: bool, found: Option<Kept>, x: &Access) -> bool
    ensures { result ≡ is_let group uniform found x.now }
{
    match found {
        Some(kept) => kept.lets_by(group, uniform, x),
        None => true,
    }
}

/// Whether all of those of which this is kept touch one byte.
pub(crate) fn are_of_bytes(found: Option<Kept>) -> bool
    ensures { result ≡ are_of_bytes found }
{
    match found {
        Some(kept) => kept.are_of_bytes,
        None => true,
    }
}
