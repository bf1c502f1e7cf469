//! What accesses have in common.

ghost use Rattle.std.specs.Prelude.{◌≡◌};
ghost use Rattle.race_filter.specs.Sorts.{is_atomic, is_load, lets, sort_of, sort_with};

use clmodel::access::{Access, AccessKind};

/// What some accesses have in common, as far as it is known.
#[derive(Clone, Copy)]
pub struct Sort {
    /// The item of the first of them
    pub item: u32,
    /// They are all of that item
    pub is_one: bool,
    /// They are all loads
    pub are_loads: bool,
    /// They are all atomic
    pub are_atomic: bool,
}

/// Whether a kind is a load.
fn is_load(kind: AccessKind) -> bool
    ensures { result ≡ is_load kind }
{
    match kind {
        AccessKind::Load => true,
        AccessKind::Store | AccessKind::Update(_) | AccessKind::Fetch => false,
    }
}

/// Whether a kind is atomic (OpenCL 1.2, section 6.12.11).
fn is_atomic(kind: AccessKind) -> bool
    ensures { result ≡ is_atomic kind }
{
    match kind {
        AccessKind::Update(_) | AccessKind::Fetch => true,
        AccessKind::Load | AccessKind::Store => false,
    }
}

impl Sort {
    /// That of an access by itself.
    pub(crate) fn of(x: &Access) -> Self
        ensures { result ≡ sort_of x.now }
    {
        Sort {
            item: x.item,
            is_one: true,
            are_loads: is_load(x.kind),
            are_atomic: is_atomic(x.kind),
        }
    }

    /// That of the same accesses and one more.
    pub(crate) fn with(self, x: &Access) -> Self
        ensures { result ≡ sort_with self x.now }
    {
        Sort {
            item: self.item,
            is_one: self.is_one && self.item == x.item,
            are_loads: self.are_loads && is_load(x.kind),
            are_atomic: self.are_atomic && is_atomic(x.kind),
        }
    }

    /// Whether an access races with none of these, by what they have in common.
    pub(crate) fn lets(self, x: &Access) -> bool
        ensures { result ≡ lets self x.now }
    {
        let own = self.is_one && self.item == x.item;
        let loads = self.are_loads && is_load(x.kind);
        let atomic = self.are_atomic && is_atomic(x.kind);
        own || loads || atomic
    }
}
