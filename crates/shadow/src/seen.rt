//! What is kept of the accesses to one byte.

ghost use Rattle.std.specs.Prelude.{◌≡◌};
ghost use Rattle.joining.specs.Memory.{writes};
ghost use Rattle.shadow.specs.Seen.{one_sort, mark_of, seen_with, is_new, is_written, mark_clash, met, against, conflict_with};

use access_list::{both_store, clash, kind_number, left_at};
use clmodel::access::{Access, AccessKind, Clash, Conflict};

/// Who accessed a byte, and how.
#[derive(Clone, Copy)]
pub struct Mark {
    pub item: u32,
    pub kind: AccessKind,
    /// The byte that a store left; 0 of all others
    pub left: u8,
}

/// What is kept of the accesses to a byte: the first, and the first of another sort than it, of another kind or a store
/// that left another byte. In a uniform launch or not, each access conflicts with those of one sort alike, and one that
/// passes the first sort conflicts with all others.
#[derive(Clone, Copy)]
pub enum Seen {
    Untouched,
    Touched(Mark),
    Mixed(Mark, Mark),
}

/// A conflict on a byte with an earlier access.
#[derive(Clone, Copy)]
pub struct Meeting {
    pub clash: Clash,
    pub mark: Mark,
    pub byte: u64,
}

impl Meeting {
    /// The conflict with the later access that met it. Of the earlier access item and kind are kept; what else a
    /// conflict says of one is that of the later.
    pub fn conflict(self, later: Access) -> Conflict
        ensures { result ≡ conflict_with self later }
    {
        Conflict {
            earlier: Access {
                item: self.mark.item,
                kind: self.mark.kind,
                ..later
            },
            later,
            byte: self.byte,
            clash: self.clash,
        }
    }
}

/// Who made an access, how, and what a store leaves at this byte.
pub fn mark_of(x: &Access, byte: u64) -> Mark
    ensures { result ≡ mark_of x.now byte }
{
    Mark {
        item: x.item,
        kind: x.kind,
        left: match x.kind {
            AccessKind::Store => left_at(x, byte),
            AccessKind::Load | AccessKind::Update(_) | AccessKind::Fetch => 0,
        },
    }
}

/// Whether two accesses to a byte are of one sort.
pub fn one_sort(a: Mark, b: Mark) -> bool
    ensures { result ≡ one_sort a b }
{
    kind_number(a.kind) == kind_number(b.kind) && a.left == b.left
}

/// A byte with one access more.
pub(crate) fn seen_with(seen: Seen, mark: Mark) -> Seen
    ensures { result ≡ seen_with seen mark }
{
    match seen {
        Seen::Untouched => Seen::Touched(mark),
        Seen::Touched(first) => {
            if one_sort(first, mark) {
                seen
            } else {
                Seen::Mixed(first, mark)
            }
        }
        Seen::Mixed(_, _) => seen,
    }
}

/// Whether an access more changes what is kept of a byte.
pub(crate) fn is_new(seen: Seen, mark: Mark) -> bool
    ensures { result ≡ is_new seen mark }
{
    match seen {
        Seen::Untouched => true,
        Seen::Touched(first) => !one_sort(first, mark),
        Seen::Mixed(_, _) => false,
    }
}

/// Whether an access of a kind writes.
fn writes(kind: AccessKind) -> bool
    ensures { result ≡ writes kind }
{
    match kind {
        AccessKind::Load => false,
        AccessKind::Store | AccessKind::Update(_) | AccessKind::Fetch => true,
    }
}

/// Whether one of the accesses to a byte wrote.
pub(crate) fn is_written(seen: Seen) -> bool
    ensures { result ≡ is_written seen }
{
    match seen {
        Seen::Untouched => false,
        Seen::Touched(first) => writes(first.kind),
        Seen::Mixed(first, other) => writes(first.kind) || writes(other.kind),
    }
}

/// How two accesses to a byte conflict, by whether the launch is uniform.
pub fn mark_clash(uniform: bool, a: Mark, b: Mark) -> Option<Clash>
    ensures { result ≡ mark_clash uniform a b }
{
    if both_store(a.kind, b.kind) && uniform && a.left == b.left {
        None
    } else {
        clash(a.kind, b.kind)
    }
}

/// How an access with the mark `mine` conflicts with an earlier one on a byte.
fn met(uniform: bool, mine: Mark, byte: u64, mark: Mark) -> Option<Meeting>
    ensures { result ≡ met uniform mine byte mark }
{
    let clash = mark_clash(uniform, mark, mine)?;
    Some(Meeting { clash, mark, byte })
}

/// The earliest of what is kept of a byte that an access with the mark `mine` conflicts with.
pub(crate) fn against(uniform: bool, mine: Mark, byte: u64, seen: Seen) -> Option<Meeting>
    ensures { result ≡ against uniform mine byte seen }
{
    match seen {
        Seen::Untouched => None,
        Seen::Touched(first) => met(uniform, mine, byte, first),
        Seen::Mixed(first, other) => match met(uniform, mine, byte, first) {
            Some(meeting) => Some(meeting),
            None => met(uniform, mine, byte, other),
        },
    }
}
