//! What is kept of the accesses to a byte.

ghost use Rattle.std.specs.Prelude.{◌≡◌, ◌&&◌, ◌||◌};
ghost use Rattle.group_traces.specs.Traces.{untouched, grows, trace_with, is_now, passes, tells, takes};

use clmodel::access::AccessKind;
use shadow::{Mark, mark_clash, one_sort};

/// How a group accessed a byte: by which items, and of which sorts, in the newest interval in which it did, and whether
/// there were two sorts in all. Two accesses are of one sort where they are of one kind, and stores leave the same
/// byte.
#[derive(Clone, Copy)]
pub struct Trace {
    pub interval: u32,
    /// The first access of that interval
    pub mark: Mark,
    /// Whether there was any access
    pub touched: bool,
    /// Whether another item than that of the first one accessed it in the interval
    pub many: bool,
    /// Whether an access of another sort than the first one was made in the interval
    pub mixed: bool,
    /// Whether accesses of two sorts were made, in whatever intervals
    pub several: bool,
}

/// What is seen of an access before it is made.
#[derive(Clone, Copy)]
pub struct Sight {
    /// It conflicts with none of its interval.
    pub clear: bool,
    /// Whatever conflicts with it conflicts with one of its interval.
    pub told: bool,
    /// It tells other groups nothing new.
    pub taken: bool,
}

/// Whether one of two holds.
pub(crate) fn or(a: bool, b: bool) -> bool
    ensures { result ≡ (a || b) }
{
    a || b
}

/// Whether both hold.
fn and(a: bool, b: bool) -> bool
    ensures { result ≡ (a && b) }
{
    a && b
}

impl Sight {
    /// What holds of both.
    pub fn and(self, other: Sight) -> Self
        ensures clear { result.clear ≡ (self.clear && other.clear) }
        ensures told { result.told ≡ (self.told && other.told) }
        ensures taken { result.taken ≡ (self.taken && other.taken) }
    {
        Sight {
            clear: and(self.clear, other.clear),
            told: and(self.told, other.told),
            taken: and(self.taken, other.taken),
        }
    }
}

impl Trace {
    /// Of no access.
    pub fn untouched() -> Self
        ensures { result ≡ untouched }
    {
        Trace {
            interval: 0,
            mark: Mark {
                item: 0,
                kind: AccessKind::Load,
                left: 0,
            },
            touched: false,
            many: false,
            mixed: false,
            several: false,
        }
    }

    /// Whether accesses were of two sorts, with one more.
    fn grows(self, mark: Mark) -> bool
        ensures { result ≡ grows self mark }
    {
        self.touched && (self.several || !one_sort(self.mark, mark))
    }

    /// With one access more, made in an interval.
    pub fn with(self, interval: u32, mark: Mark) -> Self
        ensures { result ≡ trace_with self interval mark }
    {
        let several = self.grows(mark);
        if !self.is_now(interval) {
            return Trace {
                interval,
                mark,
                touched: true,
                many: false,
                mixed: false,
                several,
            };
        }
        Trace {
            many: or(self.many, self.mark.item != mark.item),
            mixed: or(self.mixed, !one_sort(self.mark, mark)),
            several,
            ..self
        }
    }

    /// Whether it was accessed in an interval.
    fn is_now(self, interval: u32) -> bool
        ensures { result ≡ is_now self interval }
    {
        self.touched && self.interval == interval
    }

    /// Whether an access of an interval is seen to conflict with none of it.
    fn passes(self, uniform: bool, interval: u32, mark: Mark) -> bool
        ensures { result ≡ passes uniform self interval mark }
    {
        !self.is_now(interval)
            || !self.many && self.mark.item == mark.item
            || !self.mixed && mark_clash(uniform, self.mark, mark).is_none()
    }

    /// Whether whatever conflicts with an access of an interval is seen to conflict with one of it.
    fn tells(self, interval: u32, mark: Mark) -> bool
        ensures { result ≡ tells self interval mark }
    {
        if !self.is_now(interval) {
            return false;
        }
        if self.many {
            return !self.mixed && one_sort(self.mark, mark);
        }
        self.mark.item == mark.item && (self.mixed || one_sort(self.mark, mark))
    }

    /// Whether an access is seen to tell other groups nothing new.
    fn takes(self, mark: Mark) -> bool
        ensures { result ≡ takes self mark }
    {
        self.touched && (self.several || one_sort(self.mark, mark))
    }

    /// What is seen of an access of an interval.
    pub fn sight(self, uniform: bool, interval: u32, mark: Mark) -> Sight
        ensures clear { result.clear ≡ passes uniform self interval mark }
        ensures told { result.told ≡ tells self interval mark }
        ensures taken { result.taken ≡ takes self mark }
    {
        Sight {
            clear: self.passes(uniform, interval, mark),
            told: self.tells(interval, mark),
            taken: self.takes(mark),
        }
    }
}
