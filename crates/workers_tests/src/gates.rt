//! Gates that hold groups.
use std::alloc::Global;
use std::sync::atomic::{AtomicU64, Ordering};
use std::thread;
use workers_draw::gate::Gate;

/// How often a count is looked at.
const TURNS: u32 = 10_000_000;

/// Looks until a count has come to a number, and answers whether it has.
pub fn comes_to(count: &AtomicU64, number: u64) -> bool {
    for _ in 0..TURNS {
        if count.load(Ordering::SeqCst) >= number {
            return true;
        }
        thread::yield_now();
    }
    false
}

/// Holds the first groups, so many of them, until all of these have entered.
#[derive(Drop)]
pub struct Meeting {
    count: u32,
    entered: AtomicU64,
    met: AtomicU64,
}

impl Meeting {
    /// A gate that no group has entered. It holds the groups below `count`.
    pub fn new(count: u32) -> Self {
        Meeting {
            count,
            entered: AtomicU64::new(0),
            met: AtomicU64::new(0),
        }
    }

    /// How many of the groups went on since all of them had entered.
    pub fn met(&self) -> u64 {
        self.met.load(Ordering::SeqCst)
    }
}

impl Gate for Meeting {
    fn enter(&self, group: u32) {
        if group < self.count {
            self.entered.fetch_add(1, Ordering::SeqCst);
            if comes_to(&self.entered, u64::from(self.count)) {
                self.met.fetch_add(1, Ordering::SeqCst);
            }
        }
    }

    fn leave(&self, _group: u32) {}
}

/// Holds groups until a call has begun, which waits until one has entered.
#[derive(Drop)]
pub struct Coming {
    called: AtomicU64,
    entered: AtomicU64,
    met: AtomicU64,
}

impl Coming {
    /// A gate that no group has entered, before the call.
    pub fn new() -> Self {
        Coming {
            called: AtomicU64::new(0),
            entered: AtomicU64::new(0),
            met: AtomicU64::new(0),
        }
    }

    /// The call: it waits until a group has entered, and answers whether one has.
    pub fn has_come(&self) -> bool {
        self.called.fetch_add(1, Ordering::SeqCst);
        comes_to(&self.entered, 1)
    }

    /// How many groups went on since the call had begun.
    pub fn met(&self) -> u64 {
        self.met.load(Ordering::SeqCst)
    }
}

impl Gate for Coming {
    fn enter(&self, _group: u32) {
        self.entered.fetch_add(1, Ordering::SeqCst);
        if comes_to(&self.called, 1) {
            self.met.fetch_add(1, Ordering::SeqCst);
        }
    }

    fn leave(&self, _group: u32) {}
}

/// Holds one group until another has left.
#[derive(Drop)]
pub struct HighFirst {
    low: u32,
    high: u32,
    left: AtomicU64,
    waited: AtomicU64,
}

impl HighFirst {
    /// A gate that no group has left. It holds group `low`.
    pub fn new(low: u32, high: u32) -> Self {
        HighFirst {
            low,
            high,
            left: AtomicU64::new(0),
            waited: AtomicU64::new(0),
        }
    }

    /// Whether the group that is held went on since the other had left.
    pub fn has_waited(&self) -> bool {
        self.waited.load(Ordering::SeqCst) == 1
    }
}

impl Gate for HighFirst {
    fn enter(&self, group: u32) {
        if group == self.low && comes_to(&self.left, 1) {
            self.waited.fetch_add(1, Ordering::SeqCst);
        }
    }

    fn leave(&self, group: u32) {
        if group == self.high {
            self.left.fetch_add(1, Ordering::SeqCst);
        }
    }
}

/// Counts the calls for each of some groups, and those for others.
#[derive(Drop)]
pub struct Counting {
    /// Of each group how often it has entered, and then how often it has left
    counts: Vec<AtomicU64>,
    others: AtomicU64,
}

impl Counting {
    /// A gate for so many groups that wasn't called. None where memory runs out.
    pub fn new(alloc: Global, groups: u32) -> Option<Self> {
        let mut counts = Vec::new(alloc);
        for _ in 0..2 * u64::from(groups) {
            if counts.push(AtomicU64::new(0)).is_err() {
                return None;
            }
        }
        Some(Counting {
            counts,
            others: AtomicU64::new(0),
        })
    }

    /// Whether each of the groups has entered once and left once, and no other group has.
    pub fn has_each_once(&self) -> bool {
        for count in &self.counts {
            if count.load(Ordering::SeqCst) != 1 {
                return false;
            }
        }
        self.others.load(Ordering::SeqCst) == 0
    }

    /// A call whose count is at a place. One that has none there is for another group.
    fn count(&self, place: usize) {
        match self.counts.get(place) {
            Some(count) => count.fetch_add(1, Ordering::SeqCst),
            None => self.others.fetch_add(1, Ordering::SeqCst),
        };
    }
}

impl Gate for Counting {
    fn enter(&self, group: u32) {
        self.count(2 * group as usize);
    }

    fn leave(&self, group: u32) {
        self.count(2 * group as usize + 1);
    }
}
