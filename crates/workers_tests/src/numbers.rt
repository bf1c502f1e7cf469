//! Groups whose result is their number.
ghost use Rattle.std.specs.Prelude.{◌≡◌, ◌||◌, ◌==◌, true};

use std::alloc::{AllocError, Global};
use workers_draw::work::Work;

/// So many groups, of which two stop where they are among them.
#[derive(Clone, Copy)]
pub struct Numbers {
    pub count: u32,
    pub low: u32,
    pub high: u32,
}

/// What a group came to.
#[derive(Drop)]
pub struct Ended {
    pub group: u32,
    pub stopped: bool,
}

impl Work for Numbers {
    type Output = Ended;

    ghost count = { λ w. w.count };

    ghost gives = { λ w n o. (o.group ≡ n) × (o.stopped ≡ (n == w.low || n == w.high)) };

    ghost stops = { λ w n. (n == w.low || n == w.high) ≡ true };

    ghost number_of = { λ w o. o.group };

    ghost is_stopped = { λ o. o.stopped };

    fn group_count(&self) -> u32 {
        self.count
    }

    fn one_group(&self, _alloc: Global, group: u32) -> Result<Ended, AllocError> {
        let stopped = group == self.low || group == self.high;
        Ok(Ended { group, stopped })
    }

    fn number(&self, output: &Ended) -> u32 {
        output.group
    }

    fn stopped(output: &Ended) -> bool {
        output.stopped
    }

    fn laws(&self) {}
}
