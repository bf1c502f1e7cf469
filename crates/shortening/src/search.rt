//! The search for a shorter schedule: the best one so far, and what may still be judged.

ghost use Rattle.std.specs.Prelude.{◌≡◌, ◌≤◌, ◌<◌, ◌-◌, ◌^◌, IsTrue};
ghost use Rattle.clmodel.specs.Outcome.{events_of};

use crate::judge::Judge;
use crate::runs::event_count;
use clmodel::schedule::{EventRun, Schedule};
use std::alloc::AllocError;

/// How many schedules are judged at most.
pub(crate) const MOST: u32 = 200;

/// How many times the events of the given schedule are judged at most.
const TIMES: u64 = 20;

/// The best schedule so far, and what may still be judged.
#[derive(Drop)]
pub struct Search {
    pub(crate) best: Schedule,
    /// How many schedules may still be judged.
    pub(crate) left: u32,
    /// How many events these may have, all together.
    events_left: u64,
}

impl Search {
    ghost use Rattle.shortening.specs.Searches.{Advances, event_count};

    /// Begins with a schedule.
    pub(crate) fn new(best: Schedule) -> Self
        ensures best { result.best ≡ best }
        ensures left { result.left ≡ 200 }
    {
        let events_left = event_count(best.as_slice()).saturating_mul(TIMES);
        Search {
            best,
            left: MOST,
            events_left,
        }
    }

    /// Whether nothing more may be judged.
    pub(crate) fn is_done(&self) -> bool {
        self.left == 0 || self.events_left == 0
    }

    /// Whether a schedule of so many events may be judged: it isn't longer than the best.
    fn admits(&self, count: u64) -> bool
        ensures left { IsTrue result → 0 < self.now.left }
        ensures events { IsTrue result → count ≤ self.now.events_left }
        ensures exact { IsTrue result → count < 2 ^ 64 - 1 }
        ensures not_longer { IsTrue result → count ≤ event_count self.now.best }
    {
        self.left > 0
            && count <= self.events_left
            && count < u64::MAX
            && count <= event_count(self.best.as_slice())
    }

    /// Judges a schedule, where that may be, and takes it as the best one where it leads to the fault.
    pub(crate) fn try_schedule<J: Judge>(
        &mut self,
        judge: &mut J,
        runs: Vec<EventRun>,
    ) -> Result<bool, AllocError>
        requires { J.leads judge.old (events_of self.old.best) }
        ensures { Advances J.leads J.judged judge.old judge.new self.old self.new }
    {
        let count = event_count(runs.as_slice());
        if !self.admits(count) {
            return Ok(false);
        }
        self.left -= 1;
        self.events_left -= count;
        let schedule = Schedule::new(runs);
        let leads = judge.judge(&schedule)?;
        if leads {
            self.best = schedule;
        }
        Ok(leads)
    }
}
