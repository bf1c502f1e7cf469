//! Who judges schedules, what a fault names, and what is answered.

ghost use Rattle.std.specs.Prelude.{◌≡◌, ◌+◌, ◌≤◌, ℕ, List, IfOk};
ghost use Rattle.std.specs.Bool.{Decides};
ghost use Rattle.clmodel.specs.Outcome.{events_of};
ghost use Rattle.clmodel.specs.declared.schedule.Event.{Event as TheEvent};

use clmodel::schedule::Schedule;
use std::alloc::AllocError;

/// Who tells whether a schedule leads to a fault.
pub trait Judge {
    // the schedules that lead to the fault
    ghost leads: { Self → List TheEvent → Type 0 };

    // how many schedules were judged
    ghost judged: { Self → ℕ };

    /// Whether a schedule leads to the fault. An error is out of memory.
    fn judge(&mut self, schedule: &Schedule) -> Result<bool, AllocError>
        ensures yes { IfOk result (λ yes. Decides yes (leads self.old (events_of schedule.now))) }
        ensures same { (events : List TheEvent) → (leads self.old events → leads self.new events) × (leads self.new events → leads self.old events) }
        ensures counted { judged self.new ≤ judged self.old + 1 };
}

/// A work-item that a fault names.
#[derive(Clone, Copy)]
pub struct Named {
    pub item: u32,
    /// Which event of the given schedule, counted from 0 on, is the item's access that the fault names. `None` where it
    /// names what the item would do next: then all events of the item are kept.
    pub event: Option<u64>,
}

impl Named {
    /// Up to which event of the given schedule the item's own are needed, not with it.
    pub(crate) fn end(&self) -> u64 {
        match self.event {
            None => u64::MAX,
            Some(event) => event.saturating_add(1),
        }
    }
}

/// A schedule with how many were judged.
#[derive(Drop)]
pub struct Shortened {
    pub schedule: Schedule,
    /// How many schedules were judged.
    pub judged: u32,
}
