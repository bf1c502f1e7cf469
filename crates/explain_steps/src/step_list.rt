//! Steps that are put together, event by event.
#![tactic(auto)]

ghost use Rattle.std.specs.Prelude.{◌≡◌, ◌+◌, ◌-◌, ◌^◌, ◌<◌, ◌++◌, ◌∷◌, [], length, nat_lt, IfSome, OnOk};
ghost use Rattle.std.specs.List.{flat_map};
ghost use Rattle.explain_steps.specs.StepLists.{EndsRow, IsAlone, IsRow, shown_of};
ghost use Rattle.explain_steps.specs.Steps.{entries};

use explanation::ToldEvent;
use std::alloc::{AllocError, Global};

/// Steps, and how many events behind them aren't told.
#[derive(Drop)]
pub(crate) struct StepList {
    pub steps: Vec<ToldEvent>,
    omitted: usize,
}

impl StepList {
    /// No event.
    pub(crate) fn new(alloc: Global) -> Self
        ensures nothing { shown_of result ≡ [] }
        ensures row { IsRow result }
    {
        StepList {
            steps: Vec::new(alloc),
            omitted: 0,
        }
    }

    /// Adds a step of the events that aren't told, if there are any, which are the last of so many events.
    pub(crate) fn push_omitted(&mut self, events: usize) -> Result<(), AllocError>
        requires { length (shown_of self.old) ≡ events }
        ensures nothing { OnOk result (self.new.omitted ≡ 0) }
        ensures shown { OnOk result (flat_map entries self.new.steps.items ≡ shown_of self.old) }
        ensures row { OnOk result (IsRow self.old → EndsRow (nat_lt 0 self.old.omitted) self.new.steps.items) }
    {
        if self.omitted > 0 {
            self.steps.push(ToldEvent::Omitted {
                event: (events - self.omitted) as u64 + 1,
                events: self.omitted as u64,
            })?;
            self.omitted = 0;
        }
        Ok(())
    }

    /// Adds the event behind so many others, by its step if it is told.
    pub(crate) fn push(&mut self, events: usize, step: Option<ToldEvent>) -> Result<(), AllocError>
        requires few { events < 2 ^ 64 - 1 }
        requires behind { length (shown_of self.old) ≡ events }
        requires next { IfSome step (IsAlone (events + 1)) }
        ensures shown { OnOk result (shown_of self.new ≡ shown_of self.old ++ step ∷ []) }
        ensures row { OnOk result (IsRow self.old → IsRow self.new) }
    {
        match step {
            Some(step) => {
                self.push_omitted(events)?;
                self.steps.push(step)?;
            }
            None => self.omitted += 1,
        }
        Ok(())
    }
}
