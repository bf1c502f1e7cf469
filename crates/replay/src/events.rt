//! The events of a schedule, played one after another.

ghost use Rattle.std.specs.Prelude.{ℕ, IfOk, [], ◌∷◌, replicate};
ghost use Rattle.clmodel.specs.Launch.{Launch};
ghost use Rattle.clmodel.specs.Outcome.{events_of};
ghost use Rattle.clmodel.specs.Run.{State};
ghost use Rattle.clmodel.specs.declared.schedule.Event.TheVariants as event;
ghost use Rattle.item_step.specs.Running.{Running};
ghost use Rattle.replay.specs.States.{IsAt};
ghost use Rattle.replay.specs.Played.{ArePlayed};

use crate::player::Player;
use clmodel::schedule::{Event, EventRun, Schedule};
use launches::Runnable;
use std::alloc::AllocError;

/// Plays events of an item up to the first that isn't possible, and tells whether all are. An error is out of memory.
fn play_items<D: Runnable>(
    player: &mut Player<'_, D>,
    item: u32,
    count: u64,
) -> Result<bool, AllocError>
    requires { (launch : Launch) × (started : ℕ → Running) × (state : State) × IsAt D.launch D.started launch started player.old state }
    ensures { IfOk result (λ yes. (launch : Launch) (started : ℕ → Running) (state : State) → IsAt D.launch D.started launch started player.old state → ArePlayed launch state (replicate count (event.Item item)) (IsAt D.launch D.started launch started player.new) yes) }
{
    for _ in 0..count {
        if !player.play(Event::Item(item))? {
            return Ok(false);
        }
    }
    Ok(true)
}

/// Plays the events of a run up to the first that isn't possible, and tells whether all are. An error is out of memory.
fn play_run<D: Runnable>(player: &mut Player<'_, D>, run: EventRun) -> Result<bool, AllocError>
    requires { (launch : Launch) × (started : ℕ → Running) × (state : State) × IsAt D.launch D.started launch started player.old state }
    ensures { IfOk result (λ yes. (launch : Launch) (started : ℕ → Running) (state : State) → IsAt D.launch D.started launch started player.old state → ArePlayed launch state (events_of (run ∷ [])) (IsAt D.launch D.started launch started player.new) yes) }
{
    match run {
        EventRun::Item { item, count } => play_items(player, item, count),
        EventRun::Release { group } => player.play(Event::Release(group)),
    }
}

/// Plays the events of a schedule up to the first that isn't possible (OpenCL 1.2, section 3.2), and tells whether all
/// are. An error is out of memory.
pub fn play_schedule<D: Runnable>(
    player: &mut Player<'_, D>,
    schedule: &Schedule,
) -> Result<bool, AllocError>
    requires { (launch : Launch) × (started : ℕ → Running) × (state : State) × IsAt D.launch D.started launch started player.old state }
    ensures { IfOk result (λ yes. (launch : Launch) (started : ℕ → Running) (state : State) → IsAt D.launch D.started launch started player.old state → ArePlayed launch state (events_of schedule.now) (IsAt D.launch D.started launch started player.new) yes) }
{
    for run in schedule.as_slice() {
        if !play_run(player, *run)? {
            return Ok(false);
        }
    }
    Ok(true)
}
