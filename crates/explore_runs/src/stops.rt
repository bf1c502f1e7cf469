//! Where items wait, and whether they end their group's run.

ghost use Rattle.std.specs.Prelude.{◌≡◌, ◌<◌, ◌/◌, ℕ, true, false, None, Some, IfOk, IfSome};
ghost use Rattle.clmodel.specs.Launch.{Launch};
ghost use Rattle.clmodel.specs.Law.{Shows};
ghost use Rattle.clmodel.specs.Run.{State, IsComplete, next_action, same_stop, stop_of};
ghost use Rattle.clmodel.specs.declared.action.Action.TheVariants as actions;
ghost use Rattle.clmodel.specs.declared.fault.Fault.TheVariants as faults;
ghost use Rattle.item_step.specs.Running.{Running};
ghost use Rattle.ordered_play.specs.Watched.{IsWatched};
ghost use Rattle.ordered_runs.specs.Ordered.{is_order};

use clmodel::access::Operation;
use clmodel::action::{Action, Stop};
use clmodel::fault::Fault;
use launches::{Runnable, same_stop};
use ordered_play::Watched;
use std::alloc::AllocError;

/// Where an item with this next action waits for the others of its group, if it does (OpenCL 1.2, section 6.12.8).
fn stop_of(action: Action) -> Option<Stop>
    ensures { result ≡ stop_of action }
{
    match action {
        Action::Barrier { instance, .. } => Some(Stop::At(instance)),
        Action::End => Some(Stop::Ended),
        Action::Access { .. } | Action::Fault(_) => None,
    }
}

/// Whether an item's next action is an atomic operation (OpenCL 1.2, section 6.12.11). An error is out of memory.
pub(crate) fn is_atomic_next<D: Runnable>(
    watched: &mut Watched<'_, D>,
    item: u32,
) -> Result<bool, AllocError>
    ensures { (launch : Launch) (started : ℕ → Running) (state : State) → IsWatched D.launch D.started launch started watched.old state → IsWatched D.launch D.started launch started watched.new state }
{
    match watched.action(item)? {
        Some(action) => Ok(is_atomic(&action)),
        None => Ok(false),
    }
}

/// Whether an action is an atomic operation.
fn is_atomic(action: &Action) -> bool {
    match action {
        Action::Access { operation, .. } => match operation {
            Operation::Update(_, _) | Operation::Fetch(_, _) => true,
            Operation::Load(_) | Operation::Store(_, _) => false,
        },
        Action::Barrier { .. } | Action::End | Action::Fault(_) => false,
    }
}

/// Whether two items are of one group, by the size of a group.
fn are_of_one_group(other: u32, item: u32, size: u32) -> bool
    requires { 0 < size }
    ensures { result ≡ true → other / size ≡ item / size }
{
    other / size == item / size
}

/// The fault of two items that wait at stops that aren't one (OpenCL 1.2, section 6.12.8).
fn report_of(other: u32, found: Stop, item: u32, stop: Stop) -> Option<Fault>
    ensures same { same_stop found stop ≡ true → result ≡ None }
    ensures apart { same_stop found stop ≡ false → result ≡ Some (faults.Divergence other found item stop) }
{
    if same_stop(&found, &stop) {
        return None;
    }
    Some(Fault::Divergence {
        item: other,
        stop: found,
        other_item: item,
        other_stop: stop,
    })
}

/// Compares the stop of an item with that of another item of its group that waits: the fault of two that aren't one
/// (OpenCL 1.2, section 6.12.8). Nothing is said where the other one is of another group, or doesn't wait. An error is
/// out of memory.
pub(crate) fn divergence<D: Runnable>(
    launch: &D,
    watched: &mut Watched<'_, D>,
    other: u32,
    item: u32,
    stop: Stop,
) -> Result<Option<Fault>, AllocError>
    ensures same { (state : State) → IsWatched D.launch D.started (D.launch launch.now) (D.started launch.now) watched.old state → IsWatched D.launch D.started (D.launch launch.now) (D.started launch.now) watched.new state }
    ensures shows { IfOk result (λ report. (state : State) → IsWatched D.launch D.started (D.launch launch.now) (D.started launch.now) watched.old state → item < (D.launch launch.now).items
        → stop_of (next_action (D.launch launch.now) state item) ≡ Some stop → IfSome report (λ fault. Shows (D.launch launch.now) state fault × (is_order fault ≡ false))) }
{
    if !are_of_one_group(other, item, launch.group_size()) {
        return Ok(None);
    }
    let Some(action) = watched.action(other)? else {
        return Ok(None);
    };
    let Some(found) = stop_of(action) else {
        return Ok(None);
    };
    Ok(report_of(other, found, item, stop))
}

/// Whether an action is the item's end (OpenCL 1.2, section 3.2).
fn is_end(action: &Action) -> bool
    ensures { result ≡ true → action.now ≡ actions.End }
{
    match action {
        Action::End => true,
        Action::Access { .. } | Action::Barrier { .. } | Action::Fault(_) => false,
    }
}

/// Whether every item has ended (OpenCL 1.2, section 3.2). An error is out of memory.
pub(crate) fn all_ended<D: Runnable>(
    launch: &D,
    watched: &mut Watched<'_, D>,
    items: u32,
) -> Result<bool, AllocError>
    requires { items ≡ (D.launch launch.now).items }
    ensures same { (state : State) → IsWatched D.launch D.started (D.launch launch.now) (D.started launch.now) watched.old state → IsWatched D.launch D.started (D.launch launch.now) (D.started launch.now) watched.new state }
    ensures ended { IfOk result (λ yes. (state : State) → IsWatched D.launch D.started (D.launch launch.now) (D.started launch.now) watched.old state → yes ≡ true → IsComplete (D.launch launch.now) state) }
{
    for item in 0..items {
        match watched.action(item)? {
            Some(action) => {
                if !is_end(&action) {
                    return Ok(false);
                }
            }
            None => return Ok(false),
        }
    }
    Ok(true)
}
