//! One item's turn.

ghost use Rattle.std.specs.Prelude.{◌≡◌, ◌∷◌, ◌+◌, ◌<◌, ◌≤◌, ◌^◌, if◌then◌else◌, List, None, true, IfOk};
ghost use Rattle.clmodel.specs.Cells.{byte_count, lowest_unset, reads, size_of};
ghost use Rattle.clmodel.specs.Launch.{bytes_of, group_of, region_of};
ghost use Rattle.clmodel.specs.Run.{State, next_action};
ghost use Rattle.clmodel.specs.declared.access.Access.{Access as TheAccess};
ghost use Rattle.clmodel.specs.declared.action.Action.TheVariants as actions;
ghost use Rattle.ordered_runs.specs.Ordered.{newest_race};
ghost use Rattle.ordered_play.specs.Stepping.{IsJudged, IsStepped};
ghost use Rattle.ordered_play.specs.Watched.{IsWatched};

use crate::races::newest_race;
use crate::watching::Watched;
use clmodel::access::{Object, Operation};
use clmodel::action::{Action, Stop};
use clmodel::fault::Fault;
use group_run::{bounds_fault, conflict_fault, fault_of, unset_fault};
use launches::Runnable;
use std::alloc::{AllocError, Global};

/// What came of an item's turn.
#[derive(Drop)]
pub enum Stepped {
    /// It made its access, which races with no earlier one
    Made,
    /// It waits here: at a barrier, or at its end
    Stops(Stop),
    /// It made its access, which races with an earlier one
    Races(Fault),
    /// It can't go on, and made no access
    Fails(Fault),
}

/// Whether the bytes that an operation acts on must be set.
fn reads(operation: Operation) -> bool
    ensures { result ≡ reads operation }
{
    match operation {
        Operation::Load(_) | Operation::Update(_, _) | Operation::Fetch(_, _) => true,
        Operation::Store(_, _) => false,
    }
}

/// The lowest unset byte that an operation reads of those from `first` on, which the object has.
fn unset_of<D: Runnable>(
    launch: &D,
    watched: &Watched<'_, D>,
    item: u32,
    object: Object,
    first: u64,
    operation: Operation,
) -> Option<u64>
    requires { (state : State) × IsWatched D.launch D.started (D.launch launch.now) (D.started launch.now) watched.now state × (item < (D.launch launch.now).items)
        × (first + size_of operation ≤ bytes_of (D.launch launch.now) (region_of (group_of (D.launch launch.now) item) object)) }
    ensures { (state : State) → IsWatched D.launch D.started (D.launch launch.now) (D.started launch.now) watched.now state
        → result ≡ (if reads operation then lowest_unset (state.memory (region_of (group_of (D.launch launch.now) item) object)) first (size_of operation) else None) }
{
    if reads(operation) {
        watched.player.unset_byte(item, object, first, operation)
    } else {
        None
    }
}

/// What came of an access that was made, by the race of the newest access; with `quiet` it has none. An error is out of
/// memory.
fn judge<D: Runnable>(
    launch: &D,
    watched: &Watched<'_, D>,
    quiet: bool,
) -> Result<Stepped, AllocError>
    requires calm { (state : State) → IsWatched D.launch D.started (D.launch launch.now) (D.started launch.now) watched.now state → quiet ≡ true → newest_race (D.launch launch.now) state.log ≡ None }
    requires at { (state : State) × IsWatched D.launch D.started (D.launch launch.now) (D.started launch.now) watched.now state
        × ((x : TheAccess) (earlier : List TheAccess) → state.log ≡ x ∷ earlier → x.first + byte_count x.width < 2 ^ 64) }
    ensures { IfOk result (λ stepped. (state : State) → IsWatched D.launch D.started (D.launch launch.now) (D.started launch.now) watched.now state → IsJudged (D.launch launch.now) state stepped) }
{
    if quiet {
        return Ok(Stepped::Made);
    }
    match newest_race(launch, watched.player.log()) {
        Some(race) => Ok(Stepped::Races(conflict_fault(launch, &race)?)),
        None => Ok(Stepped::Made),
    }
}

/// Makes this access, which is what an item does next, and tells what came of it. An error is out of memory.
fn access_item<D: Runnable>(
    alloc: Global,
    launch: &D,
    watched: &mut Watched<'_, D>,
    item: u32,
    object: Object,
    element: i64,
    operation: Operation,
) -> Result<Stepped, AllocError>
    requires { (state : State) × IsWatched D.launch D.started (D.launch launch.now) (D.started launch.now) watched.old state × (item < (D.launch launch.now).items)
        × (next_action (D.launch launch.now) state item ≡ actions.Access object element operation) }
    ensures { IfOk result (λ stepped. (state : State) → IsWatched D.launch D.started (D.launch launch.now) (D.started launch.now) watched.old state
        → next_action (D.launch launch.now) state item ≡ actions.Access object element operation
        → IsStepped (D.launch launch.now) state item (IsWatched D.launch D.started (D.launch launch.now) (D.started launch.now) watched.new) stepped) }
{
    let group = item / launch.group_size();
    let kind = operation.kind();
    let Some(first) = watched.player.first_byte(object, element, operation) else {
        let fault = bounds_fault(alloc, launch, item, object, group, element, kind)?;
        return Ok(Stepped::Fails(Box::into_inner(fault)));
    };
    if let Some(byte) = unset_of(launch, watched, item, object, first, operation) {
        let unset = unset_fault(alloc, launch, item, object, group, byte, kind)?;
        return Ok(Stepped::Fails(Box::into_inner(unset)));
    }
    match watched.play_item(group, launch.uniform(), item)? {
        Some(quiet) => judge(launch, watched, quiet),
        None => unreachable!(),
    }
}

/// An item's turn (OpenCL 1.2, section 3.2): it makes its next access, and the race of this access is told, if it has
/// one; or where it waits is told, or the fault that keeps it. An error is out of memory.
pub fn step_item<D: Runnable>(
    alloc: Global,
    launch: &D,
    watched: &mut Watched<'_, D>,
    item: u32,
) -> Result<Stepped, AllocError>
    requires { (state : State) × IsWatched D.launch D.started (D.launch launch.now) (D.started launch.now) watched.old state × (item < (D.launch launch.now).items) }
    ensures { IfOk result (λ stepped. (state : State) → IsWatched D.launch D.started (D.launch launch.now) (D.started launch.now) watched.old state
        → IsStepped (D.launch launch.now) state item (IsWatched D.launch D.started (D.launch launch.now) (D.started launch.now) watched.new) stepped) }
{
    match watched.action(item)? {
        Some(
            Action::Access {
                object,
                element,
                operation,
            },
        ) => access_item(alloc, launch, watched, item, object, element, operation),
        Some(Action::Barrier { instance, .. }) => Ok(Stepped::Stops(Stop::At(instance))),
        Some(Action::End) => Ok(Stepped::Stops(Stop::Ended)),
        Some(Action::Fault(cause)) => Ok(Stepped::Fails(fault_of(launch, item, cause)?)),
        None => unreachable!(),
    }
}
