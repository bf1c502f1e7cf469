//! The ordered run, item by item to their stops, and group after group.

ghost use Rattle.std.specs.Prelude.{◌≡◌, ◌+◌, ◌*◌, ◌<◌, ◌≤◌, ℕ, true, false, length, Option, None, Some, IfOk};
ghost use Rattle.clmodel.specs.Run.{State, next_action, same_stop};
ghost use Rattle.clmodel.specs.declared.action.Stop.{Stop as TheStop};
ghost use Rattle.clmodel.specs.declared.fault.Fault.TheVariants as faults;
ghost use Rattle.launches.specs.Groups.{IsRunnable};
ghost use Rattle.ordered_play.specs.Watched.{IsWatched};
ghost use Rattle.ordered_play.specs.Groups.{Gathers, GathersOrReports, Reached, ReachedOrReports, is_barrier};

use crate::stepping::{Stepped, step_item};
use crate::watching::Watched;
use clmodel::action::{Action, Stop};
use clmodel::fault::Fault;
use clmodel::schedule::Event;
use group_run::Runs;
use launches::{Runnable, same_stop};
use std::alloc::{AllocError, Global};
use std::mem::replace;

/// Judges an item's stop: the first item's is kept, and that of another is compared with it. It reports a stop that is
/// another one (OpenCL 1.2, section 6.12.8).
fn stop_at(first: u32, item: u32, stop: Stop, leading: &mut Option<Stop>) -> Option<Fault>
    ensures first { leading.old ≡ None → (result ≡ None) × (leading.new ≡ Some stop) }
    ensures same { (other : TheStop) → leading.old ≡ Some other → same_stop other stop ≡ true → (result ≡ None) × (leading.new ≡ Some other) }
    ensures apart { (other : TheStop) → leading.old ≡ Some other → same_stop other stop ≡ false → result ≡ Some (faults.Divergence first other item stop) }
{
    let Some(other) = leading else {
        *leading = Some(stop);
        return None;
    };
    if same_stop(other, &stop) {
        return None;
    }
    Some(Fault::Divergence {
        item: first,
        stop: replace(other, Stop::Ended),
        other_item: item,
        other_stop: stop,
    })
}

/// Runs an item to its stop, or to a report. `leading` is the stop of the group's first item, once that one has run. An
/// error is out of memory.
fn run_item<D: Runnable>(
    alloc: Global,
    launch: &D,
    watched: &mut Watched<'_, D>,
    group: u32,
    k: u32,
    leading: &mut Option<Stop>,
    runs: &mut Runs,
) -> Result<Option<Fault>, AllocError>
    requires runnable { IsRunnable (D.launch launch.now) }
    requires inside { k < (D.launch launch.now).group_size }
    requires there { group * (D.launch launch.now).group_size < (D.launch launch.now).items }
    requires gathers { Gathers (D.launch launch.now) group (IsWatched D.launch D.started (D.launch launch.now) (D.started launch.now) watched.old) runs.old k leading.old }
    ensures grows { length runs.old ≤ length runs.new }
    ensures ran { IfOk result (GathersOrReports (D.launch launch.now) group (IsWatched D.launch D.started (D.launch launch.now) (D.started launch.now) watched.new) runs.new (k + 1) leading.new) }
{
    let first = group * launch.group_size();
    let item = first + k;
    'steps: loop {
        match step_item(alloc, launch, watched, item)? {
            Stepped::Made => runs.push(Event::Item(item))?,
            Stepped::Races(fault) => {
                runs.push(Event::Item(item))?;
                return Ok(Some(fault));
            }
            Stepped::Fails(fault) => return Ok(Some(fault)),
            Stepped::Stops(stop) => return Ok(stop_at(first, item, stop, leading)),
        }
    }
}

/// Runs all items of a group to their stops, or to a report. An error is out of memory.
fn run_interval<D: Runnable>(
    alloc: Global,
    launch: &D,
    watched: &mut Watched<'_, D>,
    group: u32,
    runs: &mut Runs,
) -> Result<Option<Fault>, AllocError>
    requires runnable { IsRunnable (D.launch launch.now) }
    requires there { group * (D.launch launch.now).group_size < (D.launch launch.now).items }
    requires reached { Reached (D.launch launch.now) group (IsWatched D.launch D.started (D.launch launch.now) (D.started launch.now) watched.old) runs.old }
    ensures grows { length runs.old ≤ length runs.new }
    ensures ran { IfOk result (λ report. (leading : Option TheStop) × GathersOrReports (D.launch launch.now) group (IsWatched D.launch D.started (D.launch launch.now) (D.started launch.now) watched.new) runs.new (D.launch launch.now).group_size leading report) }
{
    let mut leading = None;
    for k in 0..launch.group_size() {
        match run_item(alloc, launch, watched, group, k, &mut leading, runs)? {
            None => {}
            Some(fault) => return Ok(Some(fault)),
        }
    }
    Ok(None)
}

/// Whether an action is a barrier (OpenCL 1.2, section 6.12.8).
fn is_barrier(action: &Action) -> bool
    ensures { result ≡ is_barrier action.now }
{
    match action {
        Action::Barrier { .. } => true,
        Action::Access { .. } | Action::End | Action::Fault(_) => false,
    }
}

/// Whether an item waits at a barrier (OpenCL 1.2, section 6.12.8). An error is out of memory.
fn waits<D: Runnable>(
    launch: &D,
    watched: &mut Watched<'_, D>,
    item: u32,
) -> Result<bool, AllocError>
    requires { (state : State) × IsWatched D.launch D.started (D.launch launch.now) (D.started launch.now) watched.old state × (item < (D.launch launch.now).items) }
    ensures same { (state : State) → IsWatched D.launch D.started (D.launch launch.now) (D.started launch.now) watched.old state → IsWatched D.launch D.started (D.launch launch.now) (D.started launch.now) watched.new state }
    ensures value { IfOk result (λ yes. (state : State) → IsWatched D.launch D.started (D.launch launch.now) (D.started launch.now) watched.old state → is_barrier (next_action (D.launch launch.now) state item) ≡ yes) }
{
    match watched.action(item)? {
        Some(action) => Ok(is_barrier(&action)),
        None => unreachable!(),
    }
}

/// Runs a group to its end, or to a report. An error is out of memory.
fn run_group<D: Runnable>(
    alloc: Global,
    launch: &D,
    watched: &mut Watched<'_, D>,
    group: u32,
    runs: &mut Runs,
) -> Result<Option<Fault>, AllocError>
    requires runnable { IsRunnable (D.launch launch.now) }
    requires there { group * (D.launch launch.now).group_size < (D.launch launch.now).items }
    requires reached { Reached (D.launch launch.now) group (IsWatched D.launch D.started (D.launch launch.now) (D.started launch.now) watched.old) runs.old }
    ensures { IfOk result (ReachedOrReports (D.launch launch.now) (group + 1) (IsWatched D.launch D.started (D.launch launch.now) (D.started launch.now) watched.new) runs.new) }
{
    let first = group * launch.group_size();
    'intervals: loop {
        match run_interval(alloc, launch, watched, group, runs)? {
            None => {}
            Some(fault) => return Ok(Some(fault)),
        }
        // All items are at one stop; where it is no barrier, they have ended.
        if !waits(launch, watched, first)? {
            return Ok(None);
        }
        if !watched.play_release(group)? {
            unreachable!();
        }
        runs.push(Event::Release(group))?;
    }
}

/// Runs the groups of a launch, each on what the lower ones left, to their ends, or to a report. An error is out of
/// memory.
pub fn run_groups<D: Runnable>(
    alloc: Global,
    launch: &D,
    watched: &mut Watched<'_, D>,
    groups: u32,
    runs: &mut Runs,
) -> Result<Option<Fault>, AllocError>
    requires runnable { IsRunnable (D.launch launch.now) }
    requires counted { groups * (D.launch launch.now).group_size ≡ (D.launch launch.now).items }
    requires reached { Reached (D.launch launch.now) 0 (IsWatched D.launch D.started (D.launch launch.now) (D.started launch.now) watched.old) runs.old }
    ensures { IfOk result (ReachedOrReports (D.launch launch.now) groups (IsWatched D.launch D.started (D.launch launch.now) (D.started launch.now) watched.new) runs.new) }
{
    for group in 0..groups {
        match run_group(alloc, launch, watched, group, runs)? {
            None => {}
            Some(fault) => return Ok(Some(fault)),
        }
    }
    Ok(None)
}
