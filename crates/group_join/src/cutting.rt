//! Schedules, one after another.

ghost use Rattle.std.specs.Prelude.{◌≡◌, ◌<◌, true, OnOk, take};
ghost use Rattle.clmodel.specs.Outcome.{events_of};
ghost use Rattle.group_join.specs.Runs.{Adds, IsFirstOf, MayFollow};

use clmodel::schedule::EventRun;
use std::alloc::AllocError;

/// Adds the events of further runs. An error is out of memory.
pub(crate) fn add_all(runs: &mut Vec<EventRun>, more: &[EventRun]) -> Result<(), AllocError>
    requires { MayFollow runs.old.items more.now }
    ensures { OnOk result (Adds runs.old.items runs.new.items more.now (events_of more.now)) }
{
    runs.extend_from_slice(more)
}

/// Adds the events of further runs, where a group after theirs is to be joined. An error is out of memory.
pub(crate) fn add_runs(
    runs: &mut Vec<EventRun>,
    further: bool,
    more: &[EventRun],
) -> Result<(), AllocError>
    requires { MayFollow runs.old.items more.now }
    ensures { OnOk result (further ≡ true → Adds runs.old.items runs.new.items more.now (events_of more.now)) }
{
    if further {
        add_all(runs, more)?;
    }
    Ok(())
}

/// The first events of a run, `most` of them or all where it has fewer, and how many they are.
fn first_of(run: EventRun, most: u64) -> (EventRun, u64)
    requires { 0 < most }
    ensures { IsFirstOf run most result.0 result.1 }
{
    match run {
        EventRun::Item { item, count } => {
            let count = count.min(most);
            (EventRun::Item { item, count }, count)
        }
        EventRun::Release { .. } => (run, 1),
    }
}

/// Adds the first events of further runs, `count` of them or all where they have fewer. An error is out of memory.
pub(crate) fn add_first(
    runs: &mut Vec<EventRun>,
    more: &[EventRun],
    count: u64,
) -> Result<(), AllocError>
    requires { MayFollow runs.old.items more.now }
    ensures { OnOk result (Adds runs.old.items runs.new.items more.now (take count (events_of more.now))) }
{
    let mut left = count;
    for run in more {
        if left == 0 {
            return Ok(());
        }
        let (first, taken) = first_of(*run, left);
        runs.push(first)?;
        left -= taken;
    }
    Ok(())
}
