//! Runs of events.

ghost use Rattle.std.specs.Prelude.{◌≡◌, ◌≤◌, ◌<◌, ◌-◌, ◌^◌};
ghost use Rattle.shortening.specs.Searches.{event_count, run_count};

use clmodel::schedule::EventRun;
use std::alloc::AllocError;

/// How many events a run has.
pub(crate) fn count_of(run: &EventRun) -> u64
    ensures { result ≡ run_count run.now }
{
    match run {
        EventRun::Item { count, .. } => *count,
        EventRun::Release { .. } => 1,
    }
}

/// How many events there are in runs: their number where it is below 2^64 - 1, else 2^64 - 1.
pub fn event_count(runs: &[EventRun]) -> u64
    ensures least { result ≤ event_count runs.now }
    ensures exact { result < 2 ^ 64 - 1 → result ≡ event_count runs.now }
{
    let mut total = 0u64;
    for run in runs {
        total = total.saturating_add(count_of(run));
    }
    total
}

/// Adds events of an item at the end.
pub(crate) fn push_item(runs: &mut Vec<EventRun>, item: u32, count: u64) -> Result<(), AllocError> {
    if count == 0 {
        return Ok(());
    }
    if let Some(
        EventRun::Item {
            item: last,
            count: before,
        },
    ) = runs.last()
    {
        if *last == item {
            let count = before.saturating_add(count);
            let place = runs.len() - 1;
            runs[place] = EventRun::Item { item, count };
            return Ok(());
        }
    }
    runs.push(EventRun::Item { item, count })?;
    Ok(())
}

/// Adds a run at the end.
pub(crate) fn push_run(runs: &mut Vec<EventRun>, run: &EventRun) -> Result<(), AllocError> {
    match run {
        EventRun::Item { item, count } => push_item(runs, *item, *count),
        EventRun::Release { group } => {
            runs.push(EventRun::Release { group: *group })?;
            Ok(())
        }
    }
}
