//! The two accesses of a conflict, next to one another.

ghost use Rattle.std.specs.Prelude.{◌≡◌, ◌<◌, IfSome, length};
ghost use Rattle.clmodel.specs.Outcome.{events_of};
ghost use Rattle.shortening.specs.Searches.{Advances};

use crate::candidates::Given;
use crate::judge::{Judge, Named};
use crate::runs::{count_of, push_item, push_run};
use crate::search::Search;
use clmodel::schedule::EventRun;
use std::alloc::{AllocError, Global};

/// The place of the last run of an item.
fn last_of(runs: &[EventRun], item: u32) -> Option<usize>
    ensures { IfSome result (λ place. place < length runs.now) }
{
    let mut last = None;
    for (i, run) in runs.iter().enumerate() {
        if let EventRun::Item { item: other, .. } = run {
            if *other == item {
                last = Some(i);
            }
        }
    }
    last
}

/// How many events of the run at a place stay where it is, when the last event of the runs at two places is moved.
fn stays(run: &EventRun, moved: bool) -> u64 {
    match run {
        EventRun::Item { count, .. } if moved => count.saturating_sub(1),
        EventRun::Item { count, .. } => *count,
        EventRun::Release { .. } => 1,
    }
}

/// The last run of an item.
#[derive(Clone, Copy)]
struct Last {
    item: u32,
    place: usize,
}

/// Runs with the last events of two items at the end, one next to the other.
fn with_last(
    alloc: Global,
    runs: &[EventRun],
    first: Last,
    second: Last,
) -> Result<Vec<EventRun>, AllocError> {
    let mut made = Vec::new(alloc);
    for (i, run) in runs.iter().enumerate() {
        match run {
            EventRun::Item { item, .. } => {
                let is_moved = i == first.place || i == second.place;
                push_item(&mut made, *item, stays(run, is_moved))?;
            }
            EventRun::Release { .. } => push_run(&mut made, run)?,
        }
    }
    push_item(&mut made, first.item, 1)?;
    push_item(&mut made, second.item, 1)?;
    Ok(made)
}

/// The last runs of the two accesses that a conflict names, where they aren't next to one another.
fn apart(runs: &[EventRun], named: &[Named]) -> Option<(Last, Last)> {
    let [first, second] = named else {
        return None;
    };
    let place = last_of(runs, first.item)?;
    let other = last_of(runs, second.item)?;
    let are_accesses = first.event.is_some() && second.event.is_some();
    if !are_accesses || place >= other || other - place == 1 && count_of(&runs[other]) == 1 {
        return None;
    }
    let first = Last {
        item: first.item,
        place,
    };
    let second = Last {
        item: second.item,
        place: other,
    };
    Some((first, second))
}

/// Moves the two accesses of a conflict to the end of the best schedule, next to one another, where that leads to the
/// fault too.
pub(crate) fn join_accesses<J: Judge>(
    judge: &mut J,
    search: &mut Search,
    given: &Given<'_>,
) -> Result<(), AllocError>
    requires { J.leads judge.old (events_of search.old.best) }
    ensures { Advances J.leads J.judged judge.old judge.new search.old search.new }
{
    let runs = search.best.as_slice();
    let Some((first, second)) = apart(runs, given.named) else {
        return Ok(());
    };
    let runs = with_last(given.alloc, runs, first, second)?;
    let _ = search.try_schedule(judge, runs)?;
    Ok(())
}
