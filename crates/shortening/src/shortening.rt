//! Shortening a schedule.

ghost use Rattle.std.specs.Prelude.{◌≡◌, ◌<◌, ◌≤◌, ◌+◌, IfOk};
ghost use Rattle.clmodel.specs.Outcome.{events_of};
ghost use Rattle.shortening.specs.Searches.{Advances, LeadsAsBefore, event_count};

use crate::candidates::{Candidate, Given, WithGroups, WithItems};
use crate::ends::group_ends;
use crate::items::{other_groups, other_items};
use crate::judge::{Judge, Named, Shortened};
use crate::order::join_accesses;
use crate::reduction::reduce;
use crate::releases::drop_releases;
use crate::search::{MOST, Search};
use clmodel::schedule::{EventRun, Schedule};
use std::alloc::{AllocError, Global};

/// The named items' groups alone, without what comes behind the last release that each of them needs, but for the named
/// items' own events, up to their accesses. Whether that leads to the fault.
fn cut<J: Judge>(judge: &mut J, search: &mut Search, given: &Given<'_>) -> Result<bool, AllocError>
    requires { J.leads judge.old (events_of search.old.best) }
    ensures { Advances J.leads J.judged judge.old judge.new search.old search.new }
{
    let with = WithItems::new(given, [].as_slice())?;
    let runs = with.keeping([].as_slice())?;
    search.try_schedule(judge, runs)
}

/// As few groups besides those of the named items as are found to do, and then as few of their items.
#[tactic(auto, using(crate::proofs::Steps::stays, crate::proofs::Steps::then))]
fn cut_some<J: Judge>(
    judge: &mut J,
    search: &mut Search,
    given: &Given<'_>,
) -> Result<(), AllocError>
    requires { J.leads judge.old (events_of search.old.best) }
    ensures { Advances J.leads J.judged judge.old judge.new search.old search.new }
{
    let groups = other_groups(given)?;
    let groups = reduce(given.alloc, judge, search, &WithGroups { given }, groups)?;
    let with = WithItems::new(given, groups.as_slice())?;
    let items = other_items(&with)?;
    let _ = reduce(given.alloc, judge, search, &with, items)?;
    Ok(())
}

/// Shortens a schedule: first groups and items, then releases, then the order of the two accesses.
#[tactic(auto, using(crate::proofs::Steps::stays, crate::proofs::Steps::then))]
fn shorten_given<J: Judge>(
    judge: &mut J,
    search: &mut Search,
    given: &Given<'_>,
) -> Result<(), AllocError>
    requires { J.leads judge.old (events_of search.old.best) }
    ensures { Advances J.leads J.judged judge.old judge.new search.old search.new }
{
    if !cut(judge, search, given)? {
        cut_some(judge, search, given)?;
    }
    drop_releases(judge, search, given)?;
    join_accesses(judge, search, given)
}

/// A copy of runs.
fn copied(alloc: Global, runs: &[EventRun]) -> Result<Schedule, AllocError>
    ensures { IfOk result (λ copy. copy ≡ runs.now) }
{
    Ok(Schedule::new(runs.to_vec(alloc)?))
}

/// A schedule that leads where the given one does, and isn't longer. `named` has the items that the fault names, of a
/// conflict the item of the earlier access first, and `group_size` says how many items a work-group has: numbers that
/// don't fit the schedule cost shortness, and never truth. First all other groups are left out, with what comes behind
/// the last release that each named item's group needs; where that doesn't lead there, parts of the other groups and
/// items are. Then releases are left out, and the two accesses of a conflict are put next to one another. Each
/// candidate is made in time in proportion to the given runs, and judged once. An error is out of memory.
pub fn shorten<J: Judge>(
    alloc: Global,
    judge: &mut J,
    group_size: u32,
    named: &[Named],
    given: &Schedule,
) -> Result<Shortened, AllocError>
    requires some { 0 < group_size }
    requires leads { J.leads judge.old (events_of given.now) }
    ensures leads { IfOk result (λ short. J.leads judge.new (events_of short.schedule)) }
    ensures not_longer { IfOk result (λ short. event_count short.schedule ≤ event_count given.now) }
    ensures judged { IfOk result (λ short. J.judged judge.new ≤ J.judged judge.old + short.judged) }
    ensures at_most { J.judged judge.new ≤ J.judged judge.old + 200 }
    ensures few { IfOk result (λ short. short.judged ≤ 200) }
    ensures same { LeadsAsBefore J.leads judge.old judge.new }
{
    let runs = given.as_slice();
    let mut search = Search::new(copied(alloc, runs)?);
    let ends = group_ends(alloc, runs, named, group_size)?;
    let given = Given {
        alloc,
        runs,
        named,
        group_size,
        ends,
    };
    shorten_given(judge, &mut search, &given)?;
    let judged = MOST.saturating_sub(search.left);
    Ok(Shortened {
        schedule: search.best,
        judged,
    })
}
