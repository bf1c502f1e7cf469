//! Leaving out releases.

ghost use Rattle.std.specs.Prelude.{◌≡◌};
ghost use Rattle.clmodel.specs.Outcome.{events_of};
ghost use Rattle.shortening.specs.Searches.{Advances};

use crate::candidates::Given;
use crate::judge::Judge;
use crate::runs::push_run;
use crate::search::Search;
use clmodel::schedule::EventRun;
use std::alloc::AllocError;

/// Runs without the releases of a group from a place on, and without the events that items of it make from there on,
/// but for named ones.
fn without_from(
    given: &Given<'_>,
    runs: &[EventRun],
    group: u32,
    place: usize,
) -> Result<Vec<EventRun>, AllocError> {
    let mut kept = Vec::new(given.alloc);
    for (i, run) in runs.iter().enumerate() {
        let is_named = match run {
            EventRun::Item { item, .. } => given.named(*item).is_some(),
            EventRun::Release { .. } => false,
        };
        if i < place || is_named || given.group_of_run(run) != group {
            push_run(&mut kept, run)?;
        }
    }
    Ok(kept)
}

/// Tries the best schedule without a release of a group, at a place of its runs, and without what depends on it.
/// Whether that leads to the fault; `false` where no release of the group is there.
fn try_release<J: Judge>(
    judge: &mut J,
    search: &mut Search,
    given: &Given<'_>,
    group: u32,
    place: usize,
) -> Result<bool, AllocError>
    requires { J.leads judge.old (events_of search.old.best) }
    ensures { Advances J.leads J.judged judge.old judge.new search.old search.new }
{
    match search.best.as_slice().get(place) {
        Some(EventRun::Release { group: released }) if *released == group && !search.is_done() => {
            let runs = without_from(given, search.best.as_slice(), group, place)?;
            search.try_schedule(judge, runs)
        }
        _ => Ok(false),
    }
}

/// Leaves out releases of a group: the first without which the rest leads to the fault, and all behind it.
#[tactic(auto, using(crate::proofs::Steps::stays, crate::proofs::Steps::then))]
fn drop_releases_of<J: Judge>(
    judge: &mut J,
    search: &mut Search,
    given: &Given<'_>,
    group: u32,
) -> Result<(), AllocError>
    requires { J.leads judge.old (events_of search.old.best) }
    ensures { Advances J.leads J.judged judge.old judge.new search.old search.new }
{
    for place in 0..search.best.as_slice().len() {
        if try_release(judge, search, given, group, place)? {
            return Ok(());
        }
    }
    Ok(())
}

/// Leaves out releases of the named items' groups.
#[tactic(auto, using(crate::proofs::Steps::stays, crate::proofs::Steps::then))]
pub(crate) fn drop_releases<J: Judge>(
    judge: &mut J,
    search: &mut Search,
    given: &Given<'_>,
) -> Result<(), AllocError>
    requires { J.leads judge.old (events_of search.old.best) }
    ensures { Advances J.leads J.judged judge.old judge.new search.old search.new }
{
    for one in given.named {
        drop_releases_of(judge, search, given, given.group_of(one.item))?;
    }
    Ok(())
}
