//! What a used-up budget went to.
#![tactic(auto)]

ghost use Rattle.std.specs.Prelude.{◌≡◌, ◌/◌, count_by, IfOk};
ghost use Rattle.explain_items.specs.Deeds.{is_release_of};
ghost use Rattle.explain_reasons.specs.Counted.{IsUse};
ghost use Rattle.fault_play.specs.PlayedOut.{is_event_of};
ghost use Rattle.clmodel.specs.Setup.{group_items};
ghost use Rattle.item_step.specs.Launches.{setup_of};

use crate::turns::{SeenTurns, TurnedLoop, turns_seen};
use explain_items::{Context, is_access, is_release};
use explanation::{BudgetUse, CountedTurns, LoopTurns, OtherLoops};
use fault_play::{Mark, Played};
use std::alloc::{AllocError, Global};

/// How many loops are told one by one.
const MOST_LOOPS: usize = 4;

/// How many accesses an item made.
fn accesses_of(marks: &[Mark], item: u32) -> u64
    ensures { result ≡ count_by (λ mark. is_event_of item mark.event) marks.now }
{
    let mut count = 0u64;
    for mark in marks {
        if is_access(mark.event, item) {
            count += 1;
        }
    }
    count
}

/// How many barriers a group passed.
fn barriers_of(marks: &[Mark], group: u32) -> u64
    ensures { result ≡ count_by (λ mark. is_release_of group mark.event) marks.now }
{
    let mut count = 0u64;
    for mark in marks {
        if is_release(mark.event, group) {
            count += 1;
        }
    }
    count
}

/// The loops that made turns, the dearest first; of two that made as many, the earlier one.
fn dearest(alloc: Global, seen: &SeenTurns) -> Result<Vec<TurnedLoop>, AllocError> {
    let mut loops = Vec::new(alloc);
    for (place, turns) in &seen.all {
        if *turns > 0 {
            loops.push(TurnedLoop {
                place: *place,
                turns: *turns,
            })?;
        }
    }
    loops.sort_by_key(|turns| u64::MAX.saturating_sub(turns.turns))?;
    Ok(loops)
}

/// All turns of loops.
fn sum_of(loops: &[TurnedLoop]) -> u64 {
    let mut sum = 0u64;
    for turns in loops {
        sum = sum.saturating_add(turns.turns);
    }
    sum
}

/// Whether a loop wasn't left, and these are the turns that it has made since it was entered.
fn is_within(within: &[TurnedLoop], turns: &TurnedLoop) -> bool {
    within.iter().any(|other| other.place == turns.place && other.turns == turns.turns)
}

/// Which turns of a loop are counted: all that it made, where those of all loops were seen; those since it was entered,
/// where it wasn't left; or those that were seen.
fn counted_turns(turns: &TurnedLoop, within: &[TurnedLoop], all_seen: bool) -> CountedTurns {
    if all_seen {
        return CountedTurns::All;
    }
    if is_within(within, turns) {
        return CountedTurns::SinceEntered;
    }
    CountedTurns::Seen
}

/// The first loops, each with its turns.
fn told_loops(
    alloc: Global,
    loops: &[TurnedLoop],
    within: &[TurnedLoop],
    all_seen: bool,
) -> Result<Vec<LoopTurns>, AllocError> {
    let mut told = Vec::new(alloc);
    for turned in &loops[..loops.len().min(MOST_LOOPS)] {
        told.push(LoopTurns {
            offset: turned.place.offset,
            line: turned.place.line,
            script_line: turned.place.script_line,
            column: turned.place.column,
            turns: turned.turns,
            counted: counted_turns(turned, within, all_seen),
        })?;
    }
    Ok(told)
}

/// The loops behind the first ones, if there are any.
fn other_loops(loops: &[TurnedLoop]) -> Option<OtherLoops> {
    if loops.len() <= MOST_LOOPS {
        return None;
    }
    let others = &loops[MOST_LOOPS..];
    Some(OtherLoops {
        loops: others.len() as u64,
        turns: sum_of(others),
    })
}

/// What a budget went to: each tick is an access, a barrier or a turn of a loop. Turns that weren't seen are of loops
/// that were left. An error is out of memory.
pub(crate) fn budget_use(
    context: &Context<'_>,
    played: &Played,
    budget: u32,
) -> Result<BudgetUse, AllocError>
    ensures { IfOk result (IsUse played.now.marks.items played.now.first.item (played.now.first.item / group_items (setup_of context.now.launch.now).range) budget) }
{
    let alloc = context.alloc;
    let item = played.first.item;
    let marks = played.marks.as_slice();
    let accesses = accesses_of(marks, item);
    let barriers = barriers_of(marks, item / context.launch.group_size());
    let ticks = u64::from(budget);
    let turns = ticks.saturating_sub(accesses.saturating_add(barriers));
    let seen = turns_seen(context, marks, item, played.first.stand.as_ref())?;
    let loops = dearest(alloc, &seen)?;
    let loops = loops.as_slice();
    let unseen = turns.saturating_sub(sum_of(loops));
    Ok(BudgetUse {
        ticks,
        accesses,
        barriers,
        turns,
        loops: told_loops(alloc, loops, seen.within.as_slice(), unseen == 0)?,
        others: other_loops(loops),
        unseen,
    })
}
