//! The events of a schedule, each with where its item stands.
#![tactic(auto)]

ghost use Rattle.std.specs.Prelude.{◌≡◌, ℕ, true, [], ◌∷◌, replicate, IfOk, IfSome};
ghost use Rattle.clmodel.specs.Launch.{Launch};
ghost use Rattle.clmodel.specs.Outcome.{events_of};
ghost use Rattle.clmodel.specs.Run.{State};
ghost use Rattle.clmodel.specs.declared.schedule.Event.TheVariants as event;
ghost use Rattle.item_step.specs.Running.{Running};
ghost use Rattle.replay.specs.States.{IsAt};
ghost use Rattle.fault_play.specs.Marks.{ActsFrom, AreMarked, Divides, item_of};
ghost use Rattle.fault_play.specs.Accesses.{HasNumber, IsAbout, IsInside, IsNext};

use clmodel::access::{Object, Operation};
use clmodel::action::Action;
use clmodel::schedule::{Event, EventRun};
use clnum::Value;
use launches::Runnable;
use replay::{Player, Stand};
use std::alloc::AllocError;

/// An event with where the item stands that acts by it: of a release, the group's first item.
#[derive(Drop)]
pub struct Mark {
    pub event: Event,
    pub stand: Option<Stand>,
    /// The number that the bytes of its access held before it, if they were all set: what a load and an atomic function
    /// give
    pub found: Option<u64>,
    /// The number that they hold after it, if they are all set
    pub left: Option<u64>,
}

/// An access that an item makes next: an operation on an object from a byte on.
#[derive(Clone, Copy)]
struct PendingAccess {
    item: u32,
    object: Object,
    first: u64,
    operation: Operation,
}

/// Where an item stands that is under way, from which it acts next. An error is out of memory.
pub fn stand_of<D: Runnable>(
    player: &mut Player<'_, D>,
    item: u32,
) -> Result<Option<Stand>, AllocError>
    ensures same { (launch : Launch) (started : ℕ → Running) (state : State) → IsAt D.launch D.started launch started player.old state → IsAt D.launch D.started launch started player.new state }
    ensures acts { IfOk result (λ stand. (launch : Launch) (started : ℕ → Running) (state : State) → IsAt D.launch D.started launch started player.old state → ActsFrom launch started state item stand) }
{
    player.action(item)?;
    Ok(player.stand(item))
}

/// The left operand of the division that an item makes next, if it makes one (C99 6.5.5). An error is out of memory.
pub fn dividend_of<D: Runnable>(
    player: &mut Player<'_, D>,
    item: u32,
) -> Result<Option<Value>, AllocError>
    ensures same { (launch : Launch) (started : ℕ → Running) (state : State) → IsAt D.launch D.started launch started player.old state → IsAt D.launch D.started launch started player.new state }
    ensures divides { IfOk result (λ dividend. (launch : Launch) (started : ℕ → Running) (state : State) → IsAt D.launch D.started launch started player.old state → Divides launch started state item dividend) }
{
    player.action(item)?;
    Ok(player.dividend(item))
}

/// Where the item of an event stands, before it is played. An error is out of memory.
fn stand_before<D: Runnable>(
    player: &mut Player<'_, D>,
    group_size: u32,
    event: Event,
) -> Result<Option<Stand>, AllocError>
    ensures same { (launch : Launch) (started : ℕ → Running) (state : State) → IsAt D.launch D.started launch started player.old state → IsAt D.launch D.started launch started player.new state }
    ensures acts { IfOk result (λ stand. (launch : Launch) (started : ℕ → Running) (state : State) → IsAt D.launch D.started launch started player.old state → ActsFrom launch started state (item_of group_size event) stand) }
{
    match event {
        Event::Item(item) => stand_of(player, item),
        Event::Release(group) => match group.checked_mul(group_size) {
            Some(first) => stand_of(player, first),
            None => Ok(None),
        },
    }
}

/// The bytes on which an item is about to act, if it is an access of bytes that are there. An error is out of memory.
fn pending_access<D: Runnable>(
    player: &mut Player<'_, D>,
    item: u32,
) -> Result<Option<PendingAccess>, AllocError>
    ensures same { (launch : Launch) (started : ℕ → Running) (state : State) → IsAt D.launch D.started launch started player.old state → IsAt D.launch D.started launch started player.new state }
    ensures next { IfOk result (λ access. (launch : Launch) (started : ℕ → Running) (state : State) → IsAt D.launch D.started launch started player.old state → IfSome access (IsNext launch state item)) }
{
    let Some(
        Action::Access {
            object,
            element,
            operation,
        },
    ) = player.action(item)?
    else {
        return Ok(None);
    };
    let Some(first) = player.first_byte(object, element, operation) else {
        return Ok(None);
    };
    Ok(Some(PendingAccess {
        item,
        object,
        first,
        operation,
    }))
}

/// The bytes on which the item of an event is about to act, before it is played. An error is out of memory.
fn access_before<D: Runnable>(
    player: &mut Player<'_, D>,
    event: Event,
) -> Result<Option<PendingAccess>, AllocError>
    ensures same { (launch : Launch) (started : ℕ → Running) (state : State) → IsAt D.launch D.started launch started player.old state → IsAt D.launch D.started launch started player.new state }
    ensures about { IfOk result (λ access. (launch : Launch) (started : ℕ → Running) (state : State) → IsAt D.launch D.started launch started player.old state → IfSome access (IsAbout launch state event)) }
{
    match event {
        Event::Item(item) => pending_access(player, item),
        Event::Release(_) => Ok(None),
    }
}

/// The number that the bytes of an access hold, if there is one and they are all set.
fn number_at<D: Runnable>(player: &Player<'_, D>, access: Option<PendingAccess>) -> Option<u64>
    requires { (launch : Launch) × (started : ℕ → Running) × (state : State) × IsAt D.launch D.started launch started player.now state × IfSome access (IsInside launch) }
    ensures { IfSome result (λ x. (launch : Launch) (started : ℕ → Running) (state : State) → IsAt D.launch D.started launch started player.now state → HasNumber launch state.memory access x) }
{
    let Some(access) = access else {
        return None;
    };
    player.number_at(access.item, access.object, access.first, access.operation)
}

/// Plays an event, where it is possible, and adds its mark. Answers whether it is possible. An error is out of memory.
fn mark_event<D: Runnable>(
    player: &mut Player<'_, D>,
    group_size: u32,
    event: Event,
    marks: &mut Vec<Mark>,
) -> Result<bool, AllocError>
    requires { (launch : Launch) × (started : ℕ → Running) × (state : State) × IsAt D.launch D.started launch started player.old state }
    ensures { IfOk result (λ yes. (launch : Launch) (started : ℕ → Running) (state : State) → IsAt D.launch D.started launch started player.old state
        → AreMarked launch started group_size state (event ∷ []) marks.old.items marks.new.items (IsAt D.launch D.started launch started player.new) yes) }
{
    let stand = stand_before(player, group_size, event)?;
    let access = access_before(player, event)?;
    let found = number_at(player, access);
    if !player.play(event)? {
        return Ok(false);
    }
    let left = number_at(player, access);
    marks.push(Mark {
        event,
        stand,
        found,
        left,
    })?;
    Ok(true)
}

/// Plays events of an item, up to one that isn't possible, and adds their marks. Answers whether all are. An error is
/// out of memory.
fn mark_items<D: Runnable>(
    player: &mut Player<'_, D>,
    group_size: u32,
    item: u32,
    count: u64,
    marks: &mut Vec<Mark>,
) -> Result<bool, AllocError>
    requires { (launch : Launch) × (started : ℕ → Running) × (state : State) × IsAt D.launch D.started launch started player.old state }
    ensures { IfOk result (λ yes. (launch : Launch) (started : ℕ → Running) (state : State) → IsAt D.launch D.started launch started player.old state
        → AreMarked launch started group_size state (replicate count (event.Item item)) marks.old.items marks.new.items (IsAt D.launch D.started launch started player.new) yes) }
{
    for _ in 0..count {
        if !mark_event(player, group_size, Event::Item(item), marks)? {
            return Ok(false);
        }
    }
    Ok(true)
}

/// Plays the events of a run, up to one that isn't possible, and adds their marks. Answers whether all are. An error is
/// out of memory.
fn mark_run<D: Runnable>(
    player: &mut Player<'_, D>,
    group_size: u32,
    run: EventRun,
    marks: &mut Vec<Mark>,
) -> Result<bool, AllocError>
    requires { (launch : Launch) × (started : ℕ → Running) × (state : State) × IsAt D.launch D.started launch started player.old state }
    ensures { IfOk result (λ yes. (launch : Launch) (started : ℕ → Running) (state : State) → IsAt D.launch D.started launch started player.old state
        → AreMarked launch started group_size state (events_of (run ∷ [])) marks.old.items marks.new.items (IsAt D.launch D.started launch started player.new) yes) }
{
    match run {
        EventRun::Item { item, count } => mark_items(player, group_size, item, count, marks),
        EventRun::Release { group } => {
            mark_event(player, group_size, Event::Release(group), marks)
        }
    }
}

/// Plays the events of a schedule (OpenCL 1.2, section 3.2), up to one that isn't possible, and adds each with where
/// its item stands and with its numbers. Answers whether all are. An error is out of memory.
pub fn mark_schedule<D: Runnable>(
    player: &mut Player<'_, D>,
    group_size: u32,
    runs: &[EventRun],
    marks: &mut Vec<Mark>,
) -> Result<bool, AllocError>
    requires { (launch : Launch) × (started : ℕ → Running) × (state : State) × IsAt D.launch D.started launch started player.old state }
    ensures { IfOk result (λ yes. (launch : Launch) (started : ℕ → Running) (state : State) → IsAt D.launch D.started launch started player.old state
        → AreMarked launch started group_size state (events_of runs.now) marks.old.items marks.new.items (IsAt D.launch D.started launch started player.new) yes) }
{
    for run in runs {
        if !mark_run(player, group_size, *run, marks)? {
            return Ok(false);
        }
    }
    Ok(true)
}
