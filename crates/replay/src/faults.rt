//! Whether the state of a player shows a fault.

ghost use Rattle.std.specs.Prelude.{◌≡◌, ◌+◌, ◌<◌, ◌≤◌, ℕ, Some, true, false, IfOk};
ghost use Rattle.std.specs.Bool.{Decides};
ghost use Rattle.clmodel.specs.Cells.{reads, size_of, lowest_unset};
ghost use Rattle.clmodel.specs.Launch.{Launch, group_of, kind_of};
ghost use Rattle.clmodel.specs.Law.{Fails, Shows};
ghost use Rattle.clmodel.specs.Run.{State, byte_at, next_action, stop_of};
ghost use Rattle.clmodel.specs.declared.fault.Fault.TheVariants as faults;
ghost use Rattle.item_step.specs.Running.{Running};
ghost use Rattle.replay.specs.Spots.{is_conflict};
ghost use Rattle.replay.specs.States.{IsAt};
ghost use Rattle.replay.specs.Nexts.{StopsAt, ReadsUnset};

use crate::nexts::{NextAccess, access_of, cause_of, stop_of};
use crate::player::Player;
use crate::{find_conflict, is_at, is_fault_of, told_conflict};
use clmodel::access::{AccessKind, Operation};
use clmodel::action::Stop;
use clmodel::fault::{Fault, Location};
use launches::{Runnable, same_stop};
use std::alloc::{AllocError, Global};

/// Whether an item waits at this stop. An error is out of memory.
fn stops_at<D: Runnable>(
    player: &mut Player<'_, D>,
    item: u32,
    told: &Stop,
) -> Result<bool, AllocError>
    ensures same { (launch : Launch) (started : ℕ → Running) (state : State) → IsAt D.launch D.started launch started player.old state → IsAt D.launch D.started launch started player.new state }
    ensures value { IfOk result (λ yes. (launch : Launch) (started : ℕ → Running) (state : State) → IsAt D.launch D.started launch started player.old state → Decides yes (StopsAt launch state item told.now)) }
{
    match player.action(item)?.and_then(stop_of) {
        Some(stop) => Ok(same_stop(&stop, told)),
        None => Ok(false),
    }
}

/// Whether two items of a group are at these two stops, which aren't one (OpenCL 1.2, section 6.12.8). An error is out
/// of memory.
fn shows_divergence<D: Runnable>(
    launch: &D,
    player: &mut Player<'_, D>,
    item: u32,
    stop: &Stop,
    other_item: u32,
    other_stop: &Stop,
) -> Result<bool, AllocError>
    ensures { IfOk result (λ yes. (started : ℕ → Running) (state : State) → IsAt D.launch D.started (D.launch launch.now) started player.old state → Decides yes (Shows (D.launch launch.now) state (faults.Divergence item stop.now other_item other_stop.now))) }
{
    let size = launch.group_size();
    if item / size != other_item / size {
        return Ok(false);
    }
    if same_stop(stop, other_stop) {
        return Ok(false);
    }
    if !stops_at(player, item, stop)? {
        return Ok(false);
    }
    stops_at(player, other_item, other_stop)
}

/// Whether an operation's access is of this kind.
fn is_of_kind(operation: Operation, kind: AccessKind) -> bool
    ensures { Decides result (kind_of operation ≡ kind) }
{
    operation.kind() == kind
}

/// Whether an item's next action is an access of this kind to this element of an object at this location, and out of
/// range (C99 6.5.2.1, 6.5.6). An error is out of memory.
fn shows_bounds<D: Runnable>(
    launch: &D,
    player: &mut Player<'_, D>,
    item: u32,
    kind: AccessKind,
    location: &Location,
    element: i64,
) -> Result<bool, AllocError>
    ensures { IfOk result (λ yes. (started : ℕ → Running) (state : State) → IsAt D.launch D.started (D.launch launch.now) started player.old state → Decides yes (Shows (D.launch launch.now) state (faults.Bounds item kind location.now element))) }
{
    let Some(next) = player.action(item)?.and_then(access_of) else {
        return Ok(false);
    };
    if next.element != element {
        return Ok(false);
    }
    if !is_of_kind(next.operation, kind) {
        return Ok(false);
    }
    let first = player.first_byte(next.object, next.element, next.operation);
    if first.is_some() {
        return Ok(false);
    }
    let group = item / launch.group_size();
    is_at(launch, next.object.region(group), location)
}

/// Whether the bytes that an operation acts on must be set.
fn reads(operation: Operation) -> bool
    ensures { result ≡ reads operation }
{
    match operation {
        Operation::Load(_) | Operation::Update(_, _) | Operation::Fetch(_, _) => true,
        Operation::Store(_, _) => false,
    }
}

/// Whether an access of an item is in range and reads unset bytes, of which this is the lowest.
fn reads_unset<D: Runnable>(player: &Player<'_, D>, item: u32, next: NextAccess, byte: u64) -> bool
    requires { (launch : Launch) × (started : ℕ → Running) × (state : State) × IsAt D.launch D.started launch started player.now state × (item < launch.items) }
    ensures { (launch : Launch) (started : ℕ → Running) (state : State) → IsAt D.launch D.started launch started player.now state → Decides result (ReadsUnset launch state item next byte) }
{
    if !reads(next.operation) {
        return false;
    }
    match player.first_byte(next.object, next.element, next.operation) {
        Some(first) => player.unset_byte(item, next.object, first, next.operation) == Some(byte),
        None => false,
    }
}

/// Whether an item's next action is an access of this kind to an object at this location, and reads unset bytes, of
/// which this is the lowest (C99 6.7.8). An error is out of memory.
fn shows_unset<D: Runnable>(
    launch: &D,
    player: &mut Player<'_, D>,
    item: u32,
    kind: AccessKind,
    location: &Location,
    byte: u64,
) -> Result<bool, AllocError>
    requires { (started : ℕ → Running) × (state : State) × IsAt D.launch D.started (D.launch launch.now) started player.old state }
    ensures { IfOk result (λ yes. (started : ℕ → Running) (state : State) → IsAt D.launch D.started (D.launch launch.now) started player.old state → Decides yes (Shows (D.launch launch.now) state (faults.Unset item kind location.now byte))) }
{
    let Some(next) = player.action(item)?.and_then(access_of) else {
        return Ok(false);
    };
    if !is_of_kind(next.operation, kind) {
        return Ok(false);
    }
    if !reads_unset(player, item, next, byte) {
        return Ok(false);
    }
    let group = item / launch.group_size();
    is_at(launch, next.object.region(group), location)
}

/// Whether an item can do nothing more, as a fault tells. An error is out of memory.
fn shows_failure<D: Runnable>(
    launch: &D,
    player: &mut Player<'_, D>,
    item: u32,
    fault: &Fault,
) -> Result<bool, AllocError>
    ensures { IfOk result (λ yes. (started : ℕ → Running) (state : State) → IsAt D.launch D.started (D.launch launch.now) started player.old state → Decides yes (Fails (D.launch launch.now) state item fault.now)) }
{
    match player.action(item)?.and_then(cause_of) {
        Some(cause) => is_fault_of(launch, item, cause, fault),
        None => Ok(false),
    }
}

/// Whether the next actions of items show a fault, which is no conflict. An error is out of memory.
fn shows_next<D: Runnable>(
    launch: &D,
    player: &mut Player<'_, D>,
    fault: &Fault,
) -> Result<bool, AllocError>
    requires at { (started : ℕ → Running) × (state : State) × IsAt D.launch D.started (D.launch launch.now) started player.old state }
    requires next { is_conflict fault.now ≡ false }
    ensures { IfOk result (λ yes. (started : ℕ → Running) (state : State) → IsAt D.launch D.started (D.launch launch.now) started player.old state → Decides yes (Shows (D.launch launch.now) state fault.now)) }
{
    match fault {
        Fault::Conflict { .. } => unreachable!(),
        Fault::Divergence {
            item,
            stop,
            other_item,
            other_stop,
        } => shows_divergence(launch, player, *item, stop, *other_item, other_stop),
        Fault::Bounds {
            item,
            kind,
            location,
            element,
        } => shows_bounds(launch, player, *item, *kind, location, *element),
        Fault::Unset {
            item,
            kind,
            location,
            byte,
        } => shows_unset(launch, player, *item, *kind, location, *byte),
        Fault::PrivateBounds { item, .. }
        | Fault::UnsetVariable { item, .. }
        | Fault::UnsetElement { item, .. }
        | Fault::DivideByZero { item }
        | Fault::DivideOverflow { item }
        | Fault::Budget { item } => shows_failure(launch, player, *item, fault),
    }
}

/// Whether the state that a player is at shows a fault. An error is out of memory.
pub fn shows<D: Runnable>(
    alloc: Global,
    launch: &D,
    player: &mut Player<'_, D>,
    fault: &Fault,
) -> Result<bool, AllocError>
    requires { (started : ℕ → Running) × (state : State) × IsAt D.launch D.started (D.launch launch.now) started player.old state }
    ensures { IfOk result (λ yes. (started : ℕ → Running) (state : State) → IsAt D.launch D.started (D.launch launch.now) started player.old state → Decides yes (Shows (D.launch launch.now) state fault.now)) }
{
    match told_conflict(fault) {
        Some(told) => Ok(find_conflict(alloc, launch, player.log(), &told)?.is_some()),
        None => shows_next(launch, player, fault),
    }
}
