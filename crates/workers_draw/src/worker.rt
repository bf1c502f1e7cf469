//! One worker.
ghost use Rattle.std.specs.Prelude.{◌≡◌, ℕ, ◌<◌, ◌^◌, [], ◌∷◌, ◌++◌, IfOk};
ghost use Rattle.workers_draw.specs.Board.{hand, total, is_past};
ghost use Rattle.workers_draw.specs.Groups.{IsFresh, DidWork, IsNoted, IsTried};

use crate::board::{Board, Draw, Look, Lower, WorkerSeat};
use crate::gate::Gate;
use crate::work::Work;
use std::alloc::{AllocError, Global};
use std::sync::Wait;

/// A seat that worked, and the results of the groups that it ran.
#[derive(Drop)]
pub struct Worker<T> {
    /// Its seat at the board, which knows which numbers it drew.
    pub seat: WorkerSeat,
    /// The results of the groups that it ran, in the order in which it drew them.
    pub outputs: Vec<T>,
}

/// The next number, which no other draw gives.
pub(crate) fn draw(board: &Board, seat: &mut WorkerSeat) -> u64
    requires board { (seat.old.table_id ≡ board.now.table_id) × (board.now.table_id.words ≡ 2) × (board.now.key < 2 ^ 32) }
    requires room { total (is_past board.now.key) seat.old.me.0.drawn < seat.old.me.0.parts }
    ensures same { (seat.new.table_id ≡ seat.old.table_id) × (seat.new.id ≡ seat.old.id) }
    ensures drew { seat.new.me ≡ (hand seat.old.me.0.parts (seat.old.me.0.drawn ++ result ∷ []) seat.old.me.0.seen seat.old.me.0.stopped, seat.old.me.1) }
{
    board.fetch_add::<Draw>(seat, 0, 1)
}

/// A group whose run stops, or the count of groups.
pub(crate) fn look(board: &Board, seat: &mut WorkerSeat) -> u64
    requires board { (seat.old.table_id ≡ board.now.table_id) × (board.now.table_id.words ≡ 2) }
    ensures same { (seat.new.table_id ≡ seat.old.table_id) × (seat.new.id ≡ seat.old.id) }
    ensures looked { seat.new.me ≡ (hand seat.old.me.0.parts seat.old.me.0.drawn (seat.old.me.0.seen ++ result ∷ []) seat.old.me.0.stopped, seat.old.me.1) }
{
    board.load::<Look>(seat, 1)
}

/// Lets all know that the run of a group stops.
pub(crate) fn lower(board: &Board, seat: &mut WorkerSeat, group: u64)
    requires board { (seat.old.table_id ≡ board.now.table_id) × (board.now.table_id.words ≡ 2) }
    requires part { 0 < seat.old.me.0.parts }
    ensures same { (seat.new.table_id ≡ seat.old.table_id) × (seat.new.id ≡ seat.old.id) }
    ensures lowered { seat.new.me ≡ (hand seat.old.me.0.parts seat.old.me.0.drawn seat.old.me.0.seen (seat.old.me.0.stopped ++ group ∷ []), seat.old.me.1) }
{
    board.fetch_min::<Lower>(seat, 1, group);
}

/// Lets all know where the run of a group stopped.
fn note<W: Work>(work: &W, board: &Board, seat: &mut WorkerSeat, group: u64, output: &W::Output)
    requires board { (seat.old.table_id ≡ board.now.table_id) × (board.now.table_id.words ≡ 2) }
    requires part { 0 < seat.old.me.0.parts }
    requires gives { W.gives work.now group output.now }
    ensures same { (seat.new.table_id ≡ seat.old.table_id) × (seat.new.me.1 ≡ seat.old.me.1) }
    ensures noted { IsNoted (W.stops work.now) seat.old.me.0 seat.new.me.0 }
{
    work.laws();
    if W::stopped(output) {
        lower(board, seat, group);
    }
}

/// Runs a group that was drawn, unless it is above the least faulty group that is seen now.
fn try_group<W: Work>(
    alloc: Global,
    work: &W,
    board: &Board,
    seat: &mut WorkerSeat,
    group: u32,
) -> Result<Option<W::Output>, AllocError>
    requires board { (seat.old.table_id ≡ board.now.table_id) × (board.now.table_id.words ≡ 2) }
    requires part { 0 < seat.old.me.0.parts }
    requires there { group < W.count work.now }
    ensures same { IfOk result (λ _. (seat.new.table_id ≡ seat.old.table_id) × (seat.new.me.1 ≡ seat.old.me.1)) }
    ensures tried { IfOk result (IsTried (W.gives work.now) (W.stops work.now) group seat.old.me.0 seat.new.me.0) }
{
    let least = look(board, seat);
    if least < u64::from(group) {
        return Ok(None);
    }
    let output = work.one_group(alloc, group)?;
    note(work, board, seat, u64::from(group), &output);
    Ok(Some(output))
}

/// Tries a group that was drawn between two calls of the gate. What its run came to is known to all before the second.
fn try_at<W: Work, G: Gate>(
    alloc: Global,
    work: &W,
    gate: &G,
    board: &Board,
    seat: &mut WorkerSeat,
    group: u32,
) -> Result<Option<W::Output>, AllocError>
    requires board { (seat.old.table_id ≡ board.now.table_id) × (board.now.table_id.words ≡ 2) }
    requires part { 0 < seat.old.me.0.parts }
    requires there { group < W.count work.now }
    ensures same { IfOk result (λ _. (seat.new.table_id ≡ seat.old.table_id) × (seat.new.me.1 ≡ seat.old.me.1)) }
    ensures tried { IfOk result (IsTried (W.gives work.now) (W.stops work.now) group seat.old.me.0 seat.new.me.0) }
{
    gate.enter(group);
    let output = try_group(alloc, work, board, seat, group);
    gate.leave(group);
    output
}

/// Draws groups until none is left, and runs each of them that isn't above the least faulty group that is seen then.
pub(crate) fn work_at<W: Work, G: Gate, R: Wait>(
    rt: &R,
    alloc: Global,
    work: &W,
    gate: &G,
    board: &Board,
    mut seat: WorkerSeat,
) -> Result<Worker<W::Output>, AllocError>
    requires board { (board.now.key ≡ W.count work.now) × (board.now.table_id.words ≡ 2) }
    requires small { W.count work.now < 2 ^ 32 }
    requires seat { IsFresh board.now.table_id seat.me.0.parts seat × (0 < seat.me.0.parts) }
    ensures { IfOk result (DidWork (W.count work.now) (W.gives work.now) (W.stops work.now) board.now.table_id seat.me.0.parts) }
{
    let count = work.group_count();
    let mut outputs = Vec::new(alloc);
    for _ in rt.forever() {
        let drawn = draw(board, &mut seat);
        if drawn >= u64::from(count) {
            return Ok(Worker { seat, outputs });
        }
        let tried = try_at(alloc, work, gate, board, &mut seat, drawn as u32)?;
        if let Some(output) = tried {
            outputs.push(output)?;
        }
    }
    unreachable!()
}
