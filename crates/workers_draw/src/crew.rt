//! Workers in threads of their own.
ghost use Rattle.std.specs.Prelude.{◌≡◌, ◌<◌, ◌≤◌, ◌-◌, ◌+◌, ◌^◌, [], IfOk};
ghost use Rattle.std.specs.Thread.{IsSync};
ghost use denote.Param.Send.{IsSend};
ghost use Rattle.workers_draw.specs.Board.{both};
ghost use Rattle.workers_draw.specs.Groups.{IsFresh, DidWork};

use crate::board::{Board, Deal, Together, WorkerSeat};
use crate::gate::Gate;
use crate::work::Work;
use crate::worker::{Worker, work_at};
use std::alloc::{AllocError, Global};
use std::sync::Wait;
use std::thread;
use std::thread::Threads;

/// A seat with one of the parts.
fn deal(board: &Board, seat: &mut WorkerSeat) -> WorkerSeat
    requires board { board.now.table_id.words ≡ 2 }
    requires fresh { IsFresh board.now.table_id seat.old.me.0.parts seat.old }
    requires some { 0 < seat.old.me.0.parts }
    ensures left { IsFresh board.now.table_id (seat.old.me.0.parts - 1) seat.new }
    ensures right { IsFresh board.now.table_id 1 result }
{
    board.split_seat::<Deal>(seat)
}

/// Takes a worker's seat back.
fn join_seats(board: &Board, seat: &mut WorkerSeat, other: WorkerSeat)
    requires board { (seat.old.table_id ≡ board.now.table_id) × (board.now.table_id.words ≡ 2) }
    requires other { (other.table_id ≡ board.now.table_id) × (other.me.1 ≡ []) }
    ensures { (seat.new.table_id ≡ seat.old.table_id) × (seat.new.me ≡ (both seat.old.me.0 other.me.0, seat.old.me.1)) }
{
    board.join_seat::<Together>(seat, other);
}

/// What two workers did, as one.
fn together<W: Work>(
    work: &W,
    board: &Board,
    one: Worker<W::Output>,
    other: Worker<W::Output>,
) -> Result<Worker<W::Output>, AllocError>
    requires board { board.now.table_id.words ≡ 2 }
    requires one { DidWork (W.count work.now) (W.gives work.now) (W.stops work.now) board.now.table_id one.seat.me.0.parts one }
    requires other { DidWork (W.count work.now) (W.gives work.now) (W.stops work.now) board.now.table_id other.seat.me.0.parts other }
    ensures { IfOk result (DidWork (W.count work.now) (W.gives work.now) (W.stops work.now) board.now.table_id (one.seat.me.0.parts + other.seat.me.0.parts)) }
{
    let Worker {
        mut seat,
        mut outputs,
    } = one;
    let Worker {
        seat: theirs,
        outputs: mut more,
    } = other;
    join_seats(board, &mut seat, theirs);
    outputs.append(&mut more)?;
    Ok(Worker { seat, outputs })
}

/// Lets this many workers work. The calling thread makes a call, and is then one of them; it starts all others itself,
/// since a thread that a started thread starts may be left on that one's processor while others idle. A thread that
/// can't be started is done without.
#[cycle(crew)]
pub(crate) fn crew<W: Work, G: Gate, R: Threads + Wait + Sync, F: FnOnce() -> T, T>(
    rt: &R,
    alloc: Global,
    work: &W,
    gate: &G,
    board: &Board,
    mut seat: WorkerSeat,
    workers: usize,
    call: F,
) -> (Result<Worker<W::Output>, AllocError>, T)
    requires board { (board.now.key ≡ W.count work.now) × (board.now.table_id.words ≡ 2) }
    requires small { W.count work.now < 2 ^ 32 }
    requires seat { IsFresh board.now.table_id seat.me.0.parts seat }
    requires workers { (0 < workers) × (workers ≤ seat.me.0.parts) }
    requires call { F.pre call }
    ensures worked { IfOk result.0 (DidWork (W.count work.now) (W.gives work.now) (W.stops work.now) board.now.table_id seat.me.0.parts) }
    ensures call { F.post call result.1 }
{
    if workers == 1 {
        let made = call();
        return (work_at(rt, alloc, work, gate, board, seat), made);
    }
    let rest = workers - 1;
    let theirs = deal(board, &mut seat);
    let (other, ours) = thread::join(
        rt,
        move || -> Result<Worker<W::Output>, AllocError>
            requires { IsSync R.row × IsSync W.row × IsSync G.row × IsSend W.Output.row × (board.now.key ≡ W.count work.now) × (board.now.table_id.words ≡ 2) × (W.count work.now < 2 ^ 32) × IsFresh board.now.table_id theirs.me.0.parts theirs × (0 < theirs.me.0.parts) }
            ensures { IfOk result (DidWork (W.count work.entry.now) (W.gives work.entry.now) (W.stops work.entry.now) board.entry.now.table_id theirs.me.0.parts) }
        { work_at(rt, alloc, work, gate, board, theirs) },
        move || -> (Result<Worker<W::Output>, AllocError>, T)
            requires { IsSync R.row × IsSync W.row × IsSync G.row × IsSend W.Output.row × (board.now.key ≡ W.count work.now) × (board.now.table_id.words ≡ 2) × (W.count work.now < 2 ^ 32) × IsFresh board.now.table_id seat.me.0.parts seat × (0 < rest) × (rest ≤ seat.me.0.parts) × F.pre call }
            ensures { IfOk result.0 (DidWork (W.count work.entry.now) (W.gives work.entry.now) (W.stops work.entry.now) board.entry.now.table_id seat.me.0.parts) × F.post call result.1 }
        { crew(rt, alloc, work, gate, board, seat, rest, call) },
    );
    let (one, made) = ours;
    let worker = match one {
        Ok(one) => match other {
            Ok(other) => together(work, board, one, other),
            Err(error) => Err(error),
        },
        Err(error) => Err(error),
    };
    (worker, made)
}
