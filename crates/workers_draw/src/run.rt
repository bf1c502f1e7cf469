//! The run of all groups.
ghost use Rattle.std.specs.Prelude.{◌≡◌, ◌⊎◌, ℕ, ◌<◌, ◌≤◌, ◌^◌, IfOk};
ghost use Rattle.workers_draw.specs.Board.{Has};
ghost use Rattle.workers_draw.specs.Groups.{IsDone, IsFresh, DidWork, AreResults};

use crate::board::{Drawing, Hand, WorkerSeat};
use crate::crew::crew;
use crate::gate::Gate;
use crate::gather::{accept_all, in_order, places};
use crate::work::Work;
use crate::worker::Worker;
use atomic_table::Table;
use std::alloc::{AllocError, Global};
use std::sync::Wait;
use std::thread::Threads;

/// The owner of the two words that the workers share, which knows the count of groups.
pub(crate) type WorkTable = Table<u8, Hand, u64, Drawing, Global>;

/// Ends the table with the seat that has all parts: each group was drawn, and each least fault that was seen is known
/// to stop.
fn finish(table: WorkTable, seat: WorkerSeat)
    requires table { seat.table_id ≡ table.shared.table_id }
    requires slots { table.shared.table_id.slots ≡ 0 }
    requires all { seat.me.0.parts ≡ 16 }
    requires done { IsDone table.shared.key seat.me.0 }
    ensures drawn { (group : ℕ) → group < table.shared.key → Has seat.me.0.drawn group }
    ensures seen { (least : ℕ) → Has seat.me.0.seen least → (least ≡ table.shared.key) ⊎ Has seat.me.0.stopped least }
{
    table.close_with(seat).free();
}

/// The two words where nothing is drawn, and the seat that has all parts. An error is out of memory.
fn open(alloc: Global, count: u32) -> Result<(WorkTable, WorkerSeat), AllocError>
    ensures { IfOk result (λ t. (t.0.shared.table_id.words ≡ 2) × (t.0.shared.table_id.slots ≡ 0) × (t.0.shared.key ≡ count) × IsFresh t.0.shared.table_id 16 t.1) }
{
    WorkTable::of_words(alloc, &[0, u64::from(count)], &u64::from(count))
}

/// The results in order, up to and with the first that stopped, once all parts of the work are done. An error is out of
/// memory.
fn gathered<W: Work>(
    alloc: Global,
    work: &W,
    table: WorkTable,
    worker: Result<Worker<W::Output>, AllocError>,
) -> Result<Vec<W::Output>, AllocError>
    requires count { table.shared.key ≡ W.count work.now }
    requires slots { table.shared.table_id.slots ≡ 0 }
    requires worker { IfOk worker (DidWork (W.count work.now) (W.gives work.now) (W.stops work.now) table.shared.table_id 16) }
    ensures { IfOk result (λ v. AreResults (W.count work.now) (W.gives work.now) W.is_stopped 0 v.items) }
{
    let Worker { seat, outputs } = worker?;
    let mut ready = places(alloc, work.group_count())?;
    accept_all(work, &mut ready, outputs);
    finish(table, seat);
    in_order(alloc, work, ready)
}

/// The results of all groups in order, up to and with the first that stopped, by 1 to 16 workers (OpenCL 1.2, sections
/// 3.2 and 5.8). The calling thread is one of them, and a thread that can't be started is done without. An error is out
/// of memory, in a group's run or for the results.
pub fn run_groups<W: Work, G: Gate, R: Threads + Wait + Sync>(
    rt: &R,
    alloc: Global,
    work: &W,
    workers: usize,
    gate: &G,
) -> Result<Vec<W::Output>, AllocError>
    requires { (0 < workers) × (workers ≤ 16) }
    ensures { IfOk result (λ v. AreResults (W.count work.now) (W.gives work.now) W.is_stopped 0 v.items) }
{
    run_groups_after(rt, alloc, work, workers, gate, || {}).0
}

/// The same where the calling thread makes a call first, and then works with the others.
pub fn run_groups_after<W: Work, G: Gate, R: Threads + Wait + Sync, F: FnOnce() -> T, T>(
    rt: &R,
    alloc: Global,
    work: &W,
    workers: usize,
    gate: &G,
    call: F,
) -> (Result<Vec<W::Output>, AllocError>, T)
    requires workers { (0 < workers) × (workers ≤ 16) }
    requires call { F.pre call }
    ensures results { IfOk result.0 (λ v. AreResults (W.count work.now) (W.gives work.now) W.is_stopped 0 v.items) }
    ensures call { F.post call result.1 }
{
    match open(alloc, work.group_count()) {
        Err(error) => (Err(error), call()),
        Ok((table, seat)) => {
            let (worker, made) = crew(rt, alloc, work, gate, &table.shared, seat, workers, call);
            (gathered(alloc, work, table, worker), made)
        }
    }
}
