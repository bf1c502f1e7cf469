//! What comes of groups that workers draw.
ghost use Rattle.std.specs.Prelude.{◌<◌, ◌≤◌};

use crate::gates::{Coming, Counting, HighFirst, Meeting};
use crate::numbers::{Ended, Numbers};
use std::alloc::Global;
use std::sync::Wait;
use std::thread::Threads;
use workers_draw::gate::Gate;
use workers_draw::gather::accept;
use workers_draw::run::{run_groups, run_groups_after};

/// The number of no group.
const NONE: u32 = 4_000_000_000;

/// So many groups, none of which stops.
fn going_on(count: u32) -> Numbers {
    Numbers {
        count,
        low: NONE,
        high: NONE,
    }
}

/// Whether these are the results of the groups from 0 on, so many and in their order, of which `stopped` alone stopped.
fn are_in_order(results: &[Ended], count: usize, stopped: u32) -> bool {
    let mut number = 0u32;
    for ended in results {
        if ended.group != number || ended.stopped != (number == stopped) {
            return false;
        }
        number = number.wrapping_add(1);
    }
    results.len() == count
}

/// Whether a run by so many workers gives the results of the groups from 0 on, so many and in their order, of which
/// `stopped` alone stopped. It doesn't where memory runs out.
fn is_run<R: Threads + Wait + Sync, G: Gate>(
    rt: &R,
    alloc: Global,
    groups: Numbers,
    workers: usize,
    gate: &G,
    count: usize,
    stopped: u32,
) -> bool
    requires workers { (0 < workers) × (workers ≤ 16) }
{
    match run_groups(rt, alloc, &groups, workers, gate) {
        Ok(results) => are_in_order(results.as_slice(), count, stopped),
        Err(_) => false,
    }
}

/// Whether so many groups on so many workers are each run once, and the results are in order.
fn is_each_run_once<R: Threads + Wait + Sync>(
    rt: &R,
    alloc: Global,
    count: u32,
    workers: usize,
) -> bool
    requires workers { (0 < workers) × (workers ≤ 16) }
{
    match Counting::new(alloc, count) {
        Some(gate) => {
            is_run(
                rt,
                alloc,
                going_on(count),
                workers,
                &gate,
                count as usize,
                NONE,
            ) & gate.has_each_once()
        }
        None => false,
    }
}

/// Shows that each of up to 65,536 groups is run once by 1 to 16 workers, and that the results are in order.
#[test]
fn all_groups_in_their_order(rt: HostRuntime) {
    let alloc = rt.alloc();
    for (count, workers) in [(0, 16), (3, 16), (65_536, 1), (65_536, 3), (65_536, 16)] {
        assert!(rt; is_each_run_once(&rt, alloc, count, workers));
    }
}

/// Whether as many groups as workers all go on once all have entered, and the results are in order.
fn do_meet<R: Threads + Wait + Sync>(rt: &R, alloc: Global, workers: u32) -> bool
    requires workers { (0 < workers) × (workers ≤ 16) }
{
    let gate = Meeting::new(workers);
    let count = workers as usize;
    is_run(rt, alloc, going_on(workers), count, &gate, count, NONE)
        & (gate.met() == u64::from(workers))
}

/// As many workers as are asked for take part: each has to draw a group, since none goes on before all groups have
/// entered.
#[test]
fn all_workers_meet(rt: HostRuntime) {
    let alloc = rt.alloc();
    assert!(rt; do_meet(&rt, alloc, 2) & do_meet(&rt, alloc, 3) & do_meet(&rt, alloc, 16));
}

/// Whether four groups on two workers all go on once a call has begun that sees a group come, and the results are in
/// order.
fn runs_beside_a_call<R: Threads + Wait + Sync>(rt: &R, alloc: Global) -> bool {
    let gate = Coming::new();
    let groups = going_on(4);
    let (results, has_come) = run_groups_after(rt, alloc, &groups, 2, &gate, || gate.has_come());
    match results {
        Ok(results) => are_in_order(results.as_slice(), 4, NONE) & has_come & (gate.met() == 4),
        Err(_) => false,
    }
}

/// A call by the calling thread waits until the other worker has a group at the gate, which waits there until the call
/// has begun.
#[test]
fn a_group_runs_beside_a_call(rt: HostRuntime) {
    assert!(rt; runs_beside_a_call(&rt, rt.alloc()));
}

/// Whether group 0, one of forty on two workers, waits until group 1 has left, and the results are in order up to
/// `stopped`, so many. Two of the groups stop.
fn is_cut<R: Threads + Wait + Sync>(
    rt: &R,
    alloc: Global,
    low: u32,
    high: u32,
    count: usize,
    stopped: u32,
) -> bool {
    let groups = Numbers {
        count: 40,
        low,
        high,
    };
    let gate = HighFirst::new(0, 1);
    is_run(rt, alloc, groups, 2, &gate, count, stopped) & gate.has_waited()
}

/// Group 1 stops before group 0 is run, and is known to stop when group 0 may go on: the answer is that of group 0 all
/// the same. Where group 0 doesn't stop, both are there, and no other.
#[test]
fn the_least_group_that_stops(rt: HostRuntime) {
    let alloc = rt.alloc();
    assert!(rt; is_cut(&rt, alloc, 0, 1, 1, 0) & is_cut(&rt, alloc, 1, 39, 2, 1));
}

/// Whether the result of a group is taken.
fn is_taken(groups: &Numbers, places: &mut Vec<Option<Ended>>, group: u32) -> bool {
    let ended = Ended {
        group,
        stopped: false,
    };
    accept(groups, places, ended).is_ok()
}

/// Whether of results of groups 1, 1, 2 and 0 the first and the last alone are taken, one after the other, where there
/// are two groups.
fn are_taken(alloc: Global) -> bool {
    let groups = going_on(2);
    match vec![in alloc; None, None] {
        Ok(places) => {
            let mut places = places;
            is_taken(&groups, &mut places, 1)
                & !is_taken(&groups, &mut places, 1)
                & !is_taken(&groups, &mut places, 2)
                & is_taken(&groups, &mut places, 0)
        }
        Err(_) => false,
    }
}

/// Neither a second result of a group nor one of no group is taken.
#[test]
fn a_group_is_taken_once(rt: HostRuntime) {
    assert!(rt; are_taken(rt.alloc()));
}
