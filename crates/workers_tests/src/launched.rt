//! Launches by `run_parallel`, at gates that count and hold groups.
ghost use Rattle.std.specs.Prelude.{◌≤◌};

use crate::gates::{Counting, HighFirst};
use crate::two_workers::launched;
use clmodel::fault::Fault;
use clmodel::outcome::Outcome;
use std::alloc::Global;
use std::sync::Wait;
use std::thread::Threads;

/// A hundred groups of 256 items.
const HUNDRED: &str = "buffer a 102400
program p 1
__kernel void f(__global int *a) { a[get_global_id(0)] = get_local_id(0); }
kernel k p f
arg k 0 buffer a
launch k 25600 256
";

/// Whether an outcome has no report.
fn is_clean(outcome: &Outcome) -> bool {
    match outcome {
        Outcome::Clean(_) => true,
        _ => false,
    }
}

/// Whether a launch of a hundred groups by so many workers is clean, and each group calls the gate with its own number.
fn passes_once<W: Threads + Wait + Sync>(rt: &W, alloc: Global, workers: u32) -> bool
    requires workers { (1 ≤ workers) × (workers ≤ 16) }
{
    let Some(gate) = Counting::new(alloc, 100) else {
        return false;
    };
    match launched(rt, alloc, HUNDRED, workers, &gate) {
        Some(outcome) => is_clean(&outcome) & gate.has_each_once(),
        None => false,
    }
}

/// Each group calls the gate with its own number, however the launch is cut into rounds.
#[test]
fn each_group_passes_the_gate_once(rt: HostRuntime) {
    let alloc = rt.alloc();
    assert!(rt; passes_once(&rt, alloc, 1) & passes_once(&rt, alloc, 2));
}

/// Four groups, of which 1 and 3 divide by 0.
const ODD: &str = "buffer a 16
program p 1
__kernel void f(__global int *a) { int g = get_group_id(0); if (g % 2 == 1) a[g] = 1 / (g - g); else a[g] = g; }
kernel k p f
arg k 0 buffer a
launch k 4 1
";

/// Whether an outcome is a division by 0 of item 1.
fn is_of_item_1(outcome: &Outcome) -> bool {
    match outcome {
        Outcome::Faulted(Fault::DivideByZero { item }, _) => *item == 1,
        _ => false,
    }
}

/// Whether a launch in which group 3 is found to divide by 0 before group 1 is run comes to the fault of group 1.
fn answers_the_lower<W: Threads + Wait + Sync>(rt: &W, alloc: Global) -> bool {
    let gate = HighFirst::new(1, 3);
    match launched(rt, alloc, ODD, 2, &gate) {
        Some(outcome) => is_of_item_1(&outcome) & gate.has_waited(),
        None => false,
    }
}

/// Group 3 is found to divide by 0 before group 1 is run: the answer is that of group 1.
#[test]
fn the_lower_group_is_answered(rt: HostRuntime) {
    assert!(rt; answers_the_lower(&rt, rt.alloc()));
}
