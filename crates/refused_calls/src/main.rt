//! Calls of the crates on small inputs, with a line for what came of each. `tools/rows` runs it with each request for
//! memory refused in turn. A call that is refused then answers so. What it was lent by reference is as before, and the
//! same call is made again and does its work. The calls that take no memory are made between two lines on standard
//! error, `refuse: all` and `refuse: none`, between which every request is refused.
#![tactic(auto)]

mod came;
mod clients;
mod launch_calls;
mod logs;
mod machine;
mod one_thread;
mod orders_calls;
mod passes;
mod queue;
mod requests;
mod scripts;
mod spaces_lent;
mod tickets;
mod without_memory;

use std::alloc::Global;
use std::marker::Sync;
use std::sync::Wait;
use std::thread::Threads;

/// Tries all calls.
fn try_all<R: Print + Eprint + Threads + Wait + Sync>(rt: &R, alloc: Global) {
    passes::try_all(rt, alloc);
    spaces_lent::try_all(rt, alloc);
    logs::try_all(rt, alloc);
    launch_calls::try_all(rt, alloc);
    orders_calls::try_all(rt, alloc);
    without_memory::try_all(rt, alloc);
    clients::try_all(rt, alloc);
}

/// Tries all calls, each with the memory of this process.
fn main(rt: HostRuntime) {
    try_all(&rt, rt.alloc());
}
