//! No lock lies round the queue: a submit returns while the device does a command.
ghost use Rattle.std.specs.Prelude.{◌≡◌};

use crate::clients::drive;
use crate::pair::{open_one, submit};
use host_queue::{Client, Driver, Machine, Queue};
use std::alloc::{AllocError, Global};
use std::sync::Wait;
use std::sync::atomic::{AtomicU64, Ordering};
use std::thread;
use std::thread::{Threads, join_mut};

/// How often a count is looked at.
const TURNS: u32 = 10_000_000;

/// Looks until a count has come to a number, and answers whether it has.
fn comes_to(count: &AtomicU64, number: u64) -> bool {
    for _ in 0..TURNS {
        if count.load(Ordering::SeqCst) >= number {
            return true;
        }
        thread::yield_now();
    }
    false
}

/// How many commands have begun, how many submits have returned, and how many commands saw that.
#[derive(Drop)]
struct Counts {
    begun: AtomicU64,
    returned: AtomicU64,
    met: AtomicU64,
}

/// A machine whose command waits, a bounded number of turns, until as many submits have returned as it says.
#[derive(Drop)]
struct Waiting<'a> {
    counts: &'a Counts,
}

impl<'a> Machine<u64, ()> for Waiting<'a> {
    ghost step = { λ before _ _ after. after ≡ before };

    fn apply(&mut self, submits: u64) {
        self.counts.begun.fetch_add(1, Ordering::SeqCst);
        if comes_to(&self.counts.returned, submits) {
            self.counts.met.fetch_add(1, Ordering::SeqCst);
        }
    }
}

/// Submits a command that waits for the next submit, and submits once more when it has begun.
fn submit_twice<D: Machine<u64, ()>>(
    alloc: Global,
    queue: &Queue<D, u64, ()>,
    client: &mut Client<D, u64, ()>,
    counts: &Counts,
)
    requires one { client.old.seat.table_id ≡ queue.now.table.shared.table_id }
{
    drop(submit(alloc, queue, client, Ok(2)));
    counts.returned.fetch_add(1, Ordering::SeqCst);
    comes_to(&counts.begun, 1);
    drop(submit(alloc, queue, client, Ok(2)));
    counts.returned.fetch_add(1, Ordering::SeqCst);
}

/// Submits in one thread, and drives in another.
fn submit_and_drive<W: Threads + Wait + Sync, D: Machine<u64, ()> + Send>(
    rt: &W,
    alloc: Global,
    queue: &Queue<D, u64, ()>,
    client: &mut Client<D, u64, ()>,
    driver: &mut Driver<D, u64, ()>,
    counts: &Counts,
)
    requires one { (client.old.seat.table_id ≡ queue.now.table.shared.table_id) × (driver.old.seat.table_id ≡ queue.now.table.shared.table_id) }
{
    join_mut(
        rt,
        &mut ||
            requires { client.now.seat.table_id ≡ queue.now.table.shared.table_id }
        { submit_twice(alloc, queue, client, counts) },
        &mut ||
            requires { driver.now.seat.table_id ≡ queue.now.table.shared.table_id }
        { drive(rt, queue, driver, 2) },
    );
}

/// How many commands saw that a later submit had returned.
fn met<W: Threads + Wait + Sync>(
    rt: &W,
    alloc: Global,
    counts: &Counts,
) -> Result<u64, AllocError> {
    let (queue, mut client, mut driver) = open_one(alloc, Waiting { counts })?;
    submit_and_drive(rt, alloc, &queue, &mut client, &mut driver, counts);
    Ok(counts.met.load(Ordering::SeqCst))
}

/// Shows that a command which waits until a later submit has returned sees that it has.
#[test]
fn a_submit_returns_while_a_command_is_done(rt: HostRuntime) {
    let counts = Counts {
        begun: AtomicU64::new(0),
        returned: AtomicU64::new(0),
        met: AtomicU64::new(0),
    };
    assert!(rt; met(&rt, rt.alloc(), &counts) == Ok(2));
}
