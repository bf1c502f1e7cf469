//! Two clients that draw tickets in threads of their own, and then agree.
ghost use Rattle.std.specs.Prelude.{◌≡◌};
ghost use Rattle.host_queue.specs.Seats.{name_of};

use crate::pair::{Pair, number, open_two, submit};
use crate::tally::Tally;
use host_queue::{Client, Queue, TICKETS};
use std::alloc::{AllocError, Global};
use std::thread::{Threads, join_mut};

/// A client at the queue of a machine that adds.
type Adder = Client<Tally, u32, u32>;

/// Draws a hundred tickets: the last one's number.
fn draw(alloc: Global, queue: &Queue<Tally, u32, u32>, adder: &mut Adder) -> u64
    requires one { adder.old.seat.table_id ≡ queue.now.table.shared.table_id }
    ensures one { adder.new.seat.table_id ≡ adder.old.seat.table_id }
    ensures name { name_of adder.new.seat ≡ name_of adder.old.seat }
{
    let mut last = 0;
    for add in 0..100 {
        last = number(submit(alloc, queue, adder, Ok(add)));
    }
    last
}

/// Lets both clients draw a hundred tickets, each in a thread of its own: the number of the last one.
fn draw_both<W: Threads>(
    rt: &W,
    alloc: Global,
    queue: &Queue<Tally, u32, u32>,
    first: &mut Adder,
    second: &mut Adder,
) -> u64
    requires one { (first.old.seat.table_id ≡ queue.now.table.shared.table_id) × (second.old.seat.table_id ≡ queue.now.table.shared.table_id) }
    ensures one { (first.new.seat.table_id ≡ first.old.seat.table_id) × (second.new.seat.table_id ≡ second.old.seat.table_id) }
    ensures names { (name_of first.new.seat ≡ name_of first.old.seat) × (name_of second.new.seat ≡ name_of second.old.seat) }
{
    let (low, high) = join_mut(
        rt,
        &mut || -> u64
            requires { first.now.seat.table_id ≡ queue.now.table.shared.table_id }
            ensures { (first.exit.now.seat.table_id ≡ first.entry.now.seat.table_id) × (name_of first.exit.now.seat ≡ name_of first.entry.now.seat) }
        { draw(alloc, queue, first) },
        &mut || -> u64
            requires { second.now.seat.table_id ≡ queue.now.table.shared.table_id }
            ensures { (second.exit.now.seat.table_id ≡ second.entry.now.seat.table_id) × (name_of second.exit.now.seat ≡ name_of second.entry.now.seat) }
        { draw(alloc, queue, second) },
    );
    low.max(high)
}

/// Whether a ticket that either client draws once they agreed is above each one that they drew before.
fn are_above<W: Threads>(rt: &W, alloc: Global, pair: &mut Pair<Tally, u32, u32>) -> bool {
    let most = draw_both(rt, alloc, &pair.queue, &mut pair.first, &mut pair.second);
    pair.first.agree(&pair.queue, &mut pair.second);
    let second = number(submit(alloc, &pair.queue, &mut pair.second, Ok(1)));
    let first = number(submit(alloc, &pair.queue, &mut pair.first, Ok(1)));
    most < first.min(second) && first.max(second) < TICKETS as u64
}

/// The same of two clients of a new queue.
fn are_above_both<W: Threads>(rt: &W, alloc: Global) -> Result<bool, AllocError> {
    let mut pair = open_two(alloc, Tally { total: 0 })?;
    Ok(are_above(rt, alloc, &mut pair))
}

/// Shows that a ticket which either client draws once they agreed is above each one that they drew before.
#[test]
fn tickets_after_agree_are_above_both(rt: HostRuntime) {
    assert!(rt; are_above_both(&rt, rt.alloc()) == Ok(true));
}
