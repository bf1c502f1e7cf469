//! One client, and two clients, on one thread.
ghost use Rattle.std.specs.Prelude.{◌≡◌, ◌≢◌, IfOk, IfSome};
ghost use Rattle.std.specs.Box.{box_value};
ghost use Rattle.host_queue.specs.declared.view.Request.TheVariants.{Asked};
ghost use Rattle.host_queue.specs.Clients.{IsOnly, IsOpen, StaysOpen, StaysOpenBut};
ghost use Rattle.host_queue.specs.Seats.{name_of};

use crate::clients::answered;
use crate::tally::Tally;
use host_queue::{Client, Driver, Machine, Queue, Request, TICKETS, Ticket, close, open};
use std::alloc::{AllocError, Global};
use std::sync::Wait;

/// A queue of the machine that adds.
type Tallies = Queue<Tally, u32, u32>;

/// A client at such a queue.
type Member = Client<Tally, u32, u32>;

/// The driver of such a queue.
type Runner = Driver<Tally, u32, u32>;

/// A queue with one client.
pub fn open_one<D: Machine<C, R>, C: Drop, R: Drop>(
    alloc: Global,
    machine: D,
) -> Result<(Queue<D, C, R>, Client<D, C, R>, Driver<D, C, R>), AllocError>
    ensures one { IfOk result (λ r. (r.1.seat.table_id ≡ r.0.table.shared.table_id) × (r.2.seat.table_id ≡ r.0.table.shared.table_id)) }
    ensures only { IfOk result (λ r. IsOnly r.2.seat r.1.seat) }
{
    let (queue, mut clients, driver) = open(alloc, machine, 1)?;
    let client = clients.pop().unwrap();
    Ok((queue, client, driver))
}

/// A queue with two clients.
#[derive(Drop)]
pub struct Pair<D: Machine<C, R>, C: Drop, R: Drop> {
    pub queue: Queue<D, C, R>,
    pub first: Client<D, C, R>,
    pub second: Client<D, C, R>,
    pub driver: Driver<D, C, R>,
    ghost one: { (first.seat.table_id ≡ queue.table.shared.table_id) × (second.seat.table_id ≡ queue.table.shared.table_id) × (driver.seat.table_id ≡ queue.table.shared.table_id) },
    ghost two: { name_of first.seat ≢ name_of second.seat },
}

/// Opens a queue with two clients.
pub fn open_two<D: Machine<C, R>, C: Drop, R: Drop>(
    alloc: Global,
    machine: D,
) -> Result<Pair<D, C, R>, AllocError> {
    let (queue, mut clients, driver) = open(alloc, machine, 2)?;
    let second = clients.pop().unwrap();
    let first = clients.pop().unwrap();
    Ok(Pair {
        queue,
        first,
        second,
        driver,
    })
}

/// Closes a queue at which both clients remain.
fn close_two<D: Machine<C, R>, C: Drop, R: Drop, W: Wait>(
    rt: &W,
    alloc: Global,
    pair: Pair<D, C, R>,
) -> D {
    let Pair {
        queue,
        first,
        second,
        driver,
    } = pair;
    let machine = close(rt, queue, Vec::new(alloc), driver);
    drop(first);
    drop(second);
    machine
}

/// A request in its box.
pub fn boxed<C: Drop, R: Drop>(alloc: Global, question: C) -> Result<Box<Request<C, R>>, AllocError>
    ensures { IfOk result (λ b. box_value b ≡ Asked question) }
{
    Ok(Box::new(alloc, Request::Asked(question))?)
}

/// The reply in a box.
pub fn reply<C: Drop, R: Drop>(request: Box<Request<C, R>>) -> Option<R> {
    match Box::into_inner(request) {
        Request::Answered(reply) => Some(reply),
        Request::Asked(_) => None,
    }
}

/// Submits a request, if there is one: its ticket. Nothing where all tickets are drawn, or where there was no memory.
pub fn submit<D: Machine<C, R>, C: Drop, R: Drop>(
    alloc: Global,
    queue: &Queue<D, C, R>,
    client: &mut Client<D, C, R>,
    question: Result<C, AllocError>,
) -> Option<Ticket>
    requires one { client.old.seat.table_id ≡ queue.now.table.shared.table_id }
    ensures one { client.new.seat.table_id ≡ client.old.seat.table_id }
    ensures name { name_of client.new.seat ≡ name_of client.old.seat }
    ensures open { IfSome result (λ t. IsOpen client.new.seat t.number) }
    ensures others { StaysOpen client.old.seat client.new.seat }
{
    let Ok(question) = question else {
        return None;
    };
    let Ok(request) = boxed(alloc, question) else {
        return None;
    };
    match client.submit(queue, request) {
        Ok(ticket) => Some(ticket),
        Err(_) => None,
    }
}

/// The number of a ticket: 4,096, which no ticket has, where there is none.
pub fn number(ticket: Option<Ticket>) -> u64 {
    match ticket {
        Some(ticket) => ticket.number,
        None => TICKETS as u64,
    }
}

/// A ticket's reply by `poll`.
pub fn polled<D: Machine<C, R>, C: Drop, R: Drop>(
    queue: &Queue<D, C, R>,
    client: &mut Client<D, C, R>,
    ticket: Ticket,
) -> Option<R>
    requires one { client.old.seat.table_id ≡ queue.now.table.shared.table_id }
    requires own { IsOpen client.old.seat ticket.number }
    ensures one { client.new.seat.table_id ≡ client.old.seat.table_id }
    ensures name { name_of client.new.seat ≡ name_of client.old.seat }
    ensures others { StaysOpenBut ticket.number client.old.seat client.new.seat }
{
    match client.poll(queue, ticket) {
        Ok(request) => reply(request),
        Err(_) => None,
    }
}

/// Asks for 0, 1 and so on, and tells how many were answered before the first that isn't: the whole count where a reply
/// isn't the sum.
fn sums(alloc: Global, queue: &Tallies, driver: &mut Runner, client: &mut Member, count: u32) -> u32
    requires one { (driver.old.seat.table_id ≡ queue.now.table.shared.table_id) × (client.old.seat.table_id ≡ queue.now.table.shared.table_id) }
    requires only { IsOnly driver.old.seat client.old.seat }
    ensures one { driver.new.seat.table_id ≡ driver.old.seat.table_id }
{
    let mut sum = 0u32;
    for add in 0..count {
        let Ok(request) = boxed(alloc, add) else {
            return add;
        };
        let Ok(request) = driver.answer(queue, client, request) else {
            return add;
        };
        sum = sum.wrapping_add(add);
        if reply(request) != Some(sum) {
            return count;
        }
    }
    count
}

/// What `sums` says of 5,000 requests, and the sum of all.
fn sums_at_once<W: Wait>(rt: &W, alloc: Global) -> Result<(u32, u32), AllocError> {
    let (queue, mut client, mut driver) = open_one(alloc, Tally { total: 0 })?;
    let exact = sums(alloc, &queue, &mut driver, &mut client, 5000);
    let machine = close(rt, queue, Vec::new(alloc), driver);
    Ok((exact, machine.total))
}

/// Shows that a lone client's first 4,096 requests are answered with the sums, and its next one is not.
#[test]
fn one_client_is_answered_at_once(rt: HostRuntime) {
    assert!(rt; sums_at_once(&rt, rt.alloc()) == Ok((4096, 4095 * 2048)));
}

/// Submits three requests, where both clients agree in between, and tells whether their tickets rise.
fn rises(alloc: Global, pair: &mut Pair<Tally, u32, u32>) -> bool {
    let one = number(submit(alloc, &pair.queue, &mut pair.first, Ok(1)));
    pair.first.agree(&pair.queue, &mut pair.second);
    let two = number(submit(alloc, &pair.queue, &mut pair.second, Ok(2)));
    pair.first.agree(&pair.queue, &mut pair.second);
    let three = number(submit(alloc, &pair.queue, &mut pair.first, Ok(4)));
    one < two && two < three && three < TICKETS as u64
}

/// Whether the tickets rise, and the sum.
fn rises_to<W: Wait>(rt: &W, alloc: Global) -> Result<(bool, u32), AllocError> {
    let mut pair = open_two(alloc, Tally { total: 0 })?;
    let rises = rises(alloc, &mut pair);
    Ok((rises, close_two(rt, alloc, pair).total))
}

/// Shows that the tickets of two clients rise from one to the other where they agree in between.
#[test]
fn agreed_tickets_rise(rt: HostRuntime) {
    assert!(rt; rises_to(&rt, rt.alloc()) == Ok((true, 7)));
}

/// Drives before a request is there and after, and polls before the reply is there and after: the reply, where nothing
/// comes before its time.
fn hands_back(
    alloc: Global,
    queue: &Tallies,
    driver: &mut Runner,
    client: &mut Member,
) -> Option<u32>
    requires one { (driver.old.seat.table_id ≡ queue.now.table.shared.table_id) × (client.old.seat.table_id ≡ queue.now.table.shared.table_id) }
{
    let before = answered(queue, driver);
    let ticket = submit(alloc, queue, client, Ok(3))?;
    let Err(ticket) = client.poll(queue, ticket) else {
        return None;
    };
    let after = answered(queue, driver);
    if before != 0 || after == 0 {
        return None;
    }
    polled(queue, client, ticket)
}

/// What `hands_back` says of a lone client.
fn handed_back(alloc: Global) -> Result<Option<u32>, AllocError> {
    let (queue, mut client, mut driver) = open_one(alloc, Tally { total: 0 })?;
    Ok(hands_back(alloc, &queue, &mut driver, &mut client))
}

/// Neither `drive_one` nor `poll` puts off what is there.
#[test]
fn polls_hand_everything_back(rt: HostRuntime) {
    assert!(rt; handed_back(rt.alloc()) == Ok(Some(3)));
}

/// Drives twice, and polls: the count of answered tickets, and the reply.
fn turned(
    queue: &Tallies,
    driver: &mut Runner,
    client: &mut Member,
    ticket: Ticket,
) -> Option<(u64, u32)>
    requires one { (driver.old.seat.table_id ≡ queue.now.table.shared.table_id) × (client.old.seat.table_id ≡ queue.now.table.shared.table_id) }
    requires own { IsOpen client.old.seat ticket.number }
    ensures one { driver.new.seat.table_id ≡ driver.old.seat.table_id }
{
    if answered(queue, driver) == 0 {
        return None;
    }
    let count = answered(queue, driver);
    Some((count, polled(queue, client, ticket)?))
}

/// Drops the first client of two, which submitted the first request and the last: whether both were taken, what
/// `turned` says of the second client's, and the sum.
fn drop_first<W: Wait>(
    rt: &W,
    alloc: Global,
) -> Result<(bool, Option<(u64, u32)>, u32), AllocError> {
    let Pair {
        queue,
        mut first,
        mut second,
        mut driver,
    } = open_two(alloc, Tally { total: 0 })?;
    let low = number(submit(alloc, &queue, &mut first, Ok(1)));
    let ticket = submit(alloc, &queue, &mut second, Ok(2));
    let high = number(submit(alloc, &queue, &mut first, Ok(4)));
    drop(first);
    let turned = match ticket {
        Some(ticket) => turned(&queue, &mut driver, &mut second, ticket),
        None => None,
    };
    let machine = close(rt, queue, Vec::new(alloc), driver);
    Ok((low < high && high < TICKETS as u64, turned, machine.total))
}

/// Shows that the other client is answered in its turn once one is dropped, whose requests are done all the same.
#[test]
fn a_dropped_client_loses_nobody_elses_tickets(rt: HostRuntime) {
    assert!(rt; drop_first(&rt, rt.alloc()) == Ok((true, Some((2, 3)), 7)));
}

/// Submits three requests, and drives once: whether all were taken, and one answered.
fn leaves_two(alloc: Global, pair: &mut Pair<Tally, u32, u32>) -> bool {
    let one = number(submit(alloc, &pair.queue, &mut pair.first, Ok(1)));
    let two = number(submit(alloc, &pair.queue, &mut pair.second, Ok(2)));
    let three = number(submit(alloc, &pair.queue, &mut pair.first, Ok(4)));
    let count = answered(&pair.queue, &mut pair.driver);
    one.max(two).max(three) < TICKETS as u64 && count > 0
}

/// Closes a queue with both clients: what `leaves_two` says, and the sum.
fn close_with_both<W: Wait>(rt: &W, alloc: Global) -> Result<(bool, u32), AllocError> {
    let mut pair = open_two(alloc, Tally { total: 0 })?;
    let leaves_two = leaves_two(alloc, &mut pair);
    let Pair {
        queue,
        first,
        second,
        driver,
    } = pair;
    let clients = vec![in alloc; first, second]?;
    Ok((leaves_two, close(rt, queue, clients, driver).total))
}

/// Clients that are handed to `close` with requests that weren't driven: these are driven then.
#[test]
fn close_drives_what_remains(rt: HostRuntime) {
    assert!(rt; close_with_both(&rt, rt.alloc()) == Ok((true, 7)));
}
