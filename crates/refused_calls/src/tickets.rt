//! Queues with one client and with two, and the ways of a request through them.
ghost use Rattle.std.specs.Prelude.{◌≡◌, ◌≢◌, IfOk};
ghost use Rattle.std.specs.Box.{box_value};
ghost use Rattle.host_queue.specs.declared.view.Request.TheVariants.{Asked};
ghost use Rattle.host_queue.specs.Clients.{IsOnly, IsOpen};
ghost use Rattle.host_queue.specs.Seats.{name_of};

use host_queue::{Answered, Client, Driver, Machine, Queue, Request, Ticket, open};
use std::alloc::{AllocError, Global};

/// A queue with one client.
pub fn open_one<D: Machine<C, R>, C: Drop, R: Drop>(
    alloc: Global,
    machine: D,
) -> Result<(Queue<D, C, R>, Client<D, C, R>, Driver<D, C, R>), AllocError>
    ensures one { IfOk result (λ r. (r.1.seat.table_id ≡ r.0.table.shared.table_id) × (r.2.seat.table_id ≡ r.0.table.shared.table_id)) }
    ensures only { IfOk result (λ r. IsOnly r.2.seat r.1.seat) }
{
    let (queue, mut clients, driver) = open(alloc, machine, 1)?;
    let client = clients.pop().unwrap();
    Ok((queue, client, driver))
}

/// A queue with two clients.
pub fn open_two<D: Machine<C, R>, C: Drop, R: Drop>(
    alloc: Global,
    machine: D,
) -> Result<
    (
        Queue<D, C, R>,
        Client<D, C, R>,
        Client<D, C, R>,
        Driver<D, C, R>,
    ),
    AllocError,
>
    ensures one { IfOk result (λ r. (r.1.seat.table_id ≡ r.0.table.shared.table_id) × (r.2.seat.table_id ≡ r.0.table.shared.table_id) × (r.3.seat.table_id ≡ r.0.table.shared.table_id)) }
    ensures two { IfOk result (λ r. name_of r.1.seat ≢ name_of r.2.seat) }
{
    let (queue, mut clients, driver) = open(alloc, machine, 2)?;
    let second = clients.pop().unwrap();
    let first = clients.pop().unwrap();
    Ok((queue, first, second, driver))
}

/// Drives, and asks for the reply of a ticket.
fn driven<D: Machine<C, R>, C: Drop, R: Drop>(
    queue: &Queue<D, C, R>,
    client: &mut Client<D, C, R>,
    driver: &mut Driver<D, C, R>,
    ticket: Ticket,
) -> Option<Box<Request<C, R>>>
    requires one { (client.old.seat.table_id ≡ queue.now.table.shared.table_id) × (driver.old.seat.table_id ≡ queue.now.table.shared.table_id) }
    requires own { IsOpen client.old.seat ticket.number }
    ensures one { (client.new.seat.table_id ≡ client.old.seat.table_id) × (driver.new.seat.table_id ≡ driver.old.seat.table_id) }
    ensures name { name_of client.new.seat ≡ name_of client.old.seat }
{
    drop(driver.drive_one(queue));
    match client.poll(queue, ticket) {
        Ok(request) => Some(request),
        Err(_) => None,
    }
}

/// Asks for the reply of a ticket too early, drives, and asks again.
fn polled_twice<D: Machine<C, R>, C: Drop, R: Drop>(
    queue: &Queue<D, C, R>,
    client: &mut Client<D, C, R>,
    driver: &mut Driver<D, C, R>,
    ticket: Ticket,
) -> Option<Box<Request<C, R>>>
    requires one { (client.old.seat.table_id ≡ queue.now.table.shared.table_id) × (driver.old.seat.table_id ≡ queue.now.table.shared.table_id) }
    requires own { IsOpen client.old.seat ticket.number }
    ensures one { (client.new.seat.table_id ≡ client.old.seat.table_id) × (driver.new.seat.table_id ≡ driver.old.seat.table_id) }
    ensures name { name_of client.new.seat ≡ name_of client.old.seat }
{
    match client.poll(queue, ticket) {
        Ok(_) => None,
        Err(ticket) => driven(queue, client, driver, ticket),
    }
}

/// Submits a request, asks for its reply too early, drives, and asks again. None where no reply comes then, or where
/// one came too early.
pub fn polled<D: Machine<C, R>, C: Drop, R: Drop>(
    queue: &Queue<D, C, R>,
    client: &mut Client<D, C, R>,
    driver: &mut Driver<D, C, R>,
    request: Box<Request<C, R>>,
) -> Option<Box<Request<C, R>>>
    requires one { (client.old.seat.table_id ≡ queue.now.table.shared.table_id) × (driver.old.seat.table_id ≡ queue.now.table.shared.table_id) }
    requires asked { (c : C) × (box_value request ≡ Asked c) }
    ensures one { (client.new.seat.table_id ≡ client.old.seat.table_id) × (driver.new.seat.table_id ≡ driver.old.seat.table_id) }
    ensures name { name_of client.new.seat ≡ name_of client.old.seat }
{
    match client.submit(queue, request) {
        Ok(ticket) => polled_twice(queue, client, driver, ticket),
        Err(_) => None,
    }
}

/// Collects the reply of a ticket that is known to be answered. None where it isn't.
fn collected<D: Machine<C, R>, C: Drop, R: Drop>(
    queue: &Queue<D, C, R>,
    client: &mut Client<D, C, R>,
    ticket: Ticket,
    answered: &mut Answered<D, C, R>,
) -> Option<Box<Request<C, R>>>
    requires one { (client.old.seat.table_id ≡ queue.now.table.shared.table_id) × (answered.old.seat.table_id ≡ queue.now.table.shared.table_id) }
    requires own { IsOpen client.old.seat ticket.number }
    ensures one { client.new.seat.table_id ≡ client.old.seat.table_id }
    ensures name { name_of client.new.seat ≡ name_of client.old.seat }
{
    let number = ticket.number();
    let count = answered.count();
    if number < count {
        Some(client.poll_known(queue, ticket, answered))
    } else {
        None
    }
}

/// Drives, and collects the reply of a ticket.
fn driven_known<D: Machine<C, R>, C: Drop, R: Drop>(
    queue: &Queue<D, C, R>,
    client: &mut Client<D, C, R>,
    driver: &mut Driver<D, C, R>,
    ticket: Ticket,
) -> Option<Box<Request<C, R>>>
    requires one { (client.old.seat.table_id ≡ queue.now.table.shared.table_id) × (driver.old.seat.table_id ≡ queue.now.table.shared.table_id) }
    requires own { IsOpen client.old.seat ticket.number }
    ensures one { (client.new.seat.table_id ≡ client.old.seat.table_id) × (driver.new.seat.table_id ≡ driver.old.seat.table_id) }
    ensures name { name_of client.new.seat ≡ name_of client.old.seat }
{
    match driver.drive_one(queue) {
        Some(mut answered) => {
            let reply = collected(queue, client, ticket, &mut answered);
            drop(answered);
            reply
        }
        None => None,
    }
}

/// Submits a request, drives, and collects its reply, which is known to be there. None where no request was driven.
pub fn known<D: Machine<C, R>, C: Drop, R: Drop>(
    queue: &Queue<D, C, R>,
    client: &mut Client<D, C, R>,
    driver: &mut Driver<D, C, R>,
    request: Box<Request<C, R>>,
) -> Option<Box<Request<C, R>>>
    requires one { (client.old.seat.table_id ≡ queue.now.table.shared.table_id) × (driver.old.seat.table_id ≡ queue.now.table.shared.table_id) }
    requires asked { (c : C) × (box_value request ≡ Asked c) }
    ensures one { (client.new.seat.table_id ≡ client.old.seat.table_id) × (driver.new.seat.table_id ≡ driver.old.seat.table_id) }
    ensures name { name_of client.new.seat ≡ name_of client.old.seat }
{
    match client.submit(queue, request) {
        Ok(ticket) => driven_known(queue, client, driver, ticket),
        Err(_) => None,
    }
}
