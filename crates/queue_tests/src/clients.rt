//! Clients at their queue, and what drives it.
ghost use Rattle.std.specs.Prelude.{◌≡◌, ℕ};
ghost use Rattle.std.specs.Box.{box_value};
ghost use Rattle.host_queue.specs.declared.view.Request.TheVariants.{Answered};
ghost use Rattle.host_queue.specs.Clients.{IsOpen};
ghost use Rattle.host_queue.specs.Opened.{Each};

use crate::pair::{boxed, reply, submit};
use crate::questions::Questions;
use host_queue::{Client, Driver, Machine, Queue, Request, Ticket};
use std::alloc::{AllocError, Global};
use std::sync::Wait;
use std::thread;

/// A client at its queue, with its number.
#[derive(Drop)]
pub struct NumberedClient<'a, D: Machine<C, R>, C: Drop, R: Drop> {
    queue: &'a Queue<D, C, R>,
    client: Client<D, C, R>,
    pub number: u8,
    ghost one: { client.seat.table_id ≡ queue.now.table.shared.table_id },
}

/// What was asked for under a ticket, and the sum that the reply says.
#[derive(Drop)]
pub struct Line {
    pub ticket: u64,
    pub add: u32,
    pub sum: u32,
}

/// Polls until the reply is there.
fn wait<W: Wait, D: Machine<C, R>, C: Drop, R: Drop>(
    rt: &W,
    queue: &Queue<D, C, R>,
    client: &mut Client<D, C, R>,
    ticket: Ticket,
) -> Box<Request<C, R>>
    requires one { client.old.seat.table_id ≡ queue.now.table.shared.table_id }
    requires own { IsOpen client.old.seat ticket.number }
    ensures one { client.new.seat.table_id ≡ client.old.seat.table_id }
{
    let mut ticket = ticket;
    for _ in rt.forever() {
        match client.poll(queue, ticket) {
            Ok(request) => return request,
            Err(same) => {
                ticket = same;
                thread::yield_now();
            }
        }
    }
    unreachable!()
}

impl<'a, D: Machine<C, R> + Questions<C, R>, C: Drop, R: Drop> NumberedClient<'a, D, C, R> {
    /// Asks its question at a place, and waits for the reply. Nothing where all tickets are drawn, where the reply is
    /// wrong, or where there was no memory.
    fn ask<W: Wait>(&mut self, rt: &W, alloc: Global, place: u32) -> Option<Line> {
        let question = D::question(alloc, self.number, place);
        let drawn = submit(alloc, self.queue, &mut self.client, question)?;
        let ticket = drawn.number();
        let request = wait(rt, self.queue, &mut self.client, drawn);
        let (add, sum) = D::sum(self.number, place, reply(request)?)?;
        Some(Line { ticket, add, sum })
    }

    /// Whether one more submit is answered by Full.
    pub fn is_full(&mut self, alloc: Global) -> bool {
        let Ok(question) = D::question(alloc, self.number, 2) else {
            return false;
        };
        let Ok(request) = boxed(alloc, question) else {
            return false;
        };
        self.client.submit(self.queue, request).is_err()
    }

    /// Asks 256 times.
    pub fn ask_all<W: Wait>(&mut self, rt: &W, alloc: Global, lines: &mut Vec<Line>) {
        for place in 0..256 {
            if let Some(line) = self.ask(rt, alloc, place) {
                if lines.push(line).is_err() {
                    return;
                }
            }
        }
    }

    /// Submits 256 requests, and collects none of their replies.
    pub fn submit_all(&mut self, alloc: Global) {
        for place in 0..256 {
            let question = D::question(alloc, self.number, place);
            drop(submit(alloc, self.queue, &mut self.client, question));
        }
    }
}

/// A client at its queue, with a number.
fn numbered_client<'a, D: Machine<C, R>, C: Drop, R: Drop>(
    queue: &'a Queue<D, C, R>,
    client: Client<D, C, R>,
    number: u8,
) -> NumberedClient<'a, D, C, R>
    requires one { client.seat.table_id ≡ queue.now.table.shared.table_id }
{
    NumberedClient {
        queue,
        client,
        number,
    }
}

/// The clients at their queue, numbered from 1 on.
pub fn numbered_clients<'a, D: Machine<C, R>, C: Drop, R: Drop>(
    alloc: Global,
    queue: &'a Queue<D, C, R>,
    clients: Vec<Client<D, C, R>>,
) -> Result<Vec<NumberedClient<'a, D, C, R>>, AllocError>
    requires one { Each clients.items (λ k c. c.seat.table_id ≡ queue.now.table.shared.table_id) }
{
    let mut clients = clients;
    let mut numbered = Vec::new(alloc);
    let mut number = 1u8;
    while let Some(client) = clients.pop() {
        numbered.push(numbered_client(queue, client, number))?;
        number = number.wrapping_add(1);
    }
    Ok(numbered)
}

/// Drives once, and tells how many tickets are answered then: 0 where no request was there.
pub fn answered<D: Machine<C, R>, C: Drop, R: Drop>(
    queue: &Queue<D, C, R>,
    driver: &mut Driver<D, C, R>,
) -> u64
    requires one { driver.old.seat.table_id ≡ queue.now.table.shared.table_id }
    ensures one { driver.new.seat.table_id ≡ driver.old.seat.table_id }
{
    match driver.drive_one(queue) {
        None => 0,
        Some(answered) => {
            let count = answered.count();
            drop(answered);
            count
        }
    }
}

/// Drives until so many tickets are answered.
pub fn drive<W: Wait, D: Machine<C, R>, C: Drop, R: Drop>(
    rt: &W,
    queue: &Queue<D, C, R>,
    driver: &mut Driver<D, C, R>,
    count: u64,
)
    requires one { driver.old.seat.table_id ≡ queue.now.table.shared.table_id }
    ensures one { driver.new.seat.table_id ≡ driver.old.seat.table_id }
{
    for _ in rt.forever() {
        if answered(queue, driver) >= count {
            return;
        }
        thread::yield_now();
    }
}
