//! The only client of a queue over a device.
#![tactic(auto)]

ghost use Rattle.std.specs.Prelude.{◌≡◌, ◌≤◌, ◌<◌, ◌+◌, IfOk};
ghost use Rattle.std.specs.Box.{box_value};
ghost use Rattle.device.specs.Machine.{Step, machine_of, opening};
ghost use Rattle.host_commands.specs.declared.command.Reply.{Reply as ReplyOf};
ghost use Rattle.host_queue.specs.declared.view.Request.TheVariants.{Answered};
ghost use Rattle.host_queue.specs.Clients.{IsOnly};
ghost use Rattle.host_queue.specs.Seats.{answered_count};

use crate::watching::Watch;
use command_line::options::Options;
use device::{Device, Driver, open};
use host_commands::command::{Command, Reply};
use host_queue::{Client, Queue, Request};
use std::alloc::{AllocError, Global};
use std::marker::Sync;
use std::sync::Wait;
use std::thread::Threads;

/// A queue over a device, with its driver and its only client.
#[derive(Drop)]
pub(crate) struct OnlyClient {
    queue: Queue<Device, Command, Reply>,
    client: Client<Device, Command, Reply>,
    driver: Driver,
    ghost one: { (client.seat.table_id ≡ queue.table.shared.table_id) × (driver.driver.seat.table_id ≡ queue.table.shared.table_id) },
    ghost only: { IsOnly driver.driver.seat client.seat },
}

impl OnlyClient {
    /// The only client of a queue over a new device, before the first command.
    pub(crate) fn open(alloc: Global, options: Options) -> Result<Self, AllocError>
        ensures new { IfOk result (λ opened. (machine_of opened.driver.driver.machine ≡ opening options.configuration) × (answered_count opened.driver.driver.seat ≡ 0)) }
    {
        let device = Device::new(alloc, options.configuration);
        let (queue, mut clients, driver) = open(alloc, device, options.workers, 1)?;
        let client = clients.pop().unwrap();
        Ok(OnlyClient {
            queue,
            client,
            driver,
        })
    }

    /// Draws a ticket for a command, does it at once between two calls of who looks on, and leaves its reply in the
    /// box.
    pub(crate) fn ask<T: Threads + Wait + Sync, L: Watch>(
        &mut self,
        rt: &T,
        mut request: Box<Request<Command, Reply>>,
        command: Command,
        watch: &L,
    ) -> Box<Request<Command, Reply>>
        requires room { answered_count self.old.driver.driver.seat < 4096 }
        ensures answered { (reply : ReplyOf) × (box_value result ≡ Answered reply) × Step (machine_of self.old.driver.driver.machine) command reply (machine_of self.new.driver.driver.machine) }
        ensures counts { answered_count self.new.driver.driver.seat ≡ answered_count self.old.driver.driver.seat + 1 }
    {
        watch.begin(&command);
        *request = Request::Asked(command);
        let (driver, client) = (&mut self.driver, &mut self.client);
        match driver.answer_with(rt, &self.queue, client, request, watch) {
            Ok(request) => {
                watch.end();
                request
            }
            Err(_) => unreachable!(),
        }
    }
}
