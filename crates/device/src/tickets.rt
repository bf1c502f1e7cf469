//! A queue of tickets over a device, whose driver runs each launch by 1 to 16 workers.
#![tactic(auto)]

ghost use Rattle.std.specs.Prelude.{◌≡◌, ◌≤◌, [], ◌∷◌, List, length, vec_len, IfOk};
ghost use Rattle.std.specs.Box.{box_value};
ghost use Rattle.host_commands.specs.declared.command.Command.{Command as CommandOf};
ghost use Rattle.host_commands.specs.declared.command.Reply.{Reply as ReplyOf};
ghost use Rattle.host_queue.specs.declared.view.Request.TheVariants.{Asked};
ghost use Rattle.host_queue.specs.declared.view.Entry.{Entry};
ghost use Rattle.host_queue.specs.Clients.{IsOnly};
ghost use Rattle.host_queue.specs.Driving.{AnsweredAtOnce, Drove};
ghost use Rattle.host_queue.specs.History.{Begins};
ghost use Rattle.host_queue.specs.Opened.{Each, IsGuest, IsNewDriver};
ghost use Rattle.host_queue.specs.Seats.{known_of, ticket_count, admitted_of, left_count, IsServed, EndsAt};
ghost use Rattle.host_queue.specs.Views.{total};
ghost use Rattle.device.specs.Machine.{DeviceStep};

use crate::{Command, Device, Gate, OpenGate, Reply};
use host_queue::{Answered, Client, Full, Machine, Queue, Request};
use std::alloc::{AllocError, Global};
use std::marker::Sync;
use std::sync::Wait;
use std::thread::Threads;

impl Machine<Command, Reply> for Device {
    ghost step = { DeviceStep };

    fn apply(&mut self, command: Command) -> Reply {
        Device::apply(self, command)
    }
}

/// Who does the commands of a queue over a device, in the order of their tickets (OpenCL 1.2, section 3.2.1): a launch
/// runs by 1 to 16 workers.
#[derive(Drop)]
pub struct Driver {
    driver: host_queue::Driver<Device, Command, Reply>,
    /// How many workers run a launch
    workers: u32,
    ghost counted: { (1 ≤ workers) × (workers ≤ 16) },
}

/// A queue over a device, with 1 to 16 workers for its launches, and so many clients, who are numbered from 0. An error
/// is out of memory.
pub fn open(
    alloc: Global,
    device: Device,
    workers: u32,
    clients: usize,
) -> Result<
    (
        Queue<Device, Command, Reply>,
        Vec<Client<Device, Command, Reply>>,
        Driver,
    ),
    AllocError,
>
    requires workers { (1 ≤ workers) × (workers ≤ 16) }
    requires clients { clients ≤ 16 }
    ensures driver { IfOk result (λ r. (r.2.driver.seat.table_id ≡ r.0.table.shared.table_id) × (r.2.driver.machine ≡ device) × IsNewDriver device clients r.2.driver.seat) }
    ensures clients { IfOk result (λ r. (vec_len r.1 ≡ clients) × Each r.1.items (λ k c. (c.seat.table_id ≡ r.0.table.shared.table_id) × IsGuest (device ∷ []) k c.seat)) }
{
    let (queue, list, driver) = host_queue::open(alloc, device, clients)?;
    Ok((queue, list, Driver { driver, workers }))
}

impl Driver {
    /// Answers the next ticket, if its request is there; the workers of a launch call the gate (own). What it answers,
    /// and when, is as of `host_queue::Driver::drive_one`, however many workers there are and whatever the gate does.
    pub fn drive_with<G: Gate, T: Threads + Wait + Sync>(
        &mut self,
        rt: &T,
        queue: &Queue<Device, Command, Reply>,
        gate: &G,
    ) -> Option<Answered<Device, Command, Reply>>
        requires one { self.old.driver.seat.table_id ≡ queue.now.table.shared.table_id }
        ensures drove { Drove DeviceStep self.old.driver self.new.driver result }
        ensures workers { self.new.workers ≡ self.old.workers }
    {
        let workers = self.workers;
        self.driver.drive_by(
            queue,
            |device: &mut Device, command: Command| -> Reply
                requires { (1 ≤ workers) × (workers ≤ 16) }
                ensures { DeviceStep device.old command result device.new }
            { device.apply_with(rt, command, workers, gate) },
        )
    }

    /// Answers the next ticket, if its request is there: `drive_with` with a gate that lets all pass.
    pub fn drive_one<T: Threads + Wait + Sync>(
        &mut self,
        rt: &T,
        queue: &Queue<Device, Command, Reply>,
    ) -> Option<Answered<Device, Command, Reply>>
        requires one { self.old.driver.seat.table_id ≡ queue.now.table.shared.table_id }
        ensures drove { Drove DeviceStep self.old.driver self.new.driver result }
        ensures workers { self.new.workers ≡ self.old.workers }
    {
        self.drive_with(rt, queue, &OpenGate)
    }

    /// Does the command of the only client at once; the workers of a launch call the gate (own). What it answers, and
    /// when, is as of `host_queue::Driver::answer`, however many workers there are and whatever the gate does.
    pub fn answer_with<G: Gate, T: Threads + Wait + Sync>(
        &mut self,
        rt: &T,
        queue: &Queue<Device, Command, Reply>,
        client: &mut Client<Device, Command, Reply>,
        request: Box<Request<Command, Reply>>,
        gate: &G,
    ) -> Result<Box<Request<Command, Reply>>, Full<Command, Reply>>
        requires one { (self.old.driver.seat.table_id ≡ queue.now.table.shared.table_id) × (client.old.seat.table_id ≡ queue.now.table.shared.table_id) }
        requires only { IsOnly self.old.driver.seat client.old.seat }
        requires asked { (c : CommandOf) × (box_value request ≡ Asked c) }
        ensures answered { AnsweredAtOnce DeviceStep request self.old.driver self.new.driver client.old client.new result }
        ensures workers { self.new.workers ≡ self.old.workers }
    {
        let workers = self.workers;
        self.driver.answer_by(
            queue,
            client,
            request,
            |device: &mut Device, asked: Command| -> Reply
                requires { (1 ≤ workers) × (workers ≤ 16) }
                ensures { DeviceStep device.old asked result device.new }
            { device.apply_with(rt, asked, workers, gate) },
        )
    }
}

/// Answers all that remains, and hands the device back, as `host_queue::close` does. Replies that were not collected
/// are dropped. The list has each ticket of each client that is handed in; it has no more where all clients are.
pub fn close<W: Wait>(
    rt: &W,
    queue: Queue<Device, Command, Reply>,
    clients: Vec<Client<Device, Command, Reply>>,
    driver: Driver,
) -> Device
    requires one { (driver.driver.seat.table_id ≡ queue.table.shared.table_id) × Each clients.items (λ k c. c.seat.table_id ≡ queue.table.shared.table_id) }
    ensures { (log : List (Entry CommandOf ReplyOf)) × EndsAt DeviceStep driver.driver.seat log result × Begins (known_of driver.driver.seat) log × Each clients.items (λ k c. IsServed c.seat log) × (left_count driver.driver.seat ≡ 0 → admitted_of driver.driver.seat ≡ length clients.items → length log ≡ total (λ c. ticket_count c.seat) clients.items) }
{
    host_queue::close(rt, queue, clients, driver.driver)
}
