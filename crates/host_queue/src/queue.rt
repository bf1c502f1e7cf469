//! The queue, and those who use it.
ghost use Rattle.std.specs.Prelude.{◌≡◌, ℕ, List, ◌+◌, ◌<◌, ◌≤◌, ◌≢◌, [], ◌∷◌, length, vec_len, OnOk, IfOk, IfErr, true, false};
ghost use Rattle.std.specs.Box.{box_value};
ghost use Rattle.host_queue.specs.declared.queue.TheConstants.{FIRST, TICKETS};
ghost use Rattle.host_queue.specs.declared.view.Request.TheVariants.{Asked, Answered as AnsweredBy};
ghost use Rattle.host_queue.specs.declared.view.Entry.{Entry};
ghost use Rattle.host_queue.specs.History.{Begins};
ghost use Rattle.host_queue.specs.Views.{total};
ghost use Rattle.host_queue.specs.Clients.{IsClient, IsDriver, IsNote, IsOpen, IsOnly, IsApart, AllBelow, StaysOpen, StaysOpenBut};
ghost use Rattle.host_queue.specs.Hands.{DoesSteps};
ghost use Rattle.host_queue.specs.Opened.{Each, IsGuest, IsNewDriver};
ghost use Rattle.host_queue.specs.Seats.{known_of, answered_count, tickets_of, ticket_count, collected_of, floor_of, name_of, start_of, admitted_of, left_count, left_tickets, IsUnchanged, MayDraw, Drew, OnlyDrew, HasReply, Collected, OnlyCollected, LearnedMore, OnlyLearned, ShareHistory, KnowsBoth, DrawsAbove, OnlyLent, HasOneClient, HeardOf, DrewAll, HasSameClients, MayAdmit, MayAdmitFirst, LetIn, IsNext, HasNoClients, IsServed, HasLeft, LetNobodyIn, EndsAt};

use crate::machine::Machine;
use crate::table::{
    Admit, Answer, Draw, Gather, Learn, Leave, Look, Put, QueueSeat, Rows, Take, Tell,
};
use crate::view::Request;
use atomic_table::Table;
use core::mem::replace_with;
use std::alloc::{AllocError, Global};
use std::snapshot::Snapshot;
use std::sync::Wait;

/// How many tickets a queue gives, from 0 to 4,095.
pub const TICKETS: usize = 4096;

/// The word that counts the draws, which each submit of any client writes. It isn't word 0, which each split and each
/// join of a seat loads: a word that all of them load must not be one that others write. It begins 128 bytes after word
/// 0, so the two are never in one cache line, nor in one pair of lines.
const DRAWS: usize = 16;

/// The word of ticket 0. The tickets' words come one after the other, and none is in the cache lines of the count of
/// draws.
const FIRST: usize = 32;

/// What the threads share: a place for each ticket's request. It is an in-order command queue (OpenCL 1.2, sections
/// 3.2.1 and 5.1).
#[derive(Drop)]
pub struct Queue<D: Machine<C, R>, C: Drop, R: Drop> {
    pub table: Rows<D, C, R>,
    ghost sized: { (table.shared.table_id.slots ≡ TICKETS) × (table.shared.table_id.words ≡ FIRST + TICKETS) },
}

/// Who submits requests and collects their replies. It may go to a thread of its own.
#[derive(Drop)]
pub struct Client<D: Machine<C, R>, C: Drop, R: Drop> {
    pub seat: QueueSeat<D, C, R>,
    full: bool,
    // One above the last ticket.
    next: u64,
    ghost client: { IsClient D.step seat.me.0 },
    ghost above: { AllBelow (tickets_of seat) next },
    ghost room: { full ≡ false → 0 < seat.me.0.credit },
    ghost past: { full ≡ true → TICKETS ≤ floor_of seat },
}

/// The right to one answer.
#[derive(Drop)]
pub struct Ticket {
    pub number: u64,
}

impl Ticket {
    /// Its place in the order of all commands, from 0 on.
    pub fn number(&self) -> u64
        ensures { result ≡ self.now.number }
    {
        self.number
    }
}

/// All tickets are drawn. The request comes back.
#[derive(Drop)]
pub struct Full<C: Drop, R: Drop> {
    pub request: Box<Request<C, R>>,
}

impl<D: Machine<C, R>, C: Drop, R: Drop> Client<D, C, R> {
    /// Enqueues a command, the request in its box (OpenCL 1.2, sections 3.2.1 and 5.1): the ticket says its place in
    /// the order of all commands. The ticket is below 4,096, above each that this client drew before, and not below the
    /// number of tickets that it knows to be answered. No other thread is waited for, and no memory is asked for.
    /// `Full` comes only where all 4,096 tickets are drawn, with the same box.
    pub fn submit(
        &mut self,
        queue: &Queue<D, C, R>,
        request: Box<Request<C, R>>,
    ) -> Result<Ticket, Full<C, R>>
        requires one { self.old.seat.table_id ≡ queue.now.table.shared.table_id }
        requires asked { (c : C) × (box_value request ≡ Asked c) }
        ensures one { self.new.seat.table_id ≡ self.old.seat.table_id }
        ensures ok { IfOk result (λ t. MayDraw self.old.seat t.number) }
        ensures rises { IfOk result (λ t. AllBelow (tickets_of self.old.seat) t.number) }
        ensures open { IfOk result (λ t. IsOpen self.new.seat t.number) }
        ensures others { StaysOpen self.old.seat self.new.seat }
        ensures floor { floor_of self.old.seat ≤ floor_of self.new.seat }
        ensures ticket { IfOk result (λ t. Drew (box_value request) t.number self.old.seat self.new.seat) }
        ensures next { IfOk result (λ t. floor_of self.new.seat ≡ t.number + 1) }
        ensures err { IfErr result (λ f. (f.request ≡ request) × (tickets_of self.new.seat ≡ tickets_of self.old.seat)) }
        ensures full { IfErr result (λ f. TICKETS ≤ floor_of self.new.seat) }
        ensures same { OnlyDrew self.old.seat self.new.seat }
    {
        if self.full {
            return Err(Full { request });
        }
        let shared = &queue.table.shared;
        let drawn = shared.fetch_add::<Draw>(&mut self.seat, DRAWS, 1);
        if drawn >= TICKETS as u64 {
            self.full = true;
            return Err(Full { request });
        }
        let number = drawn as usize;
        match shared.exchange(&mut self.seat, number, Some(request)) {
            None => {}
            Some(_) => unreachable!(),
        }
        shared.compare_exchange::<Put>(&mut self.seat, number + FIRST, 0, 1);
        self.next = drawn + 1;
        Ok(Ticket { number: drawn })
    }
}

impl<D: Machine<C, R>, C: Drop, R: Drop> Client<D, C, R> {
    /// The request of a ticket that this client drew, in the box that was submitted and with the reply: the one that
    /// stands in the history at the ticket. The ticket comes back where it isn't answered yet. No other thread is
    /// waited for, and no memory is asked for.
    pub fn poll(
        &mut self,
        queue: &Queue<D, C, R>,
        ticket: Ticket,
    ) -> Result<Box<Request<C, R>>, Ticket>
        requires one { self.old.seat.table_id ≡ queue.now.table.shared.table_id }
        requires own { IsOpen self.old.seat ticket.number }
        ensures one { self.new.seat.table_id ≡ self.old.seat.table_id }
        ensures known { LearnedMore D.step self.old.seat self.new.seat }
        ensures ok { IfOk result (λ b. HasReply self.new.seat ticket.number (box_value b)) }
        ensures collected { IfOk result (λ b. Collected ticket.number self.old.seat self.new.seat) }
        ensures err { IfErr result (λ t. (t ≡ ticket) × (answered_count self.new.seat ≤ ticket.number) × (collected_of self.new.seat ≡ collected_of self.old.seat) × StaysOpen self.old.seat self.new.seat) }
        ensures others { StaysOpenBut ticket.number self.old.seat self.new.seat }
        ensures same { OnlyCollected self.old.seat self.new.seat }
    {
        let shared = &queue.table.shared;
        let number = ticket.number as usize;
        if shared.compare_exchange::<Gather<D>>(&mut self.seat, number + FIRST, 3, 4) != 3 {
            return Err(ticket);
        }
        Ok(shared.exchange(&mut self.seat, number, None).unwrap())
    }
}

/// How many tickets are answered, and what the driver knew then.
#[derive(Drop)]
pub struct Answered<D: Machine<C, R>, C: Drop, R: Drop> {
    pub seat: QueueSeat<D, C, R>,
    pub count: u64,
    ghost note: { IsNote seat.me.0 },
    ghost empty_handed: { seat.me.1 ≡ [] },
    ghost counted: { count ≡ answered_count seat },
}

impl<D: Machine<C, R>, C: Drop, R: Drop> Answered<D, C, R> {
    /// How many tickets are answered.
    pub fn count(&self) -> u64
        ensures { result ≡ self.now.count }
    {
        self.count
    }
}

/// Who takes the requests in ticket order, and has the machine. It may go to a thread of its own.
#[derive(Drop)]
pub struct Driver<D: Machine<C, R>, C: Drop, R: Drop> {
    pub seat: QueueSeat<D, C, R>,
    pub machine: D,
    count: u64,
    ghost driver: { IsDriver D.step seat.me.0 machine },
    ghost counted: { count ≡ answered_count seat },
    ghost short: { count ≤ TICKETS },
}

impl<D: Machine<C, R>, C: Drop, R: Drop> Client<D, C, R> {
    /// The same for a ticket below the count of `answered`, whose request always comes. `answered` keeps its count and
    /// what it knows.
    pub fn poll_known(
        &mut self,
        queue: &Queue<D, C, R>,
        ticket: Ticket,
        answered: &mut Answered<D, C, R>,
    ) -> Box<Request<C, R>>
        requires one { (self.old.seat.table_id ≡ queue.now.table.shared.table_id) × (answered.old.seat.table_id ≡ queue.now.table.shared.table_id) }
        requires own { IsOpen self.old.seat ticket.number }
        requires below { ticket.number < answered.old.count }
        ensures one { (self.new.seat.table_id ≡ self.old.seat.table_id) × (answered.new.seat.table_id ≡ answered.old.seat.table_id) }
        ensures answered { (answered.new.count ≡ answered.old.count) × IsUnchanged answered.old.seat answered.new.seat }
        ensures known { LearnedMore D.step self.old.seat self.new.seat × Begins (known_of answered.old.seat) (known_of self.new.seat) }
        ensures ok { HasReply self.new.seat ticket.number (box_value result) }
        ensures collected { Collected ticket.number self.old.seat self.new.seat }
        ensures others { StaysOpenBut ticket.number self.old.seat self.new.seat }
        ensures same { OnlyCollected self.old.seat self.new.seat }
    {
        let shared = &queue.table.shared;
        let note = shared.split_seat::<Tell>(&mut answered.seat);
        shared.join_seat::<Learn>(&mut self.seat, note);
        let number = ticket.number as usize;
        shared.compare_exchange::<Gather<D>>(&mut self.seat, number + FIRST, 3, 4);
        shared.exchange(&mut self.seat, number, None).unwrap()
    }
}

/// Does the command of a request, and answers the request with the reply.
fn served<'a, D: Machine<C, R>, C: Drop, R: Drop, F: FnOnce(&mut D, C) -> R>(
    request: Request<C, R>,
    by: (&'a mut D, F),
) -> (Request<C, R>, &'a mut D)
    requires asked { (c : C) × (request ≡ Asked c) }
    requires callable { F.IsAlwaysCallable by.1 }
    requires steps { DoesSteps D.step F.FnOnce by.1 }
    ensures same_machine { result.1.ghost_name ≡ by.entry.0.ghost_name }
    ensures served { (c : C) × (r : R) × (request ≡ Asked c) × (result.0 ≡ AnsweredBy r) × D.step by.entry.0.now c r result.1.now }
{
    let Request::Asked(command) = request else {
        unreachable!()
    };
    let (machine, how) = by;
    let reply = how(&mut *machine, command);
    (Request::Answered(reply), machine)
}

/// Does the command in the box, and leaves the reply in it.
fn serve<D: Machine<C, R>, C: Drop, R: Drop, F: FnOnce(&mut D, C) -> R>(
    machine: &mut D,
    request: &mut Request<C, R>,
    how: F,
)
    requires asked { (c : C) × (request.old ≡ Asked c) }
    requires callable { F.IsAlwaysCallable how }
    requires steps { DoesSteps D.step F.FnOnce how }
    ensures { (c : C) × (r : R) × (request.old ≡ Asked c) × (request.new ≡ AnsweredBy r) × D.step machine.old c r machine.new }
{
    replace_with(request, (machine, how), served);
}

impl<D: Machine<C, R>, C: Drop, R: Drop> Driver<D, C, R> {
    ghost use Rattle.host_queue.specs.Driving.{Drove};

    /// Answers the next ticket, if its request is there, with the command done as `how` does it. None where the request
    /// isn't there, or where all 4,096 tickets are answered; then nothing changed.
    pub fn drive_by<F: FnOnce(&mut D, C) -> R + Drop>(
        &mut self,
        queue: &Queue<D, C, R>,
        how: F,
    ) -> Option<Answered<D, C, R>>
        requires callable { F.IsAlwaysCallable how }
        requires steps { DoesSteps D.step F.FnOnce how }
        requires one { self.old.seat.table_id ≡ queue.now.table.shared.table_id }
        ensures { Drove D.step self.old self.new result }
    {
        if self.count >= TICKETS as u64 {
            return None;
        }
        let shared = &queue.table.shared;
        let number = self.count as usize;
        if shared.compare_exchange::<Take>(&mut self.seat, number + FIRST, 1, 2) != 1 {
            return None;
        }
        let mut request = shared.exchange(&mut self.seat, number, None).unwrap();
        serve(&mut self.machine, &mut *request, how);
        shared.exchange(&mut self.seat, number, Some(request));
        shared.compare_exchange::<Answer>(&mut self.seat, number + FIRST, 2, 3);
        self.count += 1;
        let seat = shared.split_seat::<Tell>(&mut self.seat);
        Some(Answered {
            seat,
            count: self.count,
        })
    }

    /// Answers the next ticket, if its request is there. None where it isn't, or where all 4,096 tickets are answered;
    /// then nothing changed.
    pub fn drive_one(&mut self, queue: &Queue<D, C, R>) -> Option<Answered<D, C, R>>
        requires one { self.old.seat.table_id ≡ queue.now.table.shared.table_id }
        ensures { Drove D.step self.old self.new result }
    {
        self.drive_by(
            queue,
            |machine: &mut D, command: C| -> R
                ensures { D.step machine.old command result machine.new }
            { machine.apply(command) },
        )
    }
}

impl<D: Machine<C, R>, C: Drop, R: Drop> Driver<D, C, R> {
    ghost use Rattle.host_queue.specs.Driving.{OnlyHeard, AnsweredAtOnce};

    /// Hears of the tickets of the only client, and looks at how many are drawn.
    /// The client lends its right to draw for the look: while the driver has all these rights, the count of draws is
    /// that of the tickets.
    fn hear(&mut self, queue: &Queue<D, C, R>, client: &mut Client<D, C, R>)
        requires one { (self.old.seat.table_id ≡ queue.now.table.shared.table_id) × (client.old.seat.table_id ≡ queue.now.table.shared.table_id) }
        requires alone { HasOneClient self.old.seat }
        ensures one { (self.new.seat.table_id ≡ self.old.seat.table_id) × (client.new.seat.table_id ≡ client.old.seat.table_id) }
        ensures heard { HeardOf self.new.seat client.old.seat }
        ensures drawn { DrewAll client.old.seat }
        ensures same { OnlyHeard self.old self.new }
        ensures client { OnlyLent client.old.seat client.new.seat }
    {
        let shared = &queue.table.shared;
        let note = shared.split_seat::<Leave>(&mut client.seat);
        shared.join_seat::<Learn>(&mut self.seat, note);
        shared.load::<Look<D>>(&mut self.seat, DRAWS);
        let back = shared.split_seat::<Leave>(&mut self.seat);
        shared.join_seat::<Learn>(&mut client.seat, back);
    }

    /// Does the command of the only client at once, as `how` does it: submits it, drives it, and collects the reply.
    /// `Full` comes only where all 4,096 tickets are answered, with the same box; then nothing changed.
    pub fn answer_by<F: FnOnce(&mut D, C) -> R + Drop>(
        &mut self,
        queue: &Queue<D, C, R>,
        client: &mut Client<D, C, R>,
        request: Box<Request<C, R>>,
        how: F,
    ) -> Result<Box<Request<C, R>>, Full<C, R>>
        requires callable { F.IsAlwaysCallable how }
        requires steps { DoesSteps D.step F.FnOnce how }
        requires one { (self.old.seat.table_id ≡ queue.now.table.shared.table_id) × (client.old.seat.table_id ≡ queue.now.table.shared.table_id) }
        requires only { IsOnly self.old.seat client.old.seat }
        requires asked { (c : C) × (box_value request ≡ Asked c) }
        ensures { AnsweredAtOnce D.step request self.old self.new client.old client.new result }
    {
        if self.count >= TICKETS as u64 {
            return Err(Full { request });
        }
        let submitted = client.submit(queue, request);
        self.hear(queue, client);
        match submitted {
            Ok(ticket) => {
                let mut answered = self.drive_by(queue, how).unwrap();
                Ok(client.poll_known(queue, ticket, &mut answered))
            }
            Err(_) => unreachable!(),
        }
    }

    /// Does the command of the only client at once, for a program on one thread: submits it, drives it, and collects
    /// the reply. `Full` comes only where all 4,096 tickets are answered, with the same box; then nothing changed.
    pub fn answer(
        &mut self,
        queue: &Queue<D, C, R>,
        client: &mut Client<D, C, R>,
        request: Box<Request<C, R>>,
    ) -> Result<Box<Request<C, R>>, Full<C, R>>
        requires one { (self.old.seat.table_id ≡ queue.now.table.shared.table_id) × (client.old.seat.table_id ≡ queue.now.table.shared.table_id) }
        requires only { IsOnly self.old.seat client.old.seat }
        requires asked { (c : C) × (box_value request ≡ Asked c) }
        ensures { AnsweredAtOnce D.step request self.old self.new client.old client.new result }
    {
        self.answer_by(
            queue,
            client,
            request,
            |machine: &mut D, command: C| -> R
                ensures { D.step machine.old command result machine.new }
            { machine.apply(command) },
        )
    }
}

impl<D: Machine<C, R>, C: Drop, R: Drop> Client<D, C, R> {
    /// Takes in what the other knows, and looks.
    fn learn_from(&mut self, queue: &Queue<D, C, R>, other: &mut Client<D, C, R>)
        requires one { (self.old.seat.table_id ≡ queue.now.table.shared.table_id) × (other.old.seat.table_id ≡ queue.now.table.shared.table_id) }
        ensures one { (self.new.seat.table_id ≡ self.old.seat.table_id) × (other.new.seat.table_id ≡ other.old.seat.table_id) }
        ensures known { LearnedMore D.step self.old.seat self.new.seat × Begins (known_of other.old.seat) (known_of self.new.seat) }
        ensures floor { DrawsAbove self.old.seat other.old.seat self.new.seat }
        ensures apart { name_of self.old.seat ≢ name_of other.old.seat → IsApart other.old.seat self.old.seat }
        ensures same { OnlyLearned self.old.seat self.new.seat }
        ensures other { IsUnchanged other.old.seat other.new.seat }
    {
        let shared = &queue.table.shared;
        let note = shared.split_seat::<Tell>(&mut other.seat);
        shared.join_seat::<Learn>(&mut self.seat, note);
        shared.load::<Look<D>>(&mut self.seat, DRAWS);
    }

    /// Two different clients tell each other what they know: both then know the longer of their two histories, and each
    /// draws above what the other drew. No other thread is waited for.
    pub fn agree(&mut self, queue: &Queue<D, C, R>, other: &mut Client<D, C, R>)
        requires one { (self.old.seat.table_id ≡ queue.now.table.shared.table_id) × (other.old.seat.table_id ≡ queue.now.table.shared.table_id) }
        requires two { name_of self.old.seat ≢ name_of other.old.seat }
        ensures one { (self.new.seat.table_id ≡ self.old.seat.table_id) × (other.new.seat.table_id ≡ other.old.seat.table_id) }
        ensures history { ShareHistory self.old.seat other.old.seat }
        ensures mine { KnowsBoth self.old.seat other.old.seat self.new.seat }
        ensures theirs { KnowsBoth self.old.seat other.old.seat other.new.seat }
        ensures floors { DrawsAbove self.old.seat other.old.seat self.new.seat × DrawsAbove self.old.seat other.old.seat other.new.seat }
        ensures above { AllBelow (tickets_of other.old.seat) (floor_of self.new.seat) × AllBelow (tickets_of self.old.seat) (floor_of other.new.seat) }
        ensures open { StaysOpen self.old.seat self.new.seat × StaysOpen other.old.seat other.new.seat }
        ensures apart { IsApart other.old.seat self.old.seat }
        ensures same { OnlyLearned self.old.seat self.new.seat }
        ensures others { OnlyLearned other.old.seat other.new.seat }
    {
        self.learn_from(queue, other);
        other.learn_from(queue, self);
    }
}

impl<D: Machine<C, R>, C: Drop, R: Drop> Driver<D, C, R> {
    ghost use Rattle.host_queue.specs.Driving.{OnlyLetIn};

    /// A new client, with the next number.
    fn admit(&mut self, queue: &Queue<D, C, R>) -> Client<D, C, R>
        requires one { self.old.seat.table_id ≡ queue.now.table.shared.table_id }
        requires room { MayAdmit self.old.seat }
        ensures driver { (self.new.seat.table_id ≡ self.old.seat.table_id) × LetIn self.old.seat self.new.seat × (self.new.machine ≡ self.old.machine) × (self.new.count ≡ self.old.count) }
        ensures client { (result.seat.table_id ≡ self.old.seat.table_id) × IsNext self.old.seat result.seat }
    {
        let seat = queue.table.shared.split_seat::<Admit>(&mut self.seat);
        Client {
            seat,
            full: false,
            next: 0,
        }
    }

    /// So many new clients, numbered from 0.
    fn admit_all(
        &mut self,
        alloc: Global,
        queue: &Queue<D, C, R>,
        clients: usize,
    ) -> Result<Vec<Client<D, C, R>>, AllocError>
        requires one { self.old.seat.table_id ≡ queue.now.table.shared.table_id }
        requires fresh { MayAdmitFirst clients self.old.seat }
        ensures driver { OnlyLetIn self.old self.new }
        ensures admitted { OnOk result (admitted_of self.new.seat ≡ clients) }
        ensures clients { IfOk result (λ v. (vec_len v ≡ clients) × Each v.items (λ k c. (c.seat.table_id ≡ queue.now.table.shared.table_id) × IsGuest (start_of self.old.seat) k c.seat)) }
    {
        let mut list = Vec::with_capacity(alloc, clients)?;
        for i in 0..clients {
            list.push(self.admit(queue))?;
        }
        Ok(list)
    }
}

/// A queue over the machine, with 0 to 16 clients, who are numbered from 0, and the driver, who has the machine. An
/// error is out of memory.
pub fn open<D: Machine<C, R>, C: Drop, R: Drop>(
    alloc: Global,
    machine: D,
    clients: usize,
) -> Result<(Queue<D, C, R>, Vec<Client<D, C, R>>, Driver<D, C, R>), AllocError>
    requires clients { clients ≤ 16 }
    ensures driver { IfOk result (λ r. (r.2.seat.table_id ≡ r.0.table.shared.table_id) × (r.2.machine ≡ machine) × IsNewDriver machine clients r.2.seat) }
    ensures clients { IfOk result (λ r. (vec_len r.1 ≡ clients) × Each r.1.items (λ k c. (c.seat.table_id ≡ r.0.table.shared.table_id) × IsGuest (machine ∷ []) k c.seat)) }
{
    let words = Vec::from_elem(alloc, 0u64, FIRST + TICKETS)?;
    let about = Snapshot::of(&machine);
    let (table, seat): (Rows<D, C, R>, QueueSeat<D, C, R>) = Table::vacant(
        alloc,
        words.as_slice(),
        TICKETS,
        &about,
    )?;
    let queue = Queue { table };
    let mut driver = Driver {
        seat,
        machine,
        count: 0,
    };
    let list = driver.admit_all(alloc, &queue, clients)?;
    Ok((queue, list, driver))
}

/// How many tickets so many draws gave.
fn tickets_of(draws: u64) -> u64
    ensures all { draws ≤ TICKETS → result ≡ draws }
    ensures most { TICKETS ≤ draws → result ≡ TICKETS }
{
    let most = TICKETS as u64;
    if draws < most { draws } else { most }
}

impl<D: Machine<C, R>, C: Drop, R: Drop> Driver<D, C, R> {
    /// Answers until at least so many tickets are answered.
    fn drive_to<W: Wait>(&mut self, rt: &W, queue: &Queue<D, C, R>, count: u64)
        requires one { self.old.seat.table_id ≡ queue.now.table.shared.table_id }
        ensures one { self.new.seat.table_id ≡ self.old.seat.table_id }
        ensures reached { count ≤ answered_count self.new.seat }
        ensures no_more { answered_count self.old.seat ≤ count → answered_count self.new.seat ≤ count }
        ensures known { Begins (known_of self.old.seat) (known_of self.new.seat) }
        ensures same { HasSameClients self.old.seat self.new.seat }
    {
        for _ in rt.forever() {
            if self.count >= count {
                return;
            }
            drop(self.drive_one(queue));
        }
        unreachable!()
    }

    /// Answers all that was drawn.
    fn drive_rest<W: Wait>(&mut self, rt: &W, queue: &Queue<D, C, R>)
        requires one { self.old.seat.table_id ≡ queue.now.table.shared.table_id }
        ensures known { Begins (known_of self.old.seat) (known_of self.new.seat) }
        ensures same { start_of self.new.seat ≡ start_of self.old.seat }
        ensures all { HasNoClients self.old.seat → answered_count self.new.seat ≡ left_tickets self.old.seat }
    {
        let drawn = queue.table.shared.load::<Look<D>>(&mut self.seat, DRAWS);
        let count = tickets_of(drawn);
        self.drive_to(rt, queue, count);
    }

    /// A client leaves: its tickets are answered, and its list and its commands are in the driver's list. Answers the
    /// count of draws.
    fn dismiss(&mut self, queue: &Queue<D, C, R>, client: Client<D, C, R>) -> u64
        requires one { (self.old.seat.table_id ≡ queue.now.table.shared.table_id) × (client.seat.table_id ≡ queue.now.table.shared.table_id) }
        requires answered { client.next ≤ answered_count self.old.seat }
        ensures one { self.new.seat.table_id ≡ self.old.seat.table_id }
        ensures client { IsServed client.seat (known_of self.new.seat) }
        ensures counts { HasLeft 1 (ticket_count client.seat) self.old.seat self.new.seat }
        ensures known { known_of self.new.seat ≡ known_of self.old.seat }
        ensures same { LetNobodyIn self.old.seat self.new.seat }
    {
        let shared = &queue.table.shared;
        let mut client = client;
        let note = shared.split_seat::<Leave>(&mut client.seat);
        shared.join_seat::<Learn>(&mut self.seat, note);
        let Client {
            seat: _,
            full: _,
            next: _,
        } = client;
        shared.load::<Look<D>>(&mut self.seat, DRAWS)
    }

    /// Answers a client's tickets, and lets it leave.
    fn part_from<W: Wait>(&mut self, rt: &W, queue: &Queue<D, C, R>, client: Client<D, C, R>)
        requires one { (self.old.seat.table_id ≡ queue.now.table.shared.table_id) × (client.seat.table_id ≡ queue.now.table.shared.table_id) }
        ensures one { self.new.seat.table_id ≡ self.old.seat.table_id }
        ensures client { IsServed client.seat (known_of self.new.seat) }
        ensures counts { HasLeft 1 (ticket_count client.seat) self.old.seat self.new.seat }
        ensures known { Begins (known_of self.old.seat) (known_of self.new.seat) }
        ensures same { LetNobodyIn self.old.seat self.new.seat }
    {
        self.drive_to(rt, queue, client.next);
        self.dismiss(queue, client);
    }

    /// Parts from all clients.
    fn part_from_all<W: Wait>(
        &mut self,
        rt: &W,
        queue: &Queue<D, C, R>,
        mut clients: Vec<Client<D, C, R>>,
    )
        requires one { (self.old.seat.table_id ≡ queue.now.table.shared.table_id) × Each clients.items (λ k c. c.seat.table_id ≡ queue.now.table.shared.table_id) }
        ensures one { self.new.seat.table_id ≡ self.old.seat.table_id }
        ensures clients { Each clients.items (λ k c. IsServed c.seat (known_of self.new.seat)) }
        ensures counts { HasLeft (length clients.items) (total (λ c. ticket_count c.seat) clients.items) self.old.seat self.new.seat }
        ensures known { Begins (known_of self.old.seat) (known_of self.new.seat) }
        ensures same { LetNobodyIn self.old.seat self.new.seat }
    {
        while let Some(client) = clients.pop() {
            self.part_from(rt, queue, client);
        }
    }

    /// Gives up the driver's seat, and hands out its machine.
    fn into_machine(self) -> D
        ensures { result ≡ self.machine }
    {
        let Driver {
            seat: _,
            machine,
            count: _,
        } = self;
        machine
    }
}

/// Answers all that remains, and hands the machine back. Replies that were not collected are dropped.
/// The list has each ticket of each client that is handed in; it has no more where all clients are.
pub fn close<D: Machine<C, R>, C: Drop, R: Drop, W: Wait>(
    rt: &W,
    queue: Queue<D, C, R>,
    clients: Vec<Client<D, C, R>>,
    driver: Driver<D, C, R>,
) -> D
    requires one { (driver.seat.table_id ≡ queue.table.shared.table_id) × Each clients.items (λ k c. c.seat.table_id ≡ queue.table.shared.table_id) }
    ensures { (log : List (Entry C R)) × EndsAt D.step driver.seat log result × Begins (known_of driver.seat) log × Each clients.items (λ k c. IsServed c.seat log) × (left_count driver.seat ≡ 0 → admitted_of driver.seat ≡ length clients.items → length log ≡ total (λ c. ticket_count c.seat) clients.items) }
{
    let mut driver = driver;
    driver.part_from_all(rt, &queue, clients);
    driver.drive_rest(rt, &queue);
    drop(queue);
    driver.into_machine()
}
