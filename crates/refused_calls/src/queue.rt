//! The calls of a queue over any machine: it is made whole or not at all, and they take no memory.
ghost use Rattle.std.specs.Prelude.{◌≡◌, ◌≢◌};
ghost use Rattle.std.specs.Box.{box_value};
ghost use Rattle.host_queue.specs.declared.view.Request.TheVariants.{Asked};
ghost use Rattle.host_queue.specs.Clients.{IsOnly};
ghost use Rattle.host_queue.specs.Seats.{name_of};

use crate::came::{Came, done_if, is_done, refuse_all, refuse_none};
use crate::machine::{Command, Holding, Holds};
use crate::requests::{Requests, Tells};
use crate::tickets::{known, open_one, open_two, polled};
use host_queue::{Client, Driver, Machine, Queue, Request};
use std::alloc::Global;

/// How a client comes to a reply.
#[derive(Clone, Copy)]
enum Way {
    /// It polls, too early and again.
    Poll,
    /// It knows that the reply is there.
    Known,
}

/// A request with its reply, to which a client comes in some way.
fn replied<D: Machine<C, R>, C: Drop, R: Drop>(
    queue: &Queue<D, C, R>,
    client: &mut Client<D, C, R>,
    driver: &mut Driver<D, C, R>,
    request: Box<Request<C, R>>,
    way: Way,
) -> Option<Box<Request<C, R>>>
    requires one { (client.old.seat.table_id ≡ queue.now.table.shared.table_id) × (driver.old.seat.table_id ≡ queue.now.table.shared.table_id) }
    requires asked { (c : C) × (box_value request ≡ Asked c) }
    ensures one { (client.new.seat.table_id ≡ client.old.seat.table_id) × (driver.new.seat.table_id ≡ driver.old.seat.table_id) }
    ensures name { name_of client.new.seat ≡ name_of client.old.seat }
{
    match way {
        Way::Poll => polled(queue, client, driver, request),
        Way::Known => known(queue, client, driver, request),
    }
}

/// What comes of a client's next request.
fn asked<D: Machine<C, R>, C: Drop, R: Drop + Tells>(
    queue: &Queue<D, C, R>,
    client: &mut Client<D, C, R>,
    driver: &mut Driver<D, C, R>,
    requests: &mut Requests<C, R>,
    way: Way,
) -> Came
    requires one { (client.old.seat.table_id ≡ queue.now.table.shared.table_id) × (driver.old.seat.table_id ≡ queue.now.table.shared.table_id) }
    ensures one { (client.new.seat.table_id ≡ client.old.seat.table_id) × (driver.new.seat.table_id ≡ driver.old.seat.table_id) }
    ensures name { name_of client.new.seat ≡ name_of client.old.seat }
{
    let Some(request) = requests.next() else {
        return Came::Wrong;
    };
    match replied(queue, client, driver, request, way) {
        Some(request) => requests.keep(request),
        None => Came::Wrong,
    }
}

/// What came of a command, by what the machine held before and holds after it: what the command leaves, or, out of
/// memory, what it held.
fn came_of(came: Came, command: Command, before: Holding, after: Holding) -> Came {
    match came {
        Came::Done => done_if(after == before.after(command)),
        Came::OutOfMemory if after == before => Came::OutOfMemory,
        _ => Came::Wrong,
    }
}

/// What comes of a client's next request, which has this command. The machine is read before and after it.
fn asked_to<D: Machine<C, R> + Holds, C: Drop, R: Drop + Tells>(
    queue: &Queue<D, C, R>,
    client: &mut Client<D, C, R>,
    driver: &mut Driver<D, C, R>,
    requests: &mut Requests<C, R>,
    command: Command,
    way: Way,
) -> Came
    requires one { (client.old.seat.table_id ≡ queue.now.table.shared.table_id) × (driver.old.seat.table_id ≡ queue.now.table.shared.table_id) }
    ensures one { (client.new.seat.table_id ≡ client.old.seat.table_id) × (driver.new.seat.table_id ≡ driver.old.seat.table_id) }
    ensures name { name_of client.new.seat ≡ name_of client.old.seat }
{
    let before = driver.machine.holding();
    let came = asked(queue, client, driver, requests, way);
    let after = driver.machine.holding();
    came_of(came, command, before, after)
}

/// What came of the calls of two clients, whose requests are all in one box.
#[derive(Clone, Copy)]
struct CallResults {
    polled: Came,
    known: Came,
    kept: Came,
    agreed: Came,
}

/// What comes of the calls for four requests of two clients: the third one may take memory.
fn results_of_calls<D: Machine<C, R> + Holds, C: Drop, R: Drop + Tells>(
    queue: &Queue<D, C, R>,
    first: &mut Client<D, C, R>,
    second: &mut Client<D, C, R>,
    driver: &mut Driver<D, C, R>,
    requests: &mut Requests<C, R>,
) -> CallResults
    requires one { (first.old.seat.table_id ≡ queue.now.table.shared.table_id) × (second.old.seat.table_id ≡ queue.now.table.shared.table_id) × (driver.old.seat.table_id ≡ queue.now.table.shared.table_id) }
    requires two { name_of first.old.seat ≢ name_of second.old.seat }
    ensures one { (second.new.seat.table_id ≡ second.old.seat.table_id) × (driver.new.seat.table_id ≡ driver.old.seat.table_id) }
{
    let polled = asked_to(queue, first, driver, requests, Command::Count, Way::Poll);
    let known = asked_to(queue, second, driver, requests, Command::Count, Way::Known);
    first.agree(queue, second);
    let kept = asked_to(queue, second, driver, requests, Command::Keep, Way::Poll);
    let agreed = asked_to(queue, first, driver, requests, Command::Count, Way::Known);
    CallResults {
        polled,
        known,
        kept,
        agreed,
    }
}

/// Writes the lines of the replies.
fn tell_results<T: Print>(rt: &T, results: CallResults) {
    is_done(
        rt,
        "queue submit, poll and drive_one without memory",
        results.polled,
    );
    is_done(rt, "queue poll_known without memory", results.known);
    is_done(
        rt,
        "queue drive_one where memory may be refused",
        results.kept,
    );
    is_done(rt, "queue agree without memory", results.agreed);
}

/// What comes of the third request, which is given again where memory was refused.
fn kept_again<D: Machine<C, R> + Holds, C: Drop, R: Drop + Tells>(
    queue: &Queue<D, C, R>,
    client: &mut Client<D, C, R>,
    driver: &mut Driver<D, C, R>,
    requests: &mut Requests<C, R>,
    kept: Came,
) -> Came
    requires one { (client.old.seat.table_id ≡ queue.now.table.shared.table_id) × (driver.old.seat.table_id ≡ queue.now.table.shared.table_id) }
    ensures one { (client.new.seat.table_id ≡ client.old.seat.table_id) × (driver.new.seat.table_id ≡ driver.old.seat.table_id) }
{
    match kept {
        Came::OutOfMemory => asked_to(queue, client, driver, requests, Command::Keep, Way::Poll),
        _ => kept,
    }
}

/// Tries that. False where memory is refused again.
fn try_again<T: Print, D: Machine<C, R> + Holds, C: Drop, R: Drop + Tells>(
    rt: &T,
    queue: &Queue<D, C, R>,
    client: &mut Client<D, C, R>,
    driver: &mut Driver<D, C, R>,
    requests: &mut Requests<C, R>,
    kept: Came,
) -> bool
    requires one { (client.old.seat.table_id ≡ queue.now.table.shared.table_id) × (driver.old.seat.table_id ≡ queue.now.table.shared.table_id) }
    ensures one { (client.new.seat.table_id ≡ client.old.seat.table_id) × (driver.new.seat.table_id ≡ driver.old.seat.table_id) }
{
    let came = kept_again(queue, client, driver, requests, kept);
    is_done(rt, "queue drive_one with memory", came)
}

/// Tries the calls of two clients with every request for memory refused, and then the one that takes memory.
fn try_calls<T: Print + Eprint, D: Machine<C, R> + Holds, C: Drop, R: Drop + Tells>(
    rt: &T,
    queue: &Queue<D, C, R>,
    first: &mut Client<D, C, R>,
    second: &mut Client<D, C, R>,
    driver: &mut Driver<D, C, R>,
    requests: &mut Requests<C, R>,
)
    requires one { (first.old.seat.table_id ≡ queue.now.table.shared.table_id) × (second.old.seat.table_id ≡ queue.now.table.shared.table_id) × (driver.old.seat.table_id ≡ queue.now.table.shared.table_id) }
    requires two { name_of first.old.seat ≢ name_of second.old.seat }
{
    refuse_all(rt);
    let results = results_of_calls(queue, first, second, driver, requests);
    refuse_none(rt);
    tell_results(rt, results);
    let _ = try_again(rt, queue, second, driver, requests, results.kept)
        || try_again(rt, queue, second, driver, requests, results.kept);
}

/// Opens a queue over a machine, and tries the calls of two clients. False where the queue is refused.
pub fn try_two<T: Print + Eprint, D: Machine<C, R> + Holds, C: Drop, R: Drop + Tells>(
    rt: &T,
    alloc: Global,
    machine: D,
    requests: &mut Requests<C, R>,
) -> bool {
    match open_two(alloc, machine) {
        Ok((queue, mut first, mut second, mut driver)) => {
            is_done(rt, "queue open", Came::Done);
            try_calls(rt, &queue, &mut first, &mut second, &mut driver, requests);
            true
        }
        Err(_) => is_done(rt, "queue open", Came::OutOfMemory),
    }
}

/// Whether the next request of an only client is done at once.
fn is_answered<D: Machine<C, R>, C: Drop, R: Drop + Tells>(
    queue: &Queue<D, C, R>,
    client: &mut Client<D, C, R>,
    driver: &mut Driver<D, C, R>,
    requests: &mut Requests<C, R>,
) -> bool
    requires one { (client.old.seat.table_id ≡ queue.now.table.shared.table_id) × (driver.old.seat.table_id ≡ queue.now.table.shared.table_id) }
    requires only { IsOnly driver.old.seat client.old.seat }
    ensures one { (client.new.seat.table_id ≡ client.old.seat.table_id) × (driver.new.seat.table_id ≡ driver.old.seat.table_id) }
    ensures only { IsOnly driver.new.seat client.new.seat }
{
    let Some(request) = requests.next() else {
        return false;
    };
    match driver.answer(queue, client, request) {
        Ok(request) => matches!(requests.keep(request), Came::Done),
        Err(_) => false,
    }
}

/// Whether three requests of an only client, which are to count, are done at once. The machine is read before and after
/// them.
fn are_answered<D: Machine<C, R> + Holds, C: Drop, R: Drop + Tells>(
    queue: &Queue<D, C, R>,
    client: &mut Client<D, C, R>,
    driver: &mut Driver<D, C, R>,
    requests: &mut Requests<C, R>,
) -> bool
    requires one { (client.old.seat.table_id ≡ queue.now.table.shared.table_id) × (driver.old.seat.table_id ≡ queue.now.table.shared.table_id) }
    requires only { IsOnly driver.old.seat client.old.seat }
{
    let before = driver.machine.holding();
    let first = is_answered(queue, client, driver, requests);
    let second = is_answered(queue, client, driver, requests);
    let third = is_answered(queue, client, driver, requests);
    let after = driver.machine.holding();
    let counted = before.after(Command::Count).after(Command::Count);
    first && second && third && after == counted.after(Command::Count)
}

/// Tries the call of an only client with every request for memory refused.
fn try_answers<T: Print + Eprint, D: Machine<C, R> + Holds, C: Drop, R: Drop + Tells>(
    rt: &T,
    queue: &Queue<D, C, R>,
    client: &mut Client<D, C, R>,
    driver: &mut Driver<D, C, R>,
    requests: &mut Requests<C, R>,
)
    requires one { (client.old.seat.table_id ≡ queue.now.table.shared.table_id) × (driver.old.seat.table_id ≡ queue.now.table.shared.table_id) }
    requires only { IsOnly driver.old.seat client.old.seat }
{
    refuse_all(rt);
    let are_done = are_answered(queue, client, driver, requests);
    refuse_none(rt);
    is_done(rt, "answer answer without memory", done_if(are_done));
}

/// Opens a queue over a machine, and tries the call of its only client. False where the queue is refused.
pub fn try_one<T: Print + Eprint, D: Machine<C, R> + Holds, C: Drop, R: Drop + Tells>(
    rt: &T,
    alloc: Global,
    machine: D,
    requests: &mut Requests<C, R>,
) -> bool {
    match open_one(alloc, machine) {
        Ok((queue, mut client, mut driver)) => {
            is_done(rt, "answer open", Came::Done);
            try_answers(rt, &queue, &mut client, &mut driver, requests);
            true
        }
        Err(_) => is_done(rt, "answer open", Came::OutOfMemory),
    }
}
