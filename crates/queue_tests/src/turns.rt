//! Five requests of two clients in turns, and their replies.
ghost use Rattle.std.specs.Prelude.{◌≡◌, ◌<◌, IfSome};
ghost use Rattle.host_queue.specs.Clients.{IsOpen};
ghost use Rattle.host_queue.specs.Seats.{name_of};

use crate::clients::answered;
use crate::pair::{Pair, open_two, polled, reply, submit};
use crate::questions::{Questions, adds_up};
use crate::tally::Tally;
use host_queue::{Answered, Client, Driver, Machine, Queue, Ticket};
use std::alloc::{AllocError, Global};

/// The tickets 0 to 4, in turns of two clients.
#[derive(Drop)]
struct Five {
    zero: Ticket,
    one: Ticket,
    two: Ticket,
    three: Ticket,
    four: Ticket,
    ghost numbers: { (zero.number ≡ 0) × (one.number ≡ 1) × (two.number ≡ 2) × (three.number ≡ 3) × (four.number ≡ 4) },
}

/// The tickets, where they are 0 to 4.
fn in_turns(zero: Ticket, one: Ticket, two: Ticket, three: Ticket, four: Ticket) -> Option<Five>
    ensures { IfSome result (λ f. (f.zero ≡ zero) × (f.one ≡ one) × (f.two ≡ two) × (f.three ≡ three) × (f.four ≡ four)) }
{
    if zero.number != 0
        || one.number != 1
        || two.number != 2
        || three.number != 3
        || four.number != 4
    {
        return None;
    }
    Some(Five {
        zero,
        one,
        two,
        three,
        four,
    })
}

/// Submits five requests in turns, of numbered clients: the first client's are the first, the third and the last.
/// Nothing where their tickets aren't 0 to 4.
fn draw_five<D: Machine<C, R> + Questions<C, R>, C: Drop, R: Drop>(
    alloc: Global,
    pair: &mut Pair<D, C, R>,
    numbers: &[u8; 5],
) -> Option<Five>
    ensures zero { IfSome result (λ f. IsOpen pair.new.first.seat f.zero.number) }
    ensures one { IfSome result (λ f. IsOpen pair.new.second.seat f.one.number) }
    ensures two { IfSome result (λ f. IsOpen pair.new.first.seat f.two.number) }
    ensures three { IfSome result (λ f. IsOpen pair.new.second.seat f.three.number) }
    ensures four { IfSome result (λ f. IsOpen pair.new.first.seat f.four.number) }
{
    let (queue, first, second) = (&pair.queue, &mut pair.first, &mut pair.second);
    let zero = submit(alloc, queue, first, D::question(alloc, numbers[0], 0))?;
    let one = submit(alloc, queue, second, D::question(alloc, numbers[1], 0))?;
    let two = submit(alloc, queue, first, D::question(alloc, numbers[2], 1))?;
    let three = submit(alloc, queue, second, D::question(alloc, numbers[3], 1))?;
    let four = submit(alloc, queue, first, D::question(alloc, numbers[4], 2))?;
    in_turns(zero, one, two, three, four)
}

/// Drives so many times, and tells how many tickets are answered then: 0 where once no request was there.
fn drive_times<D: Machine<C, R>, C: Drop, R: Drop>(
    queue: &Queue<D, C, R>,
    driver: &mut Driver<D, C, R>,
    times: u32,
) -> u64
    requires one { driver.old.seat.table_id ≡ queue.now.table.shared.table_id }
    ensures one { driver.new.seat.table_id ≡ driver.old.seat.table_id }
{
    let mut count = 0;
    for _ in 0..times {
        count = answered(queue, driver);
        if count == 0 {
            return 0;
        }
    }
    count
}

/// Whether the replies to five tickets add up, by `poll`.
fn poll_five<D: Machine<C, R> + Questions<C, R>, C: Drop, R: Drop>(
    pair: &mut Pair<D, C, R>,
    five: Five,
    numbers: &[u8; 5],
) -> bool
    requires zero { IsOpen pair.old.first.seat five.zero.number }
    requires its_one { IsOpen pair.old.second.seat five.one.number }
    requires two { IsOpen pair.old.first.seat five.two.number }
    requires three { IsOpen pair.old.second.seat five.three.number }
    requires four { IsOpen pair.old.first.seat five.four.number }
{
    let (queue, first, second) = (&pair.queue, &mut pair.first, &mut pair.second);
    let mut total = 0;
    let zero = adds_up::<D, C, R>(&mut total, numbers[0], 0, polled(queue, first, five.zero));
    let one = adds_up::<D, C, R>(&mut total, numbers[1], 0, polled(queue, second, five.one));
    let two = adds_up::<D, C, R>(&mut total, numbers[2], 1, polled(queue, first, five.two));
    let three = adds_up::<D, C, R>(&mut total, numbers[3], 1, polled(queue, second, five.three));
    let four = adds_up::<D, C, R>(&mut total, numbers[4], 2, polled(queue, first, five.four));
    zero && one && two && three && four
}

/// Whether five tickets are known to be answered, and their replies add up, by `poll_known`.
fn know_five<D: Machine<C, R> + Questions<C, R>, C: Drop, R: Drop>(
    queue: &Queue<D, C, R>,
    first: &mut Client<D, C, R>,
    second: &mut Client<D, C, R>,
    five: Five,
    numbers: &[u8; 5],
    known: &mut Answered<D, C, R>,
) -> bool
    requires one { (first.old.seat.table_id ≡ queue.now.table.shared.table_id) × (second.old.seat.table_id ≡ queue.now.table.shared.table_id) × (known.old.seat.table_id ≡ queue.now.table.shared.table_id) }
    requires zero { IsOpen first.old.seat five.zero.number }
    requires its_one { IsOpen second.old.seat five.one.number }
    requires two { IsOpen first.old.seat five.two.number }
    requires three { IsOpen second.old.seat five.three.number }
    requires four { IsOpen first.old.seat five.four.number }
    ensures one { (first.new.seat.table_id ≡ first.old.seat.table_id) × (second.new.seat.table_id ≡ second.old.seat.table_id) }
    ensures names { (name_of first.new.seat ≡ name_of first.old.seat) × (name_of second.new.seat ≡ name_of second.old.seat) }
{
    if known.count() != 5 {
        return false;
    }
    let zero = reply(first.poll_known(queue, five.zero, known));
    let one = reply(second.poll_known(queue, five.one, known));
    let two = reply(first.poll_known(queue, five.two, known));
    let three = reply(second.poll_known(queue, five.three, known));
    let four = reply(first.poll_known(queue, five.four, known));
    let mut total = 0;
    let zero = adds_up::<D, C, R>(&mut total, numbers[0], 0, zero);
    let one = adds_up::<D, C, R>(&mut total, numbers[1], 0, one);
    let two = adds_up::<D, C, R>(&mut total, numbers[2], 1, two);
    let three = adds_up::<D, C, R>(&mut total, numbers[3], 1, three);
    let four = adds_up::<D, C, R>(&mut total, numbers[4], 2, four);
    zero && one && two && three && four
}

/// Drives five times and once more, and tells whether the first client and the second know all by the note of the fifth
/// time.
fn note_five<D: Machine<C, R> + Questions<C, R>, C: Drop, R: Drop>(
    queue: &Queue<D, C, R>,
    first: &mut Client<D, C, R>,
    second: &mut Client<D, C, R>,
    driver: &mut Driver<D, C, R>,
    five: Five,
    numbers: &[u8; 5],
) -> bool
    requires one { (first.old.seat.table_id ≡ queue.now.table.shared.table_id) × (second.old.seat.table_id ≡ queue.now.table.shared.table_id) × (driver.old.seat.table_id ≡ queue.now.table.shared.table_id) }
    requires zero { IsOpen first.old.seat five.zero.number }
    requires its_one { IsOpen second.old.seat five.one.number }
    requires two { IsOpen first.old.seat five.two.number }
    requires three { IsOpen second.old.seat five.three.number }
    requires four { IsOpen first.old.seat five.four.number }
    ensures one { (first.new.seat.table_id ≡ first.old.seat.table_id) × (second.new.seat.table_id ≡ second.old.seat.table_id) × (driver.new.seat.table_id ≡ driver.old.seat.table_id) }
    ensures names { (name_of first.new.seat ≡ name_of first.old.seat) × (name_of second.new.seat ≡ name_of second.old.seat) }
{
    let count = drive_times(queue, driver, 4);
    let Some(mut known) = driver.drive_one(queue) else {
        return false;
    };
    let rest = answered(queue, driver);
    let are_right = know_five(queue, first, second, five, numbers, &mut known);
    drop(known);
    count == 4 && rest == 0 && are_right
}

/// Whether five requests in turns have their own replies by `poll`, and the driver has nothing to do then.
fn are_polled<D: Machine<C, R> + Questions<C, R>, C: Drop, R: Drop>(
    alloc: Global,
    pair: &mut Pair<D, C, R>,
    numbers: &[u8; 5],
) -> bool {
    let Some(five) = draw_five(alloc, pair, numbers) else {
        return false;
    };
    let count = drive_times(&pair.queue, &mut pair.driver, 5);
    let rest = answered(&pair.queue, &mut pair.driver);
    if count != 5 || rest != 0 {
        return false;
    }
    poll_five(pair, five, numbers)
}

/// Whether five requests in turns have their own replies by `poll_known` with the driver's note of the last one, and
/// the driver has nothing to do then.
fn are_known<D: Machine<C, R> + Questions<C, R>, C: Drop, R: Drop>(
    alloc: Global,
    pair: &mut Pair<D, C, R>,
    numbers: &[u8; 5],
) -> bool {
    let Some(five) = draw_five(alloc, pair, numbers) else {
        return false;
    };
    let (queue, driver) = (&pair.queue, &mut pair.driver);
    note_five(
        queue,
        &mut pair.first,
        &mut pair.second,
        driver,
        five,
        numbers,
    )
}

/// Whether two clients of a machine collect five right replies by `poll`.
pub fn polls_are_right<D: Machine<C, R> + Questions<C, R>, C: Drop, R: Drop>(
    alloc: Global,
    machine: D,
    numbers: &[u8; 5],
) -> Result<bool, AllocError> {
    let mut pair = open_two(alloc, machine)?;
    Ok(are_polled(alloc, &mut pair, numbers))
}

/// Whether two clients of a machine collect five right replies by the driver's note of the last one.
pub fn notes_are_right<D: Machine<C, R> + Questions<C, R>, C: Drop, R: Drop>(
    alloc: Global,
    machine: D,
    numbers: &[u8; 5],
) -> Result<bool, AllocError> {
    let mut pair = open_two(alloc, machine)?;
    Ok(are_known(alloc, &mut pair, numbers))
}

/// Each ticket has its own reply, and no other's.
#[test]
fn each_ticket_has_its_own_reply(rt: HostRuntime) {
    assert!(rt; notes_are_right(rt.alloc(), Tally { total: 0 }, &[1, 2, 4, 8, 16]) == Ok(true));
}
