//! Many clients in threads of their own, and a driver in another: a machine that adds up what it is given shows that
//! the replies are those of one history.
ghost use Rattle.std.specs.Prelude.{◌≡◌, ◌≤◌, IfOk};
ghost use Rattle.host_queue.specs.Opened.{Each};

use crate::clients::{Line, NumberedClient, drive, numbered_clients};
use crate::questions::Questions;
use crate::tally::Tally;
use host_queue::{Client, Driver, Machine, Queue, TICKETS, close, open};
use std::alloc::{AllocError, Global};
use std::sync::Wait;
use std::thread;
use std::thread::Threads;

/// A client after its thread's work.
#[derive(Drop)]
pub struct Report<'a, D: Machine<C, R>, C: Drop, R: Drop> {
    /// None where it left
    client: Option<NumberedClient<'a, D, C, R>>,
    lines: Vec<Line>,
}

/// Asks 256 times. The client that leaves collects none of the replies.
pub fn work<'a, W: Wait, D: Machine<C, R> + Questions<C, R>, C: Drop, R: Drop>(
    rt: &W,
    alloc: Global,
    client: NumberedClient<'a, D, C, R>,
    leaver: u8,
) -> Report<'a, D, C, R> {
    let mut client = client;
    let mut lines = Vec::new(alloc);
    if client.number == leaver {
        client.submit_all(alloc);
        return Report {
            client: None,
            lines,
        };
    }
    client.ask_all(rt, alloc, &mut lines);
    Report {
        client: Some(client),
        lines,
    }
}

/// Puts the lines at their tickets.
fn gather(history: &mut Vec<u32>, sums: &mut Vec<Option<u32>>, lines: &Vec<Line>) {
    for line in lines.iter() {
        let at = line.ticket as usize;
        if at < history.len() && at < sums.len() {
            history[at] = line.add;
            sums[at] = Some(line.sum);
        }
    }
}

/// How many replies are the sums up to them.
fn exact(history: &Vec<u32>, sums: &Vec<Option<u32>>) -> usize {
    let mut total = 0u32;
    let mut exact = 0usize;
    for (add, sum) in history.iter().zip(sums.iter()) {
        total = total.wrapping_add(*add);
        if *sum == Some(total) {
            exact = exact.wrapping_add(1);
        }
    }
    exact
}

/// How many replies are the sums up to them, of so many tickets. What the client that left has added is its number.
fn exact_replies<D: Machine<C, R>, C: Drop, R: Drop>(
    alloc: Global,
    reports: &Vec<Report<'_, D, C, R>>,
    leaver: u8,
    count: usize,
) -> Result<usize, AllocError> {
    let mut history = Vec::from_elem(alloc, u32::from(leaver), count)?;
    let mut sums = Vec::from_elem(alloc, None, count)?;
    for report in reports.iter() {
        gather(&mut history, &mut sums, &report.lines);
    }
    Ok(exact(&history, &sums))
}

/// Whether the client is there, and one more submit of it is answered by Full.
fn is_full<D: Machine<C, R> + Questions<C, R>, C: Drop, R: Drop>(
    alloc: Global,
    report: Report<'_, D, C, R>,
) -> bool {
    let Report { client, lines } = report;
    drop(lines);
    match client {
        Some(mut client) => client.is_full(alloc),
        None => false,
    }
}

/// How many clients are answered Full.
fn full<D: Machine<C, R> + Questions<C, R>, C: Drop, R: Drop>(
    alloc: Global,
    reports: Vec<Report<'_, D, C, R>>,
) -> usize {
    let mut full = 0usize;
    for report in reports {
        if is_full(alloc, report) {
            full = full.wrapping_add(1);
        }
    }
    full
}

/// How many replies are the sums up to them, of so many tickets, and how many clients are answered Full where these are
/// all tickets.
pub fn counted<D: Machine<C, R> + Questions<C, R>, C: Drop, R: Drop>(
    alloc: Global,
    reports: Result<Vec<Report<'_, D, C, R>>, AllocError>,
    leaver: u8,
    count: usize,
) -> Result<(usize, usize), AllocError> {
    let reports = reports?;
    let exact = exact_replies(alloc, &reports, leaver, count)?;
    if count < TICKETS {
        return Ok((exact, 0));
    }
    Ok((exact, full(alloc, reports)))
}

/// Lets all clients work, each in a thread of its own, while another drives until so many tickets are answered. One
/// client may leave. How many replies were the sums, how many clients were answered Full, and the driver.
fn serve<
    W: Threads + Wait + Sync,
    D: Machine<C, R> + Questions<C, R> + Send,
    C: Drop + Send,
    R: Drop + Send,
>(
    rt: &W,
    alloc: Global,
    queue: &Queue<D, C, R>,
    clients: Vec<Client<D, C, R>>,
    driver: Driver<D, C, R>,
    leaver: u8,
    count: usize,
) -> Result<(usize, usize, Driver<D, C, R>), AllocError>
    requires one { driver.seat.table_id ≡ queue.now.table.shared.table_id }
    requires clients { Each clients.items (λ k c. c.seat.table_id ≡ queue.now.table.shared.table_id) }
    ensures { IfOk result (λ r. r.2.seat.table_id ≡ queue.now.table.shared.table_id) }
{
    let numbered = numbered_clients(alloc, queue, clients)?;
    let (reports, driver) = thread::join(
        rt,
        || thread::map_vec(rt, numbered, &|client| work(rt, alloc, client, leaver)),
        move || -> Driver<D, C, R>
            requires { driver.seat.table_id ≡ queue.now.table.shared.table_id }
            ensures { result.seat.table_id ≡ queue.entry.now.table.shared.table_id }
        {
            let mut driver = driver;
            drive(rt, queue, &mut driver, count as u64);
            driver
        },
    );
    let (exact, full) = counted(alloc, reports, leaver, count)?;
    Ok((exact, full, driver))
}

/// So many clients of a machine that adds: how many replies were the sums, how many clients were answered Full, and the
/// sum.
fn sums<W: Threads + Wait + Sync>(
    rt: &W,
    alloc: Global,
    clients: usize,
    leaver: u8,
    count: usize,
) -> Result<(usize, usize, u32), AllocError>
    requires { clients ≤ 16 }
{
    let (queue, clients, driver) = open(alloc, Tally { total: 0 }, clients)?;
    let (exact, full, driver) = serve(rt, alloc, &queue, clients, driver, leaver, count)?;
    let machine = close(rt, queue, Vec::new(alloc), driver);
    Ok((exact, full, machine.total))
}

/// Shows that the replies at all 4,096 tickets are the sums of what was asked for up to them, and that each client is
/// then answered Full.
#[test]
fn sixteen_clients_have_one_history(rt: HostRuntime) {
    assert!(rt; sums(&rt, rt.alloc(), 16, 0, 4096) == Ok((4096, 16, 256 * 136)));
}

/// The client 1 leaves with 256 replies uncollected, while three others work: each reply of theirs is exact.
#[test]
fn one_of_four_leaves(rt: HostRuntime) {
    assert!(rt; sums(&rt, rt.alloc(), 4, 1, 1024) == Ok((768, 0, 256 * 10)));
}
