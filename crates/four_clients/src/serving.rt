//! The threads.
ghost use Rattle.std.specs.Prelude.{◌≡◌};

use crate::guest::{Commands, Guest, Report, work};
use device::{Command, Device, Reply};
use host_queue::Driver;
use std::alloc::{AllocError, Global};
use std::sync::Wait;
use std::sync::atomic::{AtomicBool, Ordering};
use std::thread;
use std::thread::Threads;

/// The device's driver.
pub type Runner = Driver<Device, Command, Reply>;

/// Drives until the clients are done and no request is there.
fn drive<R: Wait>(rt: &R, queue: &Commands, driver: Runner, done: &AtomicBool) -> Runner
    requires one { driver.seat.table_id ≡ queue.now.table.shared.table_id }
    ensures { result.seat.table_id ≡ queue.now.table.shared.table_id }
{
    let mut driver = driver;
    for _ in rt.forever() {
        if driver.drive_one(queue).is_none() {
            if done.load(Ordering::SeqCst) {
                return driver;
            }
            thread::yield_now();
        }
    }
    unreachable!()
}

/// Lets all clients work, each in a thread of its own, while another drives.
pub fn serve<'a, R: Threads + Wait + Sync>(
    rt: &R,
    alloc: Global,
    queue: &'a Commands,
    guests: Vec<Guest<'a>>,
    driver: Runner,
) -> (Result<Vec<Result<Report, AllocError>>, AllocError>, Runner)
    requires one { driver.seat.table_id ≡ queue.now.table.shared.table_id }
    ensures { result.1.seat.table_id ≡ queue.now.table.shared.table_id }
{
    let done = AtomicBool::new(false);
    let ended = &done;
    thread::join(
        rt,
        || {
            let reports = thread::map_vec(rt, guests, &|guest| work(rt, alloc, guest));
            ended.store(true, Ordering::SeqCst);
            reports
        },
        move || -> Runner
            requires { driver.seat.table_id ≡ queue.now.table.shared.table_id }
            ensures { result.seat.table_id ≡ queue.entry.now.table.shared.table_id }
        { drive(rt, queue, driver, ended) },
    )
}
