//! Queues over a counter: one of two clients, and one of an only client.

use crate::came::{Came, is_done};
use crate::machine::{Command, Counter, Reply};
use crate::queue::{try_one, try_two};
use crate::requests::Requests;
use std::alloc::Global;

/// The commands of two clients, of which the last comes first. `Keep` is given up to three times.
const OF_TWO: [Command; 6] = [
    Command::Keep,
    Command::Keep,
    Command::Count,
    Command::Keep,
    Command::Count,
    Command::Count,
];

/// The commands of an only client.
const OF_ONE: [Command; 3] = [Command::Count, Command::Count, Command::Count];

/// A machine that has counted nothing.
fn counter(alloc: Global) -> Counter {
    Counter {
        count: 0,
        kept: Vec::new(alloc),
    }
}

/// These commands, and a box. None where memory is refused.
fn requests_of(alloc: Global, commands: &[Command]) -> Option<Requests<Command, Reply>> {
    match Vec::from_slice(alloc, commands) {
        Ok(commands) => Requests::new(alloc, commands, Reply::Done),
        Err(_) => None,
    }
}

/// Tries the calls of two clients. False where memory is refused before.
fn try_clients<T: Print + Eprint>(rt: &T, alloc: Global) -> bool {
    match requests_of(alloc, OF_TWO.as_slice()) {
        Some(mut requests) => try_two(rt, alloc, counter(alloc), &mut requests),
        None => is_done(rt, "queue commands", Came::OutOfMemory),
    }
}

/// Tries the call of an only client. False where memory is refused before.
fn try_client<T: Print + Eprint>(rt: &T, alloc: Global) -> bool {
    match requests_of(alloc, OF_ONE.as_slice()) {
        Some(mut requests) => try_one(rt, alloc, counter(alloc), &mut requests),
        None => is_done(rt, "answer commands", Came::OutOfMemory),
    }
}

/// Tries the calls, and again where memory is refused before.
pub fn try_all<T: Print + Eprint>(rt: &T, alloc: Global) {
    let _ = try_clients(rt, alloc) || try_clients(rt, alloc);
    let _ = try_client(rt, alloc) || try_client(rt, alloc);
}
