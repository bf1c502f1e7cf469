//! A machine of which one command takes memory.
ghost use Rattle.std.specs.Prelude.{◌≡◌};
ghost use Rattle.refused_calls.specs.declared.machine.Reply.TheVariants.{OutOfMemory};

use crate::came::Came;
use crate::requests::Tells;
use host_queue::Machine;

/// What the machine is asked.
#[derive(Clone, Copy)]
pub enum Command {
    /// To count one more.
    Count,
    /// To keep the count.
    Keep,
}

/// What it answers.
#[derive(Clone, Copy)]
pub enum Reply {
    Done,
    OutOfMemory,
}

impl Tells for Reply {
    fn came(&self) -> Came {
        match self {
            Reply::Done => Came::Done,
            Reply::OutOfMemory => Came::OutOfMemory,
        }
    }
}

/// A count, and counts that are kept.
#[derive(Drop)]
pub struct Counter {
    pub count: u64,
    pub kept: Vec<u64>,
}

/// What a machine holds: its count, how many counts are kept, and the last of them. That is all where one is kept at
/// most.
#[derive(Clone, Copy, PartialEq, Eq)]
pub struct Holding {
    count: u64,
    kept: usize,
    last: Option<u64>,
}

impl Holding {
    /// What the machine holds once it has done a command.
    pub fn after(self, command: Command) -> Self {
        match command {
            Command::Count => Holding {
                count: self.count.wrapping_add(1),
                ..self
            },
            Command::Keep => Holding {
                kept: self.kept.wrapping_add(1),
                last: Some(self.count),
                ..self
            },
        }
    }
}

/// A machine that can be read.
pub trait Holds {
    /// What it holds. It takes no memory.
    fn holding(&self) -> Holding;
}

impl Holds for Counter {
    fn holding(&self) -> Holding {
        Holding {
            count: self.count,
            kept: self.kept.len(),
            last: self.kept.last().copied(),
        }
    }
}

impl Machine<Command, Reply> for Counter {
    // Where memory is refused, the count and what is kept are as before.
    ghost step = { λ before command reply after. reply ≡ OutOfMemory → (after.count ≡ before.count) × (after.kept.items ≡ before.kept.items) };

    fn apply(&mut self, command: Command) -> Reply {
        match command {
            Command::Count => {
                self.count = self.count.wrapping_add(1);
                Reply::Done
            }
            Command::Keep => {
                let count = self.count;
                match self.kept.push(count) {
                    Ok(()) => Reply::Done,
                    Err(_) => Reply::OutOfMemory,
                }
            }
        }
    }
}
