//! How far a launch has come, told on a terminal.
//!
//! Once a launch has taken some seconds a line on standard error tells how many of its groups are done. A thread of its
//! own writes it over again, and it is taken away before the launch's reply is written. No reply depends on it. Where
//! the clock can't be read or the thread can't be started, nothing is told.
#![tactic(auto)]

use cli::{Gate, Watch};
use clmodel::setup::Range;
use host_commands::command::Command;
use std::rt::Clock;
use std::sync::atomic::{AtomicU64, Ordering};
use std::sync::{Condvar, Mutex, Wait};
use std::time::{Duration, Instant};

/// How many seconds a launch takes before it is told of.
const SECONDS: u64 = 2;

/// How many milliseconds lie between two looks at a launch.
const MILLISECONDS: u64 = 250;

/// Blanks over the line, which has at most 39 letters: a launch that runs has at most 67,108,864 groups. The next
/// letter is written at the line's begin.
const BLANKS: &str = "\r                                        \r";

/// A launch that runs.
#[derive(Clone, Copy)]
struct Running {
    /// When it began
    start: Instant,
    /// How many groups it has
    groups: u64,
    /// Whether a line tells of it
    told: bool,
}

/// What there is to tell of.
#[derive(Drop)]
struct Sight {
    /// The launch that runs, where one does and the clock could be read when it began
    running: Option<Running>,
    /// Whether no further launch comes
    over: bool,
}

/// Who counts the groups of each launch that are done, and tells of them.
#[derive(Drop)]
pub(crate) struct Progress<'a, R: Wait> {
    rt: &'a R,
    /// How many groups of the launch that runs are done, or were left out
    done: AtomicU64,
    sight: Mutex<Sight>,
    /// Whoever waits for the end is told of it
    end: Condvar,
}

/// How many groups a launch over a range has, and 0 where a local size is 0: such a launch is refused.
fn groups_of(range: &Range) -> u64 {
    let items = range.global.product();
    items.checked_div(range.local.product()).unwrap_or(0)
}

/// A launch of so many groups that begins now, where the clock can be read.
fn begun(clock: &impl Clock, groups: u64) -> Option<Running> {
    let start = Instant::now(clock).ok()?;
    Some(Running {
        start,
        groups,
        told: false,
    })
}

/// Whether a launch that began then has taken long. Where the clock can't be read it hasn't.
fn takes_long(clock: &impl Clock, start: Instant) -> bool {
    match Instant::now(clock) {
        Ok(now) => now.duration_since(start).as_secs() >= SECONDS,
        Err(_) => false,
    }
}

impl<'a, R: Clock + Eprint + Wait> Progress<'a, R> {
    /// Before the first launch.
    pub(crate) fn new(rt: &'a R) -> Self {
        Progress {
            rt,
            done: AtomicU64::new(0),
            sight: Mutex::new(Sight {
                running: None,
                over: false,
            }),
            end: Condvar::new(),
        }
    }

    /// Tells how far the launch that runs has come, if it has taken long.
    fn tell(&self, sight: &mut Sight) {
        let Some(running) = sight.running else {
            return;
        };
        if takes_long(self.rt, running.start) {
            let (rt, done) = (self.rt, self.done.load(Ordering::SeqCst));
            let _ = eprint!(rt; "\rclsim: {done} of {} groups done", running.groups);
            sight.running = Some(Running {
                told: true,
                ..running
            });
        }
    }

    /// Tells of each launch that takes long, until no further one comes.
    pub(crate) fn tell_all(&self) {
        let each = Duration::from_millis(MILLISECONDS);
        let mut sight = self.sight.lock(self.rt);
        for _ in self.rt.forever() {
            if sight.over {
                return;
            }
            self.tell(&mut *sight);
            sight = self.end.wait_timeout(self.rt, sight, each).0;
        }
    }

    /// No further launch comes.
    pub(crate) fn finish(&self) {
        let mut sight = self.sight.lock(self.rt);
        sight.over = true;
        drop(sight);
        self.end.notify_all();
    }

    /// Sets which launch runs, and takes the line of the one before it away.
    fn change(&self, running: Option<Running>) {
        let mut sight = self.sight.lock(self.rt);
        if let Some(before) = sight.running {
            if before.told {
                let _ = self.rt.eprint(BLANKS);
            }
        }
        sight.running = running;
    }
}

impl<R: Clock + Eprint + Wait + Sync> Gate for Progress<'_, R> {
    fn enter(&self, _group: u32) {}

    fn leave(&self, _group: u32) {
        self.done.fetch_add(1, Ordering::SeqCst);
    }
}

impl<R: Clock + Eprint + Wait + Sync> Watch for Progress<'_, R> {
    fn begin(&self, command: &Command) {
        if let Command::Launch { range, .. } = command {
            self.done.store(0, Ordering::SeqCst);
            self.change(begun(self.rt, groups_of(range)));
        }
    }

    fn end(&self) {
        self.change(None);
    }
}
