//! Until when orders are played: some seconds by the system's clock, or without an end.
#![tactic(auto)]

use exploring::Clock;
use std::rt;
use std::time::Instant;

/// The end of some seconds. A clock that can't be read has come to it.
#[derive(Drop)]
pub(crate) struct Deadline<'a, R> {
    rt: &'a R,
    seconds: Option<usize>,
    /// When the seconds began, where the clock told it
    start: Option<Instant>,
}

impl<'a, R: rt::Clock> Deadline<'a, R> {
    /// The end of so many seconds from now on, or none.
    pub(crate) fn new(rt: &'a R, seconds: Option<usize>) -> Self {
        Deadline {
            rt,
            seconds,
            start: Instant::now(rt).ok(),
        }
    }
}

/// Whether so many seconds have passed since a start, or the clock can't be read.
fn have_passed(clock: &impl rt::Clock, start: Option<Instant>, seconds: usize) -> bool {
    let Some(start) = start else {
        return true;
    };
    match Instant::now(clock) {
        Ok(now) => now.duration_since(start).as_secs() >= seconds as u64,
        Err(_) => true,
    }
}

impl<R: rt::Clock> Clock for Deadline<'_, R> {
    fn is_over(&mut self) -> bool {
        match self.seconds {
            Some(seconds) => have_passed(self.rt, self.start, seconds),
            None => false,
        }
    }
}
