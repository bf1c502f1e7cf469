//! Launches that are run with each of the three access logs, which have to come to the same: those of standard input,
//! and a thousand small ones that are made by chance. Of each launch the results of its groups are compared, the
//! accesses in the two logs that are lists, and what it comes to when the groups are joined; and the comparisons that
//! the log with pages counts, with the accesses on the page.
#![tactic(auto)]

mod chance;
mod comparing;
mod counting;
mod failing;
mod inputs;
mod launching;
mod logs;
mod results;
mod row;
mod telling;

use crate::chance::Chance;
use crate::comparing::Compared;
use crate::failing::NotRun;
use crate::launching::compare_row;
use crate::row::Row;
use std::alloc::Global;

/// The seed of the launches that are made by chance.
const SEED: u64 = 20_261_126;

/// How many of them there are.
const LAUNCHES: u32 = 1000;

/// How many of them at least have to be clean, and to have a fault.
const EACH: u32 = 100;

/// How many launches ran.
#[derive(Clone, Copy)]
struct Counts {
    launches: u32,
    /// How many of them came to the same with all logs
    same: u32,
    clean: u32,
}

impl Counts {
    /// No launches.
    fn none() -> Self {
        Counts {
            launches: 0,
            same: 0,
            clean: 0,
        }
    }

    /// With a launch more.
    fn with(self, compared: &Compared) -> Self {
        Counts {
            launches: self.launches.saturating_add(1),
            same: self.same.saturating_add(u32::from(compared.is_same)),
            clean: self.clean.saturating_add(u32::from(compared.is_clean())),
        }
    }

    /// Writes how many launches came to the same.
    fn print<R: Print>(self, rt: &R, which: &str) {
        let Counts { launches, same, .. } = self;
        let _ = println!(rt; "{which}: {launches} launches, {same} the same with all logs");
    }
}

/// Runs a row, and writes what it comes to.
fn run_row<R: Print>(rt: &R, alloc: Global, row: &Row<'_>) -> Result<Compared, NotRun> {
    let compared = compare_row(alloc, row)?;
    let title = String::from_utf8_lossy(alloc, row.title)?;
    let outcome = String::from_utf8_lossy(alloc, compared.outcome.as_slice())?;
    let verdict = if compared.is_same {
        "same"
    } else {
        "not the same"
    };
    let _ = print!(rt; "{title}: {verdict}: {outcome}");
    Ok(compared)
}

/// Runs the rows of standard input.
fn run_rows<R: Input + Print>(rt: &R, alloc: Global) -> Result<Counts, NotRun> {
    let mut counts = Counts::none();
    for line in rt.lines(alloc) {
        let Ok(line) = line else {
            return Err(NotRun);
        };
        counts = counts.with(&run_row(rt, alloc, &Row::read(line.as_bytes()))?);
    }
    Ok(counts)
}

/// Runs launches that are made by chance.
fn run_by_chance(alloc: Global) -> Result<Counts, NotRun> {
    let mut chance = Chance::new(SEED);
    let mut counts = Counts::none();
    for _ in 0..LAUNCHES {
        counts = counts.with(&chance.compare(alloc)?);
    }
    Ok(counts)
}

/// Runs all, and writes what came of it.
fn run<R: Input + Print>(rt: &R, alloc: Global) -> Result<(), NotRun> {
    run_rows(rt, alloc)?.print(rt, "rows");
    let counts = run_by_chance(alloc)?;
    let _ = println!(rt; "seed: {SEED}");
    counts.print(rt, "by chance");
    let faulted = counts.launches.saturating_sub(counts.clean);
    let each = if counts.clean >= EACH && faulted >= EACH {
        "yes"
    } else {
        "no"
    };
    let _ = println!(rt; "at least {EACH} of them clean, at least as many with a fault: {each}");
    Ok(())
}

/// Runs all launches with each log. An error comes where a line of standard input isn't read, or a launch isn't run.
fn main(rt: HostRuntime) -> Result<(), NotRun> {
    run(&rt, rt.alloc())
}
