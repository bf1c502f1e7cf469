//! What is told on standard error. Where it can't be written, only the status shows it.
#![tactic(auto)]

use crate::looks::Looks;
use crate::named_file::{NamedFile, STANDARD_INPUT, reason_of};
use build_hints::{Refusal, Refused, refusal_of};
use host_commands::build::{NotBuilt, build};
use host_commands::command::BuildFault;
use limits::Limits;
use simfile::faults::RunFault;
use std::alloc::Global;
use std::io;
use std::rt::Files;

/// Where a line of a script of version 3 is bad.
#[derive(Clone, Copy)]
pub(crate) struct Place {
    pub(crate) line: usize,
    pub(crate) column: usize,
}

/// What is told of a command that came to no end.
#[derive(Clone, Copy)]
pub(crate) struct Told<'a> {
    /// The file, as it was named
    pub(crate) file: &'a str,
    /// What its text looks like
    pub(crate) looks: Looks,
    /// Whether the reader of standard output is gone
    pub(crate) gone: bool,
    /// The bad line of a script of version 3, which was read to its end and has no plain text
    pub(crate) bad: Option<Place>,
}

/// What is told of a command that read a file, where the reader of its output is gone or not.
pub(crate) fn told_of<'a, R: Files + io::Input>(file: &NamedFile<'a, R>, gone: bool) -> Told<'a> {
    Told {
        file: file.path(),
        looks: file.looks(),
        gone,
        bad: None,
    }
}

/// The name by which a file is told.
fn name_of(file: &str) -> &str {
    if file == STANDARD_INPUT {
        "standard input"
    } else {
        file
    }
}

/// Tells why the system gives no bytes of a file, where it says so again.
fn tell_reason<R: Files + Eprint>(rt: &R, file: &str) {
    if let Some(reason) = reason_of(rt, file) {
        let _ = eprintln!(rt; "clsim: {reason}");
    }
}

/// Tells which line of a script of version 3 is bad, and where it stands.
fn tell_bad(rt: &impl Eprint, name: &str, place: Place) {
    let _ = eprintln!(rt;
        "clsim: {}\nclsim: {name}:{}:{}",
        RunFault::BadLine(place.line),
        place.line,
        place.column
    );
}

/// Tells why a command came to no end. Of a file that can't be read the system's reason stands in a second line, of a
/// script with a bad line that it looks like a source. Nothing is told where the reader of standard output is gone: it
/// has read what it wanted.
pub(crate) fn tell<R: Files + Eprint>(rt: &R, fault: RunFault, told: Told<'_>) {
    let name = name_of(told.file);
    if let Some(place) = told.bad {
        return tell_bad(rt, name, place);
    }
    match fault {
        RunFault::Read(_) => {
            let _ = eprintln!(rt; "clsim: {fault} {name}");
            tell_reason(rt, told.file);
        }
        RunFault::Write if told.gone => {}
        RunFault::BadLine(_) if told.looks == Looks::Source => {
            let _ = eprintln!(rt;
                "clsim: {fault}\nclsim: {name} looks like a source, not like a script: clsim check {}",
                told.file
            );
        }
        _ => {
            let _ = eprintln!(rt; "clsim: {fault}");
        }
    }
}

/// Tells of a source with a fault that it looks like a script.
pub(crate) fn tell_script(rt: &impl Eprint, told: Told<'_>) {
    if told.looks == Looks::Script {
        let name = name_of(told.file);
        let _ = eprintln!(rt;
            "clsim: {name} looks like a script, not like a source: clsim run {}",
            told.file
        );
    }
}

/// The fault of a build, as hints take it.
fn refused_of(fault: BuildFault) -> Refused {
    match fault {
        BuildFault::Syntax(fault) => Refused::Syntax(fault),
        BuildFault::Type(fault) => Refused::Type(fault),
    }
}

/// The fault of a source, where it has one and memory is left, with the line and the column where it stands.
fn refusal_in(alloc: Global, limits: Limits, source: &[u8]) -> Option<Refusal> {
    match build(alloc, limits, source) {
        Err(NotBuilt::Fault(fault)) => refusal_of(alloc, source, 1, refused_of(fault)).ok(),
        _ => None,
    }
}

/// Tells at which line and column the fault of a source stands.
pub(crate) fn tell_place<R: Eprint + AllocGlobal>(
    rt: &R,
    limits: Limits,
    file: &str,
    source: &[u8],
) {
    if let Some(refusal) = refusal_in(rt.alloc(), limits, source) {
        let name = name_of(file);
        let _ = eprintln!(rt; "clsim: {name}:{}:{}", refusal.line, refusal.column);
    }
}
