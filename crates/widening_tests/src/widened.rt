//! A kernel of a source, and what its launch doesn't depend on.

use clmodel::setup::Argument;
use clmodel::text::Name;
use host_commands::build::build;
use limits::Limits;
use lower::lower_kernel;
use regcode::Code;
use renumbering::renumber;
use std::alloc::Global;
use widening::{Source, Why, Wide, widen};

/// The code of the kernel `k` of a source, as a launch runs it. None where it can't be built.
fn code_of(alloc: Global, source: &str) -> Option<Code> {
    let program = build(alloc, Limits::profile(), source.as_bytes()).ok()?;
    let code = lower_kernel(alloc, &program, program.kernel(b"k")?).ok()?;
    renumber(alloc, code).ok()
}

/// An argument by its letter: a number (`N`), local memory (`L`), or the buffer of this name.
fn argument_of(alloc: Global, letter: u8) -> Option<Argument> {
    match letter {
        b'N' => Some(Argument::Value(1)),
        b'L' => Some(Argument::Local(64)),
        _ => Some(Argument::Buffer(Name::copy_of(alloc, &[letter]).ok()?)),
    }
}

/// Arguments by their letters.
fn arguments_of(alloc: Global, letters: &str) -> Option<Vec<Option<Argument>>> {
    let mut arguments = Vec::new(alloc);
    for letter in letters.as_bytes() {
        arguments.push(Some(argument_of(alloc, *letter)?)).ok()?;
    }
    Some(arguments)
}

/// The names of buffers among arguments, each of which has another letter.
fn names_of(alloc: Global, letters: &str) -> Option<Vec<Name>> {
    let mut names = Vec::new(alloc);
    for letter in letters.as_bytes() {
        if *letter != b'N' && *letter != b'L' {
            names.push(Name::copy_of(alloc, &[*letter]).ok()?).ok()?;
        }
    }
    Some(names)
}

/// What a launch of the kernel `k` of a source doesn't depend on, with these arguments.
fn widened(alloc: Global, source: &str, letters: &str, uniform: bool) -> Option<Wide> {
    let code = code_of(alloc, source)?;
    let arguments = arguments_of(alloc, letters)?;
    let names = names_of(alloc, letters)?;
    widen(
        alloc,
        &code,
        names.as_slice(),
        arguments.as_slice(),
        uniform,
    )
    .ok()?
}

/// Whether exactly these buffers are free, a flag for each in the order of their arguments, and these arguments.
fn are_free(wide: &Wide, buffers: &[bool], arguments: &[bool]) -> bool {
    wide.buffers.as_slice() == buffers && wide.arguments.as_slice() == arguments
}

/// Whether exactly these buffers and arguments are free in a launch that isn't uniform.
pub(crate) fn frees(
    alloc: Global,
    source: &str,
    letters: &str,
    buffers: &[bool],
    arguments: &[bool],
) -> bool {
    match widened(alloc, source, letters, false) {
        Some(wide) => are_free(&wide, buffers, arguments),
        None => false,
    }
}

/// The same in a uniform launch.
pub(crate) fn frees_uniform(
    alloc: Global,
    source: &str,
    letters: &str,
    buffers: &[bool],
    arguments: &[bool],
) -> bool {
    match widened(alloc, source, letters, true) {
        Some(wide) => are_free(&wide, buffers, arguments),
        None => false,
    }
}

/// Whether a source decides for this reason, and nothing else decides.
pub(crate) fn only_decides(
    alloc: Global,
    source: &str,
    letters: &str,
    decides: Source,
    why: Why,
) -> bool {
    match widened(alloc, source, letters, false) {
        Some(wide) => {
            wide.decisions.len() == 1
                && wide.decisions[0].source == decides
                && wide.decisions[0].why == why
        }
        None => false,
    }
}
