//! What is told of arguments that are free, and of sources that decide.
#![tactic(auto)]

use crate::data::{Deciding, FreeArgument};
use crate::sources::LaunchSource;
use clmodel::text::Name;
use std::alloc::{AllocError, Global};
use widening::{Decision, Source};

/// The text of a name. An error is out of memory.
pub fn text_of(alloc: Global, name: &Name) -> Result<String, AllocError> {
    String::from_utf8_lossy(alloc, name.as_slice())
}

/// The name of an argument's parameter, if its source is known. An error is out of memory.
fn parameter_of(
    alloc: Global,
    source: Option<&LaunchSource<'_>>,
    index: usize,
) -> Result<String, AllocError> {
    match source {
        Some(source) => source.parameter(alloc, index),
        None => Ok(String::new(alloc)),
    }
}

/// The arguments of a launch that are free. An error is out of memory.
pub fn free_arguments(
    alloc: Global,
    source: Option<&LaunchSource<'_>>,
    free: &[bool],
) -> Result<Vec<FreeArgument>, AllocError> {
    let mut found = Vec::new(alloc);
    for (index, is_free) in free.iter().enumerate() {
        if *is_free {
            found.push(FreeArgument {
                index,
                name: parameter_of(alloc, source, index)?,
            })?;
        }
    }
    Ok(found)
}

/// The name of what decides, and its index, where it is an argument. An error is out of memory.
fn named(
    alloc: Global,
    source: Option<&LaunchSource<'_>>,
    buffers: &[Name],
    deciding: Source,
) -> Result<(String, Option<usize>), AllocError> {
    match deciding {
        Source::Buffer(place) => match buffers.get(place) {
            Some(buffer) => Ok((text_of(alloc, buffer)?, None)),
            None => Ok((String::new(alloc), None)),
        },
        Source::Argument(index) => Ok((parameter_of(alloc, source, index)?, Some(index))),
    }
}

/// What is told of a source that decides. An error is out of memory.
fn deciding_of(
    alloc: Global,
    source: Option<&LaunchSource<'_>>,
    buffers: &[Name],
    decision: &Decision,
) -> Result<Deciding, AllocError> {
    let (name, index) = named(alloc, source, buffers, decision.source)?;
    let (code, file) = match source {
        Some(source) => (
            source.code(alloc, decision.place, decision.why)?,
            source.file(alloc)?,
        ),
        None => (None, None),
    };
    Ok(Deciding {
        name,
        index,
        why: decision.why,
        code,
        file,
    })
}

/// What is told of the sources that decide. An error is out of memory.
pub fn all_deciding(
    alloc: Global,
    source: Option<&LaunchSource<'_>>,
    buffers: &[Name],
    decisions: &[Decision],
) -> Result<Vec<Deciding>, AllocError> {
    let mut all = Vec::new(alloc);
    for decision in decisions {
        all.push(deciding_of(alloc, source, buffers, decision)?)?;
    }
    Ok(all)
}
