//! Which commands may be free. Nothing rests on it: what is found is checked.
#![tactic(auto)]

use crate::note::Note;
use crate::taint::{is_free, put};
use clmodel::text::Name;
use spaces::Table;
use std::alloc::{AllocError, Global};

/// From where what a buffer holds may come: a write or a fill, by its place, or either of two others.
#[derive(Clone, Copy)]
enum Origin {
    Command(usize),
    Both(usize, usize),
}

/// From where what each buffer holds may come, along a script. An origin is told by its place in a list, in which those
/// that it comes from stand before it.
#[derive(Drop)]
struct Trace {
    alloc: Global,
    origins: Vec<Origin>,
    /// Of each origin whether a launch depends on it
    decide: Vec<bool>,
    buffers: Table<Option<usize>>,
}

/// Sets a flag, where there is one.
fn set(flags: &mut [bool], place: usize, flag: bool) {
    if place < flags.len() {
        flags[place] = flag;
    }
}

impl Trace {
    fn new(alloc: Global) -> Self {
        Trace {
            alloc,
            origins: Vec::new(alloc),
            decide: Vec::new(alloc),
            buffers: Table::new(alloc),
        }
    }

    /// The origin of what a buffer holds, if a command may have put it there.
    fn of(&self, buffer: &Name) -> Option<usize> {
        match self.buffers.get(buffer) {
            Some(origin) => *origin,
            None => None,
        }
    }

    /// Adds an origin. An error is out of memory.
    fn add(&mut self, origin: Origin) -> Result<usize, AllocError> {
        let place = self.origins.len();
        self.origins.push(origin)?;
        self.decide.push(false)?;
        Ok(place)
    }

    /// The origin of what comes from either of two, as far as they are there. An error is out of memory.
    fn either(
        &mut self,
        one: Option<usize>,
        other: Option<usize>,
    ) -> Result<Option<usize>, AllocError> {
        match (one, other) {
            (Some(one), Some(other)) if one != other => {
                Ok(Some(self.add(Origin::Both(one, other))?))
            }
            (Some(one), _) => Ok(Some(one)),
            (None, other) => Ok(other),
        }
    }

    /// A buffer may also hold what comes from this. An error is out of memory.
    fn comes(&mut self, buffer: &Name, from: Option<usize>) -> Result<(), AllocError> {
        let before = self.of(buffer);
        let both = self.either(before, from)?;
        put(self.alloc, &mut self.buffers, buffer, both)
    }

    /// From where what the buffers of a launch hold may come. An error is out of memory.
    fn of_all(&mut self, names: &[Name]) -> Result<Option<usize>, AllocError> {
        let mut all = None;
        for name in names {
            let one = self.of(name);
            all = self.either(all, one)?;
        }
        Ok(all)
    }

    /// Goes over a launch: what its free buffers hold may come from what any of its buffers held, and what the others
    /// hold decides. An error is out of memory.
    fn launched(&mut self, names: &[Name], free: &[bool]) -> Result<(), AllocError> {
        let all = self.of_all(names)?;
        for (place, name) in names.iter().enumerate() {
            if is_free(free, place) {
                put(self.alloc, &mut self.buffers, name, all)?;
            } else if let Some(origin) = self.of(name) {
                set(self.decide.as_mut_slice(), origin, true);
            }
        }
        Ok(())
    }

    /// Goes over a command of a place. An error is out of memory.
    fn pass(&mut self, note: &Note, place: usize) -> Result<(), AllocError> {
        match note {
            Note::Other | Note::Read { .. } => Ok(()),
            Note::Made { buffer } => put(self.alloc, &mut self.buffers, buffer, None),
            Note::Put { buffer } => {
                let origin = self.add(Origin::Command(place))?;
                self.comes(buffer, Some(origin))
            }
            Note::Copied { source, target } => {
                let origin = self.of(source);
                self.comes(target, origin)
            }
            Note::Launched { buffers, wide } => {
                self.launched(buffers.as_slice(), wide.buffers.as_slice())
            }
        }
    }

    /// Takes the flags of those commands away on which a launch depends: from the last origin to the first.
    fn settle(&mut self, free: &mut [bool]) {
        for place in (0..self.origins.len()).rev() {
            if is_free(self.decide.as_slice(), place) {
                match self.origins[place] {
                    Origin::Command(command) => set(free, command, false),
                    Origin::Both(one, other) => {
                        set(self.decide.as_mut_slice(), one, true);
                        set(self.decide.as_mut_slice(), other, true);
                    }
                }
            }
        }
    }
}

/// Of each command of a script whether it is a write or a fill on whose bytes no launch depends, as far as its free
/// buffers say. These are all that a walk passes: what may differ by several commands is what may by any of them. It
/// takes time in proportion to the commands and to the buffers of the launches. An error is out of memory.
pub(crate) fn free_commands(alloc: Global, notes: &[Note]) -> Result<Vec<bool>, AllocError> {
    let mut trace = Trace::new(alloc);
    let mut free = Vec::new(alloc);
    for (place, note) in notes.iter().enumerate() {
        trace.pass(note, place)?;
        free.push(matches!(note, Note::Put { .. }))?;
    }
    trace.settle(free.as_mut_slice());
    Ok(free)
}
