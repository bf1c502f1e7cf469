//! What is told of the launches of a script.
#![tactic(auto)]

use crate::data::{FreeBuffer, WideLaunch};
use crate::gathering::reply_words;
use clmodel::text::Name;
use device::{Command, Limits, Reply};
use placed_scripts::PlacedScript;
use spaces::Table;
use std::alloc::{AllocError, Global};
use wide_scripts::{Note, Wide, WideScript};
use wide_sources::{Sources, all_deciding, free_arguments, is_set, text_of};

/// A script that was performed: its commands, the text by which it is told, their replies and what is noted of them.
#[derive(Clone, Copy)]
pub(crate) struct Performed<'a> {
    pub(crate) commands: &'a [Command],
    pub(crate) told: PlacedScript<'a>,
    pub(crate) wide: &'a WideScript,
}

/// Of each buffer the line of its earliest write or fill since which no launch depends on its bytes.
#[derive(Drop)]
struct Writes {
    alloc: Global,
    lines: Table<Option<usize>>,
}

impl Writes {
    fn new(alloc: Global) -> Self {
        Writes {
            alloc,
            lines: Table::new(alloc),
        }
    }

    /// The line of a buffer.
    fn line(&self, buffer: &Name) -> Option<usize> {
        match self.lines.get(buffer) {
            Some(line) => *line,
            None => None,
        }
    }

    /// Sets the line of a buffer. An error is out of memory.
    fn set(&mut self, buffer: &Name, line: Option<usize>) -> Result<(), AllocError> {
        if self.lines.get(buffer).is_some() {
            self.lines.replace(buffer, line);
            Ok(())
        } else {
            self.lines.insert(buffer.copied(self.alloc)?, line)
        }
    }

    /// Goes over a command that was done, and stands at a line. An error is out of memory.
    fn pass(&mut self, note: &Note, line: usize) -> Result<(), AllocError> {
        match note {
            Note::Made { buffer } => self.set(buffer, None),
            Note::Put { buffer } => {
                let first = self.line(buffer).or(Some(line));
                self.set(buffer, first)
            }
            Note::Launched { buffers, wide } => {
                self.launched(buffers.as_slice(), wide.buffers.as_slice())
            }
            Note::Other | Note::Copied { .. } | Note::Read { .. } => Ok(()),
        }
    }

    /// Goes over a launch, which depends on the bytes of each buffer that isn't free. An error is out of memory.
    fn launched(&mut self, buffers: &[Name], free: &[bool]) -> Result<(), AllocError> {
        for (place, buffer) in buffers.iter().enumerate() {
            if !is_set(free, place) {
                self.set(buffer, None)?;
            }
        }
        Ok(())
    }

    /// The buffers of a launch that are free. An error is out of memory.
    fn free(&self, buffers: &[Name], free: &[bool]) -> Result<Vec<FreeBuffer>, AllocError> {
        let mut found = Vec::new(self.alloc);
        for (place, buffer) in buffers.iter().enumerate() {
            if is_set(free, place) {
                found.push(FreeBuffer {
                    name: text_of(self.alloc, buffer)?,
                    from: self.line(buffer),
                })?;
            }
        }
        Ok(found)
    }
}

/// A walk over a script, which gathers what is told of its launches.
#[derive(Drop)]
struct Walk<'a> {
    alloc: Global,
    performed: Performed<'a>,
    sources: Sources<'a>,
    writes: Writes,
}

impl<'a> Walk<'a> {
    /// The line of the command of a number.
    fn line(&self, number: usize) -> usize {
        match self.performed.told.places.get(number) {
            Some(place) => place.line,
            None => 0,
        }
    }

    /// What is told of a launch of a kernel. An error is out of memory.
    fn launch(
        &mut self,
        number: usize,
        kernel: &Name,
        reply: &Reply,
        buffers: &[Name],
        wide: &Wide,
    ) -> Result<WideLaunch, AllocError> {
        let alloc = self.alloc;
        let script_line = self.line(number);
        let free = self.writes.free(buffers, wide.buffers.as_slice())?;
        let source = self.sources.of(kernel)?;
        Ok(WideLaunch {
            command: number,
            script_line,
            reply: reply_words(alloc, reply)?,
            buffers: free,
            arguments: free_arguments(alloc, source.as_ref(), wide.arguments.as_slice())?,
            deciding: all_deciding(alloc, source.as_ref(), buffers, wide.decisions.as_slice())?,
        })
    }

    /// What is told of the command of a number, if it is a launch. An error is out of memory.
    fn told(&mut self, number: usize) -> Result<Option<WideLaunch>, AllocError> {
        let performed = self.performed;
        let (Some(Command::Launch { kernel, .. }), Some(reply), Some(note)) = (
            performed.commands.get(number),
            performed.wide.replies.get(number),
            performed.wide.notes.get(number),
        ) else {
            return Ok(None);
        };
        match note {
            Note::Launched { buffers, wide } => {
                Ok(Some(self.launch(number, kernel, reply, buffers.as_slice(), wide)?))
            }
            _ => Ok(None),
        }
    }

    /// Goes over the command of a number. An error is out of memory.
    fn pass(&mut self, number: usize) -> Result<(), AllocError> {
        let performed = self.performed;
        if let Some(Reply::Refused(_)) = performed.wide.replies.get(number) {
            return Ok(());
        }
        self.sources.pass(number)?;
        let line = self.line(number);
        match performed.wide.notes.get(number) {
            Some(note) => self.writes.pass(note, line),
            None => Ok(()),
        }
    }
}

/// What is told of each launch of a script that wasn't refused, in their order. An error is out of memory. It takes
/// the time of the commands, and for each program whose source is told that of its build.
pub(crate) fn launches_of(
    alloc: Global,
    limits: Limits,
    performed: Performed<'_>,
) -> Result<Vec<WideLaunch>, AllocError> {
    let mut walk = Walk {
        alloc,
        performed,
        sources: Sources::new(alloc, limits, performed.commands, performed.told),
        writes: Writes::new(alloc),
    };
    let mut launches = Vec::new(alloc);
    for number in 0..performed.commands.len() {
        if let Some(launch) = walk.told(number)? {
            launches.push(launch)?;
        }
        walk.pass(number)?;
    }
    Ok(launches)
}
