//! Which buffers may hold other bytes.
#![tactic(auto)]

ghost use Rattle.std.specs.Prelude.{◌≡◌, ℕ, List, [], true, not, ◌&&◌, ◌||◌, if◌then◌else◌, Some, IfOk, OnOk, IsTrue};
ghost use Rattle.std.specs.List.{list_any};
ghost use Rattle.spaces.specs.Tables.{is, find};
ghost use Rattle.widening.specs.Widened.{is_free_at};
ghost use Rattle.wide_scripts.specs.Notes.{Includes, are_free, behind, is_free_name, marked, may_pass, may_read};

use crate::note::Note;
use clmodel::text::Name;
use spaces::Table;
use std::alloc::{AllocError, Global};

/// Whether something is free, by its place.
pub(crate) fn is_free(free: &[bool], place: usize) -> bool
    ensures { result ≡ is_free_at free.now place }
{
    match free.get(place) {
        Some(free) => *free,
        None => false,
    }
}

/// Puts a value at a name, over an earlier one. An error is out of memory.
pub(crate) fn put<T: Drop>(
    alloc: Global,
    table: &mut Table<T>,
    name: &Name,
    value: T,
) -> Result<(), AllocError>
    ensures { OnOk result ((other : List ℕ) → find table.new other ≡ (if is name.now other then Some value else find table.old other)) }
{
    if table.get(name).is_some() {
        table.replace(name, value);
        Ok(())
    } else {
        table.insert(name.copied(alloc)?, value)
    }
}

/// Buffers that may hold other bytes than they do, by their names: those with a mark that is set.
#[derive(Drop)]
pub(crate) struct Taint {
    alloc: Global,
    marks: Table<bool>,
}

impl Taint {
    /// No buffer may hold other bytes.
    pub(crate) fn new(alloc: Global) -> Self
        ensures { result.marks ≡ [] }
    {
        Taint {
            alloc,
            marks: Table::new(alloc),
        }
    }

    /// Whether a buffer may hold other bytes.
    fn has(&self, name: &Name) -> bool
        ensures { result ≡ marked self.now.marks name.now }
    {
        match self.marks.get(name) {
            Some(mark) => *mark,
            None => false,
        }
    }

    /// Marks a buffer. An error is out of memory.
    fn mark(&mut self, name: &Name) -> Result<(), AllocError>
        ensures { OnOk result ((other : List ℕ) → (is name.now other || marked self.old.marks other) ≡ true → marked self.new.marks other ≡ true) }
    {
        put(self.alloc, &mut self.marks, name, true)
    }

    /// Marks a buffer, where it may hold other bytes now. An error is out of memory.
    fn mark_if(&mut self, name: &Name, may: bool) -> Result<(), AllocError>
        ensures { OnOk result ((other : List ℕ) → ((may && is name.now other) || marked self.old.marks other) ≡ true → marked self.new.marks other ≡ true) }
    {
        if may { self.mark(name) } else { Ok(()) }
    }

    /// Takes the mark of a buffer away. An error is out of memory.
    fn unmark(&mut self, name: &Name) -> Result<(), AllocError>
        ensures { OnOk result ((other : List ℕ) → (not (is name.now other) && marked self.old.marks other) ≡ true → marked self.new.marks other ≡ true) }
    {
        put(self.alloc, &mut self.marks, name, false)
    }

    /// Whether one of these buffers has a mark.
    fn has_any(&self, names: &[Name]) -> bool
        ensures { result ≡ list_any (marked self.now.marks) names.now }
    {
        names.iter().any(|name| self.has(name))
    }

    /// Whether a buffer of a launch, which is free or not, has no mark or is free.
    fn lets(&self, name: &Name, free: bool) -> bool
        ensures { result ≡ (not (marked self.now.marks name.now) || free) }
    {
        !self.has(name) || free
    }

    /// Whether each of a launch's buffers that has a mark is free, by its place.
    fn are_free(&self, names: &[Name], free: &[bool]) -> bool
        ensures { IsTrue result → are_free (marked self.now.marks) names.now free.now ≡ true }
    {
        for number in 0..names.len() {
            if !self.lets(&names[number], is_free(free, number)) {
                return false;
            }
        }
        true
    }

    /// Marks those of a launch's buffers that are free, by their places. An error is out of memory.
    fn mark_free(&mut self, names: &[Name], free: &[bool]) -> Result<(), AllocError>
        ensures { OnOk result ((other : List ℕ) → (is_free_name names.now free.now other || marked self.old.marks other) ≡ true → marked self.new.marks other ≡ true) }
    {
        for number in 0..names.len() {
            self.mark_if(&names[number], is_free(free, number))?;
        }
        Ok(())
    }

    /// Passes a launch with these buffers, of which some are free, by their places: whether it may be passed. An error
    /// is out of memory.
    fn pass_launch(&mut self, names: &[Name], free: &[bool]) -> Result<bool, AllocError>
        ensures may { IfOk result (λ passed. IsTrue passed → are_free (marked self.old.marks) names.now free.now ≡ true) }
        ensures marks { IfOk result (λ passed. IsTrue passed → (other : List ℕ) → ((list_any (marked self.old.marks) names.now && is_free_name names.now free.now other) || marked self.old.marks other) ≡ true → marked self.new.marks other ≡ true) }
    {
        if !self.has_any(names) {
            return Ok(true);
        }
        if !self.are_free(names, free) {
            return Ok(false);
        }
        self.mark_free(names, free)?;
        Ok(true)
    }

    /// Passes a command, which is free or not: whether it may be passed, and then the buffers that may hold other bytes
    /// behind it have marks. An error is out of memory.
    pub(crate) fn pass(&mut self, note: &Note, free: bool) -> Result<bool, AllocError>
        ensures may { IfOk result (λ passed. IsTrue passed → may_pass (marked self.old.marks) note.now ≡ true) }
        ensures marks { IfOk result (λ passed. IsTrue passed → Includes (marked self.new.marks) (behind free note.now (marked self.old.marks))) }
    {
        match note {
            Note::Other | Note::Read { .. } => Ok(true),
            Note::Made { buffer } => {
                self.unmark(buffer)?;
                Ok(true)
            }
            Note::Put { buffer } => {
                self.mark_if(buffer, free)?;
                Ok(true)
            }
            Note::Copied { source, target } => {
                let may = self.has(source);
                self.mark_if(target, may)?;
                Ok(true)
            }
            Note::Launched { buffers, wide } => {
                self.pass_launch(buffers.as_slice(), wide.buffers.as_slice())
            }
        }
    }

    /// Whether the bytes that a command reads may differ.
    pub(crate) fn may_read(&self, note: &Note) -> bool
        ensures { result ≡ may_read (marked self.now.marks) note.now }
    {
        match note {
            Note::Read { buffer } => self.has(buffer),
            Note::Other
            | Note::Made { .. }
            | Note::Put { .. }
            | Note::Copied { .. }
            | Note::Launched { .. } => false,
        }
    }
}
