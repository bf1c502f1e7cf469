//! The filter.

ghost use Rattle.std.specs.Prelude.{◌≡◌, [], false, true, IfOk};
ghost use Rattle.clmodel.specs.Launch.{Launch};
ghost use Rattle.race_filter.specs.Filters.{IsNotedAt, IsPassed, Keeps};
ghost use Rattle.race_filter.specs.Sorts.{is_of_byte};
ghost use Rattle.race_filter.specs.Words.{is_on_two_words};

use crate::kept::{Kept, are_of_bytes, is_let, is_of_byte, next_kept};
use crate::part::{Part, byte_in, first_word, is_on_two_words, last_word, word_in};
use clmodel::access::Access;
use std::alloc::{AllocError, Global};
use std::collections::HashMap;

/// What was found where an access was noted.
#[derive(Clone, Copy)]
pub struct Noted {
    /// It races with none of the accesses there
    pub quiet: bool,
    /// They touch one byte each
    pub of_bytes: bool,
}

/// What the accesses so far have in common, word by word, and of those that touch one byte also byte by byte.
#[derive(Drop)]
pub struct RaceFilter {
    parts: HashMap<Part, Kept>,
    /// No access touched three words. None of a kernel does; behind one that does the filter says nothing more
    is_whole: bool,
}

impl RaceFilter {
    /// That of no accesses. It takes no memory.
    pub fn new(alloc: Global) -> Self
        ensures { (launch : Launch) → Keeps launch result [] }
    {
        RaceFilter {
            parts: HashMap::new(alloc),
            is_whole: true,
        }
    }

    /// Notes an access by an item of a group at one part, and says what was found there. An error is out of memory.
    fn note_at(
        &mut self,
        part: Part,
        group: u32,
        uniform: bool,
        x: &Access,
    ) -> Result<Noted, AllocError>
        ensures { IfOk result (λ noted. IsNotedAt part group uniform x.now self.old self.new noted) }
    {
        let found = self.parts.get(&part).copied();
        self.parts.insert(part, next_kept(group, found, x))?;
        Ok(Noted {
            quiet: is_let(group, uniform, found, x),
            of_bytes: are_of_bytes(found),
        })
    }

    /// Notes one more access, by an item of a group, which touches one byte, where all before touch one word or two.
    /// True is said only where it races with none of them. An error is out of memory.
    fn note_byte(&mut self, group: u32, uniform: bool, x: &Access) -> Result<bool, AllocError>
        requires whole { self.old.is_whole ≡ true }
        requires own { is_of_byte x.now.width ≡ true }
        ensures { IfOk result (IsPassed group uniform x.now self.old self.new) }
    {
        let word = self.note_at(word_in(x.region, first_word(x)), group, uniform, x)?;
        let byte = self.note_at(byte_in(x.region, x.first), group, uniform, x)?;
        Ok(word.quiet || (word.of_bytes && byte.quiet))
    }

    /// Notes one more access, by an item of a group, which touches one word or two as all before, and not one byte.
    /// True is said only where it races with none of them. An error is out of memory.
    fn note(&mut self, group: u32, uniform: bool, x: &Access) -> Result<bool, AllocError>
        requires whole { self.old.is_whole ≡ true }
        requires own { is_on_two_words x.now ≡ true }
        requires wide { is_of_byte x.now.width ≡ false }
        ensures { IfOk result (IsPassed group uniform x.now self.old self.new) }
    {
        let first = first_word(x);
        let last = last_word(x);
        let one = self.note_at(word_in(x.region, first), group, uniform, x)?;
        if first == last {
            return Ok(one.quiet);
        }
        let other = self.note_at(word_in(x.region, last), group, uniform, x)?;
        Ok(one.quiet && other.quiet)
    }

    /// Notes one more access, by an item of a group, in a launch that is uniform or not. True is said only where it
    /// races with none of those before. An error is out of memory.
    pub fn pass(&mut self, group: u32, uniform: bool, x: &Access) -> Result<bool, AllocError>
        ensures { IfOk result (IsPassed group uniform x.now self.old self.new) }
    {
        if !self.is_whole || !is_on_two_words(x) {
            self.is_whole = false;
            return Ok(false);
        }
        if is_of_byte(x.width) {
            self.note_byte(group, uniform, x)
        } else {
            self.note(group, uniform, x)
        }
    }
}
