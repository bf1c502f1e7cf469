//! The table of the names of a source.
#![tactic(auto)]

ghost use Rattle.std.specs.Prelude.{◌≡◌, ◌<◌, IfOk, OnOk, OnErr, length, [], fold};
ghost use Rattle.clsyntax_lex.specs.Lexing.{place, with_text};
ghost use Rattle.clsyntax_lex.specs.Words.{built_in_names};

use clmodel::setup::{PREDEFINED, Predefined};
use clmodel::text::Name;
use indexmap::IndexSet;
use std::alloc::{AllocError, Global};
use std::marker::Model;

/// The texts of names, each once, in the order in which they were first asked for.
#[derive(Drop)]
pub(crate) struct NameTable<'a> {
    texts: IndexSet<&'a [u8]>,
}

impl<'a> Model for NameTable<'a> {
    ghost use Rattle.std.specs.Prelude.{ℕ, List, map};

    ghost Value = { List (List ℕ) };

    ghost view = { λ t. map (λ text. text.now) t.texts.keys };
}

impl<'a> NameTable<'a> {
    /// The table of the built-in names.
    pub(crate) fn new(alloc: Global) -> Result<Self, AllocError>
        ensures { IfOk result (λ table. table ≡ built_in_names) }
    {
        NameTable::of_entries(alloc, &PREDEFINED)
    }

    /// The table of the texts of these entries.
    fn of_entries(alloc: Global, given: &'a [(&'a [u8], Predefined)]) -> Result<Self, AllocError>
        ensures { IfOk result (λ table. table ≡ fold (λ names entry. with_text names entry.0.now) [] given.now) }
    {
        let mut texts = IndexSet::new(alloc);
        for entry in given {
            texts.insert(entry.0)?;
        }
        Ok(NameTable { texts })
    }

    /// The number of a text: its place in the table, where it is put if it isn't there.
    pub(crate) fn number_of(&mut self, text: &'a [u8]) -> Result<usize, AllocError>
        ensures place { IfOk result (λ number. number ≡ place self.new text.now) }
        ensures within { IfOk result (λ number. number < length self.new) }
        ensures ok { OnOk result (self.new ≡ with_text self.old text.now) }
        ensures err { OnErr result (self.new ≡ self.old) }
    {
        let (number, _) = self.texts.insert_full(text)?;
        Ok(number)
    }

    /// The texts as names.
    pub(crate) fn to_names(&self, alloc: Global) -> Result<Vec<Name>, AllocError>
        ensures { IfOk result (λ names. names.items ≡ self.now) }
    {
        let texts = self.texts.as_slice();
        let mut names = Vec::new(alloc);
        for text in texts {
            names.push(Name::copy_of(alloc, text)?)?;
        }
        Ok(names)
    }
}
