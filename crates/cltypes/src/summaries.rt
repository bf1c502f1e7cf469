//! The sizes of the functions of a text, each from those of the functions before it.
#![tactic(auto)]

ghost use Rattle.std.specs.Prelude.{◌≡◌, IfOk, OnOk, OnErr};
ghost use Rattle.clmodel.specs.Tree.{Funcs, NoFunc, ThenFunc, func};
ghost use Rattle.clmodel.specs.Typing.Sizes.{size_in};
ghost use Rattle.clmodel.specs.Typing.Functions.{size_of};
ghost use Rattle.cltypes.specs.Limits.{capped, IsSummary};

use crate::size::Size;
use crate::statement_sizes::row_size;
use clmodel::tree::Function;
use indexmap::IndexMap;
use std::alloc::{AllocError, Global};
use std::marker::Model;

/// The sizes of the bodies of functions, by the functions' names.
#[derive(Drop)]
pub struct Summaries {
    sizes: IndexMap<u32, Size>,
}

impl Model for Summaries {
    ghost use Rattle.std.specs.Prelude.{map};
    ghost use Rattle.clmodel.specs.Typing.Sizes.{Sizes};
    ghost use Rattle.cltypes.specs.Limits.{plain_entry};

    ghost Value = { Sizes };

    ghost view = { λ table. map plain_entry table.sizes.entries };
}

impl Summaries {
    /// Where no function has been added.
    pub fn new(alloc: Global) -> Summaries
        ensures { IsSummary result NoFunc }
    {
        Summaries {
            sizes: IndexMap::new(alloc),
        }
    }

    /// The size of the body of the function of a name, and nothing where no such function has been added.
    pub(crate) fn size_in(&self, name: u32) -> Size
        ensures { result ≡ capped (size_in self.now name) }
    {
        match self.sizes.get(&name) {
            Some(size) => size.capped(),
            None => Size::nothing(),
        }
    }

    /// Adds the function that comes next in the text, and answers the size of its body. Of functions of one name the
    /// first stays. Err where memory is wanting: nothing changes then.
    pub fn add(&mut self, function: &Function) -> Result<Size, AllocError>
        ensures size { IfOk result (λ size. (fs : Funcs) → IsSummary self.old fs → size ≡ capped (size_of fs (func function.now))) }
        ensures added { OnOk result ((fs : Funcs) → IsSummary self.old fs → IsSummary self.new (ThenFunc fs (func function.now))) }
        ensures err { OnErr result (self.new ≡ self.old) }
    {
        let size = row_size(self, &function.body);
        if !self.sizes.contains_key(&function.name) {
            self.sizes.insert(function.name, size)?;
        }
        Ok(size)
    }
}
