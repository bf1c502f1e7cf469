//! Names with what they name.
#![tactic(auto)]

ghost use Rattle.std.specs.Prelude.{◌≡◌, ◌∷◌, [], ◌++◌, None, length, OnOk, OnErr};
ghost use Rattle.std.specs.Map.{remove_entry, set_value, values_of};
ghost use Rattle.std.specs.Map.Iter.{ShowsInOrder, deref};
ghost use Rattle.std.specs.Option.{option_map, option_copied_mut};
ghost use Rattle.std.specs.Borrow.{sem, LendsIf};
ghost use Rattle.spaces.specs.Tables.{is, find};
ghost use Rattle.spaces.specs.contracts.table.Table.{the_row};

use clmodel::text::Name;
use indexmap::IndexMap;
use indexmap::map::Values;
use std::alloc::{AllocError, Global};
use std::marker::Model;

/// Names with what they name, in the order in which they were declared.
#[derive(Drop)]
pub struct Table<T> {
    pub(crate) map: IndexMap<Name, T>,
}

impl<T> Model for Table<T> {
    ghost use Rattle.std.specs.Prelude.{ℕ, List};

    ghost Value = { List (List ℕ × T) };

    ghost view = { λ a. a.map.entries };
}

impl<T: Drop> Table<T> {
    /// A table without names.
    pub fn new(alloc: Global) -> Self
        ensures { result ≡ [] }
    {
        Table {
            map: IndexMap::new(alloc),
        }
    }

    /// How many names it has.
    pub fn len(&self) -> usize
        ensures { result ≡ length self.now }
    {
        self.map.len()
    }

    /// What has the name.
    pub fn get(&self, name: &Name) -> Option<&T>
        ensures { option_map (λ a. a.now) result ≡ find self.now name.now }
    {
        self.map.get(name)
    }

    /// What has the name, to change.
    pub fn get_mut(&mut self, name: &Name) -> Option<&mut T>
        ensures* writes_back { sem 𝓛 (LendsIf (the_row T.row) T.row self.entry result (λ w. set_value (is name.now) self.old w) self.old) }
        ensures value { option_copied_mut result ≡ find self.old name.now }
    {
        self.map.get_mut(name)
    }

    #[tactic(auto, using(crate::proofs::Tables::added))]
    /// Adds a name that it doesn't have. Where memory is refused nothing is added.
    pub fn insert(&mut self, name: Name, value: T) -> Result<(), AllocError>
        requires { find self.old name ≡ None }
        ensures ok { OnOk result (self.new ≡ self.old ++ (name, value) ∷ []) }
        ensures err { OnErr result (self.new ≡ self.old) }
    {
        self.map.insert(name, value)?;
        Ok(())
    }

    #[tactic(auto, using(crate::proofs::Tables::unreplaced))]
    /// Puts a value in the place of what has the name, if something has it.
    pub fn replace(&mut self, name: &Name, value: T)
        ensures { self.new ≡ set_value (is name.now) self.old value }
    {
        if let Some(place) = self.get_mut(name) {
            *place = value;
        }
    }

    /// Removes what has the name, if something has it; the others keep their order. It takes time in proportion to
    /// their number.
    pub fn remove(&mut self, name: &Name)
        ensures { self.new ≡ remove_entry (is name.now) self.old }
    {
        self.map.shift_remove(name);
    }

    /// What the names name, in the order in which they were declared.
    pub fn values(&self) -> Values<'_, Name, T>
        ensures rest { result ≡ values_of self.now }
        ensures runs { ShowsInOrder (deref {X = T}) }
    {
        self.map.values()
    }
}
