//! The variables in scope, and the registers of values.
#![tactic(auto)]

ghost use Rattle.std.specs.Prelude.{◌≡◌, ℕ, ◌+◌, ◌<◌, ◌≤◌, ◌^◌, [], ◌∷◌, None, length, drop, OnOk, OnErr};
ghost use Rattle.std.specs.Option.{option_map};
ghost use Rattle.clmodel.specs.Next as next;
ghost use Rattle.lower_expr.specs.Scope as spec;
ghost use Rattle.lower_expr.specs.Expressions as expressions;
ghost use Rattle.lower_expr.specs.Index.{empty};

use clmodel::tree::VariableType;
use clnum::IntType;
use indexmap::IndexMap;
use std::alloc::{AllocError, Global};
use std::marker::Model;

/// How many registers a level has: one for each integer type, and one for each type of pointers.
const LEVEL_REGISTERS: u32 = 16;

/// The number of a type among the registers of a level.
fn kind_number(kind: VariableType) -> u32
    ensures value { result ≡ spec.kind_number kind }
    ensures below { result < 16 }
{
    match kind {
        VariableType::Integer(kind) => kind.number(),
        VariableType::Pointer(pointer) => 8 + pointer.element.number(),
    }
}

/// The number of a level of registers. Each variable has a level of its own, and so has each value that waits for
/// others. Levels below 2^28 have registers, one for each type.
#[derive(Clone, Copy, Default)]
pub struct Level(pub u32);

/// The number of a register, of 32 bits: those of the lower levels come first, then one for each type.
#[derive(Clone, Copy, Default)]
pub struct RegisterNumber(pub u32);

/// The register of a type at a level. Levels from 2^28 on have none.
pub fn register_at(level: Level, kind: VariableType) -> RegisterNumber
    requires { level.0 < 2 ^ 28 }
    ensures { result.0 ≡ spec.register_at level.0 kind }
{
    RegisterNumber(LEVEL_REGISTERS * level.0 + kind_number(kind))
}

/// The level `count` above another.
pub fn level_at(base: Level, count: usize) -> Level
    requires { base.0 + count < 2 ^ 32 }
    ensures { result.0 ≡ base.0 + count }
{
    Level(base.0 + count as u32)
}

/// A variable: its name, its declared type, and how many elements it has, if it is a private array; its type is that of
/// the elements then.
#[derive(Clone, Copy)]
pub struct Variable {
    name: u32,
    kind: VariableType,
    elements: u32,
}

/// A private array that is declared: its name, the type of its elements, and how many it has.
#[derive(Clone, Copy)]
pub struct PrivateArray {
    pub name: u32,
    pub element: IntType,
    pub length: u32,
}

/// A variable in scope, and the place of the one of its name that it hides.
#[derive(Clone, Copy)]
pub struct Entry {
    variable: Variable,
    hidden: Option<usize>,
}

/// The variables in scope, innermost first, and the level of the outermost. What they hold is not known.
#[derive(Drop)]
pub struct Scope {
    alloc: Global,
    base: Level,
    entries: Vec<Entry>,
    latest: IndexMap<u32, usize>,
}

impl Model for Scope {
    ghost use Rattle.std.specs.Prelude.{ℕ, ◌≡◌, reverse, nat_eq};
    ghost use Rattle.indexmap.specs.IndexMap.{get};
    ghost use Rattle.lower_expr.specs.Scope.{Scope, last_place};
    ghost use Rattle.lower_expr.specs.Index.{variables_of, Hides};

    ghost Value = { Scope };

    ghost view = { λ s. record { base = s.base.0; variables = variables_of (reverse s.entries.items) } };

    ghost invariant = { λ s. ((name : ℕ) → get nat_eq s.latest name ≡ last_place (variables_of (reverse s.entries.items)) name) × Hides (reverse s.entries.items) };
}

impl Scope {
    /// No variables.
    pub fn new(alloc: Global, base: Level) -> Self
        ensures { result ≡ record { base = base.0; variables = [] } }
    {
        Scope {
            alloc,
            base,
            entries: Vec::new(alloc),
            latest: IndexMap::new(alloc),
        }
    }

    /// The level of the outermost variable.
    pub fn base(&self) -> Level
        ensures { result.0 ≡ self.now.base }
    {
        self.base
    }

    /// Where its memory comes from.
    pub fn allocator(&self) -> Global {
        self.alloc
    }

    /// How many variables there are.
    pub fn len(&self) -> usize
        ensures { result ≡ length self.now.variables }
    {
        self.entries.len()
    }

    /// The place of the innermost variable of a name, counted from the outermost.
    fn place(&self, name: u32) -> Option<usize>
        ensures { result ≡ spec.last_place self.now.variables name }
    {
        self.latest.get(&name).copied()
    }

    /// Declares one more, which is the innermost from now on. Err if out of memory: nothing changes then.
    pub fn declare(&mut self, name: u32, kind: VariableType) -> Result<(), AllocError>
        ensures declared { OnOk result (self.new ≡ spec.declared self.old name kind) }
        ensures err { OnErr result (self.new ≡ self.old) }
    {
        self.add(Variable {
            name,
            kind,
            elements: 0,
        })
    }

    /// Declares a private array, which is the innermost variable from now on. Err if out of memory: nothing changes
    /// then.
    pub fn declare_array(&mut self, array: PrivateArray) -> Result<(), AllocError>
        ensures declared { OnOk result (self.new ≡ spec.declared_array self.old array.name array.element array.length) }
        ensures err { OnErr result (self.new ≡ self.old) }
    {
        self.add(Variable {
            name: array.name,
            kind: VariableType::Integer(array.element),
            elements: array.length,
        })
    }

    /// Adds a variable, the innermost from now on. Err if out of memory: nothing changes then.
    fn add(&mut self, variable: Variable) -> Result<(), AllocError>
        ensures added { OnOk result (self.new ≡ record self.old { variables = empty variable ∷ self.old.variables }) }
        ensures err { OnErr result (self.new ≡ self.old) }
    {
        let name = variable.name;
        let hidden = self.place(name);
        let place = self.entries.len();
        self.entries.push(Entry { variable, hidden })?;
        match self.latest.insert(name, place) {
            Ok(_) => Ok(()),
            Err(_) => {
                self.entries.pop();
                Err(AllocError)
            }
        }
    }

    /// Leaves the innermost variable, if there is one.
    fn leave_one(&mut self)
        ensures { self.new ≡ record self.old { variables = drop 1 self.old.variables } }
    {
        if let Some(entry) = self.entries.pop() {
            let name = entry.variable.name;
            match entry.hidden {
                Some(place) => {
                    if let Some(latest) = self.latest.get_mut(&name) {
                        *latest = place;
                    }
                }
                None => {
                    self.latest.swap_remove(&name);
                }
            }
        }
    }

    /// Leaves all but the outermost `count`.
    pub fn leave(&mut self, count: usize)
        ensures { self.new ≡ record self.old { variables = next.leave count self.old.variables } }
    {
        for _ in 0..self.entries.len().saturating_sub(count) {
            self.leave_one();
        }
    }

    /// The declared type of the innermost variable of a name; int where there is none.
    pub fn kind(&self, name: u32) -> VariableType
        ensures { result ≡ expressions.kind_named self.now name }
    {
        match self.place(name) {
            Some(place) => self.entries[place].variable.kind,
            None => VariableType::Integer(IntType::Int),
        }
    }

    /// Whether the innermost variable of a name is a private array.
    pub(crate) fn is_private_array(&self, name: u32) -> bool
        ensures { result ≡ next.is_private_array self.now.variables name }
    {
        match self.place(name) {
            Some(place) => self.entries[place].variable.elements > 0,
            None => false,
        }
    }

    /// The level of the innermost variable of a name, which is the number of its private array; the lowest where there
    /// is none.
    pub(crate) fn level(&self, name: u32) -> Level
        requires { spec.free_level self.now ≤ 2 ^ 28 }
        ensures { result.0 ≡ spec.level_of self.now name }
    {
        match self.place(name) {
            Some(place) => level_at(self.base, place),
            None => self.base,
        }
    }

    /// The register of the innermost variable of a name.
    pub fn register(&self, name: u32) -> Option<RegisterNumber>
        requires { spec.free_level self.now ≤ 2 ^ 28 }
        ensures { option_map (λ register. register.0) result ≡ spec.register_of self.now name }
    {
        let Some(place) = self.place(name) else {
            return None;
        };
        let level = level_at(self.base, place);
        Some(register_at(level, self.entries[place].variable.kind))
    }

    /// The first level that is free.
    pub fn free_level(&self) -> Level
        requires { spec.free_level self.now ≤ 2 ^ 28 }
        ensures { result.0 ≡ spec.free_level self.now }
    {
        level_at(self.base, self.entries.len())
    }
}
