//! Verified code.
#![tactic(auto)]

ghost use Rattle.std.specs.Prelude.{◌≡◌, length};
ghost use Rattle.regcode.specs.Listed.{listing};
ghost use Rattle.regcode.specs.Rules.{IsVerified};

use crate::instruction::Instruction;
use crate::tables::Tables;
use std::marker::Model;

/// Code with its tables, which was verified.
#[derive(Drop)]
pub struct Code {
    instructions: Vec<Instruction>,
    tables: Tables,
}

impl Model for Code {
    ghost use Rattle.regcode.specs.Listing.{Listing};
    ghost use Rattle.regcode.specs.Listed.{listing};
    ghost use Rattle.regcode.specs.Rules.{IsVerified};

    ghost Value = { Listing };

    ghost view = { λ c. listing c.instructions.items c.tables };

    ghost invariant = { λ c. IsVerified (listing c.instructions.items c.tables) };
}

impl Code {
    /// Makes code of instructions and tables that were verified.
    pub(crate) fn of(instructions: Vec<Instruction>, tables: Tables) -> Self
        requires { IsVerified (listing instructions.items tables) }
        ensures { result ≡ listing instructions.items tables }
    {
        Code {
            instructions,
            tables,
        }
    }

    /// All instructions: one at least.
    pub fn instructions(&self) -> &[Instruction]
        ensures value { result.now ≡ self.now.instructions }
        ensures verified { IsVerified self.now }
    {
        &self.instructions
    }

    /// The tables that it was verified with.
    pub fn tables(&self) -> &Tables
        ensures { listing self.now.instructions result.now ≡ self.now }
    {
        &self.tables
    }

    /// How many instructions it has.
    pub fn count(&self) -> usize
        ensures { result ≡ length self.now.instructions }
    {
        self.instructions.len()
    }

    /// How many registers it has: its instructions name these alone.
    pub fn registers(&self) -> usize
        ensures { result ≡ length self.now.registers }
    {
        self.tables.registers.len()
    }
}
