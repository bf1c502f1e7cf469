//! The judge of code.
#![tactic(auto)]

ghost use Rattle.std.specs.Prelude.{◌≡◌, ◌<◌, ◌↔◌, IfOk, IsOk, IsTrue};
ghost use Rattle.std.specs.List.{All};
ghost use Rattle.regcode.specs.Listed.{listing};
ghost use Rattle.regcode.specs.Rules.{IsVerified};

use crate::code::Code;
use crate::instruction::Instruction;
use crate::rules::Judged;
use crate::tables::{Register, Tables};

/// Why code isn't verified.
#[derive(Clone, Copy, Debug, PartialEq, Eq)]
pub enum VerifyFault {
    /// A rule fails
    Rejected,
}

/// Whether the name of each register is in a table of so many names.
fn are_named(registers: &[Register], names: usize) -> bool
    ensures { IsTrue result ↔ All (λ register. register.name < names) registers.now }
{
    registers
        .iter()
        .all(|register| (register.name as usize) < names)
}

/// Whether code keeps all rules.
fn is_verified(instructions: &[Instruction], tables: &Tables) -> bool
    ensures { IsTrue result ↔ IsVerified (listing instructions.now tables.now) }
{
    let judged = Judged {
        instructions,
        tables,
    };
    if instructions.is_empty() || tables.loops.len() != instructions.len() || tables.loops[0] != 0 {
        return false;
    }
    if !are_named(&tables.registers, tables.names) {
        return false;
    }
    for place in 0..instructions.len() {
        if !judged.is_fine(place, &instructions[place]) {
            return false;
        }
    }
    true
}

/// Code with its tables, if it keeps the rules; Rejected exactly where it doesn't. It takes no memory.
pub fn verify(instructions: Vec<Instruction>, tables: Tables) -> Result<Code, VerifyFault>
    ensures code { IfOk result (λ code. code ≡ listing instructions.items tables) }
    ensures exact { IsOk result ↔ IsVerified (listing instructions.items tables) }
{
    if is_verified(&instructions, &tables) {
        Ok(Code::of(instructions, tables))
    } else {
        Err(VerifyFault::Rejected)
    }
}
