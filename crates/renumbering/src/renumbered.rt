//! Code with other registers that acts as it did.
#![tactic(auto)]

ghost use Rattle.std.specs.Prelude.{◌≡◌, IfOk};
ghost use Rattle.regcode.specs.Listed.{listing};
ghost use Rattle.renumbering.specs.Same.{IsRenumbered};

use crate::numbering::numbered;
use crate::renamed::renamed_all;
use regcode::{Code, Register, Tables, VerifyFault, verify};
use std::alloc::{AllocError, Global};

/// Tables with other registers.
fn tables_with(
    alloc: Global,
    tables: &Tables,
    registers: Vec<Register>,
) -> Result<Tables, AllocError>
    ensures registers { IfOk result (λ same. same.registers.items ≡ registers.items) }
    ensures arrays { IfOk result (λ same. same.arrays.items ≡ tables.now.arrays.items) }
    ensures objects { IfOk result (λ same. same.objects ≡ tables.now.objects) }
    ensures names { IfOk result (λ same. same.names ≡ tables.now.names) }
    ensures parameters { IfOk result (λ same. same.parameters.items ≡ tables.now.parameters.items) }
    ensures loops { IfOk result (λ same. same.loops.items ≡ tables.now.loops.items) }
{
    Ok(Tables {
        registers,
        arrays: Vec::from_slice(alloc, &tables.arrays)?,
        objects: tables.objects,
        names: tables.names,
        parameters: Vec::from_slice(alloc, &tables.parameters)?,
        loops: Vec::from_slice(alloc, &tables.loops)?,
    })
}

/// Code that acts as this, whose registers are those that its instructions name, numbered without gaps in the order in
/// which instructions name them first. Code with more registers than there are numbers of 32 bits stays as it is where
/// these don't suffice. An error is out of memory.
pub fn renumber(alloc: Global, code: Code) -> Result<Code, AllocError>
    ensures { IfOk result (IsRenumbered code) }
{
    let old = code.tables();
    let numbering = numbered(alloc, code.instructions(), &old.registers)?;
    let instructions = renamed_all(alloc, &numbering, code.instructions())?;
    let tables = tables_with(alloc, old, numbering.registers)?;
    match verify(instructions, tables) {
        Ok(same) => Ok(same),
        Err(VerifyFault::Rejected) => Ok(code),
    }
}
