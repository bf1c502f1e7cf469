//! Code whose registers are numbered without gaps.

use clnum::{IntType, UnaryOperator, Value};
use regcode::Instruction::{Constant, End, Unary};
use regcode::{Code, Instruction, Register, RegisterKind, Tables, verify};
use renumbering::renumber;
use std::alloc::Global;

/// The kind of a register of `int`.
const INT: RegisterKind = RegisterKind::Integer(IntType::Int);

/// The kind of a register of `ulong`.
const ULONG: RegisterKind = RegisterKind::Integer(IntType::Ulong);

/// A hundred registers of int, and behind them one of ulong, each with its own number as its name.
fn registers(alloc: Global) -> Option<Vec<Register>> {
    let mut registers = Vec::new(alloc);
    for name in 0..101 {
        let kind = if name < 100 { INT } else { ULONG };
        registers.push(Register { kind, name }).ok()?;
    }
    Some(registers)
}

/// Code that names three registers, the last, which is of ulong, and 70 and 7, which are of int, once its registers are
/// numbered anew. None where it is rejected.
fn renumbered(alloc: Global) -> Option<Code> {
    let tables = Tables {
        registers: registers(alloc)?,
        arrays: Vec::new(alloc),
        objects: 0,
        names: 101,
        parameters: Vec::new(alloc),
        loops: vec![in alloc; 0, 0, 0, 0].ok()?,
    };
    let instructions = vec![in alloc;
        Constant {
            to: 100,
            value: Value::new(IntType::Ulong, 5)
        },
        Constant {
            to: 70,
            value: Value::new(IntType::Int, 6)
        },
        Unary {
            to: 7,
            operator: UnaryOperator::Negate,
            operand: 70
        },
        End,
    ];
    let code = verify(instructions.ok()?, tables).ok()?;
    renumber(alloc, code).ok()
}

/// The register that an instruction writes, and the one that it reads, if it is a constant or an operator on one
/// number.
fn registers_of(instruction: &Instruction) -> Option<(u32, Option<u32>)> {
    match instruction {
        Constant { to, .. } => Some((*to, None)),
        Unary { to, operand, .. } => Some((*to, Some(*operand))),
        _ => None,
    }
}

/// Whether the code's registers are numbered in the order in which instructions name them first.
fn are_in_order(code: &Code) -> bool {
    let instructions = code.instructions();
    let registers = &code.tables().registers;
    instructions.len() == 4
        && registers.len() == 3
        && registers_of(&instructions[0]) == Some((0, None))
        && registers_of(&instructions[1]) == Some((1, None))
        && registers_of(&instructions[2]) == Some((2, Some(1)))
        && (registers[0].kind == ULONG && registers[0].name == 100)
        && (registers[1].kind == INT && registers[1].name == 70)
        && (registers[2].kind == INT && registers[2].name == 7)
}

/// Registers are numbered in the order in which instructions name them first, which no clause says.
#[test]
fn named_registers_alone(rt: HostRuntime) {
    let Some(same) = renumbered(rt.alloc()) else {
        panic!(rt; "rejected")
    };
    assert!(rt; are_in_order(&same));
}
