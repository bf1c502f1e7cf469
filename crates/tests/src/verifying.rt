//! Code that is verified, and code that breaks a rule.

use clmodel::action::Fences;
use clmodel::setup::{AtomicFunction, WorkItemFunction};
use clmodel::tree::{AddressSpace, PointerType, VariableType};
use clnum::{BinaryOperator, Builtin, IntType, UnaryOperator, Value};
use regcode::Instruction::{
    Argument, AssignConversion, Back, Barrier, Binary, Constant, Dimensions, End, Enter, Jump,
    JumpIfZero, Load, Local, Move, MovePointer, Offset, PrivateLoad, PrivateStore, Query, Store,
    Turn, Unary, Unset, UnsetArray, Update, UsualConversion,
};
use regcode::{Instruction, Register, RegisterKind, Tables, verify};
use std::alloc::Global;

/// The type `int`.
const INT: VariableType = VariableType::Integer(IntType::Int);

/// The type of a pointer to `const int` in constant memory.
const POINTER: VariableType = VariableType::Pointer(PointerType {
    space: AddressSpace::Constant,
    is_const: true,
    element: IntType::Int,
});

/// A register of a kind with the last of six names.
fn register(kind: RegisterKind) -> Register {
    Register { kind, name: 5 }
}

/// Registers of int, uint, a pointer to int, ulong, and a pointer to long; a private array of four elements; three
/// local objects; six names; an int and a pointer as parameters. None where memory runs out.
fn tables(alloc: Global, loops: Vec<usize>) -> Option<Tables> {
    let arrays = vec![in alloc; 4].ok()?;
    let parameters = vec![in alloc; INT, POINTER].ok()?;
    let registers = vec![in alloc;
        register(RegisterKind::Integer(IntType::Int)),
        register(RegisterKind::Integer(IntType::Uint)),
        register(RegisterKind::Pointer(IntType::Int)),
        register(RegisterKind::Integer(IntType::Ulong)),
        register(RegisterKind::Pointer(IntType::Long)),
    ]
    .ok()?;
    Some(Tables {
        registers,
        arrays,
        objects: 3,
        names: 6,
        parameters,
        loops,
    })
}

/// Whether a code is verified, or rejected. None where memory runs out.
fn is_verified(alloc: Global, code: Vec<Instruction>, loops: Vec<usize>) -> Option<bool> {
    let tables = tables(alloc, loops)?;
    Some(verify(code, tables).is_ok())
}

/// A barrier in a loop.
const WAIT: Instruction = Barrier {
    site: 3,
    depth: 1,
    fences: Fences {
        local: true,
        global: false,
    },
};

/// A code in each line: whether it is verified, its instructions, and behind `|` the depth of loops at each.
// Codes and the loops that are entered at each place: the first instruction, the ways out of the code and into loops,
// the ways back, and loops in one another.
const WAYS: &str = "\
rejected |
rejected end |
verified end | 0
rejected end | 1
rejected unset:0 | 0
verified jump:0 end | 0 0
rejected jump:0 end | 0 1
rejected jump:1 end | 0 0
verified jump_if_zero:0 end | 0 0
rejected jump_if_zero:1 end | 0 0
verified jump:1 end end | 0 32 0
rejected jump:1 end end | 0 33 0
verified enter:0 end | 0 1
rejected enter:0 end | 0 2
rejected enter:1 end | 0 0
verified enter:0 wait end | 0 1 1
rejected enter:0 wait end | 0 0 0
verified enter:0 turn:0 back:1 | 0 1 1
rejected enter:0 turn:0 back:1 | 0 0 0
rejected enter:0 turn:0 back:1 | 0 1 0
rejected enter:0 turn:0 back:2 | 0 1 1
rejected enter:0 turn:0 back:3 | 0 1 1
rejected turn:0 end | 0 0
verified enter:0 enter:1 enter:2 enter:3 enter:4 enter:5 enter:6 enter:7 enter:8 enter:9 enter:10 enter:11 enter:12 enter:13 enter:14 enter:15 enter:16 enter:17 enter:18 enter:19 enter:20 enter:21 enter:22 enter:23 enter:24 enter:25 enter:26 enter:27 enter:28 enter:29 enter:30 enter:31 enter:31 end | 0 1 2 3 4 5 6 7 8 9 10 11 12 13 14 15 16 17 18 19 20 21 22 23 24 25 26 27 28 29 30 31 32 32
rejected enter:0 enter:1 enter:2 enter:3 enter:4 enter:5 enter:6 enter:7 enter:8 enter:9 enter:10 enter:11 enter:12 enter:13 enter:14 enter:15 enter:16 enter:17 enter:18 enter:19 enter:20 enter:21 enter:22 enter:23 enter:24 enter:25 enter:26 enter:27 enter:28 enter:29 enter:30 enter:31 enter:32 end | 0 1 2 3 4 5 6 7 8 9 10 11 12 13 14 15 16 17 18 19 20 21 22 23 24 25 26 27 28 29 30 31 32 32
";

/// The instruction of a word of the table.
fn instruction_of(word: &str) -> Option<Instruction> {
    let (name, number) = word.split_once(':').unwrap_or((word, "0"));
    let number = number.parse::<u32>().ok()?;
    match name {
        "end" => Some(End),
        "unset" => Some(Unset { to: number }),
        "jump" => Some(Jump { by: number }),
        "jump_if_zero" => Some(JumpIfZero {
            test: 0,
            by: number,
        }),
        "enter" => Some(Enter { depth: number }),
        "turn" => Some(Turn { depth: number }),
        "wait" => Some(WAIT),
        "back" => Some(Back { by: number }),
        _ => None,
    }
}

/// The instructions of a row of the table; `None` where they can't be read.
fn code_of(alloc: Global, words: &str) -> Option<Vec<Instruction>> {
    let mut code = Vec::new(alloc);
    for word in words.split_whitespace() {
        code.push(instruction_of(word)?).ok()?;
    }
    Some(code)
}

/// The depths of loops of a row of the table; `None` where they can't be read.
fn loops_of(alloc: Global, numbers: &str) -> Option<Vec<usize>> {
    let mut loops = Vec::new(alloc);
    for number in numbers.split_whitespace() {
        loops.push(number.parse::<usize>().ok()?).ok()?;
    }
    Some(loops)
}

/// Whether the code of a row of the table is verified; `None` where the row can't be read.
fn is_row_verified(alloc: Global, row: &str) -> Option<bool> {
    let (words, numbers) = row.split_once('|')?;
    let loops = loops_of(alloc, numbers)?;
    is_verified(alloc, code_of(alloc, words)?, loops)
}

/// Whether the code of a row of the table is verified or rejected as the row says.
fn is_as_said(alloc: Global, row: &str) -> bool {
    let (wanted, code) = row.split_once(' ').unwrap_or((row, ""));
    is_row_verified(alloc, code) == Some(wanted == "verified")
}

/// Shows that the code of each row of the table is verified or rejected as the row says.
#[test]
fn ways(rt: HostRuntime) {
    let alloc = rt.alloc();
    for row in WAYS.lines() {
        assert!(rt; is_as_said(alloc, row), "{row}");
    }
}

/// Instructions each of which names a register or an entry of a table that isn't there, or one of a kind that it
/// doesn't want. Changed in one number or one operator, each would fit.
const MISFITS: [Instruction; 27] = [
    Unset { to: 5 },
    Move {
        to: 0,
        from: 0,
        name: 6,
    },
    AssignConversion {
        to: 2,
        from: 4,
        kind: POINTER,
    },
    UsualConversion {
        to: 0,
        from: 0,
        other: IntType::Uint,
    },
    Unary {
        to: 3,
        operator: UnaryOperator::Not,
        operand: 3,
    },
    Binary {
        to: 2,
        operator: BinaryOperator::Subtract,
        left: 3,
        right: 2,
    },
    Instruction::Builtin {
        to: 0,
        function: Builtin::Max,
        first: 0,
        second: None,
    },
    Instruction::Builtin {
        to: 0,
        function: Builtin::Max,
        first: 0,
        second: Some(1),
    },
    Dimensions { to: 0 },
    Query {
        to: 3,
        function: WorkItemFunction::GlobalId,
        dimension: 2,
    },
    Argument {
        to: 2,
        number: 0,
        kind: POINTER,
    },
    Argument {
        to: 0,
        number: 2,
        kind: INT,
    },
    Local {
        to: 2,
        number: 3,
        element: IntType::Int,
    },
    UnsetArray {
        array: 0,
        length: 5,
    },
    UnsetArray {
        array: 1,
        length: 0,
    },
    PrivateLoad {
        to: 0,
        array: 1,
        index: 0,
        element: IntType::Int,
        name: 5,
    },
    PrivateStore {
        array: 0,
        index: 0,
        value: 2,
        element: IntType::Int,
        name: 5,
    },
    MovePointer { to: 0, from: 0 },
    Offset {
        to: 2,
        pointer: 2,
        index: 4,
    },
    Load { to: 3, pointer: 4 },
    Store {
        pointer: 0,
        value: 0,
    },
    Update {
        function: AtomicFunction::Inc,
        pointer: 4,
        value: None,
    },
    Update {
        function: AtomicFunction::Add,
        pointer: 2,
        value: Some(4),
    },
    Update {
        function: AtomicFunction::Exchange,
        pointer: 2,
        value: Some(0),
    },
    Update {
        function: AtomicFunction::CompareExchange,
        pointer: 2,
        value: Some(0),
    },
    Update {
        function: AtomicFunction::Exchange,
        pointer: 2,
        value: None,
    },
    JumpIfZero { test: 2, by: 0 },
];

/// Whether the code of an instruction and the end is verified. None where memory runs out.
fn is_one_verified(alloc: Global, instruction: Instruction) -> Option<bool> {
    let code = vec![in alloc; instruction, End].ok()?;
    is_verified(alloc, code, vec![in alloc; 0, 0].ok()?)
}

/// Shows that each of the misfits makes a code rejected, and so does a constant that isn't of its register's type.
// A number of `int` in a register of `uint`.
#[test]
fn operands(rt: HostRuntime) {
    let alloc = rt.alloc();
    let constant = Constant {
        to: 1,
        value: Value::new(IntType::Int, -7),
    };
    assert!(rt; is_one_verified(alloc, constant) == Some(false));
    for (row, instruction) in MISFITS.into_iter().enumerate() {
        assert!(rt; is_one_verified(alloc, instruction) == Some(false), "{row}");
    }
}

/// Whether a code that is only the end is verified, where there are so many names. None where memory runs out.
fn is_end_verified(alloc: Global, names: usize) -> Option<bool> {
    let mut tables = tables(alloc, vec![in alloc; 0].ok()?)?;
    tables.names = names;
    let code = vec![in alloc; End].ok()?;
    Some(verify(code, tables).is_ok())
}

/// Shows that a code is rejected where a register has a name that isn't there.
// The registers' names are the last of six, so that five are too few.
#[test]
fn a_register_of_a_missing_name(rt: HostRuntime) {
    assert!(rt; is_end_verified(rt.alloc(), 5) == Some(false));
}
