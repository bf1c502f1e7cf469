//! The tables of code, by its instructions.
#![tactic(auto)]

ghost use Rattle.std.specs.Prelude.{◌≡◌, ℕ, ◌+◌, ◌≤◌, max, [], ◌∷◌, length, get_or, IfOk};
ghost use Rattle.regcode.specs.Listed.{listing};
ghost use Rattle.regcode.specs.Safety.{operand_sources};
ghost use Rattle.code_tables.specs.Tables as spec;

use clmodel::tree::VariableType;
use clnum::IntType;
use regcode::{FetchOperands, Instruction, Register, RegisterKind, Tables};
use std::alloc::{AllocError, Global};

/// One more than a number.
fn past(number: u32) -> usize
    ensures { result ≡ number + 1 }
{
    number as usize + 1
}

/// One more than the greater of two registers.
fn past_both(first: u32, second: u32) -> usize
    ensures { result ≡ spec.room (first ∷ second ∷ []) }
{
    past(first).max(past(second))
}

/// One more than the greatest register of what an atomic operation is given; 0 where there is none.
fn past_operands(operands: FetchOperands) -> usize
    ensures { result ≡ spec.room (operand_sources operands) }
{
    match operands {
        FetchOperands::Alone => 0,
        FetchOperands::Number(value) => past(value),
        FetchOperands::Pair { expected, value } => past_both(expected, value),
    }
}

/// One more than the greatest register that an instruction names.
fn registers_wanted(instruction: &Instruction) -> usize
    ensures { result ≡ spec.room (spec.registers_of instruction.now) }
{
    match *instruction {
        Instruction::Constant { to, .. }
        | Instruction::Unset { to }
        | Instruction::Dimensions { to }
        | Instruction::Local { to, .. }
        | Instruction::Argument { to, .. } => past(to),
        Instruction::Move { to, from, .. }
        | Instruction::AssignConversion { to, from, .. }
        | Instruction::Convert { to, from, .. }
        | Instruction::UsualConversion { to, from, .. }
        | Instruction::MovePointer { to, from } => past_both(to, from),
        Instruction::Unary { to, operand, .. } => past_both(to, operand),
        Instruction::Binary {
            to,
            left,
            right,
            ..
        } => past(to).max(past_both(left, right)),
        Instruction::Builtin {
            to,
            first,
            second: None,
            ..
        } => past_both(to, first),
        Instruction::Builtin {
            to,
            first,
            second: Some(second),
            ..
        } => past(to).max(past_both(first, second)),
        Instruction::Query { to, dimension, .. } => past_both(to, dimension),
        Instruction::PrivateLoad { to, index, .. } => past_both(to, index),
        Instruction::PrivateStore { index, value, .. } => past_both(index, value),
        Instruction::Offset { to, pointer, index } => past(to).max(past_both(pointer, index)),
        Instruction::Load { to, pointer } => past_both(to, pointer),
        Instruction::Store { pointer, value } => past_both(pointer, value),
        Instruction::Update {
            pointer,
            value: None,
            ..
        } => past(pointer),
        Instruction::Update {
            pointer,
            value: Some(value),
            ..
        } => past_both(pointer, value),
        Instruction::Fetch {
            to,
            pointer,
            operands,
            ..
        } => past(to).max(past(pointer).max(past_operands(operands))),
        Instruction::JumpIfZero { test, .. } => past(test),
        Instruction::UnsetArray { .. }
        | Instruction::Barrier { .. }
        | Instruction::Enter { .. }
        | Instruction::Turn { .. }
        | Instruction::Jump { .. }
        | Instruction::Back { .. }
        | Instruction::End => 0,
    }
}

/// How many registers code has: one more than the greatest that it names.
fn register_count(code: &[Instruction]) -> usize
    ensures { result ≡ spec.register_count code.now }
{
    let mut count = 0;
    for instruction in code {
        count = count.max(registers_wanted(instruction));
    }
    count
}

/// How many registers a level has: one for each integer type, and one for each type of pointers.
const LEVEL_REGISTERS: usize = 16;

/// The kinds of a level's registers.
const KINDS: [RegisterKind; 16] = [
    RegisterKind::Integer(IntType::Char),
    RegisterKind::Integer(IntType::Uchar),
    RegisterKind::Integer(IntType::Short),
    RegisterKind::Integer(IntType::Ushort),
    RegisterKind::Integer(IntType::Int),
    RegisterKind::Integer(IntType::Uint),
    RegisterKind::Integer(IntType::Long),
    RegisterKind::Integer(IntType::Ulong),
    RegisterKind::Pointer(IntType::Char),
    RegisterKind::Pointer(IntType::Uchar),
    RegisterKind::Pointer(IntType::Short),
    RegisterKind::Pointer(IntType::Ushort),
    RegisterKind::Pointer(IntType::Int),
    RegisterKind::Pointer(IntType::Uint),
    RegisterKind::Pointer(IntType::Long),
    RegisterKind::Pointer(IntType::Ulong),
];

/// What a register may hold.
fn register_kind(register: usize) -> RegisterKind
    ensures { result ≡ spec.register_kind register }
{
    KINDS[register % LEVEL_REGISTERS]
}

/// Gives the register that a move reads the name that the move has.
fn rename(names: &mut Vec<u32>, instruction: &Instruction)
    requires { spec.room (spec.registers_of instruction.now) ≤ length names.now.items }
    ensures count { length names.new.items ≡ length names.old.items }
    ensures name { (register : ℕ) → get_or names.new.items register 0 ≡ spec.renamed register (get_or names.old.items register 0) instruction.now }
{
    if let Instruction::Move { from, name, .. } = *instruction {
        names[from as usize] = name;
    }
}

/// Each register's name.
fn register_names(alloc: Global, code: &[Instruction]) -> Result<Vec<u32>, AllocError>
    ensures { IfOk result (λ names. names.items ≡ spec.each_below (spec.register_name code.now) (spec.register_count code.now)) }
{
    let mut names = vec![in alloc; 0; register_count(code)]?;
    for instruction in code {
        rename(&mut names, instruction);
    }
    Ok(names)
}

/// Each register: what it may hold, and its name.
fn registers_of(alloc: Global, code: &[Instruction]) -> Result<Vec<Register>, AllocError>
    ensures { IfOk result (λ registers. registers.items ≡ spec.each_below (spec.register_in code.now) (spec.register_count code.now)) }
{
    let names = register_names(alloc, code)?;
    let mut registers = Vec::new(alloc);
    for register in 0..names.len() {
        registers.push(Register {
            kind: register_kind(register),
            name: names[register],
        })?;
    }
    Ok(registers)
}

/// One more than the local object that an instruction names.
fn objects_wanted(instruction: &Instruction) -> usize
    ensures { result ≡ spec.objects_of instruction.now }
{
    match *instruction {
        Instruction::Local { number, .. } => past(number),
        _ => 0,
    }
}

/// How many local objects code has: one more than the greatest that it names.
fn object_count(code: &[Instruction]) -> usize
    ensures { result ≡ spec.object_count code.now }
{
    let mut count = 0;
    for instruction in code {
        count = count.max(objects_wanted(instruction));
    }
    count
}

/// One more than the name that an instruction has.
fn names_wanted(instruction: &Instruction) -> usize
    ensures { result ≡ spec.names_of instruction.now }
{
    match *instruction {
        Instruction::Move { name, .. }
        | Instruction::PrivateLoad { name, .. }
        | Instruction::PrivateStore { name, .. } => past(name),
        _ => 0,
    }
}

/// How many names code has: one more than the greatest that it has, and one at least.
fn name_count(code: &[Instruction]) -> usize
    ensures { result ≡ spec.name_count code.now }
{
    let mut count = 1;
    for instruction in code {
        count = count.max(names_wanted(instruction));
    }
    count
}

/// One more than the private array that an instruction names.
fn arrays_wanted(instruction: &Instruction) -> usize
    ensures { result ≡ spec.arrays_of instruction.now }
{
    match *instruction {
        Instruction::UnsetArray { array, .. }
        | Instruction::PrivateLoad { array, .. }
        | Instruction::PrivateStore { array, .. } => past(array),
        _ => 0,
    }
}

/// How many private arrays code has: one more than the greatest that it names.
fn array_count(code: &[Instruction]) -> usize
    ensures { result ≡ spec.array_count code.now }
{
    let mut count = 0;
    for instruction in code {
        count = count.max(arrays_wanted(instruction));
    }
    count
}

/// Gives the private array of an instruction, if it declares one, at least the elements declared.
fn raise(lengths: &mut Vec<u32>, instruction: &Instruction)
    requires { spec.arrays_of instruction.now ≤ length lengths.now.items }
    ensures count { length lengths.new.items ≡ length lengths.old.items }
    ensures most { (array : ℕ) → get_or lengths.new.items array 0 ≡ max (get_or lengths.old.items array 0) (spec.elements_for array instruction.now) }
{
    if let Instruction::UnsetArray { array, length } = *instruction {
        let most = lengths[array as usize];
        lengths[array as usize] = most.max(length);
    }
}

/// Each private array's greatest length.
fn lengths_of(alloc: Global, code: &[Instruction]) -> Result<Vec<u32>, AllocError>
    ensures { IfOk result (λ lengths. lengths.items ≡ spec.each_below (spec.most_at code.now) (spec.array_count code.now)) }
{
    let mut lengths = vec![in alloc; 0; array_count(code)]?;
    for instruction in code {
        raise(&mut lengths, instruction);
    }
    Ok(lengths)
}

/// How many loops are entered behind an instruction.
fn depth_after(depth: usize, instruction: &Instruction) -> usize
    ensures { result ≡ spec.depth_after depth instruction.now }
{
    match *instruction {
        Instruction::Enter { depth } => past(depth),
        Instruction::Back { .. } => depth.saturating_sub(1),
        _ => depth,
    }
}

/// How many loops are entered where each instruction stands.
fn loops_of(alloc: Global, code: &[Instruction]) -> Result<Vec<usize>, AllocError>
    ensures { IfOk result (λ loops. loops.items ≡ spec.loops_from 0 code.now) }
{
    let mut loops = Vec::new(alloc);
    let mut depth = 0;
    for instruction in code {
        loops.push(depth)?;
        depth = depth_after(depth, instruction);
    }
    Ok(loops)
}

/// The tables of a kernel's code with these types of parameters. Err if out of memory.
pub fn tables_of(
    alloc: Global,
    code: &[Instruction],
    parameters: Vec<VariableType>,
) -> Result<Tables, AllocError>
    ensures { IfOk result (λ tables. listing code.now tables ≡ spec.tabled code.now parameters.items) }
{
    Ok(Tables {
        registers: registers_of(alloc, code)?,
        arrays: lengths_of(alloc, code)?,
        objects: object_count(code),
        names: name_count(code),
        parameters,
        loops: loops_of(alloc, code)?,
    })
}
