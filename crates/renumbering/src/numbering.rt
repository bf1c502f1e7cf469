//! The numbers of registers in a table without gaps.
#![tactic(auto)]

ghost use Rattle.std.specs.Prelude.{◌≡◌, [], ◌∷◌, map, IfOk, OnOk};
ghost use Rattle.regcode.specs.Safety.{operand_sources};
ghost use Rattle.renumbering.specs.Renamed.{registers_named, all_named};
ghost use Rattle.renumbering.specs.Numbers.{IsNumbering, Gives, number_of, no_number, listed};

use regcode::{FetchOperands, Instruction, Register};
use std::alloc::{AllocError, Global};

/// The numbers that registers of an old table have in a new one.
#[derive(Drop)]
pub(crate) struct Numbering {
    /// The number of each register of the old table, if it has one
    pub(crate) numbers: Vec<Option<u32>>,
    /// The new table
    pub(crate) registers: Vec<Register>,
}

impl Numbering {
    /// The new number of a register. One without a number gets the greatest of 32 bits, which is no place in the new
    /// table.
    pub(crate) fn number(&self, register: u32) -> u32
        ensures { result ≡ number_of self.now.numbers.items register }
    {
        let place = register as usize;
        if place < self.numbers.len() {
            self.numbers[place].unwrap_or(u32::MAX)
        } else {
            u32::MAX
        }
    }

    /// Gives a register of the old table the next number and the next entry, unless it has a number, or there are no
    /// more of them.
    fn give(&mut self, old: &[Register], register: u32) -> Result<(), AllocError>
        requires { IsNumbering old.now self.old.registers.items self.old.numbers.items }
        ensures numbering { IsNumbering old.now self.new.registers.items self.new.numbers.items }
        ensures given { OnOk result (Gives old.now (register ∷ []) self.old.numbers.items self.new.numbers.items) }
    {
        let place = register as usize;
        if place >= old.len() || self.numbers[place].is_some() {
            return Ok(());
        }
        let count = self.registers.len();
        if count < u32::MAX as usize {
            self.registers.push(old[place])?;
            self.numbers[place] = Some(count as u32);
        }
        Ok(())
    }

    /// Gives each of these registers a number.
    fn give_each(&mut self, old: &[Register], registers: &[Option<u32>]) -> Result<(), AllocError>
        requires { IsNumbering old.now self.old.registers.items self.old.numbers.items }
        ensures numbering { IsNumbering old.now self.new.registers.items self.new.numbers.items }
        ensures given { OnOk result (Gives old.now (listed registers.now) self.old.numbers.items self.new.numbers.items) }
    {
        for register in registers {
            if let Some(register) = register {
                self.give(old, *register)?;
            }
        }
        Ok(())
    }
}

/// The registers of what an atomic operation is given beside its pointer.
fn named_operands(operands: FetchOperands) -> (Option<u32>, Option<u32>)
    ensures { listed (result.0 ∷ result.1 ∷ []) ≡ operand_sources operands }
{
    match operands {
        FetchOperands::Alone => (None, None),
        FetchOperands::Number(value) => (Some(value), None),
        FetchOperands::Pair { expected, value } => (Some(expected), Some(value)),
    }
}

/// The registers that an instruction names, four at most: first the one that it writes, then its operands.
fn named(instruction: &Instruction) -> [Option<u32>; 4]
    ensures { listed result ≡ registers_named instruction.now }
{
    match *instruction {
        Instruction::Constant { to, .. }
        | Instruction::Unset { to }
        | Instruction::Dimensions { to }
        | Instruction::Argument { to, .. }
        | Instruction::Local { to, .. } => [Some(to), None, None, None],
        Instruction::Move { to, from, .. }
        | Instruction::AssignConversion { to, from, .. }
        | Instruction::Convert { to, from, .. }
        | Instruction::UsualConversion { to, from, .. }
        | Instruction::MovePointer { to, from } => [Some(to), Some(from), None, None],
        Instruction::Unary { to, operand, .. } => [Some(to), Some(operand), None, None],
        Instruction::Binary {
            to,
            left,
            right,
            ..
        } => [Some(to), Some(left), Some(right), None],
        Instruction::Builtin {
            to,
            first,
            second,
            ..
        } => [Some(to), Some(first), second, None],
        Instruction::Query { to, dimension, .. } => [Some(to), Some(dimension), None, None],
        Instruction::PrivateLoad { to, index, .. } => [Some(to), Some(index), None, None],
        Instruction::PrivateStore { index, value, .. } => [None, Some(index), Some(value), None],
        Instruction::Offset { to, pointer, index } => [Some(to), Some(pointer), Some(index), None],
        Instruction::Load { to, pointer } => [Some(to), Some(pointer), None, None],
        Instruction::Store { pointer, value } => [None, Some(pointer), Some(value), None],
        Instruction::Update { pointer, value, .. } => [None, Some(pointer), value, None],
        Instruction::Fetch {
            to,
            pointer,
            operands,
            ..
        } => {
            let given = named_operands(operands);
            [Some(to), Some(pointer), given.0, given.1]
        }
        Instruction::JumpIfZero { test, .. } => [None, Some(test), None, None],
        Instruction::UnsetArray { .. }
        | Instruction::Barrier { .. }
        | Instruction::Enter { .. }
        | Instruction::Turn { .. }
        | Instruction::Jump { .. }
        | Instruction::Back { .. }
        | Instruction::End => [None, None, None, None],
    }
}

/// No number for each register of a table.
fn no_numbers(alloc: Global, old: &[Register]) -> Result<Vec<Option<u32>>, AllocError>
    ensures { IfOk result (λ numbers. numbers.items ≡ map no_number old.now) }
{
    old.iter().map(|_| None).collect(alloc)
}

/// The numbers of the registers that instructions name, in the order in which they are named first. They have an entry
/// each in the new table.
pub(crate) fn numbered(
    alloc: Global,
    instructions: &[Instruction],
    old: &[Register],
) -> Result<Numbering, AllocError>
    ensures numbering { IfOk result (λ numbering. IsNumbering old.now numbering.registers.items numbering.numbers.items) }
    ensures given { IfOk result (λ numbering. Gives old.now (all_named instructions.now) (map no_number old.now) numbering.numbers.items) }
{
    let mut numbering = Numbering {
        numbers: no_numbers(alloc, old)?,
        registers: Vec::new(alloc),
    };
    for instruction in instructions {
        numbering.give_each(old, &named(instruction))?;
    }
    Ok(numbering)
}
