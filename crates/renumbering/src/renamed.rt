//! Instructions with the new numbers of their registers.
#![tactic(auto)]

ghost use Rattle.std.specs.Prelude.{◌≡◌, map, IfOk};
ghost use Rattle.std.specs.Option.{option_map};
ghost use Rattle.renumbering.specs.Numbers.{number_of};
ghost use Rattle.renumbering.specs.Renamed as spec;

use crate::numbering::Numbering;
use regcode::{FetchOperands, Instruction};
use std::alloc::{AllocError, Global};

impl Numbering {
    /// Puts the new numbers in the places of two registers.
    fn rename_both(&self, first: &mut u32, second: &mut u32)
        ensures first { first.new ≡ number_of self.now.numbers.items first.old }
        ensures second { second.new ≡ number_of self.now.numbers.items second.old }
    {
        *first = self.number(*first);
        *second = self.number(*second);
    }

    /// Puts the new number in the place of a register, if there is one.
    fn rename_optional(&self, register: &mut Option<u32>)
        ensures { register.new ≡ option_map (number_of self.now.numbers.items) register.old }
    {
        if let Some(register) = register {
            *register = self.number(*register);
        }
    }

    /// Puts the new numbers in the places of the operands of an atomic operation.
    fn rename_operands(&self, operands: &mut FetchOperands)
        ensures { operands.new ≡ spec.renamed_operands (number_of self.now.numbers.items) operands.old }
    {
        match operands {
            FetchOperands::Alone => {}
            FetchOperands::Number(value) => *value = self.number(*value),
            FetchOperands::Pair { expected, value } => self.rename_both(expected, value),
        }
    }

    /// Puts the new numbers in the places of the registers that an instruction names.
    fn rename_registers(&self, instruction: &mut Instruction)
        ensures { instruction.new ≡ spec.renamed (number_of self.now.numbers.items) instruction.old }
    {
        match instruction {
            Instruction::Constant { to, .. } => *to = self.number(*to),
            Instruction::Unset { to } => *to = self.number(*to),
            Instruction::Dimensions { to } => *to = self.number(*to),
            Instruction::Argument { to, .. } => *to = self.number(*to),
            Instruction::Local { to, .. } => *to = self.number(*to),
            Instruction::Move { to, from, .. } => self.rename_both(to, from),
            Instruction::AssignConversion { to, from, .. } => self.rename_both(to, from),
            Instruction::Convert { to, from, .. } => self.rename_both(to, from),
            Instruction::UsualConversion { to, from, .. } => self.rename_both(to, from),
            Instruction::Unary { to, operand, .. } => self.rename_both(to, operand),
            Instruction::Binary {
                to,
                left,
                right,
                ..
            } => {
                *to = self.number(*to);
                self.rename_both(left, right);
            }
            Instruction::Builtin {
                to,
                first,
                second,
                ..
            } => {
                self.rename_both(to, first);
                self.rename_optional(second);
            }
            Instruction::Query { to, dimension, .. } => self.rename_both(to, dimension),
            Instruction::PrivateLoad { to, index, .. } => self.rename_both(to, index),
            Instruction::PrivateStore { index, value, .. } => self.rename_both(index, value),
            Instruction::MovePointer { to, from } => self.rename_both(to, from),
            Instruction::Offset { to, pointer, index } => {
                *to = self.number(*to);
                self.rename_both(pointer, index);
            }
            Instruction::Load { to, pointer } => self.rename_both(to, pointer),
            Instruction::Store { pointer, value } => self.rename_both(pointer, value),
            Instruction::Update { pointer, value, .. } => {
                *pointer = self.number(*pointer);
                self.rename_optional(value);
            }
            Instruction::Fetch {
                to,
                pointer,
                operands,
                ..
            } => {
                self.rename_both(to, pointer);
                self.rename_operands(operands);
            }
            Instruction::JumpIfZero { test, .. } => *test = self.number(*test),
            Instruction::UnsetArray { .. }
            | Instruction::Barrier { .. }
            | Instruction::Enter { .. }
            | Instruction::Turn { .. }
            | Instruction::Jump { .. }
            | Instruction::Back { .. }
            | Instruction::End => {}
        }
    }
}

/// Instructions with the new numbers of the registers that they name.
pub(crate) fn renamed_all(
    alloc: Global,
    numbering: &Numbering,
    instructions: &[Instruction],
) -> Result<Vec<Instruction>, AllocError>
    ensures { IfOk result (λ same. same.items ≡ map (spec.renamed (number_of numbering.now.numbers.items)) instructions.now) }
{
    instructions
        .iter()
        .map(|instruction| {
            let mut renamed = *instruction;
            numbering.rename_registers(&mut renamed);
            renamed
        })
        .collect(alloc)
}
