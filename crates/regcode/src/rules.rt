//! The rules of one instruction.
#![tactic(auto)]

ghost use Rattle.std.specs.Prelude.{◌≡◌, ◌<◌, ◌≤◌, ◌↔◌, IsTrue, length, slice_get, slice_index};
ghost use Rattle.regcode.specs.Listed.{listing};
ghost use Rattle.regcode.specs.Rules as spec;

use crate::instruction::{FetchOperands, Instruction};
use crate::kinds::{
    binary_operation_kind, changed_kind, common_kind, fetched_kind, held_kind, is_atomic,
    is_integer, is_pointer, kind_of, loaded_kind, number_kind, of_one_kind, of_two_kind,
    offset_kind, takes,
};
use crate::tables::{RegisterKind, Tables};
use clmodel::tree::VariableType;
use clnum::IntType;

/// Code that is judged.
#[derive(Clone, Copy)]
pub(crate) struct Judged<'a> {
    pub(crate) instructions: &'a [Instruction],
    pub(crate) tables: &'a Tables,
}

impl Judged<'_> {
    /// What a register may hold.
    fn kind(&self, register: u32) -> Option<RegisterKind>
        ensures { result ≡ spec.kind_at (listing self.now.instructions.now self.now.tables.now) register }
    {
        self.tables
            .registers
            .get(register as usize)
            .map(|register| register.kind)
    }

    /// Whether a register may hold a value.
    fn takes(&self, to: u32, value: Option<RegisterKind>) -> bool
        ensures { IsTrue result ↔ spec.Takes (spec.kind_at (listing self.now.instructions.now self.now.tables.now) to) value }
    {
        takes(self.kind(to), value)
    }

    /// A parameter's type.
    fn parameter(&self, number: u32) -> Option<VariableType>
        ensures { result ≡ slice_get self.now.tables.now.parameters.items number }
    {
        self.tables.parameters.get(number as usize).copied()
    }

    /// Whether a parameter has a type.
    fn is_parameter(&self, number: u32, kind: VariableType) -> bool
        ensures { IsTrue result ↔ spec.HasType (slice_get self.now.tables.now.parameters.items number) kind }
    {
        match self.parameter(number) {
            Some(declared) => declared == kind,
            None => false,
        }
    }

    /// Whether a private array has room for n elements.
    fn has_room(&self, array: u32, count: u32) -> bool
        ensures { IsTrue result ↔ spec.HasRoom (slice_get self.now.tables.now.arrays.items array) count }
    {
        match self.tables.arrays.get(array as usize) {
            Some(most) => count <= *most,
            None => false,
        }
    }

    /// Whether the operands of an atomic operation are numbers.
    fn are_integers(&self, operands: FetchOperands) -> bool
        ensures { IsTrue result ↔ spec.AreIntegers (listing self.now.instructions.now self.now.tables.now) operands }
    {
        match operands {
            FetchOperands::Alone => true,
            FetchOperands::Number(value) => is_integer(self.kind(value)),
            FetchOperands::Pair { expected, value } => is_integer(self.kind(expected))
                && is_integer(self.kind(value)),
        }
    }

    /// Whether an instruction names registers and entries of tables that are there, of the kinds that it wants.
    fn fits(&self, instruction: &Instruction) -> bool
        ensures { IsTrue result ↔ spec.Fits (listing self.now.instructions.now self.now.tables.now) instruction.now }
    {
        match instruction {
            Instruction::Constant { to, value } => self.takes(
                *to,
                Some(RegisterKind::Integer(value.kind())),
            ),
            Instruction::Unset { to } => (*to as usize) < self.tables.registers.len(),
            Instruction::Move { to, from, name } => self.takes(*to, self.kind(*from))
                && (*name as usize) < self.tables.names,
            Instruction::AssignConversion { to, from, kind } => self.takes(
                *to,
                held_kind(*kind, self.kind(*from)),
            ),
            Instruction::Convert { to, from, kind } => self.takes(
                *to,
                number_kind(*kind, self.kind(*from)),
            ),
            Instruction::UsualConversion { to, from, other } => self.takes(
                *to,
                common_kind(*other, self.kind(*from)),
            ),
            Instruction::Unary {
                to,
                operator,
                operand,
            } => self.takes(*to, changed_kind(*operator, self.kind(*operand))),
            Instruction::Binary {
                to,
                operator,
                left,
                right,
            } => self.takes(
                *to,
                binary_operation_kind(*operator, self.kind(*left), self.kind(*right)),
            ),
            Instruction::Builtin {
                to,
                function,
                first,
                second: None,
            } => self.takes(*to, of_one_kind(*function, self.kind(*first))),
            Instruction::Builtin {
                to,
                function,
                first,
                second: Some(second),
            } => self.takes(
                *to,
                of_two_kind(*function, self.kind(*first), self.kind(*second)),
            ),
            Instruction::Dimensions { to } => self.takes(
                *to,
                Some(RegisterKind::Integer(IntType::Uint)),
            ),
            Instruction::Query { to, dimension, .. } => self.takes(
                *to,
                number_kind(IntType::Ulong, self.kind(*dimension)),
            ),
            Instruction::Argument { to, number, kind } => self.takes(*to, Some(kind_of(*kind)))
                && self.is_parameter(*number, *kind),
            Instruction::Local {
                to,
                number,
                element,
            } => self.takes(*to, Some(RegisterKind::Pointer(*element)))
                && (*number as usize) < self.tables.objects,
            Instruction::UnsetArray { array, length } => self.has_room(*array, *length),
            Instruction::PrivateLoad {
                to,
                array,
                index,
                element,
                name,
            } => {
                self.takes(*to, Some(RegisterKind::Integer(*element)))
                    && is_integer(self.kind(*index))
                    && (*array as usize) < self.tables.arrays.len()
                    && (*name as usize) < self.tables.names
            }
            Instruction::PrivateStore {
                array,
                index,
                value,
                name,
                ..
            } => {
                is_integer(self.kind(*index))
                    && is_integer(self.kind(*value))
                    && (*array as usize) < self.tables.arrays.len()
                    && (*name as usize) < self.tables.names
            }
            Instruction::MovePointer { to, from } => self.takes(*to, self.kind(*from))
                && is_pointer(self.kind(*from)),
            Instruction::Offset { to, pointer, index } => self.takes(
                *to,
                offset_kind(self.kind(*pointer), self.kind(*index)),
            ),
            Instruction::Load { to, pointer } => self.takes(*to, loaded_kind(self.kind(*pointer))),
            Instruction::Store { pointer, value } => is_pointer(self.kind(*pointer))
                && is_integer(self.kind(*value)),
            Instruction::Update {
                function,
                pointer,
                value: None,
            } => function.is_update() && is_atomic(self.kind(*pointer)),
            Instruction::Update {
                function,
                pointer,
                value: Some(value),
            } => {
                function.is_update()
                    && is_atomic(self.kind(*pointer))
                    && is_integer(self.kind(*value))
            }
            Instruction::Fetch {
                to,
                pointer,
                operands,
                ..
            } => self.takes(*to, fetched_kind(self.kind(*pointer))) && self.are_integers(*operands),
            Instruction::JumpIfZero { test, .. } => is_integer(self.kind(*test)),
            Instruction::Barrier { .. }
            | Instruction::Enter { .. }
            | Instruction::Turn { .. }
            | Instruction::Jump { .. }
            | Instruction::Back { .. }
            | Instruction::End => true,
        }
    }

    /// How many loops are entered at a place.
    fn loops(&self, place: usize) -> usize
        ensures { result ≡ spec.loops_at (listing self.now.instructions.now self.now.tables.now) place }
    {
        if place < self.tables.loops.len() {
            self.tables.loops[place]
        } else {
            0
        }
    }

    /// Whether code may go on at a place where n loops are entered.
    fn leads(&self, place: usize, entered: usize) -> bool
        ensures { IsTrue result ↔ spec.MayGoOn (listing self.now.instructions.now self.now.tables.now) place entered }
    {
        place < self.instructions.len() && self.loops(place) <= entered
    }

    /// Whether a turn of a loop stands at a place.
    fn is_turn(&self, place: usize) -> bool
        ensures { result ≡ spec.is_turn (slice_get self.now.instructions.now place) }
    {
        match self.instructions.get(place) {
            Some(Instruction::Turn { .. }) => true,
            _ => false,
        }
    }

    /// Whether the places that an instruction leads to are in the code, and the loops that it names are entered.
    fn leads_inside(&self, place: usize, instruction: &Instruction) -> bool
        requires { place < length self.now.instructions.now }
        ensures { IsTrue result ↔ spec.LeadsInside (listing self.now.instructions.now self.now.tables.now) place instruction.now }
    {
        let loops = self.loops(place);
        match instruction {
            Instruction::Barrier { depth, .. } => *depth as usize <= loops
                && self.leads(place + 1, loops),
            Instruction::Enter { depth } => *depth as usize <= loops
                && *depth < 32
                && self.leads(place + 1, *depth as usize + 1),
            Instruction::Turn { depth } => (*depth as usize) < loops
                && self.leads(place + 1, *depth as usize + 1),
            Instruction::Jump { by } => self.leads(place + 1 + *by as usize, loops),
            Instruction::JumpIfZero { by, .. } => self.leads(place + 1, loops)
                && self.leads(place + 1 + *by as usize, loops),
            Instruction::Back { by } => {
                *by as usize <= place
                    && self.is_turn(place - *by as usize)
                    && self.loops(place - *by as usize) <= loops
            }
            Instruction::End => true,
            _ => self.leads(place + 1, loops),
        }
    }

    /// Whether the instruction at a place keeps the rules.
    pub(crate) fn is_fine(&self, place: usize, instruction: &Instruction) -> bool
        requires { place < length self.now.instructions.now }
        ensures { IsTrue result ↔ spec.IsFine (listing self.now.instructions.now self.now.tables.now) place instruction.now }
    {
        self.fits(instruction) && self.leads_inside(place, instruction) && self.loops(place) <= 32
    }
}
