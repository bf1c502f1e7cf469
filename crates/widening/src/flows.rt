//! Whether labels fit code, instruction by instruction.
#![tactic(auto)]

ghost use Rattle.std.specs.Prelude.{◌≡◌, ◌<◌, ◌^◌, IsTrue, IfOk, length};
ghost use Rattle.same_items.specs.Free.{CodeFreedom};
ghost use Rattle.same_items.specs.Flow.{AreLabels};
ghost use Rattle.widening.specs.Listed.{free_of, labels_of, labels_at, step_of, Goes, Passes};

use crate::checker::{Checked, is_free, label_of, may_fetch, plain_of};
use crate::labels::{
    binary_label, constant_label, is_number, is_pointer, is_same, joined, loaded, may_keep,
    may_put, may_store, moved_label, number_label, pointer_label,
};
use crate::row::Row;
use crate::step::{Step, keep_if, put_found, put_if};
use regcode::Instruction;
use same_items::Label;
use std::alloc::{AllocError, Global};

/// What an instruction that makes a value of values does to labels; Wrong of all others.
fn value_step(here: &[Label], instruction: &Instruction) -> Step
    ensures { (w : CodeFreedom) → Goes result → result ≡ step_of w (labels_of here.now) instruction.now }
{
    match instruction {
        Instruction::Constant { to, value } => Step::Puts {
            to: *to,
            label: constant_label(*value),
        },
        Instruction::Unset { to } => Step::Puts {
            to: *to,
            label: Label::Unset,
        },
        Instruction::Move { to, from, .. } => Step::Puts {
            to: *to,
            label: label_of(here, *from as usize),
        },
        Instruction::AssignConversion { to, from, .. } => Step::Puts {
            to: *to,
            label: plain_of(here, *from),
        },
        Instruction::Convert { to, from, .. } | Instruction::UsualConversion { to, from, .. } => {
            let label = plain_of(here, *from);
            put_if(is_number(label), *to, label)
        }
        Instruction::Unary { to, operand, .. } => {
            let label = plain_of(here, *operand);
            put_if(is_number(label), *to, label)
        }
        Instruction::Binary {
            to,
            operator,
            left,
            right,
        } => {
            let (left, right) = (
                label_of(here, *left as usize),
                label_of(here, *right as usize),
            );
            put_found(*to, binary_label(*operator, left, right))
        }
        Instruction::Builtin {
            to,
            first,
            second: None,
            ..
        } => {
            let label = plain_of(here, *first);
            put_if(is_number(label), *to, label)
        }
        Instruction::Builtin {
            to,
            first,
            second: Some(second),
            ..
        } => {
            let (first, second) = (plain_of(here, *first), plain_of(here, *second));
            put_if(
                is_number(first) && is_number(second),
                *to,
                joined(first, second),
            )
        }
        _ => Step::Wrong,
    }
}

/// What an instruction that makes no value and no access does to labels; Wrong of all others.
fn way_step(here: &[Label], instruction: &Instruction) -> Step
    ensures { (w : CodeFreedom) → Goes result → result ≡ step_of w (labels_of here.now) instruction.now }
{
    match instruction {
        Instruction::UnsetArray { .. }
        | Instruction::Barrier { .. }
        | Instruction::Enter { .. }
        | Instruction::Turn { .. } => Step::Keeps,
        Instruction::JumpIfZero { test, .. } => keep_if(is_same(plain_of(here, *test))),
        Instruction::Jump { .. } | Instruction::Back { .. } | Instruction::End => Step::Ends,
        _ => Step::Wrong,
    }
}

impl Checked<'_> {
    /// What an instruction does to labels that makes an id, what a parameter holds, or a pointer; Wrong of all others.
    fn place_step(&self, here: &[Label], instruction: &Instruction) -> Step
        ensures { Goes result → result ≡ step_of (free_of self.now) (labels_of here.now) instruction.now }
    {
        match instruction {
            Instruction::Dimensions { to } => Step::Puts {
                to: *to,
                label: Label::Same,
            },
            Instruction::Query { to, dimension, .. } => {
                put_if(is_same(plain_of(here, *dimension)), *to, Label::Same)
            }
            Instruction::Argument { to, number, kind } => Step::Puts {
                to: *to,
                label: self.parameter(*number, *kind),
            },
            Instruction::Local { to, number, .. } => Step::Puts {
                to: *to,
                label: pointer_label(is_free(&self.free.locals, *number as usize)),
            },
            Instruction::MovePointer { to, from } => {
                let label = plain_of(here, *from);
                put_if(is_pointer(label), *to, label)
            }
            Instruction::Offset { to, pointer, index } => put_found(
                *to,
                moved_label(plain_of(here, *pointer), plain_of(here, *index)),
            ),
            _ => Step::Wrong,
        }
    }

    /// What an instruction does to labels that reads or writes an object or a private array; Wrong of all others.
    fn access_step(&self, here: &[Label], instruction: &Instruction) -> Step
        ensures { Goes result → result ≡ step_of (free_of self.now) (labels_of here.now) instruction.now }
    {
        match instruction {
            Instruction::PrivateLoad {
                to,
                array,
                index,
                ..
            } => {
                let is_free = is_free(&self.free.arrays, *array as usize);
                put_if(is_same(plain_of(here, *index)), *to, number_label(is_free))
            }
            Instruction::PrivateStore {
                array,
                index,
                value,
                ..
            } => {
                let is_free = is_free(&self.free.arrays, *array as usize);
                let (index, value) = (plain_of(here, *index), plain_of(here, *value));
                keep_if(is_same(index) && may_keep(is_free, value))
            }
            Instruction::Load { to, pointer } => {
                let pointer = plain_of(here, *pointer);
                put_if(is_pointer(pointer), *to, loaded(pointer))
            }
            Instruction::Store { pointer, value } => {
                let (pointer, value) = (plain_of(here, *pointer), plain_of(here, *value));
                keep_if(may_store(self.uniform, pointer, value))
            }
            Instruction::Update {
                pointer,
                value: None,
                ..
            } => keep_if(is_pointer(plain_of(here, *pointer))),
            Instruction::Update {
                pointer,
                value: Some(value),
                ..
            } => keep_if(may_put(plain_of(here, *pointer), plain_of(here, *value))),
            Instruction::Fetch {
                to,
                pointer,
                operands,
                ..
            } => {
                let pointer = plain_of(here, *pointer);
                put_if(may_fetch(here, pointer, *operands), *to, loaded(pointer))
            }
            _ => Step::Wrong,
        }
    }

    /// What an instruction does to labels; Wrong where they don't fit it.
    fn step(&self, here: &[Label], instruction: &Instruction) -> Step
        ensures { Goes result → result ≡ step_of (free_of self.now) (labels_of here.now) instruction.now }
    {
        match instruction {
            Instruction::Constant { .. }
            | Instruction::Unset { .. }
            | Instruction::Move { .. }
            | Instruction::AssignConversion { .. }
            | Instruction::Convert { .. }
            | Instruction::UsualConversion { .. }
            | Instruction::Unary { .. }
            | Instruction::Binary { .. }
            | Instruction::Builtin { .. } => value_step(here, instruction),
            Instruction::Dimensions { .. }
            | Instruction::Query { .. }
            | Instruction::Argument { .. }
            | Instruction::Local { .. }
            | Instruction::MovePointer { .. }
            | Instruction::Offset { .. } => self.place_step(here, instruction),
            Instruction::PrivateLoad { .. }
            | Instruction::PrivateStore { .. }
            | Instruction::Load { .. }
            | Instruction::Store { .. }
            | Instruction::Update { .. }
            | Instruction::Fetch { .. } => self.access_step(here, instruction),
            Instruction::UnsetArray { .. }
            | Instruction::Barrier { .. }
            | Instruction::Enter { .. }
            | Instruction::Turn { .. }
            | Instruction::Jump { .. }
            | Instruction::JumpIfZero { .. }
            | Instruction::Back { .. }
            | Instruction::End => way_step(here, instruction),
        }
    }

    /// Goes over the instruction at a place: labels become those of the next place. False where they don't fit it.
    fn passes(&self, place: usize, here: &mut Row, instruction: &Instruction) -> bool
        requires { place < 2 ^ 32 }
        ensures { IsTrue result → Passes self.now place (labels_of here.old) instruction.now (labels_of here.new) }
    {
        let step = self.step(here.as_slice(), instruction);
        self.leads(place, here.as_slice(), instruction)
            && here.take(step)
            && self.arrives(place + 1, here)
    }

    /// Whether the labels fit code of so many registers: of each place those of its row, if a jump leads there, and
    /// else those that the instruction before it leaves. An error is out of memory.
    pub(crate) fn fits(
        &self,
        alloc: Global,
        registers: usize,
        instructions: &[Instruction],
    ) -> Result<bool, AllocError>
        requires { length instructions.now < 2 ^ 32 }
        ensures { IfOk result (λ fits. IsTrue fits → AreLabels (free_of self.now) instructions.now (labels_at (free_of self.now) instructions.now self.now.rows.now)) }
    {
        let mut here = Row::unset(alloc, registers)?;
        if !self.arrives(0, &mut here) {
            return Ok(false);
        }
        for place in 0..instructions.len() {
            if !self.passes(place, &mut here, &instructions[place]) {
                return Ok(false);
            }
        }
        Ok(true)
    }
}
