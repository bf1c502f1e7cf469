//! The search through code. Nothing rests on it: what is found is checked.
#![tactic(auto)]

ghost use Rattle.std.specs.Prelude.{◌<◌, ◌^◌, length};

use crate::known::{Known, NO_NUMBER, NOTHING, Set};
use crate::search::Search;
use crate::step::target;
use clmodel::setup::Argument;
use clmodel::text::Name;
use clmodel::tree::VariableType;
use regcode::{FetchOperands, Instruction};
use std::alloc::{AllocError, Global};

/// What is searched: code with so many registers, the names of a launch's buffers, its kernel's arguments, and whether
/// it is uniform.
#[derive(Clone, Copy)]
pub(crate) struct Searched<'a> {
    pub(crate) instructions: &'a [Instruction],
    pub(crate) registers: usize,
    pub(crate) names: &'a [Name],
    pub(crate) arguments: &'a [Option<Argument>],
    pub(crate) uniform: bool,
}

impl Search {
    /// What is known of a number that is made of one.
    fn of(&self, operand: u32) -> Known {
        self.at(operand).plain()
    }

    /// What is known of a number that is made of two.
    fn of_both(&self, left: u32, right: u32) -> Known {
        self.at(left).joined(self.at(right)).plain()
    }

    /// What is known of a number that is read through a pointer.
    fn read(&self, pointer: u32) -> Known {
        Known::number(self.held(self.at(pointer)))
    }
}

/// The place of a name among others, or their count where it isn't there.
fn place_among(names: &[Name], name: &Name) -> usize {
    for (i, other) in names.iter().enumerate() {
        if name == other {
            return i;
        }
    }
    names.len()
}

impl Searched<'_> {
    /// What stands behind the buffers as a source or an object: an argument or a local object, by its number.
    pub(crate) fn behind_buffers(&self, number: usize) -> usize {
        self.names.len().saturating_add(number)
    }

    /// What a parameter of a type holds.
    fn parameter(&self, index: usize, kind: VariableType) -> Known {
        let argument = match self.arguments.get(index) {
            Some(Some(argument)) => argument,
            _ => return NOTHING,
        };
        match (kind, argument) {
            (VariableType::Pointer(_), Argument::Buffer(name)) => {
                Known::pointer(place_among(self.names, name))
            }
            (VariableType::Pointer(_), Argument::Local(_)) => {
                Known::pointer(self.behind_buffers(index))
            }
            (VariableType::Integer(_), Argument::Value(_)) => {
                Known::number(Set::of(self.behind_buffers(index)))
            }
            _ => NOTHING,
        }
    }

    /// What is known of the register that an instruction writes, if it writes one.
    fn written(&self, here: &Search, instruction: &Instruction) -> Option<(u32, Known)> {
        match instruction {
            Instruction::Constant { to, value } => Some((*to, Known::constant(*value))),
            Instruction::Unset { to } => Some((*to, NOTHING)),
            Instruction::Move { to, from, .. } => Some((*to, here.at(*from))),
            Instruction::AssignConversion { to, from, .. }
            | Instruction::Convert { to, from, .. }
            | Instruction::UsualConversion { to, from, .. }
            | Instruction::MovePointer { to, from } => Some((*to, here.of(*from))),
            Instruction::Unary { to, operand, .. } => Some((*to, here.of(*operand))),
            Instruction::Binary {
                to,
                left,
                right,
                ..
            } => Some((*to, here.of_both(*left, *right))),
            Instruction::Builtin {
                to,
                first,
                second: None,
                ..
            } => Some((*to, here.of(*first))),
            Instruction::Builtin {
                to,
                first,
                second: Some(second),
                ..
            } => Some((*to, here.of_both(*first, *second))),
            Instruction::Dimensions { to } | Instruction::Query { to, .. } => {
                Some((*to, Known::number(NO_NUMBER)))
            }
            Instruction::Argument { to, number, kind } => {
                Some((*to, self.parameter(*number as usize, *kind)))
            }
            Instruction::Local { to, number, .. } => {
                Some((*to, Known::pointer(self.behind_buffers(*number as usize))))
            }
            Instruction::PrivateLoad { to, array, .. } => {
                Some((*to, Known::number(here.kept_in(*array))))
            }
            Instruction::Offset { to, pointer, .. } => Some((*to, here.of(*pointer))),
            Instruction::Load { to, pointer } | Instruction::Fetch { to, pointer, .. } => {
                Some((*to, here.read(*pointer)))
            }
            _ => None,
        }
    }

    /// The walk goes over the instruction at a place. An error is out of memory.
    pub(crate) fn step(
        &self,
        search: &mut Search,
        place: usize,
        instruction: &Instruction,
    ) -> Result<(), AllocError>
        requires { place < 2 ^ 32 }
    {
        put_down(search, instruction);
        let written = self.written(search, instruction);
        if let Some(next) = target(place, instruction) {
            search.jump(next)?;
        }
        match instruction {
            Instruction::Jump { .. } | Instruction::Back { .. } | Instruction::End =>
                search.forget(),
            _ => {
                if let Some((to, known)) = written {
                    search.set(to, known)?;
                }
            }
        }
        Ok(())
    }

    /// One walk over the code. An error is out of memory.
    fn pass(&self, search: &mut Search) -> Result<(), AllocError>
        requires { length self.now.instructions.now < 2 ^ 32 }
    {
        search.forget();
        for place in 0..self.instructions.len() {
            search.arrive(place)?;
            self.step(search, place, &self.instructions[place])?;
        }
        Ok(())
    }

    /// How many jumps there are: at least as many as places to which they lead.
    pub(crate) fn jumps(&self) -> usize
        requires { length self.now.instructions.now < 2 ^ 32 }
    {
        let mut jumps = 0usize;
        for place in 0..self.instructions.len() {
            if target(place, &self.instructions[place]).is_some() {
                jumps = jumps.saturating_add(1);
            }
        }
        jumps
    }

    /// Gives each place to which a jump leads its row. An error is out of memory.
    fn add_rows(&self, alloc: Global, search: &mut Search) -> Result<(), AllocError>
        requires { length self.now.instructions.now < 2 ^ 32 }
    {
        for place in 0..self.instructions.len() {
            if let Some(next) = target(place, &self.instructions[place]) {
                search.add_row(alloc, next)?;
            }
        }
        Ok(())
    }

    /// All that is known, once a walk adds nothing. An error is out of memory.
    pub(crate) fn run(&self, alloc: Global, arrays: usize) -> Result<Search, AllocError>
        requires { length self.now.instructions.now < 2 ^ 32 }
    {
        let places = self.instructions.len();
        let mut search = Search::new(alloc, places, self.registers, arrays, self.names.len())?;
        self.add_rows(alloc, &mut search)?;
        for _ in 0..u32::MAX {
            search.changed = false;
            self.pass(&mut search)?;
            if !search.changed {
                break;
            }
        }
        Ok(search)
    }
}

/// Puts what an instruction stores into the objects of its pointer, or into its private array.
fn put_down(search: &mut Search, instruction: &Instruction) {
    match instruction {
        Instruction::PrivateStore { array, value, .. } => {
            search.keep(*array, search.at(*value).sources);
        }
        Instruction::Store { pointer, value } => put_number(search, *pointer, *value),
        Instruction::Update {
            pointer,
            value: Some(value),
            ..
        } => put_number(search, *pointer, *value),
        Instruction::Fetch {
            pointer,
            operands,
            ..
        } => match operands {
            FetchOperands::Alone => {}
            FetchOperands::Number(value) => put_number(search, *pointer, *value),
            // What is left in the object depends on the expected number too.
            FetchOperands::Pair { expected, value } => {
                put_number(search, *pointer, *expected);
                put_number(search, *pointer, *value);
            }
        },
        _ => {}
    }
}

/// Puts a register's number into the objects of a pointer.
fn put_number(search: &mut Search, pointer: u32, value: u32) {
    let pointer = search.at(pointer);
    let sources = search.at(value).sources;
    search.put(pointer, sources);
}
