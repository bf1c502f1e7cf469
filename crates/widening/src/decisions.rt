//! Where sources decide what a launch does. Nothing rests on it: what is found is checked.
#![tactic(auto)]

ghost use Rattle.std.specs.Prelude.{◌<◌, ◌^◌, length};

use crate::known::{NO_NUMBER, Set};
use crate::search::Search;
use crate::searched::Searched;
use clmodel::setup::Argument;
use clnum::BinaryOperator;
use regcode::Instruction;
use std::alloc::{AllocError, Global};

/// Why a source decides what a launch does.
#[derive(Clone, Copy, PartialEq, Eq, Debug)]
pub enum Why {
    /// It reaches the place of an access
    Address,
    /// It reaches a test
    Branch,
    /// It reaches a division that may fail
    Division,
    /// It reaches the index of a private array
    Index,
    /// It reaches the dimension of a work-item function
    Dimension,
    /// It is stored in a uniform launch
    UniformStore,
}

/// A source of numbers.
#[derive(Clone, Copy, PartialEq, Eq, Debug)]
pub enum Source {
    /// The bytes of a buffer, by its place among the launch's
    Buffer(usize),
    /// The number of an argument, by its index
    Argument(usize),
}

/// The first place in the code where a source decides, and why it does there.
#[derive(Clone, Copy)]
pub struct Decision {
    pub source: Source,
    pub place: usize,
    pub why: Why,
}

/// Sources that decide at a place and at no earlier one.
#[derive(Clone, Copy)]
pub(crate) struct Decided {
    sources: Set,
    place: usize,
    why: Why,
}

/// The sources that a division may fail by, where its operands are these.
fn divided(here: &Search, left: u32, right: u32) -> Set {
    let (left, right) = (here.at(left), here.at(right));
    if right.is_divisor {
        NO_NUMBER
    } else {
        left.sources.with(right.sources)
    }
}

/// Whether an operator may fail.
fn may_fail(operator: BinaryOperator) -> bool {
    match operator {
        BinaryOperator::Divide | BinaryOperator::Remainder => true,
        _ => false,
    }
}

impl Searched<'_> {
    /// The sources that decide at a place, and why.
    fn deciding(&self, here: &Search, instruction: &Instruction) -> Option<(Set, Why)> {
        match instruction {
            Instruction::Binary {
                operator,
                left,
                right,
                ..
            } if may_fail(*operator) => Some((divided(here, *left, *right), Why::Division)),
            Instruction::Query { dimension, .. } => {
                Some((here.at(*dimension).sources, Why::Dimension))
            }
            Instruction::PrivateLoad { index, .. } | Instruction::PrivateStore { index, .. } => {
                Some((here.at(*index).sources, Why::Index))
            }
            Instruction::Offset { index, .. } => Some((here.at(*index).sources, Why::Address)),
            Instruction::Store { value, .. } if self.uniform => {
                Some((here.at(*value).sources, Why::UniformStore))
            }
            Instruction::JumpIfZero { test, .. } => Some((here.at(*test).sources, Why::Branch)),
            _ => None,
        }
    }

    /// All sources that decide, by the first places where they do, in the order of the code, once all is known: a last
    /// walk. An error is out of memory.
    pub(crate) fn decided(
        &self,
        alloc: Global,
        search: &mut Search,
    ) -> Result<Vec<Decided>, AllocError>
        requires { length self.now.instructions.now < 2 ^ 32 }
    {
        let mut all = NO_NUMBER;
        let mut decided = Vec::new(alloc);
        search.forget();
        for place in 0..self.instructions.len() {
            let instruction = &self.instructions[place];
            search.arrive(place)?;
            if let Some((deciding, why)) = self.deciding(search, instruction) {
                let sources = deciding.without(all);
                if !sources.is_empty() {
                    all = all.with(sources);
                    decided.push(Decided {
                        sources,
                        place,
                        why,
                    })?;
                }
            }
            self.step(search, place, instruction)?;
        }
        Ok(decided)
    }

    /// Of each source that decides the first place where it does: buffers first, then arguments. An error is out of
    /// memory.
    pub(crate) fn decisions(
        &self,
        alloc: Global,
        decided: &[Decided],
    ) -> Result<Vec<Decision>, AllocError> {
        let mut decisions = Vec::new(alloc);
        for buffer in 0..self.names.len() {
            if let Some(first) = first_of(decided, buffer) {
                decisions.push(told(Source::Buffer(buffer), first))?;
            }
        }
        for (index, argument) in self.arguments.iter().enumerate() {
            if let Some(Argument::Value(_)) = argument {
                if let Some(first) = first_of(decided, self.behind_buffers(index)) {
                    decisions.push(told(Source::Argument(index), first))?;
                }
            }
        }
        Ok(decisions)
    }
}

/// The sources that decide anywhere.
pub(crate) fn all_of(decided: &[Decided]) -> Set {
    decided
        .iter()
        .fold(NO_NUMBER, |all, some| all.with(some.sources))
}

/// The first decision of a source, if it decides.
fn first_of(decided: &[Decided], source: usize) -> Option<Decided> {
    for first in decided {
        if first.sources.has(source) {
            return Some(*first);
        }
    }
    None
}

/// What is told of a decision of a source.
fn told(source: Source, first: Decided) -> Decision {
    Decision {
        source,
        place: first.place,
        why: first.why,
    }
}
