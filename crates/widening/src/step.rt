//! What an instruction does to labels, and where it leads.
#![tactic(auto)]

ghost use Rattle.std.specs.Prelude.{◌≡◌, ◌<◌, ◌^◌};
ghost use Rattle.widening.specs.Listed as spec;

use regcode::Instruction;
use same_items::Label;

/// What an instruction does to labels.
#[derive(Clone, Copy)]
pub(crate) enum Step {
    /// They don't fit it
    Wrong,
    /// Nothing goes on behind it
    Ends,
    /// They stay as they are
    Keeps,
    /// A register gets another one
    Puts { to: u32, label: Label },
}

/// A register gets another label, if all fits.
pub(crate) fn put_if(fits: bool, to: u32, label: Label) -> Step
    ensures { result ≡ spec.put_if fits to label }
{
    if fits {
        Step::Puts { to, label }
    } else {
        Step::Wrong
    }
}

/// A register gets a label, if there is one.
pub(crate) fn put_found(to: u32, found: Option<Label>) -> Step
    ensures { result ≡ spec.put_found to found }
{
    match found {
        Some(label) => Step::Puts { to, label },
        None => Step::Wrong,
    }
}

/// Labels stay as they are, if all fits.
pub(crate) fn keep_if(fits: bool) -> Step
    ensures { result ≡ spec.keep_if fits }
{
    if fits { Step::Keeps } else { Step::Wrong }
}

/// The place to which an instruction at a place jumps.
pub(crate) fn target(place: usize, instruction: &Instruction) -> Option<usize>
    requires { place < 2 ^ 32 }
    ensures { result ≡ spec.target place instruction.now }
{
    match instruction {
        Instruction::Jump { by } | Instruction::JumpIfZero { by, .. } => {
            Some(place + 1 + *by as usize)
        }
        Instruction::Back { by } => Some(place.saturating_sub(*by as usize)),
        _ => None,
    }
}
