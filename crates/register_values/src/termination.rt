//! Why an item doesn't go on.
#![tactic(auto)]

use clmodel::action::Cause;

/// An instruction has no next one: the item fails, or it has ended.
#[derive(Clone, Copy)]
pub enum Termination {
    Fail(Cause),
    Finish,
}
