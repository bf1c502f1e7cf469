//! What an item asks where it rests.
#![tactic(auto)]

ghost use Rattle.std.specs.Prelude.{◌≡◌, ℕ, List};
ghost use Rattle.item_step.specs.Accessing.{access_of};
ghost use Rattle.item_step.specs.BriefActions.{action_from};

use crate::brief_action::BriefAction;
use clmodel::access::Operation;
use clmodel::action::Fences;
use clmodel::operand::Pointer;
use clnum::IntType;
use item_state::Rest;

/// What an instruction asks.
#[derive(Clone, Copy)]
pub(crate) enum AskedAction {
    Access {
        pointer: Pointer,
        operation: Operation,
    },
    Barrier {
        site: u32,
        depth: u32,
        fences: Fences,
    },
}

/// How an item goes on with an answer.
#[derive(Clone, Copy)]
pub(crate) enum Pending {
    /// A register gets the number that was answered, as one of a type
    Put { to: u32, element: IntType },
    /// The next instruction follows
    Pass,
}

/// The access that a load, a store or an atomic update makes, and how the item goes on with the answer.
#[derive(Clone, Copy)]
pub(crate) struct FoundAccess {
    pub(crate) pointer: Pointer,
    pub(crate) operation: Operation,
    pub(crate) pending: Pending,
}

impl FoundAccess {
    /// The access as an action.
    #[inline(always)]
    pub(crate) fn action(self) -> BriefAction
        ensures { (turns : List ℕ) → action_from result turns ≡ access_of self }
    {
        BriefAction::Access {
            object: self.pointer.object,
            element: self.pointer.offset,
            operation: self.operation,
        }
    }
}

/// Why an item doesn't go on by steps.
#[derive(Clone, Copy)]
pub(crate) enum StepEnd {
    /// It makes the access of a load or a store
    Access(FoundAccess),
    /// It stands at an atomic update, whose access is still to be found
    Updates,
    /// It rests
    Rests(Rest),
}

/// The action that an item makes, and how it goes on with the answer, if it takes one.
#[derive(Clone, Copy)]
pub(crate) struct FoundAction {
    pub(crate) action: BriefAction,
    pub(crate) pending: Option<Pending>,
}
