//! What an action is, by its kind.

ghost use Rattle.std.specs.Prelude.{◌≡◌};
ghost use Rattle.clmodel.specs.Run.{stop_of};
ghost use Rattle.replay.specs.Nexts.{access_of, cause_of};

use clmodel::access::{Object, Operation};
use clmodel::action::{Action, Cause, Stop};

/// An access as an item makes it next.
#[derive(Clone, Copy)]
pub struct NextAccess {
    pub object: Object,
    pub element: i64,
    pub operation: Operation,
}

/// The access that an action is, if it is one.
pub fn access_of(action: Action) -> Option<NextAccess>
    ensures { result ≡ access_of action }
{
    match action {
        Action::Access {
            object,
            element,
            operation,
        } => Some(NextAccess {
            object,
            element,
            operation,
        }),
        _ => None,
    }
}

/// Where an item waits whose action this is, if it waits.
pub fn stop_of(action: Action) -> Option<Stop>
    ensures { result ≡ stop_of action }
{
    match action {
        Action::Access { .. } => None,
        Action::Barrier { instance, .. } => Some(Stop::At(instance)),
        Action::End => Some(Stop::Ended),
        Action::Fault(_) => None,
    }
}

/// Why an item can do nothing more whose action this is, if it can't.
pub fn cause_of(action: Action) -> Option<Cause>
    ensures { result ≡ cause_of action }
{
    match action {
        Action::Fault(cause) => Some(cause),
        _ => None,
    }
}
