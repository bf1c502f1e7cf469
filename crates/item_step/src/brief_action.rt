//! What a work-item does next, without a copy of the turns of the loops round a barrier.
#![tactic(auto)]

use clmodel::access::{Object, Operation};
use clmodel::action::{Cause, Fences};

/// What an item does next. The turns of the loops round a barrier are the outermost `depth` of those of the item.
#[derive(Clone, Copy)]
pub enum BriefAction {
    /// A load, a store, an atomic update or a fetch of an element of an object
    Access {
        object: Object,
        element: i64,
        operation: Operation,
    },
    /// A barrier, by its site in the kernel
    Barrier {
        site: u32,
        depth: u32,
        fences: Fences,
    },
    /// It has come to its end
    End,
    /// It fails
    Fault(Cause),
}
