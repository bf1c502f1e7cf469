//! Laws of origins. Each is the contract of a function that does nothing.
#![tactic(auto)]

ghost use Rattle.origins.specs.Marks.{ExpressionsMarked, KernelsMarked};

/// The code of each expression, and of each kernel, has as many instructions as origins, and each instruction that acts
/// or can fail is one that the node of its origin makes.
pub fn code_is_marked()
    ensures expressions { ExpressionsMarked }
    ensures kernels { KernelsMarked }
{}
