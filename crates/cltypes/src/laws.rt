//! The laws of types, each the contract of a function that does nothing.
#![tactic(auto)]

ghost use Rattle.cltypes.specs.Answers.{IsTypedExactly};
ghost use Rattle.cltypes.specs.Samples.{AreSampled};

/// A program is typed exactly where it has no fault, and it has one fault at most.
pub fn typed_exactly()
    ensures { IsTypedExactly }
{}

/// The first faults of some statements and texts, and how many nodes some statements have.
pub fn samples()
    ensures { AreSampled }
{}
