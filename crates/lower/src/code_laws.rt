//! Laws of the code of kernels. Each is the contract of a function that does nothing.
#![tactic(auto)]

ghost use Rattle.lower.specs.Correct.{ActsAsTheTree};

/// For each program, kernel, launch, item and list of answers, a kernel's code acts as its tree, whatever its tables
/// are. A register that is read unset, but as a variable, would fail with the name that the tables give it, and another
/// name would show: no kernel's code comes there.
pub fn acts_as_the_tree()
    ensures { ActsAsTheTree }
{}
