//! What stands round the statements of a function.
#![tactic(auto)]

ghost use Rattle.origins.specs.Helpers.{LengthsKnown};

use clmodel::tree::Function;
use clnum::IntType;

/// What stands round the statements of a function: the functions before it, how many instructions each of them has as a
/// helper, where that is known, and the type of its value.
#[derive(Clone, Copy)]
pub struct Setting<'a> {
    pub functions: &'a [Function],
    pub lengths: &'a [Option<usize>],
    pub result: Option<IntType>,
    pub ghost known: { LengthsKnown functions.now lengths.now },
}
