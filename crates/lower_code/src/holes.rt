//! The functions that can be called, and where their bodies stand.
#![tactic(auto)]

ghost use Rattle.std.specs.Prelude.{◌≡◌, ◌≤◌, length, take};
ghost use Rattle.lower_code.specs.Helpers.{BarriersKnown, BarriersCounted, LengthsKnown, LengthsCounted, NodesCounted, WidthsCounted, EndsKnown};
ghost use Rattle.lower_code.specs.Room.{FewElements};

use crate::known::KnownFunction;
use crate::positions::BodyPosition;
use clmodel::tree::Function;
use clnum::IntType;
use regcode::Instruction;

/// The functions that can be called, in the order of the text, what is known of each of them, and the end of each name:
/// how many functions there are up to the last that has it, or more; 0, or nothing in the list, where none has it.
#[derive(Clone, Copy)]
pub struct Helpers<'a> {
    pub functions: &'a [Function],
    pub known: &'a [KnownFunction],
    pub ends: &'a [usize],
    pub ghost barriers: { BarriersKnown functions.now known.now },
    pub ghost complete: { length functions.now ≤ length known.now },
    pub ghost counted: { BarriersCounted functions.now known.now },
    pub ghost lengths: { LengthsKnown functions.now known.now },
    pub ghost measured: { LengthsCounted functions.now known.now },
    pub ghost nodes: { NodesCounted functions.now },
    pub ghost ends_known: { EndsKnown functions.now ends.now },
    pub ghost widths: { WidthsCounted functions.now },
    pub ghost elements: { FewElements functions.now },
}

impl<'a> Helpers<'a> {
    /// Those before a place.
    pub fn before(self, place: usize) -> Helpers<'a>
        requires { place ≤ length self.functions.now }
        ensures { result.functions.now ≡ take place self.entry.functions.now }
    {
        Helpers {
            functions: &self.functions[..place],
            known: self.known,
            ends: self.ends,
        }
    }
}

/// What stands round all statements of a function: the functions before it, and the type of its value.
#[derive(Clone, Copy)]
pub struct StatementContext<'a> {
    pub helpers: Helpers<'a>,
    pub result: Option<IntType>,
}

/// The body of a helper that is left out of code: the functions before the helper, what is known of them and the ends
/// of names, the helper, and where its body stands.
#[derive(Clone, Copy)]
pub struct Hole<'a> {
    pub functions: &'a [Function],
    pub known: &'a [KnownFunction],
    pub ends: &'a [usize],
    pub function: &'a Function,
    pub position: BodyPosition,
}

/// A part of code: an instruction, or the body of a helper that is left out.
#[derive(Clone, Copy)]
pub enum CodePart<'a> {
    Own(Instruction),
    Left(Hole<'a>),
}
