//! Why a syntax tree is no typed program.
#![tactic(auto)]

ghost use Rattle.std.specs.Prelude.{◌≡◌};
ghost use Rattle.clmodel.specs.Typing.Least.{number, offset};

use std::alloc::AllocError;

/// A fault of a tree's types (OpenCL 1.2, sections 6.1 to 6.12). Each has the byte number of the name, expression,
/// statement or number that it is about, but out of memory.
#[derive(Clone, Copy, Debug, PartialEq, Eq)]
pub enum TypeFault {
    /// 1: a name that isn't in scope
    UnknownName { at: u32 },
    /// 2: a name declared again in its scope, or one that can't be declared
    Redeclared { at: u32 },
    /// 3: an operand, condition, argument or value of a wrong kind
    TypeMismatch { at: u32 },
    /// 4: a store to what is constant, or a `const` that is dropped
    NotAssignable { at: u32 },
    /// 5: a call of a function in its own body
    Recursion { at: u32 },
    /// 6: a call with too few or too many arguments
    WrongArgumentCount { at: u32 },
    /// 7: a pointer of another address space than wanted
    WrongSpace { at: u32 },
    /// 8: an argument of `barrier` that names no fences
    BadBarrierFlags { at: u32 },
    /// 10 (9 was a used value of an atomic call, which is no fault): loops nested too deep
    TooManyLoops { at: u32 },
    /// 11: an array or a kernel that is too large
    TooLarge { at: u32 },
    /// 12: a function with a result that doesn't always return
    MissingReturn { at: u32 },
    /// 13
    OutOfMemory,
}

impl TypeFault {
    /// Its number, from 1 on.
    pub fn number(self) -> u8
        ensures { result ≡ number self }
    {
        match self {
            TypeFault::UnknownName { .. } => 1,
            TypeFault::Redeclared { .. } => 2,
            TypeFault::TypeMismatch { .. } => 3,
            TypeFault::NotAssignable { .. } => 4,
            TypeFault::Recursion { .. } => 5,
            TypeFault::WrongArgumentCount { .. } => 6,
            TypeFault::WrongSpace { .. } => 7,
            TypeFault::BadBarrierFlags { .. } => 8,
            TypeFault::TooManyLoops { .. } => 10,
            TypeFault::TooLarge { .. } => 11,
            TypeFault::MissingReturn { .. } => 12,
            TypeFault::OutOfMemory => 13,
        }
    }

    /// The number of the byte where it is, 0 for out of memory.
    pub fn offset(self) -> u32
        ensures { result ≡ offset self }
    {
        match self {
            TypeFault::UnknownName { at }
            | TypeFault::Redeclared { at }
            | TypeFault::TypeMismatch { at }
            | TypeFault::NotAssignable { at }
            | TypeFault::Recursion { at }
            | TypeFault::WrongArgumentCount { at }
            | TypeFault::WrongSpace { at }
            | TypeFault::BadBarrierFlags { at }
            | TypeFault::TooManyLoops { at }
            | TypeFault::TooLarge { at }
            | TypeFault::MissingReturn { at } => at,
            TypeFault::OutOfMemory => 0,
        }
    }
}

impl From<AllocError> for TypeFault {
    ghost use Rattle.std.specs.Prelude.{◌≡◌};
    ghost use Rattle.clmodel.specs.declared.type_fault.TypeFault.TheVariants.{OutOfMemory};

    ghost from_gives = { λ _ fault. fault ≡ OutOfMemory };

    fn from(_: AllocError) -> Self {
        TypeFault::OutOfMemory
    }
}
