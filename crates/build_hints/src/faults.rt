//! Faults of a source: where each lies, and what it is.
#![tactic(auto)]

ghost use Rattle.std.specs.Prelude.{◌≡◌};
ghost use Rattle.build_hints.specs.Places.{fault_place};
ghost use Rattle.build_hints.specs.Titles as titles;

use clmodel::type_fault::TypeFault;
use clsyntax_lex::token::SyntaxFault;

/// Why a source doesn't build.
#[derive(Clone, Copy, Debug, PartialEq, Eq)]
pub enum Refused {
    Syntax(SyntaxFault),
    Type(TypeFault),
}

/// The byte of a source at which a fault lies.
pub(crate) fn place_of(fault: Refused) -> u32
    ensures { result ≡ fault_place fault }
{
    match fault {
        Refused::Type(fault) => fault.offset(),
        Refused::Syntax(
            SyntaxFault::BadByte { at }
            | SyntaxFault::NumberTooLarge { at }
            | SyntaxFault::Unexpected { at }
            | SyntaxFault::TooDeep { at }
            | SyntaxFault::TooLong { at },
        ) => at,
        Refused::Syntax(SyntaxFault::OutOfMemory) => 0,
    }
}

/// Whether it is a fault of syntax or of types, in a word.
pub(crate) fn kind_of(fault: Refused) -> &'static str
    ensures { result.now ≡ titles.kind_of fault }
{
    match fault {
        Refused::Syntax(_) => "syntax",
        Refused::Type(_) => "type",
    }
}

/// The number of a fault of syntax, from 1 to 6.
fn syntax_number(fault: SyntaxFault) -> u8
    ensures { result ≡ titles.syntax_number fault }
{
    match fault {
        SyntaxFault::BadByte { .. } => 1,
        SyntaxFault::NumberTooLarge { .. } => 2,
        SyntaxFault::Unexpected { .. } => 3,
        SyntaxFault::TooDeep { .. } => 4,
        SyntaxFault::TooLong { .. } => 5,
        SyntaxFault::OutOfMemory => 6,
    }
}

/// Its number among those of its kind, as `clsim check` has it.
pub(crate) fn number_of(fault: Refused) -> u8
    ensures { result ≡ titles.number_of fault }
{
    match fault {
        Refused::Syntax(fault) => syntax_number(fault),
        Refused::Type(fault) => fault.number(),
    }
}

/// The name of a fault of syntax, in one word.
fn syntax_name(fault: SyntaxFault) -> &'static str
    ensures { result.now ≡ titles.syntax_name fault }
{
    match fault {
        SyntaxFault::BadByte { .. } => "BadByte",
        SyntaxFault::NumberTooLarge { .. } => "NumberTooLarge",
        SyntaxFault::Unexpected { .. } => "Unexpected",
        SyntaxFault::TooDeep { .. } => "TooDeep",
        SyntaxFault::TooLong { .. } => "TooLong",
        SyntaxFault::OutOfMemory => "OutOfMemory",
    }
}

/// The name of a fault of types, in one word.
fn type_name(fault: TypeFault) -> &'static str
    ensures { result.now ≡ titles.type_name fault }
{
    match fault {
        TypeFault::UnknownName { .. } => "UnknownName",
        TypeFault::Redeclared { .. } => "Redeclared",
        TypeFault::TypeMismatch { .. } => "TypeMismatch",
        TypeFault::NotAssignable { .. } => "NotAssignable",
        TypeFault::Recursion { .. } => "Recursion",
        TypeFault::WrongArgumentCount { .. } => "WrongArgumentCount",
        TypeFault::WrongSpace { .. } => "WrongSpace",
        TypeFault::BadBarrierFlags { .. } => "BadBarrierFlags",
        TypeFault::TooManyLoops { .. } => "TooManyLoops",
        TypeFault::TooLarge { .. } => "TooLarge",
        TypeFault::MissingReturn { .. } => "MissingReturn",
        TypeFault::OutOfMemory => "OutOfMemory",
    }
}

/// Its name, as `clsim check` has it.
pub(crate) fn name_of(fault: Refused) -> &'static str
    ensures { result.now ≡ titles.name_of fault }
{
    match fault {
        Refused::Syntax(fault) => syntax_name(fault),
        Refused::Type(fault) => type_name(fault),
    }
}
