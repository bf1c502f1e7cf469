//! What a fault of a source says.
#![tactic(auto)]

ghost use Rattle.std.specs.Prelude.{◌≡◌};
ghost use Rattle.build_hints.specs.Titles as titles;

use crate::faults::Refused;
use clmodel::type_fault::TypeFault;
use clsyntax_lex::token::SyntaxFault;

/// What a fault of syntax says.
fn syntax_title(fault: SyntaxFault) -> &'static str
    ensures { result.now ≡ titles.syntax_title fault }
{
    match fault {
        SyntaxFault::BadByte { .. } =>
            "syntax 1 BadByte: no token begins with this byte, or it can't follow a number",
        SyntaxFault::NumberTooLarge { .. } =>
            "syntax 2 NumberTooLarge: no integer type holds this number",
        SyntaxFault::Unexpected { .. } => "syntax 3 Unexpected: no program goes on like this",
        SyntaxFault::TooDeep { .. } =>
            "syntax 4 TooDeep: more brackets, blocks and operators are open here than the limits allow (64, or 256 where they are large)",
        SyntaxFault::TooLong { .. } =>
            "syntax 5 TooLong: the source has more bytes than the limits allow (65,536, or 4,194,304 where they are large)",
        SyntaxFault::OutOfMemory => "out of memory",
    }
}

/// What a fault of types says.
fn type_title(fault: TypeFault) -> &'static str
    ensures { result.now ≡ titles.type_title fault }
{
    match fault {
        TypeFault::UnknownName { .. } => "type 1 UnknownName: nothing of this name is in scope",
        TypeFault::Redeclared { .. } =>
            "type 2 Redeclared: the name is taken in this scope, or reserved for a built-in function",
        TypeFault::TypeMismatch { .. } =>
            "type 3 TypeMismatch: an operand, condition, argument or value of another kind is wanted",
        TypeFault::NotAssignable { .. } =>
            "type 4 NotAssignable: what is constant can't be stored to, and const can't be dropped",
        TypeFault::Recursion { .. } => "type 5 Recursion: a function can't call itself",
        TypeFault::WrongArgumentCount { .. } =>
            "type 6 WrongArgumentCount: the function takes more or fewer arguments",
        TypeFault::WrongSpace { .. } =>
            "type 7 WrongSpace: a pointer to another address space is wanted",
        TypeFault::BadBarrierFlags { .. } =>
            "type 8 BadBarrierFlags: write CLK_LOCAL_MEM_FENCE, CLK_GLOBAL_MEM_FENCE, or both with | between",
        TypeFault::TooManyLoops { .. } =>
            "type 10 TooManyLoops: at most 8 loops stand in one another, with those of the functions that are called",
        TypeFault::TooLarge { .. } =>
            "type 11 TooLarge: an array without elements, or more elements of an array, private bytes or nodes of a kernel than the limits allow (32,768, 4,096 and 20,000, or 65,536, 65,536 and 1,000,000 where they are large)",
        TypeFault::MissingReturn { .. } =>
            "type 12 MissingReturn: a function with a value has to end in a return on each way",
        TypeFault::OutOfMemory => "out of memory",
    }
}

/// What a fault says: its kind, its number, its name, and what it means.
pub(crate) fn title_of(fault: Refused) -> &'static str
    ensures { result.now ≡ titles.title_of fault }
{
    match fault {
        Refused::Syntax(fault) => syntax_title(fault),
        Refused::Type(fault) => type_title(fault),
    }
}
