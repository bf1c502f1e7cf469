//! The words of the classes of atomic updates and of the kinds of accesses, as replies and explanations have them. It
//! knows kinds as data, and no text round a word.
#![tactic(auto)]

ghost use Rattle.std.specs.Prelude.{◌≡◌};
ghost use Rattle.fault_lines.specs.Words.{class_text, kind_text};

use clmodel::access::{AccessKind, Class};

/// The word of a class of atomic updates (OpenCL 1.2, section 6.12.11).
pub fn class_word(class: Class) -> &'static str
    ensures { result.now ≡ class_text class }
{
    match class {
        Class::Add => "add",
        Class::And => "and",
        Class::Or => "or",
        Class::Xor => "xor",
        Class::SignedMin => "smin",
        Class::UnsignedMin => "umin",
        Class::SignedMax => "smax",
        Class::UnsignedMax => "umax",
    }
}

/// The word of a kind of access, which for an update is that of its class.
pub fn kind_word(kind: AccessKind) -> &'static str
    ensures { result.now ≡ kind_text kind }
{
    match kind {
        AccessKind::Load => "load",
        AccessKind::Store => "store",
        AccessKind::Update(class) => class_word(class),
        AccessKind::Fetch => "fetch",
    }
}
