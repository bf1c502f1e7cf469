//! Kinds of accesses.

ghost use Rattle.std.specs.Prelude.{◌≡◌, ◌<◌};
ghost use Rattle.clmodel.specs.Launch.{class_number, clash, both_store};
ghost use Rattle.access_list.specs.Kinds.{kind_number};

use clmodel::access::{AccessKind, Clash, Class};

/// The number of a class.
fn class_number(class: Class) -> u8
    ensures value { result ≡ class_number class }
    ensures small { result < 8 }
{
    match class {
        Class::Add => 0,
        Class::And => 1,
        Class::Or => 2,
        Class::Xor => 3,
        Class::SignedMin => 4,
        Class::UnsignedMin => 5,
        Class::SignedMax => 6,
        Class::UnsignedMax => 7,
    }
}

/// The number of a kind: two kinds have one number only where they are equal.
pub fn kind_number(kind: AccessKind) -> u8
    ensures value { result ≡ kind_number kind }
    ensures small { result < 11 }
{
    match kind {
        AccessKind::Load => 8,
        AccessKind::Store => 9,
        AccessKind::Update(class) => class_number(class),
        AccessKind::Fetch => 10,
    }
}

/// Whether both are stores.
pub fn both_store(kind: AccessKind, other: AccessKind) -> bool
    ensures { result ≡ both_store kind other }
{
    match kind {
        AccessKind::Store => match other {
            AccessKind::Store => true,
            AccessKind::Load | AccessKind::Update(_) | AccessKind::Fetch => false,
        },
        AccessKind::Load | AccessKind::Update(_) | AccessKind::Fetch => false,
    }
}

/// How two kinds of accesses conflict, if they do (OpenCL 1.2, section 3.3.1).
pub fn clash(kind: AccessKind, other: AccessKind) -> Option<Clash>
    ensures { result ≡ clash kind other }
{
    match kind {
        AccessKind::Load => match other {
            AccessKind::Load => None,
            AccessKind::Store | AccessKind::Update(_) | AccessKind::Fetch => Some(Clash::Race),
        },
        AccessKind::Store => Some(Clash::Race),
        AccessKind::Update(class) => match other {
            AccessKind::Load | AccessKind::Store => Some(Clash::Race),
            AccessKind::Update(other_class) => {
                if class_number(class) == class_number(other_class) {
                    None
                } else {
                    Some(Clash::Order)
                }
            }
            AccessKind::Fetch => Some(Clash::Order),
        },
        AccessKind::Fetch => match other {
            AccessKind::Load | AccessKind::Store => Some(Clash::Race),
            AccessKind::Update(_) | AccessKind::Fetch => Some(Clash::Order),
        },
    }
}
