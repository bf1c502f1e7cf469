//! Numbers that updates of several work-groups leave.

ghost use Rattle.std.specs.Prelude.{◌≡◌};
ghost use Rattle.joining.specs.Memory.{joined_number};

use clmodel::access::Class;
use spaces::cells::updated_word;

/// The number left of a first one where the lower groups left one of it and a further group another, by updates of one
/// class (OpenCL 1.2, section 6.12.11).
#[tactic(auto, unfolding(joining::specs::Memory::joined_number, clmodel::specs::Cells::updated_word))]
pub(crate) fn joined_number(class: Class, first: u32, lower: u32, own: u32) -> u32
    ensures { result ≡ joined_number class first lower own }
{
    match class {
        Class::Add => lower.wrapping_add(own.wrapping_sub(first)),
        Class::Xor => updated_word(class, lower, updated_word(class, own, first)),
        Class::And => updated_word(class, lower, own),
        Class::Or => updated_word(class, lower, own),
        Class::SignedMin => updated_word(class, lower, own),
        Class::UnsignedMin => updated_word(class, lower, own),
        Class::SignedMax => updated_word(class, lower, own),
        Class::UnsignedMax => updated_word(class, lower, own),
    }
}
