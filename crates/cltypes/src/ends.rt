//! The faults behind a function's body.
#![tactic(auto)]

ghost use Rattle.std.specs.Prelude.{◌≡◌};
ghost use Rattle.clmodel.specs.Tree.{func};
ghost use Rattle.clmodel.specs.Typing.Sizes as counted;
ghost use Rattle.clmodel.specs.Typing.Least.{first};
ghost use Rattle.clmodel.specs.Typing.Functions.{end_faults};
ghost use Rattle.cltypes.specs.Limits.{capped};

use crate::returns::always_returns;
use crate::size::{PARAMETER_LIMIT, Size};
use clmodel::tree::Function;
use clmodel::type_fault::TypeFault;
use limits::Limits;

/// The first fault behind the body of a function whose body has this size, at the function's name: a value that isn't
/// always given (MissingReturn), then for a kernel loops nested deeper than the device's limits allow (TooManyLoops),
/// then private arrays of more bytes or more nodes than these allow (TooLarge), and then for each function too many
/// parameters (TooLarge).
pub fn end_fault(limits: Limits, function: &Function, size: Size) -> Option<TypeFault>
    ensures { (s : counted.Size) → size ≡ capped s → result ≡ first (end_faults limits (func function.now) s) }
{
    let at = function.name_at;
    if function.result.is_some() && !always_returns(&function.body) {
        Some(TypeFault::MissingReturn { at })
    } else if function.is_kernel && size.loops > limits.loops {
        Some(TypeFault::TooManyLoops { at })
    } else if function.is_kernel
        && (size.bytes > limits.private_bytes || size.nodes > limits.nodes)
    {
        Some(TypeFault::TooLarge { at })
    } else if function.parameters.len() > PARAMETER_LIMIT {
        Some(TypeFault::TooLarge { at })
    } else {
        None
    }
}
