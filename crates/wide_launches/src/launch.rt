//! What the reply to a launch doesn't depend on.
#![tactic(auto)]

ghost use Rattle.std.specs.Prelude.{◌≡◌, IfOk, IfSome};
ghost use Rattle.clmodel.specs.Setup.{Setup, buffer_names};
ghost use Rattle.device.specs.Kept.{IsCodeOf};
ghost use Rattle.device.specs.Machine.{Machine};
ghost use Rattle.wide_launches.specs.Replies.{IsWideReply};

use crate::laws::replies_are_wide;
use clmodel::setup::Argument;
use clmodel::text::Name;
use regcode::Code;
use std::alloc::{AllocError, Global};
use widening::{Wide, widen};

/// The buffers of a launch, by their places among its names, and the arguments of its kernel, on whose bytes and
/// numbers the machine's reply to it doesn't depend; and the first place of its code where each of the others decides
/// (OpenCL 1.2, sections 3.2 and 3.3.1). The code is that of the launch's kernel. None where nothing was found, or the
/// code is too large (`widen`). An error is out of memory.
pub fn widen_launch(
    alloc: Global,
    code: &Code,
    names: &[Name],
    arguments: &[Option<Argument>],
    uniform: bool,
) -> Result<Option<Wide>, AllocError>
    ensures { IfOk result (λ found. IfSome found (λ wide. (old : Machine) (setup : Setup) → IsCodeOf setup.program setup.kernel code.now → setup.arguments ≡ arguments.now → buffer_names setup ≡ names.now → setup.range.uniform ≡ uniform → IsWideReply wide.buffers.items wide.arguments.items old setup)) }
{
    replies_are_wide();
    widen(alloc, code, names, arguments, uniform)
}
