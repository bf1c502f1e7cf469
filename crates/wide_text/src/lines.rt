//! The lines of the commands that have a flag.
#![tactic(auto)]

ghost use Rattle.std.specs.Prelude.{◌≡◌, IfOk, ◌++◌, ◌∷◌, [], if◌then◌else◌, OnOk};
ghost use Rattle.wide_text.specs.Told.{lines_of};

use simfile::script::CommandPlace;
use std::alloc::{AllocError, Global};
use wide_sources::is_set;

/// Adds a line, if it is one of those.
fn push_if(lines: &mut Vec<usize>, line: usize, is_one: bool) -> Result<(), AllocError>
    ensures { OnOk result (lines.new.items ≡ lines.old.items ++ (if is_one then line ∷ [] else [])) }
{
    if is_one {
        lines.push(line)?;
    }
    Ok(())
}

/// The lines of the commands whose flags are set, in their order. An error is out of memory.
pub(crate) fn lines_of(
    alloc: Global,
    flags: &[bool],
    places: &[CommandPlace],
) -> Result<Vec<usize>, AllocError>
    ensures { IfOk result (λ lines. lines.items ≡ lines_of flags.now places.now) }
{
    let mut lines = Vec::new(alloc);
    for number in 0..places.len() {
        push_if(&mut lines, places[number].line, is_set(flags, number))?;
    }
    Ok(lines)
}
