//! Where a work-item stops, without a copy of the turns of the loops round it.

ghost use Rattle.std.specs.Prelude.{◌≡◌, IfOk, take};
ghost use Rattle.clmodel.specs.Run.{same_stop};
ghost use Rattle.group_run.specs.Stops.{stop_from};

use clmodel::action::{Instance, Stop, Turns};
use launches::{is_at, same_stop};
use std::alloc::{AllocError, Global};

/// Where an item stops: at a barrier, by its site in the kernel, or at its end. The turns of the loops round a barrier
/// are the outermost `depth` of those of the item.
#[derive(Clone, Copy)]
pub enum BriefStop {
    /// At a barrier, by its site in the kernel
    At { site: u32, depth: u32 },
    /// At its end
    Ended,
}

/// The turns of the `depth` outermost loops.
fn outermost(turns: &[u32], depth: u32) -> &[u32]
    ensures { result.now ≡ take depth turns.now }
{
    &turns[..turns.len().min(depth as usize)]
}

impl BriefStop {
    /// Whether it is the same as another stop (OpenCL 1.2, section 6.12.8), where the item's loops have made these
    /// turns.
    pub(crate) fn is_same(self, turns: &[u32], other: &Stop) -> bool
        ensures { result ≡ same_stop other.now (stop_from self turns.now) }
    {
        match self {
            BriefStop::At { site, depth } => is_at(other, site, outermost(turns, depth)),
            BriefStop::Ended => same_stop(other, &Stop::Ended),
        }
    }

    /// The stop with a copy of the turns round it, where the item's loops have made these. An error is out of memory.
    pub(crate) fn with_turns(self, alloc: Global, turns: &[u32]) -> Result<Stop, AllocError>
        ensures { IfOk result (λ stop. stop ≡ stop_from self turns.now) }
    {
        match self {
            BriefStop::At { site, depth } => {
                let turns = Turns::copy_of(alloc, outermost(turns, depth))?;
                Ok(Stop::At(Instance { site, turns }))
            }
            BriefStop::Ended => Ok(Stop::Ended),
        }
    }
}
