//! Building programs (OpenCL 1.2, section 5.6.2).
#![tactic(auto)]

ghost use Rattle.std.specs.Prelude.{IfOk, IfErr, Ok};
ghost use Rattle.clmodel.specs.Tree.{program};
ghost use Rattle.host_commands.specs.Builds.{Builds, IsUnbuilt};

use crate::command::{BuildFault, Refusal};
use clsyntax_lex::token::SyntaxFault;
use cltypes::{Checked, TypeFault};
use limits::Limits;
use std::alloc::Global;
use thiserror::Error;

/// Why no program was made of a source.
#[derive(Clone, Copy, Debug, PartialEq, Eq, Error)]
pub enum NotBuilt {
    /// The source doesn't build
    #[error("the source has a fault")]
    Fault(BuildFault),
    /// No memory is left to build it, and nothing is known of it
    #[error("out of memory")]
    OutOfMemory,
}

impl From<SyntaxFault> for NotBuilt {
    ghost use Rattle.std.specs.Prelude.{◌≡◌};
    ghost use Rattle.host_commands.specs.Builds.{syntax_reason};

    ghost from_gives = { λ fault made. made ≡ syntax_reason fault };

    fn from(fault: SyntaxFault) -> Self {
        match fault {
            SyntaxFault::OutOfMemory => NotBuilt::OutOfMemory,
            fault => NotBuilt::Fault(BuildFault::Syntax(fault)),
        }
    }
}

impl From<TypeFault> for NotBuilt {
    ghost use Rattle.std.specs.Prelude.{◌≡◌};
    ghost use Rattle.host_commands.specs.Builds.{type_reason};

    ghost from_gives = { λ fault made. made ≡ type_reason fault };

    fn from(fault: TypeFault) -> Self {
        match fault {
            TypeFault::OutOfMemory => NotBuilt::OutOfMemory,
            fault => NotBuilt::Fault(BuildFault::Type(fault)),
        }
    }
}

impl From<NotBuilt> for Refusal {
    ghost use Rattle.std.specs.Prelude.{◌≡◌};
    ghost use Rattle.host_commands.specs.Builds.{refusal_of};

    ghost from_gives = { λ why made. made ≡ refusal_of why };

    fn from(why: NotBuilt) -> Self {
        match why {
            NotBuilt::Fault(fault) => Refusal::BuildFailed(fault),
            NotBuilt::OutOfMemory => Refusal::OutOfMemory,
        }
    }
}

/// Builds a source within the limits of a device: reads it and checks its types.
#[tactic(auto, unfolding(crate::specs::Builds::Builds))]
pub fn build(alloc: Global, limits: Limits, source: &[u8]) -> Result<Checked, NotBuilt>
    ensures built { IfOk result (λ checked. Builds limits source.now (Ok (program checked.tree))) }
    ensures unbuilt { IfErr result (IsUnbuilt limits source.now) }
{
    let tree = clsyntax::read(alloc, limits, source)?;
    Ok(cltypes::check(alloc, limits, tree)?)
}
