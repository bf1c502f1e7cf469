//! The laws of wide scripts.
#![tactic(auto)]

ghost use Rattle.wide_scripts.specs.Notes.{NothingIsFree, WalksAreWide};
ghost use Rattle.wide_scripts.specs.Scripts.{RunsAreOne};

use clsyntax::one_source;
use cltypes::laws::typed_exactly;
use device::laws::launches_once;

/// The machine has one run over a script, if no command lacks memory (OpenCL 1.2, section 3.2.1).
pub fn runs_are_one()
    ensures { RunsAreOne }
{
    one_source();
    typed_exactly();
    launches_once();
}

/// Where a run of a script has a walk, its replies hold for all bytes of the writes and fills that are free (OpenCL
/// 1.2, sections 3.2 and 3.3.1).
pub fn walks_are_wide()
    ensures { WalksAreWide }
{}

/// The reply to a launch holds for the bytes and the numbers that it has (own).
pub fn nothing_is_free()
    ensures { NothingIsFree }
{}
