//! A launch may be shared by threads.
ghost use denote.Param.Send.{IsSync};
ghost use denote.Ref.{NamedLft};
ghost use Rattle.clmodel.specs.contracts.tree.Function as FunctionType;
ghost use Rattle.clmodel.specs.contracts.tree.Tree as TreeType;
ghost use Rattle.item_step.specs.contracts.launch.Launch as LaunchType;
ghost use Rattle.workers.specs.contracts.group_calls.GateCalls as GateCallsType;
ghost use Rattle.workers.specs.contracts.round.Round as RoundType;
ghost use Rattle.workers.specs.contracts.spare.SpareLogs as SpareLogsType;

use clmodel::setup::{Argument, Range};
use clmodel::text::Name;
use clmodel::tree::{Parameter, Statement};
use clnum::IntType;
use group_join::heap_logs_are_sent;
use regcode::Code;
use spaces::Buffers;
use std::marker::Sync;
use steps::Step;
use workers_draw::gate::Gate;

/// The type's values may be shared.
fn is_shared<T: Sync>()
    ensures { IsSync T.row }
{}

/// The functions of a program may be shared.
fn functions_are_shared()
    ensures { IsSync FunctionType.the_row }
{
    is_shared::<Option<IntType>>();
    is_shared::<Vec<Parameter>>();
    is_shared::<Vec<Statement>>();
}

/// Programs may be shared.
fn trees_are_shared()
    ensures { IsSync TreeType.the_row }
{
    functions_are_shared();
    is_shared::<Vec<Name>>();
}

/// Launches may be shared.
fn launches_are_shared()
    ensures { (ℓ : NamedLft) → IsSync (LaunchType.the_row ℓ) }
{
    trees_are_shared();
    is_shared::<Range>();
    is_shared::<Option<Argument>>();
    is_shared::<Code>();
    is_shared::<Vec<Name>>();
    is_shared::<Vec<u64>>();
    is_shared::<Vec<u32>>();
    is_shared::<Vec<Step>>();
}

/// Logs of groups that are done may be shared, behind their lock.
fn spares_are_shared()
    ensures { IsSync SpareLogsType.the_row }
{
    heap_logs_are_sent();
}

/// Groups of launches may be shared.
pub(crate) fn rounds_are_shared<G: Gate>()
    ensures { (ℓ ℓs ℓc ℓg : NamedLft) → IsSync (RoundType.the_row ℓ ℓs ℓc (GateCallsType.the_row ℓg G.row)) }
{
    launches_are_shared();
    is_shared::<Buffers>();
    spares_are_shared();
    is_shared::<G>();
}
