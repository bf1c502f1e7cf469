//! Launches that weren't refused.
#![tactic(auto)]

ghost use Rattle.std.specs.Prelude.{◌≡◌, ◌≤◌, length, IfOk};
ghost use Rattle.item_step.specs.Objects.{all_sizes, most_local_bytes};
ghost use Rattle.item_step.specs.Setups.{plain};
ghost use Rattle.clmodel.specs.Setup.{kernel_in, objects_of};
ghost use Rattle.clmodel.specs.Tree.{program};
ghost use Rattle.clmodel.specs.Typing.Sizes.{parameter_limit};
ghost use Rattle.host_commands.specs.Ranges.{IsLaunchable};
ghost use Rattle.device.specs.Kept.{ActsAs, IsCodeOf};

use crate::running::RunEnd;
use clmodel::setup::Range;
use clmodel::text::Name;
use cltypes::Checked;
use host_commands::kernel::Kernel;
use host_commands::ranges::group_items;
use item_step::{Launch, Setup};
use limits::Configuration;
use regcode::Code;
use std::alloc::{AllocError, Global};

/// A kernel that may be launched, with its program and its code.
#[derive(Drop)]
pub(crate) struct Prepared<'a> {
    pub(crate) checked: &'a Checked,
    pub(crate) kernel: &'a Kernel,
    pub(crate) code: &'a Code,
    pub(crate) configuration: Configuration,
    pub(crate) ghost faithful: { ActsAs (program checked.now.tree) kernel.now.function code.now },
    pub(crate) ghost listed: { IsCodeOf (program checked.now.tree) kernel.now.function code.now },
    pub(crate) ghost few: { length kernel.now.arguments ≤ parameter_limit },
    pub(crate) ghost fits: { all_sizes (objects_of (kernel_in (program checked.now.tree).functions kernel.now.function) kernel.now.arguments) ≤ most_local_bytes },
}

/// A launch that may run, with the names of its buffers.
#[derive(Drop)]
pub(crate) struct Started<'a> {
    pub(crate) launch: Launch<'a>,
    pub(crate) names: Vec<Name>,
}

/// How a launch ended, with the names of its buffers.
#[derive(Drop)]
pub(crate) struct Launched {
    pub(crate) names: Vec<Name>,
    pub(crate) end: RunEnd,
}

impl<'a> Prepared<'a> {
    ghost use Rattle.device.specs.Prepared.{prepared_setup};
    ghost use Rattle.item_step.specs.Launches.{code_of, setup_of};
    ghost use Rattle.launches.specs.Groups.{HasGroups};

    /// What it runs over a range.
    fn setup(&self, range: &'a Range) -> Setup<'a>
        ensures { plain result ≡ prepared_setup self.now range.now }
    {
        Setup {
            tree: &self.checked.tree,
            kernel: self.kernel.function(),
            range,
            arguments: self.kernel.arguments(),
            budget: self.configuration.budget,
        }
    }

    /// Its launch over a range.
    pub(crate) fn launch(&self, alloc: Global, range: &'a Range) -> Result<Launch<'a>, AllocError>
        requires { IsLaunchable self.now.configuration.limits range.now }
        ensures setup { IfOk result (λ launch. setup_of launch ≡ prepared_setup self.now range.now) }
        ensures groups { IfOk result (λ launch. HasGroups (setup_of launch)) }
        ensures code { IfOk result (λ launch. IsCodeOf (setup_of launch).program (setup_of launch).kernel (code_of launch)) }
    {
        let group_size = group_items(&self.configuration.limits, range);
        Launch::new(alloc, self.setup(range), group_size, self.code)
    }
}
