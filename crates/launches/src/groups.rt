//! How many work-groups a launch has.

ghost use Rattle.std.specs.Prelude.{◌≡◌, ◌*◌, ◌<◌};
ghost use Rattle.clmodel.specs.Setup.{item_count, group_items};
ghost use Rattle.item_step.specs.Launches.{setup_of};
ghost use Rattle.launches.specs.Groups.{HasGroups};

use item_step::Launch;

/// How many work-groups a launch has (OpenCL 1.2, section 5.8).
pub fn group_count(launch: &Launch<'_>) -> u32
    requires { HasGroups (setup_of launch.now) }
    ensures count { result * group_items (setup_of launch.now).range ≡ item_count (setup_of launch.now).range }
    ensures some { 0 < group_items (setup_of launch.now).range }
{
    let items = launch.range().global.product();
    (items / launch.group_size() as u64) as u32
}
