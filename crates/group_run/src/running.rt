//! The run of one group.

ghost use Rattle.std.specs.Prelude.{◌≡◌, ◌*◌, ◌<◌, false, map, IfOk};
ghost use Rattle.launches.specs.Groups.{IsRunnable, filled};
ghost use Rattle.access_list.specs.Log.{fresh_log};
ghost use Rattle.group_run.specs.Results.{IsResult};

use crate::group::Group;
use crate::loops::run_items;
use crate::result::{GroupEnd, GroupResult};
use crate::runs::Runs;
use access_list::AccessLog;
use clmodel::fault::Fault;
use clmodel::schedule::Schedule;
use launches::objects::local_objects;
use launches::{Runnable, waiting_items};
use spaces::Space;
use std::alloc::{AllocError, Global};

/// The canonical run of one group of a launch, on spaces for its buffers that hold their first bytes. An error is out
/// of memory.
pub fn run_group<D: Runnable, G: Space + Drop, L: AccessLog + Drop>(
    alloc: Global,
    launch: &D,
    group: u32,
    globals: Vec<G>,
    log: L,
) -> Result<GroupResult<G, L>, AllocError>
    requires runnable { IsRunnable (D.Described.launch launch.now) }
    requires there { group * (D.Described.launch launch.now).group_size < (D.Described.launch launch.now).items }
    requires writable { G.read_only ≡ false }
    requires filled { map G.bytes globals.items ≡ filled (D.Described.launch launch.now) }
    requires fresh { L.Logged.log log ≡ fresh_log (D.Described.launch launch.now).uniform }
    ensures { IfOk result (IsResult G.bytes L.Logged.log (D.Described.launch launch.now) group) }
{
    let count = launch.group_size();
    let first = group * count;
    let locals = local_objects(alloc, launch.local_sizes())?;
    let items = waiting_items(alloc, count)?;
    let mut machine = Group {
        alloc,
        launch,
        number: group,
        first,
        items,
        made: 0,
        buffers: globals,
        locals,
        log,
    };
    let mut runs = Runs::new(alloc);
    let report = run_items(&mut machine, &mut runs)?;
    let runs = runs.into_schedule();
    // Each result is returned where it is made: joined first, it would be copied once more, with its log.
    match report {
        None => {}
        Some(fault) => {
            return Ok(GroupResult {
                group,
                log: machine.log,
                runs,
                end: GroupEnd::Stopped(Box::into_inner(fault)),
            });
        }
    }
    Ok(GroupResult {
        group,
        log: machine.log,
        runs,
        end: GroupEnd::Done(machine.buffers),
    })
}
