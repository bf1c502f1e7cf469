//! A log may go from one thread to another.

ghost use denote.Param.Send.{IsSend};
ghost use Rattle.group_log.specs.contracts.group.GroupLog as GroupLogType;
ghost use Rattle.group_log.specs.contracts.lasting.Lasting as LastingType;
ghost use Rattle.group_log.specs.contracts.side.Side as SideType;

use crate::progressions_sent::{is_sent, progressions_are_sent};
use crate::whole::Whole;
use clmodel::access::Region;
use group_traces::traces_are_sent;

/// What is kept of the running intervals may go to another thread.
fn sides_are_sent()
    ensures { IsSend SideType.the_row }
{
    progressions_are_sent();
    is_sent::<Option<Region>>();
    traces_are_sent();
}

/// What is kept for other groups may go to another thread.
fn lasting_accesses_are_sent()
    ensures { IsSend LastingType.the_row }
{
    progressions_are_sent();
}

/// Logs may go from one thread to another. It does nothing when it runs.
pub fn logs_are_sent()
    ensures { IsSend GroupLogType.the_row }
{
    sides_are_sent();
    lasting_accesses_are_sent();
    is_sent::<Whole>();
}
