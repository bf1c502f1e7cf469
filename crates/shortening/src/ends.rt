//! How far the events of each work-group are needed.

ghost use Rattle.std.specs.Prelude.{◌<◌};

use crate::judge::Named;
use crate::runs::count_of;
use clmodel::schedule::EventRun;
use std::alloc::{AllocError, Global};
use std::collections::HashMap;

/// How far the events of a work-group are needed, by their numbers in the given schedule.
#[derive(Clone, Copy)]
pub(crate) struct GroupNeed {
    /// Behind its last release that is kept; 0 where none is.
    pub(crate) release: u64,
    /// Up to its next release, not with it: no event of the group is possible behind that without it.
    pub(crate) end: u64,
}

impl GroupNeed {
    /// Of a group without releases.
    pub(crate) fn new() -> Self {
        GroupNeed {
            release: 0,
            end: u64::MAX,
        }
    }

    /// With a release of this number more, which is needed where it stands before `needed`.
    fn with(self, at: u64, needed: u64) -> Self {
        if at < needed {
            GroupNeed {
                release: at.saturating_add(1),
                end: self.end,
            }
        } else {
            GroupNeed {
                release: self.release,
                end: self.end.min(at),
            }
        }
    }
}

/// The work-group of an item.
pub(crate) fn group_of(item: u32, group_size: u32) -> u32
    requires { 0 < group_size }
{
    item / group_size
}

/// Up to which event a group is needed, not with it: the last access of it that the fault names, or its end.
fn needed_end(named: &[Named], group_size: u32, group: u32) -> u64
    requires { 0 < group_size }
{
    let mut end = None;
    for one in named {
        if group_of(one.item, group_size) == group {
            end = Some(one.end().max(end.unwrap_or(0)));
        }
    }
    end.unwrap_or(u64::MAX)
}

/// How far the events of each group that has a release are needed. It takes time in proportion to the runs.
pub(crate) fn group_ends(
    alloc: Global,
    given: &[EventRun],
    named: &[Named],
    group_size: u32,
) -> Result<HashMap<u32, GroupNeed>, AllocError>
    requires { 0 < group_size }
{
    let mut ends = HashMap::new(alloc);
    let mut at = 0u64;
    for run in given {
        if let EventRun::Release { group } = run {
            let end = ends.get(group).copied().unwrap_or(GroupNeed::new());
            ends.insert(*group, end.with(at, needed_end(named, group_size, *group)))?;
        }
        at = at.saturating_add(count_of(run));
    }
    Ok(ends)
}
