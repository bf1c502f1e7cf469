//! Schedules that are made of a given one by leaving out work-groups and work-items.

ghost use Rattle.std.specs.Prelude.{◌<◌};

use crate::ends::{GroupNeed, group_of};
use crate::judge::Named;
use crate::runs::{count_of, push_item, push_run};
use clmodel::schedule::EventRun;
use std::alloc::{AllocError, Global};
use std::collections::{HashMap, HashSet};

/// The given schedule with what a fault names.
#[derive(Drop)]
pub(crate) struct Given<'a> {
    pub(crate) alloc: Global,
    pub(crate) runs: &'a [EventRun],
    pub(crate) named: &'a [Named],
    pub(crate) group_size: u32,
    pub(crate) ends: HashMap<u32, GroupNeed>,
    ghost some: { 0 < group_size },
}

/// A way to make a schedule of which some numbers, of groups or of items, are kept.
pub(crate) trait Candidate {
    /// The schedule with these.
    fn keeping(&self, kept: &[u32]) -> Result<Vec<EventRun>, AllocError>;
}

/// The numbers of a list.
fn set_of(alloc: Global, numbers: &[u32]) -> Result<HashSet<u32>, AllocError> {
    let mut set = HashSet::new(alloc);
    for number in numbers {
        set.insert(*number)?;
    }
    Ok(set)
}

impl<'a> Given<'a> {
    /// The group of an item.
    pub(crate) fn group_of(&self, item: u32) -> u32 {
        group_of(item, self.group_size)
    }

    /// Whether an item of this group is named.
    pub(crate) fn is_named_group(&self, group: u32) -> bool {
        self.named
            .iter()
            .any(|one| one.item / self.group_size == group)
    }

    /// The named item of this number, if it is one.
    pub(crate) fn named(&self, item: u32) -> Option<Named> {
        for one in self.named {
            if one.item == item {
                return Some(*one);
            }
        }
        None
    }

    /// The group of a run's events.
    pub(crate) fn group_of_run(&self, run: &EventRun) -> u32 {
        match run {
            EventRun::Item { item, .. } => self.group_of(*item),
            EventRun::Release { group } => *group,
        }
    }

    /// How far the events of a group are needed.
    fn end_of(&self, group: u32) -> GroupNeed {
        self.ends.get(&group).copied().unwrap_or(GroupNeed::new())
    }

    /// Up to which event of the schedule the events of an item are kept, not with it, where its group is kept. `whole`
    /// is whether the item is kept behind the last release of its group.
    fn item_end(&self, item: u32, whole: bool) -> u64 {
        if let Some(named) = self.named(item) {
            return named.end();
        }
        let end = self.end_of(self.group_of(item));
        if whole { end.end } else { end.release }
    }
}

/// Schedules of whole groups: all events of the named items' groups and of some others.
#[derive(Drop)]
pub(crate) struct WithGroups<'a, 'b> {
    pub(crate) given: &'b Given<'a>,
}

impl<'a, 'b> Candidate for WithGroups<'a, 'b> {
    fn keeping(&self, kept: &[u32]) -> Result<Vec<EventRun>, AllocError> {
        let given = self.given;
        let kept = set_of(given.alloc, kept)?;
        let mut runs = Vec::new(given.alloc);
        for run in given.runs {
            let group = given.group_of_run(run);
            if kept.contains(&group) || given.is_named_group(group) {
                push_run(&mut runs, run)?;
            }
        }
        Ok(runs)
    }
}

/// Schedules of the named items' groups and of some others, without what comes behind the last release that each of
/// them needs, but for the named items' own events, up to their accesses, and those of some other items.
#[derive(Drop)]
pub(crate) struct WithItems<'a, 'b> {
    pub(crate) given: &'b Given<'a>,
    pub(crate) groups: HashSet<u32>,
}

impl<'a, 'b> WithItems<'a, 'b> {
    /// With these groups besides those of the named items.
    pub(crate) fn new(given: &'b Given<'a>, groups: &[u32]) -> Result<Self, AllocError> {
        let groups = set_of(given.alloc, groups)?;
        Ok(WithItems { given, groups })
    }

    /// Whether a group is kept.
    pub(crate) fn has_group(&self, group: u32) -> bool {
        self.groups.contains(&group) || self.given.is_named_group(group)
    }

    /// Adds what is kept of a run that begins with this event of the given schedule.
    fn push(
        &self,
        runs: &mut Vec<EventRun>,
        items: &HashSet<u32>,
        at: u64,
        run: &EventRun,
    ) -> Result<(), AllocError> {
        match run {
            EventRun::Item { item, count } => {
                let end = self.given.item_end(*item, items.contains(item));
                push_item(runs, *item, end.saturating_sub(at).min(*count))
            }
            EventRun::Release { group } => {
                if at < self.given.end_of(*group).release {
                    runs.push(EventRun::Release { group: *group })?;
                }
                Ok(())
            }
        }
    }
}

impl<'a, 'b> Candidate for WithItems<'a, 'b> {
    fn keeping(&self, kept: &[u32]) -> Result<Vec<EventRun>, AllocError> {
        let items = set_of(self.given.alloc, kept)?;
        let mut runs = Vec::new(self.given.alloc);
        let mut at = 0u64;
        for run in self.given.runs {
            if self.has_group(self.given.group_of_run(run)) {
                self.push(&mut runs, &items, at, run)?;
            }
            at = at.saturating_add(count_of(run));
        }
        Ok(runs)
    }
}
