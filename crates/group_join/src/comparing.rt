//! What a further group's accesses tell before any of its changes is made.

ghost use Rattle.std.specs.Prelude.{◌≡◌, ◌+◌, ◌<◌, ◌^◌, List, length, map, IfOk, OnOk};
ghost use Rattle.clmodel.specs.Cells.{byte_count};
ghost use Rattle.clmodel.specs.declared.access.Access.{Access as TheAccess};
ghost use Rattle.clmodel.specs.declared.access.Region.TheVariants as region;
ghost use Rattle.joining.specs.Memory as joining;
ghost use Rattle.shadow.specs.Seen.{IsFootprint, OfOthers};
ghost use Rattle.spaces.specs.Changes.{all_with_changes};
ghost use Rattle.group_join.specs.Changes.{value_of};
ghost use Rattle.group_join.specs.Comparing.{met_of, KeepsUpdates, with_update};
ghost use Rattle.group_join.specs.Conflicts.{conflict_at};
ghost use Rattle.group_join.specs.Meetings.{AreOthers, IsFirstMet};

use crate::changes::{Before, JoinedUpdate};
use crate::meetings::{FirstConflict, is_last};
use access_list::Entry;
use shadow::{Footprint, GroupAccesses};
use std::alloc::{AllocError, Global};

/// What one walk of a further group's accesses finds.
#[derive(Drop)]
pub(crate) enum Compared {
    /// The first access that conflicts with one of a lower group.
    Conflict(FirstConflict),
    /// None conflicts. The updates of whose bytes lower groups wrote some, in their order, and what these bytes become:
    /// 16 bytes for each.
    Apart(Vec<JoinedUpdate>),
}

/// The conflict of the access at a place with those of lower groups, by whether the launch is uniform, if there is one.
// A function apart, asked only where an access isn't seen to be clear: room for its answer would be cleared for each.
#[cold]
#[inline(never)]
fn conflict_at<L: GroupAccesses>(
    footprint: &Footprint,
    uniform: bool,
    log: &L,
    place: usize,
    entry: &Entry,
) -> Option<FirstConflict>
    requires inside { place < length (L.listed log.now) }
    requires bound { entry.now.access.first + byte_count entry.now.access.width < 2 ^ 64 }
    ensures { (kept : List TheAccess) → IsFootprint footprint.now kept → OfOthers entry.now.access.item kept → result ≡ conflict_at uniform (L.has_last log.now) (L.listed log.now) kept place entry.now }
{
    let meeting = footprint.meeting(uniform, &entry.access)?;
    Some(FirstConflict {
        entry: *entry,
        meeting,
        last: is_last(log, place),
    })
}

/// The first access of a group that conflicts with those of lower groups, by whether the launch is uniform, if there is
/// one. Each access is got at most once.
pub(crate) fn first_conflict<L: GroupAccesses>(
    footprint: &Footprint,
    uniform: bool,
    log: &L,
) -> Option<FirstConflict>
    ensures { (kept : List TheAccess) → IsFootprint footprint.now kept → AreOthers (L.listed log.now) kept → IsFirstMet uniform (L.has_last log.now) (L.listed log.now) kept result }
{
    let count = log.len();
    for place in 0..count {
        let entry = log.get(place);
        if !footprint.is_clear(uniform, &entry.access) {
            if let Some(met) = conflict_at(footprint, uniform, log, place, &entry) {
                return Some(met);
            }
        }
    }
    None
}

/// Keeps what the bytes of the access at a place become, if it is an update of which something is kept. An error is out
/// of memory.
fn keep_update(
    updates: &mut Vec<JoinedUpdate>,
    place: usize,
    kept: Option<u64>,
) -> Result<(), AllocError>
    ensures { OnOk result (updates.new.items ≡ with_update updates.old.items place kept) }
{
    if let Some(value) = kept {
        updates.push(JoinedUpdate { place, value })?;
    }
    Ok(())
}

impl Before<'_, '_, '_, '_> {
    /// The first access of a group that conflicts with those of lower groups, by whether the launch is uniform; or what
    /// its updates of bytes that lower groups wrote become. Each access is got once. An error is out of memory.
    pub(crate) fn compare<L: GroupAccesses>(
        &self,
        alloc: Global,
        uniform: bool,
        log: &L,
    ) -> Result<Compared, AllocError>
        ensures met { IfOk result (λ found. (kept : List TheAccess) → IsFootprint self.now.footprint.now kept → AreOthers (L.listed log.now) kept → IsFirstMet uniform (L.has_last log.now) (L.listed log.now) kept (met_of found)) }
        ensures updates { IfOk result (λ found. (kept : List TheAccess) → IsFootprint self.now.footprint.now kept → KeepsUpdates (value_of (map (λ row. row.now) self.now.first.now) (all_with_changes (map (λ row. row.now) self.now.first.now) self.now.lower.now) (λ n b. joining.wrote kept (region.Buffer n) b) (map (λ space. space.bytes) self.now.own.now)) (map (λ space. space.bytes) self.now.own.now) (L.listed log.now) found) }
    {
        let mut updates = Vec::new(alloc);
        for place in 0..log.len() {
            let entry = log.get(place);
            if !self.footprint.is_clear(uniform, &entry.access) {
                if let Some(met) = conflict_at(self.footprint, uniform, log, place, &entry) {
                    return Ok(Compared::Conflict(met));
                }
            }
            let kept = self.kept_value(&entry.access);
            keep_update(&mut updates, place, kept)?;
        }
        Ok(Compared::Apart(updates))
    }
}
