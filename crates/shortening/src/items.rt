//! Which groups and items act besides those that a fault names.

use crate::candidates::{Given, WithItems};
use clmodel::schedule::EventRun;
use std::alloc::AllocError;
use std::collections::HashSet;

/// The groups that have events besides those of the named items, in the order of their first events.
pub(crate) fn other_groups(given: &Given<'_>) -> Result<Vec<u32>, AllocError> {
    let mut seen = HashSet::new(given.alloc);
    let mut groups = Vec::new(given.alloc);
    for run in given.runs {
        let group = given.group_of_run(run);
        if !given.is_named_group(group) && seen.insert(group)? {
            groups.push(group)?;
        }
    }
    Ok(groups)
}

/// The items of kept groups that have events besides the named ones, in the order of their first events.
pub(crate) fn other_items(with: &WithItems<'_, '_>) -> Result<Vec<u32>, AllocError> {
    let given = with.given;
    let mut seen = HashSet::new(given.alloc);
    let mut items = Vec::new(given.alloc);
    for run in given.runs {
        if let EventRun::Item { item, .. } = run {
            let is_other = given.named(*item).is_none() && with.has_group(given.group_of(*item));
            if is_other && seen.insert(*item)? {
                items.push(*item)?;
            }
        }
    }
    Ok(items)
}
