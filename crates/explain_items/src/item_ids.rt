//! The ids of a work-item as an explanation tells them: what `get_global_id`, `get_local_id` and `get_group_id` give
//! it, in each dimension of its launch. It knows a position in an index space, and no launch that runs.
#![tactic(auto)]

ghost use Rattle.std.specs.Prelude.{IfOk};
ghost use Rattle.explain_items.specs.Ids.{AreIn, AreIds};

use clmodel::setup::WorkItemFunction;
use explanation::Ids;
use item_value::position::ItemPosition;
use std::alloc::{AllocError, Global};

/// What a work-item function gives an item in each dimension of its launch.
fn ids_in(
    alloc: Global,
    position: &ItemPosition<'_>,
    function: WorkItemFunction,
) -> Result<Vec<u64>, AllocError>
    ensures { IfOk result (λ ids. AreIn position.now.range.now position.now.item function ids.items) }
{
    let mut ids = Vec::new(alloc);
    let count = position.range.global.as_slice().len();
    for dimension in 0..count {
        let value = position.work_item_value(function, dimension);
        ids.push(value.natural())?;
    }
    Ok(ids)
}

/// The ids of an item (OpenCL 1.2, sections 3.2 and 6.12.1). An error is out of memory.
pub fn ids_of(alloc: Global, position: &ItemPosition<'_>) -> Result<Ids, AllocError>
    ensures { IfOk result (AreIds position.now.range.now position.now.item) }
{
    Ok(Ids {
        global: ids_in(alloc, position, WorkItemFunction::GlobalId)?,
        local: ids_in(alloc, position, WorkItemFunction::LocalId)?,
        group: ids_in(alloc, position, WorkItemFunction::GroupId)?,
    })
}
