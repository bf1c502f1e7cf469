//! What is kept of accesses may go from one thread to another.

ghost use denote.Param.Send.{IsSend};
ghost use Rattle.group_traces.specs.contracts.traces.Traces as TracesType;

use crate::cell::{Apart, Cell};
use std::collections::HashMap;
use std::marker::Send;

/// The type's values may go to another thread.
fn is_sent<T: Send>()
    ensures { IsSend T.row }
{}

/// What is kept of accesses may go from one thread to another. It does nothing when it runs.
pub fn traces_are_sent()
    ensures { IsSend TracesType.the_row }
{
    is_sent::<HashMap<u64, usize>>();
    is_sent::<Vec<Cell>>();
    is_sent::<Vec<Apart>>();
}
