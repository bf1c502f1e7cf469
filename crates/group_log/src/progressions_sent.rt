//! A list of entries may go from one thread to another.

ghost use denote.Param.Send.{IsSend};
ghost use Rattle.group_log.specs.contracts.progressions.Progressions as ProgressionsType;

use crate::progression::Progression;
use crate::stride::EntryStride;
use access_list::Entry;
use std::marker::Send;

/// The type's values may go to another thread.
pub(crate) fn is_sent<T: Send>()
    ensures { IsSend T.row }
{}

/// A list of entries may go from one thread to another. It does nothing when it runs.
pub fn progressions_are_sent()
    ensures { IsSend ProgressionsType.the_row }
{
    is_sent::<Vec<Entry>>();
    is_sent::<Vec<EntryStride>>();
    is_sent::<Vec<Progression>>();
    is_sent::<Progression>();
}
