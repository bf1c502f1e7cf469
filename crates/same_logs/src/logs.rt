//! The logs that are compared.
#![tactic(auto)]

ghost use Rattle.std.specs.Prelude.{◌≡◌};
ghost use Rattle.access_list.specs.Log.{fresh_log};

use access_list::{AccessLog, ListLog};
use group_log::GroupLog;
use page_log::PageLog;
use std::alloc::Global;

/// A log that can be made anew.
pub trait NewLog: AccessLog + Drop {
    /// A log without accesses, of a launch that is uniform or not.
    fn new_log(alloc: Global, uniform: bool) -> Self
        ensures { Self.Logged.log result ≡ fresh_log uniform };
}

impl NewLog for ListLog {
    fn new_log(alloc: Global, uniform: bool) -> Self {
        ListLog::new(alloc, uniform)
    }
}

impl NewLog for PageLog {
    fn new_log(alloc: Global, uniform: bool) -> Self {
        PageLog::new(alloc, uniform)
    }
}

impl NewLog for GroupLog {
    fn new_log(alloc: Global, uniform: bool) -> Self {
        GroupLog::new(alloc, uniform)
    }
}
