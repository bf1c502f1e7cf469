//! A log of a group that lies on the heap.

ghost use denote.Param.Send.{IsSend};
ghost use Rattle.std.specs.Prelude.{◌≡◌, IfOk};
ghost use Rattle.shadow.specs.Lasting.{StandsWith};
ghost use Rattle.access_list.specs.Log.{fresh_log};
ghost use Rattle.group_log.specs.Lasting.{all_of};
ghost use Rattle.group_join.specs.Launches.{heap_log, heap_listed, heap_has_last};
ghost use Rattle.group_join.specs.contracts.heap_log.HeapLog as HeapLogType;

use access_list::{AccessLog, Entry, Fenced, Hit, Logged};
use group_log::{GroupLog, logs_are_sent};
use shadow::{AccessSummary, GroupAccesses};
use std::alloc::{AllocError, Global};

/// The log of a group that is running, on the heap. What runs a group and joins it hands its log on some ten times; so
/// no more than a pointer is moved for it.
#[derive(Drop)]
pub struct HeapLog {
    pub(crate) log: Box<GroupLog>,
}

impl HeapLog {
    /// A log without accesses, of a launch that is uniform or not. An error is out of memory.
    pub fn new(alloc: Global, uniform: bool) -> Result<Self, AllocError>
        ensures { IfOk result (λ log. heap_log log ≡ fresh_log uniform) }
    {
        let log = Box::new(alloc, GroupLog::new(alloc, uniform))?;
        Ok(HeapLog { log })
    }

    /// A log without accesses, of the same launch: this one, cleared where it lies.
    pub fn cleared(self, alloc: Global) -> Self
        ensures { heap_log result ≡ fresh_log (heap_log self).uniform }
    {
        let mut log = self;
        log.log.clear(alloc);
        log
    }

    /// Whether the launch is uniform.
    pub fn is_uniform(&self) -> bool
        ensures { result ≡ (heap_log self.now).uniform }
    {
        self.log.is_uniform()
    }

    /// The accesses that tell other groups something new, in a block of their own size. An error is out of memory.
    pub fn list(&self, alloc: Global) -> Result<AccessSummary, AllocError>
        ensures entries { IfOk result (λ list. list.entries.items ≡ heap_listed self.now) }
        ensures has_last { IfOk result (λ list. list.has_last ≡ heap_has_last self.now) }
        ensures stands { IfOk result (λ list. StandsWith list.has_last list.entries.items (heap_log self.now).accesses) }
    {
        self.log.list(alloc)
    }

    /// The accesses that are there for other groups stand for all of them. It does nothing when it runs.
    pub(crate) fn stands(&self)
        ensures { StandsWith (heap_has_last self.now) (heap_listed self.now) (all_of self.now.log.value.whole.items) }
    {
        self.log.stands();
    }
}

/// Logs on the heap may go from one thread to another. It does nothing when it runs.
pub fn heap_logs_are_sent()
    ensures { IsSend HeapLogType.the_row }
{
    logs_are_sent();
}

impl Logged for HeapLog {
    ghost use Rattle.group_join.specs.Launches.{heap_log};

    ghost log = { heap_log };
}

impl GroupAccesses for HeapLog {
    ghost use Rattle.group_join.specs.Launches.{heap_listed, heap_has_last};

    ghost listed = { heap_listed };

    ghost has_last = { heap_has_last };

    #[inline(always)]
    fn len(&self) -> usize {
        self.log.len()
    }

    #[inline(always)]
    fn get(&self, i: usize) -> Entry {
        self.log.get(i)
    }

    fn has_last(&self) -> bool {
        self.log.has_last()
    }
}

impl AccessLog for HeapLog {
    fn note(&mut self, entry: Entry) -> Result<Option<Hit>, AllocError> {
        self.log.note(entry)
    }

    #[inline(always)]
    fn note_if_clear(&mut self, entry: Entry) -> Result<bool, AllocError> {
        self.log.note_if_clear(entry)
    }

    fn fence(&mut self, space: Fenced) {
        self.log.fence(space);
    }
}
