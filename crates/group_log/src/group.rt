//! The log of a group that is running.

ghost use Rattle.std.specs.Prelude.{◌≡◌, [], List, IfOk, OnOk, OnErr, false, true};
ghost use Rattle.clmodel.specs.declared.access.Access.{Access as TheAccess};
ghost use Rattle.shadow.specs.Lasting.{StandsWith, Absorbed};
ghost use Rattle.access_list.specs.Clear.{IsNotedIfClear};
ghost use Rattle.access_list.specs.Log.{IsPlaced, IsNoted, fresh_log, in_buffer};
ghost use Rattle.group_log.specs.Lasting.{all_of, short_of, last_of, made, LeavesOut};
ghost use Rattle.group_log.specs.Covers.{Covers};
ghost use Rattle.group_log.specs.Side.{TakesOf, IsKnown};
ghost use Rattle.group_log.specs.Tells.{Tells, with_last};

use crate::lasting::Lasting;
use crate::side::{Glance, Side};
use crate::whole::Whole;
use access_list::{AccessLog, Entry, Fenced, Hit, Logged};
use clmodel::access::Region;
use shadow::{AccessSummary, GroupAccesses};
use std::alloc::{AllocError, Global};

/// The log of a group that is running, which keeps only accesses that tell a conflict that none before tells. Its list,
/// of all accesses, is there for proofs alone.
///
/// A new access costs one look-up in a hash table, and a step or two for each word of four bytes, or for each byte of a
/// word that was accessed in part; and some more where it is kept. While none conflict, at most two are kept of each
/// byte for the running interval, whatever their number, and those of an address space are let go at a barrier that
/// fences it; and at most two for other groups. Accesses that go on as a loop does are kept as a progression
/// (`Progressions`), each other access in some 56 bytes. What is known of bytes stays at a barrier: some 300 bytes for
/// each cell of 32 bytes that was touched, and 80 more for each word whose bytes were accessed apart, and by more than
/// one item, kind or interval. Where an access may conflict all kept ones are walked for the exact answer, which ends a
/// launch where there is a conflict.
#[derive(Drop)]
pub struct GroupLog {
    local: Side,
    global: Side,
    lasting: Lasting,
    /// All accesses.
    whole: Whole,
    ghost one_launch: { local.uniform ≡ global.uniform },
    ghost local_tells: { Tells local.uniform false local.interval local.kept.items (all_of whole.items) },
    ghost global_tells: { Tells global.uniform true global.interval global.kept.items (all_of whole.items) },
    ghost takes: { TakesOf global (made [] whole.items) },
    ghost entries: { lasting.entries.items ≡ short_of whole.items },
    ghost has_last: { lasting.has_last ≡ last_of false whole.items },
    ghost left_out: { LeavesOut [] whole.items },
}

impl GroupLog {
    ghost use Rattle.group_log.specs.Logged.{log_of};

    /// A log without accesses, in the first interval of both address spaces, of a launch that is uniform or not. It
    /// takes no memory.
    pub fn new(alloc: Global, uniform: bool) -> Self
        ensures { log_of result ≡ fresh_log uniform }
    {
        GroupLog {
            local: Side::new(alloc, uniform),
            global: Side::new(alloc, uniform),
            lasting: Lasting::new(alloc),
            whole: Whole::new(),
        }
    }

    /// Forgets all accesses, in the first interval of both address spaces. The memory that told accesses of the group
    /// is used again where much of it was in use: to clear it takes time in proportion to all of it.
    pub fn clear(&mut self, alloc: Global)
        ensures { log_of self.new ≡ fresh_log self.old.global.uniform }
    {
        self.local.clear(alloc);
        self.global.clear(alloc);
        self.lasting.clear(alloc);
        self.whole = Whole::new();
    }

    /// Whether the launch is uniform.
    pub fn is_uniform(&self) -> bool
        ensures { result ≡ self.now.global.uniform }
    {
        self.global.uniform
    }

    /// The accesses that are there for other groups stand for all of them. It does nothing when it runs.
    pub fn stands(&self)
        ensures { StandsWith self.now.lasting.has_last self.now.lasting.entries.items (all_of self.now.whole.items) }
    {}

    /// The accesses that tell other groups something new, in a block of their own size. An error is out of memory.
    pub fn list(&self, alloc: Global) -> Result<AccessSummary, AllocError>
        ensures entries { IfOk result (λ list. list.entries.items ≡ self.now.lasting.entries.items) }
        ensures has_last { IfOk result (λ list. list.has_last ≡ self.now.lasting.has_last) }
        ensures stands { IfOk result (λ list. StandsWith list.has_last list.entries.items (all_of self.now.whole.items)) }
    {
        self.lasting.list(alloc)
    }

    /// Takes an access of local memory for one of the log's, by what is known of it, without judging it. Where memory
    /// is refused the log stays.
    #[inline(always)]
    fn note_local(&mut self, glance: Glance, entry: Entry) -> Result<(), AllocError>
        requires space { in_buffer entry.access.region ≡ false }
        requires interval { entry.access.interval ≡ self.old.local.interval }
        requires told { glance.look.sight.told ≡ true → Covers self.old.local.uniform self.old.local.kept.items entry.access }
        requires known { IsKnown self.old.local entry.access glance }
        ensures taken { OnOk result (log_of self.new ≡ with_last (log_of self.old) entry) }
        ensures stays { OnErr result (log_of self.new ≡ log_of self.old) }
    {
        self.local.note_entry(glance, entry)?;
        self.lasting.pass();
        self.whole = self.whole.with(&entry, &false);
        Ok(())
    }

    /// Takes an access of a buffer for one of the log's, as `note_local` does.
    #[inline(always)]
    fn note_global(&mut self, glance: Glance, entry: Entry) -> Result<(), AllocError>
        requires placed { IsPlaced entry }
        requires space { in_buffer entry.access.region ≡ true }
        requires interval { entry.access.interval ≡ self.old.global.interval }
        requires told { glance.look.sight.told ≡ true → Covers self.old.global.uniform self.old.global.kept.items entry.access }
        requires taken { glance.look.sight.taken ≡ true → (log : List TheAccess) → TakesOf self.old.global log → Absorbed log entry.access }
        requires known { IsKnown self.old.global entry.access glance }
        ensures taken { OnOk result (log_of self.new ≡ with_last (log_of self.old) entry) }
        ensures stays { OnErr result (log_of self.new ≡ log_of self.old) }
    {
        let news = !glance.look.sight.taken;
        self.lasting.make_room(news)?;
        self.global.note_entry(glance, entry)?;
        self.lasting.note(entry, news);
        self.whole = self.whole.with(&entry, &news);
        Ok(())
    }

    /// Notes an access of local memory, as `note_if_clear` does.
    #[inline(always)]
    fn note_local_if_clear(&mut self, entry: Entry) -> Result<bool, AllocError>
        requires placed { IsPlaced entry }
        requires space { in_buffer entry.access.region ≡ false }
        ensures { IsNotedIfClear (log_of self.old) entry (log_of self.new) result }
    {
        let entry = entry.with_interval(self.local.interval);
        let glance = self.local.look(&entry.access);
        if glance.look.sight.clear {
            self.note_local(glance, entry)?;
            Ok(true)
        } else {
            Ok(false)
        }
    }

    /// Notes an access of a buffer, as `note_if_clear` does.
    #[inline(always)]
    fn note_buffer_if_clear(&mut self, entry: Entry) -> Result<bool, AllocError>
        requires placed { IsPlaced entry }
        requires space { in_buffer entry.access.region ≡ true }
        ensures { IsNotedIfClear (log_of self.old) entry (log_of self.new) result }
    {
        let entry = entry.with_interval(self.global.interval);
        let glance = self.global.look(&entry.access);
        if glance.look.sight.clear {
            self.note_global(glance, entry)?;
            Ok(true)
        } else {
            Ok(false)
        }
    }

    /// Notes an access of local memory, as `note` does, where it may conflict.
    #[cold]
    fn judge_local(&mut self, entry: Entry) -> Result<Option<Hit>, AllocError>
        requires placed { IsPlaced entry }
        requires space { in_buffer entry.access.region ≡ false }
        ensures { IsNoted (log_of self.old) entry (log_of self.new) result }
    {
        let made = entry.with_interval(self.local.interval);
        let glance = self.local.look(&made.access);
        let found = self.local.conflict(&made);
        self.note_local(glance, made)?;
        Ok(found)
    }

    /// Notes an access of a buffer, as `note` does, where it may conflict.
    #[cold]
    fn judge_global(&mut self, entry: Entry) -> Result<Option<Hit>, AllocError>
        requires placed { IsPlaced entry }
        requires space { in_buffer entry.access.region ≡ true }
        ensures { IsNoted (log_of self.old) entry (log_of self.new) result }
    {
        let made = entry.with_interval(self.global.interval);
        let glance = self.global.look(&made.access);
        let found = self.global.conflict(&made);
        self.note_global(glance, made)?;
        Ok(found)
    }

    /// Notes an access, as `note` does, where it may conflict.
    #[cold]
    #[inline(never)]
    fn judge(&mut self, entry: Entry) -> Result<Option<Hit>, AllocError>
        requires { IsPlaced entry }
        ensures { IsNoted (log_of self.old) entry (log_of self.new) result }
    {
        match entry.access.region {
            Region::Buffer(_) => self.judge_global(entry),
            Region::Local { .. } => self.judge_local(entry),
        }
    }
}

impl Logged for GroupLog {
    ghost use Rattle.group_log.specs.Logged.{log_of};

    ghost log = { λ l. log_of l };
}

impl GroupAccesses for GroupLog {
    ghost listed = { λ l. l.lasting.entries.items };

    ghost has_last = { λ l. l.lasting.has_last };

    #[inline(always)]
    fn len(&self) -> usize {
        self.lasting.entries.len()
    }

    #[inline(always)]
    fn get(&self, i: usize) -> Entry {
        self.lasting.entries.get(i)
    }

    fn has_last(&self) -> bool {
        self.lasting.has_last
    }
}

impl AccessLog for GroupLog {
    fn note(&mut self, entry: Entry) -> Result<Option<Hit>, AllocError> {
        match self.note_if_clear(entry) {
            Ok(true) => Ok(None),
            Ok(false) => self.judge(entry),
            Err(error) => Err(error),
        }
    }

    #[inline(always)]
    fn note_if_clear(&mut self, entry: Entry) -> Result<bool, AllocError> {
        match entry.access.region {
            Region::Buffer(_) => self.note_buffer_if_clear(entry),
            Region::Local { .. } => self.note_local_if_clear(entry),
        }
    }

    fn fence(&mut self, space: Fenced) {
        match space {
            Fenced::Local => self.local.begin(),
            Fenced::Global => self.global.begin(),
        }
    }
}
