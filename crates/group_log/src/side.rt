//! The accesses of the running interval of one address space.

ghost use Rattle.std.specs.Prelude.{◌≡◌, ◌+◌, ◌-◌, ◌<◌, ◌^◌, ◌++◌, ◌∷◌, [], ℕ, List, None, true, unwrap_or, All, OnOk, OnErr};
ghost use Rattle.clmodel.specs.Cells.{byte_count};
ghost use Rattle.clmodel.specs.Launch.{within_group, conflict_between};
ghost use Rattle.clmodel.specs.declared.access.Access.{Access as TheAccess};
ghost use Rattle.shadow.specs.Lasting.{Absorbed};
ghost use Rattle.access_list.specs.Keys.{object_number};
ghost use Rattle.access_list.specs.Log.{IsPlaced, hit, in_buffer};
ghost use Rattle.access_list.specs.declared.log.Entry.{Entry as TheEntry};
ghost use Rattle.group_log.specs.Covers.{Covers};
ghost use Rattle.group_log.specs.SummarizesByte.{region_at, AllStand};

use crate::progressions::Progressions;
use access_list::{Entry, Hit, object_number};
use clmodel::access::{Access, Region, Rule};
use group_traces::{Look, Sight, Traces, is_near};
use std::alloc::{AllocError, Global};

/// What is kept of the accesses of the running interval of local or of global memory: those that tell a conflict that
/// none before tells.
#[derive(Drop)]
pub(crate) struct Side {
    pub(crate) uniform: bool,
    /// The number of the running interval.
    pub(crate) interval: u32,
    pub(crate) kept: Progressions,
    /// The region of the first access that was kept. Others are in regions that differ from it in the object's number
    /// alone.
    home: Option<Region>,
    /// What is kept of each byte, by which most accesses are found to have no conflict, or to tell none anew.
    traces: Traces,
    /// Whether `traces` tells of all accesses. One that isn't near, or is of another group, ends that: each is judged
    /// by the kept ones then.
    whole: bool,
    ghost stands: { whole ≡ true → ∥ AllStand uniform interval kept.items traces home ∥₁ },
}

/// What is known of an access before it is kept.
#[derive(Clone, Copy)]
pub(crate) struct Glance {
    /// The number of its object, where its bytes are looked at.
    pub(crate) number: Option<u32>,
    pub(crate) look: Look,
}

/// Whether a region differs from that of the first access in the object's number alone.
fn is_at(home: Option<Region>, region: Region) -> bool
    ensures { result ≡ true → region ≡ region_at (unwrap_or home region) (object_number region) }
{
    match home {
        None => true,
        Some(Region::Buffer(_)) => match region {
            Region::Buffer(_) => true,
            Region::Local { .. } => false,
        },
        Some(Region::Local { group, .. }) => match region {
            Region::Buffer(_) => false,
            Region::Local { group: other, .. } => group == other,
        },
    }
}

impl Side {
    ghost use Rattle.group_log.specs.Side.{TakesOf, IsSeen, IsKnown};
    ghost use Rattle.group_log.specs.Tells.{IsTaken};

    /// No accesses, in the first interval. It takes no memory.
    pub(crate) fn new(alloc: Global, uniform: bool) -> Self
        ensures kept { result.kept.items ≡ [] }
        ensures interval { result.interval ≡ 0 }
        ensures uniform { result.uniform ≡ uniform }
        ensures takes { (log : List TheAccess) → TakesOf result log }
    {
        Side {
            uniform,
            interval: 0,
            kept: Progressions::new(alloc),
            home: None,
            traces: Traces::new(alloc),
            whole: true,
        }
    }

    /// Forgets all accesses, as `new` begins, and keeps the memory.
    fn forget(&mut self)
        ensures kept { self.new.kept.items ≡ [] }
        ensures interval { self.new.interval ≡ 0 }
        ensures uniform { self.new.uniform ≡ self.old.uniform }
        ensures takes { (log : List TheAccess) → TakesOf self.new log }
    {
        self.kept.clear();
        self.interval = 0;
        self.home = None;
        self.traces.clear();
        self.whole = true;
    }

    /// Forgets all accesses, as `new` begins. The memory is kept, or given back where less than an eighth of it was in
    /// use.
    pub(crate) fn clear(&mut self, alloc: Global)
        ensures kept { self.new.kept.items ≡ [] }
        ensures interval { self.new.interval ≡ 0 }
        ensures uniform { self.new.uniform ≡ self.old.uniform }
        ensures takes { (log : List TheAccess) → TakesOf self.new log }
    {
        if self.traces.is_roomy() {
            *self = Side::new(alloc, self.uniform);
        } else {
            self.forget();
        }
    }

    /// Begins the next interval.
    pub(crate) fn begin(&mut self)
        requires { self.old.interval < 2 ^ 32 - 1 }
        ensures kept { self.new.kept.items ≡ [] }
        ensures interval { self.new.interval ≡ self.old.interval + 1 }
        ensures uniform { self.new.uniform ≡ self.old.uniform }
        ensures takes { (log : List TheAccess) → TakesOf self.old log → TakesOf self.new log }
    {
        self.kept.clear();
        self.interval += 1;
    }

    /// What is known of an access of the running interval.
    #[inline(always)]
    pub(crate) fn look(&self, x: &Access) -> Glance
        requires placed { x.now.first + byte_count x.now.width < 2 ^ 64 }
        requires interval { x.now.interval ≡ self.now.interval }
        ensures clear { result.look.sight.clear ≡ true → (byte : ℕ) → All (λ (y : TheEntry). conflict_between (within_group self.now.uniform) y.access x.now byte ≡ None) self.now.kept.items }
        ensures told { result.look.sight.told ≡ true → Covers self.now.uniform self.now.kept.items x.now }
        ensures taken { result.look.sight.taken ≡ true → (log : List TheAccess) → TakesOf self.now log → Absorbed log x.now }
        ensures known { IsKnown self.now x.now result }
    {
        if self.whole && is_near(x) && is_at(self.home, x.region) {
            let number = object_number(x.region);
            return Glance {
                number: Some(number),
                look: self.traces.look(self.uniform, number, x),
            };
        }
        Glance {
            number: None,
            look: Look {
                place: None,
                sight: Sight {
                    clear: false,
                    told: false,
                    taken: false,
                },
            },
        }
    }

    /// The conflict of an access with those that are kept, all of which are walked.
    pub(crate) fn conflict(&self, x: &Entry) -> Option<Hit>
        requires { IsPlaced x.now }
        ensures { result ≡ hit (within_group self.now.uniform) x.now self.now.kept.items }
    {
        self.kept.hit(Rule::within_group(self.uniform), x)
    }

    /// Keeps an access for which there is room, of which nothing is kept at its bytes.
    fn keep_unseen(&mut self, entry: Entry)
        requires room { self.old.kept.has_room ≡ true }
        ensures kept { self.new.kept.items ≡ self.old.kept.items ++ entry ∷ [] }
        ensures interval { self.new.interval ≡ self.old.interval }
        ensures uniform { self.new.uniform ≡ self.old.uniform }
        ensures takes { (log : List TheAccess) → TakesOf self.new log }
    {
        self.whole = false;
        self.kept.push_reserved(entry);
    }

    /// Keeps an access of the running interval for which there is room, by the number of its object and the cell of its
    /// bytes. Where memory is refused the accesses stay.
    fn keep_seen(&mut self, glance: Glance, number: u32, entry: Entry) -> Result<(), AllocError>
        requires interval { entry.access.interval ≡ self.old.interval }
        requires room { self.old.kept.has_room ≡ true }
        requires seen { IsSeen self.old entry.access glance number }
        ensures kept { OnOk result (self.new.kept.items ≡ self.old.kept.items ++ entry ∷ []) }
        ensures stays { OnErr result (self.new.kept.items ≡ self.old.kept.items) }
        ensures interval { self.new.interval ≡ self.old.interval }
        ensures uniform { self.new.uniform ≡ self.old.uniform }
        ensures takes { OnOk result (in_buffer entry.access.region ≡ true → (log : List TheAccess) → TakesOf self.old log → TakesOf self.new (entry.access ∷ log)) }
        ensures still { OnErr result ((log : List TheAccess) → TakesOf self.old log → TakesOf self.new log) }
    {
        self.traces.mark(glance.look.place, number, &entry.access)?;
        self.home = Some(self.home.unwrap_or(entry.access.region));
        self.kept.push_reserved(entry);
        Ok(())
    }

    /// Keeps an access of the running interval. Where memory is refused the accesses stay.
    #[inline(never)]
    fn keep(&mut self, glance: Glance, entry: Entry) -> Result<(), AllocError>
        requires interval { entry.access.interval ≡ self.old.interval }
        requires known { IsKnown self.old entry.access glance }
        ensures kept { OnOk result (self.new.kept.items ≡ self.old.kept.items ++ entry ∷ []) }
        ensures stays { OnErr result (self.new.kept.items ≡ self.old.kept.items) }
        ensures interval { self.new.interval ≡ self.old.interval }
        ensures uniform { self.new.uniform ≡ self.old.uniform }
        ensures takes { OnOk result (in_buffer entry.access.region ≡ true → (log : List TheAccess) → TakesOf self.old log → TakesOf self.new (entry.access ∷ log)) }
        ensures still { OnErr result ((log : List TheAccess) → TakesOf self.old log → TakesOf self.new log) }
    {
        self.kept.reserve()?;
        match glance.number {
            None => {
                self.keep_unseen(entry);
                Ok(())
            }
            Some(number) => self.keep_seen(glance, number, entry),
        }
    }

    /// Keeps an access of the running interval, unless it tells no conflict that kept ones don't tell. Where memory is
    /// refused the accesses stay.
    #[inline(always)]
    pub(crate) fn note_entry(&mut self, glance: Glance, entry: Entry) -> Result<(), AllocError>
        requires interval { entry.access.interval ≡ self.old.interval }
        requires told { glance.look.sight.told ≡ true → Covers self.old.uniform self.old.kept.items entry.access }
        requires known { IsKnown self.old entry.access glance }
        ensures kept { OnOk result (IsTaken self.old.uniform self.old.kept.items entry self.new.kept.items) }
        ensures stays { OnErr result (self.new.kept.items ≡ self.old.kept.items) }
        ensures interval { self.new.interval ≡ self.old.interval }
        ensures uniform { self.new.uniform ≡ self.old.uniform }
        ensures takes { OnOk result (in_buffer entry.access.region ≡ true → (log : List TheAccess) → TakesOf self.old log → TakesOf self.new (entry.access ∷ log)) }
        ensures still { OnErr result ((log : List TheAccess) → TakesOf self.old log → TakesOf self.new log) }
    {
        if glance.look.sight.told {
            return Ok(());
        }
        // copies, so that accesses of which nothing is kept needn't lie in memory
        let seen = glance;
        let kept = entry;
        self.keep(seen, kept)
    }
}
