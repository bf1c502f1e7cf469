//! What an access log is.

ghost use Rattle.std.specs.Prelude.{◌≡◌, ◌<◌, ◌-◌, ◌^◌, length, slice_index_or};
ghost use Rattle.clmodel.specs.Run.{by_region};
ghost use Rattle.access_list.specs.Clear.{IsNotedIfClear};
ghost use Rattle.access_list.specs.Log.{Log, IsNoted, IsPlaced, entry_of, running, after_fence};

use clmodel::access::{Access, Clash, Operation, Region};
use std::alloc::AllocError;

/// An access with the number of its event in the run of its group.
#[derive(Clone, Copy)]
pub struct Entry {
    pub access: Access,
    pub event: u32,
}

impl Entry {
    /// What a log is given of an item's operation at the bytes of a region from `first` on. Its interval is 0, in place
    /// of which the log puts the running one.
    pub fn of(item: u32, region: Region, first: u64, operation: Operation, event: u32) -> Self
        ensures { result ≡ entry_of item region first operation event }
    {
        let access = Access {
            item,
            region,
            first,
            width: operation.width(),
            kind: operation.kind(),
            value: operation.value(),
            interval: 0,
        };
        Entry { access, event }
    }

    /// The same access, made in this interval.
    pub fn with_interval(self, interval: u32) -> Self
        ensures { result ≡ record self { access = record self.access { interval = interval } } }
    {
        Entry {
            access: Access {
                interval,
                ..self.access
            },
            ..self
        }
    }
}

/// An access with the running interval of its address space, by those of global and of local memory.
pub fn stamped(entry: Entry, global_interval: u32, local_interval: u32) -> Entry
    ensures { result ≡ record entry { access = record entry.access { interval = by_region entry.access.region global_interval local_interval } } }
{
    let interval = match entry.access.region {
        Region::Buffer(_) => global_interval,
        Region::Local { .. } => local_interval,
    };
    entry.with_interval(interval)
}

/// A conflict of two accesses on a byte.
#[derive(Clone, Copy)]
pub struct Hit {
    pub clash: Clash,
    pub earlier: Entry,
    pub later: Entry,
    pub byte: u64,
}

/// An address space that a barrier may fence (OpenCL 1.2, section 6.12.8).
#[derive(Clone, Copy)]
pub enum Fenced {
    Local,
    Global,
}

/// What is seen as the accesses of a group in their order, the oldest first, with the numbers of the running intervals
/// and whether the launch is uniform. It need not keep all of them.
pub trait Logged {
    ghost log: { Self → Log };
}

/// Accesses that are kept, and asked by their places.
pub trait Accesses: Logged {
    /// How many accesses there are.
    fn len(&self) -> usize
        ensures { result ≡ length (Self.log self.now).accesses };

    /// An access.
    fn get(&self, i: usize) -> Entry
        requires { i < length (Self.log self.now).accesses }
        ensures value { result ≡ slice_index_or (Self.log self.now).accesses i result }
        ensures placed { IsPlaced result };
}

/// A log of the accesses of a group, which finds the conflicts of a new one (OpenCL 1.2, sections 3.3.1 and 6.12.8).
pub trait AccessLog: Logged {
    /// Judges a new access, which is one of the log's accesses then: at the end, or left out where an equal one is
    /// there. The access gets the running interval of its address space. The conflict answered is that on the lowest
    /// byte, there with the earliest access. An error is out of memory, and changes nothing.
    fn note(&mut self, entry: Entry) -> Result<Option<Hit>, AllocError>
        requires { IsPlaced entry }
        ensures { IsNoted (Self.log self.old) entry (Self.log self.new) result };

    /// Notes a new access, as `note` does, where the log sees at once that it conflicts with none. False: it may
    /// conflict, and the log stays, as it does where memory is refused. It gives no hit, for which room would be
    /// cleared and moved for each access. A log that sees nothing at once has this body.
    fn note_if_clear(&mut self, entry: Entry) -> Result<bool, AllocError>
        requires { IsPlaced entry }
        ensures { IsNotedIfClear (Self.log self.old) entry (Self.log self.new) result }
    {
        Ok(false)
    }

    /// Begins the next interval of an address space.
    fn fence(&mut self, space: Fenced)
        requires { running (Self.log self.old) space < 2 ^ 32 - 1 }
        ensures { Self.log self.new ≡ after_fence (Self.log self.old) space };
}
