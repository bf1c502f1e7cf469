//! What a memory space is.

ghost use Rattle.std.specs.Prelude.{◌≡◌, ℕ, List, Option, Bool, length};
ghost use Rattle.spaces.specs.Space.{IsLoaded, IsStored, IsUpdated, IsFetched};

use crate::cells::Unset;
use clmodel::access::{Class, FetchOp, Width};
use std::alloc::AllocError;
use thiserror::Error;

/// Why an access to a space can't be done. The space is as before then.
#[derive(Clone, Copy, Debug, PartialEq, Eq, Error)]
pub enum SpaceFault {
    /// 1: some byte of the access lies outside the space
    #[error("out of range")]
    Bounds,
    /// 2: a byte that the access reads is unset; the number is that of the lowest such byte
    #[error("byte {0} is unset")]
    Unset(u64),
    /// 3: the space can only be read
    #[error("read only")]
    ReadOnly,
    /// 4: no memory is left to keep what is stored
    #[error("out of memory")]
    OutOfMemory,
}

impl From<Unset> for SpaceFault {
    ghost use Rattle.std.specs.Prelude.{◌≡◌};
    ghost use Rattle.spaces.specs.declared.space.SpaceFault.TheVariants as space_fault;

    ghost from_gives = { λ unset made. made ≡ space_fault.Unset unset.byte };

    fn from(unset: Unset) -> Self {
        SpaceFault::Unset(unset.byte)
    }
}

impl From<AllocError> for SpaceFault {
    ghost use Rattle.std.specs.Prelude.{◌≡◌};
    ghost use Rattle.spaces.specs.declared.space.SpaceFault.TheVariants as space_fault;

    ghost from_gives = { λ _ made. made ≡ space_fault.OutOfMemory };

    fn from(_: AllocError) -> Self {
        SpaceFault::OutOfMemory
    }
}

/// The bytes of an object, some of which may be unset, seen as their list. Bytes are numbered from 0 (OpenCL 1.2,
/// section 3.3).
pub trait Space {
    ghost bytes: { Self → List (Option ℕ) };

    ghost read_only: { Bool };

    ghost may_want: { Bool };

    /// How many bytes there are.
    fn size(&self) -> u64
        ensures { result ≡ length (bytes self.now) };

    /// The little-endian number of an element's bytes.
    fn load(&self, at: u64, width: Width) -> Result<u64, SpaceFault>
        ensures { IsLoaded (bytes self.now) at width result };

    /// Puts the low bytes of a value into the bytes of an element.
    fn store(&mut self, at: u64, width: Width, value: u64) -> Result<(), SpaceFault>
        ensures { IsStored read_only may_want (bytes self.old) at width value (bytes self.new) result };

    /// Combines a number with that of 4 bytes, by the update's class (OpenCL 1.2, section 6.12.11).
    fn update(&mut self, at: u64, class: Class, operand: u32) -> Result<(), SpaceFault>
        ensures { IsUpdated read_only may_want (bytes self.old) at class operand (bytes self.new) result };

    /// Gives the number of 4 bytes, and leaves in its place what an atomic operation makes of it and an operand (OpenCL
    /// 1.2, section 6.12.11).
    fn fetch(&mut self, at: u64, op: FetchOp, operand: u32) -> Result<u32, SpaceFault>
        ensures { IsFetched read_only may_want (bytes self.old) at op operand (bytes self.new) result };
}
