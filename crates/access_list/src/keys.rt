//! By what a log finds cells and accesses.

ghost use Rattle.std.specs.Prelude.{◌≡◌};
ghost use Rattle.access_list.specs.Keys.{object_number, cell_key, access_key};
ghost use Rattle.access_list.specs.Log.{in_buffer};

use crate::kinds::kind_number;
use crate::sizes::CELL_BYTES;
use clmodel::access::{Access, Region};

/// A cell of an object of a group's log: eight bytes that lie together.
#[derive(Clone, Copy, PartialEq, Eq, Hash)]
pub(crate) struct CellKey {
    pub(crate) is_buffer: bool,
    /// The number of the object among buffers, or among local objects
    pub(crate) number: u32,
    /// The number of the cell in the object
    pub(crate) cell: u64,
}

/// The key of an access, which no other has of its group and its interval.
#[derive(Clone, Copy, PartialEq, Eq, Hash)]
pub(crate) struct AccessKey {
    pub(crate) is_buffer: bool,
    /// The number of the object among buffers, or among local objects
    pub(crate) number: u32,
    /// The number of the first byte in the object
    pub(crate) first: u64,
    /// How many bytes it touched
    pub(crate) width: u64,
    pub(crate) item: u32,
    /// The number of its kind
    pub(crate) kind: u8,
    pub(crate) value: u64,
}

/// Whether a region is a buffer (OpenCL 1.2, section 5.2.1).
fn in_buffer(region: Region) -> bool
    ensures { result ≡ in_buffer region }
{
    match region {
        Region::Buffer(_) => true,
        Region::Local { .. } => false,
    }
}

/// The number of an object among buffers, or among local objects of its group.
pub fn object_number(region: Region) -> u32
    ensures { result ≡ object_number region }
{
    match region {
        Region::Buffer(number) => number,
        Region::Local { number, .. } => number,
    }
}

/// The key of the cell of a byte.
pub(crate) fn cell_key(region: Region, byte: u64) -> CellKey
    ensures { result ≡ cell_key region byte }
{
    CellKey {
        is_buffer: in_buffer(region),
        number: object_number(region),
        cell: byte / CELL_BYTES,
    }
}

/// The key of an access.
pub(crate) fn access_key(x: &Access) -> AccessKey
    ensures { result ≡ access_key x.now }
{
    AccessKey {
        is_buffer: in_buffer(x.region),
        number: object_number(x.region),
        first: x.first,
        width: x.width.bytes(),
        item: x.item,
        kind: kind_number(x.kind),
        value: x.value,
    }
}
