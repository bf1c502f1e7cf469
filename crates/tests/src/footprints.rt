//! What is kept of the accesses of groups, asked directly.

ghost use Rattle.std.specs.Prelude.{◌<◌, ◌+◌, ◌^◌};
ghost use Rattle.clmodel.specs.Cells.{byte_count};

use clmodel::access::{Access, AccessKind, Class, Region, Width};
use shadow::Footprint;
use std::alloc::Global;

/// An item, a buffer, the first of four bytes, and the kind of an access.
type Row = (u32, u32, u16, AccessKind);

/// An atomic addition.
pub(crate) const ADD: AccessKind = AccessKind::Update(Class::Add);

/// The accesses that a footprint is given, in their order.
const KEPT: [Row; 4] = [
    (0, 3, 254, AccessKind::Load),
    (1, 3, 256, AccessKind::Load),
    (2, 3, 600, ADD),
    (3, 3, 600, ADD),
];

/// Accesses of an item of another group, with the item that each meets and the byte where.
const ASKED: [(Row, Option<(u32, u64)>); 8] = [
    ((9, 3, 256, AccessKind::Load), None),
    ((9, 3, 256, AccessKind::Store), Some((0, 256))),
    ((9, 3, 258, AccessKind::Store), Some((1, 258))),
    ((9, 3, 598, AccessKind::Load), Some((2, 600))),
    ((9, 3, 600, ADD), None),
    ((9, 3, 603, AccessKind::Update(Class::Or)), Some((2, 603))),
    ((9, 2, 256, AccessKind::Store), None),
    ((9, 4, 256, AccessKind::Store), None),
];

/// Makes an access out of a row, with the value 0 and in interval 0.
fn access(row: Row) -> Access
    ensures { result.first + byte_count result.width < 2 ^ 64 }
{
    let (item, number, first, kind) = row;
    Access {
        item,
        region: Region::Buffer(number),
        first: first as u64,
        width: Width::Four,
        kind,
        value: 0,
        interval: 0,
    }
}

/// What is kept of the accesses that a footprint is given. None where memory runs out.
fn kept(alloc: Global) -> Option<Footprint> {
    let mut footprint = Footprint::new(alloc);
    for row in KEPT {
        footprint.add(alloc, &access(row)).ok()?;
    }
    Some(footprint)
}

/// The item that an access meets, and the byte where.
fn met(footprint: &Footprint, uniform: bool, access: &Access) -> Option<(u32, u64)>
    requires { access.now.first + byte_count access.now.width < 2 ^ 64 }
{
    let meeting = footprint.meeting(uniform, access)?;
    Some((meeting.mark.item, meeting.byte))
}

/// Shows that an access meets the lowest byte that conflicts, and there the access that was added first; and that an
/// access to a local object meets none of those to the buffer of the same number.
// A local object has the number of a buffer that was touched: no other group shares it.
#[test]
fn the_lowest_byte_and_there_the_earliest(rt: HostRuntime) {
    let Some(footprint) = kept(rt.alloc()) else {
        panic!(rt; "out of memory")
    };
    let local = Access {
        region: Region::Local {
            group: 1,
            number: 3,
        },
        ..access((9, 3, 600, AccessKind::Store))
    };
    assert!(rt; footprint.meeting(false, &local).is_none());
    for (row, expected) in ASKED {
        assert!(rt; met(&footprint, false, &access(row)) == expected);
    }
}

/// A store by an item to buffer 0: its first byte, its width and its value.
fn store(item: u32, first: u8, width: Width, value: u64) -> Access
    ensures { result.first + byte_count result.width < 2 ^ 64 }
{
    Access {
        item,
        region: Region::Buffer(0),
        first: first as u64,
        width,
        kind: AccessKind::Store,
        value,
        interval: 0,
    }
}

/// The first byte, the width and the value of a store of another group's item, with the item that it meets and the byte
/// where.
const STORES: [(u8, Width, u64, Option<(u32, u64)>); 6] = [
    (0, Width::Four, 7, None),
    (0, Width::One, 7, None),
    (1, Width::One, 7, Some((0, 1))),
    (8, Width::One, 6, Some((2, 8))),
    (8, Width::One, 7, Some((1, 8))),
    (9, Width::One, 7, None),
];

/// What is kept of three stores. None where memory runs out.
fn kept_stores(alloc: Global) -> Option<Footprint> {
    let mut footprint = Footprint::new(alloc);
    footprint.add(alloc, &store(0, 0, Width::Four, 7)).ok()?;
    footprint.add(alloc, &store(1, 8, Width::One, 6)).ok()?;
    footprint.add(alloc, &store(2, 8, Width::One, 7)).ok()?;
    Some(footprint)
}

/// Shows that in a uniform launch alone a store passes where each byte was left as it leaves it.
#[test]
fn stores_of_the_same_byte_pass(rt: HostRuntime) {
    let Some(footprint) = kept_stores(rt.alloc()) else {
        panic!(rt; "out of memory")
    };
    for (first, width, value, expected) in STORES {
        assert_eq!(rt;
            met(&footprint, true, &store(9, first, width, value)),
            expected
        );
    }
    assert!(rt; met(&footprint, false, &store(9, 0, Width::Four, 7)).is_some());
}
