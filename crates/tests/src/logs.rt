//! Access logs, called directly: which accesses are kept, and which conflict.

ghost use Rattle.std.specs.Prelude.{◌<◌};
ghost use Rattle.access_list.specs.Log.{IsPlaced};

use crate::footprints::ADD;
use access_list::{AccessLog, Accesses, Entry, Fenced, Hit, ListLog};
use clmodel::access::{Access, AccessKind, Class, Operation, Region, Width};

/// The item, the first of four bytes of buffer 0, and the kind of an access; the byte of its conflict; how many
/// accesses are then kept.
type Row = (u32, u8, AccessKind, Option<u64>, usize);

/// The accesses that a log is given, in their order.
const ROWS: [Row; 8] = [
    (0, 6, AccessKind::Store, None, 2),
    (0, 6, AccessKind::Store, None, 2),
    (5, 6, AccessKind::Store, Some(6), 3),
    (1, 9, AccessKind::Load, Some(9), 4),
    (1, 17, AccessKind::Store, None, 5),
    (2, 7, AccessKind::Load, Some(7), 6),
    (3, 17, AccessKind::Update(Class::Add), Some(17), 7),
    (4, 20, AccessKind::Update(Class::Add), Some(20), 8),
];

/// Makes an entry of an access to four bytes of buffer 0, with the value 0, in interval 0 and of event 0.
fn entry(item: u32, first: u8, kind: AccessKind) -> Entry
    ensures { IsPlaced result }
{
    let access = Access {
        item,
        region: Region::Buffer(0),
        first: first as u64,
        width: Width::Four,
        kind,
        value: 0,
        interval: 0,
    };
    Entry { access, event: 0 }
}

/// Whether a conflict is on this byte, or there is none where there is no byte.
pub(crate) fn is_on(hit: Option<Hit>, byte: Option<u64>) -> bool {
    match hit {
        Some(hit) => byte == Some(hit.byte),
        None => byte.is_none(),
    }
}

/// Whether a log tells the conflict of a row's access, and keeps as many then.
fn is_noted(log: &mut ListLog, row: Row) -> bool {
    let (item, first, kind, byte, kept) = row;
    match log.note(entry(item, first, kind)) {
        Ok(hit) => is_on(hit, byte) & (log.len() == kept),
        Err(_) => false,
    }
}

/// Shows which accesses a log keeps, and the byte of each conflict that it tells.
// An access that is there in the running interval isn't kept again. One of another interval is, and is no conflict.
#[test]
fn accesses_are_noted(rt: HostRuntime) {
    let mut log = ListLog::new(rt.alloc(), false);
    let Ok(None) = log.note(entry(5, 6, AccessKind::Store)) else {
        panic!(rt; "a conflict")
    };
    log.fence(Fenced::Global);
    for row in ROWS {
        assert!(rt; is_noted(&mut log, row));
    }
}

/// Shows that additions of two groups pass, and that a minimum conflicts with an addition at the byte they share.
#[test]
fn groups_conflict_on_buffers(rt: HostRuntime) {
    let mut one = ListLog::new(rt.alloc(), false);
    let mut two = ListLog::new(rt.alloc(), false);
    let Ok(None) = one.note(entry(0, 8, ADD)) else {
        panic!(rt; "a conflict")
    };
    let Ok(None) = two.note(entry(9, 8, ADD)) else {
        panic!(rt; "a conflict")
    };
    assert!(rt; one.conflicts_with(&two).is_none());
    let Ok(None) = two.note(entry(9, 11, AccessKind::Update(Class::SignedMin))) else {
        panic!(rt; "a conflict")
    };
    assert!(rt; is_on(one.conflicts_with(&two), Some(11)));
}

/// How many local objects an item stores to: as many as local memory has bytes.
const OBJECTS: u32 = 32768;

/// Whether a store to each local object is no conflict, and the log has one store for each then.
fn are_stored(log: &mut ListLog, turn: u32) -> bool {
    for number in 0..OBJECTS {
        let region = Region::Local { group: 0, number };
        let operation = Operation::Store(Width::One, 7);
        let Ok(None) = log.note(Entry::of(0, region, 0, operation, turn)) else {
            return false;
        };
    }
    log.len() == OBJECTS as usize
}

/// Shows that a log keeps one store for each of 32,768 local objects, and no second one.
// Stores to as many local objects are kept apart, and each again is found without a walk.
#[test]
fn local_objects_are_told_apart(rt: HostRuntime) {
    let mut log = ListLog::new(rt.alloc(), false);
    assert!(rt; are_stored(&mut log, 0) & are_stored(&mut log, 1));
}

/// The item, the first byte of buffer 0, and the operation of an access; the byte of its conflict in a uniform launch,
/// and in another.
pub(crate) const STORES: [(u32, u8, Operation, Option<u64>, Option<u64>); 9] = [
    (0, 0, Operation::Store(Width::Four, 7), None, None),
    (1, 0, Operation::Store(Width::Four, 7), None, Some(0)),
    (2, 0, Operation::Store(Width::One, 7), None, Some(0)),
    (3, 1, Operation::Store(Width::One, 7), Some(1), Some(1)),
    (4, 8, Operation::Store(Width::One, 6), None, None),
    (4, 8, Operation::Store(Width::One, 7), None, None),
    (5, 8, Operation::Store(Width::One, 7), Some(8), Some(8)),
    (6, 16, Operation::Store(Width::Two, 1799), None, None),
    (7, 16, Operation::Load(Width::One), Some(16), Some(16)),
];

/// Whether a log tells the conflicts of the stores, and keeps each.
fn are_told(log: &mut ListLog, uniform: bool) -> bool {
    let mut is_right = true;
    for (item, first, operation, with, without) in STORES {
        let entry = Entry::of(item, Region::Buffer(0), first as u64, operation, 0);
        let byte = if uniform { with } else { without };
        is_right &= matches!(log.note(entry), Ok(hit) if is_on(hit, byte));
    }
    is_right & (log.len() == STORES.len())
}

/// Shows where stores of two items to one byte conflict, in a uniform launch and in another.
// In a uniform launch two stores conflict where they leave different bytes: not by their numbers, and whichever store
// of an item it is.
#[test]
fn stores_of_the_same_byte_pass_in_a_uniform_launch(rt: HostRuntime) {
    for uniform in [true, false] {
        let mut log = ListLog::new(rt.alloc(), uniform);
        assert!(rt; are_told(&mut log, uniform));
    }
}
