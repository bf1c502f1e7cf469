//! The log of a running group, called directly: which conflicts it tells, and which accesses last for other groups.

ghost use Rattle.access_list.specs.Log.{IsPlaced};

use crate::logs::{STORES, is_on};
use access_list::{AccessLog, Entry, Fenced, ListLog};
use clmodel::access::{Operation, Region, Width};
use group_log::GroupLog;
use shadow::{AccessSummary, GroupAccesses};
use std::alloc::Global;

/// The buffer that is accessed.
const BUFFER: Region = Region::Buffer(0);

/// The local object that is accessed.
const LOCAL: Region = Region::Local {
    group: 0,
    number: 0,
};

/// The item, the object, the first byte and the operation of an access; the byte of its conflict; whether a running log
/// keeps it for other groups, as it does unless each byte had an access of its sort, or of two sorts.
type Row = (u32, Region, u8, Operation, Option<u64>, bool);

/// Accesses behind a barrier, before which item 5 has stored 7 at byte 6 of the buffer. From the first access that
/// isn't aligned on, a running log keeps each one.
const ROWS: [Row; 13] = [
    (0, BUFFER, 0, Operation::Load(Width::Four), None, true),
    (0, BUFFER, 0, Operation::Load(Width::Four), None, false),
    (1, BUFFER, 0, Operation::Load(Width::Four), None, false),
    (2, BUFFER, 2, Operation::Load(Width::Two), None, false),
    (2, BUFFER, 0, Operation::Load(Width::One), None, false),
    (0, BUFFER, 0, Operation::Load(Width::Eight), None, true),
    (0, LOCAL, 0, Operation::Store(Width::One, 7), None, false),
    (1, LOCAL, 0, Operation::Load(Width::One), Some(0), false),
    (0, BUFFER, 4, Operation::Store(Width::Two, 1), None, true),
    (0, BUFFER, 4, Operation::Store(Width::Two, 2), None, false),
    (
        1,
        BUFFER,
        3,
        Operation::Store(Width::Four, 7),
        Some(3),
        true,
    ),
    (1, BUFFER, 6, Operation::Load(Width::One), None, true),
    (0, BUFFER, 2, Operation::Load(Width::Four), Some(3), true),
];

/// The numbers of the events that a running log keeps: 0 is the store before the barrier.
const KEPT: [u32; 7] = [0, 1, 6, 9, 11, 12, 13];

/// The numbers of those that tell other groups something new: the first access of a byte, and the first of another kind
/// or by which a store leaves another byte.
const LASTING: [u32; 5] = [0, 1, 6, 9, 11];

/// Whether these are the numbers of the events of a group's accesses, as other groups ask for them.
fn has_events<L: GroupAccesses>(log: &L, events: &[u32]) -> bool {
    let mut is_same = log.len() == events.len();
    for i in 0..log.len() {
        is_same &= events.get(i) == Some(&log.get(i).event);
    }
    is_same
}

/// Whether an access has its conflict on this byte, or none where there is no byte, when it is noted as a group does:
/// `note` judges it where the log doesn't see at once that it conflicts with none.
fn is_noted<L: AccessLog>(log: &mut L, entry: Entry, byte: Option<u64>) -> bool
    requires { IsPlaced entry }
{
    match log.note_if_clear(entry) {
        Ok(true) => byte.is_none(),
        Ok(false) => match log.note(entry) {
            Ok(hit) => is_on(hit, byte),
            Err(_) => false,
        },
        Err(_) => false,
    }
}

/// Whether a log tells the conflict of a row's access, which has the number of an event.
fn is_told<L: AccessLog>(log: &mut L, row: Row, event: u32) -> bool {
    let (item, region, first, operation, byte, _) = row;
    let entry = Entry::of(item, region, first as u64, operation, event);
    is_noted(log, entry, byte)
}

/// Whether a running log keeps these accesses for other groups, and so does its list. None where memory runs out.
fn are_kept(alloc: Global, log: &GroupLog) -> Option<bool> {
    let list = log.list(alloc).ok()?;
    Some(has_events(log, &KEPT) & has_events(&list, &KEPT) & list.has_last())
}

/// Shows which conflicts a running log tells, and which accesses it and its list keep for other groups.
#[test]
fn what_lasts_of_a_running_log(rt: HostRuntime) {
    let alloc = rt.alloc();
    let mut log = GroupLog::new(alloc, false);
    let Ok(None) = log.note(Entry::of(5, BUFFER, 6, Operation::Store(Width::One, 7), 0)) else {
        panic!(rt; "a conflict")
    };
    log.fence(Fenced::Global);
    let mut event = 0u32;
    for row in ROWS {
        event = event.wrapping_add(1);
        assert!(rt;
            is_told(&mut log, row, event) & (log.has_last() == row.5),
            "{event}"
        );
    }
    assert!(rt; are_kept(alloc, &log) == Some(true));
}

/// Whether the summary of a list keeps what tells other groups something new. None where memory runs out.
fn is_summed_up(alloc: Global, log: &ListLog) -> Option<bool> {
    let list = AccessSummary::of(alloc, log).ok()?;
    Some(has_events(&list, &LASTING) & !list.has_last())
}

/// Shows that a list tells the same conflicts, and that its summary keeps what tells other groups something new.
#[test]
fn what_lasts_of_a_list(rt: HostRuntime) {
    let alloc = rt.alloc();
    let mut log = ListLog::new(alloc, false);
    let Ok(None) = log.note(Entry::of(5, BUFFER, 6, Operation::Store(Width::One, 7), 0)) else {
        panic!(rt; "a conflict")
    };
    log.fence(Fenced::Global);
    let mut event = 0u32;
    for row in ROWS {
        event = event.wrapping_add(1);
        assert!(rt; is_told(&mut log, row, event), "{event}");
    }
    assert!(rt; is_summed_up(alloc, &log) == Some(true));
}

/// Whether a running log tells the conflicts of the stores, and has no access once it is cleared.
fn are_told(alloc: Global, log: &mut GroupLog, uniform: bool) -> bool {
    let mut is_right = true;
    for (item, first, operation, with, without) in STORES {
        let entry = Entry::of(item, BUFFER, first as u64, operation, 0);
        is_right &= is_noted(log, entry, if uniform { with } else { without });
    }
    log.clear(alloc);
    is_right & (log.len() == 0)
}

/// Shows where a running log tells conflicts of stores, in a uniform launch and in another.
// A running log judges stores as the list of all accesses does, and again once it is cleared.
#[test]
fn stores_of_the_same_byte_pass_in_a_uniform_launch(rt: HostRuntime) {
    let alloc = rt.alloc();
    for uniform in [true, false] {
        let mut log = GroupLog::new(alloc, uniform);
        assert!(rt; are_told(alloc, &mut log, uniform) & are_told(alloc, &mut log, uniform));
    }
}
