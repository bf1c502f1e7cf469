//! Which accesses the filter of races lets by.

use clmodel::access::{Access, AccessKind, Class, Region, Width};
use race_filter::RaceFilter;
use std::alloc::Global;

/// Whether a launch is uniform, and accesses of it, one behind the other, each of six signs: its item, of which each
/// two are a group; its kind (`l`oad, `s`tore of 1, `t` a store of 2, `u`pdate, `f`etch), large where it is to the
/// group's local object and not to a buffer; its width; its first byte; its interval; and what must come: `y` where
/// none before races with it, by what they have in common, `n` where one races with it.
const ROWS: [(bool, &str); 12] = [
    // Loads alone, of one byte and of more
    (false, "0l400y 1l400y 2l400y 3l120y 4l800y"),
    // Atomic operations alone, whatever they do
    (false, "0u400y 1f400y 2u400y 3f400y"),
    // One item's, also of other bytes of the word
    (false, "2l400y 2s400y 2f400y 2s110y 2t800y"),
    // Behind a barrier of the group; it orders nothing of another one
    (false, "0s400y 1l401y 0l401y 1s402y 0l403y 2l404n"),
    (false, "0s401y 1l401n"),
    // Bytes of one word
    (false, "0s100y 1s110y 2s120y 3s130y 0t100y 4l120n"),
    // Words side by side, and both
    (false, "0s400y 1s440y 0l400y 1l440y 2l800n"),
    (false, "0l400y 1l440y 2l800y 2s800n"),
    // An atomic operation and a load
    (false, "0l400y 1l400y 1u400n"),
    // Stores of one number
    (true, "0s400y 1s400y 2s400y 3t400n"),
    (false, "0s400y 1s400n"),
    // Local objects of two groups, and a buffer
    (false, "0S400y 2S400y 4s400y 2L400y 1L400n"),
];

/// The kind of an access by its sign.
fn kind_of(sign: u8) -> AccessKind {
    match sign {
        b'l' | b'L' => AccessKind::Load,
        b'u' => AccessKind::Update(Class::Add),
        b'f' => AccessKind::Fetch,
        _ => AccessKind::Store,
    }
}

/// The width of an access by its sign.
fn width_of(sign: u8) -> Width {
    match sign {
        b'1' => Width::One,
        b'8' => Width::Eight,
        _ => Width::Four,
    }
}

/// The region of an access of a group, by the sign of its kind.
fn region_of(sign: u8, group: u32) -> Region {
    if sign.is_ascii_uppercase() {
        Region::Local { group, number: 0 }
    } else {
        Region::Buffer(0)
    }
}

/// Whether the filter says of an access what must come, by six signs. None where memory runs out.
fn tells(filter: &mut RaceFilter, uniform: bool, signs: &[u8]) -> Option<bool> {
    let [item, kind, width, first, interval, expected, ..] = signs else {
        return None;
    };
    let group = item.saturating_sub(b'0') as u32 / 2;
    let access = Access {
        item: item.saturating_sub(b'0') as u32,
        region: region_of(*kind, group),
        first: first.saturating_sub(b'0') as u64,
        width: width_of(*width),
        kind: kind_of(*kind),
        value: if *kind == b't' { 2 } else { 1 },
        interval: interval.saturating_sub(b'0') as u32,
    };
    let passed = filter.pass(group, uniform, &access).ok()?;
    Some(passed == (*expected == b'y'))
}

/// Whether the filter says of all accesses of a row what must come. None where memory runs out.
fn tells_all(alloc: Global, uniform: bool, row: &str) -> Option<bool> {
    let mut filter = RaceFilter::new(alloc);
    for signs in row.as_bytes().chunks(7) {
        if !tells(&mut filter, uniform, signs)? {
            return Some(false);
        }
    }
    Some(true)
}

/// Shows that the filter lets by what it should, and nothing that races.
#[test]
fn let_by(rt: HostRuntime) {
    for (uniform, row) in ROWS {
        assert!(rt; tells_all(rt.alloc(), uniform, row) == Some(true), "{row}");
    }
}
