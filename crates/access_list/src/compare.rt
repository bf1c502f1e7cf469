//! How two accesses conflict.

ghost use Rattle.std.specs.Prelude.{◌≡◌, ◌+◌, ◌<◌, ◌^◌, ℕ, false, None};
ghost use Rattle.clmodel.specs.Cells.{byte_count, byte_of, covers};
ghost use Rattle.clmodel.specs.Launch.{unordered, share, same_region, left_at, same_store, clash_at, conflict_between};
ghost use Rattle.access_list.specs.Log.{hit_between};

use crate::kinds::{both_store, clash};
use crate::log::{Entry, Hit};
use crate::sizes::{BYTE_BITS, BYTE_VALUES, VALUE_BYTES};
use clmodel::access::{Access, Clash, Region, Rule};

/// Whether two regions are one.
fn same_region(a: Region, b: Region) -> bool
    ensures { result ≡ same_region a b }
{
    match a {
        Region::Buffer(x) => match b {
            Region::Buffer(y) => x == y,
            Region::Local { .. } => false,
        },
        Region::Local { group, number } => match b {
            Region::Buffer(_) => false,
            Region::Local {
                group: other_group,
                number: other_number,
            } => group == other_group && number == other_number,
        },
    }
}

/// Whether by their rule no barrier orders two accesses of different items.
fn unordered(rule: Rule, x: &Access, y: &Access) -> bool
    ensures { result ≡ unordered rule x.now y.now }
{
    x.item != y.item && (!rule.one_group || x.interval == y.interval)
}

/// Whether a byte is one of `count` from the first on.
fn covers(first: u64, count: u64, byte: u64) -> bool
    ensures { result ≡ covers first count byte }
{
    first <= byte && byte - first < count
}

/// Whether both accesses are at this byte.
fn share(x: &Access, y: &Access, byte: u64) -> bool
    ensures { result ≡ share x.now y.now byte }
{
    same_region(x.region, y.region)
        && covers(x.first, x.width.bytes(), byte)
        && covers(y.first, y.width.bytes(), byte)
}

/// Byte k of a number, the lowest first.
pub fn byte_of(k: u64, value: u64) -> u8
    ensures { result ≡ byte_of k value }
{
    if k < VALUE_BYTES {
        ((value >> (BYTE_BITS * k)) % BYTE_VALUES) as u8
    } else {
        0
    }
}

/// What a store that is at this byte leaves there (C99, section 6.5.16.1).
pub fn left_at(x: &Access, byte: u64) -> u8
    ensures { result ≡ left_at x.now byte }
{
    byte_of(byte.saturating_sub(x.first), x.value)
}

/// Whether both are stores of a uniform launch that leave the same byte.
fn same_store(rule: Rule, x: &Access, y: &Access, byte: u64) -> bool
    ensures { result ≡ same_store rule x.now y.now byte }
{
    both_store(x.kind, y.kind) && rule.uniform && left_at(x, byte) == left_at(y, byte)
}

/// How two accesses conflict on a byte that both are at, if no barrier orders them.
fn clash_at(rule: Rule, x: &Access, y: &Access, byte: u64) -> Option<Clash>
    ensures { result ≡ clash_at rule x.now y.now byte }
{
    if same_store(rule, x, y, byte) {
        None
    } else {
        clash(x.kind, y.kind)
    }
}

/// How two accesses conflict on a byte by their rule, if they do.
#[tactic(auto, unfolding(clmodel::specs::Launch::conflict_between))]
fn conflict_between(rule: Rule, x: &Access, y: &Access, byte: u64) -> Option<Clash>
    ensures { result ≡ conflict_between rule x.now y.now byte }
{
    if unordered(rule, x, y) && share(x, y, byte) {
        clash_at(rule, x, y, byte)
    } else {
        None
    }
}

/// The conflict of an earlier access with a later one on a byte by their rule, if they have one.
pub fn hit_between(rule: Rule, earlier: &Entry, later: &Entry, byte: u64) -> Option<Hit>
    ensures { result ≡ hit_between rule earlier.now later.now byte }
{
    let clash = conflict_between(rule, &earlier.access, &later.access, byte)?;
    Some(Hit {
        clash,
        earlier: *earlier,
        later: *later,
        byte,
    })
}

/// Whether two accesses may conflict: a test in one go, which rules out most of them.
pub fn may_conflict(rule: Rule, x: &Access, y: &Access) -> bool
    requires placed { x.now.first + byte_count x.now.width < 2 ^ 64 }
    requires other_placed { y.now.first + byte_count y.now.width < 2 ^ 64 }
    ensures { result ≡ false → (byte : ℕ) → conflict_between rule x.now y.now byte ≡ None }
{
    if !unordered(rule, x, y) {
        return false;
    }
    if !same_region(x.region, y.region) {
        return false;
    }
    if y.first + y.width.bytes() <= x.first {
        return false;
    }
    if x.first + x.width.bytes() <= y.first {
        return false;
    }
    clash(x.kind, y.kind).is_some()
}
