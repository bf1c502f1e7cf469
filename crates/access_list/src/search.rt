//! The conflicts of an access with many.

ghost use Rattle.std.specs.Prelude.{◌≡◌, ℕ, false, None, All, IsTrue};
ghost use Rattle.access_list.specs.Log.{IsPlaced, IsThere, hit_on, hit};

use crate::compare::{hit_between, may_conflict};
use crate::log::{Entry, Hit};
use clmodel::access::{Access, Rule};

/// The conflict of an access on a byte with the earliest that has one.
fn hit_on(rule: Rule, x: &Entry, byte: u64, log: &[Entry]) -> Option<Hit>
    ensures { result ≡ hit_on rule x.now byte log.now }
{
    for y in log {
        if let Some(hit) = hit_between(rule, y, x, byte) {
            return Some(hit);
        }
    }
    None
}

/// Whether no access of a log conflicts with this one: one pass, however wide it is.
fn is_clear(rule: Rule, x: &Entry, log: &[Entry]) -> bool
    requires placed { IsPlaced x.now }
    requires all_placed { All IsPlaced log.now }
    ensures { IsTrue result → (byte : ℕ) → hit_on rule x.now byte log.now ≡ None }
{
    for y in log {
        if may_conflict(rule, &y.access, &x.access) {
            return false;
        }
    }
    true
}

/// The conflict of an access with a log by their rule: on its lowest byte that has one, there with the earliest access.
pub fn hit(rule: Rule, x: &Entry, log: &[Entry]) -> Option<Hit>
    requires placed { IsPlaced x.now }
    requires all_placed { All IsPlaced log.now }
    ensures { result ≡ hit rule x.now log.now }
{
    if is_clear(rule, x, log) {
        return None;
    }
    let first = x.access.first;
    for byte in first..first + x.access.width.bytes() {
        if let Some(hit) = hit_on(rule, x, byte, log) {
            return Some(hit);
        }
    }
    None
}

/// Whether an access is in a log: a walk.
pub(crate) fn is_among(x: &Access, log: &[Entry]) -> bool
    ensures there { IsTrue result → IsThere log.now x.now }
    ensures new { result ≡ false → IsThere log.now x.now → ⊥ }
{
    for y in log {
        if is_same(&y.access, x) {
            return true;
        }
    }
    false
}

/// Whether two accesses are equal.
pub fn is_same(x: &Access, y: &Access) -> bool
    ensures same { IsTrue result → x.now ≡ y.now }
    ensures other { result ≡ false → x.now ≡ y.now → ⊥ }
{
    x == y
}
