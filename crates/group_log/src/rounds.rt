//! The search for rounds among the newest entries of a log.

ghost use Rattle.std.specs.Prelude.{◌≡◌, ◌+◌, ◌*◌, ◌<◌, ◌≤◌, ◌^◌, ℕ, IfSome, IsTrue, OnOk, length, slice_index_or, take};
ghost use Rattle.group_log.specs.Progressions.{entry_at, no_entry, IsTail};

use crate::progression::Progression;
use crate::stride::{EntryStride, is_same};
use access_list::Entry;
use std::alloc::AllocError;

/// The most entries of a round.
const LONGEST: usize = 64;

/// The search gives up after this many entries that are like the newest, and don't stand a round before it.
const TRIES: usize = 4;

/// Whether the accesses of two entries have one kind, one width and one region.
fn is_like(x: &Entry, y: &Entry) -> bool {
    x.access.kind == y.access.kind
        && x.access.width == y.access.width
        && x.access.region == y.access.region
}

/// Whether three entries stand at equal distances, by their first bytes and by their events.
fn is_as_far(oldest: &Entry, before: &Entry, last: &Entry) -> bool {
    let far = last.access.first.wrapping_sub(before.access.first);
    let late = last.event.wrapping_sub(before.event);
    before.access.first.wrapping_sub(oldest.access.first) == far
        && before.event.wrapping_sub(oldest.event) == late
}

/// The length of a round, of which the newest of `count` kept entries may be three. None where no short length fits.
fn round_of(heads: &[Entry], count: usize) -> Option<usize>
    requires { count ≤ length heads.now }
    ensures { IfSome result (λ period. (0 < period) × (3 * period ≤ count)) }
{
    let end = heads.len();
    let longest = (count / 3).min(LONGEST);
    let mut tried = 0;
    for period in 1..longest + 1 {
        let newest = &heads[end - 1];
        let before = &heads[end - 1 - period];
        if is_like(before, newest) {
            if is_as_far(&heads[end - 1 - 2 * period], before, newest) {
                return Some(period);
            }
            tried += 1;
            if tried == TRIES {
                return None;
            }
        }
    }
    None
}

/// Adds the stride of each entry of a round to the next, as the first two rounds have them. An error is out of memory;
/// some strides may have been added.
fn add_steps(
    heads: &[Entry],
    steps: &mut Vec<EntryStride>,
    head: usize,
    period: usize,
) -> Result<(), AllocError>
    requires { head + 2 * period ≤ length heads.now }
    ensures longer { OnOk result (length steps.new.items ≡ length steps.old.items + period) }
    ensures kept { take (length steps.old.items) steps.new.items ≡ steps.old.items }
{
    for k in 0..period {
        let step = EntryStride::between(&heads[head + k], &heads[head + period + k]);
        steps.push(step)?;
    }
    Ok(())
}

/// Whether a progression computes the entries that are kept from its first one on.
fn is_told(heads: &[Entry], steps: &[EntryStride], progression: &Progression) -> bool
    requires some { 0 < progression.now.period }
    requires heads { progression.now.head + progression.now.count ≤ length heads.now }
    requires rounds { progression.now.period ≤ progression.now.count }
    requires steps { progression.now.step + progression.now.period ≤ length steps.now }
    ensures { IsTrue result → (k : ℕ) → progression.now.period ≤ k → k < progression.now.count → entry_at heads.now steps.now progression.now.head progression.now.period progression.now.step k ≡ slice_index_or heads.now (progression.now.head + k) no_entry }
{
    for k in progression.period..progression.count {
        if !is_same(
            &progression.entry(heads, steps, k),
            &heads[progression.head + k],
        ) {
            return false;
        }
    }
    true
}

/// A progression of the newest entries of `last`, which has one round, where they are three rounds. None where they
/// aren't, or where their strides get no memory.
pub(crate) fn tail_of(
    heads: &[Entry],
    steps: &mut Vec<EntryStride>,
    last: &Progression,
) -> Option<Progression>
    requires heads { last.now.head + last.now.count ≤ length heads.now }
    requires short { last.now.start + last.now.count < 2 ^ 64 }
    ensures kept { take (length steps.old.items) steps.new.items ≡ steps.old.items }
    ensures tail { IfSome result (IsTail heads.now steps.new.items (length steps.old.items) last.now) }
{
    let period = round_of(heads, last.count)?;
    let rest = last.count - 3 * period;
    let progression = Progression {
        start: last.start + rest,
        head: last.head + rest,
        period,
        step: steps.len(),
        count: 3 * period,
    };
    if add_steps(heads, steps, progression.head, period).is_ok()
        && is_told(heads, steps.as_slice(), &progression)
    {
        return Some(progression);
    }
    steps.truncate(progression.step);
    None
}
