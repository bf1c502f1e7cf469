//! The results of groups, put in order.
ghost use Rattle.std.specs.Prelude.{◌≡◌, ◌⊎◌, ℕ, ◌<◌, ◌≤◌, IfOk, IfErr, Some, None, All, Any, slice_get, slice_set, vec_len, replicate};
ghost use Rattle.workers_draw.specs.Groups.{IsOfSome, IsThere, InPlace, AreComplete, AreResults};

use crate::work::Work;
use std::alloc::{AllocError, Global};

/// A place for each group's result, with none there.
pub(crate) fn places<T: Drop>(alloc: Global, count: u32) -> Result<Vec<Option<T>>, AllocError>
    ensures { IfOk result (λ v. v.items ≡ replicate count None) }
{
    let mut places = Vec::new(alloc);
    for _ in 0..count {
        places.push(None)?;
    }
    Ok(places)
}

/// Puts a result at its group's place. A result of a group that has one already, or of no group, is refused, and comes
/// back.
pub fn accept<W: Work>(
    work: &W,
    places: &mut Vec<Option<W::Output>>,
    output: W::Output,
) -> Result<(), W::Output>
    ensures ok { IfOk result (λ _. (slice_get places.old.items (W.number_of work.now output) ≡ Some None) × (places.new.items ≡ slice_set places.old.items (W.number_of work.now output) (Some output))) }
    ensures err { IfErr result (λ o. (o ≡ output) × (places.new.items ≡ places.old.items) × ((vec_len places.old ≤ W.number_of work.now output) ⊎ IsThere places.old.items (W.number_of work.now output))) }
{
    let number = work.number(&output) as usize;
    match places.get(number) {
        Some(None) => {
            places[number] = Some(output);
            Ok(())
        }
        Some(Some(_)) => Err(output),
        None => Err(output),
    }
}

/// Puts a group's result at its place, unless it is there.
fn put<W: Work>(work: &W, places: &mut Vec<Option<W::Output>>, output: W::Output)
    requires size { vec_len places.old ≡ W.count work.now }
    requires right { InPlace (W.gives work.now) places.old.items }
    requires each { IsOfSome (W.count work.now) (W.gives work.now) output }
    ensures size { vec_len places.new ≡ W.count work.now }
    ensures right { InPlace (W.gives work.now) places.new.items }
    ensures kept { (group : ℕ) → IsThere places.old.items group → IsThere places.new.items group }
    ensures there { (group : ℕ) → W.gives work.now group output → IsThere places.new.items group }
{
    work.laws();
    match accept(work, places, output) {
        Ok(()) => {}
        Err(refused) => drop(refused),
    }
}

/// Puts all results at their places.
pub(crate) fn accept_all<W: Work>(
    work: &W,
    places: &mut Vec<Option<W::Output>>,
    outputs: Vec<W::Output>,
)
    requires size { vec_len places.old ≡ W.count work.now }
    requires right { InPlace (W.gives work.now) places.old.items }
    requires each { All (IsOfSome (W.count work.now) (W.gives work.now)) outputs.items }
    ensures size { vec_len places.new ≡ W.count work.now }
    ensures right { InPlace (W.gives work.now) places.new.items }
    ensures kept { (group : ℕ) → IsThere places.old.items group → IsThere places.new.items group }
    ensures there { (group : ℕ) → Any (W.gives work.now group) outputs.items → IsThere places.new.items group }
{
    for output in outputs {
        put(work, places, output);
    }
}

/// The results in order, up to and with the first that stopped.
pub(crate) fn in_order<W: Work>(
    alloc: Global,
    work: &W,
    places: Vec<Option<W::Output>>,
) -> Result<Vec<W::Output>, AllocError>
    requires size { vec_len places ≡ W.count work.now }
    requires right { InPlace (W.gives work.now) places.items }
    requires complete { AreComplete (W.count work.now) (W.stops work.now) places.items }
    ensures { IfOk result (λ v. AreResults (W.count work.now) (W.gives work.now) W.is_stopped 0 v.items) }
{
    work.laws();
    let mut outputs = Vec::new(alloc);
    for place in places {
        let Some(output) = place else { unreachable!() };
        let stopped = W::stopped(&output);
        outputs.push(output)?;
        if stopped {
            return Ok(outputs);
        }
    }
    Ok(outputs)
}
