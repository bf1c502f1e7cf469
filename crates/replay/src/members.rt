//! The items of a work-group, one after another.

ghost use Rattle.std.specs.Prelude.{◌≡◌, ◌≤◌, length, true, IfOk};
ghost use Rattle.clmodel.specs.Launch.{Launch};
ghost use Rattle.clmodel.specs.declared.action.Answer.TheVariants.{Done};
ghost use Rattle.replay.specs.Items.{AreAlike, AreAsked, AreAt, AreAnswered};

use crate::slot::{answer, is_at};
use clmodel::action::{Answer, Stop};
use launches::{Runnable, Slot};
use std::alloc::{AllocError, Global};

/// Whether the items from the first on, below an end, are at a stop: a walk over them, up to the first one that isn't.
/// An error is out of memory.
pub fn are_at<'a, D: Runnable>(
    items: &mut Vec<Slot<'a>>,
    alloc: Global,
    launch: &'a D,
    first: u32,
    end: u32,
    stop: &Stop,
) -> Result<bool, AllocError>
    requires { end ≤ length items.old.items }
    ensures same { AreAlike (D.launch launch.now) (D.started launch.now) items.old.items items.new.items }
    ensures value { IfOk result (AreAt (D.launch launch.now) items.old.items first end stop.now) }
    ensures asked { IfOk result (λ yes. yes ≡ true → AreAsked items.new.items first end) }
{
    for item in first..end {
        if !is_at(&mut items[item as usize], alloc, launch, item, stop)? {
            return Ok(false);
        }
    }
    Ok(true)
}

/// Answers the items from the first on, below an end, which were asked, that their barrier is passed.
pub fn answer_all(items: &mut Vec<Slot<'_>>, first: u32, end: u32)
    requires order { first ≤ end }
    requires inside { end ≤ length items.old.items }
    requires asked { AreAsked items.old.items first end }
    ensures { (launch : Launch) → AreAnswered launch first end Done items.old.items items.new.items }
{
    for item in first..end {
        answer(&mut items[item as usize], Answer::Done);
    }
}
