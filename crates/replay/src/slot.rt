//! A single item as it is played.

ghost use Rattle.std.specs.Prelude.{◌≡◌, ℕ, [], ◌∷◌, ◌++◌, List, IfOk, OnOk};
ghost use Rattle.clmodel.specs.Launch.{Launch};
ghost use Rattle.clmodel.specs.declared.action.Answer.{Answer};
ghost use Rattle.item_step.specs.Running.{Running};
ghost use Rattle.launches.specs.Items.{Runs, acts_of, IsAsked};
ghost use Rattle.replay.specs.Items.{is_at, stand_of};

use crate::nexts::stop_of;
use clmodel::action::{Answer, Stop, Turns};
use launches::{Runnable, Slot, same_stop};
use std::alloc::{AllocError, Global};

/// Where an item stands: the place in its code of an instruction, and the numbers of the turns that loops have made by
/// then, the outermost loop first. The first n of these are those of the n loops round the place, as a barrier there
/// would tell them.
#[derive(Drop)]
pub struct Stand {
    pub place: usize,
    pub turns: Turns,
}

/// Where an item stands, if it is under way. Once it was asked for its next action it is the instruction that makes the
/// action.
pub fn stand_of(slot: &Slot<'_>, alloc: Global) -> Option<Stand>
    ensures { result ≡ stand_of slot.now }
{
    match slot {
        Slot::Running(running) => Some(Stand {
            place: running.place(),
            turns: Turns::of(alloc, running.turns()),
        }),
        Slot::Waiting | Slot::Ended => None,
    }
}

/// Whether an item is at a stop. An error is out of memory.
pub fn is_at<'a, D: Runnable>(
    slot: &mut Slot<'a>,
    alloc: Global,
    launch: &'a D,
    item: u32,
    stop: &Stop,
) -> Result<bool, AllocError>
    ensures same { (answers : List Answer) → acts_of (D.launch launch.now) item slot.new answers ≡ acts_of (D.launch launch.now) item slot.old answers }
    ensures value { IfOk result (λ yes. yes ≡ is_at (D.launch launch.now) stop.now item slot.old) }
    ensures asked { OnOk result (IsAsked slot.new) }
    ensures runs { (answers : List Answer) → Runs (D.started launch.now item) answers slot.old → Runs (D.started launch.now item) answers slot.new }
{
    match stop_of(slot.next(alloc, launch, item)?) {
        Some(other) => Ok(same_stop(stop, &other)),
        None => Ok(false),
    }
}

/// The next action of an item, which was asked, is answered, and the item goes on to the one after it, so that one that
/// comes to its end keeps no memory.
pub fn answer(slot: &mut Slot<'_>, answer: Answer)
    requires { IsAsked slot.old }
    ensures answered { (launch : Launch) (item : ℕ) (answers : List Answer) → acts_of launch item slot.new answers ≡ acts_of launch item slot.old (answer ∷ answers) }
    ensures runs { (start : Running) (answers : List Answer) → Runs start answers slot.old → Runs start (answers ++ answer ∷ []) slot.new }
{
    slot.answer(answer);
    slot.goes_on_brief();
}
