//! The left operand of a division where an item stands.
#![tactic(auto)]

ghost use Rattle.std.specs.Prelude.{◌≡◌};
ghost use Rattle.replay.specs.Items.{dividend_at};

use clnum::Value;
use launches::Slot;

/// The left operand of the division where an item stands that is under way, if it stands at one (C99 6.5.5). After
/// `next` it is that of the division that makes the action.
pub(crate) fn dividend_at(slot: &Slot<'_>) -> Option<Value>
    ensures { result ≡ dividend_at slot.now }
{
    match slot {
        Slot::Running(running) => running.dividend(),
        Slot::Waiting | Slot::Ended => None,
    }
}
