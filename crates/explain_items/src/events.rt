//! What an event is, and where its item stands.
#![tactic(auto)]

ghost use Rattle.std.specs.Prelude.{◌≡◌, option_copied};
ghost use Rattle.explain_items.specs.Deeds.{is_release_of};
ghost use Rattle.explain_items.specs.Named.{stand_of};
ghost use Rattle.fault_play.specs.PlayedOut.{is_event_of};

use clmodel::schedule::Event;
use fault_play::{Mark, Stand};

/// Whether an event is an access of an item.
pub fn is_access(event: Event, item: u32) -> bool
    ensures { result ≡ is_event_of item event }
{
    match event {
        Event::Item(other) => other == item,
        Event::Release(_) => false,
    }
}

/// Whether an event is the release of a group.
pub fn is_release(event: Event, group: u32) -> bool
    ensures { result ≡ is_release_of group event }
{
    match event {
        Event::Item(_) => false,
        Event::Release(other) => other == group,
    }
}

/// Where the item of an event stands, by the event's number.
pub fn stand_at(marks: &[Mark], event: Option<usize>) -> Option<&Stand>
    ensures { option_copied result ≡ stand_of marks.now event }
{
    match marks.get(event?) {
        Some(mark) => mark.stand.as_ref(),
        None => None,
    }
}
