//! Which events of a schedule are told.
#![tactic(auto)]

ghost use Rattle.std.specs.Prelude.{◌≡◌, ◌+◌, ◌-◌, ◌^◌, ◌<◌, ◌≤◌, ◌&&◌, ◌∷◌, ℕ, List, Option, Some, [], cond, count_by, length, nat_lt, slice_get, option_copied, IfOk, OnOk};
ghost use Rattle.std.specs.Bool.{Decides};
ghost use Rattle.fault_play.specs.PlayedOut.{is_access};
ghost use Rattle.fault_play.specs.declared.marks.Mark.{Mark as TheMark};
ghost use Rattle.fault_play.specs.declared.played.Touch.{Touch as TheTouch};
ghost use Rattle.explain_steps.specs.Bytes.{Holds};
ghost use Rattle.explain_steps.specs.Chosen.{AreChosen, IsAwaited, IsWanted, access_of, events_made, frees_them, is_theirs};
ghost use Rattle.explain_steps.specs.Choosing.{IsChoice};

use crate::bytes::ByteSet;
use clmodel::schedule::Event;
use explain_items::{is_access, is_release};
use fault_play::{Mark, Played, Touch};
use std::alloc::{AllocError, Global};

/// Two items, of which one may be the other one, and their groups.
#[derive(Clone, Copy)]
pub(crate) struct Followed {
    pub first: u32,
    pub second: u32,
    pub first_group: u32,
    pub second_group: u32,
}

/// Whether an event is one of the two items.
fn is_theirs(event: Event, followed: Followed) -> bool
    ensures { result ≡ is_theirs followed event }
{
    is_access(event, followed.first) || is_access(event, followed.second)
}

/// Whether an event is a release of the group of one of the two items.
fn frees_them(event: Event, followed: Followed) -> bool
    ensures { result ≡ frees_them followed event }
{
    is_release(event, followed.first_group) || is_release(event, followed.second_group)
}

/// The access of a number, if there is one.
fn touch_at(touches: &[Touch], number: usize) -> Option<&Touch>
    ensures { option_copied result ≡ slice_get touches.now number }
{
    match touches.get(number) {
        Some(touch) => Some(touch),
        None => None,
    }
}

/// The access of an event, where the next one is that of this number.
pub(crate) fn access_of(event: Event, touches: &[Touch], number: usize) -> Option<&Touch>
    ensures { option_copied result ≡ access_of event (slice_get touches.now number) }
{
    match event {
        Event::Item(_) => touch_at(touches, number),
        Event::Release(_) => None,
    }
}

/// How many accesses there are up to an event, where so many are before it.
pub(crate) fn with_event(accesses: usize, event: Event) -> usize
    ensures { accesses < 2 ^ 64 - 1 → result ≡ accesses + cond (is_access event) 1 0 }
{
    match event {
        Event::Item(_) => accesses.saturating_add(1),
        Event::Release(_) => accesses,
    }
}

/// How many accesses there are before an event, where so many are up to it.
fn before_event(accesses: usize, event: Event) -> usize
    ensures { result ≡ accesses - cond (is_access event) 1 0 }
{
    match event {
        Event::Item(_) => accesses.saturating_sub(1),
        Event::Release(_) => accesses,
    }
}

/// The event of a number, with where its item stands.
pub(crate) fn mark_at(marks: &[Mark], number: usize) -> &Mark
    requires { number < length marks.now }
    ensures { slice_get marks.now number ≡ Some result.now }
{
    &marks[number]
}

/// How many accesses some events make.
fn accesses_in(marks: &[Mark]) -> usize
    ensures { result ≡ count_by (λ mark. is_access mark.event) marks.now }
{
    let mut accesses = 0;
    for number in 0..marks.len() {
        let mark = mark_at(marks, number);
        accesses = with_event(accesses, mark.event);
    }
    accesses
}

/// Which of the last events are told, from the last one on, how many these are, and the bytes that one of the two items
/// is given by them, and that they don't write before.
#[derive(Drop)]
struct Choice<'a> {
    awaited: ByteSet<'a>,
    told: Vec<bool>,
    count: usize,
}

/// Goes back over an event. Answers whether it is wanted.
fn is_wanted<'a>(
    awaited: &mut ByteSet<'a>,
    event: Event,
    touch: Option<&'a Touch>,
    followed: Followed,
) -> Result<bool, AllocError>
    ensures held { OnOk result ((mark : TheMark) (later : List (TheMark × Option TheTouch)) → mark.event ≡ event
        → Holds awaited.old (IsAwaited followed later) → Holds awaited.new (IsAwaited followed ((mark, option_copied touch.entry) ∷ later))) }
    ensures wanted { IfOk result (λ wanted. (mark : TheMark) (later : List (TheMark × Option TheTouch)) → mark.event ≡ event
        → Holds awaited.old (IsAwaited followed later) → Decides wanted (IsWanted followed mark (option_copied touch.entry) later)) }
{
    match touch {
        Some(touch) => {
            let is_theirs = is_theirs(event, followed);
            let is_given = awaited.go_back(touch, is_theirs)?;
            Ok(is_theirs || is_given)
        }
        None => Ok(frees_them(event, followed)),
    }
}

/// Whether an event is told that is wanted or not, behind which so many are.
fn is_told(is_wanted: bool, count: usize, most: usize) -> bool
    ensures { result ≡ (is_wanted && nat_lt count most) }
{
    is_wanted && count < most
}

impl<'a> Choice<'a> {
    /// No event.
    fn new(alloc: Global) -> Self
        ensures { (followed : Followed) (most : ℕ) → IsChoice followed most [] result }
    {
        Choice {
            awaited: ByteSet::new(alloc),
            told: Vec::new(alloc),
            count: 0,
        }
    }

    /// Goes back over an event. An error is out of memory.
    fn go_back(
        &mut self,
        event: Event,
        touch: Option<&'a Touch>,
        followed: Followed,
        most: usize,
    ) -> Result<(), AllocError>
        ensures { OnOk result ((mark : TheMark) (later : List (TheMark × Option TheTouch)) → mark.event ≡ event
            → IsChoice followed most later self.old → IsChoice followed most ((mark, option_copied touch.entry) ∷ later) self.new) }
    {
        let is_wanted = is_wanted(&mut self.awaited, event, touch, followed)?;
        let is_told = is_told(is_wanted, self.count, most);
        self.told.push(is_told)?;
        if is_told {
            self.count += 1;
        }
        Ok(())
    }
}

/// Which events are told, from the first one on: those of two items, the releases of their groups, and those that write
/// what one of the two is given; of all these the last ones, as many as may be. It goes once over the events, from the
/// last one on, with a table of the bytes that are awaited: each byte of an access is looked up once, and its object
/// among those of which the two items were given bytes. An error is out of memory.
pub(crate) fn told_events(
    alloc: Global,
    played: &Played,
    followed: Followed,
    most: usize,
) -> Result<Vec<bool>, AllocError>
    ensures few { IfOk result (λ told. count_by (λ b. b) told.items ≤ most) }
    ensures chosen { IfOk result (λ told. AreChosen followed most (events_made 0 played.now.marks.items played.now.touches.items) told.items) }
{
    let (marks, touches) = (played.marks.as_slice(), played.touches.as_slice());
    let mut choice = Choice::new(alloc);
    let mut accesses = accesses_in(marks);
    let mut left = marks.len();
    while left > 0 {
        left -= 1;
        let mark = mark_at(marks, left);
        accesses = before_event(accesses, mark.event);
        let touch = access_of(mark.event, touches, accesses);
        choice.go_back(mark.event, touch, followed, most)?;
    }
    let mut told = choice.told;
    told.reverse();
    Ok(told)
}
