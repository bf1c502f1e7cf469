//! A set of bytes of objects.
#![tactic(auto)]

ghost use Rattle.std.specs.Prelude.{◌≡◌, ◌<◌, ◌+◌, ◌&&◌, ◌||◌, ◌⊎◌, ◌∷◌, Bool, ℕ, List, Option, Some, None, not, true, false, map, slice_get, IfNone, IfOk, IfSome, OnOk};
ghost use Rattle.std.specs.Bool.{Decides};
ghost use Rattle.clmodel.specs.declared.fault.Location.{Location as Place};
ghost use Rattle.fault_play.specs.declared.marks.Mark.{Mark};
ghost use Rattle.fault_play.specs.declared.played.Touch.{Touch as TheTouch};
ghost use Rattle.explain_steps.specs.Bytes.{Holds, IsFound, IsLeft, IsNumber, byte_key, has_key, is_among, places_of};
ghost use Rattle.explain_steps.specs.Chosen.{IsAwaited, IsGiven, gives, is_theirs, writes};
ghost use Rattle.explain_steps.specs.declared.bytes.ByteKey.{ByteKey as Key};
ghost use Rattle.explain_steps.specs.declared.chosen.Followed.{Followed};

use clmodel::access::AccessKind;
use clmodel::fault::Location;
use fault_play::{Touch, same_location};
use std::alloc::{AllocError, Global};
use std::collections::HashSet;

/// A byte of an object: the place of the object in a list, and the number of the byte. A sum of two numbers of 64 bits
/// fits.
#[derive(Clone, Copy, PartialEq, Eq, Hash)]
struct ByteKey {
    place: usize,
    byte: u128,
}

/// Bytes of objects, which are told by their places in a list of those objects that have had one.
#[derive(Drop)]
pub(crate) struct ByteSet<'a> {
    places: Vec<&'a Location>,
    keys: HashSet<ByteKey>,
}

/// Whether an access gives its item what is there.
fn gives(kind: AccessKind) -> bool
    ensures { result ≡ gives kind }
{
    match kind {
        AccessKind::Load | AccessKind::Fetch => true,
        AccessKind::Store | AccessKind::Update(_) => false,
    }
}

/// Whether an access writes what is there.
fn writes(kind: AccessKind) -> bool
    ensures { result ≡ writes kind }
{
    match kind {
        AccessKind::Load => false,
        AccessKind::Store | AccessKind::Update(_) | AccessKind::Fetch => true,
    }
}

/// The place of an object in a list.
fn place_of(places: &[&Location], location: &Location) -> Option<usize>
    ensures { IsFound (map (λ place. place.now) places.now) location.now result }
{
    for place in 0..places.len() {
        if same_location(places[place], location) {
            return Some(place);
        }
    }
    None
}

/// The key of a byte behind the first one of an access.
fn key_of(place: usize, first: u64, offset: u64) -> ByteKey
    ensures { result ≡ byte_key place (first + offset) }
{
    ByteKey {
        place,
        byte: u128::from(first) + u128::from(offset),
    }
}

/// Whether one of the two holds.
fn either(one: bool, other: bool) -> bool
    ensures { result ≡ (one || other) }
{
    one || other
}

/// Takes bytes of an object out. Answers whether one of them was there.
fn take_bytes(keys: &mut HashSet<ByteKey>, place: usize, first: u64, count: u64) -> bool
    ensures left { (key : Key) → has_key keys.new key ≡ (has_key keys.old key && not (is_among place first count key)) }
    ensures taken { Decides result ((key : Key) × (is_among place first count key ≡ true) × (has_key keys.old key ≡ true)) }
{
    let mut taken = false;
    for offset in 0..count {
        let was_there = keys.remove(&key_of(place, first, offset));
        taken = either(taken, was_there);
    }
    taken
}

/// Adds bytes of an object.
fn add_bytes(
    keys: &mut HashSet<ByteKey>,
    place: usize,
    first: u64,
    count: u64,
) -> Result<(), AllocError>
    ensures { OnOk result ((key : Key) → has_key keys.new key ≡ (has_key keys.old key || is_among place first count key)) }
{
    for offset in 0..count {
        keys.insert(key_of(place, first, offset))?;
    }
    Ok(())
}

impl<'a> ByteSet<'a> {
    /// No bytes.
    pub(crate) fn new(alloc: Global) -> Self
        ensures { Holds result (λ place byte. ⊥) }
    {
        ByteSet {
            places: Vec::new(alloc),
            keys: HashSet::new(alloc),
        }
    }

    /// The place of an object, which it gets where it has none.
    fn place(&mut self, location: &'a Location) -> Result<usize, AllocError>
        ensures number { IfOk result (IsNumber (places_of self.new) location.now) }
        ensures same { self.new.keys ≡ self.old.keys }
        ensures stay { (place : Place) (number : ℕ) → IsNumber (places_of self.old) place number → IsNumber (places_of self.new) place number }
    {
        match place_of(self.places.as_slice(), location) {
            Some(place) => Ok(place),
            None => {
                let place = self.places.len();
                self.places.push(location)?;
                Ok(place)
            }
        }
    }

    /// Takes out what an access writes. Answers whether any of it was there.
    fn take(&mut self, touch: &Touch) -> bool
        ensures left { (followed : Followed) (later : List (Mark × Option TheTouch)) → Holds self.old (IsAwaited followed later) → Holds self.new (IsLeft followed touch.now later) }
        ensures taken { (followed : Followed) (later : List (Mark × Option TheTouch)) → Holds self.old (IsAwaited followed later) → Decides result (IsGiven followed touch.now later) }
    {
        if !writes(touch.kind) {
            return false;
        }
        match place_of(self.places.as_slice(), &touch.location) {
            Some(place) => take_bytes(&mut self.keys, place, touch.byte, touch.bytes),
            None => false,
        }
    }

    /// Adds what an access of one of the two items gives it.
    fn add(&mut self, touch: &'a Touch) -> Result<(), AllocError>
        ensures { OnOk result ((followed : Followed) (mark : Mark) (later : List (Mark × Option TheTouch)) → is_theirs followed mark.event ≡ true
            → Holds self.old (IsLeft followed touch.now later) → Holds self.new (IsAwaited followed ((mark, Some touch.now) ∷ later))) }
    {
        if !gives(touch.kind) {
            return Ok(());
        }
        let place = self.place(&touch.location)?;
        add_bytes(&mut self.keys, place, touch.byte, touch.bytes)
    }

    /// Goes back over an access, of one of the two items or of another, from the bytes that are awaited behind it to
    /// those that are awaited before it. Answers whether one of the two items is given what it writes. An error is out
    /// of memory.
    pub(crate) fn go_back(&mut self, touch: &'a Touch, of_them: bool) -> Result<bool, AllocError>
        ensures held { IfOk result (λ found. (followed : Followed) (mark : Mark) (later : List (Mark × Option TheTouch)) → is_theirs followed mark.event ≡ of_them
            → Holds self.old (IsAwaited followed later) → Holds self.new (IsAwaited followed ((mark, Some touch.now) ∷ later))) }
        ensures given { IfOk result (λ found. (followed : Followed) (later : List (Mark × Option TheTouch)) → Holds self.old (IsAwaited followed later) → Decides found (IsGiven followed touch.now later)) }
    {
        let found = self.take(touch);
        if of_them {
            self.add(touch)?;
        }
        Ok(found)
    }
}
