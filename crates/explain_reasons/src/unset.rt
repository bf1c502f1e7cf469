//! What was set beside an unset byte.
#![tactic(auto)]

ghost use Rattle.std.specs.Prelude.{◌≡◌, length, IfOk};
ghost use Rattle.std.specs.Bool.{Decides};
ghost use Rattle.explain_reasons.specs.Reasons.{IsReasonOf, IsUnset};
ghost use Rattle.explain_reasons.specs.Stored.{IsDistance, IsNearestOf, IsOnSide, Stores, Tells, away, nearer};

use clmodel::access::AccessKind;
use clmodel::fault::Location;
use explain_items::{Context, stand_at};
use explanation::{Reason, StoredBytes};
use fault_play::{Played, Touch, event_of, same_location};
use std::alloc::AllocError;

/// A side of a byte: below it, or from it on.
#[derive(Clone, Copy)]
enum Side {
    Below,
    Above,
}

/// A store, by its number, with its distance from a byte.
#[derive(Clone, Copy)]
struct Near {
    distance: u64,
    number: usize,
}

/// How far a store that begins at this byte lies from a byte, if it lies on this side of it.
fn away(side: Side, byte: u64, first: u64) -> Option<u64>
    ensures { result ≡ away side byte first }
{
    match side {
        Side::Below => {
            if first < byte {
                Some(byte - first)
            } else {
                None
            }
        }
        Side::Above => {
            if first < byte {
                None
            } else {
                Some(first - byte)
            }
        }
    }
}

/// Whether an access is a store into an object.
fn is_store(touch: &Touch, location: &Location) -> bool
    ensures { Decides result (Stores location.now touch.now) }
{
    match touch.kind {
        AccessKind::Store => same_location(&touch.location, location),
        AccessKind::Load | AccessKind::Update(_) | AccessKind::Fetch => false,
    }
}

/// The distance of an access from a byte, if it is a store into its object on this side of it.
fn distance_of(touch: &Touch, location: &Location, side: Side, byte: u64) -> Option<u64>
    ensures { IsDistance location.now side byte touch.now result }
{
    if is_store(touch, location) {
        away(side, byte, touch.byte)
    } else {
        None
    }
}

/// The nearer of two stores; of two that are equally near, the earlier one.
fn nearer(known: Option<Near>, number: usize, distance: Option<u64>) -> Option<Near>
    ensures { result ≡ nearer known number distance }
{
    match (known, distance) {
        (_, None) => known,
        (None, Some(distance)) => Some(Near { distance, number }),
        (Some(near), Some(distance)) => {
            if distance < near.distance {
                Some(Near { distance, number })
            } else {
                Some(near)
            }
        }
    }
}

/// The store into an object that is nearest to a byte on this side of it.
fn nearest_store(touches: &[Touch], location: &Location, side: Side, byte: u64) -> Option<Near>
    ensures { IsNearestOf touches.now location.now side byte (length touches.now) result }
{
    let mut near = None;
    for number in 0..touches.len() {
        near = nearer(
            near,
            number,
            distance_of(&touches[number], location, side, byte),
        );
    }
    near
}

/// The bytes of a store, by which item, and where.
fn bytes_of(
    context: &Context<'_>,
    played: &Played,
    touch: &Touch,
    number: usize,
) -> Result<StoredBytes, AllocError>
    ensures { IfOk result (Tells touch.now) }
{
    let marks = played.marks.as_slice();
    let stand = stand_at(marks, event_of(marks, number));
    Ok(StoredBytes {
        byte: touch.byte,
        bytes: touch.bytes,
        item: touch.item,
        code: context.code(stand)?,
    })
}

/// The bytes of the store that is nearest to a byte on this side of it.
fn stored_bytes(
    context: &Context<'_>,
    played: &Played,
    location: &Location,
    side: Side,
    byte: u64,
) -> Result<Option<StoredBytes>, AllocError>
    ensures { IfOk result (IsOnSide side played.now.touches.items location.now byte) }
{
    let touches = played.touches.as_slice();
    let Some(near) = nearest_store(touches, location, side, byte) else {
        return Ok(None);
    };
    match touches.get(near.number) {
        Some(touch) => {
            let stored = bytes_of(context, played, touch, near.number)?;
            Ok(Some(stored))
        }
        None => Ok(None),
    }
}

/// The stores on both sides of an unset byte, if there is any.
fn stores_reason(below: Option<StoredBytes>, above: Option<StoredBytes>) -> Reason
    ensures { IsReasonOf below above result }
{
    match below {
        Some(below) => Reason::NearestStores {
            below: Some(below),
            above,
        },
        None => match above {
            Some(above) => Reason::NearestStores {
                below: None,
                above: Some(above),
            },
            None => Reason::NothingStored,
        },
    }
}

/// Which bytes beside an unset one were set, and where: those of the nearest stores, on both sides of it. An error is
/// out of memory.
pub(crate) fn unset_reason(
    context: &Context<'_>,
    played: &Played,
    location: &Location,
    byte: u64,
) -> Result<Reason, AllocError>
    ensures { IfOk result (IsUnset played.now location.now byte) }
{
    let below = stored_bytes(context, played, location, Side::Below, byte)?;
    let above = stored_bytes(context, played, location, Side::Above, byte)?;
    Ok(stores_reason(below, above))
}
