//! The two accesses of a log that a fault tells as a conflict.

ghost use Rattle.std.specs.Prelude.{◌≡◌, ◌==◌, ◌&&◌, false, Bool, Some, None, ℕ, length, is_some, IfOk, MatchOption, reverse, if◌then◌else◌};
ghost use Rattle.std.specs.Bool.{Decides};
ghost use Rattle.std.specs.HashMap.{get};
ghost use Rattle.clmodel.specs.Cells.{byte_count, covers};
ghost use Rattle.clmodel.specs.Launch.{both_store, clash, group_of};
ghost use Rattle.clmodel.specs.Law.{Shows};
ghost use Rattle.clmodel.specs.Run.{State, or_else};
ghost use Rattle.replay.specs.Spots.{Finds, IsOther, IsPairOf, IsSpot, MeetAt, Meets, fault_told, is_conflict, is_other, number_in, partner_at, same_spot};

use crate::places::is_at;
use access_list::{both_store, clash, left_at};
use clmodel::access::{Access, AccessKind, Clash, Region, Rule};
use clmodel::fault::{Fault, Location};
use launches::{Described, Runnable};
use std::alloc::{AllocError, Global};
use std::collections::HashMap;

/// One of the two accesses that conflict, as a fault tells it.
#[derive(Clone, Copy)]
pub struct Partner {
    pub item: u32,
    pub kind: AccessKind,
}

/// Where two accesses conflict, as a fault tells it.
#[derive(Clone, Copy)]
pub struct ToldByte<'a> {
    pub location: &'a Location,
    pub byte: u64,
}

/// Where a partner's access lies: the number of its object and, where barriers can order the two partners, its
/// interval, else 0.
#[derive(Clone, Copy, PartialEq, Eq, Hash)]
pub struct ObjectInterval {
    pub number: u32,
    pub interval: u32,
}

/// What is known of the accesses of a spot: the first one with the byte that it left, and the first one that left
/// another byte, by their places in the log.
#[derive(Clone, Copy)]
pub struct Firsts {
    pub place: usize,
    pub byte: u8,
    pub other: Option<usize>,
}

/// The places in a log of two accesses that conflict.
#[derive(Clone, Copy)]
pub struct Pair {
    pub first: usize,
    pub second: usize,
}

/// What is known of a spot with an access more, which left this byte.
fn with_more(known: Option<Firsts>, place: usize, byte: u8) -> Firsts
    ensures { (by_byte : Bool) (left : ℕ) → partner_at by_byte (Some result) left ≡ or_else (partner_at by_byte known left) (if is_other by_byte byte left then Some place else None) }
{
    let Some(firsts) = known else {
        return Firsts {
            place,
            byte,
            other: None,
        };
    };
    if firsts.other.is_some() || firsts.byte == byte {
        return firsts;
    }
    Firsts {
        place: firsts.place,
        byte: firsts.byte,
        other: Some(place),
    }
}

/// The place of the first access of a spot that left another byte than this, or of its first access where bytes don't
/// matter.
fn partner_at(known: Option<Firsts>, by_byte: bool, byte: u8) -> Option<usize>
    ensures { result ≡ partner_at by_byte known byte }
{
    let firsts = known?;
    if !by_byte || firsts.byte != byte {
        return Some(firsts.place);
    }
    firsts.other
}

/// The number of a region's object, where a location of this kind and group is told.
fn number_in(location: &Location, region: Region) -> Option<u32>
    ensures { result ≡ number_in location.now region }
{
    match region {
        Region::Buffer(number) => match location {
            Location::Buffer(_) => Some(number),
            Location::Local { .. } => None,
        },
        Region::Local { group, number } => match location {
            Location::Buffer(_) => None,
            Location::Local { group: told, .. } if group == *told => Some(number),
            Location::Local { .. } => None,
        },
    }
}

/// Whether an access is at this byte.
fn is_on(access: &Access, byte: u64) -> bool
    ensures { result ≡ covers access.now.first (byte_count access.now.width) byte }
{
    access.first <= byte && byte - access.first < access.width.bytes()
}

/// Where an access lies, if it is a partner's at the told byte.
fn spot_of(
    partner: Partner,
    place: &ToldByte<'_>,
    one_group: bool,
    access: &Access,
) -> Option<ObjectInterval>
    ensures { MatchOption result ((spot : ObjectInterval) → IsSpot partner.item partner.kind place.now.location.now place.now.byte one_group access.now spot → ⊥) (IsSpot partner.item partner.kind place.now.location.now place.now.byte one_group access.now) }
{
    if access.item != partner.item || access.kind != partner.kind || !is_on(access, place.byte) {
        return None;
    }
    let number = number_in(place.location, access.region)?;
    let interval = if one_group { access.interval } else { 0 };
    Some(ObjectInterval { number, interval })
}

/// What is known of the spots of a log where accesses of a partner lie at the told byte. An error is out of memory.
fn firsts_of(
    alloc: Global,
    partner: Partner,
    place: &ToldByte<'_>,
    rule: Rule,
    log: &[Access],
) -> Result<HashMap<ObjectInterval, Firsts>, AllocError>
    ensures { IfOk result (λ firsts. (spot : ObjectInterval) (left : ℕ) → Finds (partner_at rule.uniform (get same_spot firsts spot) left) (IsOther partner.item partner.kind place.now.location.now place.now.byte rule log.now (length log.now) spot left)) }
{
    let mut firsts = HashMap::new(alloc);
    for (number, access) in log.iter().enumerate() {
        if let Some(spot) = spot_of(partner, place, rule.one_group, access) {
            let known = firsts.get(&spot).copied();
            let more = with_more(known, number, left_at(access, place.byte));
            firsts.insert(spot, more)?;
        }
    }
    Ok(firsts)
}

/// The place of the access that this one conflicts with, where it is a partner's at the told location and byte. What is
/// known of the other partner's spots tells it. An error is out of memory.
fn met_by<D: Described>(
    launch: &D,
    partner: Partner,
    place: &ToldByte<'_>,
    rule: Rule,
    firsts: &HashMap<ObjectInterval, Firsts>,
    access: &Access,
) -> Result<Option<usize>, AllocError>
    ensures { IfOk result (λ found. Finds found (Meets (D.launch launch.now) partner.item partner.kind place.now.location.now place.now.byte rule (λ spot. partner_at rule.uniform (get same_spot firsts.now spot)) access.now)) }
{
    let Some(spot) = spot_of(partner, place, rule.one_group, access) else {
        return Ok(None);
    };
    let known = firsts.get(&spot).copied();
    let Some(first) = partner_at(known, rule.uniform, left_at(access, place.byte)) else {
        return Ok(None);
    };
    if is_at(launch, access.region, place.location)? {
        return Ok(Some(first));
    }
    Ok(None)
}

/// The places of the first such access of a log and of the one that it conflicts with. An error is out of memory.
fn first_met<D: Described>(
    launch: &D,
    partner: Partner,
    place: &ToldByte<'_>,
    rule: Rule,
    firsts: &HashMap<ObjectInterval, Firsts>,
    log: &[Access],
) -> Result<Option<Pair>, AllocError>
    ensures { IfOk result (λ found. Finds found (MeetAt (D.launch launch.now) partner.item partner.kind place.now.location.now place.now.byte rule (λ spot. partner_at rule.uniform (get same_spot firsts.now spot)) log.now)) }
{
    for (second, access) in log.iter().enumerate() {
        if let Some(first) = met_by(launch, partner, place, rule, firsts, access)? {
            return Ok(Some(Pair { first, second }));
        }
    }
    Ok(None)
}

/// A conflict, as a fault tells it.
#[derive(Clone, Copy)]
pub struct ToldConflict<'a> {
    pub clash: Clash,
    pub first: Partner,
    pub second: Partner,
    pub place: ToldByte<'a>,
}

/// The conflict that a fault tells, if it tells one.
pub fn told_conflict(fault: &Fault) -> Option<ToldConflict<'_>>
    ensures { MatchOption result (is_conflict fault.now ≡ false) (λ told. fault.now ≡ fault_told told) }
{
    let Fault::Conflict {
        clash,
        item,
        kind,
        other_item,
        other_kind,
        location,
        byte,
    } = fault
    else {
        return None;
    };
    Some(ToldConflict {
        clash: *clash,
        first: Partner {
            item: *item,
            kind: *kind,
        },
        second: Partner {
            item: *other_item,
            kind: *other_kind,
        },
        place: ToldByte {
            location,
            byte: *byte,
        },
    })
}

/// Whether two kinds of accesses conflict as a fault tells.
fn clashes(kind: AccessKind, other: AccessKind, told: Clash) -> bool
    ensures { Decides result (clash kind other ≡ Some told) }
{
    match clash(kind, other) {
        Some(found) => found == told,
        None => false,
    }
}

/// The rule by which accesses of two partners are judged: stores may meet only where both are.
fn rule_of<D: Runnable>(launch: &D, first: Partner, second: Partner) -> Rule
    ensures groups { result.one_group ≡ (group_of (D.Described.launch launch.now) first.item == group_of (D.Described.launch launch.now) second.item) }
    ensures stores { result.uniform ≡ (both_store first.kind second.kind && (D.Described.launch launch.now).uniform) }
{
    let size = launch.group_size();
    Rule {
        one_group: first.item / size == second.item / size,
        uniform: both_store(first.kind, second.kind) && launch.uniform(),
    }
}

/// The places of two accesses of a log, the oldest first, that conflict as a fault tells, where it has two (OpenCL 1.2,
/// sections 3.3.1 and 6.12.8): the second at the first access of its partner that has one. It goes over the log twice,
/// whatever conflicts there are; in a uniform launch two stores conflict where they left different bytes. An error is
/// out of memory.
pub fn find_conflict<D: Runnable>(
    alloc: Global,
    launch: &D,
    log: &[Access],
    told: &ToldConflict<'_>,
) -> Result<Option<Pair>, AllocError>
    ensures pair { IfOk result (λ found. Finds found (IsPairOf (D.launch launch.now) (fault_told told.now) log.now)) }
    ensures shown { IfOk result (λ found. (state : State) → log.now ≡ reverse state.log → Decides (is_some found) (Shows (D.launch launch.now) state (fault_told told.now))) }
{
    if told.first.item == told.second.item {
        return Ok(None);
    }
    if !clashes(told.first.kind, told.second.kind, told.clash) {
        return Ok(None);
    }
    let rule = rule_of(launch, told.first, told.second);
    let firsts = firsts_of(alloc, told.first, &told.place, rule, log)?;
    first_met(launch, told.second, &told.place, rule, &firsts, log)
}
