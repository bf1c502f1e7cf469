//! The items that a fault names.
#![tactic(auto)]

ghost use Rattle.std.specs.Prelude.{◌≡◌, ◌<◌, ◌+◌, [], ◌∷◌, None, Some, length, map, IfNone, IfOk, IfSome, option_copied};
ghost use Rattle.std.specs.Option.{option_map_or};
ghost use Rattle.explain_items.specs.Deeds.{Accesses, HaveEvents, IsEventAt, deed_of, lone_deed, stop_deed, told_deeds};
ghost use Rattle.explain_items.specs.Ids.{AreIds};
ghost use Rattle.item_step.specs.Launches.{setup_of};
ghost use Rattle.explain_items.specs.Named.{AreToldInside, AtAccess, AtEnd, AtStand, IsToldInside, in_order, site_of, told_items};
ghost use Rattle.explain_items.specs.Spotted.{IsNamedInside};

use crate::context::Context;
use crate::events::stand_at;
use clmodel::access::AccessKind;
use clmodel::action::Stop;
use clmodel::fault::Fault;
use explanation::{Does, Ids, NamedItem};
use fault_play::{Mark, Pair, Played, Stand, Standing, event_of, last_of};
use item_value::position::{ItemPosition, group_counts};
use std::alloc::{AllocError, Global};

/// The ids of an item of a launch.
fn ids_of(context: &Context<'_>, item: u32) -> Result<Ids, AllocError>
    ensures { IfOk result (AreIds (setup_of context.now.launch.now).range item) }
{
    let alloc = context.alloc;
    let range = context.launch.range();
    let counts = group_counts(alloc, range)?;
    let position = ItemPosition {
        item,
        range,
        group_counts: counts.as_slice(),
        group_size: context.launch.group_size(),
    };
    crate::ids_of(alloc, &position)
}

/// An item that a fault names, where it stands.
fn named(
    context: &Context<'_>,
    item: u32,
    does: Does,
    event: Option<usize>,
    stand: Option<&Stand>,
) -> Result<NamedItem, AllocError>
    ensures told { IfOk result (IsNamedInside context.now.launch.now context.now.program.text.now context.now.program.first_line (λ s. option_copied stand.entry ≡ Some s) (λ _. ⊥) item) }
    ensures deed { IfOk result (λ named. named.does ≡ does) }
    ensures event { IfOk result (λ named. named.event ≡ event) }
{
    let ids = ids_of(context, item)?;
    Ok(NamedItem {
        item,
        ids,
        does,
        event,
        spot: context.spot(stand)?,
        last: None,
    })
}

/// The number of an event from 1, of a number from 0 of one of these.
fn from_one(marks: &[Mark], event: Option<usize>) -> Option<usize>
    ensures some { IfSome event (λ number. number < length marks.now → result ≡ Some (number + 1)) }
    ensures none { IfNone event (result ≡ None) }
{
    match event {
        Some(number) => {
            if number < marks.len() {
                Some(number + 1)
            } else {
                None
            }
        }
        None => None,
    }
}

/// An item that made an access of a log.
fn accessing(
    context: &Context<'_>,
    played: &Played,
    item: u32,
    kind: AccessKind,
    access: usize,
) -> Result<NamedItem, AllocError>
    ensures told { IfOk result (IsToldInside context.now played.now.marks.items (item, AtAccess access)) }
    ensures deed { IfOk result (λ named. deed_of named.does ≡ Accesses kind) }
    ensures event { IfOk result (λ named. IsEventAt played.now.marks.items (AtAccess access) named.event) }
{
    let marks = played.marks.as_slice();
    let event = event_of(marks, access);
    let stand = stand_at(marks, event);
    let number = from_one(marks, event);
    named(context, item, Does::Access(kind), number, stand)
}

/// An item where it stands.
fn standing(context: &Context<'_>, standing: &Standing, does: Does) -> Result<NamedItem, AllocError>
    ensures told { IfOk result (IsNamedInside context.now.launch.now context.now.program.text.now context.now.program.first_line (λ s. standing.now.stand ≡ Some s) (λ _. ⊥) standing.now.item) }
    ensures deed { IfOk result (λ named. named.does ≡ does) }
    ensures event { IfOk result (λ named. named.event ≡ None) }
{
    named(context, standing.item, does, None, standing.stand.as_ref())
}

/// An item that has ended, with its last access.
fn ended(context: &Context<'_>, played: &Played, item: u32) -> Result<NamedItem, AllocError>
    ensures told { IfOk result (IsToldInside context.now played.now.marks.items (item, AtEnd)) }
    ensures deed { IfOk result (λ named. named.does ≡ Does.Ended) }
    ensures event { IfOk result (λ named. named.event ≡ None) }
{
    let marks = played.marks.as_slice();
    let stand = stand_at(marks, last_of(marks, item));
    let ids = ids_of(context, item)?;
    Ok(NamedItem {
        item,
        ids,
        does: Does::Ended,
        event: None,
        spot: None,
        last: context.spot(stand)?,
    })
}

/// An item at a stop.
fn stopped(
    context: &Context<'_>,
    played: &Played,
    at: &Standing,
    stop: &Stop,
) -> Result<NamedItem, AllocError>
    ensures told { IfOk result (IsToldInside context.now played.now.marks.items (at.now.item, site_of stop.now at.now.stand)) }
    ensures deed { IfOk result (λ named. deed_of named.does ≡ stop_deed stop.now) }
    ensures event { IfOk result (λ named. named.event ≡ None) }
{
    match stop {
        Stop::Ended => ended(context, played, at.item),
        Stop::At(instance) => {
            let turns = instance.turns.as_slice().to_vec(context.alloc)?;
            let barrier = instance.site;
            standing(context, at, Does::Waits { barrier, turns })
        }
    }
}

/// A list of one item.
fn one(alloc: Global, item: NamedItem) -> Result<Vec<NamedItem>, AllocError>
    ensures { IfOk result (λ items. items.items ≡ item ∷ []) }
{
    let mut items = Vec::new(alloc);
    items.push(item)?;
    Ok(items)
}

/// A list of two items.
fn both(alloc: Global, first: NamedItem, second: NamedItem) -> Result<Vec<NamedItem>, AllocError>
    ensures { IfOk result (λ items. items.items ≡ first ∷ second ∷ []) }
{
    let mut items = Vec::new(alloc);
    items.push(first)?;
    items.push(second)?;
    Ok(items)
}

/// The items of two accesses, in the order in which these were made.
fn ordered(
    alloc: Global,
    pair: Pair,
    first: NamedItem,
    second: NamedItem,
) -> Result<Vec<NamedItem>, AllocError>
    ensures { IfOk result (λ items. items.items ≡ in_order pair first second) }
{
    if pair.second < pair.first {
        both(alloc, second, first)
    } else {
        both(alloc, first, second)
    }
}

/// Both items of a conflict whose accesses were found.
fn conflicting(
    context: &Context<'_>,
    played: &Played,
    pair: Pair,
    first: (u32, AccessKind),
    second: (u32, AccessKind),
) -> Result<Vec<NamedItem>, AllocError>
    ensures told { IfOk result (λ items. AreToldInside context.now played.now.marks.items (in_order pair (first.0, AtAccess pair.first) (second.0, AtAccess pair.second)) items.items) }
    ensures deeds { IfOk result (λ items. map (λ named. deed_of named.does) items.items ≡ in_order pair (Accesses first.1) (Accesses second.1)) }
    ensures events { IfOk result (λ items. HaveEvents played.now.marks.items (in_order pair (first.0, AtAccess pair.first) (second.0, AtAccess pair.second)) items.items) }
{
    let item = accessing(context, played, first.0, first.1, pair.first)?;
    let other = accessing(context, played, second.0, second.1, pair.second)?;
    ordered(context.alloc, pair, item, other)
}

/// An item of a conflict whose accesses weren't found: no place is told of it.
fn placeless(context: &Context<'_>, item: u32, kind: AccessKind) -> Result<NamedItem, AllocError>
    ensures told { IfOk result (IsNamedInside context.now.launch.now context.now.program.text.now context.now.program.first_line (λ s. None ≡ Some s) (λ _. ⊥) item) }
    ensures deed { IfOk result (λ named. deed_of named.does ≡ Accesses kind) }
    ensures event { IfOk result (λ named. named.event ≡ None) }
{
    named(context, item, Does::Access(kind), None, None)
}

/// Both items of a conflict, the earlier access first.
fn clashing(
    context: &Context<'_>,
    played: &Played,
    first: (u32, AccessKind),
    second: (u32, AccessKind),
) -> Result<Vec<NamedItem>, AllocError>
    ensures told { IfOk result (λ items. AreToldInside context.now played.now.marks.items (option_map_or (λ pair. in_order pair (first.0, AtAccess pair.first) (second.0, AtAccess pair.second)) played.now.pair
        ((first.0, AtStand None) ∷ (second.0, AtStand None) ∷ [])) items.items) }
    ensures deeds { IfOk result (λ items. map (λ named. deed_of named.does) items.items ≡ option_map_or (λ pair. in_order pair (Accesses first.1) (Accesses second.1)) played.now.pair
        (Accesses first.1 ∷ Accesses second.1 ∷ [])) }
    ensures events { IfOk result (λ items. HaveEvents played.now.marks.items (option_map_or (λ pair. in_order pair (first.0, AtAccess pair.first) (second.0, AtAccess pair.second)) played.now.pair
        ((first.0, AtStand None) ∷ (second.0, AtStand None) ∷ [])) items.items) }
{
    match played.pair {
        Some(pair) => conflicting(context, played, pair, first, second),
        None => {
            let item = placeless(context, first.0, first.1)?;
            let other = placeless(context, second.0, second.1)?;
            both(context.alloc, item, other)
        }
    }
}

/// Both items of a divergence.
fn diverging(
    context: &Context<'_>,
    played: &Played,
    stop: &Stop,
    other_stop: &Stop,
) -> Result<Vec<NamedItem>, AllocError>
    ensures told { IfOk result (λ items. AreToldInside context.now played.now.marks.items ((played.now.first.item, site_of stop.now played.now.first.stand) ∷ (played.now.second.item, site_of other_stop.now played.now.second.stand) ∷ []) items.items) }
    ensures deeds { IfOk result (λ items. map (λ named. deed_of named.does) items.items ≡ stop_deed stop.now ∷ stop_deed other_stop.now ∷ []) }
    ensures events { IfOk result (λ items. HaveEvents played.now.marks.items ((played.now.first.item, site_of stop.now played.now.first.stand) ∷ (played.now.second.item, site_of other_stop.now played.now.second.stand) ∷ []) items.items) }
{
    let item = stopped(context, played, &played.first, stop)?;
    let other = stopped(context, played, &played.second, other_stop)?;
    both(context.alloc, item, other)
}

/// What the one item of a fault does, where it names one.
fn lone_deed(fault: &Fault) -> Does
    ensures { deed_of result ≡ lone_deed fault.now }
{
    match fault {
        Fault::Bounds { kind, .. } | Fault::Unset { kind, .. } => Does::Access(*kind),
        _ => Does::Fails,
    }
}

/// The one item of a fault.
fn alone(context: &Context<'_>, played: &Played, does: Does) -> Result<Vec<NamedItem>, AllocError>
    ensures told { IfOk result (λ items. AreToldInside context.now played.now.marks.items ((played.now.first.item, AtStand played.now.first.stand) ∷ []) items.items) }
    ensures deeds { IfOk result (λ items. map (λ named. deed_of named.does) items.items ≡ deed_of does ∷ []) }
    ensures events { IfOk result (λ items. HaveEvents played.now.marks.items ((played.now.first.item, AtStand played.now.first.stand) ∷ []) items.items) }
{
    let item = standing(context, &played.first, does)?;
    one(context.alloc, item)
}

/// The items that a fault names, with what they do and where. An error is out of memory.
pub fn named_items(
    context: &Context<'_>,
    played: &Played,
    fault: &Fault,
) -> Result<Vec<NamedItem>, AllocError>
    ensures told { IfOk result (λ items. AreToldInside context.now played.now.marks.items (told_items fault.now played.now) items.items) }
    ensures deeds { IfOk result (λ items. map (λ named. deed_of named.does) items.items ≡ told_deeds fault.now played.now) }
    ensures events { IfOk result (λ items. HaveEvents played.now.marks.items (told_items fault.now played.now) items.items) }
{
    match fault {
        Fault::Conflict {
            item,
            kind,
            other_item,
            other_kind,
            ..
        } => clashing(context, played, (*item, *kind), (*other_item, *other_kind)),
        Fault::Divergence {
            stop,
            other_stop,
            ..
        } => diverging(context, played, stop, other_stop),
        Fault::Bounds { .. }
        | Fault::PrivateBounds { .. }
        | Fault::Unset { .. }
        | Fault::UnsetVariable { .. }
        | Fault::UnsetElement { .. }
        | Fault::DivideByZero { .. }
        | Fault::DivideOverflow { .. }
        | Fault::Budget { .. } => alone(context, played, lone_deed(fault)),
    }
}
