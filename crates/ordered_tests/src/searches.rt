//! Which items can go on, and which of them is the next and the highest.

use explore_runs::Ready;
use std::alloc::{AllocError, Global};

/// Whether an item is at a stop, by a bit for each.
fn is_stopped(stopped: u32, item: u32) -> bool {
    stopped & (1 << (item % 32)) != 0
}

/// The rank of an item: another one for each below 11.
fn rank_of(item: u32) -> u64 {
    u64::from(item % 11 * 7 % 11 + 1)
}

/// The lowest item from one on, or else from 0 on, of so many that aren't at a stop: found by asking each.
fn next_of(items: u32, stopped: u32, from: u32) -> Option<u32> {
    for item in from..items {
        if !is_stopped(stopped, item) {
            return Some(item);
        }
    }
    for item in 0..from.min(items) {
        if !is_stopped(stopped, item) {
            return Some(item);
        }
    }
    None
}

/// The one of the highest rank.
fn highest_of(items: u32, stopped: u32) -> Option<u32> {
    let mut highest = None;
    let mut most = 0;
    for item in 0..items {
        if !is_stopped(stopped, item) && rank_of(item) > most {
            most = rank_of(item);
            highest = Some(item);
        }
    }
    highest
}

/// So many items with ranks, of which these are at a stop. Each was at one, and others went on again.
fn ready_of(alloc: Global, items: u32, stopped: u32) -> Result<Ready, AllocError> {
    let mut ready = Ready::new(alloc, items)?;
    for item in 0..items {
        ready.stop(item);
        ready.set_rank(item, rank_of(item));
    }
    for item in 0..items {
        if !is_stopped(stopped, item) {
            ready.go(item)?;
        }
    }
    Ok(ready)
}

/// Whether all searches among items come out.
fn are_found(alloc: Global, items: u32, stopped: u32) -> Result<bool, AllocError> {
    let ready = ready_of(alloc, items, stopped)?;
    for from in 0..items.saturating_add(2) {
        if ready.next_from(from) != next_of(items, stopped, from) {
            return Ok(false);
        }
    }
    Ok(ready.highest() == highest_of(items, stopped))
}

/// Whether they come out whichever of so many items are at a stop.
fn are_all_found(alloc: Global, items: u32) -> Result<bool, AllocError> {
    for stopped in 0..1 << (items % 32) {
        if !are_found(alloc, items, stopped)? {
            return Ok(false);
        }
    }
    Ok(true)
}

/// Shows that the next item and the highest are found as if each were asked, of 0 to 9 items.
#[test]
fn searches(rt: HostRuntime) {
    for items in 0..10 {
        assert!(rt;
            are_all_found(rt.alloc(), items).unwrap_or(false),
            "{items} items"
        );
    }
}

/// The places of four items behind two stops: the last one takes the place of one that comes to a stop.
fn places(alloc: Global) -> Result<(Option<u32>, Option<u32>, Option<u32>), AllocError> {
    let mut ready = Ready::new(alloc, 4)?;
    ready.stop(1);
    ready.stop(0);
    Ok((ready.at(0), ready.at(1), ready.at(2)))
}

/// An item that comes to a stop leaves its place to the last one.
#[test]
fn places_of_items(rt: HostRuntime) {
    // 0 1 2 3, then 0 3 2, then 2 3
    let Ok((first, second, third)) = places(rt.alloc()) else {
        panic!(rt; "out of memory")
    };
    assert!(rt; first == Some(2) && second == Some(3) && third.is_none());
}
