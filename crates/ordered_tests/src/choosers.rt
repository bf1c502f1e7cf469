//! Who goes next, and the numbers of a seed.

use explore_runs::{ByChance, ByPriority, Chooser, InTurn, Random, Ready};
use std::alloc::{AllocError, Global};

/// A seed, the number of an order, and the first two numbers of splitmix64 for that order, calculated apart. The sum of
/// a seed and a number goes round at 2^64.
const OF_ORDERS: [(u64, u32, u64, u64); 3] = [
    (0, 0, 16294208416658607535, 7960286522194355700),
    (7, 3, 2047319441100431087, 1391870744148405620),
    (u64::MAX, 1, 16294208416658607535, 7960286522194355700),
];

/// Numbers follow from their seed alone.
#[test]
fn numbers_of_a_seed(rt: HostRuntime) {
    let mut random = Random::new(1234567);
    assert_eq!(rt; random.draw(), 6457827717110365317);
    assert_eq!(rt; random.draw(), 3203168211198807973);
    assert_eq!(rt; random.below(0), 0);
    assert_eq!(rt; random.below(1000), 431);
    for (seed, order, first, second) in OF_ORDERS {
        let mut random = Random::of_order(seed, order);
        assert!(rt; random.draw() == first && random.draw() == second);
    }
}

/// The items that go next, 6 at most. Each but the first comes behind one that went on for 64 operations, where the
/// chooser wasn't asked in between. No item is told as 9, and so is one behind which nobody was to go.
fn long_turns<C: Chooser>(chooser: &mut C, ready: &mut Ready) -> [u32; 6] {
    let mut turns = [9; 6];
    for place in 0..6 {
        let Some(item) = chooser.choose(ready) else {
            return turns;
        };
        if goes_on_long(chooser, ready, item) {
            turns[place] = item;
        }
    }
    turns
}

/// Whether an item goes on for 64 operations, and then lets others go.
fn goes_on_long<C: Chooser>(chooser: &mut C, ready: &mut Ready, item: u32) -> bool {
    for _ in 0..64 {
        if chooser.switches(item, ready) {
            return false;
        }
    }
    chooser.switches(item, ready)
}

/// How items of which one is at a stop go in turn.
fn in_turn(alloc: Global) -> Result<[u32; 6], AllocError> {
    let mut ready = Ready::new(alloc, 4)?;
    ready.stop(1);
    Ok(long_turns(&mut InTurn::new(), &mut ready))
}

/// Which of two items goes behind one that waited long, and which behind that one.
fn behind_long(alloc: Global) -> Result<(Option<u32>, Option<u32>), AllocError> {
    let mut ready = Ready::new(alloc, 2)?;
    let mut chooser = InTurn::new();
    goes_on_long(&mut chooser, &mut ready, 0);
    Ok((chooser.choose(&ready), chooser.choose(&ready)))
}

/// In turn goes behind an item that waited long the next higher one, or else the lowest; and where none waited long the
/// lowest. One at a stop is passed over.
#[test]
fn items_in_turn(rt: HostRuntime) {
    let Ok(turns) = in_turn(rt.alloc()) else {
        panic!(rt; "out of memory")
    };
    assert!(rt; turns == [0, 2, 3, 0, 2, 3]);
    let Ok((long, next)) = behind_long(rt.alloc()) else {
        panic!(rt; "out of memory")
    };
    assert!(rt; long == Some(1) && next == Some(0));
}

/// Whether each of three items goes by chance in 200 draws.
fn all_go(alloc: Global) -> Result<bool, AllocError> {
    let ready = Ready::new(alloc, 3)?;
    let mut chooser = ByChance::new(Random::new(1), 1 << 40);
    let mut went = [false; 3];
    for _ in 0..200 {
        match chooser.choose(&ready) {
            Some(0) => went[0] = true,
            Some(1) => went[1] = true,
            Some(2) => went[2] = true,
            _ => return Ok(false),
        }
    }
    Ok(went == [true; 3])
}

/// Whether an item lets others go by chance behind 64 operations, and each time where one in one does.
fn lets_go(alloc: Global) -> Result<bool, AllocError> {
    let mut ready = Ready::new(alloc, 3)?;
    let mut seldom = ByChance::new(Random::new(1), 1 << 40);
    let mut always = ByChance::new(Random::new(1), 1);
    Ok(goes_on_long(&mut seldom, &mut ready, 2) && always.switches(0, &mut ready))
}

/// By chance each item that can go on goes some time, and none goes on for ever.
#[test]
fn items_by_chance(rt: HostRuntime) {
    assert!(rt; all_go(rt.alloc()).unwrap_or(false));
    assert!(rt; lets_go(rt.alloc()).unwrap_or(false));
}

/// How three items go by priorities, without a change.
fn by_priority(alloc: Global) -> Result<[u32; 6], AllocError> {
    let mut ready = Ready::new(alloc, 3)?;
    let mut chooser = ByPriority::new(alloc, Random::new(5), 3, 0, 0)?;
    chooser.begin(&mut ready);
    Ok(long_turns(&mut chooser, &mut ready))
}

/// By priorities an item that waited long falls below all others: three of them come in a ring.
#[test]
fn items_by_priority(rt: HostRuntime) {
    let Ok(ring) = by_priority(rt.alloc()) else {
        panic!(rt; "out of memory")
    };
    assert!(rt; ring[0] < 3 && ring[1] < 3 && ring[2] < 3);
    assert!(rt; ring[0] != ring[1] && ring[1] != ring[2] && ring[2] != ring[0]);
    assert!(rt; ring[0] == ring[3] && ring[1] == ring[4] && ring[2] == ring[5]);
}

/// Which of two items goes first, which goes behind a change at the first operation, and whether that one goes on.
fn a_change(alloc: Global) -> Result<(Option<u32>, Option<u32>, bool), AllocError> {
    let mut ready = Ready::new(alloc, 2)?;
    let mut chooser = ByPriority::new(alloc, Random::new(5), 2, 1, 1)?;
    chooser.begin(&mut ready);
    let first = chooser.choose(&ready);
    chooser.switches(first.unwrap_or(9), &mut ready);
    let second = chooser.choose(&ready);
    let goes_on = !chooser.switches(second.unwrap_or(9), &mut ready);
    Ok((first, second, goes_on))
}

/// A change at the first operation lets the item fall that would make it.
#[test]
fn a_change_of_priorities(rt: HostRuntime) {
    let Ok((first, second, goes_on)) = a_change(rt.alloc()) else {
        panic!(rt; "out of memory")
    };
    assert!(rt; first.is_some() && second.is_some() && first != second && goes_on);
}
