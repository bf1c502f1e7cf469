//! The turns of loops that an item's events show.
//!
//! A machine keeps the turns of the loops round the place where its item stands, and forgets those of a loop that is
//! left. So of a loop that was left those turns are counted in which its item was seen, at an access or a barrier. What
//! is counted is never more than what was made.
#![tactic(auto)]

use explain_items::{Context, is_access, is_release};
use explanation::{NodeKind, Spot};
use fault_play::{Mark, Stand};
use std::alloc::{AllocError, Global};
use std::collections::BTreeMap;

/// A loop of the source, by where it begins in it and in the script. The byte comes first: it decides the order.
#[derive(Clone, Copy, PartialEq, Eq, PartialOrd, Ord)]
pub(crate) struct LoopPlace {
    pub offset: usize,
    pub line: usize,
    pub script_line: usize,
    pub column: usize,
}

/// A loop with turns that it has made.
#[derive(Clone, Copy)]
pub(crate) struct TurnedLoop {
    pub place: LoopPlace,
    pub turns: u64,
}

/// The loops round a place, the outermost first. A loop at which an item stands for its next turn comes last.
fn loops_round(alloc: Global, spot: &Spot) -> Result<Vec<LoopPlace>, AllocError> {
    let mut loops = Vec::new(alloc);
    for site in &spot.loops {
        loops.push(LoopPlace {
            offset: site.offset,
            line: site.line,
            script_line: site.script_line,
            column: site.column,
        })?;
    }
    if spot.node == NodeKind::Loop {
        loops.push(LoopPlace {
            offset: spot.offset,
            line: spot.line,
            script_line: spot.script_line,
            column: spot.column,
        })?;
    }
    Ok(loops)
}

/// Loops with their turns, both from the outermost one on.
fn turned(
    alloc: Global,
    loops: &[LoopPlace],
    turns: &[u32],
) -> Result<Vec<TurnedLoop>, AllocError> {
    let mut found = Vec::new(alloc);
    for (place, turns) in loops.iter().zip(turns) {
        found.push(TurnedLoop {
            place: *place,
            turns: u64::from(*turns),
        })?;
    }
    Ok(found)
}

/// The loops round each place of the code where an item was seen. Each such place takes a walk over the tree and over
/// the source, once: `origins` finds the node of one number at a time, and `source_spots` counts lines from the begin
/// of the source. So the time is that of the source times the places where the item was seen, however often it was
/// there.
#[derive(Drop)]
struct KnownLoops {
    alloc: Global,
    places: BTreeMap<usize, Vec<LoopPlace>>,
}

impl KnownLoops {
    /// Finds the loops round a place of the code, where it wasn't asked for before.
    fn find(&mut self, context: &Context<'_>, stand: &Stand) -> Result<(), AllocError> {
        if self.places.contains_key(&stand.place) {
            return Ok(());
        }
        let loops = match context.spot(Some(stand))? {
            Some(spot) => loops_round(self.alloc, &spot)?,
            None => Vec::new(self.alloc),
        };
        self.places.insert(stand.place, loops)?;
        Ok(())
    }

    /// The loops round the place where an item stands, with the turns that they have made there since they were
    /// entered.
    fn at(&mut self, context: &Context<'_>, stand: &Stand) -> Result<Vec<TurnedLoop>, AllocError> {
        self.find(context, stand)?;
        match self.places.get(&stand.place) {
            Some(loops) => turned(self.alloc, loops.as_slice(), stand.turns.as_slice()),
            None => Ok(Vec::new(self.alloc)),
        }
    }
}

/// The turns that a loop had made when the item was seen last, if it wasn't left since then, as far as its turns tell.
/// It is asked only where all loops round it are in the same turns as then. A loop that has made fewer turns was
/// entered again.
fn before(last: Option<&TurnedLoop>, now: &TurnedLoop) -> Option<u64> {
    match last {
        Some(last) if last.place == now.place && last.turns <= now.turns => Some(last.turns),
        _ => None,
    }
}

/// The turns of loops that were seen: the loops round where an item was seen last, with the turns that they had made
/// since they were entered; and all turns of each loop.
#[derive(Drop)]
pub(crate) struct SeenTurns {
    pub within: Vec<TurnedLoop>,
    pub all: BTreeMap<LoopPlace, u64>,
}

impl SeenTurns {
    /// Adds turns of a loop.
    fn add(&mut self, place: LoopPlace, turns: u64) -> Result<(), AllocError> {
        let known = self.all.get(&place).copied().unwrap_or(0);
        self.all.insert(place, known.saturating_add(turns))?;
        Ok(())
    }

    /// Adds what is new where an item is seen next.
    fn see(&mut self, now: Vec<TurnedLoop>) -> Result<(), AllocError> {
        let mut is_same = true;
        for (depth, turn) in now.iter().enumerate() {
            let known = if is_same {
                before(self.within.get(depth), turn)
            } else {
                None
            };
            self.add(turn.place, turn.turns.saturating_sub(known.unwrap_or(0)))?;
            is_same = known == Some(turn.turns);
        }
        self.within = now;
        Ok(())
    }
}

/// The turns of loops that the events of an item show, and where it stands behind them: its accesses, and the barriers
/// that it passes with the others of its group, which stand at the same place in the same turns. An error is out of
/// memory.
pub(crate) fn turns_seen(
    context: &Context<'_>,
    marks: &[Mark],
    item: u32,
    stand: Option<&Stand>,
) -> Result<SeenTurns, AllocError> {
    let alloc = context.alloc;
    let group = item / context.launch.group_size();
    let mut known = KnownLoops {
        alloc,
        places: BTreeMap::new(alloc),
    };
    let mut seen = SeenTurns {
        within: Vec::new(alloc),
        all: BTreeMap::new(alloc),
    };
    for mark in marks {
        if is_access(mark.event, item) || is_release(mark.event, group) {
            if let Some(stand) = mark.stand.as_ref() {
                seen.see(known.at(context, stand)?)?;
            }
        }
    }
    if let Some(stand) = stand {
        seen.see(known.at(context, stand)?)?;
    }
    Ok(seen)
}
