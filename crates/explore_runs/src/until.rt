//! The first atomic operations of an order, and another way on.

use crate::chooser::Chooser;
use crate::in_turn::InTurn;
use crate::ready::Ready;

/// How the items go on behind the first atomic operations of an order (own).
#[derive(Clone, Copy)]
pub(crate) enum Way {
    /// All in turn, as in the canonical order, until it seems that none comes to a stop any more
    InTurn,
    /// The lowest that can go on, alone, up to its next stop
    Alone,
}

/// All items in turn, which is fair, until it seems that none comes to a stop any more.
#[derive(Drop)]
struct Patient {
    turns: InTurn,
    /// How many stops there were at the last atomic operation.
    stops: u64,
    /// How many atomic operations there were since the last stop.
    quiet: u64,
    is_stuck: bool,
}

/// After so many atomic operations for each item that can go on, without a stop, none seems to come to one (own).
const PATIENCE: u64 = 4096;

impl Patient {
    /// Before the first event.
    fn new() -> Self {
        Patient {
            turns: InTurn::new(),
            stops: 0,
            quiet: 0,
            is_stuck: false,
        }
    }
}

impl Chooser for Patient {
    fn begin(&self, _ready: &mut Ready) {}

    fn switches(&mut self, item: u32, ready: &mut Ready) -> bool {
        if self.stops != ready.stops() {
            self.stops = ready.stops();
            self.quiet = 0;
        }
        self.quiet = self.quiet.saturating_add(1);
        self.is_stuck = self.quiet > PATIENCE.saturating_mul(ready.count());
        let switches = self.turns.switches(item, ready);
        switches || self.is_stuck
    }

    fn choose(&mut self, ready: &Ready) -> Option<u32> {
        if self.is_stuck {
            None
        } else {
            self.turns.choose(ready)
        }
    }
}

/// One item alone.
#[derive(Drop)]
struct Alone {
    item: Option<u32>,
}

impl Chooser for Alone {
    fn begin(&self, _ready: &mut Ready) {}

    fn switches(&mut self, _item: u32, _ready: &mut Ready) -> bool {
        self.item.is_none()
    }

    fn choose(&mut self, ready: &Ready) -> Option<u32> {
        if self.item.is_some() {
            return None;
        }
        self.item = ready.next_from(0);
        self.item
    }
}

/// The first atomic operations of an order by its own chooser, and the rest in another way (own).
#[derive(Drop)]
pub(crate) struct Until<C: Chooser + Drop> {
    first: C,
    /// How many atomic operations are left to the order's own chooser.
    left: u64,
    way: Way,
    patient: Patient,
    alone: Alone,
    /// How often it was asked whether another item may go.
    asked: u64,
}

impl<C: Chooser + Drop> Until<C> {
    /// So many atomic operations by this chooser, and then this way on.
    pub fn new(first: C, left: u64, way: Way) -> Self {
        Until {
            first,
            left,
            way,
            patient: Patient::new(),
            alone: Alone { item: None },
            asked: 0,
        }
    }

    /// How often it was asked whether another item may go.
    pub fn asked(&self) -> u64 {
        self.asked
    }

    /// Whether it seems that no item comes to a stop any more, with all of them in turn.
    pub fn is_stuck(&self) -> bool {
        self.patient.is_stuck
    }
}

impl<C: Chooser + Drop> Chooser for Until<C> {
    fn begin(&self, ready: &mut Ready) {
        self.first.begin(ready)
    }

    fn switches(&mut self, item: u32, ready: &mut Ready) -> bool {
        self.asked = self.asked.saturating_add(1);
        if self.left > 0 {
            self.left -= 1;
            return self.first.switches(item, ready);
        }
        match self.way {
            Way::InTurn => self.patient.switches(item, ready),
            Way::Alone => self.alone.switches(item, ready),
        }
    }

    fn choose(&mut self, ready: &Ready) -> Option<u32> {
        if self.left > 0 {
            return self.first.choose(ready);
        }
        match self.way {
            Way::InTurn => self.patient.choose(ready),
            Way::Alone => self.alone.choose(ready),
        }
    }
}
