//! The two words that workers share.
use atomic_table::{Join, Play, Seat, Shared, Split, TableRule};
use std::collections::LinkedList;

/// What a worker knows: its parts of the right to know the whole, the numbers that it drew, what it saw the least fault
/// to be, and the groups that it knows to stop. No value of it is made.
pub struct Hand {
    pub parts: u64,
    pub drawn: LinkedList<u64>,
    pub seen: LinkedList<u64>,
    pub stopped: LinkedList<u64>,
}

/// The rule of the two words. It is told the count of groups.
pub struct Drawing;

impl TableRule<u8, Hand, u64> for Drawing {
    ghost use Rattle.std.specs.Prelude.{[]};
    ghost use Rattle.workers_draw.specs.Board.{Holds, hand};

    ghost holds = { λ count s. Holds count s.words s.views };

    ghost first = { λ count. hand 16 [] [] [] };
}

/// The two words as workers share them.
pub type Board = Shared<u8, Hand, u64, Drawing>;

/// A worker's seat. It takes no bytes.
pub type WorkerSeat = Seat<u8, Hand>;

/// The next number is drawn.
pub struct Draw;

impl Play<u8, Hand> for Draw {
    ghost use Rattle.workers_draw.specs.Board.{drew};

    ghost then = { drew };
}

/// The least fault known is looked at.
pub struct Look;

impl Play<u8, Hand> for Look {
    ghost use Rattle.workers_draw.specs.Board.{looked};

    ghost then = { looked };
}

/// A group is known to stop.
pub struct Lower;

impl Play<u8, Hand> for Lower {
    ghost use Rattle.workers_draw.specs.Board.{lowered};

    ghost then = { lowered };
}

/// A worker's seat is split off.
pub struct Deal;

impl Split<Hand> for Deal {
    ghost use Rattle.workers_draw.specs.Board.{dealer, worker};

    ghost left = { dealer };

    ghost right = { worker };
}

/// A worker's seat comes back.
pub struct Together;

impl Join<Hand> for Together {
    ghost use Rattle.workers_draw.specs.Board.{both, nobody};

    ghost both = { both };

    ghost spent = { nobody };
}
