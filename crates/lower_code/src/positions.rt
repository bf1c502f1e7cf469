//! Where a statement stands.
#![tactic(auto)]

ghost use Rattle.std.specs.Prelude.{◌≡◌, ◌+◌, ◌<◌, ◌^◌};
ghost use Rattle.lower_code.specs.Code as spec;
ghost use Rattle.lower_code.specs.Emission.{exits_of};

use lower_expr::scope::Level;

/// How far behind the end of a statement's code its other ends are.
#[derive(Clone, Copy)]
pub struct Exits {
    pub broken: u32,
    pub continued: u32,
    pub returned: u32,
}

impl Exits {
    /// The exits from `count` instructions earlier.
    pub fn past(self, count: u32) -> Exits
        requires broken { count + self.broken < 2 ^ 32 }
        requires continued { count + self.continued < 2 ^ 32 }
        requires returned { count + self.returned < 2 ^ 32 }
        ensures { exits_of result ≡ spec.past count (exits_of self) }
    {
        Exits {
            broken: count + self.broken,
            continued: count + self.continued,
            returned: count + self.returned,
        }
    }

    /// The exits of a part of a loop, behind which stand `rest` instructions of it.
    pub fn in_loop(self, rest: u32) -> Exits
        requires { rest + self.returned < 2 ^ 32 }
        ensures { exits_of result ≡ spec.body_exits rest (exits_of self) }
    {
        Exits {
            broken: rest,
            continued: 0,
            returned: rest + self.returned,
        }
    }
}

/// Where a statement stands: how many loops are round it, the number of its first barrier, and its exits.
#[derive(Clone, Copy)]
pub struct Position {
    pub depth: u32,
    pub site: u32,
    pub exits: Exits,
}

/// Where the body of a function stands: the level of its first parameter, how many loops are round it, and the number
/// of its first barrier. The default is where the body of a kernel stands: each is 0.
#[derive(Clone, Copy, Default)]
pub struct BodyPosition {
    pub level: Level,
    pub depth: u32,
    pub site: u32,
}
