//! Numbers from a seed.

ghost use Rattle.std.specs.Prelude.{◌<◌};

/// Numbers that follow from a seed alone, on every machine the same (own: splitmix, with its constants).
#[derive(Drop)]
pub struct Random {
    state: u64,
}

/// The number that is made of another: each of 2^64 is made of one.
fn mixed(number: u64) -> u64 {
    let once = (number ^ (number >> 30)).wrapping_mul(0xBF58476D1CE4E5B9);
    let twice = (once ^ (once >> 27)).wrapping_mul(0x94D049BB133111EB);
    twice ^ (twice >> 31)
}

impl Random {
    /// The numbers of a seed.
    pub fn new(seed: u64) -> Self {
        Random { state: seed }
    }

    /// The numbers of one of the orders that belong to a seed.
    pub fn of_order(seed: u64, order: u32) -> Self {
        Random {
            state: mixed(seed.wrapping_add(order as u64)),
        }
    }

    /// The next number, below 2^64.
    pub fn draw(&mut self) -> u64 {
        self.state = self.state.wrapping_add(0x9E3779B97F4A7C15);
        mixed(self.state)
    }

    /// The next number below a bound, 0 where the bound is 0.
    pub fn below(&mut self, bound: u64) -> u64
        ensures { 0 < bound → result < bound }
    {
        let drawn = self.draw();
        if bound == 0 { 0 } else { drawn % bound }
    }
}
