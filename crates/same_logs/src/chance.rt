//! Small launches that are made by chance.
#![tactic(auto)]

ghost use Rattle.std.specs.Prelude.{◌<◌};

use crate::comparing::Compared;
use crate::failing::NotRun;
use crate::launching::compare_row;
use crate::row::Row;
use std::alloc::{AllocError, Global};

/// What a source begins with: two buffers, of which the first is also there as bytes, and local memory.
const HEAD: &str =
    "__kernel void f(__global int *a, __global uchar *c, __global int *b, __local int *t) { int i = get_global_id(0); int l = get_local_id(0); int x = 0; ";

/// Statements, each in two parts, between which a place stands.
const STATEMENTS: [(&str, &str); 16] = [
    ("a[", "] = 1; "),
    ("a[", "] = 2; "),
    ("a[", "] = x + 2; "),
    ("x = a[", "]; "),
    ("b[", "] = 258; "),
    ("x = b[", "]; "),
    ("c[", "] = 2; "),
    ("x = c[", "]; "),
    ("atomic_add(&a[", "], 2); "),
    ("atomic_min(&a[", "], 1); "),
    ("x = atomic_xchg(&b[", "], 2); "),
    ("barrier(CLK_GLOBAL_MEM_FENCE); x = a[", "]; "),
    ("barrier(CLK_LOCAL_MEM_FENCE); a[", "] = 1; "),
    ("t[l] = b[", "]; "),
    ("if (i == 1) a[", "] = 2; "),
    ("for (int j = 0; j < 3; j++) a[", "] = j; "),
];

/// Places: next to one another, at one place, and in pages of 64 bytes apart.
const PLACES: [&str; 8] = [
    "i",
    "i + 1",
    "l",
    "0",
    "i * 16 % 32",
    "i * 17 % 32",
    "20",
    "31 - i",
];

/// The sizes of a launch: all items, and those of a group.
const SIZES: [&str; 6] = ["1|1", "2|2", "4|4", "4|2", "6|2", "3|1"];

/// What stands between the sizes of a launch and its source: its offset, whether it is uniform, and its budget.
const MODES: [&str; 4] = ["|0|uniform|1000|", "|0||1000|", "|0||1000|", "|0||1000|"];

/// Numbers by chance, which follow from a seed.
#[derive(Clone, Copy)]
pub struct Chance {
    state: u64,
}

impl Chance {
    /// Those of a seed.
    pub fn new(seed: u64) -> Self {
        Chance { state: seed }
    }

    /// A number below a limit. (Knuth's linear congruential generator, of which the high half is used.)
    fn below(&mut self, limit: usize) -> usize
        requires { 0 < limit }
        ensures { result < limit }
    {
        self.state = self
            .state
            .wrapping_mul(6_364_136_223_846_793_005)
            .wrapping_add(1_442_695_040_888_963_407);
        (self.state >> 32) as usize % limit
    }

    /// Adds a statement.
    fn push_statement(&mut self, source: &mut String) -> Result<(), AllocError> {
        let (front, back) = STATEMENTS[self.below(16)];
        source.push_str(front)?;
        source.push_str(PLACES[self.below(8)])?;
        source.push_str(back)
    }

    /// A launch with one to four statements, in one case of four a uniform one.
    fn row(&mut self, alloc: Global) -> Result<String, AllocError> {
        let mut row = String::from_str(alloc, "by chance|aabt|128||")?;
        row.push_str(SIZES[self.below(6)])?;
        row.push_str(MODES[self.below(4)])?;
        row.push_str(HEAD)?;
        for _ in 0..1 + self.below(4) {
            self.push_statement(&mut row)?;
        }
        row.push_str("}")?;
        Ok(row)
    }

    /// Runs a launch with each log.
    pub fn compare(&mut self, alloc: Global) -> Result<Compared, NotRun> {
        let row = self.row(alloc)?;
        compare_row(alloc, &Row::read(row.as_bytes()))
    }
}
