//! The conflicts between the logs of two groups.

ghost use Rattle.std.specs.Prelude.{◌≡◌, ◌+◌, ◌<◌, ◌^◌, length};
ghost use Rattle.access_list.specs.Log.{IsPlaced, hit, across};

use crate::tally::{hit_with, lower_hit};
use access_list::{Accesses, Entry, Hit};
use clmodel::access::{Region, Rule};

/// The conflict of an access with a log by their rule: on its lowest byte that has one, there with the earliest access.
fn hit_in<L: Accesses>(rule: Rule, x: &Entry, log: &L) -> Option<Hit>
    requires { IsPlaced x.now }
    ensures { result ≡ hit rule x.now (L.Logged.log log.now).accesses }
{
    let mut found = None;
    for i in 0..log.len() {
        found = lower_hit(found, hit_with(rule, x, &log.get(i)));
    }
    found
}

/// The conflict of the logs of two groups of a launch, which is uniform or not: that of the first access of the later
/// group that has one, on its lowest byte, there with the earliest access of the other (OpenCL 1.2, sections 3.3.1 and
/// 6.5.2). It takes a comparison for each pair.
///
/// It is a function beside the trait of logs, since a method of a trait can't be generic in another type of the same
/// trait.
pub fn conflicts_between<L: Accesses, M: Accesses>(
    uniform: bool,
    earlier: &L,
    later: &M,
) -> Option<Hit>
    requires flag { (L.Logged.log earlier.now).uniform ≡ uniform }
    requires later_flag { (M.Logged.log later.now).uniform ≡ uniform }
    ensures { result ≡ across uniform (L.Logged.log earlier.now).accesses (M.Logged.log later.now).accesses }
{
    let rule = Rule::across_groups(uniform);
    for i in 0..later.len() {
        let entry = later.get(i);
        if let Region::Buffer(_) = entry.access.region {
            if let Some(found) = hit_in(rule, &entry, earlier) {
                return Some(found);
            }
        }
    }
    None
}
