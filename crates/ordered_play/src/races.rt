//! Which accesses race.

ghost use Rattle.std.specs.Prelude.{◌≡◌, ◌==◌, ◌∷◌, ◌+◌, ◌<◌, ◌^◌, List, reverse};
ghost use Rattle.clmodel.specs.Cells.{byte_count};
ghost use Rattle.clmodel.specs.Launch.{conflict, group_of};
ghost use Rattle.clmodel.specs.declared.access.Access.{Access as TheAccess};
ghost use Rattle.ordered_runs.specs.Ordered.{newest_race};
ghost use Rattle.ordered_play.specs.Races.{race_between, race_on, race_with};

use access_list::{Entry, hit_between};
use clmodel::access::{Access, Clash, Conflict, Rule};
use launches::Runnable;

/// By which rule two accesses of a launch are judged.
fn rule_of<D: Runnable>(launch: &D, x: &Access, y: &Access) -> Rule
    ensures groups { result.one_group ≡ (group_of (D.Described.launch launch.now) x.now.item == group_of (D.Described.launch launch.now) y.now.item) }
    ensures uniform { result.uniform ≡ (D.Described.launch launch.now).uniform }
{
    let size = launch.group_size();
    Rule {
        one_group: x.item / size == y.item / size,
        uniform: launch.uniform(),
    }
}

/// How an earlier access conflicts with a later one on a byte, if they do.
fn clash_between<D: Runnable>(
    launch: &D,
    earlier: &Access,
    later: &Access,
    byte: u64,
) -> Option<Clash>
    ensures { result ≡ conflict (D.Described.launch launch.now) earlier.now later.now byte }
{
    let rule = rule_of(launch, earlier, later);
    let first = Entry {
        access: *earlier,
        event: 0,
    };
    let second = Entry {
        access: *later,
        event: 0,
    };
    match hit_between(rule, &first, &second, byte) {
        Some(hit) => Some(hit.clash),
        None => None,
    }
}

/// How an earlier access races with a later one on a byte, if they do (OpenCL 1.2, section 3.3.1).
fn race_between<D: Runnable>(
    launch: &D,
    earlier: &Access,
    later: &Access,
    byte: u64,
) -> Option<Conflict>
    ensures { result ≡ race_between (D.Described.launch launch.now) earlier.now later.now byte }
{
    match clash_between(launch, earlier, later, byte) {
        Some(Clash::Race) => Some(Conflict {
            earlier: *earlier,
            later: *later,
            byte,
            clash: Clash::Race,
        }),
        Some(Clash::Order) | None => None,
    }
}

/// The race of an access on a byte with the earliest that has one, of a log that has the oldest first.
fn race_on<D: Runnable>(launch: &D, x: &Access, byte: u64, log: &[Access]) -> Option<Conflict>
    ensures { result ≡ race_on (D.Described.launch launch.now) x.now byte log.now }
{
    for y in log {
        if let Some(race) = race_between(launch, y, x, byte) {
            return Some(race);
        }
    }
    None
}

/// The race of an access with a log: on its lowest byte that has one, there with the earliest access.
fn race_with<D: Runnable>(launch: &D, x: &Access, log: &[Access]) -> Option<Conflict>
    requires { x.now.first + byte_count x.now.width < 2 ^ 64 }
    ensures { result ≡ race_with (D.Described.launch launch.now) x.now log.now }
{
    let first = x.first;
    for byte in first..first + x.width.bytes() {
        if let Some(race) = race_on(launch, x, byte, log) {
            return Some(race);
        }
    }
    None
}

/// The race of the last access of a log, which has the oldest first: on the lowest byte that has one, there with the
/// earliest access. It searches the whole log.
pub fn newest_race<D: Runnable>(launch: &D, log: &[Access]) -> Option<Conflict>
    requires { (x : TheAccess) (earlier : List TheAccess) → reverse log.now ≡ x ∷ earlier → x.first + byte_count x.width < 2 ^ 64 }
    ensures { result ≡ newest_race (D.Described.launch launch.now) (reverse log.now) }
{
    let Some((newest, earlier)) = log.split_last() else {
        return None;
    };
    race_with(launch, newest, earlier)
}
