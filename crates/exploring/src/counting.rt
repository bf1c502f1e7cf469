//! The numbers of commands and of launches.
#![tactic(auto)]

ghost use Rattle.std.specs.Prelude.{◌≡◌, ◌+◌, ◌^◌, ◌<◌, ◌≤◌, Some, cond, length, slice_get};
ghost use Rattle.exploring.specs.Commands.{launch_count, next};
ghost use Rattle.exploring.specs.Explored.{is_among, is_past, least};

use crate::facts::Spot;
use crate::manners::is_launch;
use device::Command;

/// The numbers behind a command, which is a launch or not.
pub(crate) fn next(spot: Spot, is_launch: bool) -> Spot
    requires ticket { spot.ticket < 4096 }
    requires number { spot.number ≤ 4096 }
    ensures { result ≡ next spot is_launch }
{
    Spot {
        ticket: spot.ticket + 1,
        number: if is_launch {
            spot.number + 1
        } else {
            spot.number
        },
    }
}

/// Whether the wanted launch is behind, by the number of the next one.
pub(crate) fn is_past(wanted: Option<usize>, number: usize) -> bool
    ensures { result ≡ is_past wanted number }
{
    match wanted {
        Some(wanted) => wanted < number,
        None => false,
    }
}

/// The command of a number.
fn command_at(commands: &[Command], number: usize) -> &Command
    requires { number < length commands.now }
    ensures { slice_get commands.now number ≡ Some result.now }
{
    &commands[number]
}

/// A count of launches with one command more, which is one or not.
fn with_command(count: usize, is_launch: bool) -> usize
    requires { count + 1 < 2 ^ 64 }
    ensures { result ≡ count + cond is_launch 1 0 }
{
    if is_launch { count + 1 } else { count }
}

/// How many of these commands are launches.
pub(crate) fn launch_count(commands: &[Command]) -> usize
    ensures { result ≡ launch_count commands.now }
{
    let mut launches = 0;
    for number in 0..commands.len() {
        let command = command_at(commands, number);
        launches = with_command(launches, is_launch(command));
    }
    launches
}

/// The number of the launch that has to be there: the wanted one, and the first where each is wanted.
pub(crate) fn least(wanted: Option<usize>) -> usize
    ensures { result ≡ least wanted }
{
    wanted.unwrap_or(1)
}

/// Whether a launch of this number is among so many.
pub(crate) fn is_among(number: usize, count: usize) -> bool
    ensures { result ≡ is_among number count }
{
    1 <= number && number <= count
}
