//! The commands of a script that made a kernel and its program.
#![tactic(auto)]

ghost use Rattle.std.specs.Prelude.{◌≡◌, ◌<◌, ◌≤◌, Some, length, slice_get, option_map, option_and_then, IfNone, IfSome, if◌then◌else◌};
ghost use Rattle.launch_facts.specs.Commands.{makes_kernel, makes_program, kernel_names, program_source, was_done, did, IsLast, IsSource, HasNoSource};
ghost use Rattle.simfile.specs.declared.script.CommandPlace.{CommandPlace};

use clmodel::text::Name;
use host_commands::command::Command;
use simfile::script::CommandPlace;

/// The source of a kernel's program: its bytes, the line of the script in which it begins, from 1, and the names of the
/// program and of the function.
#[derive(Clone, Copy)]
pub struct ProgramSource<'a> {
    pub text: &'a [u8],
    pub first_line: usize,
    pub program: &'a Name,
    pub function: &'a Name,
    /// The number of the command that made the kernel
    pub kernel_command: usize,
    /// The number of the command that made the program
    pub program_command: usize,
}

/// Whether a command was done.
pub(crate) fn was_done(done: &[bool], number: usize) -> bool
    ensures { result ≡ was_done done.now number }
{
    match done.get(number) {
        Some(done) => *done,
        None => false,
    }
}

/// Whether a command makes the kernel of a name.
fn makes_kernel(command: &Command, wanted: &Name) -> bool
    ensures { result ≡ makes_kernel wanted.now command.now }
{
    match command {
        Command::Kernel { name, .. } => name == wanted,
        _ => false,
    }
}

/// Whether a command makes the program of a name.
fn makes_program(command: &Command, wanted: &Name) -> bool
    ensures { result ≡ makes_program wanted.now command.now }
{
    match command {
        Command::Program { name, .. } => name == wanted,
        _ => false,
    }
}

/// Whether the command of a number was done and made the kernel of a name.
fn made_kernel(commands: &[Command], done: &[bool], number: usize, wanted: &Name) -> bool
    ensures { result ≡ did (makes_kernel wanted.now) commands.now done.now number }
{
    match commands.get(number) {
        Some(command) => makes_kernel(command, wanted) && was_done(done, number),
        None => false,
    }
}

/// Whether the command of a number was done and made the program of a name.
fn made_program(commands: &[Command], done: &[bool], number: usize, wanted: &Name) -> bool
    ensures { result ≡ did (makes_program wanted.now) commands.now done.now number }
{
    match commands.get(number) {
        Some(command) => makes_program(command, wanted) && was_done(done, number),
        None => false,
    }
}

/// A number where it is such a one, else an earlier one.
pub(crate) fn this_or_earlier(is_such: bool, number: usize, earlier: Option<usize>) -> Option<usize>
    ensures { result ≡ (if is_such then Some number else earlier) }
{
    if is_such { Some(number) } else { earlier }
}

/// The number of the last command that was done and made the kernel of a name.
fn last_kernel(commands: &[Command], done: &[bool], wanted: &Name) -> Option<usize>
    ensures { IsLast (did (makes_kernel wanted.now) commands.now done.now) (length commands.now) result }
{
    let mut found = None;
    for number in 0..commands.len() {
        found = this_or_earlier(made_kernel(commands, done, number, wanted), number, found);
    }
    found
}

/// The number of the last of the first `count` commands that was done and made the program of a name.
fn last_program(commands: &[Command], done: &[bool], wanted: &Name, count: usize) -> Option<usize>
    ensures { IsLast (did (makes_program wanted.now) commands.now done.now) count result }
{
    let mut found = None;
    for number in 0..count {
        found = this_or_earlier(made_program(commands, done, number, wanted), number, found);
    }
    found
}

/// The program and the function of the kernel that a command makes.
fn kernel_names(commands: &[Command], number: usize) -> Option<(&Name, &Name)>
    ensures { option_map (λ names. (names.0.now, names.1.now)) result ≡ option_and_then kernel_names (slice_get commands.now number) }
{
    match commands.get(number) {
        Some(
            Command::Kernel {
                program,
                function,
                ..
            },
        ) => Some((program, function)),
        _ => None,
    }
}

/// The source of the program that a command makes.
fn program_source(commands: &[Command], number: usize) -> Option<&[u8]>
    ensures { option_map (λ source. source.now) result ≡ option_and_then program_source (slice_get commands.now number) }
{
    match commands.get(number) {
        Some(Command::Program { source, .. }) => Some(source.as_slice()),
        _ => None,
    }
}

/// The line in which the source begins of the program that a command makes, by the places of the commands.
fn source_line(places: &[CommandPlace], number: usize) -> usize
    requires { number < length places.now }
    ensures { (place : CommandPlace) × (slice_get places.now number ≡ Some place) × (result ≡ place.source_line) }
{
    places[number].source_line
}

/// The source of the program of a kernel, by the commands before a launch of it, of which each was done or not, and
/// their places in the script. None where no command that was done made the kernel, or before it its program.
pub fn source_of<'a>(
    commands: &'a [Command],
    places: &[CommandPlace],
    done: &[bool],
    kernel: &Name,
) -> Option<ProgramSource<'a>>
    requires { length commands.now ≤ length places.now }
    ensures source { IfSome result (λ s. IsSource commands.now done.now kernel.now s.kernel_command s.program.now s.function.now s.text.now s.program_command) }
    ensures line { IfSome result (λ s. (place : CommandPlace) × (slice_get places.now s.program_command ≡ Some place) × (s.first_line ≡ place.source_line)) }
    ensures none { IfNone result (HasNoSource commands.now done.now kernel.now) }
{
    let kernel_command = last_kernel(commands, done, kernel)?;
    let (program, function) = kernel_names(commands, kernel_command)?;
    let program_command = last_program(commands, done, program, kernel_command)?;
    let text = program_source(commands, program_command)?;
    Some(ProgramSource {
        text,
        first_line: source_line(places, program_command),
        program,
        function,
        kernel_command,
        program_command,
    })
}
