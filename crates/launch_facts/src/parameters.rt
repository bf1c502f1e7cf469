//! The parameters of a kernel, with their types.
#![tactic(auto)]

ghost use Rattle.std.specs.Prelude.{◌≡◌, ◌<◌, ◌++◌, [], ◌∷◌, All, codes, false, length, slice_get, string_bytes, IfOk, OnOk, if◌then◌else◌};
ghost use Rattle.std.specs.Option.{option_map_or};
ghost use Rattle.launch_facts.specs.Commands.{did, IsLast};
ghost use Rattle.launch_facts.specs.Parameters.{space_word, const_word, type_text, element_of, is_buffer, sets, gave_buffer, is_named, indexes, IsFacts, TellsOf, IsGiven, AreChosen};

use crate::commands::{this_or_earlier, was_done};
use clmodel::setup::Argument;
use clmodel::text::Name;
use clmodel::tree::{AddressSpace, Parameter, VariableType};
use explanation::ParameterFacts;
use host_commands::command::Command;
use std::alloc::{AllocError, Global};

/// The word of an address space, as a source has it.
fn space_word(space: AddressSpace) -> &'static str
    ensures { result.now ≡ space_word space }
{
    match space {
        AddressSpace::Global => "__global",
        AddressSpace::Local => "__local",
        AddressSpace::Constant => "__constant",
    }
}

/// The word in front of an element's type where it can't be stored to.
fn const_word(is_const: bool) -> &'static str
    ensures { result.now ≡ const_word is_const }
{
    if is_const { "const " } else { "" }
}

/// The type of a pointer, by its words.
fn pointer_text(
    alloc: Global,
    space: &str,
    constant: &str,
    element: &str,
) -> Result<String, AllocError>
    ensures { IfOk result (λ text. string_bytes text ≡ space.now ++ codes " " ++ constant.now ++ element.now ++ codes " *") }
{
    let mut out = String::from_str(alloc, space)?;
    out.push_str(" ")?;
    out.push_str(constant)?;
    out.push_str(element)?;
    out.push_str(" *")?;
    Ok(out)
}

/// The type of a variable as a source has it (OpenCL 1.2, sections 6.1 and 6.5).
pub fn type_text(alloc: Global, kind: VariableType) -> Result<String, AllocError>
    ensures { IfOk result (λ text. string_bytes text ≡ type_text kind) }
{
    match kind {
        VariableType::Integer(kind) => String::from_str(alloc, kind.name()),
        VariableType::Pointer(pointer) => {
            let space = space_word(pointer.space);
            let constant = const_word(pointer.is_const);
            let element = pointer.element.name();
            pointer_text(alloc, space, constant, element)
        }
    }
}

/// The element of a pointer's type in which a byte of its object lies (OpenCL 1.2, section 6.1.5, of aligned elements).
fn element_of(byte: Option<u64>, kind: VariableType) -> Option<u64>
    ensures { result ≡ element_of byte kind }
{
    match (byte, kind) {
        (Some(byte), VariableType::Pointer(pointer)) => {
            Some(byte / u64::from(pointer.element.bits() / 8))
        }
        _ => None,
    }
}

/// A parameter by its index, with the names of a source, and the element in which a byte lies.
fn facts_of(
    alloc: Global,
    byte: Option<u64>,
    index: usize,
    parameter: &Parameter,
    names: &[Name],
) -> Result<ParameterFacts, AllocError>
    ensures { IfOk result (IsFacts byte names.now index parameter.now) }
{
    let name = match names.get(parameter.name as usize) {
        Some(name) => name.as_slice(),
        None => b"",
    };
    Ok(ParameterFacts {
        index,
        name: String::from_utf8_lossy(alloc, name)?,
        type_name: type_text(alloc, parameter.kind)?,
        element: element_of(byte, parameter.kind),
    })
}

/// Whether an argument is the buffer of a name.
fn is_buffer(argument: &Argument, buffer: &Name) -> bool
    ensures { result ≡ is_buffer buffer.now argument.now }
{
    match argument {
        Argument::Buffer(name) => name == buffer,
        Argument::Value(_) | Argument::Local(_) => false,
    }
}

/// Whether a command sets the argument of an index of a kernel.
fn sets(command: &Command, wanted: &Name, wanted_index: usize) -> bool
    ensures { result ≡ sets wanted.now wanted_index command.now }
{
    match command {
        Command::Arg { kernel, index, .. } => kernel == wanted && *index == wanted_index as u64,
        _ => false,
    }
}

/// Whether the command of a number was done and set an argument.
fn did_set(commands: &[Command], done: &[bool], number: usize, wanted: &Name, index: usize) -> bool
    ensures { result ≡ did (sets wanted.now index) commands.now done.now number }
{
    match commands.get(number) {
        Some(command) => sets(command, wanted, index) && was_done(done, number),
        None => false,
    }
}

/// The number of the last command that was done and set an argument.
fn last_argument(commands: &[Command], done: &[bool], wanted: &Name, index: usize) -> Option<usize>
    ensures { IsLast (did (sets wanted.now index) commands.now done.now) (length commands.now) result }
{
    let mut found = None;
    for number in 0..commands.len() {
        found = this_or_earlier(
            did_set(commands, done, number, wanted, index),
            number,
            found,
        );
    }
    found
}

/// Whether the command of a number sets an argument to a buffer.
fn gave_buffer(commands: &[Command], buffer: &Name, number: usize) -> bool
    ensures { result ≡ gave_buffer commands.now buffer.now number }
{
    match commands.get(number) {
        Some(Command::Arg { argument, .. }) => is_buffer(argument, buffer),
        _ => false,
    }
}

/// Whether an argument of a kernel is a buffer.
fn is_given(commands: &[Command], done: &[bool], kernel: &Name, buffer: &Name, index: usize) -> bool
    ensures { IsGiven commands.now done.now kernel.now buffer.now index result }
{
    match last_argument(commands, done, kernel, index) {
        Some(number) => gave_buffer(commands, buffer, number),
        None => false,
    }
}

/// Adds the parameter of an index, if it is chosen.
fn push_chosen(
    alloc: Global,
    is_chosen: bool,
    byte: Option<u64>,
    index: usize,
    parameters: &[Parameter],
    names: &[Name],
    found: &mut Vec<ParameterFacts>,
) -> Result<(), AllocError>
    requires { index < length parameters.now }
    ensures indexes { OnOk result (indexes found.new.items ≡ indexes found.old.items ++ (if is_chosen then index ∷ [] else [])) }
    ensures told { OnOk result (All (TellsOf byte parameters.now names.now) found.old.items → All (TellsOf byte parameters.now names.now) found.new.items) }
{
    if !is_chosen {
        return Ok(());
    }
    let facts = facts_of(alloc, byte, index, &parameters[index], names)?;
    found.push(facts)?;
    Ok(())
}

/// The parameters of a kernel that are given a buffer, in their order, by the commands that set its arguments, of which
/// each was done or not, with the element in which a byte of it lies. An error is out of memory.
pub fn parameters_given(
    alloc: Global,
    commands: &[Command],
    done: &[bool],
    kernel: &Name,
    buffer: &Name,
    byte: Option<u64>,
    parameters: &[Parameter],
    names: &[Name],
) -> Result<Vec<ParameterFacts>, AllocError>
    ensures chosen { IfOk result (λ found. AreChosen (IsGiven commands.now done.now kernel.now buffer.now) (length parameters.now) (indexes found.items)) }
    ensures told { IfOk result (λ found. All (TellsOf byte parameters.now names.now) found.items) }
{
    let mut found = Vec::new(alloc);
    for index in 0..parameters.len() {
        let is_chosen = is_given(commands, done, kernel, buffer, index);
        push_chosen(alloc, is_chosen, byte, index, parameters, names, &mut found)?;
    }
    Ok(found)
}

/// Whether the parameter of an index has a name.
fn is_named(parameters: &[Parameter], index: usize, name: &Name, names: &[Name]) -> bool
    ensures { result ≡ option_map_or (is_named names.now name.now) (slice_get parameters.now index) false }
{
    let Some(parameter) = parameters.get(index) else {
        return false;
    };
    match names.get(parameter.name as usize) {
        Some(other) => other == name,
        None => false,
    }
}

/// The parameters of a kernel that have a name, in their order, with the element in which a byte lies. An error is out
/// of memory.
pub fn parameters_named(
    alloc: Global,
    name: &Name,
    byte: Option<u64>,
    parameters: &[Parameter],
    names: &[Name],
) -> Result<Vec<ParameterFacts>, AllocError>
    ensures chosen { IfOk result (λ found. AreChosen (λ j is. is ≡ option_map_or (is_named names.now name.now) (slice_get parameters.now j) false) (length parameters.now) (indexes found.items)) }
    ensures told { IfOk result (λ found. All (TellsOf byte parameters.now names.now) found.items) }
{
    let mut found = Vec::new(alloc);
    for index in 0..parameters.len() {
        let is_chosen = is_named(parameters, index, name, names);
        push_chosen(alloc, is_chosen, byte, index, parameters, names, &mut found)?;
    }
    Ok(found)
}
