//! Kernels with their arguments (OpenCL 1.2, section 5.7).
#![tactic(auto)]

ghost use Rattle.std.specs.Prelude.{◌≡◌, None, replicate, IfOk, is_some, not};
ghost use Rattle.std.specs.List.{list_any};
ghost use Rattle.clmodel.specs.Tree.{program};
ghost use Rattle.host_commands.specs.Kernels.{parameters_of, with_argument, new_kernel, names_buffer, is_in_range, suits};

use clmodel::setup::Argument;
use clmodel::text::Name;
use clmodel::tree::{AddressSpace, Parameter, Tree, VariableType};
use clnum::{IntType, Value};
use limits::Limits;
use std::alloc::{AllocError, Global};
use std::marker::Model;

/// A kernel of a program, with an argument for each parameter that was given one.
#[derive(Drop)]
pub struct Kernel {
    program: Name,
    function: u32,
    arguments: Vec<Option<Argument>>,
}

impl Model for Kernel {
    ghost use Rattle.host_commands.specs.Kernels.{KernelState};

    ghost Value = { KernelState };

    ghost view = { λ a. record { program = a.program; function = a.function; arguments = a.arguments.items } };
}

/// A list of `count` arguments that weren't given.
fn none_given(alloc: Global, count: usize) -> Result<Vec<Option<Argument>>, AllocError>
    ensures { IfOk result (λ arguments. arguments.items ≡ replicate count None) }
{
    let mut arguments = Vec::new(alloc);
    while arguments.len() < count {
        arguments.push(None)?;
    }
    Ok(arguments)
}

/// Whether an argument names a buffer.
fn names_buffer(name: &Name, argument: &Option<Argument>) -> bool
    ensures { result ≡ names_buffer name.now argument.now }
{
    match argument {
        Some(Argument::Buffer(other)) => name == other,
        _ => false,
    }
}

impl Kernel {
    /// The kernel of a program's function, by the number of its name, with `count` arguments that weren't given.
    pub fn new(
        alloc: Global,
        program: Name,
        function: u32,
        count: usize,
    ) -> Result<Self, AllocError>
        ensures { IfOk result (λ kernel. kernel ≡ new_kernel program function count) }
    {
        Ok(Kernel {
            program,
            function,
            arguments: none_given(alloc, count)?,
        })
    }

    /// The name of its program.
    pub fn program(&self) -> &Name
        ensures { result.now ≡ self.now.program }
    {
        &self.program
    }

    /// The number of its function's name.
    pub fn function(&self) -> u32
        ensures { result ≡ self.now.function }
    {
        self.function
    }

    /// Its arguments.
    pub fn arguments(&self) -> &[Option<Argument>]
        ensures { result.now ≡ self.now.arguments }
    {
        self.arguments.as_slice()
    }

    /// Whether a parameter wasn't given an argument.
    pub fn lacks_argument(&self) -> bool
        ensures { result ≡ list_any (λ argument. not (is_some argument)) self.now.arguments }
    {
        self.arguments.iter().any(|argument| !argument.is_some())
    }

    /// Whether one of its arguments names a buffer.
    pub fn uses(&self, buffer: &Name) -> bool
        ensures { result ≡ list_any (names_buffer buffer.now) self.now.arguments }
    {
        self.arguments
            .iter()
            .any(|argument| names_buffer(buffer, argument))
    }

    /// Sets the argument of an index, over an earlier one, if there is such a parameter (OpenCL 1.2, section 5.7.2).
    pub fn set_argument(&mut self, index: usize, argument: Argument)
        ensures { self.new ≡ with_argument self.old index argument }
    {
        if index < self.arguments.len() {
            self.arguments[index] = Some(argument);
        }
    }
}

/// The parameters of a program's kernel, by the number of its name.
pub fn parameters_of(tree: &Tree, number: u32) -> &[Parameter]
    ensures { result.now ≡ parameters_of (program tree.now) number }
{
    match tree.kernel(number as usize) {
        None => &[],
        Some(found) => found.function.parameters.as_slice(),
    }
}

/// Whether a number is in the range of a type.
fn is_in_range(kind: IntType, number: i128) -> bool
    ensures { result ≡ is_in_range kind number }
{
    Value::wrapped(kind, number).number() == number
}

/// Whether an argument is of the kind that a parameter wants: a buffer for a pointer to global or constant memory, a
/// size that a device of these limits allows for one to local memory, a number of its type for an integer.
pub fn suits(limits: &Limits, kind: VariableType, argument: &Argument) -> bool
    ensures { result ≡ suits limits.now kind argument.now }
{
    match (kind, argument) {
        (VariableType::Pointer(p), Argument::Buffer(_)) => p.space != AddressSpace::Local,
        (VariableType::Pointer(p), Argument::Local(size)) => {
            p.space == AddressSpace::Local && *size >= 1 && *size <= limits.local_bytes
        }
        (VariableType::Integer(kind), Argument::Value(n)) => is_in_range(kind, *n),
        _ => false,
    }
}
