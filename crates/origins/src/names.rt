//! The variables in scope, by what the length of code depends on.
#![tactic(auto)]

ghost use Rattle.std.specs.Prelude.{◌≡◌, ◌++◌, OnErr, OnOk};
ghost use Rattle.clmodel.specs.Tree.{stmt};
ghost use Rattle.origins.specs.Names as spec;

use clmodel::tree::{AddressSpace, Parameter, PointerType, Statement, VariableType};
use clnum::{IntType, Value};
use std::alloc::AllocError;

/// What a name stands for: no variable in scope, a private array, or another variable.
#[derive(Clone, Copy, PartialEq, Eq)]
pub enum Meaning {
    Unknown,
    Array,
    Plain,
}

/// A variable in scope.
#[derive(Clone, Copy)]
pub struct NamedVariable {
    pub name: u32,
    pub kind: VariableType,
    pub meaning: Meaning,
}

/// What a name stands for among variables, the outermost first.
pub fn meaning_of(names: &[NamedVariable], name: u32) -> Meaning
    ensures { result ≡ spec.meaning_of names.now name }
{
    let mut found = Meaning::Unknown;
    for i in 0..names.len() {
        if name == names[i].name {
            found = names[i].meaning;
        }
    }
    found
}

/// The type of a variable among these; int where there is none.
pub fn kind_of(names: &[NamedVariable], name: u32) -> VariableType
    ensures { result ≡ spec.kind_of names.now name }
{
    let mut found = VariableType::Integer(IntType::Int);
    for i in 0..names.len() {
        if name == names[i].name {
            found = names[i].kind;
        }
    }
    found
}

/// The type of the variable of an array: that of a local one is a pointer.
fn array_kind(is_local: bool, element: IntType) -> VariableType
    ensures { result ≡ spec.array_kind is_local element }
{
    if is_local {
        return VariableType::Pointer(PointerType {
            space: AddressSpace::Local,
            is_const: false,
            element,
        });
    }
    VariableType::Integer(element)
}

/// What the name of an array stands for, by the number in its brackets: one of no elements is no array.
fn array_meaning(is_local: bool, length: Value) -> Meaning
    ensures { result ≡ spec.array_meaning is_local length }
{
    if is_local {
        return Meaning::Plain;
    }
    if length.number() <= 0 {
        return Meaning::Plain;
    }
    Meaning::Array
}

/// Adds the variable of a declaration. An error is out of memory.
pub fn declare(names: &mut Vec<NamedVariable>, statement: &Statement) -> Result<(), AllocError>
    ensures declared { OnOk result (names.new.items ≡ spec.names_after names.old.items (stmt statement.now)) }
    ensures same { OnErr result (names.new.items ≡ names.old.items) }
{
    match statement {
        Statement::Declare { kind, name, .. } => {
            names.push(NamedVariable {
                name: *name,
                kind: *kind,
                meaning: Meaning::Plain,
            })?;
            Ok(())
        }
        Statement::DeclareArray {
            is_local,
            element,
            name,
            length,
            ..
        } => {
            names.push(NamedVariable {
                name: *name,
                kind: array_kind(*is_local, *element),
                meaning: array_meaning(*is_local, *length),
            })?;
            Ok(())
        }
        _ => Ok(()),
    }
}

/// Adds the parameters of a function. An error is out of memory.
pub fn declare_parameters(
    names: &mut Vec<NamedVariable>,
    parameters: &[Parameter],
) -> Result<(), AllocError>
    ensures { OnOk result (names.new.items ≡ names.old.items ++ spec.parameter_names parameters.now) }
{
    for i in 0..parameters.len() {
        names.push(NamedVariable {
            name: parameters[i].name,
            kind: parameters[i].kind,
            meaning: Meaning::Plain,
        })?;
    }
    Ok(())
}
