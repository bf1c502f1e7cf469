//! The objects in the local memory of a group (OpenCL 1.2, section 6.5.2).
#![tactic(auto)]

ghost use Rattle.std.specs.Prelude.{◌≡◌, ◌<◌, ◌≤◌, ◌-◌, ◌^◌, None, false, get_or, map, min, IfOk};
ghost use Rattle.clmodel.specs.Setup as model;
ghost use Rattle.clmodel.specs.Tree as tree;
ghost use Rattle.clmodel.specs.Tree.{program, stmt, then_stmts, NoStmt};
ghost use Rattle.item_step.specs.Objects.{Lists, all_sizes, are_too_large, capped, listed, most_local_bytes};

use clmodel::setup::Argument;
use clmodel::tree::{Parameter, Statement, Tree};
use clnum::{IntType, Value};
use std::alloc::{AllocError, Global};

/// The local objects of a kernel in the order of their numbers: the numbers of their names, and their sizes in bytes.
#[derive(Drop)]
pub(crate) struct LocalObjects {
    pub(crate) names: Vec<u32>,
    pub(crate) sizes: Vec<u64>,
}

/// The bytes of local memory that the argument at a place is.
fn local_size(arguments: &[Option<Argument>], place: usize) -> u64
    ensures { result ≡ model.local_size (get_or arguments.now place None) }
{
    match arguments.get(place) {
        Some(Some(Argument::Local(size))) => *size,
        _ => 0,
    }
}

/// The local objects of parameters with these arguments.
fn parameter_objects(
    alloc: Global,
    parameters: &[Parameter],
    arguments: &[Option<Argument>],
) -> Result<LocalObjects, AllocError>
    ensures { IfOk result (Lists (model.parameter_objects parameters.now arguments.now)) }
{
    let mut names = Vec::new(alloc);
    let mut sizes = Vec::new(alloc);
    for place in 0..parameters.len() {
        names.push(parameters[place].name)?;
        sizes.push(local_size(arguments, place))?;
    }
    Ok(LocalObjects { names, sizes })
}

/// The bytes of an array, or the greatest number where they are more.
fn array_bytes(element: IntType, length: Value) -> u64
    ensures { result ≡ min (tree.array_bytes element length) (2 ^ 64 - 1) }
{
    u64::from(element.bits() / 8).saturating_mul(length.natural())
}

/// The local object of a declaration: the number of its name, and its bytes, or the greatest number where they are
/// more.
fn declared_object(statement: &Statement) -> Option<(u32, u64)>
    ensures { listed result ≡ map capped (model.declared_object (stmt statement.now)) }
{
    match statement {
        Statement::Declare { name, .. } => Some((*name, 0)),
        Statement::DeclareArray {
            is_local,
            element,
            name,
            length,
            ..
        } => {
            let size = if *is_local {
                array_bytes(*element, *length)
            } else {
                0
            };
            Some((*name, size))
        }
        _ => None,
    }
}

/// The bytes of the local object of a declaration, or the greatest number where they are more.
fn declared_size(statement: &Statement) -> u64
    ensures { result ≡ all_sizes (map capped (model.declared_object (stmt statement.now))) }
{
    declared_object(statement).map_or(0, |object| object.1)
}

/// The local objects that the outermost block of a kernel declares, if their bytes can be counted.
fn declared_objects(alloc: Global, body: &[Statement]) -> Result<LocalObjects, AllocError>
    requires { all_sizes (model.body_objects (then_stmts NoStmt (map stmt body.now))) < 2 ^ 64 - 1 }
    ensures { IfOk result (Lists (model.body_objects (then_stmts NoStmt (map stmt body.now)))) }
{
    let mut names = Vec::new(alloc);
    let mut sizes = Vec::new(alloc);
    for statement in body {
        let Some(object) = declared_object(statement) else {
            continue;
        };
        names.push(object.0)?;
        sizes.push(object.1)?;
    }
    Ok(LocalObjects { names, sizes })
}

/// The local objects of the kernel of a name's number, with these arguments, if some device has room for them.
pub(crate) fn local_objects(
    alloc: Global,
    tree: &Tree,
    number: u32,
    arguments: &[Option<Argument>],
) -> Result<LocalObjects, AllocError>
    requires { all_sizes (model.objects_of (model.kernel_in (program tree.now).functions number) arguments.now) ≤ most_local_bytes }
    ensures { IfOk result (Lists (model.objects_of (model.kernel_in (program tree.now).functions number) arguments.now)) }
{
    match tree.kernel(number as usize) {
        Some(found) => {
            let kernel = found.function;
            let mut objects = parameter_objects(alloc, &kernel.parameters, arguments)?;
            let declared = declared_objects(alloc, &kernel.body)?;
            objects.names.extend_from_slice(&declared.names)?;
            objects.sizes.extend_from_slice(&declared.sizes)?;
            Ok(objects)
        }
        None => Ok(LocalObjects {
            names: Vec::new(alloc),
            sizes: Vec::new(alloc),
        }),
    }
}

/// The bytes of the local objects of parameters with these arguments, or the greatest number where they are more.
fn parameter_bytes(parameters: &[Parameter], arguments: &[Option<Argument>]) -> u64
    ensures { result ≡ min (all_sizes (model.parameter_objects parameters.now arguments.now)) (2 ^ 64 - 1) }
{
    let mut bytes = 0u64;
    for place in 0..parameters.len() {
        bytes = bytes.saturating_add(local_size(arguments, place));
    }
    bytes
}

/// The bytes of the local objects that the outermost block of a kernel declares, or the greatest number where they are
/// more.
#[tactic(auto, using(crate::proofs::Declarations::bytes_more))]
fn declared_bytes(body: &[Statement]) -> u64
    ensures { result ≡ min (all_sizes (model.body_objects (then_stmts NoStmt (map stmt body.now)))) (2 ^ 64 - 1) }
{
    let mut bytes = 0u64;
    for statement in body {
        bytes = bytes.saturating_add(declared_size(statement));
    }
    bytes
}

/// Whether the local objects of the kernel of a name's number, with these arguments, have more bytes than a device with
/// this limit gives a group. Where they haven't, some device has room for them.
#[tactic(auto, using(crate::proofs::Declarations::all_above, crate::proofs::Declarations::has_room))]
pub fn is_local_too_large(
    limit: u64,
    tree: &Tree,
    number: u32,
    arguments: &[Option<Argument>],
) -> bool
    requires { limit ≤ most_local_bytes }
    ensures value { result ≡ are_too_large limit (model.objects_of (model.kernel_in (program tree.now).functions number) arguments.now) }
    ensures room { result ≡ false → all_sizes (model.objects_of (model.kernel_in (program tree.now).functions number) arguments.now) ≤ most_local_bytes }
{
    match tree.kernel(number as usize) {
        Some(found) => {
            let kernel = found.function;
            let bytes = parameter_bytes(&kernel.parameters, arguments);
            bytes.saturating_add(declared_bytes(&kernel.body)) > limit
        }
        None => false,
    }
}
