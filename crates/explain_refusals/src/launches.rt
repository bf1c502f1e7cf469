//! Why a launch was refused (OpenCL 1.2, section 5.8).
#![tactic(auto)]

ghost use Rattle.std.specs.Prelude.{Bool, IfOk};
ghost use Rattle.clmodel.specs.declared.setup.Range.{Range as RangeOf};
ghost use Rattle.host_commands.specs.declared.command.Command.{Command as CommandOf};
ghost use Rattle.host_commands.specs.declared.command.Command.TheVariants as command;
ghost use Rattle.explain_refusals.specs.Reasons.{HoldsOf, IsLimited};

use crate::arguments::arguments_of;
use crate::names::names_there;
use crate::reasons::{Found, Refusing, Wanted, unknown};
use crate::trees::{KernelTree, made_of, tree_of};
use clmodel::setup::{Argument, Range};
use clmodel::text::Name;
use clmodel::tree::Statement;
use clnum::{IntType, Value};
use explanation::ParameterFacts;
use host_commands::command::Refusal;
use refused_commands::{Divided, Limited, NameKind, RefusalReason};
use std::alloc::{AllocError, Global};

/// A number that passes its limit, if it does.
fn past_limit(
    refusing: &Refusing<'_>,
    limited: Limited,
    number: u64,
    limit: u64,
    word: usize,
) -> Option<Found>
    ensures { (c : CommandOf) → IsLimited refusing.now.limits c limited number limit → HoldsOf refusing.now c result }
{
    if number <= limit {
        return None;
    }
    let reason = RefusalReason::PastLimit {
        limited,
        number,
        limit,
    };
    Some(Found { reason, word })
}

/// An offset and a global size of a dimension that pass 2^64 - 1 together, if they do.
fn offset_at(
    refusing: &Refusing<'_>,
    kernel: &Name,
    range: &Range,
    dimension: usize,
) -> Option<Found>
    ensures { (orders : Bool) → HoldsOf refusing.now (command.Launch kernel.now range.now orders) result }
{
    let offset = *range.offset.as_slice().get(dimension)?;
    let size = *range.global.as_slice().get(dimension)?;
    if offset <= u64::MAX - size {
        return None;
    }
    let reason = RefusalReason::OffsetTooLarge {
        dimension: dimension as u64,
        offset,
        size,
    };
    Some(Found { reason, word: 4 })
}

/// The first dimension whose offset and global size pass 2^64 - 1 together.
fn large_offset(refusing: &Refusing<'_>, kernel: &Name, range: &Range) -> Option<Found>
    ensures { (orders : Bool) → HoldsOf refusing.now (command.Launch kernel.now range.now orders) result }
{
    for dimension in 0..range.offset.as_slice().len() {
        if let Some(found) = offset_at(refusing, kernel, range, dimension) {
            return Some(found);
        }
    }
    None
}

/// Lists of lengths that no launch may have, or an offset that is too large.
fn bad_dimension(refusing: &Refusing<'_>, kernel: &Name, range: &Range) -> Option<Found>
    ensures { (orders : Bool) → HoldsOf refusing.now (command.Launch kernel.now range.now orders) result }
{
    let global = range.global.as_slice().len() as u64;
    let local = range.local.as_slice().len() as u64;
    let offset = range.offset.as_slice().len() as u64;
    if global == 0 || global > 3 || local != global || offset != global {
        let reason = RefusalReason::DimensionCounts {
            global,
            local,
            offset,
        };
        return Some(Found { reason, word: 2 });
    }
    large_offset(refusing, kernel, range)
}

/// A size of a dimension that is 0, if one is.
fn zero_at(refusing: &Refusing<'_>, kernel: &Name, range: &Range, dimension: usize) -> Option<Found>
    ensures { (orders : Bool) → HoldsOf refusing.now (command.Launch kernel.now range.now orders) result }
{
    let global = *range.global.as_slice().get(dimension)?;
    let local = *range.local.as_slice().get(dimension)?;
    if global != 0 && local != 0 {
        return None;
    }
    let reason = RefusalReason::ZeroSize {
        dimension: dimension as u64,
    };
    let word = if global == 0 { 2 } else { 3 };
    Some(Found { reason, word })
}

/// A global size of a dimension that is no multiple of its local size, if it is none.
fn uneven_at(
    refusing: &Refusing<'_>,
    kernel: &Name,
    range: &Range,
    dimension: usize,
) -> Option<Found>
    ensures { (orders : Bool) → HoldsOf refusing.now (command.Launch kernel.now range.now orders) result }
{
    let number = *range.global.as_slice().get(dimension)?;
    let of = *range.local.as_slice().get(dimension)?;
    if of == 0 || number % of == 0 {
        return None;
    }
    let reason = RefusalReason::NotMultiple {
        divided: Divided::GlobalSize(dimension as u64),
        number,
        of,
    };
    Some(Found { reason, word: 2 })
}

/// What of the sizes of a dimension may not be.
fn bad_size_at(
    refusing: &Refusing<'_>,
    kernel: &Name,
    range: &Range,
    dimension: usize,
) -> Option<Found>
    ensures { (orders : Bool) → HoldsOf refusing.now (command.Launch kernel.now range.now orders) result }
{
    match zero_at(refusing, kernel, range, dimension) {
        Some(found) => Some(found),
        None => uneven_at(refusing, kernel, range, dimension),
    }
}

/// The sizes that no group may have, in the first such dimension, or a group of too many work-items.
fn bad_group(refusing: &Refusing<'_>, kernel: &Name, range: &Range) -> Option<Found>
    ensures { (orders : Bool) → HoldsOf refusing.now (command.Launch kernel.now range.now orders) result }
{
    for dimension in 0..range.global.as_slice().len() {
        if let Some(found) = bad_size_at(refusing, kernel, range, dimension) {
            return Some(found);
        }
    }
    let (number, limit) = (range.local.product(), refusing.limits.group_items);
    past_limit(refusing, Limited::GroupItems, number, limit, 3)
}

/// Whether a parameter of an index wasn't given an argument.
fn is_missing(arguments: &[Option<&Argument>], index: usize) -> bool {
    match arguments.get(index) {
        Some(argument) => argument.is_none(),
        None => true,
    }
}

/// The parameters that weren't given an argument.
fn missing_of(
    alloc: Global,
    tree: &KernelTree<'_>,
    arguments: &[Option<&Argument>],
) -> Result<Vec<ParameterFacts>, AllocError> {
    let mut parameters = Vec::new(alloc);
    for (index, parameter) in tree.parameters().iter().enumerate() {
        if is_missing(arguments, index) {
            parameters.push(tree.told_parameter(alloc, index, parameter)?)?;
        }
    }
    Ok(parameters)
}

/// The bytes of local memory that an argument is.
fn given_bytes(argument: &Option<&Argument>) -> u64 {
    match argument {
        Some(Argument::Local(size)) => *size,
        _ => 0,
    }
}

/// The bytes of an array, or the greatest number where they are more.
fn array_bytes(element: IntType, length: Value) -> u64 {
    u64::from(element.bits() / 8).saturating_mul(length.natural())
}

/// The bytes of local memory that a statement declares, or the greatest number where they are more.
fn declared_bytes(statement: &Statement) -> u64 {
    match statement {
        Statement::DeclareArray {
            is_local,
            element,
            length,
            ..
        } => {
            if *is_local {
                array_bytes(*element, *length)
            } else {
                0
            }
        }
        _ => 0,
    }
}

/// The bytes of local memory that the outermost block of a kernel declares, or the greatest number where they are more.
fn body_bytes(body: &[Statement]) -> u64 {
    let mut bytes = 0u64;
    for statement in body {
        bytes = bytes.saturating_add(declared_bytes(statement));
    }
    bytes
}

/// The bytes of the local objects of a kernel with its arguments, or the greatest number where they are more (OpenCL
/// 1.2, section 6.5.2).
fn local_bytes(tree: &KernelTree<'_>, arguments: &[Option<&Argument>]) -> u64 {
    let mut bytes = match tree.function() {
        Some(function) => body_bytes(function.body.as_slice()),
        None => 0,
    };
    for argument in arguments {
        bytes = bytes.saturating_add(given_bytes(argument));
    }
    bytes
}

/// Why a kernel that is there isn't launched with its arguments.
fn arguments_reason(
    refusing: &Refusing<'_>,
    kernel: &Name,
    refusal: Refusal,
) -> Result<Option<Found>, AllocError>
    ensures { (range : RangeOf) (orders : Bool) → IfOk result (HoldsOf refusing.now (command.Launch kernel.now range orders)) }
{
    let there = names_there(refusing.alloc, refusing.before)?;
    let Some(made) = made_of(there.as_slice(), kernel, NameKind::Kernel) else {
        return Ok(None);
    };
    let Some(tree) = tree_of(refusing, &made)? else {
        return Ok(None);
    };
    let arguments = arguments_of(refusing, &made)?;
    if matches!(refusal, Refusal::LocalTooLarge) {
        let number = local_bytes(&tree, arguments.as_slice());
        let limit = refusing.limits.local_bytes;
        return Ok(past_limit(refusing, Limited::LocalBytes, number, limit, 1));
    }
    let parameters = missing_of(refusing.alloc, &tree, arguments.as_slice())?;
    let reason = RefusalReason::ArgumentsMissing { parameters };
    Ok(Some(Found { reason, word: 1 }))
}

/// Why a kernel isn't launched.
pub(crate) fn launch_reason(
    refusing: &Refusing<'_>,
    kernel: &Name,
    range: &Range,
    refusal: Refusal,
) -> Result<Option<Found>, AllocError>
    ensures { (orders : Bool) → IfOk result (HoldsOf refusing.now (command.Launch kernel.now range.now orders)) }
{
    match refusal {
        Refusal::NoSuchName => unknown(refusing, kernel, Wanted::Kernel, 1),
        Refusal::BadDimension => Ok(bad_dimension(refusing, kernel, range)),
        Refusal::BadGroupSize => Ok(bad_group(refusing, kernel, range)),
        Refusal::TooManyItems => {
            let (number, limit) = (range.global.product(), refusing.limits.items);
            Ok(past_limit(refusing, Limited::Items, number, limit, 2))
        }
        Refusal::ArgumentsMissing | Refusal::LocalTooLarge => {
            arguments_reason(refusing, kernel, refusal)
        }
        _ => Ok(None),
    }
}
