//! The faults of functions.
#![tactic(auto)]

ghost use Rattle.std.specs.Prelude.{◌≡◌, ◌++◌, [], ◌∷◌, None, IfOk};
ghost use Rattle.clmodel.specs.Tree.{Funcs, ThenFunc, func};
ghost use Rattle.clmodel.specs.Typing.Context as typing;
ghost use Rattle.clmodel.specs.Typing.Functions.{signature, signatures, with_params, size_of, params_faults, end_faults, function_faults};
ghost use Rattle.clmodel.specs.Typing.Least.{first};
ghost use Rattle.cltypes_scope.specs.Names.{signature_of, ended};
ghost use Rattle.cltypes.specs.Limits.{IsSummary};
ghost use Rattle.cltypes.specs.Answers.{Ends};

use crate::ends::end_fault;
use crate::statements::{check_statements, ended};
use crate::summaries::Summaries;
use clmodel::declaration::Declaration;
use clmodel::tree::{Function, Parameter};
use clmodel::type_fault::TypeFault;
use cltypes_scope::{Context, Signature};
use std::alloc::{AllocError, Global};

/// Declares a function's parameters, or answers the first fault of one. Err(OutOfMemory) may come at any time.
fn declare_parameters(context: &mut Context, parameters: &[Parameter]) -> Result<(), TypeFault>
    ensures first { Ends result (first (params_faults context.old parameters.now)) }
    ensures declared { IfOk result (λ _. context.new ≡ with_params context.old parameters.now) }
{
    for parameter in parameters {
        if !context.is_free(parameter.name) {
            return Err(TypeFault::Redeclared {
                at: parameter.name_at,
            });
        }
        let declared = Declaration::Single(parameter.kind);
        context.bind(parameter.name, declared)?;
    }
    Ok(())
}

/// What calls of a function have to know of it.
fn signature(alloc: Global, function: &Function) -> Result<Signature, AllocError>
    ensures { IfOk result (λ s. signature_of s ≡ signature (func function.now)) }
{
    let mut parameters = Vec::new(alloc);
    for parameter in &function.parameters {
        parameters.push(parameter.kind)?;
    }
    Ok(Signature {
        is_kernel: function.is_kernel,
        result: function.result,
        parameters,
    })
}

/// Ends a function whose body has no fault: the first fault behind the body is the answer, and Err(OutOfMemory) may
/// come at any time.
fn end_function(
    context: &mut Context,
    summaries: &mut Summaries,
    function: &Function,
) -> Result<(), TypeFault>
    requires { typing.signature_of context.old.before context.old.current ≡ None }
    ensures first { (fs : Funcs)
        → IsSummary summaries.old fs
        → Ends result (first (end_faults context.old.limits (func function.now) (size_of fs (func function.now)))) }
    ensures ended { IfOk result (λ _. context.new ≡ ended context.old) }
    ensures summed { IfOk result (λ _. (fs : Funcs) → IsSummary summaries.old fs → IsSummary summaries.new (ThenFunc fs (func function.now))) }
{
    let size = summaries.add(function)?;
    let limits = context.limits();
    context.end()?;
    ended(end_fault(limits, function, size))
}

/// Checks a function which those of the context and of the summaries stand before: the first of its faults is the
/// answer, and Err(OutOfMemory) may come at any time. What comes behind it sees it.
pub(crate) fn check_function(
    alloc: Global,
    context: &mut Context,
    summaries: &mut Summaries,
    function: &Function,
) -> Result<(), TypeFault>
    ensures first { (fs : Funcs)
        → signatures fs ≡ context.old.before
        → IsSummary summaries.old fs
        → Ends result (first (function_faults context.old.limits context.old.all fs (func function.now))) }
    ensures limits { IfOk result (λ _. context.new.limits ≡ context.old.limits) }
    ensures all { IfOk result (λ _. context.new.all ≡ context.old.all) }
    ensures before { IfOk result (λ _. context.new.before ≡ context.old.before ++ (function.now.name, signature (func function.now)) ∷ []) }
    ensures summed { IfOk result (λ _. (fs : Funcs) → IsSummary summaries.old fs → IsSummary summaries.new (ThenFunc fs (func function.now))) }
{
    if !context.is_new(function.name) {
        return Err(TypeFault::Redeclared {
            at: function.name_at,
        });
    }
    let signature = signature(alloc, function)?;
    context.begin(function.name, signature);
    declare_parameters(context, &function.parameters)?;
    check_statements(context, &function.body)?;
    end_function(context, summaries, function)
}
