//! What is known of each function, found in the order of the text, so that code that calls one needn't look into it.
//!
//! Code of a function that calls others grows with each call, and where no kernel calls it, no limit holds. So nodes
//! are counted first, and only functions of no more nodes than a kernel may have are measured.
#![tactic(auto)]

ghost use Rattle.std.specs.Prelude.{◌≡◌, ℕ, suc, ◌*◌, ◌<◌, ◌≤◌, ◌^◌, min, None, Some, length, IfOk};
ghost use Rattle.clmodel.specs.Next.{all_sites};
ghost use Rattle.clmodel.specs.Typing.Rules.{length_limit};
ghost use Rattle.clmodel.specs.Typing.Sizes.{row_size, node_limit, parameter_limit};
ghost use Rattle.lower_code.specs.Trees.{all_of};
ghost use Rattle.lower_code.specs.Variables.{row_elements};
ghost use Rattle.lower_code.specs.Room.{FewParameters, FewElements};
ghost use Rattle.lower_code.specs.Helpers.{inside, sizes_in, widths_in, body_of, BarriersKnown, BarriersCounted, LengthsKnown, LengthsCounted, NodesCounted, WidthsCounted, AreNarrow, EndsKnown};
ghost use Rattle.lower.specs.Bounds.{IsWithinLimits};

use crate::sites::sites_in_all;
use crate::statements::emit_body;
use clmodel::tree::Function;
use cltypes::{NODE_LIMIT, Summaries};
use lower_code::draft::Draft;
use lower_code::holes::Helpers;
use lower_code::known::KnownFunction;
use lower_code::positions::BodyPosition;
use std::alloc::{AllocError, Global};

/// How long the code of a function's body is, wherever it is called. Err if out of memory.
fn length_of(alloc: Global, helpers: Helpers<'_>, function: &Function) -> Result<usize, AllocError>
    requires { IsWithinLimits helpers.functions.now function.now }
    ensures { IfOk result (λ n. (level depth site : ℕ) → n ≡ length (body_of helpers.entry.functions.now function.now level depth site)) }
{
    let mut code = Draft::new(alloc);
    emit_body(helpers, function, BodyPosition::default(), &mut code)?;
    Ok(code.len())
}

/// The length of a function with so many nodes, counted up to one more than a kernel may have; None where it isn't
/// measured, since it has too many. Err if out of memory.
fn measured(
    alloc: Global,
    helpers: Helpers<'_>,
    function: &Function,
    nodes: u32,
) -> Result<Option<usize>, AllocError>
    requires few { all_sites (inside helpers.functions.now) (all_of function.now.body.items) < 2 ^ 32 }
    requires parameters { length function.now.parameters.items ≤ parameter_limit }
    requires narrow { (row_size (widths_in helpers.functions.now) (all_of function.now.body.items)).nodes ≤ 2 * (row_size (sizes_in helpers.functions.now) (all_of function.now.body.items)).nodes }
    requires arrays { row_elements (all_of function.now.body.items) ≤ length_limit }
    requires counted { nodes ≡ min (row_size (sizes_in helpers.functions.now) (all_of function.now.body.items)).nodes (suc node_limit) }
    ensures length { IfOk result (λ found. (n level depth site : ℕ) → found ≡ Some n → n ≡ length (body_of helpers.entry.functions.now function.now level depth site)) }
    ensures none { IfOk result (λ found. found ≡ None → node_limit < (row_size (sizes_in helpers.entry.functions.now) (all_of function.now.body.items)).nodes) }
{
    if nodes > NODE_LIMIT {
        return Ok(None);
    }
    let length = length_of(alloc, helpers, function)?;
    Ok(Some(length))
}

/// What is known of a function behind these, which has so many nodes, counted up to one more than a kernel may have.
/// Err if out of memory.
fn known_of(
    alloc: Global,
    helpers: Helpers<'_>,
    function: &Function,
    nodes: u32,
) -> Result<KnownFunction, AllocError>
    requires parameters { length function.now.parameters.items ≤ parameter_limit }
    requires narrow { (row_size (widths_in helpers.functions.now) (all_of function.now.body.items)).nodes ≤ 2 * (row_size (sizes_in helpers.functions.now) (all_of function.now.body.items)).nodes }
    requires arrays { row_elements (all_of function.now.body.items) ≤ length_limit }
    requires counted { nodes ≡ min (row_size (sizes_in helpers.functions.now) (all_of function.now.body.items)).nodes (suc node_limit) }
    ensures barriers { IfOk result (λ known. (n : ℕ) → known.barriers ≡ Some n → n ≡ all_sites (inside helpers.entry.functions.now) (all_of function.now.body.items)) }
    ensures counted { IfOk result (λ known. known.barriers ≡ None → 2 ^ 32 ≤ all_sites (inside helpers.entry.functions.now) (all_of function.now.body.items)) }
    ensures length { IfOk result (λ known. (n level depth site : ℕ) → known.length ≡ Some n → n ≡ length (body_of helpers.entry.functions.now function.now level depth site)) }
    ensures measured { IfOk result (λ known. (n : ℕ) → known.barriers ≡ Some n → known.length ≡ None → node_limit < (row_size (sizes_in helpers.entry.functions.now) (all_of function.now.body.items)).nodes) }
{
    let barriers = sites_in_all(helpers, function.body.as_slice());
    let length = match barriers {
        Some(_) => measured(alloc, helpers, function, nodes)?,
        None => None,
    };
    Ok(KnownFunction { barriers, length })
}

/// What is known of each of these functions. Err if out of memory.
pub fn known_of_all(
    alloc: Global,
    functions: &[Function],
    ends: &[usize],
) -> Result<Vec<KnownFunction>, AllocError>
    requires ends { EndsKnown functions.now ends.now }
    requires nodes { NodesCounted functions.now }
    requires widths { WidthsCounted functions.now }
    requires narrow { AreNarrow functions.now }
    requires parameters { FewParameters functions.now }
    requires elements { FewElements functions.now }
    ensures barriers { IfOk result (λ known. BarriersKnown functions.now known.items) }
    ensures complete { IfOk result (λ known. length known.items ≡ length functions.now) }
    ensures counted { IfOk result (λ known. BarriersCounted functions.now known.items) }
    ensures lengths { IfOk result (λ known. LengthsKnown functions.now known.items) }
    ensures measured { IfOk result (λ known. LengthsCounted functions.now known.items) }
{
    let mut sizes = Summaries::new(alloc);
    let mut known = Vec::new(alloc);
    for i in 0..functions.len() {
        let before = Helpers {
            functions: &functions[..i],
            known: known.as_slice(),
            ends,
        };
        let function = &functions[i];
        let size = sizes.add(function)?;
        let next = known_of(alloc, before, function, size.nodes)?;
        known.push(next)?;
    }
    Ok(known)
}
