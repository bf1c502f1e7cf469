//! Calls of helpers, whose bodies are left out (C99 6.5.2.2).
#![tactic(auto, using(crate::proofs::Growth::unchanged, crate::proofs::Growth::before, crate::proofs::Growth::one_before))]

ghost use Rattle.std.specs.Prelude.{◌≡◌, ℕ, ◌+◌, ◌<◌, ◌≤◌, ◌^◌, ◌++◌, length, take, get_or, OnOk, OnErr};
ghost use Rattle.clmodel.specs.Next.{all_sites};
ghost use Rattle.clmodel.specs.Typing.Sizes.{row_size, node_limit};
ghost use Rattle.lower_expr.specs.Registers.{numbers};
ghost use Rattle.lower_code.specs.Code.{call_code};
ghost use Rattle.lower_code.specs.Emission.{functions_of, inside, sizes_in, nodes_in, widths_in, width_in, body_of, called_sites, split_code};
ghost use Rattle.lower_code.specs.Trees.{all_of};
ghost use Rattle.lower_code.specs.Growth.{GrowsBefore};
ghost use Rattle.lower_code.specs.Room.{levels, called_level};

use crate::assignments::Split;
use crate::draft::Draft;
use crate::functions::{FoundFunction, find};
use crate::holes::{Helpers, Hole};
use crate::positions::{BodyPosition, Position};
use crate::variables::put_passed;
use lower_expr::scope::{Level, RegisterNumber};
use regcode::Instruction;
use std::alloc::AllocError;

/// Puts the code of a statement before the code, with the body of the helper that it calls left out.
pub fn emit_split<'a>(
    helpers: Helpers<'a>,
    split: Split,
    position: Position,
    code: &mut Draft<'a>,
) -> Result<(), AllocError>
    requires few { position.site + called_sites (inside helpers.functions.now) split.call < 2 ^ 32 }
    requires small { position.depth + called_sites (nodes_in helpers.functions.now) split.call ≤ node_limit }
    requires low { called_level split.call + levels (called_sites (width_in helpers.functions.now) split.call + 1) < 2 ^ 28 }
    ensures code { OnOk result (code.new ≡ split_code (call_code (functions_of helpers.entry.functions.now)) split position.depth position.site ++ code.old) }
    ensures longer { OnErr result (GrowsBefore code.old code.new) }
{
    let Split { front, call, back } = split;
    code.put_all(back)?;
    if let Some(call) = call {
        emit_call(
            helpers,
            call.name,
            call.arguments.as_slice(),
            call.level,
            position,
            code,
        )?;
    }
    code.put_all(front)
}

/// Puts a call with these arguments, of which the first is at a level, before the code, with the helper's body left
/// out.
fn emit_call<'a>(
    helpers: Helpers<'a>,
    name: u32,
    arguments: &[RegisterNumber],
    level: Level,
    position: Position,
    code: &mut Draft<'a>,
) -> Result<(), AllocError>
    requires few { position.site + inside helpers.functions.now name < 2 ^ 32 }
    requires small { position.depth + nodes_in helpers.functions.now name ≤ node_limit }
    requires low { level.0 + levels (width_in helpers.functions.now name + 1) < 2 ^ 28 }
    ensures code { OnOk result (code.new ≡ call_code (functions_of helpers.entry.functions.now) name (numbers arguments.now) level.0 position.depth position.site ++ code.old) }
    ensures longer { OnErr result (GrowsBefore code.old code.new) }
{
    let Some(found) = find(helpers, name) else {
        return code.put(Instruction::End);
    };
    leave_body(helpers, found, level, position, code)?;
    put_passed(found.function.parameters.as_slice(), arguments, level, code)
}

/// How long the code of a helper's body is, wherever it is called. It has no more nodes than a kernel may have, so the
/// length is known.
fn length_of(helpers: Helpers<'_>, found: FoundFunction<'_>) -> usize
    requires within { found.place < length helpers.functions.now }
    requires there { found.function.now ≡ get_or helpers.functions.now found.place found.function.now }
    requires few { all_sites (inside (take found.place helpers.functions.now)) (all_of found.function.now.body.items) < 2 ^ 32 }
    requires small { (row_size (sizes_in (take found.place helpers.functions.now)) (all_of found.function.now.body.items)).nodes ≤ node_limit }
    ensures { (level depth site : ℕ) → result ≡ length (body_of (take found.entry.place helpers.entry.functions.now) found.entry.function.now level depth site) }
{
    match helpers.known[found.place].length {
        Some(count) => count,
        None => unreachable!(),
    }
}

/// Puts the body of a helper before the code, and leaves it out.
fn leave_body<'a>(
    helpers: Helpers<'a>,
    found: FoundFunction<'a>,
    level: Level,
    position: Position,
    code: &mut Draft<'a>,
) -> Result<(), AllocError>
    requires within { found.place < length helpers.functions.now }
    requires there { found.function.now ≡ get_or helpers.functions.now found.place found.function.now }
    requires few { position.site + all_sites (inside (take found.place helpers.functions.now)) (all_of found.function.now.body.items) < 2 ^ 32 }
    requires small { position.depth + (row_size (sizes_in (take found.place helpers.functions.now)) (all_of found.function.now.body.items)).nodes ≤ node_limit }
    requires low { level.0 + length found.function.now.parameters.items + levels (row_size (widths_in (take found.place helpers.functions.now)) (all_of found.function.now.body.items)).nodes < 2 ^ 28 }
    ensures code { OnOk result (code.new ≡ body_of (take found.entry.place helpers.entry.functions.now) found.entry.function.now level.0 position.depth position.site ++ code.old) }
    ensures longer { OnErr result (GrowsBefore code.old code.new) }
{
    let count = length_of(helpers, found);
    let before = helpers.before(found.place);
    let hole = Hole {
        functions: before.functions,
        known: before.known,
        ends: before.ends,
        function: found.function,
        position: BodyPosition {
            level,
            depth: position.depth,
            site: position.site,
        },
    };
    code.leave(hole, count)
}
