//! The functions that can be called, and where they stand.
#![tactic(auto)]

ghost use Rattle.std.specs.Prelude.{◌≡◌, ◌<◌, ◌≤◌, ℕ, List, length, take, get_or, IfSome, IfOk};
ghost use Rattle.clmodel.specs.declared.tree.Function.{Function};
ghost use Rattle.lower_code.specs.Code.{call_code, result_in};
ghost use Rattle.lower_code.specs.Helpers.{EndsKnown};
ghost use Rattle.lower_code.specs.Emission.{functions_of, inside, found_code, found_result, found_sites};

use crate::holes::Helpers;
use clmodel::tree::Function;
use std::alloc::{AllocError, Global};

/// A function, and how many are before it.
#[derive(Clone, Copy)]
pub struct FoundFunction<'a> {
    pub place: usize,
    pub function: &'a Function,
}

/// How many functions there are up to the last of a name, or more.
fn end_of(helpers: Helpers<'_>, name: u32) -> usize
    ensures within { result ≤ length helpers.entry.functions.now }
    ensures behind { (i : ℕ) (f : Function) → result ≤ i → i < length helpers.entry.functions.now → f ≡ get_or helpers.entry.functions.now i f → name ≡ f.name → ⊥ }
{
    let place = name as usize;
    if place >= helpers.ends.len() {
        return 0;
    }
    helpers.ends[place].min(helpers.functions.len())
}

/// The helper function of a name: the last of the functions that has it. The table of ends says where it stands, so
/// that no other is looked at, unless functions share a name.
pub fn find<'a>(helpers: Helpers<'a>, name: u32) -> Option<FoundFunction<'a>>
    ensures code { (arguments : List ℕ) (level depth site : ℕ) → call_code (functions_of helpers.entry.functions.now) name arguments level depth site ≡ found_code helpers.entry.functions.now result arguments level depth site }
    ensures value { result_in (functions_of helpers.entry.functions.now) name ≡ found_result result }
    ensures sites { inside helpers.entry.functions.now name ≡ found_sites helpers.entry.functions.now result }
    ensures named { IfSome result (λ found. found.function.now.name ≡ name) }
    ensures within { IfSome result (λ found. found.place < length helpers.entry.functions.now) }
    ensures there { IfSome result (λ found. found.function.now ≡ get_or helpers.entry.functions.now found.place found.function.now) }
{
    let functions = helpers.functions;
    let end = end_of(helpers, name);
    for i in 0..end {
        let place = end - 1 - i;
        let function = &functions[place];
        if name == function.name {
            return Some(FoundFunction { place, function });
        }
    }
    None
}

/// One more than the greatest number of a function's name.
fn name_end(functions: &[Function]) -> usize
    ensures { (i : ℕ) (f : Function) → i < length functions.now → f ≡ get_or functions.now i f → f.name < result }
{
    let mut end = 0;
    for function in functions {
        end = end.max(function.name as usize + 1);
    }
    end
}

/// The end of each name among functions: how many of them there are up to the last that has it, and 0 where none has
/// it. Err if out of memory.
pub fn ends_of(alloc: Global, functions: &[Function]) -> Result<Vec<usize>, AllocError>
    ensures { IfOk result (λ ends. EndsKnown functions.now ends.items) }
{
    let mut ends = vec![in alloc; 0; name_end(functions)]?;
    for i in 0..functions.len() {
        ends[functions[i].name as usize] = i + 1;
    }
    Ok(ends)
}
