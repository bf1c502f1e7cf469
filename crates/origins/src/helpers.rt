//! The helpers that a function can call.
#![tactic(auto)]

ghost use Rattle.std.specs.Prelude.{◌≡◌, ◌<◌, ◌++◌, ℕ, List, length, IfSome};
ghost use Rattle.lower_code.specs.Code.{result_in};
ghost use Rattle.lower_code.specs.Emission.{functions_of};
ghost use Rattle.origins.specs.Origins.{Node as NodeOf, Origin, call_origins, node_of};
ghost use Rattle.origins.specs.Origins as origins;
ghost use Rattle.origins.specs.Walks.{Walks};
ghost use Rattle.origins.specs.Settings.{inside_in, calls_in, results_in};
ghost use Rattle.origins.specs.Helpers.{found_origins, found_type};

use crate::node::{Entered, Node, WalkEnd, pass_own};
use crate::setting::Setting;
use clmodel::tree::Function;

/// The place of the last function of a name.
pub fn find(functions: &[Function], name: u32) -> Option<usize>
    ensures code { (call : NodeOf) → call_origins (functions_of functions.now) call name ≡ found_origins functions.now result call }
    ensures value { result_in (functions_of functions.now) name ≡ found_type functions.now result }
    ensures within { IfSome result (λ place. place < length functions.now) }
{
    for i in 0..functions.len() {
        let place = functions.len() - 1 - i;
        let function = &functions[place];
        if name == function.name {
            return Some(place);
        }
    }
    None
}

/// Passes the call of a helper by a node. The walk goes on in the helper where the wanted instruction stands there.
pub fn pass_call<'a>(
    setting: Setting<'_>,
    call: Node<'a>,
    name: u32,
    left: usize,
) -> Result<usize, WalkEnd<'a>>
    ensures { Walks (inside_in setting.entry) (calls_in setting.entry (node_of call.entry) name) left result }
{
    let Some(place) = find(setting.functions, name) else {
        return pass_own(call, 1, left);
    };
    let Some(length) = setting.lengths[place] else {
        return Err(WalkEnd::Lost);
    };
    if left < length {
        return Err(WalkEnd::Inside(Entered {
            call: call.at(),
            place,
            left,
        }));
    }
    Ok(left - length)
}

/// What a walk passed, and then the call of a helper by a node.
pub fn then_call<'a>(
    passed: Result<usize, WalkEnd<'a>>,
    setting: Setting<'_>,
    call: Node<'a>,
    name: u32,
) -> Result<usize, WalkEnd<'a>>
    ensures { (xs : List Origin) (n : ℕ) → Walks (inside_in setting.entry) xs n passed.entry → Walks (inside_in setting.entry) (xs ++ calls_in setting.entry (node_of call.entry) name) n result }
{
    match passed {
        Ok(left) => pass_call(setting, call, name, left),
        Err(halt) => Err(halt),
    }
}

/// How many instructions end the item where the value of a helper is needed and it has none.
pub fn needed_count(setting: Setting<'_>, name: u32) -> usize
    ensures { result ≡ origins.needed_count (results_in setting.entry name) }
{
    match find(setting.functions, name) {
        Some(place) => match setting.functions[place].result {
            Some(_) => 0,
            None => 1,
        },
        None => 1,
    }
}
