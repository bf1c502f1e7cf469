//! The declarations of private arrays.
#![tactic(auto)]

use clmodel::text::Name;
use clmodel::tree::Statement;
use explain_items::Context;
use fault_play::Stand;
use source_spots::{DEPTH, function_at, inside, last_begun, statement_at};
use std::alloc::AllocError;

/// A private array: how many elements it has, and how many bytes each of them has.
#[derive(Clone, Copy)]
pub struct PrivateArray {
    pub length: u64,
    pub width: u64,
}

impl PrivateArray {
    /// How many bytes it has.
    pub fn bytes(self) -> u64 {
        self.length.saturating_mul(self.width)
    }
}

/// An array's name, as it is looked for in a tree with these names, and where it is used.
#[derive(Clone, Copy)]
struct Wanted<'a> {
    names: &'a [Name],
    name: &'a Name,
    at: u32,
}

/// Whether a number stands for the name of the wanted array.
fn is_named(wanted: &Wanted<'_>, number: u32) -> bool {
    match wanted.names.get(number as usize) {
        Some(name) => name == wanted.name,
        None => false,
    }
}

/// The wanted array, if a statement declares it.
fn declared(statement: &Statement, wanted: &Wanted<'_>) -> Option<PrivateArray> {
    match statement {
        Statement::DeclareArray {
            element,
            name,
            length,
            ..
        } => {
            if !is_named(wanted, *name) {
                return None;
            }
            Some(PrivateArray {
                length: length.natural(),
                width: u64::from(element.bits() / 8),
            })
        }
        _ => None,
    }
}

/// The wanted array, if one of the statements declares it that begin before it is used; else the known one.
fn declared_in(
    body: &[Statement],
    wanted: &Wanted<'_>,
    known: Option<PrivateArray>,
) -> Option<PrivateArray> {
    let mut found = known;
    for statement in body {
        if statement_at(statement) > wanted.at {
            return found;
        }
        if let Some(array) = declared(statement, wanted) {
            found = Some(array);
        }
    }
    found
}

/// The wanted array, as the innermost declaration round its use declares it.
fn array_in(body: &[Statement], wanted: &Wanted<'_>) -> Option<PrivateArray> {
    let mut found = declared_in(body, wanted, None);
    let mut next = last_begun(body, wanted.at);
    for _ in 0..DEPTH {
        let Some(statement) = next else {
            return found;
        };
        if let Statement::Block { body, .. } = statement {
            found = declared_in(body.as_slice(), wanted, found);
        }
        next = inside(statement, wanted.at);
    }
    found
}

/// The private array of a name that is used where an item stands, if its declaration is found. An error is out of
/// memory.
pub fn array_of(
    context: &Context<'_>,
    stand: Option<&Stand>,
    name: &Name,
) -> Result<Option<PrivateArray>, AllocError> {
    let Some(stand) = stand else {
        return Ok(None);
    };
    let Some(origin) = context.origin(stand.place)? else {
        return Ok(None);
    };
    let tree = context.launch.tree();
    let at = origin.node.at();
    let wanted = Wanted {
        names: tree.names.as_slice(),
        name,
        at,
    };
    match function_at(tree.functions.as_slice(), at) {
        Some(function) => Ok(array_in(function.body.as_slice(), &wanted)),
        None => Ok(None),
    }
}
