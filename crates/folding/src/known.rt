//! What is known of an expression.
#![tactic(auto)]

ghost use Rattle.std.specs.Prelude.{◌≡◌, None, Some};
ghost use Rattle.clnum.specs.declared.int_type.IntType.TheVariants as integer;
ghost use Rattle.clmodel.specs.declared.tree.VariableType.TheVariants as kinds;

use clmodel::tree::VariableType;
use clnum::{IntType, Value};

/// What is known of an expression before it runs: its type, and its value where it is constant.
#[derive(Clone, Copy)]
pub struct Known {
    pub kind: VariableType,
    pub constant: Option<Value>,
}

impl Known {
    /// A number.
    pub fn number(value: Value) -> Self
        ensures kind { result.kind ≡ kinds.Integer value.kind }
        ensures constant { result.constant ≡ Some value }
    {
        Known {
            kind: VariableType::Integer(value.kind()),
            constant: Some(value),
        }
    }

    /// An expression of a type that isn't constant.
    pub fn varying(kind: VariableType) -> Self
        ensures kind { result.kind ≡ kind }
        ensures constant { result.constant ≡ None }
    {
        Known {
            kind,
            constant: None,
        }
    }
}

/// What stands where nothing is known yet: an int that isn't constant.
impl Default for Known {
    fn default() -> Self
        ensures kind { result.kind ≡ kinds.Integer integer.Int }
        ensures constant { result.constant ≡ None }
    {
        Known::varying(VariableType::Integer(IntType::Int))
    }
}
