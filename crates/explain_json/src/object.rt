//! Objects, made member by member.
#![tactic(auto)]

ghost use Rattle.std.specs.Prelude.{◌≡◌, List, ℕ, IfOk};
ghost use Rattle.serde_json.specs.Data.{Data, Members, no_members, object, put, string};
ghost use Rattle.serde_json.specs.View.{view, members_view};
ghost use Rattle.explain_json.specs.Object.{Has, Adds};

use crate::values::ToJson;
use serde_json::{Map, Value};
use std::alloc::{AllocError, Global};

/// An object in the making, or that there was no memory for it. Its members come from the last name to the first.
#[derive(Drop)]
pub(crate) struct Object {
    alloc: Global,
    members: Result<Map<String, Value>, AllocError>,
}

/// Members with one more.
fn longer(
    alloc: Global,
    members: Result<Map<String, Value>, AllocError>,
    name: &str,
    value: Result<Value, AllocError>,
) -> Result<Map<String, Value>, AllocError>
    ensures { (ms : Members) (d : Data) → IfOk members (λ map. members_view map.entries ≡ ms) → IfOk value (λ v. view v ≡ d)
        → IfOk result (λ map. members_view map.entries ≡ put name.now d ms) }
{
    let mut map = members?;
    serde_json::put(&mut map, alloc, name, value?)?;
    Ok(map)
}

impl Object {
    /// An object without members.
    pub(crate) fn new(alloc: Global) -> Self
        ensures { Has result no_members }
    {
        Object {
            alloc,
            members: Ok(Map::new(alloc)),
        }
    }

    /// The object with one member more.
    pub(crate) fn with<T: ToJson>(self, name: &str, member: &T) -> Self
        ensures { Adds self name.now (T.json member.now) result }
    {
        let value = member.to_json(self.alloc);
        self.with_value(name, value)
    }

    /// The same for a text.
    pub(crate) fn with_text(self, name: &str, text: &str) -> Self
        ensures { (t : List ℕ) → text.now ≡ t → Adds self name.now (string t) result }
    {
        let value = Value::try_from_str(self.alloc, text);
        self.with_value(name, value)
    }

    /// The same for a value, if there was memory for it.
    pub(crate) fn with_value(self, name: &str, value: Result<Value, AllocError>) -> Self
        ensures { (d : Data) → IfOk value (λ v. view v ≡ d) → Adds self name.now d result }
    {
        let Object { alloc, members } = self;
        Object {
            alloc,
            members: longer(alloc, members, name, value),
        }
    }

    /// The object as a value, if there was memory for it.
    pub(crate) fn finish(self) -> Result<Value, AllocError>
        ensures { (ms : Members) → Has self ms → IfOk result (λ value. view value ≡ object ms) }
    {
        Ok(Value::Object(self.members?))
    }
}
