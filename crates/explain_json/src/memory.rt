//! The memory that a fault is about.
#![tactic(auto)]

ghost use Rattle.std.specs.Prelude.{◌≡◌, IfOk};
ghost use Rattle.serde_json.specs.View.{view};
ghost use Rattle.explain_json.specs.Members.{or_null, memory_word, parameter_data, group_of, element_data, memory_data};

use crate::object::Object;
use crate::values::ToJson;
use explanation::{Memory, MemoryKind, ParameterFacts};
use serde_json::Value;
use std::alloc::{AllocError, Global};

impl ToJson for ParameterFacts {
    ghost json = { parameter_data };

    fn to_json(&self, alloc: Global) -> Result<Value, AllocError> {
        Object::new(alloc)
            .with("type", &self.type_name)
            .with("name", &self.name)
            .with("index", &self.index)
            .with("element", &self.element)
            .finish()
    }
}

/// The word of a kind of memory.
fn kind_word(kind: MemoryKind) -> &'static str
    ensures { result.now ≡ memory_word kind }
{
    match kind {
        MemoryKind::Buffer => "buffer",
        MemoryKind::Local(_) => "local",
        MemoryKind::Private => "private",
        MemoryKind::Variable => "variable",
    }
}

/// The group of a local object. Other memory has none.
fn group_of(kind: MemoryKind) -> Option<u64>
    ensures { result ≡ group_of kind }
{
    match kind {
        MemoryKind::Local(group) => Some(u64::from(group)),
        MemoryKind::Buffer | MemoryKind::Private | MemoryKind::Variable => None,
    }
}

/// An element as text, since readers of JSON may keep 53 bits of a number alone; or null.
fn element_value(alloc: Global, element: Option<i64>) -> Result<Value, AllocError>
    ensures { IfOk result (λ value. view value ≡ or_null element_data element) }
{
    match element {
        Some(element) => Ok(Value::String(format!(in alloc; "{element}")?)),
        None => Ok(Value::Null),
    }
}

impl ToJson for Memory {
    ghost json = { memory_data };

    fn to_json(&self, alloc: Global) -> Result<Value, AllocError> {
        Object::new(alloc)
            .with("parameters", &self.parameters)
            .with("name", &self.name)
            .with_text("kind", kind_word(self.kind))
            .with("group", &group_of(self.kind))
            .with_value("element", element_value(alloc, self.element))
            .with("bytes", &self.size)
            .with("byte", &self.byte)
            .finish()
    }
}
