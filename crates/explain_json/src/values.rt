//! Values of numbers, texts and lists.
#![tactic(auto)]

ghost use Rattle.std.specs.Prelude.{◌≡◌, IfOk};
ghost use Rattle.serde_json.specs.Data.{Data, boolean};
ghost use Rattle.serde_json.specs.View.{view};
ghost use Rattle.explain_json.specs.Members.{number_data, text_data, list_data, or_null};

use serde_json::Value;
use std::alloc::{AllocError, Global};

/// What has a value in JSON.
pub(crate) trait ToJson {
    /// This value
    ghost json: { Self → Data };

    /// Makes it. An error is out of memory.
    fn to_json(&self, alloc: Global) -> Result<Value, AllocError>
        ensures { IfOk result (λ value. view value ≡ json self.now) };
}

impl ToJson for bool {
    ghost json = { boolean };

    fn to_json(&self, _alloc: Global) -> Result<Value, AllocError> {
        Ok(Value::from(*self))
    }
}

impl ToJson for u32 {
    ghost json = { number_data };

    fn to_json(&self, _alloc: Global) -> Result<Value, AllocError> {
        Ok(Value::from(*self))
    }
}

impl ToJson for u64 {
    ghost json = { number_data };

    fn to_json(&self, _alloc: Global) -> Result<Value, AllocError> {
        Ok(Value::from(*self))
    }
}

impl ToJson for usize {
    ghost json = { number_data };

    fn to_json(&self, _alloc: Global) -> Result<Value, AllocError> {
        Ok(Value::from(*self))
    }
}

impl ToJson for String {
    ghost json = { text_data };

    fn to_json(&self, alloc: Global) -> Result<Value, AllocError> {
        Value::try_from_str(alloc, self.as_str())
    }
}

/// Null, where there is none.
impl<T: ToJson> ToJson for Option<T> {
    ghost json = { or_null T.json };

    fn to_json(&self, alloc: Global) -> Result<Value, AllocError> {
        match self {
            Some(it) => it.to_json(alloc),
            None => Ok(Value::Null),
        }
    }
}

impl<T: ToJson> ToJson for Vec<T> {
    ghost json = { λ list. list_data T.json list.items };

    fn to_json(&self, alloc: Global) -> Result<Value, AllocError> {
        list_value(alloc, self.as_slice())
    }
}

/// A list as an array of its values, in their order.
fn list_value<T: ToJson>(alloc: Global, list: &[T]) -> Result<Value, AllocError>
    ensures { IfOk result (λ value. view value ≡ list_data T.json list.now) }
{
    let mut values = Vec::new(alloc);
    for it in list {
        values.push(it.to_json(alloc)?)?;
    }
    Ok(Value::Array(values))
}
