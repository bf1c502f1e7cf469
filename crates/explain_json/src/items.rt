//! Work-items.
#![tactic(auto)]

ghost use Rattle.std.specs.Prelude.{◌≡◌, IfOk};
ghost use Rattle.serde_json.specs.View.{view};
ghost use Rattle.explain_json.specs.Members.{does_word, barrier_data, item_data};

use crate::object::Object;
use crate::values::ToJson;
use explanation::{Does, NamedItem};
use fault_lines::kind_word;
use serde_json::Value;
use std::alloc::{AllocError, Global};

/// The word of what an item does, which for an access is that of its kind.
fn does_word(does: &Does) -> &'static str
    ensures { result.now ≡ does_word does.now }
{
    match does {
        Does::Access(kind) => kind_word(*kind),
        Does::Waits { .. } => "waits",
        Does::Ended => "ended",
        Does::Fails => "fails",
    }
}

/// The barrier at which an item waits, with the turns of the loops round it, or null.
fn barrier_value(alloc: Global, does: &Does) -> Result<Value, AllocError>
    ensures { IfOk result (λ value. view value ≡ barrier_data does.now) }
{
    let Does::Waits { barrier, turns } = does else {
        return Ok(Value::Null);
    };
    Object::new(alloc)
        .with("turns", turns)
        .with("number", barrier)
        .finish()
}

impl ToJson for NamedItem {
    ghost json = { item_data };

    fn to_json(&self, alloc: Global) -> Result<Value, AllocError> {
        Object::new(alloc)
            .with("spot", &self.spot)
            .with("local_id", &self.ids.local)
            .with("last_access", &self.last)
            .with("item", &self.item)
            .with("group_id", &self.ids.group)
            .with("global_id", &self.ids.global)
            .with("event", &self.event)
            .with_text("does", does_word(&self.does))
            .with_value("barrier", barrier_value(alloc, &self.does))
            .finish()
    }
}
