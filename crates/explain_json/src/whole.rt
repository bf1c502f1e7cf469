//! An explanation as a whole.
#![tactic(auto)]

ghost use Rattle.std.specs.Prelude.{IfOk, string_bytes};
ghost use Rattle.serde_json.specs.View.{view};
ghost use Rattle.explain_json.specs.Lines.{IsExplanationData, IsExplanationLine};
ghost use Rattle.explain_json.specs.Members.{launch_data, fault_data};

use crate::object::Object;
use crate::reasons::reasons_value;
use crate::values::ToJson;
use explanation::{Explanation, FaultFacts, LaunchFacts};
use serde_json::Value;
use std::alloc::{AllocError, Global};

/// The version of the members' names and meanings, also of those of a refusal. A member more doesn't change it.
pub(crate) const VERSION: u32 = 3;

impl ToJson for LaunchFacts {
    ghost json = { launch_data };

    fn to_json(&self, alloc: Global) -> Result<Value, AllocError> {
        Object::new(alloc)
            .with("uniform", &self.uniform)
            .with("text", &self.text)
            .with("script_line", &self.script_line)
            .with("program", &self.program)
            .with("orders", &self.orders)
            .with("offset", &self.offset)
            .with("local_size", &self.local_size)
            .with("kernel", &self.kernel)
            .with("global_size", &self.global_size)
            .with("function", &self.function)
            .with("command", &self.command)
            .with("budget", &self.budget)
            .finish()
    }
}

impl ToJson for FaultFacts {
    ghost json = { fault_data };

    fn to_json(&self, alloc: Global) -> Result<Value, AllocError> {
        Object::new(alloc)
            .with("number", &self.number)
            .with("name", &self.name)
            .with("line", &self.line)
            .finish()
    }
}

/// An explanation, whose source stands in a file of this name, as a JSON value.
pub fn value_of(alloc: Global, whole: &Explanation, source: &str) -> Result<Value, AllocError>
    ensures { IfOk result (λ value. IsExplanationData whole.now source.now (view value)) }
{
    let why = reasons_value(alloc, whole.why.as_slice())?;
    Object::new(alloc)
        .with_value("why", Ok(why))
        .with("version", &VERSION)
        .with("steps", &whole.steps)
        .with_text("source", source)
        .with("script", &whole.script)
        .with("schedule", &whole.schedule)
        .with("memory", &whole.memory)
        .with("launch", &whole.launch)
        .with("items", &whole.items)
        .with("fault", &whole.fault)
        .finish()
}

/// An explanation, whose source stands in a file of this name, as one line of JSON, which the writer makes of its
/// value, and which reads back as this value.
pub fn json_of(alloc: Global, whole: &Explanation, source: &str) -> Result<String, AllocError>
    ensures { IfOk result (λ json. IsExplanationLine whole.now source.now (string_bytes json)) }
{
    let value = value_of(alloc, whole, source)?;
    let mut text = value.to_string(alloc)?;
    text.push('\n')?;
    Ok(text)
}
