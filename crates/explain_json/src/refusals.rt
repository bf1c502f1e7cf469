//! A source that doesn't build, as JSON, by the kit's `serde_json`: its fault, where it lies, and what to write. What
//! it writes is the writer's text of the value that was made of the refusal, whose member `version` is 3.
#![tactic(auto)]

ghost use Rattle.std.specs.Prelude.{◌≡◌, string_bytes, option_copied, IfOk};
ghost use Rattle.serde_json.specs.View.{view};
ghost use Rattle.explain_json.specs.RefusalMembers.{fault_data, spot_data, hints_data, refusal_data, IsRefusedLine};

use crate::whole::VERSION;
use build_hints::{Refusal, Refused, refusal_of};
use serde_json::{Value, json};
use std::alloc::{AllocError, Global};

/// The fault of a refusal as a JSON value: its kind, its number and its name.
fn fault_value(alloc: Global, refusal: &Refusal) -> Result<Value, AllocError>
    ensures { IfOk result (λ value. view value ≡ fault_data refusal.now) }
{
    let (kind, number, name) = (refusal.kind, refusal.number, refusal.name);
    json!(in alloc; {"number": number, "name": name, "kind": kind})
}

/// The place of a refusal in its source as a JSON value, with the text of its line.
fn spot_value(alloc: Global, refusal: &Refusal) -> Result<Value, AllocError>
    ensures { IfOk result (λ value. view value ≡ spot_data refusal.now) }
{
    let (offset, length, line) = (refusal.offset, refusal.length, refusal.line);
    let (column, script_line) = (refusal.column, refusal.script_line);
    let text = refusal.text.as_str();
    json!(in alloc; {
        "text": text, "script_line": script_line, "offset": offset, "line": line, "length": length, "column": column
    })
}

/// The hints, of which there is one at most.
fn hints_value(alloc: Global, hint: Option<&'static str>) -> Result<Value, AllocError>
    ensures { IfOk result (λ value. view value ≡ hints_data (option_copied hint.entry)) }
{
    let mut values = Vec::new(alloc);
    if let Some(hint) = hint {
        values.push(Value::try_from_str(alloc, hint)?)?;
    }
    Ok(Value::Array(values))
}

/// A refusal of a source of a file of this name as a JSON value.
pub fn refusal_value(alloc: Global, name: &str, refusal: &Refusal) -> Result<Value, AllocError>
    ensures { IfOk result (λ value. view value ≡ refusal_data name.now refusal.now) }
{
    let (version, kind, title) = (VERSION, "refusal", refusal.title);
    let fault = fault_value(alloc, refusal)?;
    let spot = spot_value(alloc, refusal)?;
    let hints = hints_value(alloc, refusal.hint)?;
    json!(in alloc; {
        "version": version, "title": title, "spot": spot, "script": name, "kind": kind, "hints": hints, "fault": fault
    })
}

/// A fault of a source as one line of JSON. The source begins at this line of the file that is named. A place past the
/// end stands for the end. An error is out of memory. It takes the time of the source.
pub fn refused_json(
    alloc: Global,
    name: &str,
    source: &[u8],
    first_line: usize,
    fault: Refused,
) -> Result<String, AllocError>
    ensures { IfOk result (λ json. IsRefusedLine name.now source.now first_line fault (string_bytes json)) }
{
    let refusal = refusal_of(alloc, source, first_line, fault)?;
    let value = refusal_value(alloc, name, &refusal)?;
    let mut text = value.to_string(alloc)?;
    text.push('\n')?;
    Ok(text)
}
