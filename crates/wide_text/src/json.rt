//! What is told of a script, as JSON, by the kit's `serde_json`.
#![tactic(auto)]

ghost use Rattle.std.specs.Prelude.{◌≡◌, ◌++◌, [], ◌∷◌, string_bytes, IfOk};
ghost use Rattle.serde_json.specs.Data.{Data};
ghost use Rattle.serde_json.specs.View.{view};
ghost use Rattle.serde_json.specs.Written.{compact_text};
ghost use Rattle.wide_text.specs.Members.{number_data, text_data, code_data, deciding_data, buffer_data, argument_data, holds_data, launch_data, script_with, script_data, report_data, list_data, or_null, source_word};

use crate::data::{FreeBuffer, WideLaunch, WideReport};
use crate::text::whole_text;
use explanation::Code;
use serde_json::{Value, json};
use std::alloc::{AllocError, Global};
use wide_sources::{Deciding, FreeArgument, why_word};

/// The version of the members' names and meanings. A member more doesn't change it.
const VERSION: u32 = 1;

/// What has a value in JSON.
trait ToJson {
    /// This value
    ghost json: { Self → Data };

    /// Makes it. An error is out of memory.
    fn to_json(&self, alloc: Global) -> Result<Value, AllocError>
        ensures { IfOk result (λ value. view value ≡ json self.now) };
}

impl ToJson for usize {
    ghost json = { number_data };

    fn to_json(&self, _alloc: Global) -> Result<Value, AllocError> {
        Ok(Value::from(*self))
    }
}

impl ToJson for String {
    ghost json = { text_data };

    fn to_json(&self, alloc: Global) -> Result<Value, AllocError> {
        Value::try_from_str(alloc, self.as_str())
    }
}

impl ToJson for Code {
    ghost json = { code_data };

    fn to_json(&self, alloc: Global) -> Result<Value, AllocError> {
        let (offset, length, line) = (self.offset, self.length, self.line);
        let (column, script_line) = (self.column, self.script_line);
        let text = self.text.as_str();
        json!(in alloc; {
            "text": text, "script_line": script_line, "offset": offset, "line": line, "length": length, "column": column
        })
    }
}

impl ToJson for FreeBuffer {
    ghost json = { buffer_data };

    fn to_json(&self, alloc: Global) -> Result<Value, AllocError> {
        let name = self.name.as_str();
        let from = or_null(alloc, &self.from)?;
        json!(in alloc; {"name": name, "from": from})
    }
}

impl ToJson for FreeArgument {
    ghost json = { argument_data };

    fn to_json(&self, alloc: Global) -> Result<Value, AllocError> {
        let (index, name) = (self.index, self.name.as_str());
        json!(in alloc; {"name": name, "index": index})
    }
}

/// What decides, in a word: an argument, where it has an index.
fn source_word(index: Option<usize>) -> &'static str
    ensures { result.now ≡ source_word index }
{
    match index {
        Some(_) => "argument",
        None => "buffer",
    }
}

impl ToJson for Deciding {
    ghost json = { deciding_data };

    fn to_json(&self, alloc: Global) -> Result<Value, AllocError> {
        let (name, why, source) = (
            self.name.as_str(),
            why_word(self.why),
            source_word(self.index),
        );
        let index = or_null(alloc, &self.index)?;
        let spot = or_null(alloc, &self.code)?;
        let file = or_null(alloc, &self.file)?;
        json!(in alloc; {
            "why": why, "spot": spot, "source": source, "name": name, "index": index, "file": file
        })
    }
}

/// For what the reply to a launch holds, as a value. An error is out of memory.
fn holds_value(alloc: Global, launch: &WideLaunch) -> Result<Value, AllocError>
    ensures { IfOk result (λ value. view value ≡ holds_data launch.now) }
{
    let arguments = list_value(alloc, launch.arguments.as_slice())?;
    let buffers = list_value(alloc, launch.buffers.as_slice())?;
    json!(in alloc; {"buffers": buffers, "arguments": arguments})
}

impl ToJson for WideLaunch {
    ghost json = { launch_data };

    fn to_json(&self, alloc: Global) -> Result<Value, AllocError> {
        let (command, script_line, reply) = (self.command, self.script_line, self.reply.as_str());
        let deciding = list_value(alloc, self.deciding.as_slice())?;
        let holds = holds_value(alloc, self)?;
        json!(in alloc; {
            "script_line": script_line, "reply": reply, "holds_for": holds, "deciding": deciding, "command": command
        })
    }
}

/// A value, or null, where there is none. An error is out of memory.
fn or_null<T: ToJson>(alloc: Global, it: &Option<T>) -> Result<Value, AllocError>
    ensures { IfOk result (λ value. view value ≡ or_null T.json it.now) }
{
    match it {
        Some(it) => it.to_json(alloc),
        None => Ok(Value::Null),
    }
}

/// A list as an array of its values, in their order. An error is out of memory.
fn list_value<T: ToJson>(alloc: Global, list: &[T]) -> Result<Value, AllocError>
    ensures { IfOk result (λ value. view value ≡ list_data T.json list.now) }
{
    let mut values = Vec::new(alloc);
    for it in list {
        values.push(it.to_json(alloc)?)?;
    }
    Ok(Value::Array(values))
}

/// The script as a whole with its last line, as a value. An error is out of memory.
fn script_with(alloc: Global, text: &str, report: &WideReport) -> Result<Value, AllocError>
    ensures { IfOk result (λ value. view value ≡ script_with text.now report.now) }
{
    let clean = report.clean;
    let free = list_value(alloc, report.free.as_slice())?;
    let reads = list_value(alloc, report.reads.as_slice())?;
    json!(in alloc; {"text": text, "reads": reads, "free": free, "clean": clean})
}

/// The script as a whole, as a value. An error is out of memory.
fn script_value(alloc: Global, report: &WideReport) -> Result<Value, AllocError>
    ensures { IfOk result (λ value. view value ≡ script_data report.now) }
{
    let free = report.free.as_slice();
    let reads = report.reads.as_slice();
    let text = whole_text(alloc, report.clean, free, reads)?;
    script_with(alloc, text.as_str(), report)
}

/// What is told of a script, as a value. An error is out of memory.
fn report_value(alloc: Global, report: &WideReport) -> Result<Value, AllocError>
    ensures { IfOk result (λ value. view value ≡ report_data report.now) }
{
    let launches = list_value(alloc, report.launches.as_slice())?;
    let script = script_value(alloc, report)?;
    let version = VERSION;
    json!(in alloc; {"version": version, "script": script, "launches": launches})
}

/// What is told of a script, as one line of JSON. An error is out of memory.
pub fn json_of(alloc: Global, report: &WideReport) -> Result<String, AllocError>
    ensures { IfOk result (λ text. string_bytes text ≡ compact_text (report_data report.now) ++ 10 ∷ []) }
{
    let value = report_value(alloc, report)?;
    let mut text = value.to_string(alloc)?;
    text.push('\n')?;
    Ok(text)
}
