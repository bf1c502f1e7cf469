//! Places in the source.
#![tactic(auto)]

ghost use Rattle.std.specs.Prelude.{◌≡◌};
ghost use Rattle.explain_json.specs.Members.{node_word, call_data, loop_data, spot_data, code_data};

use crate::object::Object;
use crate::values::ToJson;
use explanation::{CallSite, Code, LoopSite, NodeKind, Spot};
use serde_json::Value;
use std::alloc::{AllocError, Global};

/// The word of what stands at a place in the source.
fn node_word(node: NodeKind) -> &'static str
    ensures { result.now ≡ node_word node }
{
    match node {
        NodeKind::Operand => "operand",
        NodeKind::Element => "element",
        NodeKind::Dereference => "dereference",
        NodeKind::Call => "call",
        NodeKind::Operation => "operation",
        NodeKind::Declaration => "declaration",
        NodeKind::Assignment => "assignment",
        NodeKind::Loop => "loop",
        NodeKind::Statement => "statement",
        NodeKind::Function => "function",
    }
}

impl ToJson for CallSite {
    ghost json = { call_data };

    fn to_json(&self, alloc: Global) -> Result<Value, AllocError> {
        Object::new(alloc)
            .with("text", &self.text)
            .with("script_line", &self.script_line)
            .with("offset", &self.offset)
            .with("line", &self.line)
            .with("column", &self.column)
            .finish()
    }
}

impl ToJson for LoopSite {
    ghost json = { loop_data };

    fn to_json(&self, alloc: Global) -> Result<Value, AllocError> {
        Object::new(alloc)
            .with("turn", &self.turn)
            .with("script_line", &self.script_line)
            .with("offset", &self.offset)
            .with("line", &self.line)
            .with("column", &self.column)
            .finish()
    }
}

/// A place, with the calls and loops round it.
impl ToJson for Spot {
    ghost json = { spot_data };

    fn to_json(&self, alloc: Global) -> Result<Value, AllocError> {
        Object::new(alloc)
            .with("text", &self.text)
            .with("script_line", &self.script_line)
            .with("offset", &self.offset)
            .with_text("node", node_word(self.node))
            .with("loops", &self.loops)
            .with("line", &self.line)
            .with("length", &self.length)
            .with("column", &self.column)
            .with("calls", &self.calls)
            .finish()
    }
}

/// A place in short.
impl ToJson for Code {
    ghost json = { code_data };

    fn to_json(&self, alloc: Global) -> Result<Value, AllocError> {
        Object::new(alloc)
            .with("text", &self.text)
            .with("script_line", &self.script_line)
            .with("offset", &self.offset)
            .with("line", &self.line)
            .with("length", &self.length)
            .with("column", &self.column)
            .finish()
    }
}
