//! An explanation as a whole.
#![tactic(auto)]

ghost use Rattle.std.specs.Prelude.{◌≡◌, ◌+◌, ◌++◌, List, ℕ, codes, decimal, length, string_bytes, IfOk, OnOk};
ghost use Rattle.explain_text.specs.Texts.{AddsLines, AreLines, AreSentences, IsOneLine, IsText, IsWorded, parameters_of};

use crate::items::items_text;
use crate::lines::{one_line, push_both, push_line};
use crate::reasons::reason_text;
use crate::steps::{plural, steps_text};
use clmodel::access::AccessKind;
use explanation::{
    Does, Explanation, LaunchFacts, Memory, MemoryKind, NamedItem, ParameterFacts, Reason,
};
use std::alloc::{AllocError, Global};
use std::fmt::Write;

/// Whether an item fetches: the value that it gets, or what its exchange leaves, shows which access comes first.
fn fetches(item: &NamedItem) -> bool {
    match &item.does {
        Does::Access(kind) => *kind == AccessKind::Fetch,
        _ => false,
    }
}

/// What the order of two atomic operations is called.
fn order_title(items: &[NamedItem]) -> &'static str {
    for item in items {
        if fetches(item) {
            return "order: an atomic operation that shows the order";
        }
    }
    "order: two atomic operations of different kinds"
}

/// What a fault is called, by its number in a reply.
fn title_of(number: u32, items: &[NamedItem]) -> &'static str {
    match number {
        1 => "race",
        2 => order_title(items),
        3 => "divergence at a barrier",
        4 => "out of bounds",
        5 => "unset",
        6 => "division by zero",
        7 => "division whose quotient does not fit",
        _ => "budget used up",
    }
}

/// Adds the name of memory.
fn push_memory_name(memory: &Memory, out: &mut String) -> Result<(), AllocError> {
    let name = memory.name.as_str();
    match memory.kind {
        MemoryKind::Buffer => write!(out, "buffer {name}"),
        MemoryKind::Local(group) => write!(out, "local memory {name} of group {group}"),
        MemoryKind::Private => write!(out, "private array {name}"),
        MemoryKind::Variable => write!(out, "variable {name}"),
    }
}

/// Adds the place in memory that a fault is about.
fn push_memory(memory: &Memory, out: &mut String) -> Result<(), AllocError> {
    out.push_str(", ")?;
    if let Some(byte) = memory.byte {
        write!(out, "byte {byte} of ")?;
    }
    if let Some(element) = memory.element {
        write!(out, "element {element} of ")?;
    }
    push_memory_name(memory, out)?;
    if let Some(size) = memory.size {
        let s = plural(size);
        write!(out, " ({size} byte{s})")?;
    }
    Ok(())
}

/// What a fault is called, and the place in memory that it is about, in one line.
fn title_text(alloc: Global, whole: &Explanation) -> Result<String, AllocError>
    ensures { IfOk result (λ text. IsOneLine (string_bytes text)) }
{
    let mut out = String::new(alloc);
    out.push_str(title_of(whole.fault.number, whole.items.as_slice()))?;
    if let Some(memory) = &whole.memory {
        push_memory(memory, &mut out)?;
    }
    one_line(alloc, out.as_str())
}

/// The line of a launch.
fn launch_line(alloc: Global, launch: &LaunchFacts) -> Result<String, AllocError> {
    let (function, kernel) = (launch.function.as_str(), launch.kernel.as_str());
    let (line, text) = (launch.script_line, launch.text.as_str());
    format!(in alloc; "  in kernel {function} ({kernel}), line {line} of the script: {text}")
}

/// The line of a parameter, with the element in which a byte lies.
fn parameter_line(
    alloc: Global,
    byte: Option<u64>,
    parameter: &ParameterFacts,
) -> Result<String, AllocError> {
    let (index, name) = (parameter.index, parameter.name.as_str());
    let type_name = parameter.type_name.as_str();
    let mut out = String::new(alloc);
    write!(out, "  argument {index} of the kernel: {type_name} {name}")?;
    if let (Some(byte), Some(element)) = (byte, parameter.element) {
        write!(out, ": byte {byte} lies in element {element}")?;
    }
    Ok(out)
}

/// Adds the parameters whose argument memory is, each with the element in which a byte lies.
fn push_parameters(
    alloc: Global,
    byte: Option<u64>,
    parameters: &[ParameterFacts],
    out: &mut String,
) -> Result<(), AllocError>
    ensures { OnOk result (AddsLines (length parameters.now) (string_bytes out.old) (string_bytes out.new)) }
{
    for parameter in parameters {
        let line = parameter_line(alloc, byte, parameter)?;
        push_line(alloc, line.as_str(), out)?;
    }
    Ok(())
}

/// The parameters whose argument the memory is, if there is any.
fn parameters_of(memory: &Option<Memory>) -> &[ParameterFacts]
    ensures { result.now ≡ parameters_of memory.now }
{
    match memory {
        Some(memory) => memory.parameters.as_slice(),
        None => &[],
    }
}

/// The byte of memory that a fault is about, if it is about one.
fn byte_of(memory: &Option<Memory>) -> Option<u64> {
    match memory {
        Some(memory) => memory.byte,
        None => None,
    }
}

/// The lines below the title: the launch, and the parameters whose argument the memory is.
fn launch_text(alloc: Global, whole: &Explanation) -> Result<String, AllocError>
    ensures { IfOk result (λ text. AreLines (1 + length (parameters_of whole.now.memory)) (string_bytes text)) }
{
    let line = launch_line(alloc, &whole.launch)?;
    let byte = byte_of(&whole.memory);
    let parameters = parameters_of(&whole.memory);
    let mut out = String::new(alloc);
    push_line(alloc, line.as_str(), &mut out)?;
    push_parameters(alloc, byte, parameters, &mut out)?;
    Ok(out)
}

/// Adds a line with a sentence that says why.
fn push_sentence(sentence: &str, out: &mut String) -> Result<(), AllocError>
    ensures { OnOk result (string_bytes out.new ≡ string_bytes out.old ++ (codes "  why: " ++ sentence.now ++ codes "\n")) }
{
    write!(out, "  why: {sentence}\n")
}

/// Adds a line with a reason.
fn push_reason(alloc: Global, reason: &Reason, out: &mut String) -> Result<(), AllocError>
    ensures { OnOk result ((sentence : List ℕ) × IsWorded reason.now sentence × (string_bytes out.new ≡ string_bytes out.old ++ (codes "  why: " ++ sentence ++ codes "\n"))) }
{
    let sentence = reason_text(alloc, reason)?;
    push_sentence(sentence.as_str(), out)
}

/// Why it comes about.
fn reasons_text(alloc: Global, why: &[Reason]) -> Result<String, AllocError>
    ensures { IfOk result (λ text. AreSentences why.now (string_bytes text)) }
{
    let mut out = String::new(alloc);
    for reason in why {
        push_reason(alloc, reason, &mut out)?;
    }
    Ok(out)
}

/// Adds what a fault is called behind its number.
fn push_heading(number: u32, title: &str, out: &mut String) -> Result<(), AllocError>
    ensures { OnOk result (string_bytes out.new ≡ string_bytes out.old ++ (codes "fault " ++ decimal number ++ codes " " ++ title.now ++ codes "\n")) }
{
    write!(out, "fault {number} {title}\n")
}

/// Adds the schedule.
fn push_schedule(schedule: &str, out: &mut String) -> Result<(), AllocError>
    ensures { OnOk result (string_bytes out.new ≡ string_bytes out.old ++ (codes "  schedule " ++ schedule.now ++ codes " (replayed: yes)\n")) }
{
    write!(out, "  schedule {schedule} (replayed: yes)\n")
}

/// An explanation as text. Its places are in a source that stands in a file of this name.
pub fn text_of(alloc: Global, whole: &Explanation, source: &str) -> Result<String, AllocError>
    ensures { IfOk result (λ text. IsText whole.now source.now (string_bytes text)) }
{
    let title = title_text(alloc, whole)?;
    let launch = launch_text(alloc, whole)?;
    let items = items_text(alloc, whole, source)?;
    let why = reasons_text(alloc, whole.why.as_slice())?;
    let steps = steps_text(alloc, whole)?;
    let mut out = String::new(alloc);
    push_heading(whole.fault.number, title.as_str(), &mut out)?;
    push_both(launch.as_str(), "\n", &mut out)?;
    push_both(items.as_str(), "\n", &mut out)?;
    push_both(why.as_str(), steps.as_str(), &mut out)?;
    push_schedule(whole.schedule.short.as_str(), &mut out)?;
    Ok(out)
}
