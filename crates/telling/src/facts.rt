//! What an explanation tells of its launch, its fault, its memory and its schedule.
#![tactic(auto)]

ghost use Rattle.std.specs.Prelude.{◌≡◌, Some, IfOk, map, option_copied, string_bytes};
ghost use Rattle.std.specs.Str.Lossy.{utf8_lossy};
ghost use Rattle.clmodel.specs.Setup.{group_items};
ghost use Rattle.explain_items.specs.Deeds.{HaveEvents, deed_of, told_deeds};
ghost use Rattle.explain_items.specs.Named.{AreToldInside, told_items};
ghost use Rattle.explain_reasons.specs.Reasons.{AreReasons};
ghost use Rattle.explain_steps.specs.Steps.{AreSteps};
ghost use Rattle.item_step.specs.Launches.{setup_of};
ghost use Rattle.spaces.specs.Buffers.{bytes_in};
ghost use Rattle.telling.specs.Told.{AreNamed, IsSize, TellsFault, TellsLaunch, TellsNames, TellsObject, TellsPlayed, most_steps, place_in, schedule_words};

use clmodel::fault::{Fault, Location};
use clmodel::setup::Range;
use clmodel::text::Name;
use explain_items::{Context, named_items};
use explain_reasons::{array_of, reasons_of};
use explain_steps::{MOST_STEPS, items_in, steps_of};
use explanation::{
    Explanation, FaultFacts, LaunchFacts, Memory, NamedItem, ParameterFacts, Reason, ScheduleFacts,
    ToldEvent,
};
use fault_play::{Mark, Played, Stand, event_of};
use host_commands::kernel::parameters_of;
use item_step::Launch;
use launch_facts::{
    fault_name, fault_number, fault_words, memory_of, parameters_given, parameters_named,
    schedule_words,
};
use shortening::{Named, Shortened, event_count};
use simfile::script::CommandPlace;
use spaces::Buffers;
use std::alloc::{AllocError, Global};

/// How a fault is told.
#[derive(Clone, Copy)]
pub struct TellOptions {
    /// The ticks that a device gives a work-item
    pub budget: u32,
    /// Whether the schedule is told as it was given, and not made shorter
    pub as_given: bool,
    /// How many steps are told at most, where a number is asked for
    pub steps: Option<usize>,
}

impl TellOptions {
    /// How many steps are told at most.
    fn most_steps(self) -> usize
        ensures { result ≡ most_steps self.steps }
    {
        self.steps.unwrap_or(MOST_STEPS)
    }
}

/// The two items that a fault names; where it names one, that one twice.
pub(crate) fn items_of(fault: &Fault) -> (u32, u32)
    ensures { AreNamed fault.now result.0 result.1 }
{
    match launch_facts::named_items(fault) {
        (item, Some(other)) => (item, other),
        (item, None) => (item, item),
    }
}

/// The items that a fault names, with the events that are their accesses, for a shorter schedule: the earlier access
/// first.
pub(crate) fn named_of(
    alloc: Global,
    played: &Played,
    fault: &Fault,
) -> Result<Vec<Named>, AllocError> {
    let (item, other) = items_of(fault);
    let marks = played.marks.as_slice();
    let (first, second) = match played.pair {
        Some(pair) => (event_of(marks, pair.first), event_of(marks, pair.second)),
        None => (None, None),
    };
    let mut named = Vec::new(alloc);
    named.push(Named {
        item,
        event: first.map(|number| number as u64),
    })?;
    if other != item {
        named.push(Named {
            item: other,
            event: second.map(|number| number as u64),
        })?;
    }
    if first > second {
        named.reverse();
    }
    Ok(named)
}

/// The size of an object of memory, where it is known, and the parameters that it is an argument for, each with the
/// element in which a byte lies.
fn size_and_parameters(
    context: &Context<'_>,
    buffers: &Buffers,
    location: &Location,
    byte: Option<u64>,
) -> Result<(Option<u64>, Vec<ParameterFacts>), AllocError>
    ensures { IfOk result (λ known. IsSize (bytes_in buffers.now) (Some location.now) known.0) }
{
    let alloc = context.alloc;
    let launch = context.launch;
    let tree = launch.tree();
    let parameters = parameters_of(tree, launch.kernel());
    let names = tree.names.as_slice();
    match location {
        Location::Buffer(name) => {
            let size = buffers.bytes_in(name).len() as u64;
            let given = parameters_given(
                alloc,
                context.commands,
                context.done,
                context.kernel,
                name,
                byte,
                parameters,
                names,
            )?;
            Ok((Some(size), given))
        }
        Location::Local { name, .. } => {
            let named = parameters_named(alloc, name, byte, parameters, names)?;
            Ok((local_size(launch, name), named))
        }
    }
}

/// The size of the local object of a name.
fn local_size(launch: &Launch<'_>, wanted: &Name) -> Option<u64> {
    let names = launch.source_names();
    for (number, size) in launch.local_names().iter().zip(launch.local_sizes()) {
        if let Some(name) = names.get(*number as usize) {
            if name == wanted {
                return Some(*size);
            }
        }
    }
    None
}

/// Where a fault lies, if it lies in a buffer or in local memory.
fn location_of(fault: &Fault) -> Option<&Location>
    ensures { option_copied result ≡ place_in fault.now }
{
    match fault {
        Fault::Conflict { location, .. }
        | Fault::Bounds { location, .. }
        | Fault::Unset { location, .. } => Some(location),
        _ => None,
    }
}

/// The private array that a fault is about, if it is about one.
fn private_of(fault: &Fault) -> Option<&Name> {
    match fault {
        Fault::PrivateBounds { array, .. } | Fault::UnsetElement { array, .. } => Some(array),
        _ => None,
    }
}

/// The size of a private array that is used where an item stands, if it is known.
fn private_size(
    context: &Context<'_>,
    stand: Option<&Stand>,
    name: &Name,
) -> Result<Option<u64>, AllocError> {
    match array_of(context, stand, name)? {
        Some(array) => Ok(Some(array.bytes())),
        None => Ok(None),
    }
}

/// The size of the private array that a fault is about, if it is about one and the size is known.
fn array_size(
    context: &Context<'_>,
    fault: &Fault,
    played: &Played,
) -> Result<Option<u64>, AllocError> {
    match private_of(fault) {
        Some(name) => private_size(context, played.first.stand.as_ref(), name),
        None => Ok(None),
    }
}

/// The size of the memory that a fault is about, where it is known, and the parameters that it is an argument for. The
/// byte is the one that the fault names.
fn known_of(
    context: &Context<'_>,
    buffers: &Buffers,
    fault: &Fault,
    played: &Played,
    byte: Option<u64>,
) -> Result<(Option<u64>, Vec<ParameterFacts>), AllocError>
    ensures { IfOk result (λ known. IsSize (bytes_in buffers.now) (place_in fault.now) known.0) }
{
    if let Some(location) = location_of(fault) {
        return size_and_parameters(context, buffers, location, byte);
    }
    let size = array_size(context, fault, played)?;
    Ok((size, Vec::new(context.alloc)))
}

/// The memory that a fault is about.
fn whole_memory(
    context: &Context<'_>,
    buffers: &Buffers,
    fault: &Fault,
    played: &Played,
) -> Result<Option<Memory>, AllocError>
    ensures { IfOk result (TellsObject (bytes_in buffers.now) fault.now) }
{
    let Some(memory) = memory_of(context.alloc, fault)? else {
        return Ok(None);
    };
    let (size, parameters) = known_of(context, buffers, fault, played, memory.byte)?;
    Ok(Some(Memory {
        kind: memory.kind,
        name: memory.name,
        byte: memory.byte,
        element: memory.element,
        size,
        parameters,
    }))
}

/// Makes a text of bytes, with a replacement for what is no UTF-8. An error is out of memory.
fn text(alloc: Global, bytes: &[u8]) -> Result<String, AllocError>
    ensures { IfOk result (λ text. string_bytes text ≡ utf8_lossy bytes.now) }
{
    String::from_utf8_lossy(alloc, bytes)
}

/// A launch with the texts that are given, as the rest of an explanation needs it.
#[derive(Clone, Copy)]
pub(crate) struct LaunchTexts<'a> {
    /// The script's name, as on the command line
    pub name: &'a [u8],
    /// The name of the file in which the source of its program stands
    pub source: &'a [u8],
    pub options: TellOptions,
    pub ticket: usize,
    /// Where its command stands in the script
    pub place: CommandPlace,
    /// The text of that line
    pub line: &'a [u8],
    pub range: &'a Range,
    /// Whether the launch has `orders`
    pub orders: bool,
}

/// The names that a launch runs by.
#[derive(Drop)]
struct Names {
    kernel: String,
    function: String,
    program: String,
}

/// The names of the kernel, its function and its program. An error is out of memory.
fn names_of(context: &Context<'_>) -> Result<Names, AllocError>
    ensures kernel { IfOk result (λ names. string_bytes names.kernel ≡ utf8_lossy context.now.kernel.now) }
    ensures function { IfOk result (λ names. string_bytes names.function ≡ utf8_lossy context.now.program.function.now) }
    ensures program { IfOk result (λ names. string_bytes names.program ≡ utf8_lossy context.now.program.program.now) }
{
    let alloc = context.alloc;
    Ok(Names {
        kernel: text(alloc, context.kernel.as_slice())?,
        function: text(alloc, context.program.function.as_slice())?,
        program: text(alloc, context.program.program.as_slice())?,
    })
}

/// The numbers of an index space.
#[derive(Drop)]
struct Sizes {
    global: Vec<u64>,
    local: Vec<u64>,
    offset: Vec<u64>,
}

/// Copies the global and local sizes and the offset, one number for each dimension. An error is out of memory.
fn sizes_of(alloc: Global, range: &Range) -> Result<Sizes, AllocError>
    ensures global { IfOk result (λ sizes. sizes.global.items ≡ range.now.global) }
    ensures local { IfOk result (λ sizes. sizes.local.items ≡ range.now.local) }
    ensures offset { IfOk result (λ sizes. sizes.offset.items ≡ range.now.offset) }
{
    Ok(Sizes {
        global: range.global.as_slice().to_vec(alloc)?,
        local: range.local.as_slice().to_vec(alloc)?,
        offset: range.offset.as_slice().to_vec(alloc)?,
    })
}

/// What is told of a launch: its line in the script, its names and its sizes. An error is out of memory.
fn launch_facts(context: &Context<'_>, place: &LaunchTexts<'_>) -> Result<LaunchFacts, AllocError>
    ensures launch { IfOk result (TellsLaunch place.now.options.budget place.now.ticket place.now.place place.now.range.now place.now.orders) }
    ensures names { IfOk result (TellsNames context.now) }
{
    let alloc = context.alloc;
    let text = text(alloc, place.line)?;
    let names = names_of(context)?;
    let sizes = sizes_of(alloc, place.range)?;
    Ok(LaunchFacts {
        command: place.ticket as u64,
        script_line: place.place.line,
        text,
        kernel: names.kernel,
        function: names.function,
        program: names.program,
        global_size: sizes.global,
        local_size: sizes.local,
        offset: sizes.offset,
        uniform: place.range.uniform,
        orders: place.orders,
        budget: place.options.budget,
    })
}

/// What is told of a fault: its number, its name and its line. An error is out of memory.
fn fault_facts_of(alloc: Global, fault: &Fault) -> Result<FaultFacts, AllocError>
    ensures { IfOk result (TellsFault fault.now) }
{
    let number = fault_number(fault);
    let name = String::from_str(alloc, fault_name(number))?;
    let line = fault_words(alloc, fault)?;
    Ok(FaultFacts { number, name, line })
}

/// What is told of the given schedule, with the number of its events, and of the short one, with the items
/// in it. An error is out of memory.
pub(crate) fn schedule_facts(
    alloc: Global,
    given: String,
    given_events: u64,
    short: &Shortened,
    marks: &[Mark],
) -> Result<ScheduleFacts, AllocError>
    ensures given { IfOk result (λ facts. facts.given ≡ given) }
    ensures short { IfOk result (λ facts. string_bytes facts.short ≡ schedule_words short.now.schedule) }
{
    Ok(ScheduleFacts {
        given,
        short: schedule_words(alloc, &short.schedule)?,
        given_events,
        events: event_count(short.schedule.as_slice()),
        items: items_in(alloc, marks)?,
        replays: short.judged,
    })
}

/// What an explanation says of a launch and its fault before it says why.
#[derive(Drop)]
struct Head {
    script: String,
    launch: LaunchFacts,
    fault: FaultFacts,
}

/// What is said before the reasons: the script's name, the launch and the fault. An error is out of memory.
fn head_of(
    context: &Context<'_>,
    place: &LaunchTexts<'_>,
    fault: &Fault,
) -> Result<Head, AllocError>
    ensures script { IfOk result (λ head. string_bytes head.script ≡ utf8_lossy place.now.name.now) }
    ensures launch { IfOk result (λ head. TellsLaunch place.now.options.budget place.now.ticket place.now.place place.now.range.now place.now.orders head.launch) }
    ensures names { IfOk result (λ head. TellsNames context.now head.launch) }
    ensures fault { IfOk result (λ head. TellsFault fault.now head.fault) }
{
    Ok(Head {
        script: text(context.alloc, place.name)?,
        launch: launch_facts(context, place)?,
        fault: fault_facts_of(context.alloc, fault)?,
    })
}

/// The memory and the items of a fault, and why it comes about.
#[derive(Drop)]
struct Body {
    memory: Option<Memory>,
    items: Vec<NamedItem>,
    why: Vec<Reason>,
}

/// The memory, the items and the reasons of a fault that was played. An error is out of memory.
fn body_of(
    context: &Context<'_>,
    buffers: &Buffers,
    budget: u32,
    fault: &Fault,
    played: &Played,
) -> Result<Body, AllocError>
    ensures object { IfOk result (λ body. TellsObject (bytes_in buffers.now) fault.now body.memory) }
    ensures items { IfOk result (λ body. AreToldInside context.now played.now.marks.items (told_items fault.now played.now) body.items.items) }
    ensures deeds { IfOk result (λ body. map (λ named. deed_of named.does) body.items.items ≡ told_deeds fault.now played.now) }
    ensures events { IfOk result (λ body. HaveEvents played.now.marks.items (told_items fault.now played.now) body.items.items) }
    ensures why { IfOk result (λ body. AreReasons (group_items (setup_of context.now.launch.now).range) played.now fault.now body.memory budget body.why.items) }
{
    let memory = whole_memory(context, buffers, fault, played)?;
    let why = reasons_of(context, played, fault, &memory, budget)?;
    let items = named_items(context, played, fault)?;
    Ok(Body { memory, items, why })
}

/// The steps of what was played, of which those are told that the items which are named there need. An error is out of
/// memory.
fn told_steps(
    context: &Context<'_>,
    options: TellOptions,
    played: &Played,
) -> Result<Vec<ToldEvent>, AllocError>
    ensures { IfOk result (λ steps. AreSteps (group_items (setup_of context.now.launch.now).range) played.now played.now.first.item played.now.second.item (most_steps options.steps) steps.items) }
{
    let named = (played.first.item, played.second.item);
    steps_of(context, played, named, options.most_steps())
}

/// An explanation of what was played of the short schedule.
pub(crate) fn explanation_of(
    context: &Context<'_>,
    buffers: &Buffers,
    place: &LaunchTexts<'_>,
    fault: &Fault,
    played: &Played,
    schedule: ScheduleFacts,
) -> Result<Explanation, AllocError>
    ensures script { IfOk result (λ whole. string_bytes whole.script ≡ utf8_lossy place.now.name.now) }
    ensures launch { IfOk result (λ whole. TellsLaunch place.now.options.budget place.now.ticket place.now.place place.now.range.now place.now.orders whole.launch) }
    ensures names { IfOk result (λ whole. TellsNames context.now whole.launch) }
    ensures fault { IfOk result (λ whole. TellsFault fault.now whole.fault) }
    ensures object { IfOk result (λ whole. TellsObject (bytes_in buffers.now) fault.now whole.memory) }
    ensures schedule { IfOk result (λ whole. whole.schedule ≡ schedule) }
    ensures items { IfOk result (λ whole. AreToldInside context.now played.now.marks.items (told_items fault.now played.now) whole.items.items) }
    ensures played { IfOk result (TellsPlayed place.now.options (group_items (setup_of context.now.launch.now).range) fault.now played.now) }
{
    let options = place.options;
    let head = head_of(context, place, fault)?;
    let body = body_of(context, buffers, options.budget, fault, played)?;
    let steps = told_steps(context, options, played)?;
    Ok(Explanation {
        script: head.script,
        launch: head.launch,
        fault: head.fault,
        memory: body.memory,
        items: body.items,
        why: body.why,
        schedule,
        steps,
    })
}
