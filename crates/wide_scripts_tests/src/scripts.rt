//! Small scripts, and for which bytes of their writes and fills their replies hold. What must come follows from the
//! rules by hand.

use crate::script::{Script, finds};
use device::Reply;
use std::alloc::Global;
use wide_scripts::{Note, WideScript};

/// A sum in two launches: of each group's two numbers, and of the two groups'.
const SUMS: &str = "__kernel void pairs(__global int *a, __global int *b) { \
    int g = get_global_id(0); b[g] = a[2 * g] + a[2 * g + 1]; } \
    __kernel void all(__global int *b, __global int *c) { c[0] = b[0] + b[1]; }";

fn reduced(alloc: Global) -> Option<WideScript> {
    let mut script = Script::new(alloc);
    script.buffer("a")?;
    script.buffer("b")?;
    script.buffer("c")?;
    script.write("a", 7)?;
    script.program(SUMS)?;
    script.kernel("pairs", &["a", "b"])?;
    script.kernel("all", &["b", "c"])?;
    script.launch("pairs", 2, 1)?;
    script.launch("all", 1, 1)?;
    script.read("c")?;
    script.widened()
}

/// The data of a reduction is free through both launches, and what is read at the end may differ.
#[test]
fn a_reduction(rt: HostRuntime) {
    assert!(rt; finds(reduced(rt.alloc()), &[3], &[13]));
}

/// Counts by place.
const COUNTS: &str = "__kernel void counts(__global uint *a, __global uint *b) { \
    atomic_inc(&b[a[get_global_id(0)]]); }";

fn counted(alloc: Global) -> Option<WideScript> {
    let mut script = Script::new(alloc);
    script.buffer("a")?;
    script.buffer("b")?;
    script.write("a", 1)?;
    script.fill("b", 5)?;
    script.program(COUNTS)?;
    script.kernel("counts", &["a", "b"])?;
    script.launch("counts", 4, 1)?;
    script.read("b")?;
    script.read("a")?;
    script.widened()
}

/// The input of a histogram is where it counts, so it decides; what the counts begin with doesn't. So the counts that
/// are read may differ, and the input that is read doesn't.
#[test]
fn a_histogram(rt: HostRuntime) {
    assert!(rt; finds(counted(rt.alloc()), &[3], &[9]));
}

/// A store at the place that a buffer holds.
const PLACES: &str = "__kernel void places(__global int *a, __global int *b) { b[a[0]] = 1; }";

fn copied(alloc: Global, again: bool) -> Option<WideScript> {
    let mut script = Script::new(alloc);
    script.buffer("a")?;
    script.buffer("b")?;
    script.buffer("c")?;
    script.write("a", 1)?;
    if again {
        script.copy("a", "b")?;
    } else {
        script.copy("b", "a")?;
    }
    script.program(PLACES)?;
    script.kernel("places", &["b", "c"])?;
    script.launch("places", 1, 1)?;
    script.read("b")?;
    script.widened()
}

/// A copy carries on what may differ: into the buffer whose numbers are places it decides, and from there it doesn't.
#[test]
fn copies(rt: HostRuntime) {
    assert!(rt; finds(copied(rt.alloc(), true), &[], &[]));
    assert!(rt; finds(copied(rt.alloc(), false), &[3], &[]));
}

fn read(alloc: Global) -> Option<WideScript> {
    let mut script = Script::new(alloc);
    script.buffer("a")?;
    script.buffer("b")?;
    script.write("a", 1)?;
    script.read("b")?;
    script.read("a")?;
    script.widened()
}

/// A read of what may differ doesn't decide; it may differ itself.
#[test]
fn reads(rt: HostRuntime) {
    assert!(rt; finds(read(rt.alloc()), &[2], &[4]));
}

fn made_anew(alloc: Global) -> Option<WideScript> {
    let mut script = Script::new(alloc);
    script.buffer("a")?;
    script.buffer("c")?;
    script.write("a", 1)?;
    script.release("a")?;
    script.buffer("a")?;
    script.program(PLACES)?;
    script.kernel("places", &["a", "c"])?;
    script.launch("places", 1, 1)?;
    script.write("a", 2)?;
    script.launch("places", 1, 1)?;
    script.write("a", 3)?;
    script.buffer("a")?;
    script.read("a")?;
    script.widened()
}

/// A buffer that is made anew holds nothing that may differ, and one that isn't, for its name is in use, what it held.
#[test]
fn a_buffer_of_the_same_name(rt: HostRuntime) {
    assert!(rt; finds(made_anew(rt.alloc()), &[2, 12], &[14]));
}

/// A race, whatever the numbers are.
const RACE: &str = "__kernel void race(__global int *a) { a[0] = a[get_global_id(0)] + 1; }";

fn raced(alloc: Global) -> Option<WideScript> {
    let mut script = Script::new(alloc);
    script.buffer("a")?;
    script.write("a", 1)?;
    script.program(RACE)?;
    script.kernel("race", &["a"])?;
    script.launch("race", 2, 2)?;
    script.read("a")?;
    script.widened()
}

/// Whether the launch of a script of one buffer has a fault, for all bytes of the buffer.
fn has_a_wide_fault(script: Option<WideScript>, ticket: usize) -> bool {
    match script {
        Some(wide) => match (wide.replies.get(ticket), wide.notes.get(ticket)) {
            (Some(Reply::Fault { .. }), Some(Note::Launched { buffers, wide })) => {
                buffers.len() == 1 && wide.buffers.as_slice() == [true].as_slice()
            }
            _ => false,
        },
        None => false,
    }
}

/// A race that is in the kernel is the reply for all bytes.
#[test]
fn a_race(rt: HostRuntime) {
    assert!(rt; finds(raced(rt.alloc()), &[1], &[6]));
    assert!(rt; has_a_wide_fault(raced(rt.alloc()), 5));
}

fn refused(alloc: Global) -> Option<WideScript> {
    let mut script = Script::new(alloc);
    script.buffer("a")?;
    script.write("a", 1)?;
    script.launch("none", 1, 1)?;
    script.write("b", 1)?;
    script.read("a")?;
    script.widened()
}

/// A launch that is refused decides nothing, and a write that is refused is free.
#[test]
fn refusals(rt: HostRuntime) {
    assert!(rt; finds(refused(rt.alloc()), &[1, 3], &[4]));
}

/// Numbers that are drawn in the order of the items.
const TICKETS: &str = "__kernel void tickets(__global uint *a, __global uint *b) { \
    b[get_global_id(0)] = atomic_inc(&a[0]); }";

fn drawn(alloc: Global, orders: bool) -> Option<WideScript> {
    let mut script = Script::new(alloc);
    script.buffer("a")?;
    script.buffer("b")?;
    script.buffer("c")?;
    script.write("a", 1)?;
    script.write("c", 1)?;
    script.program(TICKETS)?;
    script.kernel("tickets", &["a", "b"])?;
    script.launch_by("tickets", 2, 1, orders)?;
    script.write("b", 2)?;
    script.read("b")?;
    script.read("a")?;
    script.widened()
}

/// Whether the launch of a script is ordered, on two buffers, and nothing of it is free.
fn is_ordered_alone(script: Option<WideScript>, ticket: usize) -> bool {
    match script {
        Some(wide) => match (wide.replies.get(ticket), wide.notes.get(ticket)) {
            (Some(Reply::Ordered), Some(Note::Launched { buffers, wide })) => {
                buffers.len() == 2 && wide.buffers.is_empty() && wide.arguments.is_empty()
            }
            _ => false,
        },
        None => false,
    }
}

/// Each buffer of a launch with the word decides, whatever the kernel does with its numbers. What is put behind it, or
/// into another buffer, doesn't.
#[test]
fn orders(rt: HostRuntime) {
    assert!(rt; finds(drawn(rt.alloc(), false), &[3, 4, 10], &[11, 12]));
    assert!(rt; finds(drawn(rt.alloc(), true), &[4, 10], &[11]));
    assert!(rt; is_ordered_alone(drawn(rt.alloc(), true), 9));
}
