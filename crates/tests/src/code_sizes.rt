//! How many instructions and registers the code of kernels has.

use crate::merges::checked;
use cltypes::Checked;
use lower::lower_kernel;
use renumbering::renumber;
use std::alloc::Global;

/// The instructions and the registers of a kernel's code, as it is lowered and as a launch runs it.
#[derive(Clone, Copy)]
struct Sizes {
    count: usize,
    registers: usize,
    run_count: usize,
    run_registers: usize,
}

/// Those of the kernel `k` of a program. None where there is none, or memory runs out.
fn sizes_of_program(alloc: Global, program: &Checked) -> Option<Sizes> {
    let code = lower_kernel(alloc, program, program.kernel(b"k")?).ok()?;
    let (count, registers) = (code.count(), code.registers());
    let code = renumber(alloc, code).ok()?;
    Some(Sizes {
        count,
        registers,
        run_count: code.count(),
        run_registers: code.registers(),
    })
}

/// Those of the kernel `k` of a source. None where it can't be built.
fn sizes_of(alloc: Global, source: &str) -> Option<Sizes> {
    let program = checked(alloc, source)?;
    sizes_of_program(alloc, &program)
}

/// A constant expression takes as many instructions as a number.
#[test]
fn constants_are_numbers(rt: HostRuntime) {
    let alloc = rt.alloc();
    let long = sizes_of(
        alloc,
        "__kernel void k(__global int *a) { a[0] = 2 * 3 + 1; }",
    );
    let short = sizes_of(alloc, "__kernel void k(__global int *a) { a[0] = 7; }");
    let (Some(long), Some(short)) = (long, short) else {
        panic!(rt; "not built")
    };
    assert!(rt; (long.count == short.count) & (long.run_count == short.run_count));
}

/// A kernel whose body is so many statements `a[0] = n + 1;`. None where memory runs out.
fn sums(alloc: Global, count: usize) -> Option<String> {
    let mut source = String::new(alloc);
    source
        .push_str("__kernel void k(__global int *a, int n) { ")
        .ok()?;
    for _ in 0..count {
        source.push_str("a[0] = n + 1; ").ok()?;
    }
    source.push_str("}").ok()?;
    Some(source)
}

/// The sizes of such a kernel.
fn sizes_of_sums(alloc: Global, count: usize) -> Option<Sizes> {
    let source = sums(alloc, count)?;
    sizes_of(alloc, source.as_str())
}

/// The registers of a statement serve the next one again.
#[test]
fn registers_are_used_again(rt: HostRuntime) {
    let alloc = rt.alloc();
    let (Some(one), Some(many)) = (sizes_of_sums(alloc, 1), sizes_of_sums(alloc, 200)) else {
        panic!(rt; "not built")
    };
    assert!(rt;
        (many.registers == one.registers)
            & (many.run_registers == one.run_registers)
            & (one.count < many.count)
    );
}
