//! Kernels, and what of their launches decides nothing. What must come follows from the rules by hand.

use crate::widened::{frees, frees_uniform, only_decides};
use widening::{Source, Why};

/// Data that flows into data alone is free, and so is what it flows into.
#[test]
fn data_into_data(rt: HostRuntime) {
    let source = "__kernel void k(__global int *a, __global int *b) { \
            int i = get_global_id(0); b[i] = a[i] * 3 + max(a[i], 7); }";
    assert!(rt; frees(rt.alloc(), source, "ab", &[true, true], &[false, false]));
}

/// What a test asks decides; what is stored behind it doesn't.
#[test]
fn a_branch(rt: HostRuntime) {
    let source = "__kernel void k(__global int *a, __global int *b) { \
            int i = get_global_id(0); if (a[i] > 0) b[i] = 1; }";
    assert!(rt; frees(rt.alloc(), source, "ab", &[false, true], &[false, false]));
    assert!(rt; only_decides(rt.alloc(), source, "ab", Source::Buffer(0), Why::Branch));
}

/// The place of an access decides.
#[test]
fn an_address(rt: HostRuntime) {
    let source = "__kernel void k(__global int *a, __global int *b) { b[a[0]] = 1; }";
    assert!(rt; frees(rt.alloc(), source, "ab", &[false, true], &[false, false]));
    assert!(rt; only_decides(rt.alloc(), source, "ab", Source::Buffer(0), Why::Address));
}

/// A division by 3 can't fail; one by a variable can, by either operand.
#[test]
fn divisions(rt: HostRuntime) {
    let by_three =
        "__kernel void k(__global int *a, __global int *b) { b[0] = a[0] / 3 + a[1] % 10; }";
    assert!(rt; frees(rt.alloc(), by_three, "ab", &[true, true], &[false, false]));
    let by_another =
        "__kernel void k(__global int *a, __global int *b, __global int *c) { c[0] = a[0] / b[0]; }";
    assert!(rt;
        frees(
            rt.alloc(),
            by_another,
            "abc",
            &[false, false, true],
            &[false, false, false]
        )
    );
    let of_seven = "__kernel void k(__global int *a, __global int *b) { b[0] = 7 % a[0]; }";
    assert!(rt; only_decides(rt.alloc(), of_seven, "ab", Source::Buffer(0), Why::Division));
}

/// What a private array holds may be free; its index decides.
#[test]
fn private_arrays(rt: HostRuntime) {
    let held = "__kernel void k(__global int *a, __global int *b) { \
            int p[2]; p[0] = a[0]; p[1] = 5; b[0] = p[0] + p[1]; }";
    assert!(rt; frees(rt.alloc(), held, "ab", &[true, true], &[false, false]));
    let index =
        "__kernel void k(__global int *a, __global int *b) { int p[2]; p[a[0] & 1] = 5; b[0] = 1; }";
    assert!(rt; frees(rt.alloc(), index, "ab", &[false, true], &[false, false]));
    assert!(rt; only_decides(rt.alloc(), index, "ab", Source::Buffer(0), Why::Index));
}

/// What is fetched is as free as the bytes of its object.
#[test]
fn fetches(rt: HostRuntime) {
    let kept = "__kernel void k(__global int *a, __global int *b) { \
        b[get_global_id(0)] = atomic_add(a, 2); }";
    assert!(rt; frees(rt.alloc(), kept, "ab", &[true, true], &[false, false]));
    let place = "__kernel void k(__global int *a, __global int *b) { b[atomic_inc(a)] = 1; }";
    assert!(rt; frees(rt.alloc(), place, "ab", &[false, true], &[false, false]));
}

/// The expected number of a compare-exchange decides what is left in the object, and so where that is tested.
#[test]
fn compare_exchanges(rt: HostRuntime) {
    let kept =
        "__kernel void k(__global int *a, __global int *b) { b[2] = atomic_cmpxchg(a, b[0], b[1]); }";
    assert!(rt; frees(rt.alloc(), kept, "ab", &[true, true], &[false, false]));
    let tested = "__kernel void k(__global int *a, __global int *b) { \
            if (atomic_cmpxchg(a, b[0], 1) == 0) b[1] = 1; }";
    assert!(rt; frees(rt.alloc(), tested, "ab", &[false, false], &[false, false]));
}

/// In a uniform launch a stored number decides; elsewhere it doesn't.
#[test]
fn uniform_stores(rt: HostRuntime) {
    let source = "__kernel void k(__global int *a, __global int *b) { b[0] = a[0]; }";
    assert!(rt; frees(rt.alloc(), source, "ab", &[true, true], &[false, false]));
    assert!(rt; frees_uniform(rt.alloc(), source, "ab", &[false, true], &[false, false]));
}

/// A number that flows into data is free; one that bounds a loop isn't.
#[test]
fn numbers(rt: HostRuntime) {
    let data = "__kernel void k(__global int *a, int n) { a[get_global_id(0)] = n; }";
    assert!(rt; frees(rt.alloc(), data, "aN", &[true], &[false, true]));
    let bound = "__kernel void k(__global int *a, int n) { for (int i = 0; i < n; i++) a[i] = i; }";
    assert!(rt; frees(rt.alloc(), bound, "aN", &[true], &[false, false]));
    assert!(rt; only_decides(rt.alloc(), bound, "aN", Source::Argument(1), Why::Branch));
}

/// A number that is stored where a test reads isn't free.
#[test]
fn a_number_that_is_read_back(rt: HostRuntime) {
    let source =
        "__kernel void k(__global int *a, __global int *b, int n) { a[0] = n; if (a[0] > 1) b[0] = 1; }";
    assert!(rt;
        frees(
            rt.alloc(),
            source,
            "abN",
            &[false, true],
            &[false, false, false]
        )
    );
}

/// Data goes through a local argument, which no instruction names as an object of its own.
#[test]
fn local_memory(rt: HostRuntime) {
    let source = "__kernel void k(__global int *a, __global int *b, __local int *t) { \
            int i = get_local_id(0); t[i] = a[i]; barrier(CLK_LOCAL_MEM_FENCE); b[i] = t[0]; }";
    assert!(rt;
        frees(
            rt.alloc(),
            source,
            "abL",
            &[true, true],
            &[false, false, false]
        )
    );
}

/// A dimension decides.
#[test]
fn a_dimension(rt: HostRuntime) {
    let source =
        "__kernel void k(__global int *a, __global int *b) { b[get_global_id(a[0])] = 1; }";
    assert!(rt; frees(rt.alloc(), source, "ab", &[false, true], &[false, false]));
    assert!(rt; only_decides(rt.alloc(), source, "ab", Source::Buffer(0), Why::Dimension));
}

/// Where two ways meet, what either brings decides.
#[test]
fn ways_that_meet(rt: HostRuntime) {
    let source = "__kernel void k(__global int *a, __global int *b, int n) { \
            int x = 0; if (n > 0) x = a[0]; else x = 7; b[0] = x; if (x > 1) b[1] = 1; }";
    assert!(rt;
        frees(
            rt.alloc(),
            source,
            "abN",
            &[false, true],
            &[false, false, false]
        )
    );
}

/// What one turn of a loop leaves decides in the next.
#[test]
fn a_turn_of_a_loop(rt: HostRuntime) {
    let source = "__kernel void k(__global int *a, __global int *b) { \
            int x = 0; for (int i = 0; i < 3; i++) { if (x > 5) b[i] = 1; x = a[i]; } }";
    assert!(rt; frees(rt.alloc(), source, "ab", &[false, true], &[false, false]));
    assert!(rt; only_decides(rt.alloc(), source, "ab", Source::Buffer(0), Why::Branch));
}

/// What is put into a variable again, before it is tested, decides nothing.
#[test]
fn a_number_that_is_replaced(rt: HostRuntime) {
    let source = "__kernel void k(__global int *a, __global int *b) { \
            int x = a[0]; b[0] = x; x = 3; if (x > 1) b[1] = 1; }";
    assert!(rt; frees(rt.alloc(), source, "ab", &[true, true], &[false, false]));
}

/// Where nothing leads, nothing decides.
#[test]
fn behind_a_return(rt: HostRuntime) {
    let source = "__kernel void k(__global int *a, __global int *b) { \
            b[0] = a[0]; return; if (a[0] > 1) b[1] = 1; }";
    assert!(rt; frees(rt.alloc(), source, "ab", &[true, true], &[false, false]));
}
