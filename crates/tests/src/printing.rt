//! Trees that are printed.

use byte_io::Output;
use clsyntax::read;
use clsyntax_print::print;
use limits::Limits;
use std::alloc::Global;
use std::io::BufWriter;

/// An output whose bytes are kept. None where memory runs out.
pub(crate) fn kept_output(alloc: Global) -> Option<Output<Vec<u8>>> {
    let writer = BufWriter::with_capacity(alloc, 0, Vec::new(alloc)).ok()?;
    Some(Output::new(writer))
}

/// Whether a source's tree is printed as this text. None where it isn't read.
fn is_printed(alloc: Global, source: &str, text: &str) -> Option<bool> {
    let mut output = kept_output(alloc)?;
    let tree = read(alloc, Limits::profile(), source.as_bytes()).ok()?;
    let is_whole = print(&tree, &mut output).is_ok();
    Some(is_whole & (output.into_inner().as_slice() == text.as_bytes()))
}

/// Sources and the texts as which their trees are printed: each form of a declaration, a statement and an expression;
/// pointers into each memory; arrays with their lengths; brackets where an operator binds less tightly than is wanted,
/// and numbers, which keep their types; control flow, where an `else` stays with its `if`.
const TEXTS: [(&str, &str); 5] = [
    (
        "kernel void f(global const char *p, ulong n) { size_t i = n; global int *q; ; { n = 1; } ++n; q[2]--; *q <<= 3; q[0] = n ? -n : ~i; n = (char)n * 2 + !*q; g(&p[n], (5)); q[(q[0])] = f(1, 2) + 3 + 4; g(); }",
        "__kernel void f ( __global const char * p , ulong n ) { ulong i = n ; __global int * q ; ; { n = 1 ; } ++ n ; -- q [ 2 ] ; * q <<= 3 ; q [ 0 ] = n ? - n : ~ i ; n = ( char ) n * 2 + ! * q ; g ( & p [ n ] , 5 ) ; q [ q [ 0 ] ] = f ( 1 , 2 ) + 3 + 4 ; g ( ) ; } ",
    ),
    (
        "kernel void f(local int *p, constant const uchar *q) { local const long *r; __constant short *s = q; } void g(global size_t *t) { }",
        "__kernel void f ( __local int * p , __constant const uchar * q ) { __local const long * r ; __constant short * s = q ; } void g ( __global ulong * t ) { } ",
    ),
    (
        "kernel void f() { local int a[32769]; ushort t[0x2ul]; { size_t b[010]; } }",
        "__kernel void f ( ) { __local int a [ 32769 ] ; ushort t [ 2ul ] ; { ulong b [ 8 ] ; } } ",
    ),
    (
        "kernel void f(uint n) { n = (1 + 2) * 0x10 - (4u - 5ul) + (n ? 010 : 2147483648); n = -(n + 1) + (n & (1 | 2)); }",
        "__kernel void f ( uint n ) { n = ( 1 + 2 ) * 16 - ( 4u - 5ul ) + ( n ? 8 : 2147483648l ) ; n = - ( n + 1 ) + ( n & ( 1 | 2 ) ) ; } ",
    ),
    (
        "int g(size_t n) { return (int)n; } void h() { return; } kernel void f(global int *a) { if (a[0]) if (a[1]) a[2] = 1; else a[3] = 2; while (1) { break; } do a[0]++; while (a[0] < 3); for (int i = 0; i < 4; i++) continue; for (;;) break; for (a[0] = 1; ; ++a[1]) ; if (1) { if (2) ; } else if (3) ; else ; }",
        "int g ( ulong n ) { return ( int ) n ; } void h ( ) { return ; } __kernel void f ( __global int * a ) { if ( a [ 0 ] ) if ( a [ 1 ] ) a [ 2 ] = 1 ; else a [ 3 ] = 2 ; while ( 1 ) { break ; } do ++ a [ 0 ] ; while ( a [ 0 ] < 3 ) ; for ( int i = 0 ; i < 4 ; ++ i ) continue ; for ( ; ; ) break ; for ( a [ 0 ] = 1 ; ; ++ a [ 1 ] ) ; if ( 1 ) { if ( 2 ) ; } else if ( 3 ) ; else ; } ",
    ),
];

/// Shows that each source is printed as its text, and so is that text when it is read again.
#[test]
fn texts(rt: HostRuntime) {
    let alloc = rt.alloc();
    for (source, text) in TEXTS {
        assert!(rt; is_printed(alloc, source, text) == Some(true), "{source}");
        assert!(rt; is_printed(alloc, text, text) == Some(true), "{text}");
    }
}
