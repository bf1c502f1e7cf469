//! Hints at what natural kernels write and the language lacks.

use build_hints::{Refused, refusal_of, refusal_text};
use clmodel::type_fault::TypeFault;
use clsyntax_lex::token::SyntaxFault;
use std::test::Fail;

/// Sources with a fault, one in each line: what fault it is, the source with an `@` in front of the place of the fault,
/// and how the hint begins, `-` where there is none. The places are those that `clsim check` answers.
const CASES: &str = "\
byte ~ @#define N 4 ~ there is no preprocessor: write the value of a macro
byte ~ @#include \"vector.h\" ~ there is no preprocessor: write the text
byte ~ @#pragma OPENCL EXTENSION cl_khr_fp64 : enable ~ there is no preprocessor: leave #pragma out
byte ~ @#ifdef GPU ~ there is no preprocessor: leave out what isn't chosen
byte ~ @#endif ~ there is no preprocessor
byte ~ kernel void f(global int *a) { a[0] = 1@.5f; } ~ there are no floating-point numbers
byte ~ kernel void f(global int *a) { a[0] = 2@f; } ~ there are no floating-point numbers
byte ~ kernel void f(global int *a) { a[0] = 1@e3; } ~ there are no floating-point numbers
byte ~ kernel void f(global int *a) { a[0] = @.5; } ~ there are no floating-point numbers
byte ~ kernel void f(global point *p1) { p1[0]@.x = 1; } ~ there are no structs
byte ~ kernel void f(int4 v1) { v1@.x = 1; } ~ there are no structs
byte ~ kernel void f() { printf(@\"x\"); } ~ there are no texts
byte ~ kernel void f() { char c = @'a'; } ~ there are no characters
byte ~ kernel void f() { long x = 1l@l; } ~ behind a number stands
byte ~ kernel void f() { ulong x = 1ul@l; } ~ behind a number stands
byte ~ kernel void f() { int x = 0@8; } ~ a number that begins with 0
byte ~ kernel void f() { int x = 0@b101; } ~ there are no binary numbers
byte ~ kernel void f() { int x = 0@x; } ~ hexadecimal digits
byte ~ kernel void f() { @/* no end } ~ the comment that begins here
byte ~ kernel void f() { int x = 3 @@ 4; } ~ leave it out
token ~ void f() { int x = 1@, y = 2; } ~ a declaration declares one name
token ~ void f() { /* a; b */ int x /* , */@, y; } ~ a declaration declares one name
token ~ void f() { size_t i = get_global_id(0)@, j = get_global_id(1); } ~ a declaration declares one name
token ~ void f(global int *a) { global int *p = a@, *q = a; } ~ a declaration declares one name
token ~ void f() { for (int i = 0@, j = 1; ; ) ; } ~ a for declares or assigns one variable
token ~ void f(int n) { int i; int j; for (i = 0; i < n; i++@, j--) ; } ~ there is no comma operator
token ~ kernel void f(@const int n) { } ~ const stands behind an address space
token ~ kernel void f(@const global int *a) { } ~ const stands behind an address space
token ~ void f() { @const int n = 4; } ~ const stands behind an address space
token ~ void f() { for (@const int n = 4; ; ) ; } ~ const stands behind an address space
token ~ void f(global int @const *a) { } ~ const stands behind an address space
token ~ void f(global int * @const a) { } ~ const stands behind an address space
token ~ @const int N = 4; void f() { } ~ there are no variables outside of functions
token ~ int N @= 4; void f() { } ~ there are no variables outside of functions
token ~ int t@[4]; void f() { } ~ there are no variables outside of functions
token ~ @__constant int t[2] = {1, 2}; ~ outside of functions stand no variables
token ~ int f(int x)@; ~ there are no prototypes
token ~ void f() { }@; ~ leave out the ;
token ~ void f() { } @} ~ one } too many
token ~ kernel @int f() { } ~ a kernel gives no value
token ~ int @*f() { } ~ a function gives an integer or nothing
token ~ @point f() { } ~ this is no type
token ~ @ ~ a source has a function
token ~ void f(int x)@ ~ the block of the function
token ~ void f(@void) { } ~ a function without parameters
token ~ void f(int @*a) { } ~ a pointer names its address space
token ~ kernel void f(global int *@*a) { } ~ there are no pointers to pointers
token ~ void f(int a@[4]) { } ~ a parameter is no array
token ~ kernel void f(@size_t n) { } ~ a kernel has no parameter of type size_t
token ~ kernel void f(global @size_t *a) { } ~ a kernel has no parameter of type size_t
token ~ kernel void f(global int @a) { } ~ a parameter with an address space is a pointer
token ~ kernel void f(global @point *a) { } ~ this is no type
token ~ kernel void f(@point p) { } ~ this is no type
token ~ void f(int@, int y) { } ~ a name is wanted behind the type of a parameter
token ~ void f(int x @int y) { } ~ a , or a ) is wanted
token ~ void f(global @unsigned int *a) { } ~ unsigned types have names of one word
token ~ void f() { @unsigned i = 1; } ~ unsigned types have names of one word
token ~ void f() { for (@unsigned int i = 0; ; ) ; } ~ unsigned types have names of one word
token ~ void f(int x) { x = (@unsigned int)x; } ~ unsigned types have names of one word
token ~ void f() { long @long x = 1; } ~ a type is one word
token ~ void f(long @int n) { } ~ a type is one word
token ~ kernel void f(global @float *a) { } ~ there are no floating-point numbers
token ~ void f() { @double x; } ~ there are no floating-point numbers
token ~ void f(int x) { x = (@float)x; } ~ there are no floating-point numbers
token ~ @typedef struct { int x; } point; ~ there are no typedefs
token ~ @typedef unsigned int word; ~ there are no typedefs
token ~ @struct point { int x; }; ~ there are no structs
token ~ kernel void f(global @struct point *a) { } ~ there are no structs
token ~ kernel void f() { @struct point p; } ~ there are no structs
token ~ kernel void f(global int *a) { a@->x = 1; } ~ there are no structs
token ~ kernel void f(global int *a) { int y = a-@>x; } ~ there are no structs
token ~ kernel void f() { @enum { A, B }; } ~ there are no enums
token ~ kernel void f(@bool b) { } ~ there is no bool
token ~ kernel void f(global @int4 *a) { } ~ there are no vectors
token ~ kernel void f() { uchar16 @v; } ~ there are no vectors
token ~ kernel void f() { int x = (int4)@(1, 2, 3, 4); } ~ there are no vectors
token ~ kernel void f() { uint32_t @x = 1; } ~ write uint
token ~ kernel void f(global @int64_t *a) { } ~ write long
token ~ kernel void f(@image2d_t a) { } ~ there are no images
token ~ kernel @__attribute__((reqd_work_group_size(4, 1, 1))) void f() { } ~ leave __attribute__
token ~ @static int f(int x) { return x; } ~ leave the word out
token ~ @inline int f(int x) { return x; } ~ leave the word out
token ~ kernel void f(global @volatile int *a) { } ~ leave volatile out
token ~ kernel void f(global int *@restrict a) { } ~ leave the word out
token ~ kernel void f() { @private int x; } ~ leave the word out
token ~ kernel void f(int x) { @switch (x) { case 1: break; } } ~ there is no switch
token ~ kernel void f(int x) { @goto end; end: ; } ~ there is no goto
token ~ kernel void f() { end@: ; } ~ there are no labels
token ~ kernel void f() { int x = @sizeof(int); } ~ there is no sizeof
token ~ void f() { local int t[4]@[4]; } ~ an array has one dimension
token ~ void f() { int t[16]; t[1]@[2] = 3; } ~ an array has one dimension
token ~ void f() { int t[16]; int x = t[1]@[2]; } ~ an array has one dimension
token ~ void f() { int t[2] @= {1, 2}; } ~ an array has no initialiser
token ~ void f(int n) { int t[@n]; } ~ the length of an array
token ~ void f() { int t[2 @* 2]; } ~ the length of an array
token ~ void f() { int t[@] = {1, 2}; } ~ the length of an array
token ~ void f() { local int t[@N]; } ~ the length of an array
token ~ void f() { local int x@; } ~ a variable in local memory is an array
token ~ void f() { local int x @= 0; } ~ a variable in local memory is an array
token ~ void f() { constant int @x = 0; } ~ behind an address space stands a pointer
token ~ void f() { int x; int @*p = &x; } ~ there are no pointers to private memory
token ~ void g(int x) { } void f() { int x; g(&x@); } ~ there are no addresses of variables
token ~ void f() { local int x[1]; atomic_add(&x@, 1); } ~ there are no addresses of variables
token ~ void f(global int *a) { int x = *(@global int *)a; } ~ there are no casts of pointers
token ~ void f(global int *a) { int x = *(uint @*)a; } ~ there are no casts of pointers
token ~ void f(global int *a) { a[0] = a[1] @= 2; } ~ an assignment is a statement
token ~ void f(int x) { if (x @= 2) ; } ~ an assignment is a statement
token ~ void f(int x, int y) { while ((x @= y - 1) > 0) ; } ~ an assignment is a statement
token ~ void f(global int *a) { int i = 0; a[i@++] = 1; } ~ ++ and -- are statements
token ~ void f(int n) { while (n@-- > 0) ; } ~ ++ and -- are statements
token ~ void f(int n) { int x = @++n; } ~ ++ and -- are statements
token ~ void f(global int *a) { *a@++ = 1; } ~ ++ and -- are statements
token ~ void f(global int *a) { @(*a)++; } ~ a statement begins with no bracket
token ~ void f(int n) { if (n) @int x = 1; } ~ a declaration stands in a block
token ~ void f(int n) { if (n) ; else @int x = 1; } ~ a declaration stands in a block
token ~ void f(int n) { for (int i@; i < n; i++) ; } ~ the variable of a for has a value
token ~ void f(int n) { if (@int x = n) ; } ~ a declaration stands in front of an if
token ~ void f(int n) { n = 1; n = 2 @} ~ an operator, a closing bracket or a ; is wanted
token ~ void f(int n) { n = 1 @n = 2; } ~ an operator, a closing bracket or a ; is wanted
token ~ void f(int n) { if (n) n = 1; n = 2; @else n = 3; } ~ an else stands behind
token ~ void f(int n) { if @n n = 1; } ~ brackets are wanted
token ~ void f(int n) { n = 1;@ ~ the source ends inside of a function
token ~ void f(int n) { n = 1; @kernel void g() { } ~ a function stands outside
token ~ void f(int n) { n = 1; int g@(int x) { return x; } ~ a function stands outside
token ~ void f(int n) { n @== 1; } ~ a statement that begins with a name
token ~ void f(int n) { @1; } ~ a declaration or a statement is wanted
token ~ void f(int n) { point @p; } ~ this is no type
token ~ void f(int n) { n = n + @; } ~ an operand is wanted
token ~ void f(int n) { n = (@); } ~ an expression is wanted
token ~ void f(int n) { int @= 3; } ~ a name is wanted behind the type
token ~ void f(int n) { f(n, @); } ~ an argument is wanted
name ~ void f() { int y = @sqrt(4); } ~ there are no floating-point numbers
name ~ void f() { int y = @native_exp(4); } ~ there are no floating-point numbers
name ~ void f() { int y = @clamp(4, 1, 2); } ~ there is no clamp
name ~ void f() { int y = @mul24(4, 1); } ~ there is no mul24
name ~ void f() { int y = @convert_int(4); } ~ write a cast
name ~ void f() { mem_fence(@CLK_LOCAL_MEM_FENCE); } ~ there is no mem_fence
name ~ void f(global int *a) { @atom_inc(a); } ~ write atomic_
name ~ void f(global int *a) { @atomic_fetch_add(a, 1); } ~ there are atomic_add
name ~ void f() { @printf(1); } ~ there is no printf
name ~ void f() { int y = @g(4); } int g(int x) { return x; } ~ a helper stands in front
name ~ void f() { int y = @INT_MAX; } ~ write 2147483647
name ~ void f() { int y = @N; } ~ there is no preprocessor
name ~ void f() { int y = @true; } ~ there is no bool
name ~ void f(global int *a) { if (a == @NULL) ; } ~ there are no null pointers
name ~ void f() { int y = @M_PI; } ~ there are no floating-point numbers
name ~ void f() { int y = @CLK_LOCAL_MEM_FENCE; } ~ a fence stands in the brackets
name ~ void f() { int y = @x; } ~ a name is declared in front of its use
name ~ void f() { int y = @A[1]; } ~ a name is declared in front of its use
mismatch ~ int q(int x) { return x; } void f() { int y = @q(2) + 1; } ~ a helper's call is a statement
mismatch ~ int q(int x) { return x; } int f() { return @q(2); } ~ a helper's call is a statement
mismatch ~ int q(int x) { return x; } void f() { if (@q(2)) ; } ~ a helper's call is a statement
mismatch ~ int q(int x) { return x; } void f() { int y = q(@q(2)); } ~ a helper's call is a statement
mismatch ~ void f(global int *a) { a[0] = min(a[0], @2u); } ~ min, max and rotate
mismatch ~ void f(global int *a) { a[0] = max((int)get_global_id(0), @get_local_id(0)); } ~ min, max and rotate
mismatch ~ kernel void f() { @return 1; } ~ a kernel and a helper with void
mismatch ~ kernel void f() { @break; } ~ break and continue stand in a loop
mismatch ~ kernel void f() { int y = @barrier(CLK_LOCAL_MEM_FENCE); } ~ a call of barrier
mismatch ~ void f(global int *a) { int y = @a; } ~ -
space ~ void g() { local int @t[4]; } ~ an array in local memory
space ~ kernel void f() { if (1) { local int @t[4]; } } ~ an array in local memory
space ~ void g(local int *p) { } kernel void f() { int t[4]; g(@t); } ~ a pointer stays in its address space
token ~ void @kernel f() { } ~ __kernel stands in front of void
token ~ void f() { return (@void)0; } ~ there is no cast to void
token ~ void f(global int *a) { @(void)a; } ~ a statement begins with no bracket
token ~ void f() { int @(*g)(int); } ~ there are no pointers to functions
token ~ void f(global int *a) { a(0) @= 1; } ~ a call and brackets are no target
token ~ kernel void f(global @atomic_int *a) { } ~ write int
token ~ void f(global int *a) { a[0] = a[1] > 0 ? a[1]@-- : 0; } ~ ++ and -- are statements
token ~ void f(global int *a) { int i = get_global_id(0) @a[i] = 1; } ~ an operator, a closing bracket or a ; is wanted
token ~ void f(int x) { while (@int y = x) ; } ~ a declaration stands in front of a while
mismatch ~ void f() { @min = 3; } ~ a built-in function is called
target ~ void f(global int *a) { int b[2]; @b = a; } ~ an array is assigned
target ~ void f(constant int *a) { @a[0] = 1; } ~ -
count ~ void f() { ulong x = @get_global_size(); } ~ it takes a dimension
count ~ void f() { @barrier(); } ~ it takes fences
count ~ void f(global int *a) { @atomic_add(a); } ~ it takes a pointer and a value
count ~ void g() { } void f() { @g(1); } ~ -
recursion ~ int f(int n) { int r = @f(n); return r; } ~ no function calls itself
mismatch ~ void f(int x) { x = x / * @x; } ~ * joins two integers
token ~ kernel void f() { if (get_global_id(0) @= 0) ; } ~ an assignment is a statement and has no value: write it in front
";

/// The fault of a kind of row.
fn fault_at(kind: &str, at: u32) -> Refused {
    match kind {
        "byte" => Refused::Syntax(SyntaxFault::BadByte { at }),
        "token" => Refused::Syntax(SyntaxFault::Unexpected { at }),
        "name" => Refused::Type(TypeFault::UnknownName { at }),
        "mismatch" => Refused::Type(TypeFault::TypeMismatch { at }),
        "target" => Refused::Type(TypeFault::NotAssignable { at }),
        "count" => Refused::Type(TypeFault::WrongArgumentCount { at }),
        "recursion" => Refused::Type(TypeFault::Recursion { at }),
        _ => Refused::Type(TypeFault::WrongSpace { at }),
    }
}

/// Shows that the hint at the fault of each row begins as the row says.
#[test]
fn hints(rt: HostRuntime) -> Result<(), Fail> {
    let alloc = rt.alloc();
    for row in CASES.lines() {
        let (kind, rest) = row.split_once(" ~ ").unwrap_or((row, ""));
        let (text, wanted) = rest.split_once(" ~ ").unwrap_or((rest, ""));
        let (front, back) = text.split_once('@').unwrap_or((text, ""));
        let source = format!(in alloc; "{front}{back}")?;
        let fault = fault_at(kind, front.len() as u32);
        let refusal = refusal_of(alloc, source.as_bytes(), 1, fault)?;
        let hint = refusal.hint.unwrap_or("-");
        assert!(rt; hint.starts_with(wanted), "{row}: {hint}");
    }
    Ok(())
}

/// Shows how a refusal is written: the place and the fault, the line with a mark below it, and the hint.
#[test]
fn quoted(rt: HostRuntime) -> Result<(), Fail> {
    let fault = Refused::Syntax(SyntaxFault::Unexpected { at: 13 });
    let text = refusal_text(rt.alloc(), "a.cl", b"int f() {\n\tx y; }", 3, fault)?;
    let wanted = "\
a.cl:4:4: syntax 3 Unexpected: no program goes on like this
       4 |     x y; }
         |       ^
  hint: this is no type: the types are char uchar short ushort int uint long ulong size_t; there are no typedefs and no structs
";
    assert!(rt; text.as_str() == wanted);
    Ok(())
}
