//! Words of OpenCL C that the language lacks, with what to write.
#![tactic(auto)]

ghost use Rattle.std.specs.Prelude.{◌≡◌, bytes_eq, option_copied};
ghost use Rattle.std.specs.Char.{is_ascii_lowercase};
ghost use Rattle.std.specs.List.{list_any};
ghost use Rattle.opencl_words.specs.Words.{is_vector_of, is_vector, is_built_in, word_said, function_said, argument_said, undeclared_said, value_said, is_capital};

use crate::said::{is_one_of, said_in_front, said_of, said_or};
use clmodel::setup::{PREDEFINED, Predefined};

/// What to write for floating-point numbers.
pub const NO_FLOATS: &str =
    "there are no floating-point numbers: count in fixed point, as int or long of a small unit";

/// What to write for structs and vectors.
pub const NO_STRUCTS: &str =
    "there are no structs and no vectors: pass the fields as parameters, or an array for each field";

/// What to write for vectors.
pub(crate) const NO_VECTORS: &str =
    "there are no vectors: write a variable, or an element of an array, for each component";

/// What to write for a function that no table has.
pub(crate) const HELPERS: &str =
    "a helper stands in front of its calls; built in are get_global_id and its like, min max abs clz popcount rotate, barrier, and atomic functions";

/// What the atomic functions take that no table has.
pub(crate) const POINTER_AND_VALUE: &str = "it takes a pointer and a value";

/// What to write for a macro.
pub(crate) const NO_MACROS: &str =
    "there is no preprocessor, and no option -D: write the value of a macro in its place";

/// What to write for a name that isn't declared.
pub const UNDECLARED: &str =
    "a name is declared in front of its use, in the same block or in one round it; that of a for is known in it alone";

/// Words that stand nowhere in the language.
pub(crate) static LACKING: [(&[u8], &str); 55] = [
    (
        b"atomic_int",
        "write int: atomic functions take a pointer to any int or uint",
    ),
    (
        b"atomic_uint",
        "write uint: atomic functions take a pointer to any int or uint",
    ),
    (
        b"unsigned",
        "unsigned types have names of one word: uchar, ushort, uint, ulong",
    ),
    (
        b"signed",
        "signed types have names of one word: char, short, int, long",
    ),
    (b"float", NO_FLOATS),
    (b"double", NO_FLOATS),
    (b"half", NO_FLOATS),
    (b"bool", "there is no bool: write int, with 0 and 1"),
    (b"true", "there is no bool: write 1"),
    (b"false", "there is no bool: write 0"),
    (
        b"NULL",
        "there are no null pointers: pass a flag beside the pointer",
    ),
    (b"struct", NO_STRUCTS),
    (
        b"union",
        "there are no unions: keep the integer, and take its parts by shifts and masks",
    ),
    (b"enum", "there are no enums: write the numbers"),
    (
        b"typedef",
        "there are no typedefs: write the type itself; a struct becomes a parameter, or an array, for each field",
    ),
    (
        b"switch",
        "there is no switch: write a chain of if and else if",
    ),
    (
        b"case",
        "there is no switch: write a chain of if and else if",
    ),
    (
        b"default",
        "there is no switch: write a chain of if and else if",
    ),
    (
        b"goto",
        "there is no goto: write a loop with break and continue",
    ),
    (b"sizeof", "there is no sizeof: write the number of bytes"),
    (
        b"static",
        "leave the word out: a function begins with its type alone",
    ),
    (
        b"extern",
        "leave the word out: a function begins with its type alone",
    ),
    (
        b"inline",
        "leave the word out: a function begins with its type alone",
    ),
    (
        b"__inline",
        "leave the word out: a function begins with its type alone",
    ),
    (
        b"volatile",
        "leave volatile out: each access is a step of its own anyway",
    ),
    (
        b"__volatile",
        "leave volatile out: each access is a step of its own anyway",
    ),
    (b"restrict", "leave the word out: it changes nothing here"),
    (b"__restrict", "leave the word out: it changes nothing here"),
    (b"register", "leave the word out: it changes nothing here"),
    (b"auto", "leave the word out: it changes nothing here"),
    (
        b"private",
        "leave the word out: a variable without an address space is private, and no pointer leads to it",
    ),
    (
        b"__private",
        "leave the word out: a variable without an address space is private, and no pointer leads to it",
    ),
    (
        b"generic",
        "there is no generic address space: write a helper for each of __global, __local and __constant",
    ),
    (
        b"__generic",
        "there is no generic address space: write a helper for each of __global, __local and __constant",
    ),
    (
        b"__attribute__",
        "leave __attribute__ and its brackets out: the launch gives the size of a group",
    ),
    (
        b"__read_only",
        "there are no images and no samplers: pass a buffer, and compute the index",
    ),
    (
        b"read_only",
        "there are no images and no samplers: pass a buffer, and compute the index",
    ),
    (
        b"__write_only",
        "there are no images and no samplers: pass a buffer, and compute the index",
    ),
    (
        b"write_only",
        "there are no images and no samplers: pass a buffer, and compute the index",
    ),
    (
        b"image1d_t",
        "there are no images and no samplers: pass a buffer, and compute the index",
    ),
    (
        b"image2d_t",
        "there are no images and no samplers: pass a buffer, and compute the index",
    ),
    (
        b"image3d_t",
        "there are no images and no samplers: pass a buffer, and compute the index",
    ),
    (
        b"sampler_t",
        "there are no images and no samplers: pass a buffer, and compute the index",
    ),
    (
        b"event_t",
        "there are no async copies: copy in a loop, and write a barrier behind it",
    ),
    (b"int8_t", "write char"),
    (b"int16_t", "write short"),
    (b"int32_t", "write int"),
    (b"int64_t", "write long"),
    (b"ptrdiff_t", "write long"),
    (b"intptr_t", "write long"),
    (b"uint8_t", "write uchar"),
    (b"uint16_t", "write ushort"),
    (b"uint32_t", "write uint"),
    (b"uint64_t", "write ulong"),
    (b"uintptr_t", "write ulong"),
];

/// Functions that are lacking.
pub(crate) static FUNCTIONS: [(&[u8], &str); 69] = [
    (
        b"printf",
        "there is no printf: store what you want to see into a buffer, and read it",
    ),
    (
        b"mem_fence",
        "there is no mem_fence: write a barrier, or an atomic function",
    ),
    (
        b"read_mem_fence",
        "there is no mem_fence: write a barrier, or an atomic function",
    ),
    (
        b"write_mem_fence",
        "there is no mem_fence: write a barrier, or an atomic function",
    ),
    (
        b"work_group_barrier",
        "it is of OpenCL 2.0: write barrier(..)",
    ),
    (
        b"get_global_linear_id",
        "it is of OpenCL 2.0: write get_global_id(0) or get_local_id(0), or the sum over the dimensions",
    ),
    (
        b"get_local_linear_id",
        "it is of OpenCL 2.0: write get_global_id(0) or get_local_id(0), or the sum over the dimensions",
    ),
    (
        b"get_enqueued_local_size",
        "it is of OpenCL 2.0: write get_local_size(0)",
    ),
    (b"mul24", "there is no mul24: write x * y"),
    (b"mad24", "there is no mad24: write x * y + z"),
    (
        b"mul_hi",
        "there is no mul_hi: write (int)((long)x * y >> 32)",
    ),
    (b"clamp", "there is no clamp: write min(max(x, low), high)"),
    (
        b"abs_diff",
        "there is no abs_diff: write max(x, y) - min(x, y)",
    ),
    (
        b"add_sat",
        "nothing saturates: compute in long, and write min and max round it",
    ),
    (
        b"sub_sat",
        "nothing saturates: compute in long, and write min and max round it",
    ),
    (
        b"mad_sat",
        "nothing saturates: compute in long, and write min and max round it",
    ),
    (b"hadd", "there is no hadd: write (x + y) >> 1 in long"),
    (
        b"rhadd",
        "there is no rhadd: write (x + y + 1) >> 1 in long",
    ),
    (
        b"upsample",
        "there is no upsample: write (int)high << 16 | low",
    ),
    (b"ctz", "there is no ctz: write popcount((x & -x) - 1)"),
    (
        b"select",
        "there is no select: write c ? b : a for select(a, b, c)",
    ),
    (b"bitselect", "there is no bitselect: write a & ~c | b & c"),
    (b"prefetch", "leave prefetch out: there is no cache"),
    (
        b"wait_group_events",
        "there are no async copies: copy in a loop, and write a barrier behind it",
    ),
    (b"sqrt", NO_FLOATS),
    (b"rsqrt", NO_FLOATS),
    (b"cbrt", NO_FLOATS),
    (b"sin", NO_FLOATS),
    (b"cos", NO_FLOATS),
    (b"tan", NO_FLOATS),
    (b"asin", NO_FLOATS),
    (b"acos", NO_FLOATS),
    (b"atan", NO_FLOATS),
    (b"atan2", NO_FLOATS),
    (b"exp", NO_FLOATS),
    (b"exp2", NO_FLOATS),
    (b"exp10", NO_FLOATS),
    (b"log", NO_FLOATS),
    (b"log2", NO_FLOATS),
    (b"log10", NO_FLOATS),
    (b"pow", NO_FLOATS),
    (b"pown", NO_FLOATS),
    (b"powr", NO_FLOATS),
    (b"fabs", NO_FLOATS),
    (b"floor", NO_FLOATS),
    (b"ceil", NO_FLOATS),
    (b"round", NO_FLOATS),
    (b"trunc", NO_FLOATS),
    (b"rint", NO_FLOATS),
    (b"fract", NO_FLOATS),
    (b"fmod", NO_FLOATS),
    (b"remainder", NO_FLOATS),
    (b"fma", NO_FLOATS),
    (b"mad", NO_FLOATS),
    (b"fmin", NO_FLOATS),
    (b"fmax", NO_FLOATS),
    (b"hypot", NO_FLOATS),
    (b"ldexp", NO_FLOATS),
    (b"sign", NO_FLOATS),
    (b"step", NO_FLOATS),
    (b"smoothstep", NO_FLOATS),
    (b"mix", NO_FLOATS),
    (b"dot", NO_FLOATS),
    (b"cross", NO_FLOATS),
    (b"length", NO_FLOATS),
    (b"distance", NO_FLOATS),
    (b"normalize", NO_FLOATS),
    (b"isnan", NO_FLOATS),
    (b"isinf", NO_FLOATS),
];

/// How names of functions begin that are lacking.
pub(crate) static PREFIXES: [(&[u8], &str); 17] = [
    (b"as_float", NO_FLOATS),
    (b"as_double", NO_FLOATS),
    (b"convert_float", NO_FLOATS),
    (
        b"atom_",
        "write atomic_ for atom_: on int and uint alone, there are no 64-bit atomic functions",
    ),
    (
        b"atomic_",
        "there are atomic_add sub min max and or xor inc dec xchg cmpxchg, those of OpenCL 1.2 on int and uint",
    ),
    (
        b"async_work_group",
        "there are no async copies: copy in a loop, and write a barrier behind it",
    ),
    (b"native_", NO_FLOATS),
    (b"half_", NO_FLOATS),
    (b"convert_", "write a cast: (int)x; nothing saturates"),
    (b"as_", "write a cast: (int)x, which keeps the low bits"),
    (
        b"vload",
        "there are no vectors: load the elements one by one",
    ),
    (
        b"vstore",
        "there are no vectors: store the elements one by one",
    ),
    (
        b"read_image",
        "there are no images: pass a buffer, and compute the index",
    ),
    (
        b"write_image",
        "there are no images: pass a buffer, and compute the index",
    ),
    (
        b"sub_group_",
        "there are no sub-groups: use local memory and a barrier",
    ),
    (
        b"work_group_",
        "it is of OpenCL 2.0: use local memory and a barrier",
    ),
    (
        b"get_sub_group",
        "there are no sub-groups: use local memory and a barrier",
    ),
];

/// Numbers whose names are lacking.
pub(crate) static CONSTANTS: [(&[u8], &str); 22] = [
    (b"INT_MAX", "write 2147483647"),
    (b"INT_MIN", "write -2147483647 - 1"),
    (b"UINT_MAX", "write 4294967295u"),
    (b"LONG_MAX", "write 9223372036854775807"),
    (b"LONG_MIN", "write -9223372036854775807 - 1"),
    (b"ULONG_MAX", "write 18446744073709551615ul"),
    (b"CHAR_BIT", "write 8"),
    (b"CHAR_MAX", "write 127"),
    (b"CHAR_MIN", "write -128"),
    (b"UCHAR_MAX", "write 255"),
    (b"SHRT_MAX", "write 32767"),
    (b"SHRT_MIN", "write -32768"),
    (b"USHRT_MAX", "write 65535"),
    (b"M_PI", NO_FLOATS),
    (b"M_PI_F", NO_FLOATS),
    (b"MAXFLOAT", NO_FLOATS),
    (b"FLT_MAX", NO_FLOATS),
    (b"FLT_MIN", NO_FLOATS),
    (b"FLT_EPSILON", NO_FLOATS),
    (b"INFINITY", NO_FLOATS),
    (b"NAN", NO_FLOATS),
    (b"HUGE_VALF", NO_FLOATS),
];

/// What built-in functions take, by how their names begin.
pub(crate) static ARGUMENTS: [(&[u8], &str); 12] = [
    (b"get_work_dim", "it takes no argument: get_work_dim()"),
    (b"get_", "it takes a dimension: get_global_id(0)"),
    (b"barrier", "it takes fences: barrier(CLK_LOCAL_MEM_FENCE)"),
    (b"min", "it takes two arguments"),
    (b"max", "it takes two arguments"),
    (b"rotate", "it takes two arguments"),
    (b"abs", "it takes one argument"),
    (b"clz", "it takes one argument"),
    (b"popcount", "it takes one argument"),
    (b"atomic_inc", "it takes a pointer alone"),
    (b"atomic_dec", "it takes a pointer alone"),
    (
        b"atomic_cmpxchg",
        "it takes a pointer, what it compares with, and what it stores",
    ),
];

/// Types that have vectors.
pub(crate) static ELEMENTS: [&[u8]; 11] = [
    b"char", b"uchar", b"short", b"ushort", b"int", b"uint", b"long", b"ulong", b"float",
    b"double", b"half",
];

/// How many components a vector has.
pub(crate) static WIDTHS: [&[u8]; 5] = [b"2", b"3", b"4", b"8", b"16"];

/// Whether a word is this type's name with the number of components behind it.
fn is_vector_of(word: &[u8], element: &[u8]) -> bool
    ensures { result ≡ is_vector_of word.now element.now }
{
    word.starts_with(element) && is_one_of(&WIDTHS, &word[element.len()..])
}

/// Whether a word is the name of one of these types with the number of components behind it.
fn is_vector_in(elements: &[&[u8]], word: &[u8]) -> bool
    ensures { result ≡ list_any (λ element. is_vector_of word.now element.now) elements.now }
{
    elements.iter().any(|element| is_vector_of(word, *element))
}

/// Whether a word is a type's name with the number of components behind it (OpenCL 1.2, section 6.1.2).
fn is_vector(word: &[u8]) -> bool
    ensures { result ≡ is_vector word.now }
{
    is_vector_in(&ELEMENTS, word)
}

/// Whether a table of predefined names has the word.
fn is_named(table: &[(&[u8], Predefined)], word: &[u8]) -> bool
    ensures { result ≡ list_any (λ entry. bytes_eq entry.0.now word.now) table.now }
{
    table.iter().any(|entry| entry.0 == word)
}

/// Whether a word names a built-in function of the language, or a fence.
pub fn is_built_in(word: &[u8]) -> bool
    ensures { result ≡ is_built_in word.now }
{
    is_named(&PREDEFINED, word)
}

/// What to write for a word that stands nowhere in the language.
pub fn word_hint(word: &[u8]) -> Option<&'static str>
    ensures { option_copied result ≡ word_said word.now }
{
    if is_vector(word) {
        return Some(NO_VECTORS);
    }
    said_of(&LACKING, word)
}

/// What to write for a function that the language lacks.
pub fn function_hint(word: &[u8]) -> &'static str
    ensures { result.now ≡ function_said word.now }
{
    let begun = said_or(said_in_front(&PREFIXES, word), HELPERS);
    said_or(said_of(&FUNCTIONS, word), begun)
}

/// What a built-in function takes; none for any other function.
pub fn argument_hint(word: &[u8]) -> Option<&'static str>
    ensures { option_copied result ≡ argument_said word.now }
{
    if !is_built_in(word) {
        return None;
    }
    let taken = said_or(said_in_front(&ARGUMENTS, word), POINTER_AND_VALUE);
    Some(taken)
}

/// Whether a word has a letter from a to z.
fn has_small_letter(word: &[u8]) -> bool
    ensures { result ≡ list_any is_ascii_lowercase word.now }
{
    word.iter().any(|byte| byte.is_ascii_lowercase())
}

/// Whether a word is as macros are written: without a small letter.
fn is_capital(word: &[u8]) -> bool
    ensures { result ≡ is_capital word.now }
{
    !has_small_letter(word)
}

/// What to write for a name that isn't declared.
fn undeclared_hint(word: &[u8]) -> &'static str
    ensures { result.now ≡ undeclared_said word.now }
{
    if is_capital(word) {
        NO_MACROS
    } else {
        UNDECLARED
    }
}

/// What to write for the name of a number that the language lacks, or for one that isn't declared.
pub fn value_hint(word: &[u8]) -> &'static str
    ensures { result.now ≡ value_said word.now }
{
    said_or(said_of(&CONSTANTS, word), undeclared_hint(word))
}
