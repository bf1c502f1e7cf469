//! Hints at the first token that no program has there, by the tokens next to it.
#![tactic(auto)]

ghost use Rattle.std.specs.Prelude.{◌≡◌, option_copied};
ghost use Rattle.hint_rules.specs.Near.{near_of};
ghost use Rattle.hint_rules.specs.Rules as rules;

use crate::marks::{Mark, is_nothing};
use crate::near::{Surroundings, TokensAround, setting_of};
use crate::seen::Seen;
use Is::{Any, Assigns, One, Operator, Space, Type};
use Mark::{
    Assign, CloseBrace, CloseRound, CloseSquare, Colon, Comma, Const, Do, Else, For, If, Kernel,
    Name, Nothing, OpenBrace, OpenRound, OpenSquare, Semicolon, SizeT, Star, Step, Void, While,
};
use opencl_words::{NO_STRUCTS, said_or};

/// What a token is looked for as.
#[derive(Clone, Copy)]
pub(crate) enum Is {
    /// Any token, or none
    Any,
    /// The word of a type
    Type,
    /// The word of an address space
    Space,
    /// `=`, or one with an operator
    Assigns,
    /// An operator in front of its operand
    Operator,
    One(Mark),
}

/// Which part of a source a rule is for.
#[derive(Clone, Copy)]
pub(crate) enum SourcePart {
    Anywhere,
    /// Outside of functions
    Outside,
    /// The parameters of a function
    Head,
    /// The block of a function
    Body,
    /// There, the first token of a statement
    First,
    /// There, the second token of a statement
    Second,
    /// A declaration, outside of round brackets
    Declared,
    /// A declaration's length of an array
    Length,
    /// A declaration of local memory
    Local,
    /// The first part of a `for`
    Loop,
    /// Round brackets in the block of a function
    Round,
    /// Behind the address of a name
    Address,
}

/// Where a rule fits: in which part of a source, behind which two tokens, and at which one.
type Looked = (SourcePart, Is, Is, Is);

/// What to write for a word that is no type.
const TYPES: &str =
    "this is no type: the types are char uchar short ushort int uint long ulong size_t; there are no typedefs and no structs";

/// What to write for a type of two words.
const ONE_WORD: &str = "a type is one word: long for long int and long long, short for short int";

/// What to write for a `const` that isn't behind an address space.
const NO_CONST: &str =
    "const stands behind an address space alone, as in __global const int *p: leave it out of variables and values";

/// What to write for a variable outside of functions.
const NO_VARIABLES: &str =
    "there are no variables outside of functions: pass the value as a parameter, or write the number in its place";

/// What to write for `++` or `--` within an expression.
const NO_STEP: &str = "++ and -- are statements and have no value: write i++; before or behind";

/// What to write for a function within another.
const NOT_NESTED: &str =
    "a function stands outside of other functions: a } may be missing in front of it";

/// What to write for a declaration that is the one statement of an `if`, an `else` or a loop.
const IN_A_BLOCK: &str = "a declaration stands in a block: write { } round it";

/// What to write for a cast to a pointer.
const NO_CASTS: &str =
    "there are no casts of pointers: a pointer keeps its type and its address space";

/// What to write for an `if`, a `while` or a `for` without its brackets.
const BRACKETS: &str = "brackets are wanted: if (..), while (..), for (..; ..; ..)";

/// What to write where no rule fits.
pub(crate) const NO_RULE: &str = "no program goes on like this";

/// The rules, each with what to write: the first one that fits is taken.
pub(crate) static RULES: [(Looked, &str); 83] = [
    (
        (SourcePart::Outside, Any, One(Nothing), One(Nothing)),
        "a source has a function at least: __kernel void f(__global int *a) { a[0] = 1; }",
    ),
    (
        (SourcePart::Outside, Any, Any, Space),
        "outside of functions stand no variables, and no function gives a pointer: pass a pointer to __constant memory",
    ),
    ((SourcePart::Outside, Any, Any, One(Const)), NO_VARIABLES),
    (
        (SourcePart::Outside, Any, One(Void), One(Kernel)),
        "__kernel stands in front of void",
    ),
    (
        (SourcePart::Outside, Any, One(Kernel), Any),
        "a kernel gives no value: __kernel void f(..) { .. }",
    ),
    ((SourcePart::Outside, Any, Type, Type), ONE_WORD),
    (
        (SourcePart::Outside, Any, Type, One(Star)),
        "a function gives an integer or nothing, and no pointer",
    ),
    ((SourcePart::Outside, Type, One(Name), Any), NO_VARIABLES),
    (
        (SourcePart::Outside, Any, One(CloseRound), One(Semicolon)),
        "there are no prototypes: write the whole function in front of its calls",
    ),
    (
        (SourcePart::Outside, Any, One(CloseRound), Any),
        "the block of the function is wanted: { .. }",
    ),
    (
        (SourcePart::Outside, Any, One(CloseBrace), One(Semicolon)),
        "leave out the ; behind a function",
    ),
    (
        (SourcePart::Outside, Any, One(CloseBrace), One(CloseBrace)),
        "one } too many, here or before",
    ),
    ((SourcePart::Outside, Any, One(Nothing), One(Name)), TYPES),
    (
        (SourcePart::Outside, Any, One(CloseBrace), One(Name)),
        TYPES,
    ),
    (
        (SourcePart::Outside, Any, Any, Any),
        "a function is wanted: __kernel void f(..) { .. }, or a helper as int g(int x) { .. }",
    ),
    (
        (SourcePart::Head, Any, One(OpenRound), One(Void)),
        "a function without parameters has empty brackets: f()",
    ),
    (
        (SourcePart::Head, Any, Type, One(Star)),
        "a pointer names its address space: __global int *a, or __local, or __constant",
    ),
    (
        (SourcePart::Head, Any, One(Star), One(Star)),
        "there are no pointers to pointers: pass one buffer, and where a part of it begins",
    ),
    (
        (SourcePart::Head, Any, One(Name), One(OpenSquare)),
        "a parameter is no array: write a pointer, as __global int *a",
    ),
    (
        (SourcePart::Head, Any, Any, One(SizeT)),
        "a kernel has no parameter of type size_t, nor a pointer to it: write ulong",
    ),
    ((SourcePart::Head, Any, Any, One(Const)), NO_CONST),
    ((SourcePart::Head, Any, Type, Type), ONE_WORD),
    (
        (SourcePart::Head, Any, Type, One(Name)),
        "a parameter with an address space is a pointer: __global int *a",
    ),
    (
        (SourcePart::Head, Any, Type, Any),
        "a name is wanted behind the type of a parameter",
    ),
    (
        (SourcePart::Head, Any, One(Star), Any),
        "the name of the pointer is wanted",
    ),
    (
        (SourcePart::Head, Any, One(Name), Any),
        "a , or a ) is wanted behind a parameter",
    ),
    ((SourcePart::Head, Any, Any, One(Name)), TYPES),
    (
        (SourcePart::Head, Any, Any, Any),
        "a parameter is wanted: int n, or __global int *a",
    ),
    (
        (SourcePart::Body, Any, Any, One(Nothing)),
        "the source ends inside of a function: a } is missing",
    ),
    ((SourcePart::Body, Any, Any, One(Kernel)), NOT_NESTED),
    (
        (SourcePart::Declared, Type, One(Name), One(OpenRound)),
        NOT_NESTED,
    ),
    (
        (SourcePart::Body, Any, One(OpenRound), One(Void)),
        "there is no cast to void: leave it out",
    ),
    ((SourcePart::Body, Any, Any, One(Void)), NOT_NESTED),
    (
        (SourcePart::Declared, Any, Type, One(OpenRound)),
        "there are no pointers to functions: choose among calls by if and else",
    ),
    (
        (SourcePart::Body, Any, One(CloseSquare), One(OpenSquare)),
        "an array has one dimension: write int a[12]; for int a[3][4]; and a[y * 4 + x] for a[y][x]",
    ),
    (
        (SourcePart::Length, Any, Any, Any),
        "the length of an array is one number: compute it, and write it out",
    ),
    (
        (SourcePart::Declared, Any, One(CloseSquare), One(Assign)),
        "an array has no initialiser: assign its elements one by one",
    ),
    (
        (SourcePart::Local, Type, One(Name), Any),
        "a variable in local memory is an array: write __local int x[1]; and x[0] for x",
    ),
    (
        (SourcePart::Address, Any, Any, Any),
        "there are no addresses of variables: & stands in front of an element, as &a[i]; a helper gives its value back by return",
    ),
    ((SourcePart::Body, Any, One(OpenRound), Space), NO_CASTS),
    (
        (SourcePart::Body, One(OpenRound), Type, One(Star)),
        NO_CASTS,
    ),
    (
        (SourcePart::Body, Any, Type, One(Star)),
        "there are no pointers to private memory: a pointer begins with __global, __local or __constant",
    ),
    (
        (SourcePart::Declared, Any, One(Star), One(Star)),
        "there are no pointers to pointers: keep where a part of a buffer begins, as a number",
    ),
    ((SourcePart::Body, Any, Type, Type), ONE_WORD),
    (
        (SourcePart::Body, One(If), One(OpenRound), Type),
        "a declaration stands in front of an if",
    ),
    (
        (SourcePart::Body, One(While), One(OpenRound), Type),
        "a declaration stands in front of a while",
    ),
    (
        (SourcePart::Body, Any, Type, One(Name)),
        "behind an address space stands a pointer: leave the space out of a variable",
    ),
    ((SourcePart::Body, Any, Space, One(Name)), TYPES),
    ((SourcePart::Body, Any, Any, One(Const)), NO_CONST),
    ((SourcePart::Body, Any, One(CloseRound), Type), IN_A_BLOCK),
    ((SourcePart::Body, Any, One(CloseRound), Space), IN_A_BLOCK),
    ((SourcePart::Body, Any, One(Else), Type), IN_A_BLOCK),
    ((SourcePart::Body, Any, One(Else), Space), IN_A_BLOCK),
    ((SourcePart::Body, Any, One(Do), Type), IN_A_BLOCK),
    ((SourcePart::Body, Any, One(Do), Space), IN_A_BLOCK),
    (
        (SourcePart::Round, Any, One(OpenRound), One(Comma)),
        "an expression is wanted, or the closing bracket",
    ),
    (
        (SourcePart::Round, Any, One(Comma), Any),
        "an argument is wanted behind a ,",
    ),
    (
        (SourcePart::Loop, Any, Any, One(Comma)),
        "a for declares or assigns one variable: write the other ones in front of it",
    ),
    (
        (SourcePart::Declared, Any, Any, One(Comma)),
        "a declaration declares one name: write int a; int b; for int a, b;",
    ),
    (
        (SourcePart::Body, Any, Any, One(Comma)),
        "there is no comma operator: write two statements; what a for does twice in each turn stands at the end of its body",
    ),
    ((SourcePart::Body, Any, Any, One(Step)), NO_STEP),
    ((SourcePart::Body, Any, One(Step), Any), NO_STEP),
    (
        (SourcePart::Loop, Type, One(Name), One(Semicolon)),
        "the variable of a for has a value: for (int i = 0; ..; ..)",
    ),
    (
        (SourcePart::Body, Any, One(Assign), One(OpenBrace)),
        "there are no values in braces: assign elements and fields one by one",
    ),
    (
        (SourcePart::Body, Any, Type, One(Assign)),
        "a name is wanted behind the type",
    ),
    (
        (SourcePart::Round, Any, Any, Assigns),
        "an assignment is a statement and has no value: write it in front of the one round it, and == to compare",
    ),
    (
        (SourcePart::Body, Any, One(CloseRound), Assigns),
        "a call and brackets are no target: write a[i] for an element",
    ),
    (
        (SourcePart::Body, Any, Any, Assigns),
        "an assignment is a statement and has no value: write b = c; a = b; for a = b = c, and == to compare",
    ),
    ((SourcePart::Second, Any, One(Name), One(Name)), TYPES),
    ((SourcePart::Second, Any, One(Name), One(Star)), TYPES),
    (
        (SourcePart::Second, Any, One(Name), One(Colon)),
        "there are no labels and no goto: write a loop with break and continue",
    ),
    (
        (SourcePart::Second, Any, One(Name), Any),
        "a statement that begins with a name is x = e; x[i] = e; f(e); or x++;",
    ),
    (
        (SourcePart::Body, Any, Any, One(Else)),
        "an else stands behind the one statement of its if: put several into { }",
    ),
    ((SourcePart::Body, Any, One(If), Any), BRACKETS),
    ((SourcePart::Body, Any, One(While), Any), BRACKETS),
    ((SourcePart::Body, Any, One(For), Any), BRACKETS),
    (
        (SourcePart::First, Any, Any, One(OpenRound)),
        "a statement begins with no bracket: write *p += 1; for (*p)++; and leave (void)x; out",
    ),
    (
        (SourcePart::First, Any, Any, Any),
        "a declaration or a statement is wanted: an expression alone is none",
    ),
    (
        (SourcePart::Anywhere, Any, One(OpenRound), Any),
        "an expression is wanted, or the closing bracket",
    ),
    (
        (SourcePart::Anywhere, Any, One(OpenSquare), Any),
        "an expression is wanted between [ and ]",
    ),
    (
        (SourcePart::Anywhere, Any, Operator, Any),
        "an operand is wanted: a number, a name, an element, a call or brackets",
    ),
    (
        (SourcePart::Anywhere, Any, Type, Any),
        "a name is wanted behind the type",
    ),
    (
        (SourcePart::Anywhere, Any, Any, Any),
        "an operator, a closing bracket or a ; is wanted: a ; may be missing at the end of the line before",
    ),
];

/// Whether it is the word of a type, `size_t` among them.
fn is_type(mark: Mark) -> bool
    ensures { result ≡ rules.is_type mark }
{
    matches!(mark, Mark::Type | SizeT)
}

/// Whether it is the word of an address space, `__local` among them.
fn is_space(mark: Mark) -> bool
    ensures { result ≡ rules.is_space mark }
{
    matches!(mark, Mark::Space | Mark::Local)
}

/// Whether it is `=`, alone or with an operator.
fn is_assignment(mark: Mark) -> bool
    ensures { result ≡ rules.is_assignment mark }
{
    matches!(mark, Assign | Mark::Compound)
}

/// Whether an operand stands behind it.
fn is_operator(mark: Mark) -> bool
    ensures { result ≡ rules.is_operator mark }
{
    matches!(
        mark,
        Assign
            | Mark::Compound
            | Star
            | Mark::Minus
            | Mark::And
            | Mark::Greater
            | Colon
            | Mark::Operator
    )
}

/// Whether an operand ends with it.
fn ends_operand(mark: Mark) -> bool
    ensures { result ≡ rules.ends_operand mark }
{
    matches!(mark, Name | Mark::Number | CloseRound | CloseSquare)
}

/// Whether a token is what is looked for.
fn fits(is: Is, mark: Mark) -> bool
    ensures { result ≡ rules.fits is mark }
{
    match is {
        Any => true,
        Type => is_type(mark),
        Space => is_space(mark),
        Assigns => is_assignment(mark),
        Operator => is_operator(mark),
        One(wanted) => mark == wanted,
    }
}

/// Whether a declaration goes on.
fn declares(seen: Seen) -> bool
    ensures { result ≡ rules.declares seen }
{
    let first = seen.statement.first;
    seen.brackets.braces > 0 && (is_type(first) || is_space(first))
}

/// Whether the last two tokens are the address of a name: an `&` that joins nothing, and the name.
fn takes_address(seen: Seen) -> bool
    ensures { result ≡ rules.takes_address seen }
{
    let tail = seen.tail;
    tail.last == Name && tail.second == Mark::And && !ends_operand(tail.third)
}

/// Whether what stands in front of a place is a part of a source, but for the parts of a body.
fn is_in(part: SourcePart, seen: Seen) -> bool
    ensures { result ≡ rules.is_in part seen }
{
    let (brackets, statement) = (seen.brackets, seen.statement);
    let body = brackets.braces > 0;
    match part {
        SourcePart::Anywhere => true,
        SourcePart::Outside => !body && brackets.rounds == 0,
        SourcePart::Head => !body && brackets.rounds > 0,
        SourcePart::Body => body,
        SourcePart::First => body && is_nothing(statement.first),
        SourcePart::Second => body && statement.is_one,
        SourcePart::Declared => declares(seen) && brackets.rounds == 0,
        SourcePart::Length => declares(seen) && brackets.squares > 0 && !statement.assigns,
        SourcePart::Local => body && statement.first == Mark::Local,
        SourcePart::Loop => body && statement.first == For,
        SourcePart::Round => body && brackets.rounds > 0,
        SourcePart::Address => body && takes_address(seen),
    }
}

/// Whether a rule fits a place: its part, the last two tokens, and the one at the place.
fn meets(looked: Looked, setting: Surroundings) -> bool
    ensures { result ≡ rules.meets looked setting }
{
    let (part, second, last, here) = looked;
    let tail = setting.seen.tail;
    fits(here, setting.here)
        && fits(last, tail.last)
        && fits(second, tail.second)
        && is_in(part, setting.seen)
}

/// What the first rule says that fits.
fn hint_in(table: &[(Looked, &'static str)], setting: Surroundings) -> Option<&'static str>
    ensures { option_copied result ≡ rules.first_said (rules.rows table.now) setting }
{
    for rule in table {
        if meets(rule.0, setting) {
            return Some(rule.1);
        }
    }
    None
}

/// Whether two tokens are what `->` is read as.
fn is_arrow(first: Mark, second: Mark) -> bool
    ensures { result ≡ rules.is_arrow first second }
{
    first == Mark::Minus && second == Mark::Greater
}

/// What is said of a place.
fn hint_of(setting: Surroundings) -> &'static str
    ensures { result.now ≡ rules.setting_said setting }
{
    if is_arrow(setting.here, setting.next) || is_arrow(setting.seen.tail.last, setting.here) {
        return NO_STRUCTS;
    }
    said_or(hint_in(&RULES, setting), NO_RULE)
}

/// A hint at the first token that no program has at a place, by the tokens round it.
pub fn token_hint(place: TokensAround<'_>) -> &'static str
    ensures { result.now ≡ rules.token_said (near_of place.entry) }
{
    hint_of(setting_of(place))
}
