//! From a source to code: the passes.

use crate::came::{Came, told};
use byte_io::{Output, Write};
use clmodel::tree::Tree;
use clsyntax::parse;
use clsyntax_lex::token::SyntaxFault;
use clsyntax_lex::{Tokens, lex};
use cltypes::{Checked, TypeFault, check};
use code_text::dump;
use limits::Limits;
use lower::{LowerFault, lower};
use regcode::Code;
use std::alloc::Global;
use std::io::BufWriter;

/// A kernel with a helper, a loop, a local array and a private one.
const SOURCE: &str = "int sum(int n) { int s = 0; for (int j = 1; j <= n; j++) s += j; return s; }
__kernel void f(__global int *a) {
    __local int t[4];
    int u[2];
    int i = get_local_id(0);
    u[0] = sum(i);
    t[i] = u[0] + 1;
    barrier(CLK_LOCAL_MEM_FENCE);
    if (i < 2) a[i] = t[1 - i]; else atomic_add(&a[2], i);
}
";

/// What came of a pass that gave this fault: memory was refused, or the source, which is right, was not taken.
fn of_syntax(fault: SyntaxFault) -> Came {
    match fault {
        SyntaxFault::OutOfMemory => Came::OutOfMemory,
        _ => Came::Wrong,
    }
}

/// The tokens of the source.
fn lexed(alloc: Global) -> Result<Tokens, Came> {
    lex(alloc, Limits::profile(), SOURCE.as_bytes()).map_err(of_syntax)
}

/// Whether tokens are those of the source, which is read anew.
fn are_as_before(alloc: Global, tokens: &Tokens) -> bool {
    let Ok(wanted) = lexed(alloc) else {
        return false;
    };
    !wanted.as_slice().is_empty()
        && tokens.as_slice() == wanted.as_slice()
        && tokens.names() == wanted.names()
        && tokens.length() == wanted.length()
}

/// The tree of tokens, which are as before where memory is refused.
fn parsed(alloc: Global, tokens: &Tokens) -> Result<Tree, Came> {
    match parse(alloc, Limits::profile(), tokens) {
        Ok(tree) => Ok(tree),
        Err(SyntaxFault::OutOfMemory) if are_as_before(alloc, tokens) => Err(Came::OutOfMemory),
        Err(_) => Err(Came::Wrong),
    }
}

/// The tree with its types.
fn checked(alloc: Global, tree: Tree) -> Result<Checked, Came> {
    match check(alloc, Limits::profile(), tree) {
        Ok(checked) => Ok(checked),
        Err(TypeFault::OutOfMemory) => Err(Came::OutOfMemory),
        Err(_) => Err(Came::Wrong),
    }
}

/// The source anew, checked.
fn checked_anew(alloc: Global) -> Option<Checked> {
    let tokens = lexed(alloc).ok()?;
    let tree = parsed(alloc, &tokens).ok()?;
    checked(alloc, tree).ok()
}

/// Code as text. None where memory is refused.
fn written(alloc: Global, code: &Code) -> Option<Vec<u8>> {
    let text = BufWriter::with_capacity(alloc, 0, Vec::new(alloc)).ok()?;
    let mut writer = Output::new(text);
    let is_whole = dump(code, &mut writer).is_ok() && writer.flush().is_ok();
    let text = writer.into_inner();
    if is_whole {
        Some(text)
    } else {
        drop(text);
        None
    }
}

/// The code of a program, as text. None where memory is refused.
fn text_of(alloc: Global, checked: &Checked) -> Option<Vec<u8>> {
    let code = lower(alloc, checked, "f").ok()?;
    let text = written(alloc, &code);
    drop(code);
    text
}

/// Whether a program comes to the code of the source, which is read and checked anew.
fn is_as_before(alloc: Global, checked: &Checked) -> bool {
    let Some(wanted) = checked_anew(alloc) else {
        return false;
    };
    match (text_of(alloc, checked), text_of(alloc, &wanted)) {
        (Some(text), Some(wanted)) => !wanted.is_empty() && text.as_slice() == wanted.as_slice(),
        _ => false,
    }
}

/// The code of a program, which is as before where memory is refused.
fn lowered(alloc: Global, checked: &Checked) -> Result<Code, Came> {
    match lower(alloc, checked, "f") {
        Ok(code) => Ok(code),
        Err(LowerFault::OutOfMemory) if is_as_before(alloc, checked) => Err(Came::OutOfMemory),
        Err(_) => Err(Came::Wrong),
    }
}

/// Whether a program that was checked is lowered. How much code came of it is told.
fn is_lowered<R: Print>(rt: &R, alloc: Global, checked: &Checked) -> bool {
    let Some(code) = told(rt, "passes lower", lowered(alloc, checked)) else {
        return false;
    };
    let _ = println!(rt; "passes code: {} instructions", code.count());
    true
}

/// Whether tokens come to code.
fn is_compiled<R: Print>(rt: &R, alloc: Global, tokens: &Tokens) -> bool {
    let Some(tree) = told(rt, "passes parse", parsed(alloc, tokens)) else {
        return false;
    };
    let Some(checked) = told(rt, "passes check", checked(alloc, tree)) else {
        return false;
    };
    is_lowered(rt, alloc, &checked) || is_lowered(rt, alloc, &checked)
}

/// Whether the source comes to code.
fn is_built<R: Print>(rt: &R, alloc: Global) -> bool {
    let Some(tokens) = told(rt, "passes lex", lexed(alloc)) else {
        return false;
    };
    is_compiled(rt, alloc, &tokens) || is_compiled(rt, alloc, &tokens)
}

/// Tries the passes one behind the other, and again where one is refused.
pub fn try_all<R: Print>(rt: &R, alloc: Global) {
    let _ = is_built(rt, alloc) || is_built(rt, alloc);
}
