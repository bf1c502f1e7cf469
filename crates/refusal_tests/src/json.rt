//! A refusal as JSON: that there is memory for it.

use build_hints::Refused;
use clsyntax_lex::token::SyntaxFault;
use explain_json::refused_json;
use std::test::Fail;

/// A byte that begins no token is told in one line, with its place in the source and in the file, and a hint.
#[test]
fn told(rt: HostRuntime) -> Result<(), Fail> {
    let fault = Refused::Syntax(SyntaxFault::BadByte { at: 11 });
    let json = refused_json(rt.alloc(), "a.cl", b"int f() {\n\t@ }", 3, fault)?;
    let wanted =
        "{\"fault\":{\"kind\":\"syntax\",\"name\":\"BadByte\",\"number\":1},\"hints\":[\"leave it out: outside of comments a source has letters, digits, blanks and the symbols of C\"],\"kind\":\"refusal\",\"script\":\"a.cl\",\"spot\":{\"column\":2,\"length\":1,\"line\":2,\"offset\":11,\"script_line\":4,\"text\":\"\\t@ }\"},\"title\":\"syntax 1 BadByte: no token begins with this byte, or it can't follow a number\",\"version\":3}\n";
    assert!(rt; json.as_str() == wanted);
    Ok(())
}
