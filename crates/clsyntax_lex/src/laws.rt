//! What reading a source means, in words of the lexical grammar.
#![tactic(auto)]

ghost use Rattle.std.specs.Prelude.{◌≡◌, ℕ, List, Result, All};
ghost use Rattle.limits.specs.declared.Limits.{Limits};
ghost use Rattle.clsyntax_lex.specs.declared.token.SyntaxFault.{SyntaxFault};
ghost use Rattle.clsyntax_lex.specs.declared.token.TokenKind.{TokenKind};
ghost use Rattle.clsyntax_lex.specs.Tokens.{Text};
ghost use Rattle.clsyntax_lex.specs.Lexing.{Lexes, LexesAtAnyLength};
ghost use Rattle.clsyntax_lex.specs.Spelling.{IsReading};
ghost use Rattle.clsyntax_lex.specs.Printed.{text_of, names_in, kinds_of, IsWritable, ReadsAs};

/// On a device, a source has one reading, or one fault.
pub fn one_lexing()
    ensures { (limits : Limits) (source : List ℕ) (a b : Result Text SyntaxFault) → Lexes limits source a → Lexes limits source b → a ≡ b }
{}

/// No limit of length changes anything of what is read: a source's tokens and names are those that it has as bytes of
/// any length.
pub fn length_changes_nothing()
    ensures { (limits : Limits) (source : List ℕ) (text : Text) → Lexes limits source (Ok text) → LexesAtAnyLength source (Ok text) }
{}

/// A source without a fault, however long, is its tokens with white space and comments round them. The bytes of each
/// token spell it, and no longer front of what stands there is a token. A name's number is the place of its text in the
/// table of names.
pub fn tokens_are_spelled()
    ensures { (source : List ℕ) (text : Text) → LexesAtAnyLength source (Ok text) → IsReading source text }
{}

/// The numbers in a source, however long, are such as can be written.
pub fn tokens_are_writable()
    ensures { (source : List ℕ) (text : Text) → LexesAtAnyLength source (Ok text) → All IsWritable (kinds_of text.tokens) }
{}

/// Printed tokens are read back. They need not be those of a source, however long, but have the same names in the same
/// order, and only numbers that can be written. What they are printed as, each token with a space behind it, is read as
/// these tokens with the same table of names.
pub fn printed_tokens_are_read_back()
    ensures { (source : List ℕ) (text : Text) (tokens : List TokenKind) → LexesAtAnyLength source (Ok text) → All IsWritable tokens
        → names_in tokens ≡ names_in (kinds_of text.tokens) → ReadsAs (text_of text.names tokens) tokens text.names }
{}
