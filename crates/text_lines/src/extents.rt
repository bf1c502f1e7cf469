//! How far what begins at a byte of a source extends.
#![tactic(auto)]

ghost use Rattle.std.specs.Prelude.{◌≡◌, ◌+◌, ◌<◌, ◌≤◌, length};

/// What kind of text begins at a byte.
#[derive(Clone, Copy, Debug, PartialEq, Eq)]
pub enum SourceForm {
    /// A name, a number or a keyword: one token
    Word,
    /// A name with what stands in the brackets behind it: `a[i]`, `f(x)`
    Bracketed,
    /// An operator in front of its operand: `*p`
    Prefixed,
    /// Operands with `*`, `/` and `%` between them
    Product,
    /// A statement without others in it, up to its semicolon
    Simple,
    /// A keyword with what stands in the brackets behind it: `while (..)`
    Head,
}

/// How a walk over tokens goes on.
#[derive(Clone, Copy, PartialEq, Eq)]
enum Turn {
    /// The token is part of it.
    On,
    /// The token is its last.
    Last,
    /// The token is behind it.
    Past,
}

/// Whether a byte is one of a name or a number.
fn is_word(byte: u8) -> bool {
    byte.is_ascii_alphanumeric() || byte == b'_'
}

/// Where the word ends whose bytes go on from `at`.
fn word_end(source: &[u8], at: usize) -> usize
    requires { at ≤ length source.now }
    ensures within { result ≤ length source.now }
    ensures behind { at ≤ result }
{
    for i in at..source.len() {
        if !is_word(source[i]) {
            return i;
        }
    }
    source.len()
}

/// Where the token ends that begins at `at`: a word, or a single byte of anything else.
fn token_end(source: &[u8], at: usize) -> usize
    requires { at < length source.now }
    ensures within { result ≤ length source.now }
    ensures behind { at < result }
{
    if is_word(source[at]) {
        return word_end(source, at + 1);
    }
    at + 1
}

/// Where the line comment ends in which `at` stands.
fn line_comment_end(source: &[u8], at: usize) -> usize
    requires { at ≤ length source.now }
    ensures within { result ≤ length source.now }
    ensures behind { at ≤ result }
{
    for i in at..source.len() {
        if source[i] == b'\n' {
            return i;
        }
    }
    source.len()
}

/// Where the comment with an end of its own ends in which `at` stands.
fn block_comment_end(source: &[u8], at: usize) -> usize
    requires { at ≤ length source.now }
    ensures within { result ≤ length source.now }
    ensures behind { at ≤ result }
{
    for i in at..source.len() {
        if source[i] == b'*' && i + 1 < source.len() && source[i + 1] == b'/' {
            return i + 2;
        }
    }
    source.len()
}

/// Where a blank or a comment ends that begins at `at`; `at` itself where none does.
fn gap_end(source: &[u8], at: usize) -> usize
    requires { at < length source.now }
    ensures within { result ≤ length source.now }
    ensures behind { at ≤ result }
{
    if source[at] <= b' ' {
        return at + 1;
    }
    if source[at] != b'/' || at + 1 == source.len() {
        return at;
    }
    match source[at + 1] {
        b'/' => line_comment_end(source, at + 2),
        b'*' => block_comment_end(source, at + 2),
        _ => at,
    }
}

/// Where the next token begins from `at` on, or the end of the source.
fn token_begin(source: &[u8], at: usize) -> usize
    requires { at ≤ length source.now }
    ensures within { result ≤ length source.now }
    ensures behind { at ≤ result }
{
    let mut at = at;
    while at < source.len() {
        let end = gap_end(source, at);
        if end == at {
            return at;
        }
        at = end;
    }
    at
}

/// What is known of the tokens so far: how many brackets are open, whether the last token ends an operand, and whether
/// there is one.
#[derive(Clone, Copy)]
struct Walk {
    depth: usize,
    after_operand: bool,
    begun: bool,
}

/// Whether a byte ends a statement.
fn ends_statement(byte: u8) -> bool {
    matches!(byte, b';' | b'{' | b'}' | b',')
}

/// Whether a token outside of all brackets is behind a form.
fn is_behind(form: SourceForm, walk: Walk, byte: u8) -> bool {
    match form {
        SourceForm::Word => walk.begun,
        SourceForm::Bracketed | SourceForm::Head => walk.begun && byte != b'(' && byte != b'[',
        SourceForm::Prefixed => walk.after_operand && byte != b'(' && byte != b'[',
        SourceForm::Product => walk.after_operand
            && !matches!(byte, b'*' | b'/' | b'%' | b'(' | b'['),
        SourceForm::Simple => false,
    }
}

/// How a walk goes on at a token that begins with this byte.
fn turn_at(form: SourceForm, walk: Walk, byte: u8) -> Turn {
    let closes = byte == b')' || byte == b']';
    if walk.depth == 0 {
        if closes || ends_statement(byte) || is_behind(form, walk, byte) {
            return Turn::Past;
        }
        return Turn::On;
    }
    if closes && walk.depth == 1 && (form == SourceForm::Bracketed || form == SourceForm::Head) {
        return Turn::Last;
    }
    Turn::On
}

/// What is known behind a token that begins with this byte.
fn walked(walk: Walk, byte: u8) -> Walk {
    let opens = byte == b'(' || byte == b'[';
    let closes = byte == b')' || byte == b']';
    let depth = if opens {
        walk.depth.saturating_add(1)
    } else if closes {
        walk.depth.saturating_sub(1)
    } else {
        walk.depth
    };
    Walk {
        depth,
        after_operand: closes || is_word(byte),
        begun: true,
    }
}

/// How many bytes what begins at `at` has, without blanks and comments behind it: at least the first one, if there is
/// one. It takes the time of its text.
pub fn extent(source: &[u8], at: usize, form: SourceForm) -> usize
    requires { at ≤ length source.now }
    ensures { at + result ≤ length source.now }
{
    let mut walk = Walk {
        depth: 0,
        after_operand: false,
        begun: false,
    };
    let mut end = at;
    let mut next = token_begin(source, at);
    while next < source.len() {
        let byte = source[next];
        let turn = turn_at(form, walk, byte);
        if turn == Turn::Past {
            break;
        }
        end = token_end(source, next);
        if turn == Turn::Last {
            break;
        }
        walk = walked(walk, byte);
        next = token_begin(source, end);
    }
    end - at
}
