//! Launches as text.
#![tactic(auto)]

/// A launch of the kernel `f` of a source: the fields of a line, with `|` between them.
#[derive(Clone, Copy)]
pub struct Row<'a> {
    pub title: &'a [u8],
    /// An argument for each letter: `a`, `b` and `c` are buffers, `t` is local memory of 16 bytes, a digit is its
    /// number, and `-` is -1
    pub arguments: &'a [u8],
    /// How many bytes each buffer has, in decimal
    pub size: &'a [u8],
    /// What the buffers hold at first, one behind the other, in hexadecimal; zeros where it ends
    pub contents: &'a [u8],
    /// Numbers in decimal, with commas between them
    pub global: &'a [u8],
    pub local: &'a [u8],
    pub offset: &'a [u8],
    /// Empty where the launch isn't uniform
    pub uniform: &'a [u8],
    /// The ticks that an item may make, in decimal
    pub budget: &'a [u8],
    pub source: &'a [u8],
}

/// What stands before the next `|`, and what stands behind it.
fn cut(text: &[u8]) -> (&[u8], &[u8]) {
    for at in 0..text.len() {
        if text[at] == b'|' {
            return (&text[..at], &text[at + 1..]);
        }
    }
    (text, &text[text.len()..])
}

impl<'a> Row<'a> {
    /// The row of a line.
    pub fn read(line: &'a [u8]) -> Self {
        let (title, rest) = cut(line);
        let (arguments, rest) = cut(rest);
        let (size, rest) = cut(rest);
        let (contents, rest) = cut(rest);
        let (global, rest) = cut(rest);
        let (local, rest) = cut(rest);
        let (offset, rest) = cut(rest);
        let (uniform, rest) = cut(rest);
        let (budget, source) = cut(rest);
        Row {
            title,
            arguments,
            size,
            contents,
            global,
            local,
            offset,
            uniform,
            budget,
            source,
        }
    }
}

/// A number with a digit more in a base, up to 16.
pub fn with_digit(number: u64, base: u64, digit: u8) -> u64 {
    let value = if digit < b'a' {
        digit % 16
    } else {
        digit % 16 + 9
    };
    number.wrapping_mul(base).wrapping_add(u64::from(value))
}

/// The number that decimal digits write.
pub fn number_of(digits: &[u8]) -> u64 {
    let mut number = 0u64;
    for digit in digits {
        number = with_digit(number, 10, *digit);
    }
    number
}
