//! The operators and built-ins on whole numbers, and the faults of division.
#![tactic(auto)]

/// An operator on one integer (OpenCL 1.2, section 6.3).
#[derive(Clone, Copy, PartialEq, Eq)]
pub enum UnaryOperator {
    /// `+a`
    Plus,
    /// `-a`
    Negate,
    /// `~a`
    Complement,
    /// `!a`
    Not,
}

/// An operator on two integers that evaluates both (OpenCL 1.2, section 6.3).
#[derive(Clone, Copy, PartialEq, Eq)]
pub enum BinaryOperator {
    /// `a + b`
    Add,
    /// `a - b`
    Subtract,
    /// `a * b`
    Multiply,
    /// `a / b`
    Divide,
    /// `a % b`
    Remainder,
    /// `a << b`
    ShiftLeft,
    /// `a >> b`
    ShiftRight,
    /// `a < b`
    Less,
    /// `a > b`
    Greater,
    /// `a <= b`
    LessOrEqual,
    /// `a >= b`
    GreaterOrEqual,
    /// `a == b`
    Equal,
    /// `a != b`
    NotEqual,
    /// `a & b`
    BitAnd,
    /// `a ^ b`
    BitXor,
    /// `a | b`
    BitOr,
}

/// A built-in function on integers (OpenCL 1.2, section 6.12.3).
#[derive(Clone, Copy, PartialEq, Eq)]
pub enum Builtin {
    /// `min(a, b)`: the lesser of two numbers of one type
    Min,
    /// `max(a, b)`: the greater of two numbers of one type
    Max,
    /// `abs(a)`: the size of a number, in the unsigned type of its width
    Abs,
    /// `clz(a)`: how many of the highest bits are zero; the width for 0
    Clz,
    /// `popcount(a)`: how many bits are one
    Popcount,
    /// `rotate(a, b)`: the bits of `a` turned left by `b` modulo the width
    Rotate,
}

/// Why a division has no result.
#[derive(Clone, Copy, Debug, PartialEq, Eq)]
pub enum ArithFault {
    /// the divisor is zero
    DivideByZero,
    /// the quotient lies outside the operands' common type
    DivideOverflow,
}
