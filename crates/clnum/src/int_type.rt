//! The integer types of OpenCL C and their conversions.
#![tactic(auto)]

ghost use Rattle.std.specs.Prelude.{◌≡◌, ◌<◌};
ghost use Rattle.clnum.specs.Integer as integer;
ghost use Rattle.clnum.specs.Conversions as conversions;

/// An integer type of OpenCL C (OpenCL 1.2, section 6.1.1). `size_t` is `Ulong` here.
#[derive(Clone, Copy, PartialEq, Eq)]
pub enum IntType {
    /// 8 bits, signed
    Char,
    /// 8 bits, unsigned
    Uchar,
    /// 16 bits, signed
    Short,
    /// 16 bits, unsigned
    Ushort,
    /// 32 bits, signed
    Int,
    /// 32 bits, unsigned
    Uint,
    /// 64 bits, signed
    Long,
    /// 64 bits, unsigned
    Ulong,
}

impl IntType {
    /// How many bits a number of the type has: 8, 16, 32 or 64.
    pub fn bits(self) -> u32
        ensures { result ≡ integer.bits self }
    {
        match self {
            IntType::Char | IntType::Uchar => 8,
            IntType::Short | IntType::Ushort => 16,
            IntType::Int | IntType::Uint => 32,
            IntType::Long | IntType::Ulong => 64,
        }
    }

    /// Whether the type has negative numbers.
    pub fn is_signed(self) -> bool
        ensures { result ≡ integer.is_signed self }
    {
        match self {
            IntType::Char | IntType::Short | IntType::Int | IntType::Long => true,
            IntType::Uchar | IntType::Ushort | IntType::Uint | IntType::Ulong => false,
        }
    }

    /// Its name (OpenCL 1.2, section 6.1.1).
    pub fn name(self) -> &'static str
        ensures { result.now ≡ integer.type_word self }
    {
        match self {
            IntType::Char => "char",
            IntType::Uchar => "uchar",
            IntType::Short => "short",
            IntType::Ushort => "ushort",
            IntType::Int => "int",
            IntType::Uint => "uint",
            IntType::Long => "long",
            IntType::Ulong => "ulong",
        }
    }

    /// Its number in the order of the types, from 0 to 7: by the width, and the signed one first.
    pub fn number(self) -> u32
        ensures value { result ≡ integer.type_number self }
        ensures below { result < 8 }
    {
        match self {
            IntType::Char => 0,
            IntType::Uchar => 1,
            IntType::Short => 2,
            IntType::Ushort => 3,
            IntType::Int => 4,
            IntType::Uint => 5,
            IntType::Long => 6,
            IntType::Ulong => 7,
        }
    }

    /// The unsigned type of the same width.
    pub fn unsigned(self) -> IntType
        ensures { result ≡ conversions.unsigned_of self }
    {
        match self {
            IntType::Char | IntType::Uchar => IntType::Uchar,
            IntType::Short | IntType::Ushort => IntType::Ushort,
            IntType::Int | IntType::Uint => IntType::Uint,
            IntType::Long | IntType::Ulong => IntType::Ulong,
        }
    }

    /// The type that an operand of this type is promoted to (C99 6.3.1.1, paragraph 2).
    #[tactic(auto, unfolding(crate::specs::Conversions::promoted))]
    pub(crate) fn promoted(self) -> IntType
        ensures { result ≡ conversions.promoted self }
    {
        match self {
            IntType::Char | IntType::Uchar | IntType::Short | IntType::Ushort => IntType::Int,
            IntType::Int | IntType::Uint | IntType::Long | IntType::Ulong => self,
        }
    }

    /// The type that operands of these two types are brought to (C99 6.3.1.8).
    pub fn common(self, other: IntType) -> IntType
        ensures { result ≡ conversions.common self other }
    {
        let right = other.promoted();
        match self.promoted() {
            IntType::Ulong => IntType::Ulong,
            IntType::Long => match right {
                IntType::Ulong => right,
                _ => IntType::Long,
            },
            IntType::Uint => match right {
                IntType::Ulong | IntType::Long => right,
                _ => IntType::Uint,
            },
            _ => right,
        }
    }
}
