//! Accesses to memory, and how two of them conflict.
#![tactic(auto)]

ghost use Rattle.std.specs.Prelude.{◌≡◌, ◌<◌, ◌≤◌};
ghost use Rattle.clmodel.specs.Cells.{byte_count, width_of};
ghost use Rattle.clmodel.specs.Launch.{kind_of, value_of, region_of, within_group, across_groups};

/// How many bytes an element has.
#[derive(Clone, Copy, PartialEq, Eq)]
pub enum Width {
    One,
    Two,
    Four,
    Eight,
}

impl Width {
    /// How many bytes an element of this width has (OpenCL 1.2, section 6.1.1).
    pub fn bytes(self) -> u64
        ensures value { result ≡ byte_count self }
        ensures some { 0 < result }
        ensures short { result ≤ 8 }
    {
        match self {
            Width::One => 1,
            Width::Two => 2,
            Width::Four => 4,
            Width::Eight => 8,
        }
    }
}

/// A class of atomic updates (OpenCL 1.2, section 6.12.11). Add stands for add, sub, inc and dec; the least and the
/// greatest are taken by the sign of the pointer's element type.
#[derive(Clone, Copy, PartialEq, Eq)]
pub enum Class {
    Add,
    And,
    Or,
    Xor,
    SignedMin,
    UnsignedMin,
    SignedMax,
    UnsignedMax,
}

/// What an atomic operation whose old number is used leaves of 4 bytes (OpenCL 1.2, section 6.12.11).
#[derive(Clone, Copy, PartialEq, Eq)]
pub enum FetchOp {
    /// What an update of this class leaves
    Class(Class),
    /// `atomic_xchg`: the operand
    Exchange,
    /// `atomic_cmpxchg`: the operand, where the old number is this one; else the old number
    CompareExchange(u32),
}

/// The kind of an access, by which accesses conflict.
#[derive(Clone, Copy, PartialEq, Eq)]
pub enum AccessKind {
    Load,
    Store,
    Update(Class),
    Fetch,
}

/// An object that a pointer of a work-item points into (OpenCL 1.2, section 3.3): a buffer, by its place among the
/// launch's buffers, or a local object, by its place among the kernel's.
#[derive(Clone, Copy, PartialEq, Eq)]
pub enum Object {
    Buffer(u32),
    Local(u32),
}

impl Object {
    /// The region that the object is for the items of a group (OpenCL 1.2, sections 3.3, 6.5.1 and 6.5.2).
    pub fn region(self, group: u32) -> Region
        ensures { result ≡ region_of group self }
    {
        match self {
            Object::Buffer(number) => Region::Buffer(number),
            Object::Local(number) => Region::Local { group, number },
        }
    }
}

/// A region of memory: a buffer, which all items of a launch share, or a local object of one group.
#[derive(Clone, Copy, PartialEq, Eq)]
pub enum Region {
    Buffer(u32),
    Local { group: u32, number: u32 },
}

/// What an access does at its bytes. A store writes the low bytes of its value. An update acts on 4 bytes, and so does
/// a fetch, which answers their old number.
#[derive(Clone, Copy, PartialEq, Eq)]
pub enum Operation {
    Load(Width),
    Store(Width, u64),
    Update(Class, u32),
    Fetch(FetchOp, u32),
}

impl Operation {
    /// The width of what the operation acts on (OpenCL 1.2, section 6.12.11).
    pub fn width(self) -> Width
        ensures { result ≡ width_of self }
    {
        match self {
            Operation::Load(width) => width,
            Operation::Store(width, _) => width,
            Operation::Update(_, _) | Operation::Fetch(_, _) => Width::Four,
        }
    }

    /// The kind of the operation, by which its access conflicts.
    pub fn kind(self) -> AccessKind
        ensures { result ≡ kind_of self }
    {
        match self {
            Operation::Load(_) => AccessKind::Load,
            Operation::Store(_, _) => AccessKind::Store,
            Operation::Update(class, _) => AccessKind::Update(class),
            Operation::Fetch(_, _) => AccessKind::Fetch,
        }
    }

    /// The value of a store, and 0 of all others.
    pub fn value(self) -> u64
        ensures { result ≡ value_of self }
    {
        match self {
            Operation::Store(_, value) => value,
            Operation::Load(_) | Operation::Update(_, _) | Operation::Fetch(_, _) => 0,
        }
    }
}

/// What is kept of an access: the item, the bytes that it touched, its kind, the value of a store, and the interval of
/// its group in which it was made.
#[derive(Clone, Copy, PartialEq, Eq)]
pub struct Access {
    pub item: u32,
    pub region: Region,
    pub first: u64,
    pub width: Width,
    pub kind: AccessKind,
    /// What a store writes the low bytes of; 0 of all others
    pub value: u64,
    pub interval: u32,
}

/// The rule by which two accesses of different items are judged: whether a barrier can order them (OpenCL 1.2, sections
/// 3.3.1 and 6.12.8), and whether stores of the same byte may meet.
#[derive(Clone, Copy, PartialEq, Eq)]
pub struct Rule {
    /// Whether both items are of one group, whose barriers order accesses of two intervals.
    pub one_group: bool,
    /// Whether the launch is uniform: two stores that leave the same byte don't conflict there.
    pub uniform: bool,
}

impl Rule {
    /// The rule for two accesses of one group.
    pub fn within_group(uniform: bool) -> Self
        ensures { result ≡ within_group uniform }
    {
        Rule {
            one_group: true,
            uniform,
        }
    }

    /// The rule for accesses of two groups.
    pub fn across_groups(uniform: bool) -> Self
        ensures { result ≡ across_groups uniform }
    {
        Rule {
            one_group: false,
            uniform,
        }
    }
}

/// How two accesses conflict.
#[derive(Clone, Copy, PartialEq, Eq)]
pub enum Clash {
    Race,
    Order,
}

/// Two accesses that conflict on a byte.
#[derive(Clone, Copy)]
pub struct Conflict {
    pub earlier: Access,
    pub later: Access,
    pub byte: u64,
    pub clash: Clash,
}
