//! The parser's state between two tokens: a mode, and a stack of frames. The `nesting` of a mode is that of the next
//! token; the `nesting` of a frame is that just outside the frame.
#![tactic(auto)]

ghost use Rattle.std.specs.Prelude.{◌≡◌, [], ◌∷◌, suc, IfOk, MatchOption};
ghost use Rattle.clmodel.specs.Tree.{term};
ghost use Rattle.clsyntax_terms.specs.Machine as machine;
ghost use Rattle.clsyntax_terms.specs.Views.{opened, frame_of, mode_of, part_of, Steps};

use crate::nesting::Nesting;
use clmodel::tree::{
    AddressSpace, Expression, Function, InfixOperator, Parameter, PointerType, Statement, Target,
    VariableType,
};
use clnum::{BinaryOperator, IntType, UnaryOperator};
use std::alloc::{AllocError, Global};

/// An identifier in a source: where it begins, and its name, by its place in the table of names.
#[derive(Clone, Copy)]
pub struct Identifier {
    pub at: u32,
    pub name: u32,
}

/// A prefix of an operand (C99 6.5.3.2, 6.5.3.3 and 6.5.4).
#[derive(Clone, Copy)]
pub enum Prefix {
    Operator(UnaryOperator),
    /// `*`
    Fetch,
    /// `(type)`
    Convert(IntType),
}

/// The declaration that a type begins.
#[derive(Clone, Copy)]
pub enum Purpose {
    /// A parameter, which may be of type size_t or not
    Parameter { takes_size: bool },
    Declaration { at: u32, nesting: Nesting },
}

/// A type and a name of that type; `at` is where the type begins.
#[derive(Clone, Copy)]
pub struct Declared {
    pub nesting: Nesting,
    pub at: u32,
    pub kind: VariableType,
    pub identifier: Identifier,
}

/// An array's type and name; `at` is where its declaration begins.
#[derive(Clone, Copy)]
pub struct Array {
    pub nesting: Nesting,
    pub at: u32,
    pub is_local: bool,
    pub element: IntType,
    pub identifier: Identifier,
}

/// The head of a function, before its body.
#[derive(Drop)]
pub struct Head {
    pub is_kernel: bool,
    pub result: Option<IntType>,
    pub identifier: Identifier,
    pub parameters: Vec<Parameter>,
}

/// `name(` and the arguments so far.
#[derive(Drop)]
pub struct Call {
    pub is_statement: bool,
    pub identifier: Identifier,
    pub nesting: Nesting,
    pub arguments: Vec<Expression>,
}

/// The parts so far of a `for`, and the nesting in its brackets.
#[derive(Drop)]
pub struct Turns {
    pub at: u32,
    pub nesting: Nesting,
    pub initial: Option<Box<Statement>>,
    pub condition: Option<Box<Expression>>,
    pub last: Option<Box<Statement>>,
}

/// `target =`, or with an operator.
#[derive(Drop)]
pub struct Assign {
    pub at: u32,
    pub nesting: Nesting,
    pub target: Box<Target>,
    pub operator: Option<BinaryOperator>,
}

/// `&name`; `at` is where it begins.
#[derive(Clone, Copy)]
pub struct Address {
    pub nesting: Nesting,
    pub at: u32,
    pub identifier: Identifier,
}

/// A target's or a call's first name, and whether `++` or `--` stands before it.
#[derive(Clone, Copy)]
pub struct FirstName {
    pub is_step: bool,
    pub nesting: Nesting,
    pub identifier: Identifier,
}

/// A target, and whether `++` or `--` stands before it.
#[derive(Drop)]
pub struct TargetRead {
    pub is_step: bool,
    pub nesting: Nesting,
    pub at: u32,
    pub target: Box<Target>,
}

/// An expression, and where it begins.
#[derive(Drop)]
pub struct ExpressionRead {
    pub nesting: Nesting,
    pub from: u32,
    pub value: Box<Expression>,
}

/// `(type` of a cast.
#[derive(Clone, Copy)]
pub struct Cast {
    pub nesting: Nesting,
    pub at: u32,
    pub target: IntType,
}

/// A form that is begun and not ended.
#[derive(Drop)]
pub enum Frame {
    /// An operator that waits for its right operand, and where its left one begins
    After {
        from: u32,
        operator: InfixOperator,
        left: Box<Expression>,
    },
    /// A prefix that waits for its operand
    Before {
        at: u32,
        prefix: Prefix,
    },
    /// `condition ?`, and where it begins
    Conditional {
        from: u32,
        condition: Box<Expression>,
    },
    /// `condition ? chosen :`, and where it begins
    Chosen {
        from: u32,
        condition: Box<Expression>,
        chosen: Box<Expression>,
    },
    /// `(`
    InRound {
        at: u32,
        nesting: Nesting,
    },
    /// `name[` in an expression
    InElement {
        identifier: Identifier,
        nesting: Nesting,
    },
    /// `&name[`
    InAddress(Address),
    InCall(Call),
    /// `name[` of a target
    InPart(FirstName),
    /// `*` of a target, and whether `++` or `--` stands before it
    InBehind {
        is_step: bool,
        at: u32,
        nesting: Nesting,
    },
    /// `++` or `--`
    InStep {
        at: u32,
        nesting: Nesting,
        is_increment: bool,
    },
    InAssign(Assign),
    /// `type name =`
    InDeclare(Declared),
    /// `return`
    InReturn {
        at: u32,
        nesting: Nesting,
    },
    /// `if (`
    InIf {
        at: u32,
        nesting: Nesting,
    },
    /// `while (`
    InWhile {
        at: u32,
        nesting: Nesting,
    },
    /// `do body while (`
    InDo {
        at: u32,
        nesting: Nesting,
        body: Box<Statement>,
    },
    /// `for (`
    InInitial {
        at: u32,
    },
    /// `for (initial;`
    InCondition(Box<Turns>),
    /// `for (initial; condition;`
    InFinal(Box<Turns>),
    /// `if (condition)`
    Then {
        at: u32,
        nesting: Nesting,
        condition: Box<Expression>,
    },
    /// `if (condition) chosen else`
    Otherwise {
        at: u32,
        condition: Box<Expression>,
        chosen: Box<Statement>,
    },
    /// `while (condition)`
    Turns {
        at: u32,
        condition: Box<Expression>,
    },
    /// `do`
    DoTurns {
        at: u32,
        nesting: Nesting,
    },
    /// `for (initial; condition; last)`
    ForTurns(Box<Turns>),
    /// The statements so far of a block
    InItems {
        nesting: Nesting,
        body: Vec<Statement>,
    },
    /// A block that is a statement
    InBlock {
        at: u32,
        nesting: Nesting,
    },
    /// The block of a function
    InBody {
        head: Head,
        at: u32,
    },
    /// The brackets of a function's head
    InHead(Head),
    /// The functions so far
    InProgram(Vec<Function>),
}

/// The stack of open frames, the innermost first.
#[derive(Drop)]
pub enum Frames {
    Empty,
    Inside(Frame, Box<Frames>),
}

/// The mode: what the parser read last, which decides what may come next.
#[derive(Drop)]
pub enum Mode {
    /// An operand is wanted
    Operand {
        nesting: Nesting,
    },
    /// An expression was read
    ExpressionRead(ExpressionRead),
    /// In an expression a name was read
    Named {
        nesting: Nesting,
        identifier: Identifier,
    },
    /// Where an operand was wanted, `(` was read
    Opened {
        nesting: Nesting,
        at: u32,
    },
    /// `(type` of a cast was read
    CastType(Cast),
    /// `&` was read
    AfterAnd {
        nesting: Nesting,
        at: u32,
    },
    /// `&name` was read
    AndName(Address),
    /// The bracket of a call was read
    CallOpen {
        nesting: Nesting,
    },
    /// An expression is wanted, or a semicolon in its place
    Optional {
        nesting: Nesting,
    },
    /// A statement, a declaration or the block's end is wanted
    Item {
        nesting: Nesting,
    },
    /// A statement is wanted
    Begin {
        nesting: Nesting,
    },
    /// The first part of a `for` is wanted
    Initial {
        nesting: Nesting,
    },
    /// The third part of a `for` is wanted
    Final {
        nesting: Nesting,
    },
    /// The target of `++` or `--` is wanted
    Aim {
        nesting: Nesting,
    },
    /// A target's or a call's first name was read
    BeginName(FirstName),
    /// The target was read
    TargetRead(TargetRead),
    /// A simple statement was read
    Ended {
        nesting: Nesting,
        statement: Box<Statement>,
    },
    /// Another statement but its semicolon was read
    Closing {
        nesting: Nesting,
        statement: Box<Statement>,
    },
    /// A statement was read
    StatementRead(Box<Statement>),
    AfterIf {
        nesting: Nesting,
        at: u32,
    },
    AfterWhile {
        nesting: Nesting,
        at: u32,
    },
    AfterFor {
        nesting: Nesting,
        at: u32,
    },
    /// `do body while` was read
    AfterDo {
        nesting: Nesting,
        at: u32,
        body: Box<Statement>,
    },
    /// Some of a type was read
    Typing {
        wanted: Purpose,
        mode: TypeMode,
    },
    /// A type and a name were read
    Declared(Declared),
    /// Some of an array's declaration was read
    Array(ArrayMode),
    Head(HeadMode),
}

/// How much of a type the parser has read.
#[derive(Clone, Copy)]
pub enum TypeMode {
    /// A pointer's address space
    AfterSpace(AddressSpace),
    /// That and `const`
    AfterConst(AddressSpace),
    /// All but the star of a pointer
    AfterElement(PointerType),
    Whole(VariableType),
}

/// How much of an array's declaration the parser has read.
#[derive(Drop)]
pub enum ArrayMode {
    /// A local array's name
    Named(Array),
    /// The bracket before its length
    Opened(Array),
    /// Its length: all but `];`
    Sized {
        nesting: Nesting,
        statement: Box<Statement>,
    },
    /// All but its semicolon
    Closed {
        nesting: Nesting,
        statement: Box<Statement>,
    },
}

/// How much of a function's head the parser has read.
#[derive(Clone, Copy)]
pub enum HeadMode {
    /// Nothing: a function or the program's end is wanted
    Top,
    AfterKernel,
    /// All before the name
    AfterReturning {
        is_kernel: bool,
        result: Option<IntType>,
    },
    AfterName {
        is_kernel: bool,
        result: Option<IntType>,
        identifier: Identifier,
    },
    /// The bracket; parameters may be of type size_t or not
    HeadOpen {
        takes_size: bool,
    },
    /// A comma
    WantParameter {
        takes_size: bool,
    },
    AfterParameter {
        takes_size: bool,
    },
    /// The whole head
    HeadDone,
}

/// The parser's state between two tokens: its mode, and the open frames.
#[derive(Drop)]
pub struct State {
    pub mode: Mode,
    pub frames: Box<Frames>,
}

/// How the parser takes a token.
#[derive(Drop)]
pub enum TokenStep {
    /// No source goes on with this token here.
    Refused,
    /// The token is nested too deep on every device.
    Deep,
    /// The token has this nesting, and leads to this state.
    To { nesting: Nesting, state: Box<State> },
}

/// How the parser takes a token. An error is out of memory.
pub type Moved = Result<TokenStep, AllocError>;

/// The open frames, and the allocator for more.
#[derive(Drop)]
pub struct Stack {
    pub alloc: Global,
    pub frames: Box<Frames>,
}

/// The part of a `for` that a simple statement may be.
#[derive(Clone, Copy)]
pub(crate) enum ForPart {
    /// The first part of a `for`
    Initial,
    /// The third part of a `for`
    Final,
    Other,
}

impl Stack {
    /// The part of a `for` that a simple statement in front of the frames is.
    pub(crate) fn part(&self) -> ForPart
        ensures { result ≡ part_of (opened self.now) }
    {
        match &*self.frames {
            Frames::Inside(Frame::InInitial { .. }, _) => ForPart::Initial,
            Frames::Inside(Frame::InFinal(_), _) => ForPart::Final,
            _ => ForPart::Other,
        }
    }

    /// The step of a token of this nesting into a mode.
    pub fn go(self, nesting: Nesting, mode: Mode) -> Moved
        ensures { Steps result (machine.go nesting.0 (mode_of mode) (opened self)) }
    {
        let Stack { alloc, frames } = self;
        let state = Box::new(alloc, State { mode, frames })?;
        Ok(TokenStep::To { nesting, state })
    }

    /// The stack with one more frame.
    pub fn push(self, frame: Frame) -> Result<Stack, AllocError>
        ensures { IfOk result (λ pushed. opened pushed ≡ frame_of frame ∷ opened self) }
    {
        let alloc = self.alloc;
        let frames = Box::new(alloc, Frames::Inside(frame, self.frames))?;
        Ok(Stack { alloc, frames })
    }

    /// The frame in front, and the stack without it. A caller that can't use the frame calls `drop(frame)`: else the
    /// drop of each variant would be written into the caller, and proved there.
    pub fn pop(self) -> Option<(Frame, Stack)>
        ensures { MatchOption result (opened self ≡ []) (λ popped. opened self ≡ frame_of popped.0 ∷ opened popped.1) }
    {
        let alloc = self.alloc;
        match Box::into_inner(self.frames) {
            Frames::Inside(frame, frames) => Some((frame, Stack { alloc, frames })),
            Frames::Empty => None,
        }
    }

    /// The step that opens a frame and wants an operand.
    pub fn want(self, nesting: Nesting, frame: Frame) -> Moved
        ensures { Steps result (machine.go nesting.0 (machine.Operand nesting.0) (frame_of frame ∷ opened self)) }
    {
        self.push(frame)?.go(nesting, Mode::Operand { nesting })
    }

    /// The step that opens a frame and wants an operand, one level deeper.
    pub fn open(self, nesting: Nesting, frame: Frame) -> Moved
        ensures { Steps result (machine.go nesting.0 (machine.Operand (suc nesting.0)) (frame_of frame ∷ opened self)) }
    {
        let stack = self.push(frame)?;
        match nesting.deeper() {
            Some(inner) => stack.go(nesting, Mode::Operand { nesting: inner }),
            None => Ok(TokenStep::Deep),
        }
    }

    /// The step that opens a frame and wants the statement that it controls.
    pub(crate) fn begin(self, nesting: Nesting, frame: Frame) -> Moved
        ensures { Steps result (machine.go nesting.0 (machine.Begin nesting.0) (frame_of frame ∷ opened self)) }
    {
        self.push(frame)?.go(nesting, Mode::Begin { nesting })
    }

    /// The step of a closing bracket, behind which an expression from the offset `from` on is read.
    pub(crate) fn close(self, nesting: Nesting, from: u32, value: Box<Expression>) -> Moved
        ensures { Steps result (machine.go (suc nesting.0) (machine.ExpressionRead nesting.0 from (term value.value)) (opened self)) }
    {
        match nesting.deeper() {
            Some(inner) => {
                let read = ExpressionRead {
                    nesting,
                    from,
                    value,
                };
                self.go(inner, Mode::ExpressionRead(read))
            }
            None => Ok(TokenStep::Deep),
        }
    }
}
