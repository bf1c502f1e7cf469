//! Laws of the code of kernels with its tables: it is verified, and short. Each is the contract of an empty function.
#![tactic(auto)]

ghost use Rattle.lower.specs.Accepted.{ExpressionsSuit, TargetsSuit, ExpressionsFlat, ExpressionsSound, StatementsSound, KernelsGo, KernelsVerified, SuitFits, TypedKernelsVerified};
ghost use Rattle.lower.specs.Bounds.{TypedKernelsShort, TypedKernelsFewBarriers, TypedKernelsFewRegisters, TypedKernelsFit};

/// A kernel's code is verified with the tables that are made from it, if its loops are nested at most 32 deep,
/// no two functions before it have one name, and its instructions suit the types of its parameters. Those of typed
/// expressions, and of targets, do. The jumps and loops of expressions, statements and kernels are sound whether they
/// are typed or not.
pub fn code_is_verified()
    ensures expressions { ExpressionsSuit }
    ensures places { TargetsSuit }
    ensures jumps { ExpressionsFlat }
    ensures ways { ExpressionsSound }
    ensures statements { StatementsSound }
    ensures kernels { KernelsGo }
    ensures fits { SuitFits }
    ensures verified { KernelsVerified }
{}

/// The code of each kernel of a typed program is verified with the tables that are made from it.
pub fn typed_kernels_are_verified()
    ensures { TypedKernelsVerified }
{}

/// Each kernel of a typed program has at most 1,000,000 barriers, those in the helpers that it calls among them.
pub fn typed_kernels_have_few_barriers()
    ensures { TypedKernelsFewBarriers }
{}

/// The code of each kernel of a typed program has at most 7,000,002 instructions besides one for each of its
/// parameters.
pub fn typed_kernels_are_short()
    ensures { TypedKernelsShort }
{}

/// The registers of each kernel of a typed program are at most 16,000,016 besides 16 for each of its parameters.
pub fn typed_kernels_have_few_registers()
    ensures { TypedKernelsFewRegisters }
{}

/// With the limit of parameters these are at most 7,013,002 instructions and 16,208,016 registers: each jump and each
/// register has a number of 32 bits.
pub fn typed_kernels_fit()
    ensures { TypedKernelsFit }
{}
