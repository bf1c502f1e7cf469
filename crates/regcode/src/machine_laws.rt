//! Laws of the machine's registers and private arrays.
#![tactic(auto)]

ghost use Rattle.std.specs.Prelude.{◌≡◌, ◌≢◌, ℕ, List, Option, slice_get};
ghost use Rattle.clmodel.specs.Setup.{Setup};
ghost use Rattle.clmodel.specs.declared.action.Action.TheVariants as action;
ghost use Rattle.clmodel.specs.declared.action.Answer.{Answer};
ghost use Rattle.clmodel.specs.declared.operand.Operand.{Operand};
ghost use Rattle.regcode.specs.Listing.{Listing};
ghost use Rattle.regcode.specs.Machine.{Registers, reg, put, array_of, put_array, acts};
ghost use Rattle.regcode.specs.declared.instruction.Instruction.TheVariants as instruction;

/// A register has what was put into it last, and the others keep what they have.
pub fn registers_keep()
    ensures put { (registers : Registers) (i : ℕ) (v : Option Operand) → reg (put registers i v) i ≡ v }
    ensures kept { (registers : Registers) (i : ℕ) (v : Option Operand) (j : ℕ) → i ≢ j → reg (put registers i v) j ≡ reg registers j }
{}

/// A private array has the elements that were put there last, and the others keep theirs, as registers keep their
/// values.
pub fn arrays_keep()
    ensures put { (registers : Registers) (a : ℕ) (elements : List (Option ℕ)) → array_of (put_array registers a elements) a ≡ elements }
    ensures kept { (registers : Registers) (a : ℕ) (elements : List (Option ℕ)) (b : ℕ) → a ≢ b → array_of (put_array registers a elements) b ≡ array_of registers b }
    ensures values { (registers : Registers) (a : ℕ) (elements : List (Option ℕ)) (i : ℕ) → reg (put_array registers a elements) i ≡ reg registers i }
    ensures arrays { (registers : Registers) (i : ℕ) (v : Option Operand) (a : ℕ) → array_of (put registers i v) a ≡ array_of registers a }
{}

/// Code that begins with its end makes no action.
pub fn end_ends()
    ensures { (code : Listing) (setup : Setup) (item : ℕ) (answers : List Answer) → slice_get code.instructions 0 ≡ Some instruction.End → acts code setup item answers ≡ action.End }
{}
