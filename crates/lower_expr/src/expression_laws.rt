//! Laws of the code of expressions.
#![tactic(auto)]

ghost use Rattle.std.specs.Prelude.{◌≡◌, ℕ, ◌+◌, ◌≤◌, List, length};
ghost use Rattle.clmodel.specs.Next.{Continuation, Variables, Destination, eval, eval_all, reach};
ghost use Rattle.clmodel.specs.Tree.{Term, Terms, Target};
ghost use Rattle.clmodel.specs.declared.operand.Operand.{Operand};
ghost use Rattle.regcode.specs.Machine.{State, ItemContext};
ghost use Rattle.regcode.specs.declared.instruction.Instruction.{Instruction};
ghost use Rattle.regcode.proofs.Agreement.{Agree};
ghost use Rattle.lower_expr.specs.Scope.{Scope, free_level, Sees};
ghost use Rattle.lower_expr.specs.Expressions.{expr_code, terms_code, target_code, register_for, registers_for, target_register};
ghost use Rattle.lower_expr.specs.Agreement.{HasAt, Follows, FollowsAll, FollowsTarget};

/// Where the code of an expression, of arguments or of targets stands, code acts as the evaluation does with the values
/// that the registers hold, whatever follows: if it does so from where the value is in its register and the registers
/// below the level and the private arrays are as they were.
pub fn expressions_run()
    ensures expression { (given : ItemContext) (code : List Instruction) (bound : ℕ) (scope : Scope) (level : ℕ) (e : Term) (s : State) (variables : Variables) (after : Operand → Continuation)
        → free_level scope ≤ level → Sees scope s.registers variables → HasAt code s.place (expr_code scope level e)
        → Follows given code bound level s (s.place + length (expr_code scope level e)) (register_for scope level e) after
        → Agree given code bound s (eval given.here e variables after) }
    ensures arguments { (given : ItemContext) (code : List Instruction) (bound : ℕ) (scope : Scope) (level : ℕ) (es : Terms) (s : State) (variables : Variables) (after : List Operand → Continuation)
        → free_level scope ≤ level → Sees scope s.registers variables → HasAt code s.place (terms_code scope level es)
        → FollowsAll given code bound level s (s.place + length (terms_code scope level es)) (registers_for scope level es) after
        → Agree given code bound s (eval_all given.here es variables after) }
    ensures place { (given : ItemContext) (code : List Instruction) (bound : ℕ) (scope : Scope) (level : ℕ) (to : Target) (s : State) (variables : Variables) (after : Destination → Continuation)
        → free_level scope ≤ level → Sees scope s.registers variables → HasAt code s.place (target_code scope level to)
        → FollowsTarget given code bound scope level s (s.place + length (target_code scope level to)) (target_register scope level to) to after
        → Agree given code bound s (reach given.here to variables after) }
{}
