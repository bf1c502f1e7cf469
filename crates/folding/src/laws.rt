//! Laws of constant expressions.
#![tactic(auto)]

ghost use Rattle.std.specs.Prelude.{◌≡◌, Some};
ghost use Rattle.clnum.specs.Integer.{Integer};
ghost use Rattle.clmodel.specs.Next.{Continuation, ItemPosition, Variables, eval, type_of};
ghost use Rattle.clmodel.specs.Tree.{Term};
ghost use Rattle.clmodel.specs.declared.operand.Operand.{Operand};
ghost use Rattle.clmodel.specs.declared.operand.Operand.TheVariants.{Integral};
ghost use Rattle.clmodel.specs.declared.tree.VariableType.TheVariants as kinds;
ghost use Rattle.folding.specs.Constants.{constant_of};

/// The evaluation of a constant expression goes on with its value, whatever the item and what the variables hold: there
/// is no action and no fault. Its type is that of the expression.
pub fn constants_evaluate()
    ensures value { (here : ItemPosition) (e : Term) (variables : Variables) (after : Operand → Continuation) (v : Integer)
        → constant_of variables e ≡ Some v → eval here e variables after ≡ after (Integral v) }
    ensures kind { (e : Term) (variables : Variables) (v : Integer) → constant_of variables e ≡ Some v → type_of variables e ≡ kinds.Integer v.kind }
{}
