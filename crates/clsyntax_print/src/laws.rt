//! Laws of printing.
#![tactic(auto)]

ghost use Rattle.std.specs.Prelude.{ℕ, List, Ok};
ghost use Rattle.limits.specs.declared.Limits.{Limits};
ghost use Rattle.clmodel.specs.Tree.{Program};
ghost use Rattle.clsyntax.specs.Source.{IsSource};
ghost use Rattle.clsyntax_print.specs.Printing.{IsPrinted, HasWords};
ghost use Rattle.clsyntax_print.specs.Text.{StandsFor};

use clsyntax_lex::laws::length_changes_nothing;

/// The tokens that a program's tree is printed as, wherever they begin, are a program with the same tree, offsets
/// aside. They have the program's names and numbers, in their order. The limit of nesting is set aside.
pub fn printed_again()
    ensures tree { IsPrinted }
    ensures words { HasWords }
{}

/// A source stands for what it is read as on a device, which therefore is a tree of the grammar.
pub fn sources_are_of_the_grammar()
    ensures { (limits : Limits) (source : List ℕ) (p : Program) → IsSource limits source (Ok p) → StandsFor source p }
{
    length_changes_nothing();
}
