//! Laws of the grammars.

ghost use Rattle.std.specs.Prelude.{◌≡◌, Bool, true, false};
ghost use Rattle.pattern_model.specs.Text.{Text};
ghost use Rattle.pattern_model.specs.Tree.{Tree};
ghost use Rattle.pattern_model.specs.Tokens.{Spells};
ghost use Rattle.pattern_model.specs.Grammar.{Grammar};
ghost use Rattle.pattern_model.specs.Ordered.{IsOrdered};

/// A text has at most one tree, by either grammar. Its shape alone fixes it: the tests on names and numbers are not asked.
pub fn one_tree()
    ensures { (wide : Bool) (x : Text) (t u : Tree) → Spells wide x t → Spells wide x u → t ≡ u }
{}

/// A text with a tree by the ECMA grammar has that tree by the widened grammar too.
pub fn widened_reads_ecma()
    ensures { (x : Text) (t : Tree) → Grammar false x t → Grammar true x t }
{}

/// In each tree of a text a repeat's least count is at most its greatest, and a range of a class runs from low to high.
pub fn trees_are_ordered()
    ensures { (wide : Bool) (x : Text) (t : Tree) → Spells wide x t → IsOrdered t }
{}
