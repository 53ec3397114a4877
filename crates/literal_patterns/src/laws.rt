//! Laws of literal patterns.

ghost use Rattle.std.specs.Prelude.{◌≡◌, ◌↔◌, true, false};
ghost use Rattle.pattern_model.specs.Text.{Text};
ghost use Rattle.pattern_model.specs.Tree.{Tree};
ghost use Rattle.pattern_model.specs.Grammar.{Grammar};
ghost use Rattle.pattern_model.specs.Matches.{is_covered, MatchesSome};
ghost use Rattle.pattern_model.specs.Literals.{Analysis, IsAnalysis, Hits};

/// Each literal pattern is a pattern of ECMA-262: it has a tree, and one whose matches are defined.
pub fn literal_patterns_have_trees()
    ensures { (x : Text) (a : Analysis) → IsAnalysis x a →
        (t : Tree) × Grammar false x t × (is_covered t ≡ true) }
{}

/// An analysis hits a text exactly where the tree of its pattern matches some part of that text.
pub fn analyses_keep_matches()
    ensures { (x : Text) (a : Analysis) (t : Tree) → IsAnalysis x a → Grammar false x t →
        (y : Text) → Hits a y ↔ MatchesSome t y }
{}
