//! Laws of translations and witnesses.

ghost use Rattle.std.specs.Prelude.{◌≡◌, true, length};
ghost use Rattle.pattern_model.specs.Text.{Text};
ghost use Rattle.pattern_model.specs.Tree.{Tree, tokens_of};
ghost use Rattle.pattern_model.specs.Ordered.{IsOrdered};
ghost use Rattle.pattern_model.specs.Matches.{is_covered, Matches};
ghost use Rattle.pattern_translation.specs.Witness.{witness, without_assertions};
ghost use Rattle.rust_pattern_model.specs.Translation.{Translates, Writes};

/// A tree matches its witness from end to end, with starts, ends and boundaries read as empty. The tree has no look-around, no
/// back-reference, no property escape, no modifiers and no count of 2^32 or more (`is_covered`), and is ordered, as each tree of a
/// text is.
pub fn witnesses_match()
    ensures { (t : Tree) (w : Text) → IsOrdered t → is_covered t ≡ true → witness t ≡ Some w →
        Matches (without_assertions t) w 0 (length w) }
{}

/// A pattern has at most one text for Rust, and the rows write at most one for the tokens of a tree, whether it is refused or not.
pub fn one_text_for_rust()
    ensures text { (x v w : Text) → Translates x v → Translates x w → v ≡ w }
    ensures rows { (x : Text) (t : Tree) (v w : Text) → Writes x (tokens_of t) v → Writes x (tokens_of t) w → v ≡ w }
{}
