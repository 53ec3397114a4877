//! Laws of what is written for Rust.

ghost use Rattle.std.specs.Prelude.{◌≡◌, ℕ, Bool, true, false, List, [], ◌∷◌, Some, codes};
ghost use Rattle.std.specs.List.{list_all};
ghost use Rattle.pattern_model.specs.Text.{Text};
ghost use Rattle.pattern_model.specs.Tree.{Item, Leaf, Tree, Token};
ghost use Rattle.pattern_model.specs.Members.{is_no_property, class_has};
ghost use Rattle.pattern_model.specs.Tokens.{class_from};
ghost use Rattle.pattern_model.specs.Matches.{Matches};
ghost use Rattle.rust_pattern_model.specs.Refusals.{is_empty_class, has_other_escape, has_untold_part};
ghost use Rattle.rust_pattern_model.specs.Translation.{WritesClass, Translates};
ghost use Rattle.rust_pattern_model.specs.RustClasses.{Items, rust_class_has, ReadsClass};
ghost use Rattle.rust_pattern_model.specs.RustPatterns.{RustGrammar};
ghost use Rattle.rust_pattern_model.specs.Alike.{Alike};

/// Alike trees match the same parts of every text.
pub fn alike_trees_match_alike()
    ensures there { (t u : Tree) → Alike t u → (y : Text) (i j : ℕ) → Matches t y i j → Matches u y i j }
    ensures back { (t u : Tree) → Alike t u → (y : Text) (i j : ℕ) → Matches u y i j → Matches t y i j }
{}

/// What is written for a class is one class by Rust's grammar, with the same members. The class has an item, no property escape
/// and no escape without a translation. `x` is its text behind the opening bracket.
pub fn classes_keep_their_members()
    ensures { (x w : Text) (negated : Bool) (items : List Item) →
        class_from true x ≡ Some (Token.leaf (Leaf.class negated items), []) → WritesClass x [] w →
        has_other_escape false (91 ∷ x) ≡ false → is_empty_class (Leaf.class negated items) ≡ false →
        list_all is_no_property items ≡ true →
        (inner : Items) × ReadsClass w negated inner [] × ((c : ℕ) → rust_class_has negated inner c ≡ class_has negated items c) }
{}

/// The text for Rust of a pattern has, by Rust's grammar, a tree that is alike to the pattern's. The pattern has no `.`, no `\b` or
/// `\B` outside of classes, no property escape and no modifiers.
pub fn texts_keep_their_trees()
    ensures { (x w : Text) (h : Translates x w) → has_untold_part h.tree ≡ false →
        (u : Tree) × RustGrammar w u × Alike h.tree u }
{}

/// Two trees that a text has by Rust's grammar are alike.
pub fn trees_of_a_text_are_alike()
    ensures { (y : Text) (t u : Tree) → RustGrammar y t → RustGrammar y u → Alike t u }
{}

/// Rust's grammar does not take every text: `\s` and `[a&&b]` have no tree.
pub fn some_patterns_have_no_tree()
    ensures escape { (t : Tree) → RustGrammar (codes "\\s") t → ⊥ }
    ensures operation { (t : Tree) → RustGrammar (codes "[a&&b]") t → ⊥ }
{}
