//! Laws of the bytes of trees. The functions answer nothing: their contracts are what they are for.

ghost use Rattle.std.specs.Prelude.{◌≡◌, ◌↔◌, ℕ, List, IsTrue};
ghost use Rattle.json_model.specs.Decimal.{Decimal, IsNarrow};
ghost use Rattle.json_model.specs.Json.{HasNarrow};
ghost use Rattle.json_model.specs.Tree.{Tree};
ghost use Rattle.json_exact.specs.Parsed.{IsInRange};
ghost use Rattle.json_exact.specs.Trees.{tree};
ghost use Rattle.jsonb_layout.specs.Numeric.{Numeric};
ghost use Rattle.jsonb_layout.specs.Stands.{Stands};
ghost use Rattle.jsonb_encode.specs.Canonical.{IsCanonical};
ghost use Rattle.jsonb_encode.specs.Encoded.{encoded, canonical};
ghost use Rattle.jsonb_encode.specs.Limits.{all_fit, IsWithinLimits, IsStorable};
ghost use Rattle.jsonb_encode.specs.Number.{header, is_short, numeric, fits};
ghost use Rattle.jsonb_encode.specs.declared.number_form.NumericForm.{NumericForm};
ghost use Rattle.jsonb_encode.specs.declared.number_form.NumericForm.TheVariants.{Short, Long, ShortVarlena};

use crate::in_memory::pass_over;
use json_exact::{Number, Value};

/// Each number in memory is narrow and in range.
pub fn numbers_are_narrow_and_in_range(number: &Number)
    ensures narrow { IsNarrow number.now }
    ensures in_range { IsInRange number.now }
{
    let decimal = number.decimal();
    let _few = number.fraction_digits();
    json_exact::laws::decimals_are_within_limits(&decimal);
}

/// In the tree of each value the keys rise at each level and the numbers are in range, as the laws below ask of a tree. Its numbers
/// are narrow too. The law passes over the value once, by recursion as deep as it nests, and takes no memory.
pub fn values_are_storable(value: &Value)
    ensures storable { IsStorable (tree value.now) }
    ensures narrow { HasNarrow (tree value.now) }
{
    pass_over(value)
}

/// The bytes of a number in range, in a form that it has, stand for it in the layout's grammar, however many digits it has.
pub fn numbers_stand()
    ensures { (f : NumericForm) (d : Decimal) → IsInRange d → IsTrue (fits f d) → Numeric (numeric f d) d }
{}

/// Of a narrow number, as each number of a value is, the short header alone decides whether it has the form of one size byte.
pub fn narrow_numbers_fit()
    ensures { (d : Decimal) → IsNarrow d → fits ShortVarlena d ≡ is_short (header d) }
{}

/// Each number of each tree has the forms `Short` and `Long`. So `DoesNotFit` comes with the form of one size byte alone.
pub fn short_and_long_fit_each_tree()
    ensures short { (t : Tree) → IsTrue (all_fit Short t) }
    ensures long { (t : Tree) → IsTrue (all_fit Long t) }
{}

/// The bytes of a tree stand for it in the layout's grammar, where it can be stored, its numbers have the form and its containers are
/// within the limits. So the grammar has bytes for each such tree.
pub fn encoded_bytes_stand()
    ensures { (f : NumericForm) (t : Tree) → IsStorable t → IsTrue (all_fit f t) → IsWithinLimits f t → Stands (encoded f t) t }
{}

/// The canonical bytes of two trees that can be stored are the same exactly where the trees are, written fraction digits included.
pub fn canonical_bytes_tell_trees_apart()
    ensures { (t u : Tree) → IsStorable t → IsStorable u → IsWithinLimits Short t → IsWithinLimits Short u
        → ((canonical t ≡ canonical u) ↔ (t ≡ u)) }
{}

/// One byte string at most is canonical for a tree: the one that is written.
pub fn canonical_bytes_are_one()
    ensures one { (t : Tree) (b c : List ℕ) → IsCanonical b t → IsCanonical c t → b ≡ c }
    ensures written { (t : Tree) (b : List ℕ) → IsCanonical b t → b ≡ canonical t }
{}

/// Canonical bytes stand for their tree in the layout's grammar. So, as no bytes stand for two trees, they are canonical for one.
pub fn canonical_bytes_stand()
    ensures { (t : Tree) (b : List ℕ) → IsCanonical b t → Stands b t }
{}

/// Where the keys of a tree rise at each level, its numbers are in range and its containers are within the limits, it has canonical
/// bytes: those that `encode` gives for a value. No other tree has any.
pub fn values_have_canonical_bytes()
    ensures some { (t : Tree) → IsStorable t → IsWithinLimits Short t → IsCanonical (canonical t) t }
    ensures only_storable { (t : Tree) (b : List ℕ) → IsCanonical b t → IsStorable t }
    ensures only_within_limits { (t : Tree) (b : List ℕ) → IsCanonical b t → IsWithinLimits Short t }
{}
