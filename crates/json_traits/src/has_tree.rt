//! `HasTree`: what stands for a JSON tree.

ghost use Rattle.json_model.specs.Tree.{Tree, scalar, number};
ghost use Rattle.json_exact.specs.Trees.{tree as value_tree};

use json_exact::{Number, Value};

/// What stands for a JSON tree (RFC 8259, section 3). It has no call: the tree is what contracts speak of.
pub trait HasTree {
    ghost tree: { Self → Tree };
}

impl HasTree for Number {
    ghost tree = { λ n. scalar (number n) };
}

impl HasTree for Value {
    ghost tree = { value_tree };
}
