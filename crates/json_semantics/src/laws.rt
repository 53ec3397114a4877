//! Laws of JSON equality, for trees whose keys rise at each level. By [`keys_rise`], the tree of every value is one. Each
//! function answers nothing: its contract is what it is for.

ghost use Rattle.json_model.specs.Rising.{KeysRise};
ghost use Rattle.json_model.specs.Same.{Same};
ghost use Rattle.json_model.specs.Tree.{Tree};
ghost use Rattle.json_exact.specs.Trees.{tree};

use crate::node::ValueNode;
use json_exact::Value;

/// JSON equality is an equivalence over the trees whose keys rise at each level.
pub fn same_is_an_equivalence()
    ensures reflexive { (t : Tree) → KeysRise t → Same t t }
    ensures symmetric { (t u : Tree) → KeysRise t → KeysRise u → Same t u → Same u t }
    ensures transitive { (t u v : Tree) → KeysRise t → KeysRise u → KeysRise v → Same t u → Same u v → Same t v }
{}

/// The keys in a value's tree rise at each level. It passes over the value once, by recursion as deep as it nests, and takes no
/// memory. `json_traits::laws::keys_rise` says the same of each kind of node.
pub fn keys_rise(value: &Value)
    ensures { KeysRise (tree value.now) }
{
    json_traits::laws::keys_rise(&ValueNode::new(value))
}
