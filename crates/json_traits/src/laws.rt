//! What holds of all nodes and of all identities.

ghost use Rattle.std.specs.Prelude.{◌≡◌, ◌↔◌, IsTrue};
ghost use Rattle.json_model.specs.Rising.{KeysRise};
ghost use Rattle.json_traits.specs.Identities.{pair};

use crate::identity::NodeIdentity;
use crate::node::Node;
use crate::node_family::FamilyOf;
use crate::rising::keys_rise_in_node;

/// Two identities are equal exactly where both their numbers are.
pub fn identities_are_equal_where_both_numbers_are(left: NodeIdentity, right: NodeIdentity) -> bool
    ensures { IsTrue result ↔ (((pair left).0 ≡ (pair right).0) × ((pair left).1 ≡ (pair right).1)) }
{
    left == right
}

/// The keys rise at each level of a node's tree, as equality of trees asks. It passes over the node once, by recursion as deep as
/// it nests, and takes no memory.
pub fn keys_rise<'a, N: Node<'a>>(node: &N)
    ensures { KeysRise (N.tree node.now) }
{
    keys_rise_in_node::<FamilyOf<'a, N>>(node)
}
