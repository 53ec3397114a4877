//! How deep a value nests.

ghost use Rattle.std.specs.Prelude.{◌≤◌, ◌↔◌, IsTrue};
ghost use Rattle.json_model.specs.Nest.{nest, nest_elements, nest_members};
ghost use Rattle.json_model.specs.Parts.{elements_from, elements_of, members_from, pairs_of};

use crate::node_family::NodeFamily;

/// Whether a value nests at most `limit` containers, itself counted. It goes no deeper than the limit.
#[cycle(nesting)]
pub fn nests_within<F: NodeFamily>(node: &F::Node, limit: usize) -> bool
    ensures { IsTrue result ↔ (nest (F.Node.tree node.now) ≤ limit) }
{
    if let Some(array) = F::as_array(node) {
        return limit > 0 && elements_nest_within::<F>(&array, limit - 1);
    }
    if let Some(object) = F::as_object(node) {
        return limit > 0 && members_nest_within::<F>(&object, limit - 1);
    }
    true
}

/// Whether each element nests at most `limit` containers.
#[cycle(nesting)]
fn elements_nest_within<F: NodeFamily>(array: &F::Array, limit: usize) -> bool
    ensures { IsTrue result ↔ (nest_elements (elements_from (elements_of (F.Array.tree array.now))) ≤ limit) }
{
    for element in F::elements(array) {
        if !nests_within::<F>(&element, limit) {
            return false;
        }
    }
    true
}

/// Whether each member's value nests at most `limit` containers.
#[cycle(nesting)]
fn members_nest_within<F: NodeFamily>(object: &F::Object, limit: usize) -> bool
    ensures { IsTrue result ↔ (nest_members (members_from (pairs_of (F.Object.tree object.now))) ≤ limit) }
{
    for member in F::members(object) {
        if !nests_within::<F>(&F::value(&member), limit) {
            return false;
        }
    }
    true
}
