//! That keys rise at each level of a node's tree.

ghost use Rattle.json_model.specs.Parts.{elements_from, elements_of, members_from, pairs_of};
ghost use Rattle.json_model.specs.Rising.{KeysRise, KeysRiseInElements};
ghost use Rattle.json_model.specs.Tree.{object as object_of};

use crate::node_family::NodeFamily;

/// The keys rise at each level of a value.
#[cycle(rising)]
pub(crate) fn keys_rise_in_node<F: NodeFamily>(node: &F::Node)
    ensures { KeysRise (F.Node.tree node.now) }
{
    if let Some(array) = F::as_array(node) {
        return keys_rise_in_elements::<F>(&array);
    }
    if let Some(object) = F::as_object(node) {
        return keys_rise_in_members::<F>(&object);
    }
}

/// The keys rise at each level of an array's elements.
#[cycle(rising)]
fn keys_rise_in_elements<F: NodeFamily>(array: &F::Array)
    ensures { KeysRiseInElements (elements_from (elements_of (F.Array.tree array.now))) }
{
    for element in F::elements(array) {
        keys_rise_in_node::<F>(&element);
    }
}

/// The keys rise at each level of an object.
#[cycle(rising)]
fn keys_rise_in_members<F: NodeFamily>(object: &F::Object)
    ensures { KeysRise (object_of (members_from (pairs_of (F.Object.tree object.now)))) }
{
    for member in F::members(object) {
        keys_rise_in_node::<F>(&F::value(&member));
    }
}
