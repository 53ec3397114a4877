//! Whether two groups of a pattern have one name.

ghost use Rattle.std.specs.Prelude.{◌≡◌, ℕ, List, true, false, ◌||◌, IfOk};
ghost use Rattle.std.specs.Str.{bytes_eq};
ghost use Rattle.std.specs.BTreeSet.{contains_text};
ghost use Rattle.pattern_tree.specs.Patterns.{HasNode, tree_of};
ghost use Rattle.rust_pattern_model.specs.Refusals.{shares_name};
ghost use Rattle.pattern_translation.specs.Names.{LooksAt};

use pattern_tree::{Form, NodeId, Pattern};
use std::alloc::{AllocError, Global};
use std::collections::BTreeSet;

/// Adds a name to those that were seen. True where it was seen before.
fn see(alloc: Global, seen: &mut BTreeSet<String>, name: &str) -> Result<bool, AllocError>
    ensures known { IfOk result (λ yes. yes ≡ contains_text seen.old name.now) }
    ensures added { IfOk result (λ yes. yes ≡ false → (q : List ℕ) →
        contains_text seen.new q ≡ (contains_text seen.old q || bytes_eq name.now q)) }
{
    if seen.contains(name) {
        return Ok(true);
    }
    seen.insert(String::from_str(alloc, name)?)?;
    Ok(false)
}

/// Looks at a node, and puts its parts on the list. True where it is a group with a name that was seen.
fn look(
    alloc: Global,
    pattern: &Pattern,
    id: NodeId,
    nodes: &mut Vec<NodeId>,
    seen: &mut BTreeSet<String>,
) -> Result<bool, AllocError>
    requires { HasNode pattern.now id }
    ensures { IfOk result (λ yes. LooksAt pattern.now id nodes.old.items nodes.new.items
        (λ q. contains_text seen.old q) (λ q. contains_text seen.new q) yes) }
{
    match pattern.form(id) {
        Form::Group { mark: _, inner } => {
            nodes.push(inner)?;
            match pattern.name(id) {
                Some(name) => {
                    let known = see(alloc, seen, name)?;
                    Ok(known)
                }
                None => Ok(false),
            }
        }
        Form::Repeat {
            inner,
            least: _,
            most: _,
            lazy: _,
        } => {
            nodes.push(inner)?;
            Ok(false)
        }
        Form::Sequence { left, right } => {
            nodes.push(right)?;
            nodes.push(left)?;
            Ok(false)
        }
        Form::Either { left, right } => {
            nodes.push(right)?;
            nodes.push(left)?;
            Ok(false)
        }
        Form::Empty => Ok(false),
        Form::Code(_) => Ok(false),
        Form::Dot => Ok(false),
        Form::Start => Ok(false),
        Form::End => Ok(false),
        Form::Boundary => Ok(false),
        Form::NotBoundary => Ok(false),
        Form::Escape(_) => Ok(false),
        Form::Class { negated: _ } => Ok(false),
        Form::Property { negated: _ } => Ok(false),
        Form::BackNumber(_) => Ok(false),
        Form::BackName => Ok(false),
    }
}

/// Whether two groups have one name. It takes memory for the names.
pub(crate) fn shares_name(alloc: Global, pattern: &Pattern) -> Result<bool, AllocError>
    ensures { IfOk result (λ yes. yes ≡ shares_name (tree_of pattern.now)) }
{
    let mut seen = BTreeSet::new(alloc);
    let mut nodes = Vec::new(alloc);
    nodes.push(pattern.root())?;
    while let Some(id) = nodes.pop() {
        if look(alloc, pattern, id, &mut nodes, &mut seen)? {
            return Ok(true);
        }
    }
    Ok(false)
}
