//! What is compiled once and checks documents, whatever it was compiled from.

ghost use Rattle.std.specs.Prelude.{◌↔◌, IsTrue, IfOk};
ghost use Rattle.json_model.specs.Tree.{Tree};
ghost use Rattle.jsonb.specs.Nodes.{node_tree};
ghost use Rattle.flat_keywords.specs.inner.Passes as flat;
ghost use Rattle.judge_tree.specs.Compiled as nested;

use flat_keywords::Checks;
use json_exact::OutOfMemory;
use jsonb::JsonbNode;
use judge_tree::Schema;
use std::alloc::Global;

/// What is compiled once and checks documents.
pub(crate) trait Rules {
    ghost passes: { Self → Tree → Type 0 };

    /// Whether a document passes.
    fn check_root(&self, alloc: Global, root: &JsonbNode<'_>) -> Result<bool, OutOfMemory>
        ensures { IfOk result (λ b. IsTrue b ↔ passes self.now (node_tree root.now)) };
}

impl Rules for Checks {
    ghost passes = { flat.Passes };

    fn check_root(&self, alloc: Global, root: &JsonbNode<'_>) -> Result<bool, OutOfMemory> {
        self.check(alloc, root)
    }
}

impl Rules for Schema {
    ghost passes = { nested.Passes };

    fn check_root(&self, alloc: Global, root: &JsonbNode<'_>) -> Result<bool, OutOfMemory> {
        self.check(alloc, root)
    }
}
