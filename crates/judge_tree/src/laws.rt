//! Laws of the answers. What a function here is for is its contract.

ghost use Rattle.std.specs.Prelude.{◌≡◌, Option};
ghost use Rattle.json_model.specs.Tree.{Tree};
ghost use Rattle.judge_tree.specs.Compiled.{HasFault};
ghost use Rattle.judge_tree.specs.Right.{Answer, Right};
ghost use Rattle.judge_tree.specs.declared.errors.SchemaError.{SchemaError};

/// Each pair of slices has at most one right answer: the causes of a refusal exclude one another, and so do the faults of a schema.
pub fn one_answer(schema: &[u8], document: &[u8])
    ensures { (r q : Answer) → Right schema.now document.now r → Right schema.now document.now q → r ≡ q }
{
    let _schema = schema.len();
    let _document = document.len();
}

/// A tree has at most one fault as a schema, and none where it is one.
pub fn one_fault()
    ensures { (t : Tree) (e f : Option SchemaError) → HasFault t e → HasFault t f → e ≡ f }
{}
