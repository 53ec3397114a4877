//! Laws of the answers, for all slices and for all nodes. What a function here is for is its contract.

ghost use Rattle.std.specs.Prelude.{◌≡◌, ◌↔◌, Bool, Result, IsTrue, IfOk};
ghost use Rattle.flat_keywords.specs.inner.Passes.{Passes};
ghost use Rattle.json_exact.specs.Trees.{tree};
ghost use Rattle.json_model.specs.Same.{Same};
ghost use Rattle.flat_keywords.specs.Right.{Answer, RightBy, RightOnTrees};
ghost use Rattle.flat_keywords.specs.Verdict.{Verdict};
ghost use Rattle.flat_keywords.specs.declared.draft.Draft.{Draft};
ghost use Rattle.flat_keywords.specs.declared.errors.KeywordError.{KeywordError};

use crate::checks::Checks;
use json_exact::{OutOfMemory, Value};
use json_semantics::ValueNode;
use json_traits::Node;
use json_traits::laws::keys_rise;
use std::alloc::Global;

/// Each pair of slices has at most one right answer by each draft.
pub fn one_answer(keywords: &[u8], document: &[u8])
    ensures { (draft : Draft) → (r q : Answer)
        → RightBy draft keywords.now document.now r → RightBy draft keywords.now document.now q → r ≡ q }
{
    let _keywords = keywords.len();
    let _document = document.len();
}

/// Each pair of slices has a right answer by each draft.
pub fn some_answer(keywords: &[u8], document: &[u8])
    ensures { (draft : Draft) → (r : Answer) × RightBy draft keywords.now document.now r }
{
    let _keywords = keywords.len();
    let _document = document.len();
}

/// Two values have at most one right answer, as keywords and as a document: the causes of a refusal exclude one another.
pub fn one_answer_on_values(keywords: &Value, document: &Value)
    ensures { (r q : Result Bool KeywordError)
        → RightOnTrees (tree keywords.now) (tree document.now) r
        → RightOnTrees (tree keywords.now) (tree document.now) q → r ≡ q }
{
    let _keywords = ValueNode::new(keywords);
    let _document = ValueNode::new(document);
}

/// Two values have a right answer: the fault of the keywords, or the verdict.
pub fn some_answer_on_values(keywords: &Value, document: &Value)
    ensures { (r : Result Bool KeywordError)
        × RightOnTrees (tree keywords.now) (tree document.now) r }
{
    let _keywords = ValueNode::new(keywords);
    let _document = ValueNode::new(document);
}

/// Documents that are equal by JSON equality have one verdict under each keyword object of 2020-12, whatever holds the three: 1 is
/// 1.0. It passes over each of the three once, by recursion as deep as it nests, and takes no memory.
pub fn equal_documents_have_one_verdict<'a, K: Node<'a>, M: Node<'a>, N: Node<'a>>(
    keywords: &K,
    left: &M,
    right: &N,
)
    ensures { Same (M.tree left.now) (N.tree right.now)
        → Verdict (K.tree keywords.now) (M.tree left.now)
        ↔ Verdict (K.tree keywords.now) (N.tree right.now) }
{
    keys_rise(keywords);
    keys_rise(left);
    keys_rise(right);
}

/// The verdicts on two nodes, which are one where both stand for one tree, whatever holds them: a slice, or a value in memory. Want of
/// memory comes as of [`Checks::check`].
pub fn one_verdict<'a, M: Node<'a>, N: Node<'a>>(
    alloc: Global,
    checks: &Checks,
    first: &M,
    second: &N,
) -> Result<(bool, bool), OutOfMemory>
    ensures first { IfOk result (λ v. IsTrue v.0 ↔ Passes checks.now (M.tree first.now)) }
    ensures second { IfOk result (λ v. IsTrue v.1 ↔ Passes checks.now (N.tree second.now)) }
    ensures one { M.tree first.now ≡ N.tree second.now → IfOk result (λ v. v.0 ≡ v.1) }
{
    let first = checks.check(alloc, first)?;
    let second = checks.check(alloc, second)?;
    Ok((first, second))
}
