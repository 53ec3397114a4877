//! Flat keywords over a family of nodes.

ghost use Rattle.std.specs.Prelude.{◌↔◌, IsTrue, IsOk, IfOk, IfErr};
ghost use Rattle.flat_keywords.specs.Compiled.{IsCompiledMember, IsFault};
ghost use Rattle.flat_keywords.specs.inner.Passes.{NeedsNoMemory, Passes};

use flat_keywords::{Checks, KeywordError};
use json_exact::OutOfMemory;
use json_traits::{FamilyOf, Node, NodeFamily};
use std::alloc::Global;

/// A family of nodes whose members can be flat keywords, and whose nodes can be checked.
pub(crate) trait JudgedFamily: NodeFamily {
    /// The checks of a flat keyword, or its fault.
    fn compile_flat(alloc: Global, member: &Self::Member) -> Result<Checks, KeywordError>
        ensures ok { IfOk result (IsCompiledMember (Self.pair member.now)) }
        ensures err { IfErr result (IsFault 0 (Self.pair member.now)) };

    /// Whether a node passes the checks of a flat keyword.
    fn passes(alloc: Global, checks: &Checks, node: &Self::Node) -> Result<bool, OutOfMemory>
        ensures ok { NeedsNoMemory checks.now → IsOk result }
        ensures right { IfOk result (λ b. IsTrue b ↔ Passes checks.now (Self.Node.tree node.now)) };
}

impl<'a, N: Node<'a>> JudgedFamily for FamilyOf<'a, N> {
    fn compile_flat(alloc: Global, member: &(&'a str, N)) -> Result<Checks, KeywordError> {
        Checks::of_member(alloc, member.0, &member.1, 0)
    }

    fn passes(alloc: Global, checks: &Checks, node: &N) -> Result<bool, OutOfMemory> {
        checks.check(alloc, node)
    }
}
