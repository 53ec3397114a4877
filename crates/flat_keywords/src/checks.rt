//! Compiled keyword objects.

ghost use Rattle.std.specs.Prelude.{ℕ, ◌≡◌, ◌↔◌, ◌⊎◌, ◌≤◌, IsTrue, IsOk, Some, None, Err, IfOk, IfErr, IfSome, OnOk, MatchResult};
ghost use Rattle.json_model.specs.Parts.{as_array};
ghost use Rattle.json_model.specs.Nest.{nest};
ghost use Rattle.json_model.specs.Tree.{Tree};
ghost use Rattle.flat_keywords.specs.Names.{keyword_by, reading_of};
ghost use Rattle.flat_keywords.specs.Compiled.{HasThisFault, HasThisFaultBy, IsCompiled, IsCompiledBy, IsCompiledMember, IsFault, IsFaultBy};
ghost use Rattle.flat_keywords.specs.inner.Passes.{AddFault, Adds, HasRoom, IsFree, Meets, MeetsUnique, NeedsNoMemory, Passes, Took};
ghost use Rattle.flat_keywords.specs.Verdict.{count_of};
ghost use Rattle.flat_keywords.specs.Validity.{IsCopied, IsCopiedBy, IsFirst, IsFirstBy, IsLean, IsLeanBy};
ghost use Rattle.flat_keywords.specs.declared.keyword.Keyword.{Keyword};

use crate::bounds::Bounds;
use crate::draft::{Draft, Reading};
use crate::errors::KeywordError;
use crate::kept::{meets_constant, meets_listed, read_constant, read_listed};
use crate::keyword::{Keyword, Measure};
use crate::limits::{Limit, Limits};
use crate::meets::{
    meets_bounds, meets_code_points, meets_elements, meets_members, meets_types, meets_unique,
    meets_written_types,
};
use crate::names::{meets_required, read_names};
use crate::narrow::is_narrow_by;
use crate::patterns::{meets_pattern, read_pattern};
use crate::read::{read_bound, read_limit, read_silent, read_truth, read_types};
use json_exact::{OutOfMemory, Value};
use json_traits::types::JsonTypeSet;
use json_traits::{Node, Object};
use literal_patterns::LiteralPattern;
use std::alloc::Global;

/// A keyword object that is compiled once and checks many documents, whatever holds them: what it asks, with each keyword's
/// value in a type of its own.
#[derive(Drop)]
pub struct Checks {
    types: Option<JsonTypeSet>,
    written_types: Option<JsonTypeSet>,
    listed: Option<Vec<Value>>,
    constant: Option<Value>,
    bounds: Bounds,
    code_points: Limits,
    elements: Limits,
    members: Limits,
    pattern: Option<LiteralPattern>,
    unique: bool,
    required: Option<Vec<String>>,
}

impl Checks {
    /// Nothing is asked.
    fn empty() -> Checks
        ensures passes { (d : Tree) → Passes result d }
        ensures free { (w : Keyword) → IsFree w result }
        ensures memory { NeedsNoMemory result }
    {
        Checks {
            types: None,
            written_types: None,
            listed: None,
            constant: None,
            bounds: Bounds::none(),
            code_points: Limits::NONE,
            elements: Limits::NONE,
            members: Limits::NONE,
            pattern: None,
            unique: false,
            required: None,
        }
    }

    /// Sets the least count of a measure.
    fn set_least(&mut self, measure: Measure, limit: Limit)
        requires { IsFree (Keyword.Least measure) self.old }
        ensures passes { (d : Tree)
            → Passes self.new d ↔ (Passes self.old d × IfSome (count_of measure d) (Meets limit)) }
        ensures frees { (u : Keyword) → (u ≡ Keyword.Least measure → ⊥)
            → IsFree u self.old → IsFree u self.new }
        ensures memory { NeedsNoMemory self.old → NeedsNoMemory self.new }
    {
        match measure {
            Measure::CodePoints => self.code_points.least = Some(limit),
            Measure::Elements => self.elements.least = Some(limit),
            Measure::Members => self.members.least = Some(limit),
        }
    }

    /// Sets the greatest count of a measure.
    fn set_greatest(&mut self, measure: Measure, limit: Limit)
        requires { IsFree (Keyword.Greatest measure) self.old }
        ensures passes { (d : Tree)
            → Passes self.new d ↔ (Passes self.old d × IfSome (count_of measure d) (HasRoom limit)) }
        ensures frees { (u : Keyword) → (u ≡ Keyword.Greatest measure → ⊥)
            → IsFree u self.old → IsFree u self.new }
        ensures memory { NeedsNoMemory self.old → NeedsNoMemory self.new }
    {
        match measure {
            Measure::CodePoints => self.code_points.greatest = Some(limit),
            Measure::Elements => self.elements.greatest = Some(limit),
            Measure::Members => self.members.greatest = Some(limit),
        }
    }

    /// Takes in a keyword with its value, which is member number `member`.
    fn add<'a, N: Node<'a>>(
        &mut self,
        alloc: Global,
        keyword: Keyword,
        value: &N,
        member: usize,
    ) -> Result<(), KeywordError>
        requires { IsFree keyword self.old }
        ensures ok { OnOk result (Adds self.old keyword (N.tree value.now) self.new) }
        ensures err { IfErr result (AddFault member keyword (N.tree value.now)) }
    {
        match keyword {
            Keyword::Type => self.types = Some(read_types(value, member)?),
            Keyword::Enum => self.listed = Some(read_listed(alloc, value, member)?),
            Keyword::Const => self.constant = Some(read_constant(alloc, value, member)?),
            Keyword::Bound(op) => self.bounds.set(read_bound(op, value, member)?),
            Keyword::Least(measure) => self.set_least(measure, read_limit(value, member)?),
            Keyword::Greatest(measure) => self.set_greatest(measure, read_limit(value, member)?),
            Keyword::Pattern => self.pattern = Some(read_pattern(alloc, value, member)?),
            Keyword::UniqueItems => self.unique = read_truth(value, member)?,
            Keyword::Required => self.required = Some(read_names(alloc, value, member)?),
            Keyword::Silent(form) => read_silent(form, value, member)?,
            Keyword::WrittenType => self.written_types = Some(read_types(value, member)?),
        }
        Ok(())
    }

    /// Takes in member number `member` of an object whose names are so read.
    fn take_member<'a, N: Node<'a>>(
        &mut self,
        alloc: Global,
        reading: Reading,
        name: &str,
        value: &N,
        member: usize,
    ) -> Result<(), KeywordError>
        requires { (w : Keyword) → keyword_by reading name.now ≡ Some w → IsFree w self.old }
        ensures ok { OnOk result (Took reading self.old (name.now, N.tree value.now) self.new) }
        ensures err { IfErr result (IsFaultBy reading member (name.now, N.tree value.now)) }
    {
        let Some(keyword) = Keyword::from_name(reading, name) else {
            return Err(KeywordError::UnknownKeyword { member });
        };
        match is_narrow_by(alloc, reading, keyword, value) {
            Ok(true) => self.add(alloc, keyword, value, member),
            Ok(false) => Err(KeywordError::BadKeyword { member }),
            Err(OutOfMemory) => Err(KeywordError::OutOfMemory),
        }
    }

    /// The checks of one keyword of 2020-12, as member number `member` of its object. The error is that member's fault, or want of memory,
    /// which comes of `required` and `enum` with a list, of `const`, and of `pattern` with a string, alone. A pattern of 2^30 bytes or
    /// more that is not literal gets it too.
    pub fn of_member<'a, N: Node<'a>>(
        alloc: Global,
        name: &str,
        value: &N,
        member: usize,
    ) -> Result<Checks, KeywordError>
        ensures ok { IfOk result (IsCompiledMember (name.now, N.tree value.now)) }
        ensures err { IfErr result (IsFault member (name.now, N.tree value.now)) }
    {
        let mut checks = Checks::empty();
        match checks.take_member(alloc, Reading::Draft2020, name, value, member) {
            Ok(()) => Ok(checks),
            Err(error) => Err(error),
        }
    }

    /// Compiles a keyword object of 2020-12, as [`Checks::compile_draft`] does.
    pub fn compile<'a, N: Node<'a>>(alloc: Global, root: &N) -> Result<Checks, KeywordError>
        ensures right { (result ≡ Err KeywordError.OutOfMemory)
            ⊎ MatchResult result (IsCompiled (N.tree root.now)) (HasThisFault (N.tree root.now)) }
        ensures memory { result ≡ Err KeywordError.OutOfMemory
            → (m : ℕ) × IsFirst (N.tree root.now) m IsCopied }
        ensures free { nest (N.tree root.now) ≤ 1 → IsLean (N.tree root.now)
            → result ≡ Err KeywordError.OutOfMemory → ⊥ }
    {
        Checks::compile_draft(alloc, Draft::Draft2020, root)
    }

    /// Compiles a keyword object of a draft, whose members it walks once, in key order. The error is that of the first faulty member.
    /// It takes memory for the names that `required` lists, for the values of `enum` and `const`, and for a pattern, alone: no
    /// other keyword object gets want of memory. A pattern of 2^30 bytes or more that is not literal gets it too.
    pub fn compile_draft<'a, N: Node<'a>>(
        alloc: Global,
        draft: Draft,
        root: &N,
    ) -> Result<Checks, KeywordError>
        ensures right { (result ≡ Err KeywordError.OutOfMemory)
            ⊎ MatchResult result (IsCompiledBy draft (N.tree root.now)) (HasThisFaultBy draft (N.tree root.now)) }
        ensures memory { result ≡ Err KeywordError.OutOfMemory
            → (m : ℕ) × IsFirstBy draft (N.tree root.now) m (IsCopiedBy (reading_of draft (N.tree root.now))) }
        ensures free { nest (N.tree root.now) ≤ 1 → IsLeanBy draft (N.tree root.now)
            → result ≡ Err KeywordError.OutOfMemory → ⊥ }
    {
        let Some(object) = root.as_object() else {
            return Err(KeywordError::NotAnObject);
        };
        let reading = Reading::of::<N>(draft, &object);
        let count = object.len();
        let mut checks = Checks::empty();
        let mut member = 0;
        for (name, value) in object.members() {
            prove!(member < count);
            match checks.take_member(alloc, reading, name, &value, member) {
                Ok(()) => member += 1,
                Err(error) => return Err(error),
            }
        }
        Ok(checks)
    }

    /// Whether a document passes each check but that of unique elements. It takes no memory.
    fn passes_but_unique<'a, N: Node<'a>>(&self, node: &N) -> bool
        ensures all { IsTrue result → MeetsUnique self.now.unique (N.tree node.now)
            → Passes self.now (N.tree node.now) }
        ensures some { Passes self.now (N.tree node.now) → IsTrue result }
    {
        meets_types(self.types, node)
            && meets_written_types(self.written_types, node)
            && meets_listed(&self.listed, node)
            && meets_constant(&self.constant, node)
            && meets_bounds(&self.bounds, node)
            && meets_code_points(&self.code_points, node)
            && meets_elements(&self.elements, node)
            && meets_members(&self.members, node)
            && meets_pattern(&self.pattern, node)
            && meets_required(&self.required, node)
    }

    /// Whether a document passes each check: where it is valid under the keyword object. Only unique elements take memory: want of it
    /// comes only where `uniqueItems` is true and the document is an array.
    pub fn check<'a, N: Node<'a>>(&self, alloc: Global, node: &N) -> Result<bool, OutOfMemory>
        ensures ok { NeedsNoMemory self.now ⊎ (as_array (N.tree node.now) ≡ None) → IsOk result }
        ensures right { IfOk result (λ b. IsTrue b ↔ Passes self.now (N.tree node.now)) }
    {
        if !self.passes_but_unique(node) {
            return Ok(false);
        }
        meets_unique(self.unique, alloc, node)
    }
}
