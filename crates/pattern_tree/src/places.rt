//! Where the groups of each name begin, and which names a group may not have.

ghost use Rattle.std.specs.Prelude.{◌≡◌, ◌+◌, ◌<◌, ◌≤◌, ◌^◌, ◌&&◌, ℕ, [], ◌∷◌, ◌++◌, map, nat_le, length, IfOk, OnOk, string_bytes, MatchOption, List, Bool, not, Some, true, false, nat_lt};
ghost use Rattle.pattern_tree.specs.TokenTests.{token_captures, token_numbers, token_references};
ghost use Rattle.pattern_model.specs.BackReferences.{in_number, in_names};
ghost use Rattle.pattern_model.specs.Tree as tree;
ghost use Rattle.pattern_tree.specs.Machine.{State};
ghost use Rattle.pattern_tree.specs.Nodes.{token_of, mark_of, leaf_of};
ghost use Rattle.pattern_tree.specs.Places.{Placed, Allows, Popped, has_all, place_of, inner_first, lives, taken, StartsRise};
ghost use Rattle.std.specs.List.Sorted.{IsPartitionPoint};
ghost use Rattle.pattern_model.specs.SharedNames.{mark_names};
ghost use Rattle.std.specs.Str.{bytes_eq};
ghost use Rattle.std.specs.Map.{update};

use crate::node::Mark;
use crate::token::Token;
use std::alloc::{AllocError, Global};
use std::collections::BTreeMap;

/// An open group: where it begins, and where the alternative that it stands in begins.
#[derive(Clone, Copy)]
pub struct Scope {
    pub start: usize,
    pub alternative: usize,
}

/// The places of names and of alternatives, at a place in the text.
#[derive(Drop)]
pub struct Places {
    /// Where the last group of each name begins.
    pub latest: BTreeMap<String, usize>,
    /// The open groups, the innermost last.
    pub outer: Vec<Scope>,
    /// Where the alternative that is open begins.
    pub alternative: usize,
}

/// The name of a group.
fn name_of(mark: &Mark) -> Option<&str>
    ensures { MatchOption result (mark_names (mark_of mark.now) ≡ []) (λ n.
        mark_names (mark_of mark.now) ≡ n.now ∷ []) }
{
    match mark {
        Mark::Named(name) => Some(name.as_str()),
        _ => None,
    }
}

/// How many of the open groups begin before the place.
fn begun_before(outer: &[Scope], place: usize) -> usize
    requires { StartsRise outer.now }
    ensures len { result ≤ length outer.now }
    ensures point { IsPartitionPoint (λ s.
        nat_lt s.start place ≡ true) (λ s. nat_lt s.start place ≡ false) outer.now result }
{
    outer.partition_point(|scope| scope.start < place)
}

impl Places {
    /// Whether a group that began at the place stands in the alternative that is open, or in one of those around it. Groups
    /// open one after the other, so the innermost that is around the place is found by halves.
    fn is_live(&self, place: usize) -> bool
        requires { StartsRise self.now.outer.items }
        ensures { result ≡ lives self.now.alternative (inner_first self.now.outer.items) place }
    {
        let around = begun_before(&self.outer, place);
        if around < self.outer.len() {
            self.outer[around].alternative <= place
        } else {
            self.alternative <= place
        }
    }

    /// Whether a group beside the place has the name.
    fn is_taken(&self, name: &str) -> bool
        requires { StartsRise self.now.outer.items }
        ensures { result ≡ taken self.now name.now }
    {
        match self.latest.get(name).copied() {
            None => false,
            Some(place) => self.is_live(place),
        }
    }

    /// Takes a group's name: false where a group beside it has the name.
    fn name(&mut self, alloc: Global, name: &str, start: usize) -> Result<bool, AllocError>
        requires { StartsRise self.old.outer.items }
        ensures free { IfOk result (λ yes. yes ≡ not (taken self.old name.now)) }
        ensures place { IfOk result (λ yes.
            yes ≡ true → (q : List ℕ) → place_of self.new q
            ≡ update bytes_eq (place_of self.old) name.now (Some start) q) }
        ensures outer { OnOk result (self.new.outer ≡ self.old.outer) }
        ensures alternative { OnOk result (self.new.alternative ≡ self.old.alternative) }
    {
        if self.is_taken(name) {
            return Ok(false);
        }
        let key = String::from_str(alloc, name)?;
        self.latest.insert(key, start)?;
        Ok(true)
    }

    fn push(&mut self, start: usize, end: usize) -> Result<(), AllocError>
        ensures latest { self.new.latest ≡ self.old.latest }
        ensures outer { OnOk result (self.new.outer.items
            ≡ self.old.outer.items ++ ((record {
              start = start;
              alternative =
                  self.old.alternative;
            }) ∷ [])) }
        ensures alternative { OnOk result (self.new.alternative ≡ end) }
    {
        self.outer.push(Scope {
            start,
            alternative: self.alternative,
        })?;
        self.alternative = end;
        Ok(())
    }

    fn open(
        &mut self,
        alloc: Global,
        mark: &Mark,
        start: usize,
        end: usize,
    ) -> Result<bool, AllocError>
        requires from { start < end }
        requires rise { StartsRise self.old.outer.items }
        ensures { IfOk result (λ yes.
            (s : State) → Placed self.old s start →
            Allows (tree.Token.opens (mark_of mark.now)) s end self.new yes) }
    {
        match name_of(mark) {
            None => {
                self.push(start, end)?;
                Ok(true)
            }
            Some(name) => {
                if !self.name(alloc, name, start)? {
                    return Ok(false);
                }
                self.push(start, end)?;
                Ok(true)
            }
        }
    }

    fn close(&mut self)
        ensures latest { self.new.latest ≡ self.old.latest }
        ensures outer { Popped self.old self.new }
    {
        if let Some(scope) = self.outer.pop() {
            self.alternative = scope.alternative;
        }
    }

    /// Takes a token that goes from one place to another: false where it is a group whose name it cannot have.
    pub fn take(
        &mut self,
        alloc: Global,
        token: &Token,
        start: usize,
        end: usize,
    ) -> Result<bool, AllocError>
        requires from { start < end }
        requires rise { StartsRise self.old.outer.items }
        ensures { IfOk result (λ yes.
            (s : State) → Placed self.old s start →
            Allows (token_of token.now) s end self.new yes) }
    {
        match token {
            Token::Opens(mark) => self.open(alloc, mark, start, end),
            Token::Closes => {
                self.close();
                Ok(true)
            }
            Token::Bar => {
                self.alternative = end;
                Ok(true)
            }
            Token::Single(_) => Ok(true),
            Token::Times(_) => Ok(true),
        }
    }

    /// Whether each of the names is that of a group.
    pub fn has_all(&self, mut names: Vec<String>) -> bool
        ensures { result ≡ has_all self.now (map string_bytes names.items) }
    {
        while let Some(name) = names.pop() {
            if !self.latest.contains_key(name.as_str()) {
                return false;
            }
        }
        true
    }
}
