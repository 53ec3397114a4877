//! Reads a pattern from left to right, with a list of open groups.

ghost use Rattle.std.specs.Prelude.{◌≡◌, ◌+◌, ◌<◌, ◌≤◌, ◌^◌, [], ◌∷◌, ◌++◌, length, vec_len, IfOk, OnOk, IfSome, IfNone, None, option_map, map, nat_le, ◌&&◌, string_bytes, if◌then◌else◌, ℕ, Bool, true};
ghost use Rattle.pattern_model.specs.Tree as tree;
ghost use Rattle.std.specs.Str.{chars};
ghost use Rattle.pattern_tree.specs.Machine.{step, finished};
ghost use Rattle.pattern_model.specs.Tokens.{token_from};
ghost use Rattle.pattern_model.specs.Grammar.{Grammar};
ghost use Rattle.pattern_tree.specs.Places.{has_all};
ghost use Rattle.pattern_tree.specs.Nodes.{trees_of, state_of, InReader, token_of, StepsTo, Moves, mark_of, leaf_of, bounds_of};
ghost use Rattle.pattern_tree.specs.Spans.{ReaderStands, StandsOn};
ghost use Rattle.pattern_tree.specs.declared.token.Token.TheVariants as tokens;
ghost use Rattle.pattern_tree.specs.Patterns.{tree_of, SpansStand};
ghost use Rattle.pattern_model.specs.Text.{Text};

use crate::counters::Counters;
use crate::node::{Counts, Mark, Node, Shape, Single, add, can_repeat, start_of};
use crate::part::{Part, close, extend};
use crate::pattern::Pattern;
use crate::places::Places;
use crate::span::Span;
use crate::text::split_first;
use crate::token::{Token, token_from};
use std::alloc::{AllocError, Global};
use std::collections::BTreeMap;

#[derive(Drop)]
pub struct Open {
    pub mark: Mark,
    pub part: Part,
    pub start: usize,
}

#[derive(Drop)]
pub struct Reader {
    pub nodes: Vec<Node>,
    pub here: Part,
    pub outer: Vec<Open>,
}

impl Reader {
    fn single(&mut self, single: Single, span: Span) -> Result<(), AllocError>
        requires room { length self.old.nodes.items + 4 ≤ 2 ^ 32 }
        requires inside { InReader self.old }
        ensures step { OnOk result (StepsTo (tree.Token.leaf (leaf_of single)) self.old self.new) }
        ensures stands { OnOk result (
            StandsOn (tokens.Single single) span.start span.end self.old self.new) }
    {
        let id = add(&mut self.nodes, Shape::Single(single), span)?;
        self.here = extend(&mut self.nodes, self.here, id)?;
        Ok(())
    }

    fn open(&mut self, mark: Mark, start: usize) -> Result<(), AllocError>
        requires inside { InReader self.old }
        ensures step { OnOk result (StepsTo (tree.Token.opens (mark_of mark)) self.old self.new) }
        ensures stands { OnOk result ((end : ℕ) →
            StandsOn (tokens.Opens mark) start end self.old self.new) }
    {
        self.outer.push(Open {
            mark,
            part: self.here,
            start,
        })?;
        self.here = Part {
            done: None,
            before: None,
            last: None,
        };
        Ok(())
    }

    fn bar(&mut self, start: usize) -> Result<(), AllocError>
        requires room { length self.old.nodes.items + 4 ≤ 2 ^ 32 }
        requires inside { InReader self.old }
        ensures step { OnOk result (StepsTo tree.Token.bar self.old self.new) }
        ensures stands { OnOk result ((end : ℕ) → StandsOn tokens.Bar start end self.old self.new) }
    {
        let id = close(&mut self.nodes, self.here, start)?;
        self.here = Part {
            done: Some(id),
            before: None,
            last: None,
        };
        Ok(())
    }

    fn close(&mut self, span: Span) -> Result<bool, AllocError>
        requires room { length self.old.nodes.items + 4 ≤ 2 ^ 32 }
        requires inside { InReader self.old }
        ensures step { IfOk result (λ yes. Moves tree.Token.closes self.old self.new yes) }
        ensures stands { IfOk result (λ yes.
            yes ≡ true → StandsOn tokens.Closes span.start span.end self.old self.new) }
    {
        let Some(open) = self.outer.pop() else {
            return Ok(false);
        };
        let Open { mark, part, start } = open;
        let inner = close(&mut self.nodes, self.here, span.start)?;
        let whole = Span {
            start,
            end: span.end,
        };
        let id = add(&mut self.nodes, Shape::Group(mark, inner), whole)?;
        self.here = extend(&mut self.nodes, part, id)?;
        Ok(true)
    }

    fn times(&mut self, counts: Counts, end: usize) -> Result<bool, AllocError>
        requires room { length self.old.nodes.items + 4 ≤ 2 ^ 32 }
        requires inside { InReader self.old }
        ensures step { IfOk result (λ yes.
            Moves (tree.Token.times (bounds_of counts)) self.old self.new yes) }
        ensures stands { IfOk result (λ yes.
            yes ≡ true → (start : ℕ) →
            StandsOn (tokens.Times counts) start end self.old self.new) }
    {
        let Some(id) = self.here.last else {
            return Ok(false);
        };
        if !can_repeat(&self.nodes, id) {
            return Ok(false);
        }
        let span = Span {
            start: start_of(&self.nodes, id),
            end,
        };
        let last = add(&mut self.nodes, Shape::Repeat(id, counts), span)?;
        self.here = Part {
            done: self.here.done,
            before: self.here.before,
            last: Some(last),
        };
        Ok(true)
    }

    fn step(&mut self, token: Token, span: Span) -> Result<bool, AllocError>
        requires room { length self.old.nodes.items + 4 ≤ 2 ^ 32 }
        requires inside { InReader self.old }
        ensures step { IfOk result (λ yes. Moves (token_of token) self.old self.new yes) }
        ensures stands { IfOk result (λ yes.
            yes ≡ true → StandsOn token span.start span.end self.old self.new) }
    {
        match token {
            Token::Single(single) => {
                self.single(single, span)?;
                Ok(true)
            }
            Token::Opens(mark) => {
                self.open(mark, span.start)?;
                Ok(true)
            }
            Token::Closes => self.close(span),
            Token::Bar => {
                self.bar(span.start)?;
                Ok(true)
            }
            Token::Times(counts) => self.times(counts, span.end),
        }
    }
}

fn finish(mut reader: Reader, end: usize) -> Result<Option<Pattern>, AllocError>
    requires room { length reader.nodes.items + 4 ≤ 2 ^ 32 }
    requires inside { InReader reader }
    requires stands { (wide : Bool) × (x : Text) × ReaderStands wide x reader end }
    ensures tree { IfOk result (λ o.
        finished (state_of reader).here (state_of reader).outer ≡ option_map tree_of o) }
    ensures spans { IfOk result (λ o. IfSome o (λ p.
        (wide : Bool) (x : Text) → ReaderStands wide x reader end → SpansStand wide x p end)) }
{
    if reader.outer.len() > 0 {
        return Ok(None);
    }
    let root = close(&mut reader.nodes, reader.here, end)?;
    Ok(Some(Pattern {
        nodes: reader.nodes,
        root,
    }))
}

/// Whether each back-reference has its group.
fn are_met(counters: Counters, places: &Places) -> bool
    ensures { result
        ≡ (nat_le counters.highest counters.groups && has_all places.now (map string_bytes
        counters.references.items)) }
{
    counters.highest <= counters.groups && places.has_all(counters.references)
}

/// Reads a pattern by the ECMA grammar, or by the widened one.
pub fn read(alloc: Global, wide: bool, text: &str) -> Result<Option<Pattern>, AllocError>
    requires { length text.now < 2 ^ 30 }
    ensures some { IfOk result (λ o. IfSome o (λ p. Grammar wide (chars text.now) (tree_of p))) }
    ensures spans { IfOk result (λ o. IfSome o (λ p.
        SpansStand wide (chars text.now) p (length text.now))) }
    ensures none { IfOk result (λ o. IfNone o (
        (t : tree.Tree) → Grammar wide (chars text.now) t → ⊥)) }
{
    let total = text.len();
    let mut counters = Counters {
        groups: 0,
        highest: 0,
        references: Vec::new(alloc),
    };
    let mut places = Places {
        latest: BTreeMap::new(alloc),
        outer: Vec::new(alloc),
        alternative: 0,
    };
    let mut reader = Reader {
        nodes: Vec::new(alloc),
        here: Part {
            done: None,
            before: None,
            last: None,
        },
        outer: Vec::new(alloc),
    };
    let mut rest = text;
    while let Some((c, after)) = split_first(rest) {
        let read = token_from(alloc, wide, total, c, after)?;
        let Some((token, next)) = read else {
            return Ok(None);
        };
        let start = total - rest.len();
        let end = total - next.len();
        counters.take(&token)?;
        if !places.take(alloc, &token, start, end)? {
            return Ok(None);
        }
        if !reader.step(token, Span { start, end })? {
            return Ok(None);
        }
        rest = next;
    }
    if !are_met(counters, &places) {
        return Ok(None);
    }
    finish(reader, total)
}
