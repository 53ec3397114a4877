//! What the tests on back-references need to know of the tokens read so far.

ghost use Rattle.std.specs.Prelude.{◌≡◌, ◌+◌, ◌<◌, ◌≤◌, ◌^◌, ◌&&◌, ℕ, [], ◌∷◌, ◌++◌, map, nat_le, length, IfOk, OnOk, string_bytes, MatchOption, List, Bool, not, Some, true};
ghost use Rattle.pattern_tree.specs.TokenTests.{token_captures, token_numbers, token_references};
ghost use Rattle.pattern_model.specs.BackReferences.{in_number, in_names};
ghost use Rattle.pattern_model.specs.Tree as tree;
ghost use Rattle.pattern_tree.specs.Machine.{State};
ghost use Rattle.pattern_tree.specs.Nodes.{token_of, mark_of, leaf_of};
ghost use Rattle.pattern_tree.specs.Places.{Placed, Allows, Popped, has_all, place_of, inner_first, lives, taken};
ghost use Rattle.pattern_model.specs.SharedNames.{mark_names};
ghost use Rattle.std.specs.Str.{bytes_eq};
ghost use Rattle.std.specs.Map.{update};

use crate::node::{Mark, Single};
use crate::token::Token;
use std::alloc::AllocError;

/// Of the tokens read so far: how many groups have a number, the greatest number of a back-reference, and the names of
/// the back-references.
#[derive(Drop)]
pub struct Counters {
    pub groups: u64,
    pub highest: u64,
    pub references: Vec<String>,
}

impl Counters {
    fn open(&mut self, mark: &Mark)
        requires { self.old.groups < 2 ^ 32 }
        ensures groups { self.new.groups
            ≡ self.old.groups + token_captures (tree.Token.opens (mark_of mark.now)) }
        ensures highest { self.new.highest ≡ self.old.highest }
        ensures references { self.new.references ≡ self.old.references }
    {
        match mark {
            Mark::Capture => self.groups += 1,
            Mark::Named(_) => self.groups += 1,
            _ => {}
        }
    }

    fn single(&mut self, single: &Single) -> Result<(), AllocError>
        ensures groups { self.new.groups ≡ self.old.groups }
        ensures highest { OnOk result ((m : ℕ) → nat_le self.new.highest m
            ≡ (nat_le self.old.highest m && in_number m (token_numbers (tree.Token.leaf
            (leaf_of single.now))))) }
        ensures references { OnOk result (map string_bytes self.new.references.items
            ≡ map string_bytes self.old.references.items ++ token_references (tree.Token.leaf
            (leaf_of single.now))) }
    {
        match single {
            Single::BackNumber(number) => {
                let number = *number;
                if number > self.highest {
                    self.highest = number;
                }
                Ok(())
            }
            Single::BackName(name) => {
                let name = name.clone()?;
                self.references.push(name)?;
                Ok(())
            }
            _ => Ok(()),
        }
    }

    /// Takes a token.
    pub fn take(&mut self, token: &Token) -> Result<(), AllocError>
        requires { self.old.groups < 2 ^ 32 }
        ensures groups { OnOk result (
            self.new.groups ≡ self.old.groups + token_captures (token_of token.now)) }
        ensures highest { OnOk result ((m : ℕ) → nat_le self.new.highest m
            ≡ (nat_le self.old.highest m && in_number m (token_numbers (token_of token.now)))) }
        ensures references { OnOk result (map string_bytes self.new.references.items
            ≡ map string_bytes self.old.references.items ++ token_references (token_of
            token.now)) }
    {
        match token {
            Token::Opens(mark) => {
                self.open(mark);
                Ok(())
            }
            Token::Single(single) => self.single(single),
            _ => Ok(()),
        }
    }
}
