//! Leaps over the items of a container, by their entry words alone.

ghost use Rattle.std.specs.Prelude.{◌≡◌, ◌+◌, ◌≤◌, Some, IsSome, option_map};
ghost use Rattle.jsonb.specs.inner.Values.{skip};
ghost use Rattle.jsonb.specs.inner.Views.{place};

use crate::place::Place;
use crate::steps::Steps;
use crate::walk::entry_word_counted;
use std::sync::ledger::Ledger;

/// How many bytes of the payload are behind so many items more. The lengths are summed backwards, to the nearest entry word
/// that gives the sum of all lengths before it, or to the start.
fn end_of<L: Ledger>(count: usize, start: Place<'_>, steps: &mut Steps<L>) -> usize
    requires there { IsSome (skip count (place start)) }
    ensures end { option_map (λ q. q.at) (skip count (place start.entry)) ≡ Some result }
    ensures rise { steps.old ≤ steps.new }
    ensures few { steps.new ≤ steps.old + 32 }
{
    let mut left = count;
    let mut sum = 0;
    while left > 0 {
        left -= 1;
        sum += (entry_word_counted(start.words, left, steps) % 0x1000_0000) as usize;
        if (start.index + left) % 32 == 0 {
            return sum;
        }
    }
    start.at + sum
}

/// Where so many items end, which are there. It reads at most 32 entry words.
pub fn leap<'a, L: Ledger>(count: usize, start: Place<'a>, steps: &mut Steps<L>) -> Place<'a>
    requires there { IsSome (skip count (place start)) }
    ensures read { Some (place result) ≡ skip count (place start.entry) }
    ensures rise { steps.old ≤ steps.new }
    ensures few { steps.new ≤ steps.old + 32 }
{
    let at = end_of(count, start, steps);
    let (_, words) = start.words.split_at(4 * count);
    let (_, rest) = start.rest.split_at(at - start.at);
    Place {
        index: start.index + count,
        at,
        words,
        rest,
    }
}
