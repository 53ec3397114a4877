//! Numbers: runs of digits, and escapes by number.

ghost use Rattle.std.specs.Prelude.{◌≡◌, ◌+◌, ◌-◌, ◌*◌, ◌<◌, ◌≤◌, ◌^◌, ℕ, List, [], ◌∷◌, length, drop, IfSome, option_map, nat_le, true, false};
ghost use Rattle.std.specs.Str.{chars};
ghost use Rattle.pattern_model.specs.Text.{is_at};
ghost use Rattle.pattern_model.specs.Digits.{is_digit, digit_at, hex_value, hex_step, hex_to_brace, digits, digits_from, hex, hex_from};
ghost use Rattle.pattern_model.specs.CodePoints.{if_code_point, code_point, trail, paired, unicode_escape};
ghost use Rattle.pattern_model.specs.Tree.{count_of};
ghost use Rattle.pattern_tree.specs.Nodes.{count_in};
ghost use Rattle.pattern_tree.specs.Capped.{IsCapped, run};

use crate::form::Count;
use crate::text::{is_at, rest, split_first};

fn is_digit(c: char) -> bool
    ensures { result ≡ is_digit c }
{
    c.is_ascii_digit()
}

pub(crate) fn digit_at(x: &str) -> bool
    ensures { result ≡ digit_at (chars x.now) }
{
    match split_first(x) {
        None => false,
        Some((c, _)) => is_digit(c),
    }
}

fn hex_value(c: char) -> Option<u32>
    ensures value { result ≡ hex_value c }
    ensures small { IfSome result (λ d. d < 16) }
{
    let code = u32::from(c);
    if 48 <= code && code <= 57 {
        Some(code - 48)
    } else if 65 <= code && code <= 70 {
        Some(code - 55)
    } else if 97 <= code && code <= 102 {
        Some(code - 87)
    } else {
        None
    }
}

/// One digit more, as long as the number is below 2^32.
fn shifted(number: u64, c: char) -> u64
    requires { is_digit c ≡ true }
    ensures { (n : ℕ) → IsCapped number n → IsCapped result (10 * n + (c - 48)) }
{
    if number < 4_294_967_296 {
        10 * number + u64::from(u32::from(c) - 48)
    } else {
        number
    }
}

/// The digits that stand here, as a number that is exact below 2^32, and what follows them.
pub(crate) fn digits(x: &str) -> (u64, &str)
    ensures number { IsCapped result.0 (digits (chars x.now)).0 }
    ensures value { chars result.1.now ≡ (digits (chars x.now)).1 }
    ensures len { length result.1.now ≤ length x.now }
{
    let mut number = 0;
    let mut after = x;
    while let Some((c, next)) = split_first(after) {
        if !is_digit(c) {
            return (number, after);
        }
        number = shifted(number, c);
        after = next;
    }
    (number, after)
}

pub(crate) fn count_of(number: u64) -> Count
    ensures { (n : ℕ) → IsCapped number n → count_in result ≡ count_of n }
{
    if number < 4_294_967_296 {
        Count::Number(number as u32)
    } else {
        Count::Wide
    }
}

/// What follows the zeros that stand here.
fn past_zeros(x: &str) -> &str
    ensures value { digits (chars result.now) ≡ digits (chars x.now) }
    ensures first { is_at 48 (chars result.now) ≡ false }
{
    let mut after = x;
    while let Some((c, next)) = split_first(after) {
        if c != '0' {
            return after;
        }
        after = next;
    }
    after
}

/// How many digits stand here.
fn run(x: &str) -> usize
    ensures { result ≡ run (chars x.now) }
{
    let mut count = 0;
    let mut after = x;
    while let Some((c, next)) = split_first(after) {
        if !is_digit(c) {
            return count;
        }
        count += 1;
        after = next;
    }
    count
}

/// Compares runs of digits of one length.
fn same_run_at_most(x: &str, y: &str) -> bool
    requires { run (chars x.now) ≡ run (chars y.now) }
    ensures { result ≡ nat_le (digits (chars x.now)).0 (digits (chars y.now)).0 }
{
    let mut left = x;
    let mut right = y;
    while let Some((c, left_next)) = split_first(left) {
        if !is_digit(c) {
            return true;
        }
        let Some((d, right_next)) = split_first(right) else {
            return true;
        };
        if c != d {
            return c < d;
        }
        left = left_next;
        right = right_next;
    }
    true
}

/// Whether the digits of the one text are at most those of the other, by value.
pub(crate) fn at_most(x: &str, y: &str) -> bool
    ensures { result ≡ nat_le (digits (chars x.now)).0 (digits (chars y.now)).0 }
{
    let left = past_zeros(x);
    let right = past_zeros(y);
    let left_run = run(left);
    let right_run = run(right);
    if left_run == right_run {
        same_run_at_most(left, right)
    } else {
        left_run < right_run
    }
}

/// One hex digit more.
fn hex_step(number: u32, x: &str) -> Option<(u32, &str)>
    requires { number < 2 ^ 24 }
    ensures value { hex_step number (chars x.now) ≡ option_map (λ p. (p.0, chars p.1.now)) result }
    ensures small { IfSome result (λ p. p.0 < 16 * number + 16) }
    ensures len { IfSome result (λ p. length p.1.now ≤ length x.now) }
{
    let (c, after) = split_first(x)?;
    let digit = hex_value(c)?;
    Some((16 * number + digit, after))
}

#[tactic(auto, unfolding(pattern_model::specs::Digits::hex))]
pub(crate) fn hex_two(x: &str) -> Option<(u32, &str)>
    ensures value { hex 2 (chars x.now) ≡ option_map (λ p. (p.0, chars p.1.now)) result }
    ensures small { IfSome result (λ p. p.0 < 1114112) }
    ensures len { IfSome result (λ p. length p.1.now ≤ length x.now) }
{
    let (number, after) = hex_step(0, x)?;
    hex_step(number, after)
}

/// Four hex digits.
#[tactic(auto, unfolding(pattern_model::specs::Digits::hex))]
pub fn hex_four(x: &str) -> Option<(u32, &str)>
    ensures value { hex 4 (chars x.now) ≡ option_map (λ p. (p.0, chars p.1.now)) result }
    ensures small { IfSome result (λ p. p.0 < 65536) }
    ensures len { IfSome result (λ p. length p.1.now ≤ length x.now) }
{
    let (number, after) = hex_step(0, x)?;
    let (number, after) = hex_step(number, after)?;
    let (number, after) = hex_step(number, after)?;
    hex_step(number, after)
}

/// The code point of an escape in braces, after its opening brace.
#[tactic(auto, unfolding(pattern_model::specs::CodePoints::code_point))]
pub fn code_point(x: &str) -> Option<(u32, &str)>
    ensures value { code_point (chars x.now) ≡ option_map (λ p. (p.0, chars p.1.now)) result }
    ensures small { IfSome result (λ p. p.0 < 1114112) }
    ensures len { IfSome result (λ p. length p.1.now ≤ length x.now) }
{
    if is_at('}', x) {
        return None;
    }
    let mut number = 0u32;
    let mut after = x;
    while let Some((c, next)) = split_first(after) {
        if c == '}' {
            return Some((number, next));
        }
        let digit = hex_value(c)?;
        number = 16 * number + digit;
        if number > 1_114_111 {
            return None;
        }
        after = next;
    }
    None
}

/// A trail surrogate's escape.
#[tactic(auto, unfolding(pattern_model::specs::CodePoints::trail))]
fn trail(x: &str) -> Option<(u32, &str)>
    ensures value { trail (chars x.now) ≡ option_map (λ p. (p.0, chars p.1.now)) result }
    ensures small { IfSome result (λ p. (56320 ≤ p.0) × (p.0 ≤ 57343)) }
    ensures len { IfSome result (λ p. length p.1.now ≤ length x.now) }
{
    if !is_at('\\', x) || !is_at('u', rest(x)) {
        return None;
    }
    let (number, after) = hex_four(rest(rest(x)))?;
    if 56_320 <= number && number <= 57_343 {
        Some((number, after))
    } else {
        None
    }
}

/// A surrogate that leads, with the one that trails it directly, as one code point.
#[tactic(auto, unfolding(pattern_model::specs::CodePoints::paired))]
fn paired(number: u32, x: &str) -> (u32, &str)
    requires { number < 65536 }
    ensures value { paired (number, chars x.now) ≡ (result.0, chars result.1.now) }
    ensures small { result.0 < 1114112 }
    ensures len { length result.1.now ≤ length x.now }
{
    if !(55_296 <= number && number <= 56_319) {
        return (number, x);
    }
    match trail(x) {
        None => (number, x),
        Some((low, after)) => (65_536 + (1024 * (number - 55_296) + (low - 56_320)), after),
    }
}

/// The code point of a `\u` escape, after its `u`.
#[tactic(auto, unfolding(pattern_model::specs::CodePoints::unicode_escape))]
pub(crate) fn unicode_escape(x: &str) -> Option<(u32, &str)>
    ensures value { unicode_escape (chars x.now) ≡ option_map (λ p. (p.0, chars p.1.now)) result }
    ensures small { IfSome result (λ p. p.0 < 1114112) }
    ensures len { IfSome result (λ p. length p.1.now ≤ length x.now) }
{
    if is_at('{', x) {
        return code_point(rest(x));
    }
    let (number, after) = hex_four(x)?;
    Some(paired(number, after))
}
