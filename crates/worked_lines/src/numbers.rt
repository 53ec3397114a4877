//! Numbers.

use crate::texts::expand;
use json_exact::{Decimal, Number};
use json_semantics::cmp::equal_numbers;
use json_semantics::numeric::{eq, ge, gt, le, lt};
use json_semantics::numeric_check::{BoundOp, check_bound, compile_bound};
use std::alloc::Global;
use std::cmp::Ordering;

/// `LITERAL`: how the number is written and kept, or why it is refused.
pub(crate) fn number(alloc: Global, rest: &str) -> Option<String> {
    let text = expand(alloc, rest)?;
    let number = match Number::parse(&text) {
        Ok(number) => number,
        Err(error) => return error.to_string(alloc).ok(),
    };
    let written = number.to_text(alloc).ok()?;
    if written.len() > 40 {
        return format!(in alloc; "{} characters", written.len()).ok();
    }
    let decimal = number.decimal();
    let kept = (
        number.fraction_digits(),
        decimal.parts(),
        decimal.weight(),
        decimal.last_place(),
        decimal.group(0),
        decimal.group(-2),
    );
    let whole = (decimal.to_u64(), decimal.to_i64(), decimal.is_integer());
    format!(in alloc; "{written} {kept:?} {whole:?}").ok()
}

/// `LITERAL LITERAL ..`: how each number is beside each.
pub(crate) fn order(alloc: Global, rest: &str) -> Option<String> {
    let mut all = String::new(alloc);
    for one in rest.split(' ') {
        let one = Decimal::parse(one).ok()?;
        if !all.is_empty() {
            all.push(' ').ok()?;
        }
        for other in rest.split(' ') {
            let sign = match one.cmp(&Decimal::parse(other).ok()?) {
                Ordering::Less => '<',
                Ordering::Equal => '=',
                Ordering::Greater => '>',
            };
            all.push(sign).ok()?;
        }
    }
    Some(all)
}

/// `LITERAL LIMIT`: whether the number is below the limit, not above, at, not below, above it; whether it keeps each of the four
/// bounds at the limit; and whether the two are equal, and written
/// alike.
pub(crate) fn bound(alloc: Global, rest: &str) -> Option<String> {
    let (literal, limit) = rest.split_once(' ')?;
    let value = Number::parse(literal).ok()?;
    let limit = Number::parse(limit).ok()?;
    let at = limit.decimal();
    let is = [
        lt(&value, at),
        le(&value, at),
        eq(&value, at),
        ge(&value, at),
        gt(&value, at),
    ];
    let mut keeps = Vec::new(alloc);
    for code in 0..5 {
        if let Some(op) = BoundOp::from_u8(code) {
            keeps
                .push(check_bound(&compile_bound(op, &limit), &value))
                .ok()?;
        }
    }
    let equal = (equal_numbers(&value, &limit), value == limit);
    format!(in alloc; "{is:?} {keeps:?} {equal:?}").ok()
}
