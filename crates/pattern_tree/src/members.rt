//! Which code points are members of a class.

ghost use Rattle.std.specs.Prelude.{◌≡◌, List, map};
ghost use Rattle.std.specs.List.{list_any};
ghost use Rattle.pattern_model.specs.Tree as tree;
ghost use Rattle.pattern_model.specs.Properties.{is_word};
ghost use Rattle.pattern_model.specs.Digits.{is_digit};
ghost use Rattle.pattern_model.specs.Members.{is_space, is_within, escape_has, item_has, leaf_has, tree_has};
ghost use Rattle.pattern_tree.specs.Nodes.{escape_of, form_item, item_of, leaf_of, built};

use crate::class_item::{ClassEscape, ClassForm, ClassItem};
use crate::node::{Shape, Single};

fn is_within(first: u32, last: u32, code: u32) -> bool
    ensures { result ≡ is_within first last code }
{
    first <= code && code <= last
}

#[tactic(auto, unfolding(pattern_model::specs::Members::is_space))]
fn is_space(code: u32) -> bool
    ensures { result ≡ is_space code }
{
    is_within(9, 13, code)
        || (code == 0x20
            || (code == 0xA0
                || (code == 0x1680
                    || (is_within(0x2000, 0x200A, code)
                        || (is_within(0x2028, 0x2029, code)
                            || (code == 0x202F
                                || (code == 0x205F || (code == 0x3000 || code == 0xFEFF))))))))
}

fn is_digit(code: u32) -> bool
    ensures { result ≡ is_digit code }
{
    is_within(48, 57, code)
}

fn is_word(code: u32) -> bool
    ensures { result ≡ is_word code }
{
    (is_within(65, 90, code) || is_within(97, 122, code)) || (is_digit(code) || code == 95)
}

fn escape_has(escape: ClassEscape, code: u32) -> bool
    ensures { result ≡ escape_has (escape_of escape) code }
{
    match escape {
        ClassEscape::Digit => is_digit(code),
        ClassEscape::NotDigit => !is_digit(code),
        ClassEscape::Space => is_space(code),
        ClassEscape::NotSpace => !is_space(code),
        ClassEscape::Word => is_word(code),
        ClassEscape::NotWord => !is_word(code),
    }
}

fn form_has(form: ClassForm, code: u32) -> bool
    ensures { result ≡ item_has (form_item form) code }
{
    match form {
        ClassForm::Code(one) => code == one,
        ClassForm::Range { first, last } => is_within(first, last, code),
        ClassForm::Escape(escape) => escape_has(escape, code),
        ClassForm::Property { negated: _ } => false,
    }
}

fn items_have(items: &[ClassItem], code: u32) -> bool
    ensures { result ≡ list_any (λ i. item_has i code) (map item_of items.now) }
{
    for item in items {
        if form_has(item.form, code) {
            return true;
        }
    }
    false
}

fn single_has(single: &Single, code: u32) -> bool
    ensures { result ≡ leaf_has (leaf_of single.now) code }
{
    match single {
        Single::Class(true, items) => !items_have(items, code),
        Single::Class(false, items) => items_have(items, code),
        Single::Escape(escape) => escape_has(*escape, code),
        _ => false,
    }
}

pub(crate) fn shape_has(shape: &Shape, code: u32) -> bool
    ensures { (ts : List tree.Tree) → result ≡ tree_has (built ts shape.now) code }
{
    match shape {
        Shape::Single(single) => single_has(single, code),
        _ => false,
    }
}
