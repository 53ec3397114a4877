//! A value in memory as an element.

ghost use Rattle.std.specs.Prelude.{◌≡◌};
ghost use Rattle.json_semantics.specs.Iteration.{elements_left, members_left};

use crate::elements::ValueElements;
use crate::members::SerdeMembersIter;
use crate::node::ValueNode;
use json_elements::{Element, Parts};
use json_exact::Value;

impl<'a> Element<'a> for ValueNode<'a> {
    type Elements = ValueElements<'a>;

    type Members = SerdeMembersIter<'a>;

    ghost trees = { elements_left };

    ghost pairs = { members_left };

    fn parts(&self) -> Parts<'a, ValueElements<'a>, SerdeMembersIter<'a>> {
        match self.value() {
            Value::Null => Parts::Null,
            Value::Bool(truth) => Parts::Boolean(*truth),
            Value::Number(number) => Parts::Number(*number),
            Value::String(text) => Parts::Text(text.as_str()),
            Value::Array(elements) => Parts::Array(ValueElements::new(elements)),
            Value::Object(members) => Parts::Object(SerdeMembersIter::new(members)),
        }
    }

    fn next_element(elements: &mut ValueElements<'a>) -> Option<ValueNode<'a>> {
        elements.next()
    }

    fn next_member(members: &mut SerdeMembersIter<'a>) -> Option<(&'a str, ValueNode<'a>)> {
        members.next()
    }
}
