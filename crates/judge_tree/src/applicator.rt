//! The keywords that have schemas inside.

ghost use Rattle.std.specs.Prelude.{◌≡◌};
ghost use Rattle.judge_tree.specs.Applicators.{applicator_of};

/// A keyword that has schemas inside: it applies them to the document, or to parts of it.
#[derive(Clone, Copy, PartialEq, Eq)]
pub(crate) enum Applicator {
    Properties,
    AdditionalProperties,
    Items,
    AllOf,
    AnyOf,
    Not,
}

impl Applicator {
    /// The applicator of a name, if there is one.
    pub(crate) fn from_name(name: &str) -> Option<Applicator>
        ensures { result ≡ applicator_of name.now }
    {
        match name {
            "properties" => Some(Applicator::Properties),
            "additionalProperties" => Some(Applicator::AdditionalProperties),
            "items" => Some(Applicator::Items),
            "allOf" => Some(Applicator::AllOf),
            "anyOf" => Some(Applicator::AnyOf),
            "not" => Some(Applicator::Not),
            _ => None,
        }
    }
}
