//! The keywords, and their names.

ghost use Rattle.std.specs.Prelude.{◌≡◌, bytes_eq, if◌then◌else◌};
ghost use Rattle.std.specs.List.{list_any};
ghost use Rattle.json_model.specs.Parts.{lookup};
ghost use Rattle.flat_keywords.specs.Draft4.{draft4_names};
ghost use Rattle.flat_keywords.specs.Names.{keyword_by, names_2020};

use crate::draft::{Partners, Reading};
use json_semantics::numeric_check::BoundOp;

/// What of a document a limit counts.
#[derive(Clone, Copy, Debug, PartialEq, Eq)]
pub(crate) enum Measure {
    /// The code points of a string.
    CodePoints,
    /// The elements of an array.
    Elements,
    /// The members of an object.
    Members,
}

/// The form of a value that asks nothing of a document.
#[derive(Clone, Copy, Debug, PartialEq, Eq)]
pub(crate) enum Form {
    /// Any value.
    Anything,
    /// A string.
    Text,
    /// A truth value.
    Truth,
    /// An array.
    Array,
    /// No value.
    Nothing,
}

impl Form {
    /// The form of a truth value that must stand beside another member.
    fn beside(is_there: bool) -> Form
        ensures { result ≡ (if is_there then Form.Truth else Form.Nothing) }
    {
        if is_there { Form::Truth } else { Form::Nothing }
    }
}

/// A keyword. Keywords that ask alike are one variant.
#[derive(Clone, Copy, Debug, PartialEq, Eq)]
pub(crate) enum Keyword {
    /// The document is of a type: `type`.
    Type,
    /// The document is equal to one of some values: `enum`.
    Enum,
    /// The document is equal to a value: `const`.
    Const,
    /// A number stands to a limit as it should: `minimum` and its like.
    Bound(BoundOp),
    /// A count is at least a limit: `minLength` and its like.
    Least(Measure),
    /// A count is at most a limit: `maxLength` and its like.
    Greatest(Measure),
    /// A string is one in which a pattern matches: `pattern`.
    Pattern,
    /// The elements of an array differ: `uniqueItems`.
    UniqueItems,
    /// An object has each of these keys: `required`.
    Required,
    /// Nothing is asked of the document: `title` and its like, whose value has a form. So is `exclusiveMinimum` in draft 4, which says how
    /// `minimum` is meant.
    Silent(Form),
    /// The document is of a type, by how it is written: `type` in draft 4, where 1.0 is no integer.
    WrittenType,
}

impl Keyword {
    /// The keyword of a name in an object whose names are so read, if there is one.
    pub(crate) fn from_name(reading: Reading, name: &str) -> Option<Keyword>
        ensures { result ≡ keyword_by reading name.now }
    {
        match name {
            "enum" => Some(Keyword::Enum),
            "minLength" => Some(Keyword::Least(Measure::CodePoints)),
            "maxLength" => Some(Keyword::Greatest(Measure::CodePoints)),
            "minItems" => Some(Keyword::Least(Measure::Elements)),
            "maxItems" => Some(Keyword::Greatest(Measure::Elements)),
            "uniqueItems" => Some(Keyword::UniqueItems),
            "minProperties" => Some(Keyword::Least(Measure::Members)),
            "maxProperties" => Some(Keyword::Greatest(Measure::Members)),
            "pattern" => Some(Keyword::Pattern),
            "required" => Some(Keyword::Required),
            "title" => Some(Keyword::Silent(Form::Text)),
            "description" => Some(Keyword::Silent(Form::Text)),
            "default" => Some(Keyword::Silent(Form::Anything)),
            _ => match reading {
                Reading::Draft2020 => Keyword::of_2020(name),
                Reading::Draft4(partners) => Keyword::of_draft_4(partners, name),
            },
        }
    }

    /// The keyword of a name of 2020-12 alone.
    fn of_2020(name: &str) -> Option<Keyword>
        ensures { result ≡ lookup name.now names_2020 }
    {
        match name {
            "type" => Some(Keyword::Type),
            "const" => Some(Keyword::Const),
            "minimum" => Some(Keyword::Bound(BoundOp::Gte)),
            "maximum" => Some(Keyword::Bound(BoundOp::Lte)),
            "exclusiveMinimum" => Some(Keyword::Bound(BoundOp::Gt)),
            "exclusiveMaximum" => Some(Keyword::Bound(BoundOp::Lt)),
            "examples" => Some(Keyword::Silent(Form::Array)),
            "deprecated" => Some(Keyword::Silent(Form::Truth)),
            "readOnly" => Some(Keyword::Silent(Form::Truth)),
            "writeOnly" => Some(Keyword::Silent(Form::Truth)),
            "$comment" => Some(Keyword::Silent(Form::Text)),
            _ => None,
        }
    }

    /// The keyword of a name that draft 4 reads in its own way.
    fn of_draft_4(partners: Partners, name: &str) -> Option<Keyword>
        ensures { result ≡ lookup name.now (draft4_names partners) }
    {
        match name {
            "type" => Some(Keyword::WrittenType),
            "minimum" => Some(Keyword::Bound(partners.lower())),
            "maximum" => Some(Keyword::Bound(partners.upper())),
            "exclusiveMinimum" => Some(Keyword::Silent(Form::beside(partners.has_minimum))),
            "exclusiveMaximum" => Some(Keyword::Silent(Form::beside(partners.has_maximum))),
            _ => None,
        }
    }
}
