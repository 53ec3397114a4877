//! What a node of a pattern is, told without its parts.

use crate::class_item::ClassEscape;

/// The name of a node of a pattern.
#[derive(Debug, Clone, Copy, PartialEq, Eq)]
pub struct NodeId(pub u32);

/// How often a term may stand.
#[derive(Debug, Clone, Copy, PartialEq, Eq)]
pub enum Count {
    /// A number below 2^32.
    Number(u32),
    /// A number of 2^32 or more.
    Wide,
}

/// What kind of group a node is.
#[derive(Debug, Clone, Copy, PartialEq, Eq)]
pub enum GroupMark {
    /// `(` and `)`: a group with a number.
    Capture,
    /// `(?<name>` and `)`: a group with a number and a name, which `Pattern::name` gives.
    Named,
    /// `(?:` and `)`.
    Plain,
    /// `(?`, flags, `:` and `)`, as `(?i-s:a)`.
    Modified,
    /// `(?=` and `)`: a look-ahead.
    Ahead,
    /// `(?!` and `)`: a negative look-ahead.
    NotAhead,
    /// `(?<=` and `)`: a look-behind.
    Behind,
    /// `(?<!` and `)`: a negative look-behind.
    NotBehind,
}

/// What a node is, with the names of the nodes that are its parts.
#[derive(Debug, Clone, Copy, PartialEq, Eq)]
pub enum Form {
    /// An alternative without terms.
    Empty,
    /// One code point, as `a`, `\n` or `\u{1F600}`.
    Code(u32),
    /// `.`
    Dot,
    /// `^`
    Start,
    /// `$`
    End,
    /// `\b`
    Boundary,
    /// `\B`
    NotBoundary,
    /// A class escape, as `\d`.
    Escape(ClassEscape),
    /// A class, whose items `Pattern::items` gives.
    Class {
        negated: bool,
    },
    /// A property escape, as `\p{L}`, or `\P{L}` where it is negated.
    Property {
        negated: bool,
    },
    /// A back-reference by number, as `\1`.
    BackNumber(u64),
    /// A back-reference by name, as `\k<name>`; `Pattern::name` gives the name.
    BackName,
    /// A group.
    Group {
        mark: GroupMark,
        inner: NodeId,
    },
    /// A term with a quantifier: at least `least` times and at most `most` times, or with no bound above where that is None.
    Repeat {
        inner: NodeId,
        least: Count,
        most: Option<Count>,
        lazy: bool,
    },
    /// Terms one after the other: several are joined from the left.
    Sequence {
        left: NodeId,
        right: NodeId,
    },
    /// Alternatives: several are joined from the left.
    Either {
        left: NodeId,
        right: NodeId,
    },
}
