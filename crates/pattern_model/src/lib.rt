//! What a pattern is: the grammar of ECMA-262 (16th edition, 2025, section 22.2.1) with the `u` flag, and the tree of each pattern.
//!
//! There is no code here. `specs/` has the definitions, a file a concept, which the crates above cite. In prose:
//!
//! - A pattern is a disjunction: alternatives parted by `|`. An alternative is terms in a row, or nothing.
//! - A term is an assertion, or an atom with or without a quantifier. Assertions are `^`, `$`, `\b`, `\B` and the look-around
//!   groups; no quantifier may follow them.
//! - A quantifier is `*`, `+`, `?`, `{n}`, `{n,}` or `{n,m}`, where n is at most m, and then `?` if it is lazy. n and m are ASCII
//!   digits, one or more, and are compared by value: `a{010,10}` is a pattern.
//! - An atom is `.`, a group, a character class, an escape, or a character that stands for itself: any but
//!   `^ $ \ . * + ? ( ) [ ] { } |`.
//! - Groups are `(a)`, which has a number; `(?<name>a)`, with the group specifier `?<name>`, which has a number and a name;
//!   `(?:a)`; and `(?i-s:a)`, with modifiers. Look-around is `(?=a)`, `(?!a)`, `(?<=a)` and `(?<!a)`.
//! - Modifiers are letters out of `i`, `m` and `s`, and at most one hyphen before, between or after them. There is at least one
//!   letter, and none stands twice, not even on the two sides of the hyphen.
//! - A name, in a group specifier or after `\k`, begins with a letter, `$` or `_`, and goes on with letters, digits, `$`, `_`,
//!   U+200C and U+200D. Each may be written by a `\u` escape of a scalar value; names are compared as decoded. Two groups may share
//!   a name only where they stand in different alternatives of one disjunction that is around both.
//! - Class escapes are `\d \D \s \S \w \W`. Property escapes are `\p{L}`, `\p{Script=Greek}` and the same with `P`: in the braces
//!   stands a word, or two with `=` between them, and a word is ASCII letters, ASCII digits and `_`, at least one.
//! - Back-references are `\k<name>`, where some group has the name, and `\1`: a backslash and a number that does not begin with 0.
//!   The number takes all ASCII digits that follow, and there are at least so many groups that have a number.
//! - Character escapes are `\f \n \r \t \v`; `\cA`, with an ASCII letter; `\0`, with no ASCII digit after it; `\x41`; `\u0041`,
//!   where two that are a surrogate pair are one code point; `\u{41}`, with one hex digit or more, and at most 10FFFF; and a
//!   backslash before any character that is no letter and no digit.
//! - A class is `[`, then `^` if it is negated, items, `]`. A `^` right behind `[` always negates and is no item; further on it is
//!   a class atom as any other character. There may be no items: `[]` and `[^]` are classes. A class atom is any character but
//!   `]` and `\`, or a class, property or character escape, or `\b` (backspace). Items are read from the left: an atom, or a range,
//!   which is two atoms with `-` between them. The ends of a range are code points, the first at most the last. An atom that ended
//!   a range begins none, and a `-` before `]` makes none: the items of `[a-z-9-]` are `a-z`, `-`, `9` and `-`.
//!
//! Letters are the characters of Unicode's property Alphabetic, and digits those of the categories Nd, Nl and No, where nothing
//! else is said: in names and after backslashes.
//!
//! In three points this departs from ECMA-262. A backslash may stand before any character that is not alphanumeric, where
//! ECMA-262 has only its syntax characters, `/`, and in a class `-`. Of properties only the shape is asked. And names are made of
//! letters and digits as above, where ECMA-262 has ID_Start and ID_Continue.
//!
//! The widened grammar, this project's own, has three additions: outside of classes `]` and `}` stand for themselves, and in a
//! class `\d--`, and so with each class escape, is three items, two of them a hyphen.
//!
//! `Grammar wide text tree` says that a text, as code points, is in a grammar with this tree. For example `a|b*` has the tree
//!
//! ```text
//! either (leaf (code 97)) (repeat (leaf (code 98)) (record { least = number 0; most = None; lazy = false }))
//! ```
//!
//! Several terms are joined from the left by `sequence`, several alternatives by `either`; an alternative without terms is
//! `empty`. `Members` says which code points a class has, `Spans` where tokens and the items of classes stand, in bytes, and
//! `Matches` which parts of a text a tree matches. `Literals` has the patterns that need no engine, as `^x-` and `^(a|b)$`, and the
//! texts that each one hits. `Ordered` says that counts and ranges go from low to high.
//!
//! In `proofs/`, `TokenTails` says that what follows a token is a tail of the text, `SpanLaws` and `ItemLaws` where it stands, and
//! `OrderLaws` that each tree of a text is ordered; `LiteralTrees` has the tree of each literal pattern, and `LiteralMatches` that
//! it matches where the analysis hits.
#![tactic(auto)]
