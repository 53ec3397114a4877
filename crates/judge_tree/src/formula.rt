//! What a schema asks of a document, compiled.

use flat_keywords::Checks;

/// What a schema asks of a document. A member of a schema is one of these, and an object that is a schema is `All` of them.
#[derive(Drop)]
pub(crate) enum Formula {
    /// Every document meets it, or none.
    Truth(bool),
    /// A flat keyword.
    Flat(Checks),
    /// Each of these.
    All(Vec<Formula>),
    /// One of these at least.
    Any(Vec<Formula>),
    /// Not this.
    Not(Box<Formula>),
    /// This of the member of a name, where there is one.
    Member(String, Box<Formula>),
    /// This of each member that has none of these names.
    Others(Vec<String>, Box<Formula>),
    /// This of each element.
    Elements(Box<Formula>),
}
