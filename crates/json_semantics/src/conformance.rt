//! Conformance: a document, and the rules that each node of it keeps, whatever holds it. Both are this project's own.
//!
//! A representation is tried so: put [`document`] into it, and ask [`assert_conformance`] about the node.
//!
//! ```text
//! let document = conformance::document(alloc)?;
//! conformance::assert_conformance::<SerdeJson>(alloc, &ValueNode::new(&document));   // Ok(())
//! ```

mod error;
mod rules;
mod sample;

pub use error::ConformanceError;
pub use rules::assert_conformance;
pub use sample::document;
