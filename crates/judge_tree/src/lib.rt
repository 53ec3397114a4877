//! Is a document valid under a nested schema, by JSON Schema 2020-12? Both are PostgreSQL `jsonb` bytes, or values in memory.
//!
//! [`judge_tree`] answers for two slices. For example the schema `{"items":{"type":"integer"}}` is met by `[1, 1.0]`, and not by
//! `[1.5]`. [`Schema`] is a schema that is compiled once and checks many documents, whatever holds them: [`Schema::compile`] and
//! [`Schema::check`] take each `json_traits::Node`, and [`Schema::compile_slice`] and [`Schema::judge_slice`] take slices.
//!
//! A schema is `true`, `false` or an object. Six keywords have schemas inside: `properties`, `additionalProperties`, `items`,
//! `allOf`, `anyOf` and `not`. Every other member is a flat keyword, as `judge` takes it. At most 128
//! containers nest in a schema; a document may nest as deep as it likes.
//!
//! Why a schema is refused, and where, is a [`SchemaError`]; a [`TreeError`] says it of two slices. Their numbers name the schema and
//! the member. For example `{"not":{"type":"x"}}` is refused by `BadKeyword { schema: 1, member: 0 }`: the root has the number 0, and
//! the schema under `not` the number 1. Causes exclude one another ([`laws::one_answer`]), and so do
//! faults ([`laws::one_fault`]).
//!
//! The source is JSON Schema Core 2020-12, sections 4.3.2, 10.2.1 and 10.3, and the 2020-12 meta-schemas. That an unknown name is
//! refused, the limit of 128, the order of causes and the numbers are this project's own.
#![tactic(auto)]

mod applicator;
mod building;
mod checking;
mod compiled;
mod compiling;
mod errors;
mod formula;
mod judged_family;
pub mod laws;
mod schema;
mod slices;
mod tree_error;
mod verdict;

pub use errors::SchemaError;
pub use schema::Schema;
pub use tree_error::TreeError;
pub use verdict::judge_tree;
