//! The verdict for callers that are not Rattle: four calls that C links, and every language that calls C.
//!
//! Two take a nested schema: [`judge_c_tree`] judges one document, [`judge_c_tree_each`] many under one schema, which is compiled
//! once. Two take a flat keyword object: [`judge_c_judge`] and [`judge_c_each`]. All take `jsonb` bytes, each slice as a pointer and a
//! length. They give a [`JudgeTreeAnswer`] or a [`JudgeAnswer`]: the number of the answer, and the place of the fault that it names.
//! For example the schema `01000020 05000080 1a000050 6974656d 73000000 01000020 04000080 07000000 74797065 696e7465676572`, in hex,
//! is `{"items":{"type":"integer"}}`, and the document `01000040 08000090 20000000 8080 0100` is `[1.0]`: the code is 1, which says
//! that the document is valid. `bindings/c/judge_c.h` declares the calls and names the numbers.
#![tactic(auto)]

mod answer;
mod codes;
mod compiled;
mod compiled_tree;
mod documents;
mod each;
mod one;
mod reading;
mod rules;
mod tree;
mod tree_answer;
mod tree_each;

pub use answer::JudgeAnswer;
pub use each::judge_c_each;
pub use one::judge_c_judge;
pub use tree::judge_c_tree;
pub use tree_answer::JudgeTreeAnswer;
pub use tree_each::judge_c_tree_each;
