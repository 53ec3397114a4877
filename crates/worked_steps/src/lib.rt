//! A caller that counts the steps of its look-ups. What has no clause of this kind is tried by the lines of `worked_lines`.
#![tactic(auto)]

#[cfg(test)]
mod steps;
