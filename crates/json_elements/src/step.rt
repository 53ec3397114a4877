//! `Step`: where a walk over nested containers stands.

/// What a walk goes on with, or what it answers.
#[derive(Drop)]
pub enum Step<F, A> {
    /// The container that is next.
    Next(F),
    /// The answer.
    Done(A),
}
