//! `Places`: places that can be compared.

ghost use Rattle.std.specs.Prelude.{◌<◌, ◌↔◌, ℕ, IsTrue, IfOk};

use std::alloc::AllocError;

/// Places, which are numbered from 0 on, of which each two hold the same or not.
pub trait Places {
    ghost count: { Self → ℕ };

    ghost same: { Self → ℕ → ℕ → Type 0 };

    /// Whether two places hold the same.
    fn hold_same(&self, first: usize, second: usize) -> Result<bool, AllocError>
        requires ordered { first < second }
        requires within { second < count self.now }
        ensures { IfOk result (λ b. IsTrue b ↔ same self.now first second) };
}
