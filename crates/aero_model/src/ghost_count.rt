//! A number that contracts alone see.
ghost use Rattle.std.specs.Prelude.{◌≡◌, ℕ, ◌+◌};
ghost use Rattle.std.specs.Borrow.{ftrue};

use std::marker::Model;

/// A natural number that contracts alone see. It takes no bytes, and its calls do nothing when they
/// run. Whoever counts by it keeps it in a private field, and sets that to `after` it at each step.
#[derive(Drop)]
pub struct GhostCount {
    pub ghost number: { ℕ },
}

impl Model for GhostCount {
    ghost also_owns = { λ _. ftrue };
}

impl GhostCount {
    /// The number 0.
    #[inline(always)]
    pub fn zero() -> GhostCount
        ensures { result.number ≡ 0 }
    {
        GhostCount {}
    }

    /// One more than the number before.
    #[inline(always)]
    pub fn after(_before: &GhostCount) -> GhostCount
        ensures { result.number ≡ _before.now.number + 1 }
    {
        GhostCount {}
    }
}
