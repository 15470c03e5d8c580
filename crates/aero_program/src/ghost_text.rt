//! The bytes that a reader gave, for contracts alone.
ghost use Rattle.std.specs.Prelude.{◌≡◌, ℕ, List, [], ◌++◌};
ghost use Rattle.std.specs.Borrow.{ftrue};

use std::marker::Model;

// Bytes that contracts alone see. They take no memory, and the calls do nothing when they run.
#[derive(Drop)]
pub(crate) struct GhostText {
    pub ghost bytes: { List ℕ },
}

impl Model for GhostText {
    ghost also_owns = { λ _. ftrue };
}

impl GhostText {
    // No byte.
    #[inline(always)]
    pub(crate) fn none() -> GhostText
        ensures { result.bytes ≡ [] }
    {
        GhostText {}
    }

    // These bytes, and then the piece.
    #[inline(always)]
    pub(crate) fn with(_before: &GhostText, _piece: &[u8]) -> GhostText
        ensures { result.bytes ≡ _before.now.bytes ++ _piece.now }
    {
        GhostText {}
    }
}
