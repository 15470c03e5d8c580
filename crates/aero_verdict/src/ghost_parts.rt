//! The parts of a trace, for contracts alone.
ghost use Rattle.std.specs.Prelude.{◌≡◌, List, [], ◌∷◌, ◌++◌};
ghost use Rattle.std.specs.Borrow.{ftrue};
ghost use Rattle.aero_model.specs.Exempt.{Listed};
ghost use Rattle.aero_grammar.specs.Reading.{Reading};

use aero_grammar::Parsed;
use aero_model::Except;
use std::marker::Model;

// Some labels and some parts that contracts alone see. They take no bytes, and the calls do nothing when they run.
#[derive(Drop)]
pub(crate) struct GhostParts {
    pub ghost labels: { Listed },
    pub ghost parts: { List Reading },
}

impl Model for GhostParts {
    ghost also_owns = { λ _. ftrue };
}

impl GhostParts {
    // These labels, and no part.
    #[inline(always)]
    pub(crate) fn none(_labels: &Except) -> GhostParts
        ensures { (result.labels ≡ _labels.now) × (result.parts ≡ []) }
    {
        GhostParts {}
    }

    // The same labels, and one part more.
    #[inline(always)]
    pub(crate) fn with(_before: &GhostParts, _part: &Parsed) -> GhostParts
        ensures { (result.labels ≡ _before.now.labels) ×
            (result.parts ≡ _before.now.parts ++ _part.now ∷ []) }
    {
        GhostParts {}
    }
}
