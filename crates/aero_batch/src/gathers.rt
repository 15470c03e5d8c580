//! The open questions of each kind.
ghost use Rattle.std.specs.Prelude.{◌≡◌};
ghost use Rattle.std.specs.Borrow.{sem};
ghost use Rattle.aero_batch.specs.Replies.{of_kind};
ghost use Rattle.aero_batch.specs.Lending.{LendsOfKind};

use crate::kind::Kind;
use aero_gather::Gather;

/// The questions on chunks, and those on verdicts, each in the order in which they were asked. The verdict
/// on a long source is worked out for long: meanwhile questions on later sources are settled.
#[derive(Drop)]
pub struct Gathers {
    pub chunks: Gather,
    pub verdicts: Gather,
}

impl Gathers {
    /// The questions of this kind.
    pub fn of(&self, kind: Kind) -> &Gather
        ensures { result.now ≡ of_kind kind self.now }
    {
        match kind {
            Kind::Parse => &self.chunks,
            Kind::Check => &self.verdicts,
        }
    }

    /// The questions of this kind, to be changed.
    pub fn of_mut(&mut self, kind: Kind) -> &mut Gather
        ensures* lends { sem 𝓛 (LendsOfKind kind self.entry result) }
        ensures value { result.now ≡ of_kind kind self.old }
    {
        match kind {
            Kind::Parse => &mut self.chunks,
            Kind::Check => &mut self.verdicts,
        }
    }
}
