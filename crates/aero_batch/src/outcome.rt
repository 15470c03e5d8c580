//! What a run comes to.
use aero_gather::Tally;
use aero_intake::Begun;
use aero_model::{Counts, Ending};
pub use aero_telling::{Cause, Fault, FaultyLine, Notable};

/// What a run came to. It speaks of the sources whose text was written whole, in their order: how
/// many bytes were read of each and how its reading ended, what is noted of it beside its line, if
/// something is, and how many were found to be what.
#[derive(Drop)]
pub struct Outcome {
    pub endings: Vec<(u64, Ending)>,
    pub notables: Vec<Option<Notable>>,
    pub counts: Counts,
    /// Which labels of the list begin a block of one of the sources, as in `Told`.
    pub begun: Option<Begun>,
    /// Why it stopped before the summary was written, if it did.
    pub cause: Option<Cause>,
    /// How many questions were asked, how many answers were kept, and how many values were worked
    /// out by the caller's own thread.
    pub tally: Tally,
    /// How many workers there were at the start.
    pub workers: u32,
}
