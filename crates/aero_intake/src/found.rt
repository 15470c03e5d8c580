//! What is found of a source.
use crate::begun::Begun;
use aero_model::{Ending, Finding};

/// What is known of a source once its reading has ended: how many bytes came, how they ended, and what is said of them.
#[derive(Drop)]
pub struct Found {
    pub bytes: u64,
    pub ending: Ending,
    pub finding: Finding,
    /// Which labels of the list begin a block. It is `None` if the source wasn't read to its end or has a malformed line, and
    /// where sources are read no further than they must be. It may be `None` too if a block begins with each label.
    pub begun: Option<Begun>,
}
