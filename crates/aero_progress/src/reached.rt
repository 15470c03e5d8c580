//! How far a run has come, as numbers.

/// How much there is to do.
#[derive(Clone, Copy, Debug, PartialEq, Eq)]
pub struct Work {
    pub sources: u64,
    /// How many bytes the sources have, where this is known.
    pub size: Option<u64>,
}

/// How far a run has come.
#[derive(Clone, Copy, Debug, PartialEq, Eq)]
pub struct Reached {
    /// How many of the sources have been read: to their end, or until a read failed.
    pub ended: u64,
    /// How many bytes came.
    pub bytes: u64,
    /// How many of the sources have been judged, and their texts are out.
    pub judged: u64,
    /// How many whole seconds have passed.
    pub seconds: u64,
}
