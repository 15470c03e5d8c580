//! Why a run stops.

/// Why a run stopped before its end.
#[derive(Clone, Copy, Debug, PartialEq, Eq)]
pub enum Cause {
    /// Memory was refused.
    Memory,
    /// A write failed, or took nothing.
    Write,
}
