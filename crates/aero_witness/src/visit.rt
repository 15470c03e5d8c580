//! Where a walk comes into a transaction, and where it goes out of it.
/// The places of two events of one transaction in the trace, from 0.
#[derive(Clone, Copy, Debug, PartialEq, Eq)]
pub struct Visit {
    pub enters: u32,
    pub leaves: u32,
}
