//! The first events of transactions.

/// The first event of a transaction: its place among all events, from 0, the number of its line, and its thread's number.
#[derive(Clone, Copy, Debug, PartialEq, Eq)]
pub struct First {
    pub place: u32,
    pub line: u32,
    pub thread: u32,
}
