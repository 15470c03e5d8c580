//! What an export returns.

// It was done.
pub(crate) const DONE: u32 = 0;
// The monitor has no trace: none was begun, or it was judged or freed.
pub(crate) const UNHELD: u32 = 1;
// The monitor has a trace already.
pub(crate) const IN_USE: u32 = 2;
// Memory is or was refused.
pub(crate) const NO_MEMORY: u32 = 3;
// The buffer is too small for the line.
pub(crate) const SHORT: u32 = 4;
// A label is no name, or the last has no byte 10.
pub(crate) const NO_NAME: u32 = 5;
// There are more than 64 labels.
pub(crate) const MANY_LABELS: u32 = 6;
