//! What an engine returns once memory was refused.
use std::alloc::AllocError;

/// Memory was refused. From then on each call that can return this does.
#[derive(Clone, Copy, Debug, PartialEq, Eq)]
pub struct Spent;

impl From<AllocError> for Spent {
    fn from(_e: AllocError) -> Spent {
        Spent
    }
}
