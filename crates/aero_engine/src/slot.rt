//! What a clock is kept of. A slot is a name, and has no state.

/// An event that a clock is kept of: the last of a thread, the last write of a variable, its last
/// read by a thread, or the last release of a lock. Threads, variables and locks go by numbers.
#[derive(Clone, Copy, Debug, PartialEq, Eq)]
pub enum Slot {
    /// The last event of the thread, or, where it has made none, its fork.
    OfThread(u32),
    /// The last write of the variable.
    LastWrite(u32),
    /// The last read of the variable, the first number, by the thread, the second.
    LastRead(u32, u32),
    /// The last release of the lock.
    LastRelease(u32),
}
