//! What stands in the way of an event.
use aero_model::Name;

/// What stands in the way of an ill-formed event. Lines count from 1.
#[derive(Drop)]
pub enum Hindrance {
    /// The thread holds the lock since its acquire on this line, the outermost that it hasn't released.
    Held { thread: Name, line: u32 },
    /// Nobody holds the lock.
    Free,
    /// The first event of the thread stands on this line.
    Acted { line: u32 },
    /// The thread was forked on this line first.
    Forked { line: u32 },
    /// This thread joined it on this line first.
    Joined { thread: Name, line: u32 },
    /// The event forks or joins its own thread.
    Itself,
    /// None of the thread's blocks is open.
    NoneOpen,
}
