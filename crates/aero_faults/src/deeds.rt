//! What an event does to a lock, to a thread and to blocks.
ghost use Rattle.std.specs.Prelude.{◌≡◌};
ghost use Rattle.aero_faults.specs.Before.{is_by as is_by_thread, is_target as is_its_target, is_acquire_of as is_acquire, is_release_of as is_release, is_fork_of as is_fork, is_join_of as is_join};

use aero_model::{Event, Name, Op};

/// Whether the thread made the event.
pub fn is_by(event: &Event, thread: &[u8]) -> bool
    ensures { result ≡ is_by_thread thread.now event.now }
{
    event.thread.bytes() == thread
}

/// Whether the event acquires the lock.
pub fn is_acquire_of(event: &Event, lock: &[u8]) -> bool
    ensures { result ≡ is_acquire lock.now event.now }
{
    matches!(event.op, Op::Acquire) && is_target(&event.target, lock)
}

/// Whether the event releases the lock.
pub fn is_release_of(event: &Event, lock: &[u8]) -> bool
    ensures { result ≡ is_release lock.now event.now }
{
    matches!(event.op, Op::Release) && is_target(&event.target, lock)
}

/// Whether the event forks the thread.
pub fn is_fork_of(event: &Event, thread: &[u8]) -> bool
    ensures { result ≡ is_fork thread.now event.now }
{
    matches!(event.op, Op::Fork) && is_target(&event.target, thread)
}

/// Whether the event joins the thread.
pub fn is_join_of(event: &Event, thread: &[u8]) -> bool
    ensures { result ≡ is_join thread.now event.now }
{
    matches!(event.op, Op::Join) && is_target(&event.target, thread)
}

// Whether there is a target of this name.
fn is_target(target: &Option<Name>, name: &[u8]) -> bool
    ensures { result ≡ is_its_target name.now target.now }
{
    match target {
        None => false,
        Some(target) => target.bytes() == name,
    }
}
