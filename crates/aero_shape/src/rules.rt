//! What the tables tell of an event: its fault, if it has one, or what it is.
ghost use Rattle.std.specs.Prelude.{◌≡◌, IfSome, IfNone};
ghost use Rattle.aero_shape.specs.States.{thread_at};
ghost use Rattle.aero_shape.specs.Told.{is_held_by, is_kept_from, is_started, fault_told, kind_told, IsUsualAccess};

use crate::admission::Admitted;
use crate::states::{FREE, IDLE, LockState, ThreadState, state_at};
use aero_model::{Numbered, ShapeFault, What};

impl LockState {
    #[inline(always)]
    fn is_held_by(self, thread: u32) -> bool
        ensures { result ≡ is_held_by thread self }
    {
        self.holder == thread && self.count > 0
    }

    #[inline(always)]
    fn is_kept_from(self, thread: u32) -> bool
        ensures { result ≡ is_kept_from thread self }
    {
        self.holder != thread && self.count > 0
    }
}

impl ThreadState {
    // Whether a fork of the thread comes too late.
    #[inline(always)]
    fn is_started(self) -> bool
        ensures { result ≡ is_started self }
    {
        self.acted || self.forked || self.joined
    }
}

// The first fault of the event.
#[inline(always)]
pub(crate) fn fault_of(
    threads: &[ThreadState],
    locks: &[LockState],
    event: &Numbered,
) -> Option<ShapeFault>
    ensures { result ≡ fault_told threads.now locks.now event.now }
{
    let Numbered { thread, what } = *event;
    let actor = state_at(threads, thread, IDLE);
    if actor.joined {
        return Some(ShapeFault::ThreadJoined);
    }
    let fault = match what {
        What::Acquire(lock) if state_at(locks, lock, FREE).is_kept_from(thread) =>
            ShapeFault::LockHeldByOther,
        What::Release(lock) if !state_at(locks, lock, FREE).is_held_by(thread) =>
            ShapeFault::LockNotHeld,
        What::Fork(target) if target == thread => ShapeFault::ForkSelf,
        What::Fork(target) if state_at(threads, target, IDLE).is_started() =>
            ShapeFault::ForkStarted,
        What::Join(target) if target == thread => ShapeFault::JoinSelf,
        What::End if actor.depth == 0 => ShapeFault::EndWithoutBegin,
        _ => return None,
    };
    Some(fault)
}

// What the event is, if it has no fault.
#[inline(always)]
pub(crate) fn kind_of(threads: &[ThreadState], event: &Numbered) -> Admitted
    ensures { let deep = (thread_at threads.now event.now.thread).depth in
        result ≡ kind_told threads.now deep event.now.what }
{
    let depth = state_at(threads, event.thread, IDLE).depth;
    match event.what {
        What::Begin(_) if depth == 0 => Admitted::OuterBegin,
        What::Begin(_) => Admitted::Plain { in_block: true },
        What::End if depth == 1 => Admitted::OuterEnd,
        What::Join(target) if !state_at(threads, target, IDLE).acted => Admitted::IdleJoin,
        _ => Admitted::Plain {
            in_block: depth > 0,
        },
    }
}

// What the event is, if it is a read or a write by a thread that has acted and that nobody joined.
#[inline(always)]
pub(crate) fn access_of(threads: &[ThreadState], event: &Numbered) -> Option<Admitted>
    ensures told { IfSome result (IsUsualAccess threads.now event.now) }
    ensures missed { IfNone result ((admitted : Admitted) →
        IsUsualAccess threads.now event.now admitted → ⊥) }
{
    let Numbered { thread, what } = *event;
    let (What::Read(_) | What::Write(_)) = what else {
        return None;
    };
    let actor = state_at(threads, thread, IDLE);
    if !actor.acted || actor.joined {
        return None;
    }
    Some(Admitted::Plain {
        in_block: actor.depth > 0,
    })
}
