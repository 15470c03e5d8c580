//! What an event that is admitted changes in the tables.
ghost use Rattle.std.specs.Prelude.{◌≡◌, ℕ, ◌<◌, length, slice_set};
ghost use Rattle.aero_shape.specs.States.{thread_at, lock_at, HasThreadPlace, HasLockPlace, acting, affected, thread_after, lock_after};

use crate::states::{LockState, ThreadState};
use aero_model::{Numbered, What};

// What the thread itself does.
#[inline(always)]
fn note_deed(threads: &mut [ThreadState], thread: u32, what: What)
    requires actor { thread < length threads.old }
    requires room { (thread_at threads.old thread).depth < u32.MAX }
    requires begun { what ≡ What.End → 0 < (thread_at threads.old thread).depth }
    ensures { threads.new ≡ slice_set threads.old thread
        (acting what (thread_at threads.old thread)) }
{
    let actor = &mut threads[thread as usize];
    actor.acted = true;
    match what {
        What::Begin(_) => actor.depth += 1,
        What::End => actor.depth -= 1,
        _ => {}
    }
}

// What is done to the thread that is forked or joined.
#[inline(always)]
fn note_target(threads: &mut [ThreadState], what: What)
    requires { HasThreadPlace threads.old what }
    ensures { (t : ℕ) → thread_at threads.new t ≡ affected t what (thread_at threads.old t) }
{
    match what {
        What::Fork(target) => threads[target as usize].forked = true,
        What::Join(target) => threads[target as usize].joined = true,
        _ => {}
    }
}

#[inline(always)]
pub(crate) fn note_threads(threads: &mut [ThreadState], event: &Numbered)
    requires actor { event.now.thread < length threads.old }
    requires target { HasThreadPlace threads.old event.now.what }
    requires room { (thread_at threads.old event.now.thread).depth < u32.MAX }
    requires begun { event.now.what ≡ What.End →
        0 < (thread_at threads.old event.now.thread).depth }
    ensures { (t : ℕ) → thread_at threads.new t ≡ thread_after t event.now (thread_at threads.old t) }
{
    note_deed(threads, event.thread, event.what);
    note_target(threads, event.what);
}

#[inline(always)]
pub(crate) fn note_lock(locks: &mut [LockState], event: &Numbered)
    requires lock { HasLockPlace locks.old event.now.what }
    requires room { (l : ℕ) → (lock_at locks.old l).count < u32.MAX }
    requires held { (l : ℕ) → event.now.what ≡ What.Release l → 0 < (lock_at locks.old l).count }
    ensures { (l : ℕ)
        → lock_at locks.new l ≡ lock_after l event.now.thread event.now.what (lock_at locks.old l) }
{
    match event.what {
        What::Acquire(number) => {
            let lock = &mut locks[number as usize];
            lock.holder = event.thread;
            lock.count += 1;
        }
        What::Release(number) => locks[number as usize].count -= 1,
        _ => {}
    }
}
