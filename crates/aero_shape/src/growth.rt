//! Tables that grow to have a place for each number that an event names.
ghost use Rattle.std.specs.Prelude.{◌≡◌, ℕ, ◌<◌, ◌≤◌, ◌==◌, ◌&&◌, ◌++◌, ◌∷◌, [], true, false, if◌then◌else◌, slice_index_or, take, vec_len, IsOk, OnOk, OnErr};
ghost use Rattle.aero_shape.specs.States.{thread_at, lock_at, around_at, HasThreadPlace, HasLockPlace, HavePlaces};

use crate::exempt::{Around, open_exempt};
use crate::judge::Judged;
use crate::states::{FREE, IDLE, LockState, ThreadState};
use aero_model::{Numbered, What};
use std::alloc::AllocError;

// The table gets a place for the number, if it has none. New places are what was said beyond the
// table.
#[inline(always)]
fn grow<T: Copy>(table: &mut Vec<T>, number: u32, beyond: T) -> Result<(), AllocError>
    ensures same { (k : ℕ)
        → slice_index_or table.new.items k beyond ≡ slice_index_or table.old.items k beyond }
    ensures ok { OnOk result (number < vec_len table.new) }
    ensures front { take (vec_len table.old) table.new.items ≡ table.old.items }
    ensures longer { vec_len table.old ≤ vec_len table.new }
    ensures err { OnErr result (table.new.items ≡ table.old.items) }
    ensures room { OnErr result (vec_len table.old ≤ number) }
{
    let place = number as usize;
    if place < table.len() {
        return Ok(());
    }
    table.resize(place + 1, beyond)
}

// Places for the event's thread, and for its target if that is a thread or a lock. Where memory is
// refused, the tables stay as they were.
#[inline(always)]
fn make_places(
    threads: &mut Vec<ThreadState>,
    locks: &mut Vec<LockState>,
    event: &Numbered,
) -> Result<(), AllocError>
    ensures threads { (t : ℕ) → thread_at threads.new.items t ≡ thread_at threads.old.items t }
    ensures locks { (l : ℕ) → lock_at locks.new.items l ≡ lock_at locks.old.items l }
    ensures actor { OnOk result (event.now.thread < vec_len threads.new) }
    ensures target { OnOk result (HasThreadPlace threads.new.items event.now.what) }
    ensures lock { OnOk result (HasLockPlace locks.new.items event.now.what) }
    ensures locks_grow { vec_len locks.old ≤ vec_len locks.new }
    ensures room { HavePlaces threads.old.items locks.old.items event.now → IsOk result }
    ensures threads_on_err { OnErr result (threads.new.items ≡ threads.old.items) }
    ensures front { take (vec_len threads.old) threads.new.items ≡ threads.old.items }
    ensures other_locks { event.now.what ≡ What.Exempt → locks.new.items ≡ locks.old.items }
    ensures locks_on_err { OnErr result (locks.new.items ≡ locks.old.items) }
{
    let most = match event.what {
        What::Fork(target) | What::Join(target) => event.thread.max(target),
        _ => event.thread,
    };
    let had = threads.len();
    grow(threads, most, IDLE)?;
    if let What::Acquire(lock) | What::Release(lock) = event.what
        && let Err(refused) = grow(locks, lock, FREE)
    {
        threads.truncate(had);
        return Err(refused);
    }
    Ok(())
}

// Places as above, and the exempt block that opens at this depth, if one does. Where memory is
// refused, everything stays as it was.
#[inline(always)]
pub(crate) fn make_room(
    threads: &mut Vec<ThreadState>,
    locks: &mut Vec<LockState>,
    exempt: &mut Vec<Around>,
    judged: &Judged,
) -> Result<(), AllocError>
    requires { judged.now.opens ≡ true → judged.now.event.what ≡ What.Exempt }
    ensures threads { (t : ℕ) → thread_at threads.new.items t ≡ thread_at threads.old.items t }
    ensures locks { (l : ℕ) → lock_at locks.new.items l ≡ lock_at locks.old.items l }
    ensures exempt { OnOk result ((t : ℕ) →
        around_at exempt.new.items t ≡
        (if judged.now.opens && (judged.now.event.thread == t) then around_at exempt.old.items t ++
        judged.now.depth ∷ [] else around_at exempt.old.items t)) }
    ensures actor { OnOk result (judged.now.event.thread < vec_len threads.new) }
    ensures target { OnOk result (HasThreadPlace threads.new.items judged.now.event.what) }
    ensures lock { OnOk result (HasLockPlace locks.new.items judged.now.event.what) }
    ensures locks_grow { vec_len locks.old ≤ vec_len locks.new }
    ensures room { judged.now.opens ≡ false →
        HavePlaces threads.old.items locks.old.items judged.now.event → IsOk result }
    ensures threads_on_err { OnErr result (threads.new.items ≡ threads.old.items) }
    ensures locks_on_err { OnErr result (locks.new.items ≡ locks.old.items) }
    ensures exempt_on_err { OnErr result (exempt.new.items ≡ exempt.old.items) }
{
    let threads_before = threads.len();
    make_places(threads, locks, &judged.event)?;
    if judged.opens
        && let Err(refused) = open_exempt(exempt, judged.event.thread, judged.depth)
    {
        threads.truncate(threads_before);
        return Err(refused);
    }
    Ok(())
}
