//! How what led to a block that ends comes to lead to all that the block led to.
ghost use Rattle.std.specs.Prelude.{◌≡◌, ◌≢◌, ◌≤◌, ℕ, true, false, [], Some, is_some, if◌then◌else◌};
ghost use Rattle.aero_leads.specs.Handing.{IsBeside, AreAmong, HasSpread};
ghost use Rattle.aero_leads.specs.Kept.{rows_in, least_in};
ghost use Rattle.aero_leads.specs.Seen.{is_seen, is_whole};
ghost use Rattle.aero_leads.specs.Single.{AreSingle};

use crate::beside::Beside;
use crate::highs::high_place;
use crate::led::{Entry, Led, count, listed_at};
use crate::row::{Lead, aimed, is_latest, unless};
use crate::seen::knows_all;
use crate::thread::{Thread, row_of, visit};
use std::alloc::AllocError;

/// The block of thread `t` ends, to which the blocks of this row led: they lead to each thread that
/// is listed with it, if the block did.
pub(crate) fn spread(
    threads: &mut Vec<Thread>,
    ended: &[Lead],
    t: u32,
    led: &mut Led,
    beside: &Beside,
) -> Result<(), AllocError>
    requires own { is_some (least_in ended.now t) ≡ false }
    requires single { AreSingle threads.old.items }
    requires beside { IsBeside threads.old.items t beside.now }
    requires whole { is_whole beside.now.seen t ≡ true → AreAmong ended.now beside.now.seen t }
    ensures { HasSpread threads.old threads.new led.old led.new ended.now t result }
{
    if ended.is_empty() {
        return spread_all(threads, ended, t, led);
    }
    spread_missing(threads, ended, t, led, beside)
}

// The same where no thread is looked at first.
fn spread_all(
    threads: &mut Vec<Thread>,
    ended: &[Lead],
    t: u32,
    led: &mut Led,
) -> Result<(), AllocError>
    requires own { is_some (least_in ended.now t) ≡ false }
    requires single { AreSingle threads.old.items }
    ensures { HasSpread threads.old threads.new led.old led.new ended.now t result }
{
    let listed = count(led, t);
    for i in 0..listed {
        visit(threads, listed_at(led, t, i), ended, t, led)?;
    }
    Ok(())
}

// The same. To a thread that is known to have them all nothing is handed on.
fn spread_missing(
    threads: &mut Vec<Thread>,
    ended: &[Lead],
    t: u32,
    led: &mut Led,
    beside: &Beside,
) -> Result<(), AllocError>
    requires own { is_some (least_in ended.now t) ≡ false }
    requires single { AreSingle threads.old.items }
    requires beside { IsBeside threads.old.items t beside.now }
    requires whole { is_whole beside.now.seen t ≡ true → AreAmong ended.now beside.now.seen t }
    ensures { HasSpread threads.old threads.new led.old led.new ended.now t result }
{
    let listed = count(led, t);
    for i in 0..listed {
        let entry = aim(threads, listed_at(led, t, i), t);
        let all = has_all(threads, entry, t, beside);
        visit(threads, entry, unless(all, ended), t, led)?;
    }
    Ok(())
}

// The entry with a better hint.
fn aim(threads: &[Thread], entry: Entry, t: u32) -> Entry
    ensures { result.thread ≡ entry.thread }
{
    aimed(row_of(threads, entry.thread), t, entry)
}

// Where it is true, the thread of this entry, which is another one, has all blocks that are known to lead to thread `t`, and these
// are all. None of them leads there from a later place on than the block of `t` itself does.
fn has_all(threads: &[Thread], entry: Entry, t: u32, beside: &Beside) -> bool
    requires single { AreSingle threads.now }
    requires beside { IsBeside threads.now t beside.now }
    ensures whole { result ≡ true → is_whole beside.now.seen t ≡ true }
    ensures there { result ≡ true → (v : ℕ) → v ≢ t → is_seen beside.now.seen t v ≡ true →
        is_some (rows_in threads.now entry.thread v) ≡ true }
    ensures latest { result ≡ true → (v p q : ℕ) →
        rows_in threads.now entry.thread t ≡ Some p →
        rows_in threads.now entry.thread v ≡ Some q → q ≤ p }
{
    let o = entry.thread;
    let high = high_place(&beside.highs, o);
    o != t && is_latest(row_of(threads, o), t, entry.at, high) && knows_all(&beside.seen, o, t)
}
