//! What is kept of the threads.
ghost use Rattle.std.specs.Prelude.{◌≡◌, ◌<◌, ◌-◌, ◌^◌, ◌==◌, ℕ, true, false, max, None, Some, [], OnOk, OnErr, IfOk, vec_len, slice_get, length, not, is_some, ◌&&◌, if◌then◌else◌};
ghost use Rattle.aero_leads.specs.Kept.{rows_in, thread_row, HaveSameBlocks, AreSameThreads, HasRow, BeginsBlock, IsLeastBack, absorbed, least_in, thread_in_block, thread_begins, thread_acted};
ghost use Rattle.aero_leads.specs.Indexed.{IsIndexed};
ghost use Rattle.aero_leads.specs.Listed.{followers, is_listed, AreListed, Grows};
ghost use Rattle.aero_leads.specs.Single.{AreSingle};

use crate::index::Index;
use crate::led::{Entry, Led, count, follower};
use crate::row::{Lead, absorb, enter_all, has, has_entered, least_of, open};
use std::alloc::{AllocError, Global};
use std::mem;

/// Which open blocks lead to the thread, whether it is in a block, how many outermost begins it has
/// made, and whether it has made an event.
#[derive(Drop)]
pub struct Thread {
    pub row: Vec<Lead>,
    pub in_block: bool,
    pub begins: u32,
    pub acted: bool,
}

/// Makes room for thread `t`.
pub(crate) fn reach(threads: &mut Vec<Thread>, t: u32) -> Result<(), AllocError>
    ensures room { OnOk result (t < vec_len threads.new) }
    ensures same { AreSameThreads threads.old.items threads.new.items }
    ensures lists { (v : ℕ) → thread_row (slice_get threads.new.items v) ≡
        thread_row (slice_get threads.old.items v) }
{
    let at = t as usize;
    while threads.len() <= at {
        let alloc = *threads.allocator();
        threads.push(Thread {
            row: Vec::new(alloc),
            in_block: false,
            begins: 0,
            acted: false,
        })?;
    }
    Ok(())
}

/// Takes the row of thread `t` out.
pub(crate) fn take_row(threads: &mut Vec<Thread>, t: u32) -> Vec<Lead>
    requires { t < vec_len threads.old }
    ensures row { result.items ≡ thread_row (slice_get threads.old.items t) }
    ensures rest { HasRow threads.old.items threads.new.items t [] }
    ensures room { vec_len threads.new ≡ vec_len threads.old }
{
    let alloc = *threads.allocator();
    mem::replace(&mut threads[t as usize].row, Vec::new(alloc))
}

/// Gives thread `t` this row.
pub(crate) fn put_row(threads: &mut Vec<Thread>, t: u32, row: Vec<Lead>)
    requires { t < vec_len threads.old }
    ensures row { HasRow threads.old.items threads.new.items t row.items }
    ensures room { vec_len threads.new ≡ vec_len threads.old }
{
    threads[t as usize].row = row;
}

/// The row of thread `o`, of which there may be none.
pub(crate) fn row_of(threads: &[Thread], o: u32) -> &[Lead]
    ensures { result.now ≡ thread_row (slice_get threads.now o) }
{
    match threads.get(o as usize) {
        Some(thread) => &thread.row,
        None => &[],
    }
}

/// Thread `t` begins a block at this place. Where it is new, its row has none of its own.
pub(crate) fn begin(
    threads: &mut Vec<Thread>,
    t: u32,
    place: u32,
    is_new: bool,
) -> Result<(), AllocError>
    requires actor { t < vec_len threads.old }
    requires new { is_new ≡ true → is_some (rows_in threads.old.items t t) ≡ false }
    requires count { thread_begins (slice_get threads.old.items t) < 2 ^ 32 - 1 }
    ensures begins { OnOk result (BeginsBlock threads.old.items threads.new.items t place) }
    ensures err { OnErr result (HaveSameBlocks threads.old.items threads.new.items) }
    ensures listed { (led : Led) → AreListed threads.old.items led →
        AreListed threads.new.items led }
    ensures single { AreSingle threads.old.items → AreSingle threads.new.items }
    ensures room { vec_len threads.new ≡ vec_len threads.old }
{
    let thread = &mut threads[t as usize];
    open(&mut thread.row, t, place, is_new)?;
    thread.in_block = true;
    thread.begins += 1;
    Ok(())
}

/// The least other thread whose open block leads to thread `t`, and to which the open block of `t`
/// leads, so that it is listed with `t`.
pub(crate) fn least_back(
    threads: &[Thread],
    t: u32,
    led: &mut Led,
) -> Result<Option<u32>, AllocError>
    requires { AreListed threads.now led.old }
    ensures least { IfOk result (IsLeastBack (rows_in threads.now) t) }
    ensures lists { led.new.lists ≡ led.old.lists }
{
    if count(led, t) == 0 {
        return Ok(None);
    }
    enter_all(row_of(threads, t), &mut led.index)?;
    Ok(least_listed(threads, t, led))
}

fn least_listed(threads: &[Thread], t: u32, led: &Led) -> Option<u32>
    requires listed { AreListed threads.now led.now }
    requires indexed { IsIndexed (thread_row (slice_get threads.now t)) led.now.index }
    ensures { IsLeastBack (rows_in threads.now) t result }
{
    let mut least = None;
    let listed = count(led, t);
    for i in 0..listed {
        let u = follower(led, t, i);
        if is_back(threads, t, u, &led.index) {
            least = Some(least_of(least, u));
        }
    }
    least
}

// Whether the open block of thread u, which is another, leads to thread t, and that of t to u. The first is seen at once, and
// seldom so.
fn is_back(threads: &[Thread], t: u32, u: u32, index: &Index) -> bool
    requires { IsIndexed (thread_row (slice_get threads.now t)) index.now }
    ensures { result ≡ (not (u == t) &&
        (is_some (rows_in threads.now t u) && is_some (rows_in threads.now u t))) }
{
    u != t && has_entered(row_of(threads, t), index, u) && has(row_of(threads, u), t)
}

/// Thread `t` has made an event.
pub(crate) fn act(threads: &mut Vec<Thread>, t: u32)
    requires { t < vec_len threads.old }
    ensures rows { (o w : ℕ) → rows_in threads.new.items o w ≡ rows_in threads.old.items o w }
    ensures in_block { (u : ℕ) → thread_in_block (slice_get threads.new.items u) ≡
        thread_in_block (slice_get threads.old.items u) }
    ensures begins { (u : ℕ) → thread_begins (slice_get threads.new.items u) ≡
        thread_begins (slice_get threads.old.items u) }
    ensures acted { (u : ℕ) → thread_acted (slice_get threads.new.items u) ≡
        (if t == u then true else thread_acted (slice_get threads.old.items u)) }
    ensures lists { (v : ℕ) → thread_row (slice_get threads.new.items v) ≡
        thread_row (slice_get threads.old.items v) }
{
    threads[t as usize].acted = true;
}

/// Thread `t` is in no block any more.
pub(crate) fn leave(threads: &mut Vec<Thread>, t: u32)
    requires { t < vec_len threads.old }
    ensures rows { (o w : ℕ) → rows_in threads.new.items o w ≡ rows_in threads.old.items o w }
    ensures in_block { (u : ℕ) → thread_in_block (slice_get threads.new.items u) ≡
        (if t == u then false else thread_in_block (slice_get threads.old.items u)) }
    ensures begins { (u : ℕ) → thread_begins (slice_get threads.new.items u) ≡
        thread_begins (slice_get threads.old.items u) }
    ensures acted { (u : ℕ) → thread_acted (slice_get threads.new.items u) ≡
        thread_acted (slice_get threads.old.items u) }
    ensures lists { (v : ℕ) → thread_row (slice_get threads.new.items v) ≡
        thread_row (slice_get threads.old.items v) }
    ensures room { vec_len threads.new ≡ vec_len threads.old }
{
    threads[t as usize].in_block = false;
}

/// The thread of this entry takes over what led to the block of thread `t`, the row `ended`, if that block led to it.
pub(crate) fn visit(
    threads: &mut Vec<Thread>,
    entry: Entry,
    ended: &[Lead],
    t: u32,
    led: &mut Led,
) -> Result<(), AllocError>
    requires { AreSingle threads.old.items }
    ensures rows { OnOk result ((v w : ℕ) →
        rows_in threads.new.items v w ≡
        (if entry.thread == v then absorbed (least_in ended.now) (rows_in threads.old.items v) t w
        else rows_in threads.old.items v w)) }
    ensures same { HaveSameBlocks threads.old.items threads.new.items }
    ensures listed { AreListed threads.old.items led.old → AreListed threads.new.items led.new }
    ensures grows { Grows led.old led.new }
    ensures others { (v : ℕ) → is_some (least_in ended.now v) ≡ false →
        followers led.new v ≡ followers led.old v }
    ensures single { AreSingle threads.new.items }
    ensures room { vec_len threads.new ≡ vec_len threads.old }
{
    let o = entry.thread;
    if (o as usize) < threads.len() {
        return absorb(&mut threads[o as usize].row, entry, ended, t, led);
    }
    Ok(())
}
