//! What one event does to the threads, the table and the index: what the clock rules do, and then
//! the index is right again. Nothing but threads, table and index is touched. Where memory is refused
//! the index may be wrong.
ghost use Rattle.std.specs.Prelude.{◌≡◌, ◌≢◌, ◌<◌, ◌≤◌, ◌+◌, ◌↔◌, ◌-◌, ◌^◌, ◌||◌, ℕ, true, false, None, Some, length, slice_get, IsTrue, IfOk, OnOk, OnErr, vec_len, max};
ghost use Rattle.aero_model.specs.declared.numbered.What.TheVariants.{Read, Write, Acquire, Fork, Join, Begin};
ghost use Rattle.aero_engine.specs.declared.slot.Slot.{Slot};
ghost use Rattle.aero_engine.specs.Events.{event};
ghost use Rattle.aero_access.specs.Threads.{AreSameThreads, IsClosedBy, thread_clock, thread_acted, thread_begin, thread_begins};
ghost use Rattle.aero_access.specs.declared.table.Table.{Table};
ghost use Rattle.aero_access.specs.TableWords.{labels_of, label_clock};
ghost use Rattle.aero_access.specs.Heeds.{AreHeeded};
ghost use Rattle.aero_access.specs.Led.{leads, led_at, block_number, GainsThread, GainsLabel};
ghost use Rattle.aero_access.specs.Indexed.{IsIndex, IsPast, HasNoNews};
ghost use Rattle.aero_access.specs.StateWords.{clock_in, state_in, slot_in, JoinsClock, Moves, HaveSameBlocks};

use crate::clock_rules;
use crate::index::Index;
use crate::table::Table;
use crate::thread::{self, Thread};
use aero_engine::Slot;
use std::alloc::AllocError;

/// Makes room for thread `t`.
pub(crate) fn reach(threads: &mut Vec<Thread>, index: &mut Index, t: u32) -> Result<(), AllocError>
    requires { vec_len threads.old ≤ 2 ^ 32 }
    ensures room { OnOk result (vec_len threads.new ≡ max (vec_len threads.old) (t + 1)) }
    ensures few { vec_len threads.new ≤ 2 ^ 32 }
    ensures same { AreSameThreads threads.old.items threads.new.items }
    ensures listed { OnOk result (t < vec_len index.new.blocks) }
    ensures index { OnOk result ((table : Table) → IsIndex threads.old.items table index.old →
        IsIndex threads.new.items table index.new) }
{
    thread::reach(threads, t)?;
    index.reach(t)
}

/// Thread `t` reads variable `x`.
pub(crate) fn read(
    threads: &mut [Thread],
    table: &mut Table,
    index: &mut Index,
    t: u32,
    x: u32,
) -> Result<bool, AllocError>
    requires actor { t < length threads.old }
    requires heeded { AreHeeded (state_in threads.old table.old) }
    ensures moves { IfOk result (Moves (state_in threads.old table.old)
        (state_in threads.new table.new) (event t (Read x))) }
    ensures same { HaveSameBlocks threads.old threads.new }
    ensures heeded { AreHeeded (state_in threads.new table.new) }
    ensures index { OnOk result (IsIndex threads.old table.old index.old →
        IsIndex threads.new table.new index.new) }
{
    let news = has_news(threads, table, t, Slot::LastWrite(x));
    let closes = clock_rules::read(threads, table, index, t, x)?;
    list_news(threads, index, t, news, closes)?;
    Ok(closes)
}

/// Thread `t` writes variable `x`.
pub(crate) fn write(
    threads: &mut [Thread],
    table: &mut Table,
    index: &mut Index,
    t: u32,
    x: u32,
) -> Result<bool, AllocError>
    requires actor { t < length threads.old }
    requires heeded { AreHeeded (state_in threads.old table.old) }
    ensures moves { IfOk result (Moves (state_in threads.old table.old)
        (state_in threads.new table.new) (event t (Write x))) }
    ensures same { HaveSameBlocks threads.old threads.new }
    ensures heeded { AreHeeded (state_in threads.new table.new) }
    ensures index { OnOk result (IsIndex threads.old table.old index.old →
        IsIndex threads.new table.new index.new) }
{
    let closes = clock_rules::write(threads, table, index, t, x)?;
    list(threads, index, t)?;
    Ok(closes)
}

/// Thread `t` acquires lock `l`.
pub(crate) fn acquire(
    threads: &mut [Thread],
    table: &Table,
    index: &mut Index,
    t: u32,
    l: u32,
) -> Result<bool, AllocError>
    requires actor { t < length threads.old }
    requires heeded { AreHeeded (state_in threads.old table.now) }
    ensures moves { IfOk result (Moves (state_in threads.old table.now)
        (state_in threads.new table.now) (event t (Acquire l))) }
    ensures same { HaveSameBlocks threads.old threads.new }
    ensures heeded { AreHeeded (state_in threads.new table.now) }
    ensures index { OnOk result (IsIndex threads.old table.now index.old →
        IsIndex threads.new table.now index.new) }
{
    let news = has_news(threads, table, t, Slot::LastRelease(l));
    let closes = clock_rules::acquire(threads, table, t, l)?;
    list_news(threads, index, t, news, closes)?;
    Ok(closes)
}

/// Thread `t` forks thread `u`.
pub(crate) fn fork(
    threads: &mut [Thread],
    table: &Table,
    index: &mut Index,
    t: u32,
    u: u32,
) -> Result<(), AllocError>
    requires actor { t < length threads.old }
    requires target { u < length threads.old }
    requires other { u ≢ t }
    requires heeded { AreHeeded (state_in threads.old table.now) }
    ensures moves { OnOk result (Moves (state_in threads.old table.now)
        (state_in threads.new table.now) (event t (Fork u)) false) }
    ensures same { HaveSameBlocks threads.old threads.new }
    ensures heeded { AreHeeded (state_in threads.new table.now) }
    ensures index { OnOk result (IsIndex threads.old table.now index.old →
        IsIndex threads.new table.now index.new) }
{
    clock_rules::fork(threads, table, t, u)?;
    list(threads, index, u)
}

/// Thread `t` joins thread `u`.
pub(crate) fn join(
    threads: &mut [Thread],
    table: &Table,
    index: &mut Index,
    t: u32,
    u: u32,
) -> Result<bool, AllocError>
    requires actor { t < length threads.old }
    requires target { u < length threads.old }
    requires other { u ≢ t }
    requires acted { thread_acted (slice_get threads.old u) ≡ true }
    requires heeded { AreHeeded (state_in threads.old table.now) }
    ensures moves { IfOk result (Moves (state_in threads.old table.now)
        (state_in threads.new table.now) (event t (Join u))) }
    ensures same { HaveSameBlocks threads.old threads.new }
    ensures heeded { AreHeeded (state_in threads.new table.now) }
    ensures index { OnOk result (IsIndex threads.old table.now index.old →
        IsIndex threads.new table.now index.new) }
{
    let closes = clock_rules::join(threads, table, t, u)?;
    list(threads, index, t)?;
    Ok(closes)
}

/// Thread `t` begins a block, and is in none.
pub(crate) fn begin(
    threads: &mut [Thread],
    table: &Table,
    index: &mut Index,
    t: u32,
) -> Result<(), AllocError>
    requires actor { t < length threads.old }
    requires room { t < vec_len index.old.blocks }
    requires outside { thread_begin (slice_get threads.old t) ≡ None }
    requires count { thread_begins (slice_get threads.old t) < 2 ^ 32 - 1 }
    requires heeded { AreHeeded (state_in threads.old table.now) }
    ensures moves { OnOk result (Moves (state_in threads.old table.now)
        (state_in threads.new table.now) (event t (Begin None)) false) }
    ensures err { OnErr result (HaveSameBlocks threads.old threads.new) }
    ensures heeded { AreHeeded (state_in threads.new table.now) }
    ensures index { OnOk result (IsIndex threads.old table.now index.old →
        IsIndex threads.new table.now index.new) }
{
    index.open(t, threads[t as usize].begins + 1)?;
    clock_rules::begin(threads, table, t)
}

/// Joins the clock of the slot with this number with the clock of thread `t`. Where the slot is a
/// thread in a block that the clock closes, that thread is returned, and no clock is joined.
pub(crate) fn absorb(
    threads: &mut [Thread],
    table: &mut Table,
    index: &mut Index,
    t: u32,
    slot: usize,
) -> Result<Option<u32>, AllocError>
    requires few { length threads.old ≤ 2 ^ 32 }
    requires actor { t < length threads.old }
    requires slot { slot < length threads.old + length (labels_of table.old) }
    requires other { slot ≢ t }
    requires heeded { AreHeeded (state_in threads.old table.old) }
    ensures same { HaveSameBlocks threads.old threads.new }
    ensures labels { OnOk result (labels_of table.new ≡ labels_of table.old) }
    ensures told { IfOk result (λ o. (u : ℕ) →
        (o ≡ Some u) ↔ ((slot_in threads.old table.old slot ≡ Slot.OfThread u) ×
        IsClosedBy (thread_begin (slice_get threads.old u))
        (thread_clock (slice_get threads.old t)))) }
    ensures absorbed { IfOk result (λ o. o ≡ None →
        JoinsClock (state_in threads.old table.old) (state_in threads.new table.new) t
        (slot_in threads.old table.old slot)) }
    ensures heeded { AreHeeded (state_in threads.new table.new) }
    ensures index { OnOk result (IsIndex threads.old table.old index.old →
        IsIndex threads.new table.new index.new) }
    ensures still { OnOk result (IsIndex threads.old table.old index.old →
        leads (block_number (led_at index.old t))
        (clock_in threads.old table.old (slot_in threads.old table.old slot) t) ≡ true →
        led_at index.new t ≡ led_at index.old t) }
{
    if is_past(threads, table, t, slot) {
        return Ok(None);
    }
    list_label(threads, table, index, t, slot)?;
    let told = clock_rules::absorb(threads, table, t, slot)?;
    list_slot(threads, index, slot)?;
    Ok(told)
}

// Lists thread t for the blocks that lead to it now.
fn list(threads: &[Thread], index: &mut Index, t: u32) -> Result<(), AllocError>
    requires { t < length threads.now }
    ensures { OnOk result ((v : ℕ) →
        GainsThread (led_at index.old v) (led_at index.new v) t
        (thread_clock (slice_get threads.now t) v)) }
{
    index.gain_thread(t, &threads[t as usize].clock)
}

// Whether what is kept of the slot's last event has something that is new to thread t.
fn has_news(threads: &[Thread], table: &Table, t: u32, slot: Slot) -> bool
    requires { t < length threads.now }
    ensures { result ≡ false → HasNoNews threads.now table.now t slot }
{
    match table.get(slot) {
        Some(kept) => kept.thread != t && !kept.clock.at_most(&threads[t as usize].clock),
        None => false,
    }
}

// Lists thread t for the blocks that lead to it now, where its clock may be another.
fn list_news(
    threads: &[Thread],
    index: &mut Index,
    t: u32,
    news: bool,
    closes: bool,
) -> Result<(), AllocError>
    requires { t < length threads.now }
    ensures listed { OnOk result ((news || closes) ≡ true → (v : ℕ) →
        GainsThread (led_at index.old v) (led_at index.new v) t
        (thread_clock (slice_get threads.now t) v)) }
    ensures same { (news || closes) ≡ false → index.new ≡ index.old }
{
    if news || closes {
        return list(threads, index, t);
    }
    Ok(())
}

// Whether the slot with this number is no thread, and its clock is at least that of thread t, so
// that there is nothing to absorb.
fn is_past(threads: &[Thread], table: &Table, t: u32, slot: usize) -> bool
    requires actor { t < length threads.now }
    requires slot { slot < length threads.now + length (labels_of table.now) }
    ensures { IsTrue result → IsPast threads.now table.now t slot }
{
    if slot < threads.len() {
        return false;
    }
    table.is_past(
        table.label(slot - threads.len()),
        &threads[t as usize].clock,
    )
}

// The same of the thread that a slot is, if it is one.
fn list_slot(threads: &[Thread], index: &mut Index, slot: usize) -> Result<(), AllocError>
    requires { length threads.now ≤ 2 ^ 32 }
    ensures thread { OnOk result (slot < length threads.now → (v : ℕ) →
        GainsThread (led_at index.old v) (led_at index.new v) slot
        (thread_clock (slice_get threads.now slot) v)) }
    ensures label { length threads.now ≤ slot → index.new ≡ index.old }
{
    if slot < threads.len() {
        return list(threads, index, slot as u32);
    }
    Ok(())
}

// Lists a slot that is no thread for the blocks that lead to it once its clock is joined with that of
// thread t.
fn list_label(
    threads: &[Thread],
    table: &Table,
    index: &mut Index,
    t: u32,
    slot: usize,
) -> Result<(), AllocError>
    requires actor { t < length threads.now }
    requires slot { slot < length threads.now + length (labels_of table.now) }
    ensures thread { slot < length threads.now → index.new ≡ index.old }
    ensures label { OnOk result (length threads.now ≤ slot → (v : ℕ) →
        GainsLabel (led_at index.old v) (led_at index.new v) (slot - length threads.now)
        (label_clock table.now (slot - length threads.now) v)
        (thread_clock (slice_get threads.now t) v)) }
{
    if slot < threads.len() {
        return Ok(());
    }
    let place = slot - threads.len();
    match table.get(table.label(place)) {
        Some(kept) => index.gain_label(kept.label, &kept.clock, &threads[t as usize].clock),
        None => Ok(()),
    }
}
