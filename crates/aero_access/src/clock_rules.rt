//! The clock rules: what one event does to the clocks of threads and of the table. Each function
//! returns whether the event closes a telling cycle through the open block of its thread; then it
//! leaves the blocks as they were. Of the index they touch the labels of slots that are kept anew.
ghost use Rattle.std.specs.Prelude.{◌≡◌, ◌≢◌, ◌<◌, ◌≤◌, ◌+◌, ◌↔◌, ◌-◌, ◌^◌, ℕ, true, false, None, Some, length, slice_get, IsTrue, IfOk, OnOk, OnErr, is_some};
ghost use Rattle.aero_clock.specs.Numbers.{number_at};
ghost use Rattle.aero_model.specs.declared.numbered.What.TheVariants.{Read, Write, Acquire, Release, Fork, Join, Begin};
ghost use Rattle.aero_engine.specs.declared.slot.Slot.{Slot};
ghost use Rattle.aero_engine.specs.Events.{event};
ghost use Rattle.aero_access.specs.LastClocks.{is_kept, greatest_but, kept_clock};
ghost use Rattle.aero_access.specs.Threads.{CountIsTest, HasSameBlock, TakesClock, ClosesOne, ClosesNone, IsClosedBy, thread_clock, thread_acted, thread_begin, thread_begins};
ghost use Rattle.aero_access.specs.declared.kept.Kept.{Kept};
ghost use Rattle.aero_access.specs.TableWords.{kept_of, readers_of, labels_of, JoinsSlot};
ghost use Rattle.aero_access.specs.States.{State};
ghost use Rattle.aero_access.specs.Heeds.{Heeds, AreHeeded};
ghost use Rattle.aero_access.specs.Led.{led_at, MovesLabel};
ghost use Rattle.aero_access.specs.Indexed.{TakesOnly, KeepsLabels, OpensBlock, HasNoNews, KeepsItsClock};
ghost use Rattle.aero_access.specs.StateWords.{clock_in, state_in, slot_in, JoinsClock, Moves, HaveSameBlocks, ClosesLast, last_but, KeepsClock};

use crate::index::Index;
use crate::table::Table;
use crate::thread::Thread;
use aero_clock::Clock;
use aero_engine::Slot;
use std::alloc::AllocError;

/// Thread `t` reads variable `x`.
pub(crate) fn read(
    threads: &mut [Thread],
    table: &mut Table,
    index: &mut Index,
    t: u32,
    x: u32,
) -> Result<bool, AllocError>
    requires actor { t < length threads.old }
    requires heeded { AreHeeded (state_in threads.old table.old) }
    ensures moves { IfOk result (Moves (state_in threads.old table.old)
        (state_in threads.new table.new) (event t (Read x))) }
    ensures takes { OnOk result (TakesOnly t threads.old threads.new) }
    ensures still { HasNoNews threads.old table.old t (Slot.LastWrite x) →
        IfOk result (λ closes. closes ≡ false → KeepsItsClock threads.old threads.new t) }
    ensures labels { OnOk result (KeepsLabels table.old table.new index.old index.new) }
    ensures same { HaveSameBlocks threads.old threads.new }
    ensures heeded { AreHeeded (state_in threads.new table.new) }
{
    let reader = &mut threads[t as usize];
    if take_last(reader, table, t, Slot::LastWrite(x))? {
        return Ok(true);
    }
    keep(reader, table, index, t, Slot::LastRead(x, t))?;
    Ok(false)
}

/// Thread `t` writes variable `x`.
pub(crate) fn write(
    threads: &mut [Thread],
    table: &mut Table,
    index: &mut Index,
    t: u32,
    x: u32,
) -> Result<bool, AllocError>
    requires actor { t < length threads.old }
    requires heeded { AreHeeded (state_in threads.old table.old) }
    ensures moves { IfOk result (Moves (state_in threads.old table.old)
        (state_in threads.new table.new) (event t (Write x))) }
    ensures takes { OnOk result (TakesOnly t threads.old threads.new) }
    ensures labels { OnOk result (KeepsLabels table.old table.new index.old index.new) }
    ensures same { HaveSameBlocks threads.old threads.new }
    ensures heeded { AreHeeded (state_in threads.new table.new) }
{
    let writer = &mut threads[t as usize];
    if take_last(writer, table, t, Slot::LastWrite(x))? {
        return Ok(true);
    }
    if take_reads(writer, table, t, x)? {
        return Ok(true);
    }
    keep(writer, table, index, t, Slot::LastWrite(x))?;
    Ok(false)
}

/// Thread `t` acquires lock `l`.
pub(crate) fn acquire(
    threads: &mut [Thread],
    table: &Table,
    t: u32,
    l: u32,
) -> Result<bool, AllocError>
    requires actor { t < length threads.old }
    requires heeded { AreHeeded (state_in threads.old table.now) }
    ensures moves { IfOk result (Moves (state_in threads.old table.now)
        (state_in threads.new table.now) (event t (Acquire l))) }
    ensures takes { OnOk result (TakesOnly t threads.old threads.new) }
    ensures still { HasNoNews threads.old table.now t (Slot.LastRelease l) →
        IfOk result (λ closes. closes ≡ false → KeepsItsClock threads.old threads.new t) }
    ensures same { HaveSameBlocks threads.old threads.new }
    ensures heeded { AreHeeded (state_in threads.new table.now) }
{
    take_last(&mut threads[t as usize], table, t, Slot::LastRelease(l))
}

/// Thread `t` releases lock `l`.
pub(crate) fn release(
    threads: &[Thread],
    table: &mut Table,
    index: &mut Index,
    t: u32,
    l: u32,
) -> Result<(), AllocError>
    requires actor { t < length threads.now }
    requires heeded { AreHeeded (state_in threads.now table.old) }
    ensures moves { OnOk result (Moves (state_in threads.now table.old)
        (state_in threads.now table.new) (event t (Release l)) false) }
    ensures labels { OnOk result (KeepsLabels table.old table.new index.old index.new) }
    ensures heeded { AreHeeded (state_in threads.now table.new) }
{
    keep(&threads[t as usize], table, index, t, Slot::LastRelease(l))
}

/// Thread `t` forks thread `u`.
pub(crate) fn fork(threads: &mut [Thread], table: &Table, t: u32, u: u32) -> Result<(), AllocError>
    requires actor { t < length threads.old }
    requires target { u < length threads.old }
    requires other { u ≢ t }
    requires heeded { AreHeeded (state_in threads.old table.now) }
    ensures moves { OnOk result (Moves (state_in threads.old table.now)
        (state_in threads.new table.now) (event t (Fork u)) false) }
    ensures takes { OnOk result (TakesOnly u threads.old threads.new) }
    ensures same { HaveSameBlocks threads.old threads.new }
    ensures heeded { AreHeeded (state_in threads.new table.now) }
{
    let clock = threads[t as usize].clock.copy()?;
    threads[u as usize].join(&clock)
}

/// Thread `t` joins thread `u`.
pub(crate) fn join(
    threads: &mut [Thread],
    table: &Table,
    t: u32,
    u: u32,
) -> Result<bool, AllocError>
    requires actor { t < length threads.old }
    requires target { u < length threads.old }
    requires other { u ≢ t }
    requires acted { thread_acted (slice_get threads.old u) ≡ true }
    requires heeded { AreHeeded (state_in threads.old table.now) }
    ensures moves { IfOk result (Moves (state_in threads.old table.now)
        (state_in threads.new table.now) (event t (Join u))) }
    ensures takes { OnOk result (TakesOnly t threads.old threads.new) }
    ensures same { HaveSameBlocks threads.old threads.new }
    ensures heeded { AreHeeded (state_in threads.new table.now) }
{
    let clock = threads[u as usize].clock.copy()?;
    threads[t as usize].take(t, &clock)
}

/// Thread `t` begins a block, and is in none.
pub(crate) fn begin(threads: &mut [Thread], table: &Table, t: u32) -> Result<(), AllocError>
    requires actor { t < length threads.old }
    requires outside { thread_begin (slice_get threads.old t) ≡ None }
    requires count { thread_begins (slice_get threads.old t) < 2 ^ 32 - 1 }
    requires heeded { AreHeeded (state_in threads.old table.now) }
    ensures moves { OnOk result (Moves (state_in threads.old table.now)
        (state_in threads.new table.now) (event t (Begin None)) false) }
    ensures opens { OnOk result (OpensBlock threads.old threads.new t) }
    ensures err { OnErr result (HaveSameBlocks threads.old threads.new) }
    ensures heeded { AreHeeded (state_in threads.new table.now) }
{
    threads[t as usize].open(t)
}

/// Whether the clock of the slot with this number is at least the begin clock of thread `t`.
pub(crate) fn leads(threads: &[Thread], table: &Table, t: u32, slot: usize) -> bool
    requires actor { t < length threads.now }
    requires slot { slot < length threads.now + length (labels_of table.now) }
    requires heeded { AreHeeded (state_in threads.now table.now) }
    ensures { IsTrue result ↔ IsClosedBy (thread_begin (slice_get threads.now t))
        (clock_in threads.now table.now (slot_in threads.now table.now slot)) }
{
    let thread = &threads[t as usize];
    if slot < threads.len() {
        return thread.is_closed_by(t, &threads[slot].clock);
    }
    match table.get(table.label(slot - threads.len())) {
        Some(kept) => thread.is_closed_by(t, &kept.clock),
        None => false,
    }
}

/// Joins the clock of the slot with this number with the clock of thread `t`. Where the slot is a
/// thread in a block that the clock closes, that thread is returned, and no clock is joined.
pub(crate) fn absorb(
    threads: &mut [Thread],
    table: &mut Table,
    t: u32,
    slot: usize,
) -> Result<Option<u32>, AllocError>
    requires few { length threads.old ≤ 2 ^ 32 }
    requires actor { t < length threads.old }
    requires slot { slot < length threads.old + length (labels_of table.old) }
    requires other { slot ≢ t }
    requires heeded { AreHeeded (state_in threads.old table.old) }
    ensures same { HaveSameBlocks threads.old threads.new }
    ensures labels { OnOk result (labels_of table.new ≡ labels_of table.old) }
    ensures told { IfOk result (λ o. (u : ℕ) →
        (o ≡ Some u) ↔ ((slot_in threads.old table.old slot ≡ Slot.OfThread u) ×
        IsClosedBy (thread_begin (slice_get threads.old u))
        (thread_clock (slice_get threads.old t)))) }
    ensures absorbed { IfOk result (λ o. o ≡ None →
        JoinsClock (state_in threads.old table.old) (state_in threads.new table.new) t
        (slot_in threads.old table.old slot)) }
    ensures heeded { AreHeeded (state_in threads.new table.new) }
    ensures thread { OnOk result (slot < length threads.old →
        TakesOnly slot threads.old threads.new × (table.new ≡ table.old)) }
    ensures label { OnOk result (length threads.old ≤ slot →
        (threads.new ≡ threads.old) × ((s : Slot) →
        slice_get (labels_of table.old) (slot - length threads.old) ≡ Some s →
        JoinsSlot table.old table.new s (thread_clock (slice_get threads.old t)))) }
{
    if slot < threads.len() {
        let clock = threads[t as usize].clock.copy()?;
        let closes = threads[slot].take(slot as u32, &clock)?;
        return Ok(if closes { Some(slot as u32) } else { None });
    }
    let label = table.label(slot - threads.len());
    table.join(label, &threads[t as usize].clock)?;
    Ok(None)
}

// Takes the clocks of the variable's last reads by other threads.
fn take_reads(thread: &mut Thread, table: &Table, t: u32, x: u32) -> Result<bool, AllocError>
    requires { (i : ℕ) (k : Kept) → slice_get (readers_of table.now x) i ≡ Some k →
        CountIsTest thread.old t (number_at k.clock) }
    ensures closing { IfOk result (λ closes. closes ≡ true →
        ClosesOne thread.old.begin t (readers_of table.now x)) }
    ensures none { IfOk result (λ closes. closes ≡ false →
        ClosesNone thread.old.begin t (readers_of table.now x)) }
    ensures takes { IfOk result (λ closes. closes ≡ false →
        TakesClock thread.old thread.new (greatest_but t (readers_of table.now x))) }
    ensures same { HasSameBlock thread.old thread.new }
    ensures grows { (u : ℕ) → number_at thread.old.clock u ≤ number_at thread.new.clock u }
    ensures heeds { (w : State) → Heeds w (number_at thread.old.clock) →
        ((i : ℕ) (k : Kept) → slice_get (readers_of table.now x) i ≡ Some k →
        Heeds w (number_at k.clock)) → Heeds w (number_at thread.new.clock) }
{
    match table.readers(x) {
        Some(readers) => readers.give(thread, t),
        None => Ok(false),
    }
}

// Takes the clock of the slot's last event, unless that is by thread t itself.
fn take_last(thread: &mut Thread, table: &Table, t: u32, slot: Slot) -> Result<bool, AllocError>
    requires { (k : Kept) → kept_of table.now slot ≡ Some k →
        CountIsTest thread.old t (number_at k.clock) }
    ensures closing { IfOk result (λ closes. IsTrue closes ↔
        ClosesLast thread.old.begin t (kept_of table.now slot)) }
    ensures takes { IfOk result (λ closes. closes ≡ false →
        TakesClock thread.old thread.new (last_but t (kept_of table.now slot))) }
    ensures same { HasSameBlock thread.old thread.new }
    ensures grows { (u : ℕ) → number_at thread.old.clock u ≤ number_at thread.new.clock u }
    ensures heeds { (w : State) → Heeds w (number_at thread.old.clock) →
        ((k : Kept) → kept_of table.now slot ≡ Some k → Heeds w (number_at k.clock)) →
        Heeds w (number_at thread.new.clock) }
{
    match table.get(slot) {
        Some(kept) => kept.give(thread, t),
        None => Ok(false),
    }
}

// Lists the slot's label, which has or gets this place, for the blocks that lead to the slot by
// this clock.
fn note(
    index: &mut Index,
    table: &Table,
    slot: Slot,
    place: u32,
    clock: &Clock,
) -> Result<(), AllocError>
    ensures { OnOk result ((v : ℕ) →
        MovesLabel (led_at index.old v) (led_at index.new v) place
        (kept_clock (kept_of table.now slot) v) (number_at clock.now v)) }
{
    match table.get(slot) {
        Some(kept) => index.move_label(place, &kept.clock, clock),
        None => index.new_label(place, clock),
    }
}

// Keeps the thread's clock of the slot.
fn keep(
    thread: &Thread,
    table: &mut Table,
    index: &mut Index,
    t: u32,
    slot: Slot,
) -> Result<(), AllocError>
    requires kept { is_kept slot ≡ true }
    requires reader { (x u : ℕ) → slot ≡ Slot.LastRead x u → t ≡ u }
    ensures keeps { OnOk result (KeepsClock table.old table.new slot t (number_at thread.now.clock)) }
    ensures heeds { (w : State) → Heeds w (number_at thread.now.clock) →
        ((s : Slot) → Heeds w (kept_clock (kept_of table.old s))) → (s : Slot) →
        Heeds w (kept_clock (kept_of table.new s)) }
    ensures labels { OnOk result (KeepsLabels table.old table.new index.old index.new) }
{
    let place = table.place(slot)?;
    note(index, table, slot, place, &thread.clock)?;
    table.keep(slot, t, &thread.clock, place)
}
