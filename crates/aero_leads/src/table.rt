//! What is kept of the threads, and to which of them each open block leads.
ghost use Rattle.std.specs.Prelude.{◌≡◌, ◌≢◌, ◌∷◌, ◌++◌, ◌<◌, ◌-◌, ◌^◌, ◌==◌, ℕ, true, false, [], OnOk, OnErr, IfOk, vec_len, slice_get, is_some, if◌then◌else◌};
ghost use Rattle.aero_leads.specs.Kept.{rows_in, is_below, thread_row, thread_in_block, thread_begins, thread_acted, leads_to, leads_to_any, if_any, TakesAll, TakesRow, HaveSameBlocks, AreSameThreads, BeginsBlock, EndsBlock, IsLeastBack};
ghost use Rattle.aero_leads.specs.Listed.{AreListed};
ghost use Rattle.aero_leads.specs.Lows.{AreLow};
ghost use Rattle.aero_leads.specs.Highs.{AreHigh};
ghost use Rattle.aero_leads.specs.Passed.{ArePassed, leads_since, passed_of};
ghost use Rattle.aero_leads.specs.Seen.{is_whole, AreKnown};
ghost use Rattle.aero_leads.specs.Single.{AreSingle};

use crate::back::least_known;
use crate::beside::{Beside, forget_beside, nothing_beside};
use crate::gaining::gain_row;
use crate::highs::{add_highs, high_place, raise_high, settle_high};
use crate::last::Last;
use crate::led::{Led, forget, no_block};
use crate::lows::{is_low, lower, raise_all};
use crate::news::{differ_little, has_news, has_others};
use crate::passed::{lower_place, note_begin, note_gain, passed_before, since};
use crate::row::{Brought, Lead, SHORT, Taking, brought_by, led_below, settle};
use crate::seen::{has_seen, is_in, is_whole, openers_of, see_own, unsee_all};
use crate::spreading::spread;
use crate::thread;
use crate::thread::{Thread, leave, put_row, row_of, take_row};
use std::alloc::{AllocError, Global};

/// The threads, by their numbers. With each open block the other threads are listed to whose events
/// it leads. What is seen, what is low or high and what was passed on are parts of what the rows say.
#[derive(Drop)]
pub struct Table {
    pub threads: Vec<Thread>,
    pub led: Led,
    pub beside: Beside,
    ghost listed: { AreListed threads.items led },
    ghost known: { AreKnown threads.items beside.seen },
    ghost low: { AreLow threads.items beside.lows },
    ghost high: { AreHigh threads.items beside.highs },
    ghost passing: { ArePassed threads.items beside.passed },
    ghost single: { AreSingle threads.items },
}

/// No thread.
pub(crate) fn no_thread(alloc: Global) -> Table
    ensures { result.threads.items ≡ [] }
{
    Table {
        threads: Vec::new(alloc),
        led: no_block(alloc),
        beside: nothing_beside(alloc),
    }
}

/// Makes room for thread `t`.
#[inline(always)]
pub(crate) fn reach(table: &mut Table, t: u32) -> Result<(), AllocError>
    ensures room { OnOk result (t < vec_len table.new.threads) }
    ensures same { AreSameThreads table.old.threads.items table.new.threads.items }
{
    if (t as usize) < table.threads.len() {
        return Ok(());
    }
    reach_new(table, t)
}

// The same where there is no room yet. So far nothing leads to the new threads.
#[inline(never)]
fn reach_new(table: &mut Table, t: u32) -> Result<(), AllocError>
    ensures room { OnOk result (t < vec_len table.new.threads) }
    ensures same { AreSameThreads table.old.threads.items table.new.threads.items }
{
    let before = table.threads.len();
    thread::reach(&mut table.threads, t)?;
    add_highs(&mut table.beside.highs, before, table.threads.len())
}

/// What leads to an event of thread `o` below a place leads to thread `t`, another one, from this
/// place on, unless it did before.
#[inline(never)]
pub(crate) fn gain(
    table: &mut Table,
    t: u32,
    o: u32,
    below: u32,
    place: u32,
) -> Result<(), AllocError>
    requires actor { t < vec_len table.old.threads }
    requires other { o ≢ t }
    ensures gains { OnOk result (TakesRow (rows_in table.old.threads.items)
        (rows_in table.new.threads.items) place t o below) }
    ensures same { HaveSameBlocks table.old.threads.items table.new.threads.items }
    ensures room { vec_len table.new.threads ≡ vec_len table.old.threads }
{
    if brings_nothing(table, t, o, below) {
        return Ok(());
    }
    let taking = Taking {
        from: o,
        below,
        place,
    };
    let Ok(()) = gain_row(
        &mut table.threads,
        &mut table.beside.seen,
        &mut table.led,
        t,
        taking,
    ) else {
        forget_beside(&mut table.beside);
        return Err(AllocError);
    };
    lower(&mut table.beside.lows, t, place);
    raise_high(&mut table.beside.highs, t, place);
    lower_place(&mut table.beside.passed, o, below);
    note_gain(&mut table.beside.passed, &table.led, t, place);
    Ok(())
}

// Where it is true, all that leads to an event of thread `o` below a place is known to lead to thread `t` as well.
fn brings_nothing(table: &Table, t: u32, o: u32, below: u32) -> bool
    ensures { result ≡ true → (w : ℕ) →
        is_below (rows_in table.now.threads.items o w) below ≡ true →
        is_some (rows_in table.now.threads.items t w) ≡ true }
{
    let other = row_of(&table.threads, o);
    let theirs = openers_of(&table.beside.seen, o);
    let mine = openers_of(&table.beside.seen, t);
    if is_whole(&table.beside.seen, o) && differ_little(theirs, mine) {
        return !has_news(theirs, mine, other, below);
    }
    has_seen(&table.beside.seen, t, other, below)
}

// What an event of thread `o` below a place brings thread `t`.
#[inline(always)]
fn brings(table: &Table, t: u32, o: u32, below: u32) -> Brought
    ensures closes { result.closes ≡ is_below (rows_in table.now.threads.items o t) below }
    ensures known { result.news ≡ false → (w : ℕ) →
        is_below (rows_in table.now.threads.items o w) below ≡ true →
        is_some (rows_in table.now.threads.items t w) ≡ true }
{
    let row = row_of(&table.threads, t);
    let other = row_of(&table.threads, o);
    if other.len() > SHORT && is_whole(&table.beside.seen, o) {
        return brings_of_whole(table, t, o, below);
    }
    brought_by(row, other, t, below)
}

// The same where all that leads to thread `o` is known: what both threads have is passed over.
fn brings_of_whole(table: &Table, t: u32, o: u32, below: u32) -> Brought
    requires { is_whole table.now.beside.seen o ≡ true }
    ensures closes { result.closes ≡ is_below (rows_in table.now.threads.items o t) below }
    ensures known { result.news ≡ false → (w : ℕ) →
        is_below (rows_in table.now.threads.items o w) below ≡ true →
        is_some (rows_in table.now.threads.items t w) ≡ true }
{
    let closes = is_led(table, o, t, below);
    let news = may_bring(table, t, o, below);
    Brought { closes, news }
}

// Whether the open block of thread `w` leads to an event of thread `o` below a place.
fn is_led(table: &Table, o: u32, w: u32, below: u32) -> bool
    requires { is_whole table.now.beside.seen o ≡ true }
    ensures { result ≡ is_below (rows_in table.now.threads.items o w) below }
{
    if !is_in(openers_of(&table.beside.seen, o), w) {
        return false;
    }
    led_below(row_of(&table.threads, o), w as usize, below)
}

// Whether an event of thread `o` below a place may bring thread `t` news. The block of `o` itself is looked at apart: mostly
// that is what differs, and mostly it began later.
fn may_bring(table: &Table, t: u32, o: u32, below: u32) -> bool
    requires { is_whole table.now.beside.seen o ≡ true }
    ensures { result ≡ false → (w : ℕ) →
        is_below (rows_in table.now.threads.items o w) below ≡ true →
        is_some (rows_in table.now.threads.items t w) ≡ true }
{
    let mine = openers_of(&table.beside.seen, t);
    if has_others(openers_of(&table.beside.seen, o), mine, o) {
        return true;
    }
    !is_in(mine, o) && is_led(table, o, o, below)
}

// Thread t gains what the event, of another thread, brings, where that may be news.
#[inline(always)]
fn gain_news(
    table: &mut Table,
    t: u32,
    last: Last,
    place: u32,
    news: bool,
) -> Result<(), AllocError>
    requires actor { t < vec_len table.old.threads }
    requires other { last.thread ≢ t }
    requires known { news ≡ false → (w : ℕ) →
        is_below (rows_in table.old.threads.items last.thread w) last.count ≡ true →
        is_some (rows_in table.old.threads.items t w) ≡ true }
    ensures gains { OnOk result (TakesRow (rows_in table.old.threads.items)
        (rows_in table.new.threads.items) place t last.thread last.count) }
    ensures same { HaveSameBlocks table.old.threads.items table.new.threads.items }
    ensures room { vec_len table.new.threads ≡ vec_len table.old.threads }
{
    if !news {
        return Ok(());
    }
    gain(table, t, last.thread, last.count, place)?;
    Ok(())
}

// Below which place a block has to lead to the event's thread, so that thread t takes it: 0, which is below no place, where the
// event is its own. So one comparison says of most events that nothing is taken.
#[inline(always)]
fn place_for(last: Last, t: u32) -> u32
    ensures own { last.thread ≡ t → result ≡ 0 }
    ensures other { last.thread ≢ t → result ≡ last.count }
{
    if last.thread == t { 0 } else { last.count }
}

/// Whether an open block may lead to the event, which is of another thread than `t`.
#[inline(always)]
pub(crate) fn may_be_led(table: &Table, last: Last, t: u32) -> bool
    ensures other { result ≡ true → last.thread ≢ t }
    ensures there { result ≡ true → 0 < last.count }
    ensures unled { result ≡ false → last.thread ≢ t → (w : ℕ) →
        is_below (rows_in table.now.threads.items last.thread w) last.count ≡ false }
{
    !is_low(&table.beside.lows, last.thread, place_for(last, t))
}

/// Thread `t` takes what leads to the event, from this place on, unless the event is its own, or
/// its own open block leads there: then it returns true.
#[inline(always)]
pub(crate) fn take(table: &mut Table, t: u32, last: Last, place: u32) -> Result<bool, AllocError>
    requires { t < vec_len table.old.threads }
    ensures closing { IfOk result (λ closes. closes ≡ leads_to (rows_in table.old.threads.items) t t
        last) }
    ensures takes { IfOk result (λ closes. closes ≡ false →
        TakesAll (rows_in table.old.threads.items) (rows_in table.new.threads.items) place t
        (last ∷ [])) }
    ensures same { HaveSameBlocks table.old.threads.items table.new.threads.items }
    ensures room { vec_len table.new.threads ≡ vec_len table.old.threads }
{
    if !may_be_led(table, last, t) {
        return Ok(false);
    }
    let brought = brings(table, t, last.thread, last.count);
    if brought.closes {
        return Ok(true);
    }
    gain_news(table, t, last, place, brought.news)?;
    Ok(false)
}

/// The same of the last reads of a variable, of which the latest stands alone.
pub(crate) fn take_reads(
    table: &mut Table,
    t: u32,
    others: &[Last],
    latest: Last,
    place: u32,
) -> Result<bool, AllocError>
    requires { t < vec_len table.old.threads }
    ensures closing { IfOk result (λ closes. closes ≡ leads_to_any (rows_in table.old.threads.items)
        t t (others.now ++ if_any latest)) }
    ensures takes { IfOk result (λ closes. closes ≡ false →
        TakesAll (rows_in table.old.threads.items) (rows_in table.new.threads.items) place t
        (others.now ++ if_any latest)) }
    ensures same { HaveSameBlocks table.old.threads.items table.new.threads.items }
    ensures room { vec_len table.new.threads ≡ vec_len table.old.threads }
{
    if take_all(table, t, others, place)? {
        return Ok(true);
    }
    let closes = take(table, t, latest, place)?;
    Ok(closes)
}

// The same of each of these events in turn.
fn take_all(table: &mut Table, t: u32, lasts: &[Last], place: u32) -> Result<bool, AllocError>
    requires { t < vec_len table.old.threads }
    ensures closing { IfOk result (λ closes. closes ≡ leads_to_any (rows_in table.old.threads.items)
        t t lasts.now) }
    ensures takes { IfOk result (λ closes. closes ≡ false →
        TakesAll (rows_in table.old.threads.items) (rows_in table.new.threads.items) place t
        lasts.now) }
    ensures same { HaveSameBlocks table.old.threads.items table.new.threads.items }
    ensures room { vec_len table.new.threads ≡ vec_len table.old.threads }
{
    for last in lasts.iter() {
        if take(table, t, *last, place)? {
            return Ok(true);
        }
    }
    Ok(false)
}

/// Thread `t` begins a block at this place.
pub(crate) fn begin(table: &mut Table, t: u32, place: u32) -> Result<(), AllocError>
    requires actor { t < vec_len table.old.threads }
    requires count { thread_begins (slice_get table.old.threads.items t) < 2 ^ 32 - 1 }
    ensures begins { OnOk result (BeginsBlock table.old.threads.items table.new.threads.items t
        place) }
    ensures err { OnErr result (HaveSameBlocks table.old.threads.items table.new.threads.items) }
    ensures room { vec_len table.new.threads ≡ vec_len table.old.threads }
{
    let is_new = has_no_own(table, t);
    let Ok(()) = thread::begin(&mut table.threads, t, place, is_new) else {
        forget_beside(&mut table.beside);
        return Err(AllocError);
    };
    see_own(&mut table.beside.seen, t);
    lower(&mut table.beside.lows, t, place);
    raise_high(&mut table.beside.highs, t, place);
    note_begin(&mut table.beside.passed, &table.led, t, place);
    Ok(())
}

// Where it is true, the row of thread `t` is known to have no block of its own.
fn has_no_own(table: &Table, t: u32) -> bool
    ensures { result ≡ true → is_some (rows_in table.now.threads.items t t) ≡ false }
{
    is_whole(&table.beside.seen, t) && !is_in(openers_of(&table.beside.seen, t), t)
}

/// The least thread whose open block closes a cycle through that of thread `t`.
pub(crate) fn least_back(table: &mut Table, t: u32) -> Result<Option<u32>, AllocError>
    ensures least { IfOk result (IsLeastBack (rows_in table.new.threads.items) t) }
    ensures same { table.new.threads ≡ table.old.threads }
{
    if is_whole(&table.beside.seen, t) {
        let into = openers_of(&table.beside.seen, t);
        return Ok(least_known(&table.threads, t, into, &table.led));
    }
    thread::least_back(&table.threads, t, &mut table.led)
}

/// Thread `t` ends its block: what leads to the block leads to all that the block led to.
pub(crate) fn end(table: &mut Table, t: u32) -> Result<(), AllocError>
    requires { t < vec_len table.old.threads }
    ensures ends { OnOk result (EndsBlock table.old.threads.items table.new.threads.items t) }
    ensures err { OnErr result (HaveSameBlocks table.old.threads.items table.new.threads.items) }
    ensures room { vec_len table.new.threads ≡ vec_len table.old.threads }
{
    let later = not_passed(table, t)?;
    let mut row = take_row(&mut table.threads, t);
    let own = settle(&mut row, t, high_place(&table.beside.highs, t));
    let Ok(()) = spread(&mut table.threads, &later, t, &mut table.led, &table.beside) else {
        forget_beside(&mut table.beside);
        return Err(AllocError);
    };
    put_row(&mut table.threads, t, row);
    leave(&mut table.threads, t);
    unsee_all(&mut table.beside.seen, &table.led, t, &later);
    raise_all(&mut table.beside.lows, &table.threads, &table.led, t);
    settle_high(&mut table.beside.highs, t, own);
    forget(&mut table.led, t);
    Ok(())
}

// What leads to thread t, and hasn't been passed on yet to the threads to which its open block leads.
fn not_passed(table: &Table, t: u32) -> Result<Vec<Lead>, AllocError>
    ensures { IfOk result (λ ls. ls.items ≡ leads_since t (passed_of table.now.beside.passed t)
        (thread_row (slice_get table.now.threads.items t))) }
{
    let alloc = *table.threads.allocator();
    let place = passed_before(&table.beside.passed, t);
    let high = high_place(&table.beside.highs, t);
    let later = since(row_of(&table.threads, t), high, t, place, alloc)?;
    Ok(later)
}

/// Thread `t` has made an event.
pub(crate) fn act(table: &mut Table, t: u32)
    requires { t < vec_len table.old.threads }
    ensures rows { (o w : ℕ) → rows_in table.new.threads.items o w ≡ rows_in table.old.threads.items
        o w }
    ensures in_block { (u : ℕ) → thread_in_block (slice_get table.new.threads.items u) ≡
        thread_in_block (slice_get table.old.threads.items u) }
    ensures begins { (u : ℕ) → thread_begins (slice_get table.new.threads.items u) ≡
        thread_begins (slice_get table.old.threads.items u) }
    ensures acted { (u : ℕ) → thread_acted (slice_get table.new.threads.items u) ≡
        (if t == u then true else thread_acted (slice_get table.old.threads.items u)) }
{
    thread::act(&mut table.threads, t);
}
