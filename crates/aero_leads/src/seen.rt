//! Which open blocks are known to lead to a thread, so that a long row isn't gone through for each
//! block that may be new in it. Of most long rows all are known.
ghost use Rattle.std.specs.Prelude.{◌≡◌, ◌==◌, ◌&&◌, ◌||◌, ◌<◌, ◌≢◌, ℕ, true, false, is_some, OnOk, vec_len, slice_get, if◌then◌else◌};
ghost use Rattle.aero_leads.specs.Kept.{least_in, is_below};
ghost use Rattle.aero_leads.specs.Listed.{is_listed};
ghost use Rattle.aero_leads.specs.Seen.{is_seen, seen_at, openers_in, is_whole, whole_in, AreSeen, IsWhole};

use crate::led::{Led, count, follower};
use crate::news::has_others;
use crate::row::{Lead, SHORT, unless};
use crate::thread::{Thread, row_of};
use std::alloc::{AllocError, Global};
use std::mem;

/// For each opener, by the thread's number, whether its block is known to lead to one thread. Where the row is whole, no
/// other block does.
#[derive(Drop)]
pub struct SeenRow {
    pub openers: Vec<bool>,
    pub whole: bool,
}

/// The same for each thread, by its number. Of what isn't known it says nothing.
#[derive(Drop)]
pub struct Seen {
    pub rows: Vec<SeenRow>,
}

/// Nothing is known.
pub(crate) fn nothing_seen(alloc: Global) -> Seen
    ensures seen { (o w : ℕ) → is_seen result o w ≡ false }
    ensures whole { (o : ℕ) → is_whole result o ≡ false }
{
    Seen {
        rows: Vec::new(alloc),
    }
}

/// Nothing is known any more.
pub(crate) fn forget_all(seen: &mut Seen)
    ensures seen { (o w : ℕ) → is_seen seen.new o w ≡ false }
    ensures whole { (o : ℕ) → is_whole seen.new o ≡ false }
{
    seen.rows.clear();
}

/// Where it is true, each block that leads to an event of the other row's thread below a place is known to
/// lead to thread `t`.
pub(crate) fn has_seen(seen: &Seen, t: u32, other: &[Lead], below: u32) -> bool
    ensures { result ≡ true → (w : ℕ) → is_below (least_in other.now w) below ≡ true →
        is_seen seen.now t w ≡ true }
{
    let openers = openers_of(seen, t);
    for lead in other.iter() {
        if lead.place < below && !is_in(openers, lead.opener) {
            return false;
        }
    }
    true
}

/// Whether all blocks that lead to thread `t` are known.
pub(crate) fn is_whole(seen: &Seen, t: u32) -> bool
    ensures { result ≡ is_whole seen.now t }
{
    match seen.rows.get(t as usize) {
        Some(row) => row.whole,
        None => false,
    }
}

/// What is known to lead to thread `t`.
pub(crate) fn openers_of(seen: &Seen, t: u32) -> &[bool]
    ensures { result.now ≡ openers_in (slice_get seen.now.rows.items t) }
{
    match seen.rows.get(t as usize) {
        Some(row) => &row.openers,
        None => &[],
    }
}

/// Whether the block of thread `w` is among these.
pub(crate) fn is_in(openers: &[bool], w: u32) -> bool
    ensures { result ≡ seen_at openers.now w }
{
    match openers.get(w as usize) {
        Some(is_seen) => *is_seen,
        None => false,
    }
}

// How many places there are for each lead of a row, at most.
const PLACES: usize = 12;

/// What leads to thread `t` is known from now on, where its row is long and memory isn't refused. No more than
/// twelve bytes are taken for each lead: blocks of threads with a greater number aren't known, and then the row isn't whole.
pub(crate) fn see_all(seen: &mut Seen, threads: &[Thread], t: u32)
    ensures so { AreSeen threads.now seen.old → AreSeen threads.now seen.new }
    ensures whole { is_whole seen.new t ≡ true → IsWhole threads.now seen.new t }
    ensures others { (o w : ℕ) → o ≢ t → is_seen seen.new o w ≡ is_seen seen.old o w }
    ensures whole_others { (o : ℕ) → o ≢ t → is_whole seen.new o ≡ is_whole seen.old o }
{
    let row = row_of(threads, t);
    if row.len() <= SHORT || reach(&mut seen.rows, t).is_err() {
        break_row(seen, t);
        return;
    }
    let places = row.len().saturating_mul(PLACES).min(threads.len());
    see_row(&mut seen.rows[t as usize], row, places);
}

fn reach(rows: &mut Vec<SeenRow>, t: u32) -> Result<(), AllocError>
    ensures room { OnOk result (t < vec_len rows.new) }
    ensures same { (o : ℕ) → openers_in (slice_get rows.new.items o) ≡
        openers_in (slice_get rows.old.items o) }
    ensures whole { (o : ℕ) → whole_in (slice_get rows.new.items o) ≡
        whole_in (slice_get rows.old.items o) }
{
    let at = t as usize;
    while rows.len() <= at {
        let alloc = *rows.allocator();
        rows.push(SeenRow {
            openers: Vec::new(alloc),
            whole: false,
        })?;
    }
    Ok(())
}

// More may lead to thread t than is known.
fn break_row(seen: &mut Seen, t: u32)
    ensures seen { (o w : ℕ) → is_seen seen.new o w ≡ is_seen seen.old o w }
    ensures here { is_whole seen.new t ≡ false }
    ensures others { (o : ℕ) → o ≢ t → is_whole seen.new o ≡ is_whole seen.old o }
{
    if (t as usize) < seen.rows.len() {
        seen.rows[t as usize].whole = false;
    }
}

// The openers of the row that have a place among so many.
fn see_row(known: &mut SeenRow, row: &[Lead], places: usize)
    ensures so { (w : ℕ) → seen_at known.new.openers.items w ≡ true →
        (seen_at known.old.openers.items w || is_some (least_in row.now w)) ≡ true }
    ensures whole { known.new.whole ≡ true → (w : ℕ) → is_some (least_in row.now w) ≡ true →
        seen_at known.new.openers.items w ≡ true }
{
    known.whole = false;
    if widen(&mut known.openers, places).is_err() {
        return;
    }
    known.whole = see_each(&mut known.openers, row);
}

fn widen(openers: &mut Vec<bool>, places: usize) -> Result<(), AllocError>
    ensures { (w : ℕ) → seen_at openers.new.items w ≡ seen_at openers.old.items w }
{
    while openers.len() < places {
        openers.push(false)?;
    }
    Ok(())
}

// The openers of the row that have a place. Whether all have one.
fn see_each(openers: &mut Vec<bool>, row: &[Lead]) -> bool
    ensures kept { (w : ℕ) → seen_at openers.old.items w ≡ true →
        seen_at openers.new.items w ≡ true }
    ensures so { (w : ℕ) → seen_at openers.new.items w ≡ true →
        (seen_at openers.old.items w || is_some (least_in row.now w)) ≡ true }
    ensures whole { result ≡ true → (w : ℕ) → is_some (least_in row.now w) ≡ true →
        seen_at openers.new.items w ≡ true }
{
    let mut all = true;
    for lead in row.iter() {
        all = see_too(all, openers, lead.opener);
    }
    all
}

// One more opener. Whether this one has a place, and all before it had.
fn see_too(all: bool, openers: &mut Vec<bool>, opener: u32) -> bool
    ensures others { (w : ℕ) → w ≢ opener →
        seen_at openers.new.items w ≡ seen_at openers.old.items w }
    ensures so { (w : ℕ) → seen_at openers.new.items w ≡ true →
        (seen_at openers.old.items w || (opener == w)) ≡ true }
    ensures kept { (w : ℕ) → seen_at openers.old.items w ≡ true →
        seen_at openers.new.items w ≡ true }
    ensures before { result ≡ true → all ≡ true }
    ensures here { result ≡ true → seen_at openers.new.items opener ≡ true }
{
    see(openers, opener) && all
}

// The opener is known, where there is a place for it.
fn see(openers: &mut Vec<bool>, opener: u32) -> bool
    ensures others { (w : ℕ) → w ≢ opener →
        seen_at openers.new.items w ≡ seen_at openers.old.items w }
    ensures so { (w : ℕ) → seen_at openers.new.items w ≡ true →
        (seen_at openers.old.items w || (opener == w)) ≡ true }
    ensures kept { (w : ℕ) → seen_at openers.old.items w ≡ true →
        seen_at openers.new.items w ≡ true }
    ensures here { result ≡ true → seen_at openers.new.items opener ≡ true }
{
    if (opener as usize) < openers.len() {
        openers[opener as usize] = true;
        return true;
    }
    false
}

/// Makes room for so many openers, as far as a row with so many leads may take it, and memory isn't refused.
pub(crate) fn widen_for(known: &mut SeenRow, openers: usize, leads: usize)
    ensures same { (w : ℕ) → seen_at known.new.openers.items w ≡ seen_at known.old.openers.items w }
    ensures whole { known.new.whole ≡ known.old.whole }
{
    let places = leads.saturating_mul(PLACES).min(openers);
    let _ = widen(&mut known.openers, places);
}

/// Takes out what is known to lead to thread `t`. Of others the same is known.
pub(crate) fn take_known(seen: &mut Seen, t: u32) -> SeenRow
    ensures openers { result.openers.items ≡ openers_in (slice_get seen.old.rows.items t) }
    ensures whole { result.whole ≡ is_whole seen.old t }
    ensures others { (o w : ℕ) → o ≢ t → is_seen seen.new o w ≡ is_seen seen.old o w }
    ensures whole_others { (o : ℕ) → o ≢ t → is_whole seen.new o ≡ is_whole seen.old o }
{
    let alloc = *seen.rows.allocator();
    let nothing = SeenRow {
        openers: Vec::new(alloc),
        whole: false,
    };
    if (t as usize) < seen.rows.len() {
        return mem::replace(&mut seen.rows[t as usize], nothing);
    }
    nothing
}

/// Gives thread `t` this back.
pub(crate) fn put_known(seen: &mut Seen, t: u32, known: SeenRow)
    ensures so { (w : ℕ) → is_seen seen.new t w ≡ true → seen_at known.openers.items w ≡ true }
    ensures whole { is_whole seen.new t ≡ true → known.whole ≡ true }
    ensures here { is_whole seen.new t ≡ true → (w : ℕ) → seen_at known.openers.items w ≡ true →
        is_seen seen.new t w ≡ true }
    ensures others { (o w : ℕ) → o ≢ t → is_seen seen.new o w ≡ is_seen seen.old o w }
    ensures whole_others { (o : ℕ) → o ≢ t → is_whole seen.new o ≡ is_whole seen.old o }
{
    if (t as usize) < seen.rows.len() {
        seen.rows[t as usize] = known;
    }
}

/// The block of thread `t` begins, and leads to the thread. That is known where there is a place for it, and else the row
/// isn't whole.
pub(crate) fn see_own(seen: &mut Seen, t: u32)
    ensures so { (o w : ℕ) → is_seen seen.new o w ≡ true →
        (is_seen seen.old o w || ((o == t) && (t == w))) ≡ true }
    ensures kept { (o w : ℕ) → is_seen seen.old o w ≡ true → is_seen seen.new o w ≡ true }
    ensures whole { (o : ℕ) → is_whole seen.new o ≡ true → is_whole seen.old o ≡ true }
    ensures own { is_whole seen.new t ≡ true → is_seen seen.new t t ≡ true }
{
    if (t as usize) < seen.rows.len() {
        see_one(&mut seen.rows[t as usize], t);
    }
}

/// The same of one opener, in a row that was taken out.
pub(crate) fn see_one(known: &mut SeenRow, w: u32)
    ensures others { (v : ℕ) → v ≢ w →
        seen_at known.new.openers.items v ≡ seen_at known.old.openers.items v }
    ensures so { (v : ℕ) → seen_at known.new.openers.items v ≡ true →
        (seen_at known.old.openers.items v || (w == v)) ≡ true }
    ensures kept { (v : ℕ) → seen_at known.old.openers.items v ≡ true →
        seen_at known.new.openers.items v ≡ true }
    ensures whole { known.new.whole ≡ true → known.old.whole ≡ true }
    ensures here { known.new.whole ≡ true → seen_at known.new.openers.items w ≡ true }
{
    known.whole = see_too(known.whole, &mut known.openers, w);
}

/// The block of thread `w` is open no more: it isn't known to lead to a thread that is listed with it, nor to itself. To a
/// thread to which it led these lead as well, from now on. That is known where there is a place for it, and else the row isn't
/// whole.
pub(crate) fn unsee_all(seen: &mut Seen, led: &Led, w: u32, later: &[Lead])
    requires { is_whole seen.old w ≡ true → (v : ℕ) → v ≢ w →
        is_some (least_in later.now v) ≡ true → is_seen seen.old w v ≡ true }
    ensures so { (o v : ℕ) → is_seen seen.new o v ≡ true →
        (is_seen seen.old o v || (is_seen seen.old o w && is_some (least_in later.now v))) ≡ true }
    ensures kept { (o v : ℕ) → v ≢ w → is_seen seen.old o v ≡ true → is_seen seen.new o v ≡ true }
    ensures own { is_seen seen.new w w ≡ false }
    ensures listed { (o : ℕ) → is_listed led.now w o ≡ true → is_seen seen.new o w ≡ false }
    ensures whole { (o : ℕ) → is_whole seen.new o ≡ true → is_whole seen.old o ≡ true }
    ensures handed { (o v : ℕ) → o ≢ w → is_listed led.now w o ≡ true →
        is_seen seen.old o w ≡ true → is_whole seen.new o ≡ true → v ≢ w →
        is_some (least_in later.now v) ≡ true → is_seen seen.new o v ≡ true }
{
    unsee(seen, w, w, &[]);
    let listed = count(led, w);
    for i in 0..listed {
        unsee_next(seen, follower(led, w, i), w, later);
    }
}

// The same of one thread that is listed with the block. Nothing is handed on to it where all of that is known to lead there.
fn unsee_next(seen: &mut Seen, o: u32, w: u32, later: &[Lead])
    requires { is_whole seen.old w ≡ true → (v : ℕ) → v ≢ w →
        is_some (least_in later.now v) ≡ true → is_seen seen.old w v ≡ true }
    ensures so { (v : ℕ) → is_seen seen.new o v ≡ true →
        (is_seen seen.old o v || (is_seen seen.old o w && is_some (least_in later.now v))) ≡ true }
    ensures kept { (v : ℕ) → v ≢ w → is_seen seen.old o v ≡ true → is_seen seen.new o v ≡ true }
    ensures gone { is_seen seen.new o w ≡ false }
    ensures whole { is_whole seen.new o ≡ true → is_whole seen.old o ≡ true }
    ensures handed { is_seen seen.old o w ≡ true → is_whole seen.new o ≡ true → (v : ℕ) → v ≢ w →
        is_some (least_in later.now v) ≡ true → is_seen seen.new o v ≡ true }
    ensures others { (u v : ℕ) → u ≢ o → is_seen seen.new u v ≡ is_seen seen.old u v }
    ensures whole_others { (u : ℕ) → u ≢ o → is_whole seen.new u ≡ is_whole seen.old u }
{
    let all = knows_these(seen, o, w, later);
    unsee(seen, o, w, unless(all, later));
}

// Where it is true, these blocks, which lead to thread w, are known to lead to thread o. Where there is none, it isn't looked up.
fn knows_these(seen: &Seen, o: u32, w: u32, later: &[Lead]) -> bool
    requires { is_whole seen.now w ≡ true → (v : ℕ) → v ≢ w →
        is_some (least_in later.now v) ≡ true → is_seen seen.now w v ≡ true }
    ensures { result ≡ true → (v : ℕ) → v ≢ w → is_some (least_in later.now v) ≡ true →
        is_seen seen.now o v ≡ true }
{
    !later.is_empty() && knows_all(seen, o, w)
}

/// Where it is true, all that leads to thread `w` is known, and all of it but the thread's own block is known to lead to thread `o`.
pub(crate) fn knows_all(seen: &Seen, o: u32, w: u32) -> bool
    ensures whole { result ≡ true → is_whole seen.now w ≡ true }
    ensures there { result ≡ true → (v : ℕ) → v ≢ w → is_seen seen.now w v ≡ true →
        is_seen seen.now o v ≡ true }
{
    is_whole(seen, w) && !has_others(openers_of(seen, w), openers_of(seen, o), w)
}

// The block of thread w isn't known to lead to thread o. If it was, these are, as far as there is a place for them.
fn unsee(seen: &mut Seen, o: u32, w: u32, later: &[Lead])
    ensures so { (v : ℕ) → is_seen seen.new o v ≡ true →
        (is_seen seen.old o v || (is_seen seen.old o w && is_some (least_in later.now v))) ≡ true }
    ensures kept { (v : ℕ) → v ≢ w → is_seen seen.old o v ≡ true → is_seen seen.new o v ≡ true }
    ensures gone { is_seen seen.new o w ≡ false }
    ensures whole { is_whole seen.new o ≡ true → is_whole seen.old o ≡ true }
    ensures handed { is_seen seen.old o w ≡ true → is_whole seen.new o ≡ true → (v : ℕ) → v ≢ w →
        is_some (least_in later.now v) ≡ true → is_seen seen.new o v ≡ true }
    ensures others { (u v : ℕ) → u ≢ o → is_seen seen.new u v ≡ is_seen seen.old u v }
    ensures whole_others { (u : ℕ) → u ≢ o → is_whole seen.new u ≡ is_whole seen.old u }
{
    if (o as usize) < seen.rows.len() {
        hand_on(&mut seen.rows[o as usize], w, later);
    }
}

// The same in the row of thread o.
fn hand_on(known: &mut SeenRow, w: u32, later: &[Lead])
    ensures so { (v : ℕ) → seen_at known.new.openers.items v ≡ true →
        (seen_at known.old.openers.items v ||
        (seen_at known.old.openers.items w && is_some (least_in later.now v))) ≡ true }
    ensures kept { (v : ℕ) → v ≢ w → seen_at known.old.openers.items v ≡ true →
        seen_at known.new.openers.items v ≡ true }
    ensures gone { seen_at known.new.openers.items w ≡ false }
    ensures whole { known.new.whole ≡ true → known.old.whole ≡ true }
    ensures handed { seen_at known.old.openers.items w ≡ true → known.new.whole ≡ true → (v : ℕ) →
        v ≢ w → is_some (least_in later.now v) ≡ true → seen_at known.new.openers.items v ≡ true }
{
    if is_in(&known.openers, w) {
        known.whole = see_each(&mut known.openers, later) && known.whole;
        unset(&mut known.openers, w);
    }
}

fn unset(openers: &mut [bool], w: u32)
    ensures kept { (v : ℕ) → seen_at openers.new v ≡ true → seen_at openers.old v ≡ true }
    ensures gone { seen_at openers.new w ≡ false }
    ensures others { (v : ℕ) → v ≢ w → seen_at openers.new v ≡ seen_at openers.old v }
{
    if (w as usize) < openers.len() {
        openers[w as usize] = false;
    }
}
