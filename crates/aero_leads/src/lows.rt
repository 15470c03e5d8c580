//! From which place on open blocks may lead to a thread, so that most events of other threads are passed over
//! without a look at the thread's row.
ghost use Rattle.std.specs.Prelude.{◌≡◌, ◌==◌, ◌≤◌, ◌<◌, ℕ, true, false, OnOk, vec_len, length, slice_get, if◌then◌else◌};
ghost use Rattle.aero_leads.specs.Kept.{least_in, is_below, thread_row};
ghost use Rattle.aero_leads.specs.Lows.{low_of, low_in, IsLow};

use crate::led::{Led, count, follower};
use crate::row::Lead;
use crate::thread::{Thread, row_of};
use std::alloc::{AllocError, Global};

/// For each thread, by its number, a place that none in its row is below. Where there is none, nothing is said.
#[derive(Drop)]
pub struct Lows {
    pub places: Vec<u32>,
}

/// Nothing is said.
pub(crate) fn no_low(alloc: Global) -> Lows
    ensures { (o : ℕ) → low_of result o ≡ 0 }
{
    Lows {
        places: Vec::new(alloc),
    }
}

/// Nothing is said any more.
pub(crate) fn forget_lows(lows: &mut Lows)
    ensures { (o : ℕ) → low_of lows.new o ≡ 0 }
{
    lows.places.clear();
}

/// Where it is true, no open block leads to an event of thread `o` below this place.
#[inline(always)]
pub(crate) fn is_low(lows: &Lows, o: u32, below: u32) -> bool
    ensures low { result ≡ true → below ≤ low_of lows.now o }
    ensures above { result ≡ false → low_of lows.now o < below }
{
    match lows.places.get(o as usize) {
        Some(low) => below <= *low,
        None => below == 0,
    }
}

/// A block leads to thread `t` from this place on.
pub(crate) fn lower(lows: &mut Lows, t: u32, place: u32)
    ensures less { (o : ℕ) → low_of lows.new o ≤ low_of lows.old o }
    ensures place { low_of lows.new t ≤ place }
{
    if (t as usize) < lows.places.len() {
        let low = lows.places[t as usize];
        lows.places[t as usize] = low.min(place);
    }
}

/// The block of thread `w` is open no more, so that the rows of the threads that are listed with it, and its own
/// thread's, may begin later. What was kept for them stays true.
pub(crate) fn raise_all(lows: &mut Lows, threads: &[Thread], led: &Led, w: u32)
    ensures kept { (o : ℕ) → IsLow threads.now lows.old o → IsLow threads.now lows.new o }
    ensures own { length (thread_row (slice_get threads.now w)) ≤ 32 →
        IsLow threads.now lows.new w }
{
    raise_seldom(lows, threads, w);
    let listed = count(led, w);
    for i in 0..listed {
        raise_seldom(lows, threads, follower(led, w, i));
    }
}

// A row of up to so many blocks is gone through whenever one of them ends.
const FEW: usize = 32;

// A longer row is gone through where its length has come to a power of two. So of all that it loses, each costs no more than
// two looks.
fn raise_seldom(lows: &mut Lows, threads: &[Thread], o: u32)
    ensures kept { (u : ℕ) → IsLow threads.now lows.old u → IsLow threads.now lows.new u }
    ensures here { length (thread_row (slice_get threads.now o)) ≤ 32 →
        IsLow threads.now lows.new o }
{
    let left = row_of(threads, o).len();
    if left <= FEW || left.is_power_of_two() {
        raise(lows, threads, o);
    }
}

// The least place of thread o's row is kept, where memory isn't refused.
fn raise(lows: &mut Lows, threads: &[Thread], o: u32)
    ensures kept { (u : ℕ) → IsLow threads.now lows.old u → IsLow threads.now lows.new u }
    ensures here { IsLow threads.now lows.new o }
{
    let low = least_place(row_of(threads, o));
    if enter_low(lows, o, low).is_err() {
        forget_lows(lows);
    }
}

fn enter_low(lows: &mut Lows, o: u32, low: u32) -> Result<(), AllocError>
    ensures { OnOk result ((u : ℕ) →
        low_of lows.new u ≡ (if u == o then low else low_of lows.old u)) }
{
    reach(&mut lows.places, o)?;
    lows.places[o as usize] = low;
    Ok(())
}

fn reach(places: &mut Vec<u32>, o: u32) -> Result<(), AllocError>
    ensures room { OnOk result (o < vec_len places.new) }
    ensures same { (u : ℕ) → low_in (slice_get places.new.items u) ≡
        low_in (slice_get places.old.items u) }
{
    let at = o as usize;
    while places.len() <= at {
        places.push(0)?;
    }
    Ok(())
}

// A place that none in the row is below.
fn least_place(row: &[Lead]) -> u32
    ensures { (w : ℕ) → is_below (least_in row.now w) result ≡ false }
{
    let mut least = u32::MAX;
    for lead in row.iter() {
        least = least.min(lead.place);
    }
    least
}
