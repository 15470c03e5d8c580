//! What the open blocks have passed on to the threads that they lead to, so that an end passes on only what came later.
ghost use Rattle.std.specs.Prelude.{◌≡◌, ◌≢◌, ◌==◌, ◌≤◌, ◌<◌, ◌&&◌, not, nat_lt, [], ℕ, true, false, None, Some, OnOk, IfOk, vec_len, slice_get, if◌then◌else◌};
ghost use Rattle.aero_leads.specs.Listed.{is_listed};
ghost use Rattle.aero_leads.specs.Highs.{IsHigh};
ghost use Rattle.aero_leads.specs.Passed.{passed_of, passed_in, is_early, leads_since};
ghost use Rattle.aero_leads.specs.Single.{IsSingle};

use crate::highs::is_up_to;
use crate::led::{Led, count};
use crate::row::Lead;
use std::alloc::{AllocError, Global};

/// For each thread, by its number, a place: what leads to an event of the thread below it leads to each thread to which
/// the thread's open block leads, and no later than that. Where there is none, nothing is said. And a place that none in
/// any row comes after, where one is known.
#[derive(Drop)]
pub struct Passed {
    pub places: Vec<u32>,
    pub latest: Option<u32>,
}

/// There is no row.
pub(crate) fn no_place(alloc: Global) -> Passed
    ensures places { (t : ℕ) → passed_of result t ≡ 0 }
    ensures latest { result.latest ≡ Some 0 }
{
    Passed {
        places: Vec::new(alloc),
        latest: Some(0),
    }
}

/// Nothing is said any more.
pub(crate) fn forget_places(passed: &mut Passed)
    ensures places { (t : ℕ) → passed_of passed.new t ≡ 0 }
    ensures latest { passed.new.latest ≡ None }
{
    passed.places.clear();
    passed.latest = None;
}

/// The place that is kept for thread `t`, or 0.
pub(crate) fn passed_before(passed: &Passed, t: u32) -> u32
    ensures { result ≡ passed_of passed.now t }
{
    match passed.places.get(t as usize) {
        Some(place) => *place,
        None => 0,
    }
}

/// What led to an event of thread `t` below this place has been passed on, and no more is known.
pub(crate) fn lower_place(passed: &mut Passed, t: u32, place: u32)
    ensures less { (u : ℕ) → passed_of passed.new u ≤ passed_of passed.old u }
    ensures place { passed_of passed.new t ≤ place }
    ensures latest { passed.new.latest ≡ passed.old.latest }
{
    if (t as usize) < passed.places.len() {
        let known = passed.places[t as usize];
        passed.places[t as usize] = known.min(place);
    }
}

/// More leads to thread `t` from this place on, and isn't passed on to those that are listed with it.
pub(crate) fn note_gain(passed: &mut Passed, led: &Led, t: u32, place: u32)
    ensures less { (u : ℕ) → passed_of passed.new u ≤ passed_of passed.old u }
    ensures own { (o : ℕ) → is_listed led.now t o ≡ true → passed_of passed.new t ≤ place }
    ensures later { (u p : ℕ) → 0 < passed_of passed.new u → is_early passed.old.latest p ≡ true →
        p ≤ place }
    ensures early { (p : ℕ) → is_early passed.old.latest p ≡ true →
        is_early passed.new.latest p ≡ true }
    ensures latest { is_early passed.new.latest place ≡ true }
{
    if count(led, t) > 0 {
        lower_place(passed, t, place);
    }
    note_latest(passed, place);
}

/// Thread `t` begins a block at this place. Where no thread is listed with it, the block leads to no other.
pub(crate) fn note_begin(passed: &mut Passed, led: &Led, t: u32, place: u32)
    ensures others { (u : ℕ) → u ≢ t → passed_of passed.new u ≤ passed_of passed.old u }
    ensures own { (o : ℕ) → is_listed led.now t o ≡ true → passed_of passed.new t ≡ 0 }
    ensures early { (p : ℕ) → is_early passed.old.latest p ≡ true →
        is_early passed.new.latest p ≡ true }
    ensures latest { is_early passed.new.latest place ≡ true }
{
    let before = if count(led, t) == 0 { u32::MAX } else { 0 };
    if enter(passed, t, before).is_err() {
        forget_places(passed);
    }
    note_latest(passed, place);
}

// A row has this place. Nothing is said any more where it isn't known to be the latest.
fn note_latest(passed: &mut Passed, place: u32)
    ensures less { (u : ℕ) → passed_of passed.new u ≤ passed_of passed.old u }
    ensures later { (u p : ℕ) → 0 < passed_of passed.new u → is_early passed.old.latest p ≡ true →
        p ≤ place }
    ensures early { (p : ℕ) → is_early passed.old.latest p ≡ true →
        is_early passed.new.latest p ≡ true }
    ensures latest { is_early passed.new.latest place ≡ true }
{
    match passed.latest {
        Some(latest) if latest <= place => passed.latest = Some(place),
        _ => forget_places(passed),
    }
}

fn enter(passed: &mut Passed, t: u32, before: u32) -> Result<(), AllocError>
    ensures entered { OnOk result ((u : ℕ) →
        passed_of passed.new u ≡ (if u == t then before else passed_of passed.old u)) }
    ensures latest { passed.new.latest ≡ passed.old.latest }
{
    reach(&mut passed.places, t)?;
    passed.places[t as usize] = before;
    Ok(())
}

fn reach(places: &mut Vec<u32>, t: u32) -> Result<(), AllocError>
    ensures room { OnOk result (t < vec_len places.new) }
    ensures same { (u : ℕ) → passed_in (slice_get places.new.items u) ≡
        passed_in (slice_get places.old.items u) }
{
    let at = t as usize;
    while places.len() <= at {
        places.push(0)?;
    }
    Ok(())
}

/// The leads of this row, of which none is of thread `t`, from this place or a later one on. None in the row is above the high
/// place, where one is known.
pub(crate) fn since(
    row: &[Lead],
    high: Option<u32>,
    t: u32,
    place: u32,
    alloc: Global,
) -> Result<Vec<Lead>, AllocError>
    requires single { IsSingle row.now }
    requires high { IsHigh row.now high }
    ensures { IfOk result (λ ls. ls.items ≡ leads_since t place row.now) }
{
    if comes_before(high, place) {
        return Ok(Vec::new(alloc));
    }
    if !has_later(row, t, place) {
        return Ok(Vec::new(alloc));
    }
    gather_later(row, t, place, alloc)
}

// Where it is true, all leads of a row that has no place above the high one come before this one.
fn comes_before(high: Option<u32>, place: u32) -> bool
    ensures { result ≡ true → (p : ℕ) → is_early high p ≡ true → p < place }
{
    place > 0 && is_up_to(high, place - 1)
}

// Whether there are any, which is seldom. There is no early exit, so that many leads are looked at together.
fn has_later(row: &[Lead], t: u32, place: u32) -> bool
    ensures { result ≡ false → leads_since t place row.now ≡ [] }
{
    let mut any = false;
    for lead in row.iter() {
        any = any | is_later(lead.opener, lead.place, t, place);
    }
    any
}

fn gather_later(row: &[Lead], t: u32, place: u32, alloc: Global) -> Result<Vec<Lead>, AllocError>
    ensures { IfOk result (λ ls. ls.items ≡ leads_since t place row.now) }
{
    let mut later = Vec::new(alloc);
    for lead in row.iter() {
        if is_later(lead.opener, lead.place, t, place) {
            later.push(*lead)?;
        }
    }
    Ok(later)
}

#[inline(always)]
fn is_later(opener: u32, from: u32, t: u32, place: u32) -> bool
    ensures { result ≡ (not (opener == t) && not (nat_lt from place)) }
{
    (opener != t) & (from >= place)
}
