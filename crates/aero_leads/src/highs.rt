//! Up to which place open blocks come to lead to a thread, so that an end doesn't go through a row in which nothing is later
//! than the end asks for.
ghost use Rattle.std.specs.Prelude.{◌≡◌, ◌==◌, ◌≤◌, ◌<◌, ℕ, true, None, Some, OnOk, vec_len, slice_get, if◌then◌else◌};
ghost use Rattle.aero_leads.specs.Highs.{high_in, high_of};
ghost use Rattle.aero_leads.specs.Passed.{is_early};

use std::alloc::{AllocError, Global};

/// For each thread, by its number, a place that none in its row is above, where one is known.
#[derive(Drop)]
pub struct Highs {
    pub places: Vec<Option<u32>>,
}

/// Nothing is known.
pub(crate) fn no_high(alloc: Global) -> Highs
    ensures { (o : ℕ) → high_of result o ≡ None }
{
    Highs {
        places: Vec::new(alloc),
    }
}

/// Nothing is known any more.
pub(crate) fn forget_highs(highs: &mut Highs)
    ensures { (o : ℕ) → high_of highs.new o ≡ None }
{
    highs.places.clear();
}

/// Makes room for so many threads, where there was room for so many before. No block leads to a new one, so that no place in its
/// row is above 0. Where nothing is known of the threads before, nothing is kept of the new ones.
pub(crate) fn add_highs(highs: &mut Highs, before: usize, after: usize) -> Result<(), AllocError>
    ensures { (o p : ℕ) → is_early (high_of highs.old o) p ≡ true → o < before →
        is_early (high_of highs.new o) p ≡ true }
{
    if highs.places.len() != before {
        return Ok(());
    }
    while highs.places.len() < after {
        highs.places.push(Some(0))?;
    }
    Ok(())
}

/// The place that is kept for thread `o`, where one is known.
pub(crate) fn high_place(highs: &Highs, o: u32) -> Option<u32>
    ensures { result ≡ high_of highs.now o }
{
    match highs.places.get(o as usize) {
        Some(high) => *high,
        None => None,
    }
}

/// Where it is true, a row that has no place above the high one has none above this one.
pub(crate) fn is_up_to(high: Option<u32>, place: u32) -> bool
    ensures { result ≡ true → (p : ℕ) → is_early high p ≡ true → p ≤ place }
{
    match high {
        Some(high) => high <= place,
        None => false,
    }
}

/// A block leads to thread `t` from this place on.
pub(crate) fn raise_high(highs: &mut Highs, t: u32, place: u32)
    ensures more { (o p : ℕ) → is_early (high_of highs.old o) p ≡ true →
        is_early (high_of highs.new o) p ≡ true }
    ensures place { is_early (high_of highs.new t) place ≡ true }
{
    if (t as usize) < highs.places.len() {
        let high = highs.places[t as usize];
        highs.places[t as usize] = higher(high, place);
    }
}

fn higher(high: Option<u32>, place: u32) -> Option<u32>
    ensures more { (p : ℕ) → is_early high p ≡ true → is_early result p ≡ true }
    ensures place { is_early result place ≡ true }
{
    match high {
        Some(high) => Some(high.max(place)),
        None => None,
    }
}

/// The block of thread `t` is open no more, and where this is a place, none in the row of the thread is above it. That is known
/// from now on, unless memory is refused.
pub(crate) fn settle_high(highs: &mut Highs, t: u32, own: Option<u32>)
    ensures { (o p : ℕ) → is_early (high_of highs.old o) p ≡ true →
        (o ≡ t → is_early own p ≡ true) → is_early (high_of highs.new o) p ≡ true }
{
    let Some(place) = own else {
        return;
    };
    if enter_high(highs, t, place).is_err() {
        forget_highs(highs);
    }
}

fn enter_high(highs: &mut Highs, t: u32, place: u32) -> Result<(), AllocError>
    ensures { OnOk result ((o : ℕ) →
        high_of highs.new o ≡ (if o == t then Some place else high_of highs.old o)) }
{
    reach(&mut highs.places, t)?;
    highs.places[t as usize] = Some(place);
    Ok(())
}

fn reach(places: &mut Vec<Option<u32>>, t: u32) -> Result<(), AllocError>
    ensures room { OnOk result (t < vec_len places.new) }
    ensures same { (o : ℕ) → high_in (slice_get places.new.items o) ≡
        high_in (slice_get places.old.items o) }
{
    let at = t as usize;
    while places.len() <= at {
        places.push(None)?;
    }
    Ok(())
}
