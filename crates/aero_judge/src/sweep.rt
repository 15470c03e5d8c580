//! Which events open blocks lead to, and what is kept with them.
ghost use Rattle.std.specs.Prelude.{◌≡◌, ◌++◌, ◌∷◌, [], ℕ, Option, Some, slice_get, if◌then◌else◌, IfOk, OnOk};
ghost use Rattle.aero_leads.specs.Leads.{is_led};
ghost use Rattle.aero_leads.specs.Leasts.{IsLeastOf};
ghost use Rattle.aero_leads.specs.Standing.{state_of};
ghost use Rattle.aero_judge.specs.Recorded.{AreMarks};
ghost use Rattle.aero_judge.specs.Swept.{AreLeasts, IsMarkedAt, items_at, one_or_none, set_places};

use aero_leads::Leads;
use aero_model::Numbered;
use std::alloc::{AllocError, Global};

/// Of each event whether an open block leads to it, where the events have these places.
pub(crate) fn marks_of(
    alloc: Global,
    leads: &Leads,
    events: &[Numbered],
    places: &[u32],
) -> Result<Vec<bool>, AllocError>
    ensures { IfOk result (λ marks. AreMarks (state_of leads.now).rows events.now places.now
        marks.items) }
{
    let mut leasts = Vec::new(alloc);
    let mut marks = Vec::with_capacity(alloc, events.len())?;
    for (i, event) in events.iter().enumerate() {
        let place = item_at(places, i);
        let mark = mark_of(leads, &mut leasts, event.thread, place)?;
        marks.push(mark)?;
    }
    Ok(marks)
}

fn item_at<T: Copy>(items: &[T], i: usize) -> Option<T>
    ensures { result ≡ slice_get items.now i }
{
    items.get(i).copied()
}

// Whether an open block leads to the event of the thread at this place. The least places of threads are looked up once.
fn mark_of(
    leads: &Leads,
    leasts: &mut Vec<Option<u32>>,
    thread: u32,
    place: Option<u32>,
) -> Result<bool, AllocError>
    requires { AreLeasts (state_of leads.now).rows leasts.old.items }
    ensures leasts { OnOk result (AreLeasts (state_of leads.now).rows leasts.new.items) }
    ensures mark { IfOk result (IsMarkedAt ((state_of leads.now).rows thread) place) }
{
    reach(leads, leasts, thread)?;
    let least = least_of(leads, leasts, thread);
    Ok(is_led(least, place))
}

// Looks up the least places of all threads up to this one.
fn reach(leads: &Leads, leasts: &mut Vec<Option<u32>>, thread: u32) -> Result<(), AllocError>
    requires { AreLeasts (state_of leads.now).rows leasts.old.items }
    ensures { OnOk result (AreLeasts (state_of leads.now).rows leasts.new.items) }
{
    while leasts.len() <= thread as usize {
        let least = leads.least_place(leasts.len() as u32);
        leasts.push(least)?;
    }
    Ok(())
}

// The least place of the thread, which may be looked up already.
fn least_of(leads: &Leads, leasts: &[Option<u32>], thread: u32) -> Option<u32>
    requires { AreLeasts (state_of leads.now).rows leasts.now }
    ensures { IsLeastOf ((state_of leads.now).rows thread) result }
{
    match leasts.get(thread as usize) {
        Some(least) => *least,
        None => leads.least_place(thread),
    }
}

// Whether both places are there, and the second isn't below the least.
fn is_led(least: Option<u32>, place: Option<u32>) -> bool
    ensures { (p : ℕ) → place ≡ Some p → result ≡ is_led least p }
{
    match (least, place) {
        (Some(least), Some(place)) => least <= place,
        _ => false,
    }
}

/// The places of the marks that are set.
pub(crate) fn set_places(alloc: Global, marks: &[bool]) -> Result<Vec<usize>, AllocError>
    ensures { IfOk result (λ set. set.items ≡ set_places marks.now) }
{
    let mut set = Vec::new(alloc);
    for (i, mark) in marks.iter().enumerate() {
        push_if(&mut set, *mark, i)?;
    }
    Ok(set)
}

fn push_if(set: &mut Vec<usize>, mark: bool, place: usize) -> Result<(), AllocError>
    ensures { OnOk result (set.new.items ≡ set.old.items ++ (if mark then place ∷ [] else [])) }
{
    if mark {
        set.push(place)?;
    }
    Ok(())
}

/// Keeps the items at these places.
pub(crate) fn keep_at<T: Copy>(
    alloc: Global,
    items: &mut Vec<T>,
    places: &[usize],
) -> Result<(), AllocError>
    ensures { OnOk result (items.new.items ≡ items_at items.old.items places.now) }
{
    let kept = items_at(alloc, items, places)?;
    *items = kept;
    Ok(())
}

fn items_at<T: Copy>(alloc: Global, items: &[T], places: &[usize]) -> Result<Vec<T>, AllocError>
    ensures { IfOk result (λ kept. kept.items ≡ items_at items.now places.now) }
{
    let mut kept = Vec::with_capacity(alloc, places.len())?;
    for place in places {
        push_some(&mut kept, item_at(items, *place))?;
    }
    Ok(kept)
}

fn push_some<T: Copy>(kept: &mut Vec<T>, item: Option<T>) -> Result<(), AllocError>
    ensures { OnOk result (kept.new.items ≡ kept.old.items ++ one_or_none item) }
{
    if let Some(item) = item {
        kept.push(item)?;
    }
    Ok(())
}
