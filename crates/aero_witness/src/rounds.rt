//! A search level by level: each round reaches with one visit more what a level leads to, until it leads back.
ghost use Rattle.std.specs.Prelude.{◌≡◌, ◌<◌, ◌+◌, ◌^◌, ℕ, if◌then◌else◌, None, Contains, length, All, OnOk, IfOk, MatchOption};
ghost use Rattle.aero_model.specs.Blocks.{transaction};
ghost use Rattle.aero_model.specs.Graph.{BeginsCycle};
ghost use Rattle.aero_witness.specs.Marks.{mark_of, source_of};
ghost use Rattle.aero_witness.specs.Basis.{IsBasis};
ghost use Rattle.aero_witness.specs.Reached.{is_noted, IsFront, IsClosed, IsArrival, AreEntered, HasNoWayBack, IsWayBack};
ghost use Rattle.aero_witness.specs.Search.{IsAt, IsAdvanced, IsRound};

use crate::basis::{Basis, is_origin};
use crate::buckets::Arrival;
use crate::chosen::choose;
use crate::left::{Left, arrivals_of, leads_back, left_of};
use crate::marks::Marks;
use crate::reached::{Reached, Walks, enter, front_of, is_noted, start};
use aero_model::Numbered;
use std::alloc::{AllocError, Global};

// The level is how many visits come before its places, which are the front. By each kind of conflict the events are left
// that no event of a lower level conflicts with.
#[derive(Drop)]
pub(crate) struct Search {
    pub walks: Walks,
    pub left: Left,
    pub level: u32,
}

// The level before the first visit, of the origin.
pub(crate) fn begin(alloc: Global, events: &[Numbered], basis: &Basis) -> Result<Search, AllocError>
    requires few { length events.now < 2 ^ 32 }
    requires basis { IsBasis events.now basis.now }
    ensures { IfOk result (IsAt events.now basis.now) }
{
    let left = left_of(alloc, events, basis)?;
    let reached = start(alloc, &basis.transactions.firsts, basis.first)?;
    let front = front_of(alloc, &reached, 0)?;
    Ok(Search {
        walks: Walks { reached, front },
        left,
        level: 0,
    })
}

// The first event of the origin that conflicts with one of this level, and the earliest such.
fn find_way_back(
    alloc: Global,
    events: &[Numbered],
    basis: &Basis,
    reached: &[Option<Reached>],
    level: u32,
) -> Result<Arrival, AllocError>
    requires few { length events.now < 2 ^ 32 }
    requires firsts { length basis.now.transactions.firsts.items ≡ length events.now }
    requires each { length reached.now ≡ length events.now }
    requires some { HasNoWayBack events.now basis.now.transactions.firsts.items basis.now.first
        (is_noted reached.now level) → ⊥ }
    ensures { IfOk result (IsWayBack events.now basis.now.transactions.firsts.items basis.now.first
        (is_noted reached.now level)) }
{
    let mut marks = Marks::new(alloc);
    for enters in 0..events.len() as u32 {
        let event = &events[enters as usize];
        if let Some(from) = origin_source(&marks, event, is_origin(basis, enters)) {
            return Ok(Arrival { enters, from });
        }
        if is_noted(reached, level, enters) {
            marks.note(event, enters)?;
        }
    }
    unreachable!()
}

// The earliest of the noted events that conflict with this one, which comes next, if it is at the origin.
fn origin_source(marks: &Marks, event: &Numbered, at_origin: bool) -> Option<u32>
    ensures { result ≡ (if at_origin then source_of (mark_of marks.now) event.now else None) }
{
    if at_origin { marks.source(event) } else { None }
}

// The same, if visits come before and there is one. All events are gone through for it only where there is.
fn way_back(
    alloc: Global,
    events: &[Numbered],
    basis: &Basis,
    search: &Search,
) -> Result<Option<Arrival>, AllocError>
    requires few { length events.now < 2 ^ 32 }
    requires basis { IsBasis events.now basis.now }
    requires at { IsAt events.now basis.now search.now }
    ensures { IfOk result (λ arrival. MatchOption arrival (0 < search.now.level →
        HasNoWayBack events.now basis.now.transactions.firsts.items basis.now.first
        (is_noted search.now.walks.reached.items search.now.level))
        (λ arrival. (0 < search.now.level) ×
        IsWayBack events.now basis.now.transactions.firsts.items basis.now.first
        (is_noted search.now.walks.reached.items search.now.level) arrival)) }
{
    if search.level == 0 || !leads_back(events, &search.walks.front, &search.left) {
        return Ok(None);
    }
    let arrival = find_way_back(alloc, events, basis, &search.walks.reached, search.level)?;
    Ok(Some(arrival))
}

fn with_one_more(level: u32, arrival: Arrival) -> Reached
    requires { level + 1 < 2 ^ 32 }
    ensures { result ≡ record { level = level + 1; enters = arrival.enters; from = arrival.from } }
{
    Reached {
        level: level + 1,
        enters: arrival.enters,
        from: arrival.from,
    }
}

// Reaches with one visit more what these lead to.
fn enter_all(
    events: &[Numbered],
    basis: &Basis,
    walks: &mut Walks,
    level: u32,
    arrivals: &[Arrival],
) -> Result<(), AllocError>
    requires few { length events.now < 2 ^ 32 }
    requires basis { IsBasis events.now basis.now }
    requires each { length walks.old.reached.items ≡ length events.now }
    requires closed { IsClosed events.now walks.old.reached.items }
    requires front { IsFront (level + 1) walks.old.reached.items walks.old.front.items }
    requires arrivals { All (IsArrival events.now level walks.old.reached.items) arrivals.now }
    requires room { level + 1 < 2 ^ 32 }
    ensures entered { OnOk result (AreEntered events.now level walks.old.reached.items arrivals.now
        walks.new.reached.items) }
    ensures front { OnOk result (IsFront (level + 1) walks.new.reached.items walks.new.front.items) }
{
    for arrival in arrivals {
        enter(events, basis, walks, with_one_more(level, *arrival))?;
    }
    Ok(())
}

// The same, in an order of its own, and without those that lead to nothing new.
fn enter_chosen(
    events: &[Numbered],
    basis: &Basis,
    walks: &mut Walks,
    level: u32,
    arrivals: &mut Vec<Arrival>,
) -> Result<(), AllocError>
    requires few { length events.now < 2 ^ 32 }
    requires basis { IsBasis events.now basis.now }
    requires each { length walks.old.reached.items ≡ length events.now }
    requires closed { IsClosed events.now walks.old.reached.items }
    requires front { IsFront (level + 1) walks.old.reached.items walks.old.front.items }
    requires arrivals { All (IsArrival events.now level walks.old.reached.items) arrivals.old.items }
    requires room { level + 1 < 2 ^ 32 }
    ensures entered { OnOk result (AreEntered events.now level walks.old.reached.items
        arrivals.old.items walks.new.reached.items) }
    ensures front { OnOk result (IsFront (level + 1) walks.new.reached.items walks.new.front.items) }
{
    choose(events, &walks.reached, arrivals);
    enter_all(events, basis, walks, level, arrivals)?;
    Ok(())
}

// Reaches with one visit more what the front leads to, which is the next front.
fn advance(
    alloc: Global,
    events: &[Numbered],
    basis: &Basis,
    search: &mut Search,
) -> Result<(), AllocError>
    requires few { length events.now < 2 ^ 32 }
    requires basis { IsBasis events.now basis.now }
    requires at { IsAt events.now basis.now search.old }
    requires room { search.old.level + 1 < 2 ^ 32 }
    ensures { OnOk result (IsAdvanced events.now basis.now search.old search.new) }
{
    let mut arrivals = arrivals_of(alloc, events, &search.walks.front, &mut search.left)?;
    search.walks.front.clear();
    enter_chosen(
        events,
        basis,
        &mut search.walks,
        search.level,
        &mut arrivals,
    )?;
    search.walks.front.sort_unstable();
    search.level += 1;
    Ok(())
}

// Where the level leads back to the origin, how a walk comes there. Else what it leads to is reached.
pub(crate) fn next_round(
    alloc: Global,
    events: &[Numbered],
    basis: &Basis,
    search: &mut Search,
) -> Result<Option<Arrival>, AllocError>
    requires few { length events.now < 2 ^ 32 }
    requires basis { IsBasis events.now basis.now }
    requires begins { BeginsCycle events.now (length events.now)
        (transaction events.now basis.now.begin) }
    requires at { IsAt events.now basis.now search.old }
    ensures { IfOk result (IsRound events.now basis.now search.old search.new) }
{
    if let Some(arrival) = way_back(alloc, events, basis, search)? {
        return Ok(Some(arrival));
    }
    advance(alloc, events, basis, search)?;
    let front: &[u32] = &search.walks.front;
    if front.is_empty() {
        unreachable!();
    }
    Ok(None)
}
