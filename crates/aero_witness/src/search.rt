//! The telling cycles with the fewest visits.
ghost use Rattle.std.specs.Prelude.{◌<◌, ◌+◌, ◌^◌, length, reverse, IfOk, MatchOption};
ghost use Rattle.aero_model.specs.Blocks.{transaction};
ghost use Rattle.aero_model.specs.Graph.{BeginsCycle};
ghost use Rattle.aero_witness.specs.WayBack.{ComesBack};
ghost use Rattle.aero_witness.specs.Parts.{AreOf};
ghost use Rattle.aero_witness.specs.Basis.{IsBasis};
ghost use Rattle.aero_witness.specs.Search.{IsAt, IsEnd};
ghost use Rattle.aero_witness.specs.Telling.{IsTellingCycle, IsShortest, IsShortestLike};

use crate::basis::{Basis, basis_of};
use crate::buckets::Arrival;
use crate::reached::{Reached, reached_of};
use crate::rounds::{Search, begin, next_round};
use crate::telling::is_telling_cycle;
use crate::transactions::TransactionTable;
use crate::visit::Visit;
use aero_model::Numbered;
use std::alloc::{AllocError, Global};

/// A telling cycle with as few visits as can be, and the transactions of the events, which the search goes by.
#[derive(Drop)]
pub struct Shortest {
    pub visits: Vec<Visit>,
    pub transactions: TransactionTable,
}

/// A telling cycle of all events whose first visit is in the transaction of the event at the place
/// `begin`, where there is one. No such cycle has fewer visits. An `AllocError` where memory is refused.
pub fn shortest_cycle(
    alloc: Global,
    events: &[Numbered],
    begin: u32,
) -> Result<Vec<Visit>, AllocError>
    requires few { length events.now < 2 ^ 32 }
    requires within { begin < length events.now }
    requires begins { BeginsCycle events.now (length events.now) (transaction events.now begin) }
    ensures { IfOk result (λ visits. IsShortest events.now (transaction events.now begin)
        visits.items) }
{
    let Shortest { visits, .. } = shortest_of(alloc, events, begin)?;
    Ok(visits)
}

/// The same with the transactions of the events. An `AllocError` where memory is refused.
pub fn shortest_of(alloc: Global, events: &[Numbered], begin: u32) -> Result<Shortest, AllocError>
    requires few { length events.now < 2 ^ 32 }
    requires within { begin < length events.now }
    requires begins { BeginsCycle events.now (length events.now) (transaction events.now begin) }
    ensures visits { IfOk result (λ shortest. IsShortest events.now (transaction events.now begin)
        shortest.visits.items) }
    ensures transactions { IfOk result (λ shortest. AreOf events.now shortest.transactions) }
{
    let basis = basis_of(alloc, events, begin)?;
    let visits = search(alloc, events, &basis)?;
    let Basis { transactions, .. } = basis;
    Ok(Shortest {
        visits,
        transactions,
    })
}

/// The same for a telling cycle that is given: one with the fewest visits of those that begin in the
/// transaction of its first visit. `None` where the visits are no telling cycle. An `AllocError` where
/// memory is refused.
pub fn shorten(
    alloc: Global,
    events: &[Numbered],
    visits: &[Visit],
) -> Result<Option<Vec<Visit>>, AllocError>
    requires { length events.now < 2 ^ 32 }
    ensures { IfOk result (λ shorter. MatchOption shorter (¬ IsTellingCycle events.now visits.now)
        (λ shorter. IsTellingCycle events.now visits.now × IsShortestLike events.now visits.now
        shorter.items)) }
{
    if !is_telling_cycle(alloc, events, visits)? {
        return Ok(None);
    }
    match visits {
        [] => Ok(None),
        [first, ..] => Ok(Some(shortest_cycle(alloc, events, first.enters)?)),
    }
}

// The same, on a basis from there.
fn search(alloc: Global, events: &[Numbered], basis: &Basis) -> Result<Vec<Visit>, AllocError>
    requires few { length events.now < 2 ^ 32 }
    requires basis { IsBasis events.now basis.now }
    requires begins { BeginsCycle events.now (length events.now)
        (transaction events.now basis.now.begin) }
    ensures { IfOk result (λ visits. IsShortest events.now (transaction events.now basis.now.begin)
        visits.items) }
{
    let mut search = begin(alloc, events, basis)?;
    let arrival = last_round(alloc, events, basis, &mut search)?;
    let way_back = WayBack {
        begin: basis.begin,
        level: search.level,
        back: arrival.enters,
        out: arrival.from,
    };
    walk_back(alloc, events, &search.walks.reached, way_back)
}

// The last round, in which a walk comes back.
fn last_round(
    alloc: Global,
    events: &[Numbered],
    basis: &Basis,
    search: &mut Search,
) -> Result<Arrival, AllocError>
    requires few { length events.now < 2 ^ 32 }
    requires basis { IsBasis events.now basis.now }
    requires begins { BeginsCycle events.now (length events.now)
        (transaction events.now basis.now.begin) }
    requires at { IsAt events.now basis.now search.old }
    ensures { IfOk result (IsEnd events.now basis.now search.new) }
{
    loop {
        if let Some(arrival) = next_round(alloc, events, basis, search)? {
            return Ok(arrival);
        }
    }
}

// Where a walk comes back to the transaction of the event at `begin`: at the place `back`, from the event at the place
// `out`, which is reached with so many visits before.
#[derive(Clone, Copy)]
struct WayBack {
    begin: u32,
    level: u32,
    back: u32,
    out: u32,
}

// The visits of the walk, from the first, which comes back, to the one that leaves at the place `out`.
fn walk_back(
    alloc: Global,
    events: &[Numbered],
    reached: &[Option<Reached>],
    way_back: WayBack,
) -> Result<Vec<Visit>, AllocError>
    requires { ComesBack events.now reached.now way_back }
    ensures { IfOk result (λ visits. IsShortest events.now (transaction events.now way_back.begin)
        visits.items) }
{
    let mut visits = visits_back(alloc, events, reached, way_back)?;
    visits.reverse();
    Ok(visits)
}

// The same, from the last to the first.
fn visits_back(
    alloc: Global,
    events: &[Numbered],
    reached: &[Option<Reached>],
    way_back: WayBack,
) -> Result<Vec<Visit>, AllocError>
    requires { ComesBack events.now reached.now way_back }
    ensures { IfOk result (λ visits. IsShortest events.now (transaction events.now way_back.begin)
        (reverse visits.items)) }
{
    let mut visits = Vec::new(alloc);
    let mut leaves = way_back.out;
    while let Some(step) = reached_of(reached, leaves) {
        if step.level == 0 {
            let enters = way_back.back;
            visits.push(Visit { enters, leaves })?;
            return Ok(visits);
        }
        let enters = step.enters;
        visits.push(Visit { enters, leaves })?;
        leaves = step.from;
    }
    unreachable!()
}
