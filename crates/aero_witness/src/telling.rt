//! Whether visits are a telling cycle.
ghost use Rattle.std.specs.Prelude.{◌≡◌, ◌≢◌, ◌<◌, ◌^◌, ◌↔◌, length, slice_get, option_map, Some, IfOk, MatchOption, IsTrue};
ghost use Rattle.aero_model.specs.declared.numbered.Numbered.{Numbered};
ghost use Rattle.aero_model.specs.Blocks.{transaction, HasEnded};
ghost use Rattle.aero_model.specs.Graph.{Conflict, IsVisit, IsForward, IsTelling, last_visit};
ghost use Rattle.aero_witness.specs.Parts.{AreOf, ended_test};
ghost use Rattle.aero_witness.specs.Telling.{visit_of, visits_of, IsTellingCycle};
ghost use Rattle.aero_witness.specs.Following.{Follows, AreFollowing};

use crate::conflict::conflict;
use crate::transactions::{Nest, TransactionTable, nest_of, transactions_of};
use crate::visit::Visit;
use aero_model::Numbered;
use std::alloc::{AllocError, Global};

/// Whether the visits are a telling cycle of these events, whatever places they name. An `AllocError`
/// where memory is refused.
pub fn is_telling_cycle(
    alloc: Global,
    events: &[Numbered],
    visits: &[Visit],
) -> Result<bool, AllocError>
    requires { length events.now < 2 ^ 32 }
    ensures { IfOk result (λ told. IsTrue told ↔ IsTellingCycle events.now visits.now) }
{
    let transactions = transactions_of(alloc, events)?;
    Ok(is_cycle(events, &transactions, visits))
}

// The same, where the transactions are known.
fn is_cycle(events: &[Numbered], transactions: &TransactionTable, visits: &[Visit]) -> bool
    requires { AreOf events.now transactions.now }
    ensures { IsTrue result ↔ IsTellingCycle events.now visits.now }
{
    match visits {
        [] => false,
        [first, rest @ ..] => goes_round(events, transactions, *first, rest),
    }
}

// The same of the first visit and the others.
fn goes_round(
    events: &[Numbered],
    transactions: &TransactionTable,
    first: Visit,
    rest: &[Visit],
) -> bool
    requires { AreOf events.now transactions.now }
    ensures { IsTrue result ↔ IsTelling events.now (length events.now) (visit_of first)
        (visits_of rest.now) }
{
    if !is_visit(events, transactions, first) {
        return false;
    }
    match last_of(events, transactions, first, rest) {
        Some(last) => closes(events, transactions, last, first),
        None => false,
    }
}

// The last visit, if a walk goes from the first through all others.
fn last_of(
    events: &[Numbered],
    transactions: &TransactionTable,
    first: Visit,
    rest: &[Visit],
) -> Option<Visit>
    requires of { AreOf events.now transactions.now }
    requires is { IsVisit events.now (length events.now) (visit_of first) }
    ensures { MatchOption result (¬ AreFollowing events.now (visit_of first) (visits_of rest.now))
        (λ last. AreFollowing events.now (visit_of first) (visits_of rest.now) ×
        IsVisit events.now (length events.now) (visit_of last) ×
        (visit_of last ≡ last_visit (visit_of first) (visits_of rest.now))) }
{
    let mut last = first;
    for visit in rest {
        if !follows(events, transactions, last, *visit) {
            return None;
        }
        last = *visit;
    }
    Some(last)
}

// Whether a walk goes from the first of these to the second.
fn follows(
    events: &[Numbered],
    transactions: &TransactionTable,
    first: Visit,
    second: Visit,
) -> bool
    requires of { AreOf events.now transactions.now }
    requires is { IsVisit events.now (length events.now) (visit_of first) }
    ensures { IsTrue result ↔ Follows events.now (visit_of first) (visit_of second) }
{
    conflict(events, first.leaves, second.enters)
        && is_visit(events, transactions, second)
        && is_forward(events, transactions, second)
        && are_apart(events, transactions, first, second)
}

// Whether it goes from the last back to the first.
fn closes(events: &[Numbered], transactions: &TransactionTable, last: Visit, first: Visit) -> bool
    requires of { AreOf events.now transactions.now }
    requires last { IsVisit events.now (length events.now) (visit_of last) }
    requires first { IsVisit events.now (length events.now) (visit_of first) }
    ensures { IsTrue result ↔ (Conflict events.now last.leaves first.enters ×
        (transaction events.now last.enters ≢ transaction events.now first.enters)) }
{
    conflict(events, last.leaves, first.enters) && are_apart(events, transactions, last, first)
}

// Whether both places are of one transaction.
fn is_visit(events: &[Numbered], transactions: &TransactionTable, visit: Visit) -> bool
    requires { AreOf events.now transactions.now }
    ensures { IsTrue result ↔ IsVisit events.now (length events.now) (visit_of visit) }
{
    let places = events.len();
    if places <= visit.enters as usize || places <= visit.leaves as usize {
        return false;
    }
    is_one(events, transactions, visit.enters, visit.leaves)
}

// Whether it leaves no earlier than it enters, or is of a transaction that has ended.
fn is_forward(events: &[Numbered], transactions: &TransactionTable, visit: Visit) -> bool
    requires of { AreOf events.now transactions.now }
    requires is { IsVisit events.now (length events.now) (visit_of visit) }
    ensures { IsTrue result ↔ IsForward events.now (length events.now) (visit_of visit) }
{
    visit.enters <= visit.leaves || has_ended(events, transactions, visit.enters)
}

// Whether the two are of different transactions.
fn are_apart(
    events: &[Numbered],
    transactions: &TransactionTable,
    first: Visit,
    second: Visit,
) -> bool
    requires of { AreOf events.now transactions.now }
    requires first { first.enters < length events.now }
    requires second { second.enters < length events.now }
    ensures { IsTrue result ↔ (transaction events.now first.enters ≢ transaction events.now
        second.enters) }
{
    !is_one(events, transactions, first.enters, second.enters)
}

// Whether both events are of one transaction.
fn is_one(events: &[Numbered], transactions: &TransactionTable, first: u32, second: u32) -> bool
    requires of { AreOf events.now transactions.now }
    requires first { first < length events.now }
    requires second { second < length events.now }
    ensures { IsTrue result ↔ (transaction events.now first ≡ transaction events.now second) }
{
    first_at(&transactions.firsts, first) == first_at(&transactions.firsts, second)
}

// The first place of the transaction of the event at this place.
pub(crate) fn first_at(firsts: &[u32], place: u32) -> u32
    requires { place < length firsts.now }
    ensures { slice_get firsts.now place ≡ Some result }
{
    firsts[place as usize]
}

/// Whether the transaction of the event at this place, from 0, has ended.
pub fn has_ended(events: &[Numbered], transactions: &TransactionTable, place: u32) -> bool
    requires of { AreOf events.now transactions.now }
    requires within { place < length events.now }
    ensures { IsTrue result ↔ HasEnded events.now (length events.now) (transaction events.now place) }
{
    let thread = thread_at(events, place);
    is_ended(
        &transactions.nests,
        thread,
        first_at(&transactions.firsts, place),
    )
}

fn thread_at(events: &[Numbered], place: u32) -> u32
    requires { place < length events.now }
    ensures { option_map (λ (e : Numbered). e.thread) (slice_get events.now place) ≡ Some result }
{
    events[place as usize].thread
}

fn is_ended(nests: &[Nest], thread: u32, first: u32) -> bool
    ensures { result ≡ ended_test nests.now thread first }
{
    let nest = nest_of(nests, thread);
    !(nest.depth > 0 && nest.first == first)
}
