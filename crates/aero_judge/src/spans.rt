//! From which event to which transactions go.
ghost use Rattle.std.specs.Prelude.{◌≡◌, ◌<◌, ◌==◌, ◌^◌, ℕ, if◌then◌else◌, length, slice_index, All, IfOk};
ghost use Rattle.std.specs.List.{AllZip};
ghost use Rattle.aero_witness.specs.Parts.{AreOf};
ghost use Rattle.aero_judge.specs.Spans.{AreLasts, IsSpan, IsSpanOf};

use aero_model::Numbered;
use aero_witness::{TransactionTable, Visit, has_ended};
use std::alloc::{AllocError, Global};

/// The place of a transaction's first event and, where it has ended, that of its last one.
#[derive(Clone, Copy, Debug, PartialEq, Eq)]
pub(crate) struct Span {
    pub first: u32,
    pub last: Option<u32>,
}

/// The spans of the transactions into which these visits come, in their order.
pub(crate) fn spans_of(
    alloc: Global,
    events: &[Numbered],
    transactions: &TransactionTable,
    visits: &[Visit],
) -> Result<Vec<Span>, AllocError>
    requires few { length events.now < 2 ^ 32 }
    requires of { AreOf events.now transactions.now }
    requires within { All (λ visit. visit.enters < length events.now) visits.now }
    ensures { IfOk result (λ spans. AllZip (IsSpanOf events.now) visits.now spans.items) }
{
    let lasts = lasts_of(alloc, &transactions.firsts)?;
    spans_by(alloc, events, transactions, &lasts, visits)
}

// The same, where the last place for each first one is known.
fn spans_by(
    alloc: Global,
    events: &[Numbered],
    transactions: &TransactionTable,
    lasts: &[u32],
    visits: &[Visit],
) -> Result<Vec<Span>, AllocError>
    requires of { AreOf events.now transactions.now }
    requires lasts { AreLasts transactions.now.firsts.items lasts.now }
    requires within { All (λ visit. visit.enters < length events.now) visits.now }
    ensures { IfOk result (λ spans. AllZip (IsSpanOf events.now) visits.now spans.items) }
{
    let mut spans = Vec::with_capacity(alloc, visits.len())?;
    for visit in visits {
        spans.push(span_at(events, transactions, lasts, visit.enters))?;
    }
    Ok(spans)
}

fn span_at(events: &[Numbered], transactions: &TransactionTable, lasts: &[u32], place: u32) -> Span
    requires of { AreOf events.now transactions.now }
    requires lasts { AreLasts transactions.now.firsts.items lasts.now }
    requires within { place < length events.now }
    ensures { IsSpan events.now place result }
{
    let firsts = transactions.firsts.as_slice();
    let first = firsts[place as usize];
    let last = lasts[first as usize];
    let ended = has_ended(events, transactions, place);
    Span {
        first,
        last: ended.then_some(last),
    }
}

// For each first place of a transaction the last one.
fn lasts_of(alloc: Global, firsts: &[u32]) -> Result<Vec<u32>, AllocError>
    requires few { length firsts.now < 2 ^ 32 }
    requires within { All (λ f. f < length firsts.now) firsts.now }
    ensures { IfOk result (λ lasts. AreLasts firsts.now lasts.items) }
{
    let mut lasts = vec![in alloc; 0; firsts.len()]?;
    for (place, first) in firsts.iter().enumerate() {
        put(&mut lasts, *first, place as u32);
    }
    Ok(lasts)
}

fn put(places: &mut Vec<u32>, at: u32, place: u32)
    requires { at < length places.old.items }
    ensures each { length places.new.items ≡ length places.old.items }
    ensures at { (i : ℕ) → slice_index places.new.items i ≡
        (if at == i then place else slice_index places.old.items i) }
{
    places[at as usize] = place;
}
