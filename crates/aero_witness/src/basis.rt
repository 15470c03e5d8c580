//! What a search goes by.
ghost use Rattle.std.specs.Prelude.{◌≡◌, ◌<◌, ◌^◌, ◌==◌, ℕ, if◌then◌else◌, length, slice_index, slice_get, Some, ◌↔◌, IsTrue, IfOk, All};
ghost use Rattle.aero_witness.specs.Basis.{AreNext, IsBasis};

use crate::telling::first_at;
use crate::transactions::{TransactionTable, transactions_of};
use aero_model::Numbered;
use std::alloc::{AllocError, Global};

// The transactions of the events, and of each place the next one of its transaction: after the last the number of events.
// Telling cycles are looked for from the transaction of the event at `begin`, whose first place is `first`: the origin.
#[derive(Drop)]
pub(crate) struct Basis {
    pub transactions: TransactionTable,
    pub next: Vec<u32>,
    pub begin: u32,
    pub first: u32,
}

// That from the transaction of the event at this place.
pub(crate) fn basis_of(alloc: Global, events: &[Numbered], begin: u32) -> Result<Basis, AllocError>
    requires few { length events.now < 2 ^ 32 }
    requires within { begin < length events.now }
    ensures { IfOk result (λ basis. IsBasis events.now basis × (basis.begin ≡ begin)) }
{
    let transactions = transactions_of(alloc, events)?;
    let next = next_of(alloc, &transactions.firsts)?;
    let first = first_at(&transactions.firsts, begin);
    Ok(Basis {
        transactions,
        next,
        begin,
        first,
    })
}

// Whether the place is in the origin.
pub(crate) fn is_origin(basis: &Basis, place: u32) -> bool
    requires { place < length basis.now.transactions.firsts.items }
    ensures { IsTrue result ↔ (slice_get basis.now.transactions.firsts.items place ≡
        Some basis.now.first) }
{
    first_at(&basis.transactions.firsts, place) == basis.first
}

// Of each place the next one with the same first place, or the number of places.
fn next_of(alloc: Global, firsts: &[u32]) -> Result<Vec<u32>, AllocError>
    requires few { length firsts.now < 2 ^ 32 }
    requires within { All (λ f. f < length firsts.now) firsts.now }
    ensures { IfOk result (λ next. AreNext firsts.now 0 next.items) }
{
    let count = firsts.len() as u32;
    let mut next = vec![in alloc; count; firsts.len()]?;
    let mut latest = vec![in alloc; count; firsts.len()]?;
    for k in 0..count {
        let place = count - 1 - k;
        let first = first_at(firsts, place);
        put(&mut next, place, latest[first as usize]);
        put(&mut latest, first, place);
    }
    Ok(next)
}

fn put(places: &mut Vec<u32>, at: u32, place: u32)
    requires { at < length places.old.items }
    ensures each { length places.new.items ≡ length places.old.items }
    ensures at { (i : ℕ) → slice_index places.new.items i ≡
        (if at == i then place else slice_index places.old.items i) }
{
    places[at as usize] = place;
}
