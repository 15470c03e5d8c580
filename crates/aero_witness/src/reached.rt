//! Places that are reached, level by level.
ghost use Rattle.std.specs.Prelude.{◌≡◌, ◌<◌, ◌≤◌, ◌^◌, ◌==◌, ◌++◌, ◌∷◌, [], ℕ, if◌then◌else◌, length, Some, None, OnOk, IfOk, IsSome, MatchBool, ◌⊎◌};
ghost use Rattle.aero_witness.specs.Parts.{AreOf};
ghost use Rattle.aero_witness.specs.Basis.{AreNext, IsBasis};
ghost use Rattle.aero_witness.specs.Reached.{is_noted, reached_at, start_at, AreStarts, IsFront, IsClosedFrom, IsClosed, IsWalked, IsFrom, IsEntered};

use crate::basis::Basis;
use crate::telling::{first_at, has_ended};
use crate::transactions::TransactionTable;
use aero_model::Numbered;
use std::alloc::{AllocError, Global};

/// How a walk comes to leave at a place: with so many visits before, entering here, from an event at a place
/// that conflicts. At level 0 the place is in the transaction in which the walk begins.
#[derive(Clone, Copy, Debug, PartialEq, Eq)]
pub(crate) struct Reached {
    pub level: u32,
    pub enters: u32,
    pub from: u32,
}

// What is reached, and the places of one level, which lead on.
#[derive(Drop)]
pub(crate) struct Walks {
    pub reached: Vec<Option<Reached>>,
    pub front: Vec<u32>,
}

// Whether the place is reached, and of this level.
pub(crate) fn is_noted(reached: &[Option<Reached>], level: u32, place: u32) -> bool
    requires { place < length reached.now }
    ensures { result ≡ is_noted reached.now level place }
{
    match reached[place as usize] {
        Some(reached) => reached.level == level,
        None => false,
    }
}

pub(crate) fn reached_of(reached: &[Option<Reached>], place: u32) -> Option<Reached>
    ensures { result ≡ reached_at reached.now place }
{
    match reached.get(place as usize) {
        Some(reached) => *reached,
        None => None,
    }
}

// The places of the transaction in which a walk begins, which it leaves without a visit before.
pub(crate) fn start(
    alloc: Global,
    firsts: &[u32],
    first: u32,
) -> Result<Vec<Option<Reached>>, AllocError>
    ensures { IfOk result (λ reached. AreStarts firsts.now first (length firsts.now) reached.items) }
{
    let mut reached = Vec::with_capacity(alloc, firsts.len())?;
    for f in firsts {
        reached.push(start_at(*f, first))?;
    }
    Ok(reached)
}

fn start_at(f: u32, first: u32) -> Option<Reached>
    ensures { result ≡ start_at f first }
{
    if f == first {
        Some(Reached {
            level: 0,
            enters: 0,
            from: 0,
        })
    } else {
        None
    }
}

// The places of this level, in their order.
pub(crate) fn front_of(
    alloc: Global,
    reached: &[Option<Reached>],
    level: u32,
) -> Result<Vec<u32>, AllocError>
    requires { length reached.now < 2 ^ 32 }
    ensures { IfOk result (λ front. IsFront level reached.now front.items) }
{
    let mut front = Vec::new(alloc);
    for place in 0..reached.len() as u32 {
        if is_noted(reached, level, place) {
            front.push(place)?;
        }
    }
    Ok(front)
}

fn is_free(reached: &[Option<Reached>], place: u32) -> bool
    ensures { MatchBool result ((place < length reached.now) ×
        (reached_at reached.now place ≡ None)) ((length reached.now ≤ place) ⊎
        IsSome (reached_at reached.now place)) }
{
    match reached.get(place as usize) {
        Some(reached) => reached.is_none(),
        None => false,
    }
}

// Reaches a place of the next front.
fn reach(walks: &mut Walks, place: u32, how: Reached) -> Result<(), AllocError>
    requires { place < length walks.old.reached.items }
    ensures each { length walks.new.reached.items ≡ length walks.old.reached.items }
    ensures at { OnOk result ((k : ℕ) →
        reached_at walks.new.reached.items k ≡
        (if place == k then Some how else reached_at walks.old.reached.items k)) }
    ensures front { OnOk result (walks.new.front.items ≡ walks.old.front.items ++ place ∷ []) }
{
    walks.front.push(place)?;
    walks.reached[place as usize] = Some(how);
    Ok(())
}

// Reaches the places of a transaction from this one on, up to one that is reached.
fn walk(basis: &Basis, walks: &mut Walks, from: u32, how: Reached) -> Result<(), AllocError>
    requires next { AreNext basis.now.transactions.firsts.items 0 basis.now.next.items }
    requires each { length walks.old.reached.items ≡ length basis.now.transactions.firsts.items }
    requires within { from < length walks.old.reached.items }
    requires closed { IsClosedFrom basis.now.transactions.firsts.items from walks.old.reached.items }
    requires front { IsFront how.level walks.old.reached.items walks.old.front.items }
    ensures walked { OnOk result (IsWalked basis.now.transactions.firsts.items from how
        walks.old.reached.items walks.new.reached.items) }
    ensures front { OnOk result (IsFront how.level walks.new.reached.items walks.new.front.items) }
{
    let mut place = from;
    while is_free(&walks.reached, place) {
        reach(walks, place, how)?;
        place = basis.next[place as usize];
    }
    Ok(())
}

// Reaches each place at which a walk may leave that comes in so, unless it may leave where it comes in already.
pub(crate) fn enter(
    events: &[Numbered],
    basis: &Basis,
    walks: &mut Walks,
    how: Reached,
) -> Result<(), AllocError>
    requires few { length events.now < 2 ^ 32 }
    requires basis { IsBasis events.now basis.now }
    requires each { length walks.old.reached.items ≡ length events.now }
    requires within { how.enters < length events.now }
    requires closed { IsClosed events.now walks.old.reached.items }
    requires front { IsFront how.level walks.old.reached.items walks.old.front.items }
    ensures entered { OnOk result (IsEntered events.now how walks.old.reached.items
        walks.new.reached.items) }
    ensures front { OnOk result (IsFront how.level walks.new.reached.items walks.new.front.items) }
{
    if reached_of(&walks.reached, how.enters).is_some() {
        return Ok(());
    }
    let from = leaves_from(events, &basis.transactions, how.enters);
    walk(basis, walks, from, how)?;
    Ok(())
}

// The first place at which a walk may leave that comes in at this one.
fn leaves_from(events: &[Numbered], transactions: &TransactionTable, enters: u32) -> u32
    requires of { AreOf events.now transactions.now }
    requires within { enters < length events.now }
    ensures { IsFrom events.now transactions.now.firsts.items enters result }
{
    let first = first_at(&transactions.firsts, enters);
    if has_ended(events, transactions, enters) {
        first
    } else {
        enters
    }
}
