//! The targets of a kind that aren't taken yet, by their numbers, and what is taken of them.
ghost use Rattle.std.specs.Prelude.{◌≡◌, ◌<◌, ◌≤◌, ◌+◌, ◌^◌, ◌==◌, ℕ, ◌∷◌, [], length, if◌then◌else◌, Some, None, Option, OnOk, IfOk, All, slice_get};
ghost use Rattle.aero_witness.specs.Kinds.{outside};
ghost use Rattle.aero_witness.specs.Buckets.{head_at, head_of, is_number, AreLinks, AreHeads, IsAdded, IsFilled, IsBucket, AreOrigins, IsFull, IsTakenTo, IsSameBut, AreDrawn};

use crate::basis::{Basis, is_origin};
use crate::kinds::{Kind, target_number};
use aero_model::Numbered;
use std::alloc::{AllocError, Global};

// The places that a kind numbers as targets, as lists. Here a place is told as one more, and 0 says that there is none.
// `origins` has of each number the last one at the origin, where walks begin. Nothing is taken of these, as no walk has
// to come in there. Of the others `heads` has the last one that isn't taken, and `before` of each the one before it.
#[derive(Drop)]
pub(crate) struct Bucket {
    pub kind: Kind,
    pub before: Vec<u32>,
    pub origins: Vec<u32>,
    pub heads: Vec<u32>,
}

// A walk comes in at a place from an event that conflicts, at another.
#[derive(Clone, Copy, Debug, PartialEq, Eq)]
pub(crate) struct Arrival {
    pub enters: u32,
    pub from: u32,
}

fn head(heads: &[u32], number: u32) -> u32
    ensures { result ≡ head_at heads.now number }
{
    let at = number as usize;
    if at < heads.len() { heads[at] } else { 0 }
}

pub(crate) fn head_of(heads: &[u32], number: Option<u32>) -> u32
    ensures { result ≡ head_of heads.now number }
{
    match number {
        Some(number) => head(heads, number),
        None => 0,
    }
}

fn put(heads: &mut Vec<u32>, number: u32, head: u32) -> Result<(), AllocError>
    ensures { OnOk result ((m : ℕ) →
        head_at heads.new.items m ≡ (if number == m then head else head_at heads.old.items m)) }
{
    let at = number as usize;
    if heads.len() <= at {
        heads.resize(at + 1, 0)?;
    }
    heads[at] = head;
    Ok(())
}

fn note(heads: &mut Vec<u32>, number: Option<u32>, place: u32) -> Result<(), AllocError>
    requires { place + 1 < 2 ^ 32 }
    ensures { OnOk result ((m : ℕ) →
        head_at heads.new.items m ≡ (if is_number number m then place + 1 else head_at
        heads.old.items m)) }
{
    match number {
        Some(number) => put(heads, number, place + 1),
        None => Ok(()),
    }
}

fn add_inner(bucket: &mut Bucket, number: Option<u32>, place: u32) -> Result<(), AllocError>
    requires { place + 1 < 2 ^ 32 }
    ensures { OnOk result (IsAdded number None place bucket.old bucket.new) }
{
    bucket.before.push(0)?;
    note(&mut bucket.origins, number, place)
}

fn add_outer(bucket: &mut Bucket, number: Option<u32>, place: u32) -> Result<(), AllocError>
    requires { place + 1 < 2 ^ 32 }
    ensures { OnOk result (IsAdded None number place bucket.old bucket.new) }
{
    let head = head_of(&bucket.heads, number);
    bucket.before.push(head)?;
    note(&mut bucket.heads, number, place)
}

// The place comes next, and has this number, if any.
fn add(
    bucket: &mut Bucket,
    number: Option<u32>,
    at_origin: bool,
    place: u32,
) -> Result<(), AllocError>
    requires { place + 1 < 2 ^ 32 }
    ensures { OnOk result (IsAdded (if at_origin then number else None)
        (if at_origin then None else number) place bucket.old bucket.new) }
{
    if at_origin {
        add_inner(bucket, number, place)
    } else {
        add_outer(bucket, number, place)
    }
}

fn fill(events: &[Numbered], basis: &Basis, bucket: &mut Bucket) -> Result<(), AllocError>
    requires few { length events.now < 2 ^ 32 }
    requires each { length basis.now.transactions.firsts.items ≡ length events.now }
    requires none { IsFilled events.now basis.now.transactions.firsts.items basis.now.first 0
        bucket.old }
    ensures kind { OnOk result (bucket.new.kind ≡ bucket.old.kind) }
    ensures filled { OnOk result (IsFilled events.now basis.now.transactions.firsts.items
        basis.now.first (length events.now) bucket.new) }
{
    for place in 0..events.len() as u32 {
        let number = target_number(bucket.kind, &events[place as usize]);
        add(bucket, number, is_origin(basis, place), place)?;
    }
    Ok(())
}

// The bucket of this kind, from which nothing is taken yet.
pub(crate) fn bucket_of(
    alloc: Global,
    events: &[Numbered],
    basis: &Basis,
    kind: Kind,
) -> Result<Bucket, AllocError>
    requires few { length events.now < 2 ^ 32 }
    requires each { length basis.now.transactions.firsts.items ≡ length events.now }
    ensures is { IfOk result (IsBucket events.now
        (outside events.now basis.now.transactions.firsts.items basis.now.first) kind) }
    ensures origins { IfOk result (AreOrigins events.now basis.now.transactions.firsts.items
        basis.now.first kind) }
    ensures full { IfOk result (IsFull events.now basis.now.transactions.firsts.items
        basis.now.first kind) }
{
    let mut bucket = Bucket {
        kind,
        before: Vec::new(alloc),
        origins: Vec::new(alloc),
        heads: Vec::new(alloc),
    };
    fill(events, basis, &mut bucket)?;
    Ok(bucket)
}

// Takes those from the head on down that are behind the place. What is left begins at the head that is given back.
fn take_from(
    before: &[u32],
    head: u32,
    place: u32,
    arrivals: &mut Vec<Arrival>,
) -> Result<u32, AllocError>
    requires falls { (j : ℕ) → head_at before.now j ≤ j }
    requires within { head ≤ length before.now }
    requires room { place + 1 < 2 ^ 32 }
    ensures { IfOk result (λ low. IsTakenTo before.now place head low arrivals.old.items
        arrivals.new.items) }
{
    let mut low = head;
    while place + 1 < low {
        arrivals.push(Arrival {
            enters: low - 1,
            from: place,
        })?;
        low = before[(low - 1) as usize];
    }
    Ok(low)
}

// Takes those with this number that are behind the place.
pub(crate) fn take(
    bucket: &mut Bucket,
    number: Option<u32>,
    place: u32,
    arrivals: &mut Vec<Arrival>,
) -> Result<(), AllocError>
    requires falls { (j : ℕ) → head_at bucket.old.before.items j ≤ j }
    requires within { (m : ℕ) → head_at bucket.old.heads.items m ≤ length bucket.old.before.items }
    requires room { place + 1 < 2 ^ 32 }
    ensures same { OnOk result (IsSameBut bucket.old bucket.new) }
    ensures drawn { OnOk result ((s t : ℕ → Option ℕ) → s place ≡ number →
        AreLinks t bucket.old.before.items →
        AreHeads t (length bucket.old.before.items) bucket.old.heads.items →
        AreDrawn s t (place ∷ []) (length bucket.old.before.items) bucket.old.heads.items
        bucket.new.heads.items arrivals.old.items arrivals.new.items) }
{
    let Some(number) = number else {
        return Ok(());
    };
    let low = take_from(&bucket.before, head(&bucket.heads, number), place, arrivals)?;
    put(&mut bucket.heads, number, low)
}
