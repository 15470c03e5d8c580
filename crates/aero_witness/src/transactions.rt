//! The transactions of a trace's events, place by place.
ghost use Rattle.std.specs.Prelude.{◌≡◌, ◌<◌, ◌≤◌, ◌^◌, ◌+◌, ◌==◌, ℕ, if◌then◌else◌, length, OnOk, IfOk};
ghost use Rattle.aero_witness.specs.Parts.{AreOf, nest_at, nest_after, first_with};

use aero_model::{Numbered, What};
use std::alloc::{AllocError, Global};

/// How many blocks of a thread are open, one within another, and, where any is, the place at which the
/// outermost of them began.
#[derive(Clone, Copy, Debug, PartialEq, Eq)]
pub struct Nest {
    pub depth: u32,
    pub first: u32,
}

/// For each event the place of the first event of its transaction, from 0, and for each thread, by its
/// number, what is open at the end. A thread past the last of `nests` has nothing open.
#[derive(Drop)]
pub struct TransactionTable {
    pub firsts: Vec<u32>,
    pub nests: Vec<Nest>,
}

/// The transactions of these events. An `AllocError` where memory is refused.
pub fn transactions_of(alloc: Global, events: &[Numbered]) -> Result<TransactionTable, AllocError>
    requires { length events.now < 2 ^ 32 }
    ensures { IfOk result (AreOf events.now) }
{
    let mut firsts = Vec::with_capacity(alloc, events.len())?;
    let mut nests = Vec::new(alloc);
    for (place, event) in events.iter().enumerate() {
        firsts.push(step(&mut nests, event, place as u32)?)?;
    }
    Ok(TransactionTable { firsts, nests })
}

// The first place of the transaction of the event at this place, which comes next.
fn step(nests: &mut Vec<Nest>, event: &Numbered, place: u32) -> Result<u32, AllocError>
    requires room { place + 1 < 2 ^ 32 }
    requires depths { (t : ℕ) → (nest_at nests.old.items t).depth ≤ place }
    ensures first { IfOk result (λ first. first ≡
        first_with place (nest_at nests.old.items event.now.thread)) }
    ensures nests { OnOk result ((t : ℕ) →
        nest_at nests.new.items t ≡ (if event.now.thread == t then nest_after event.now.what place
        (nest_at nests.old.items t) else nest_at nests.old.items t)) }
{
    let before = nest_of(nests, event.thread);
    put(nests, event.thread, after(before, event.what, place))?;
    Ok(first_of(place, before))
}

fn first_of(place: u32, before: Nest) -> u32
    ensures { result ≡ first_with place before }
{
    if before.depth > 0 {
        before.first
    } else {
        place
    }
}

fn after(nest: Nest, what: What, place: u32) -> Nest
    requires { nest.depth + 1 < 2 ^ 32 }
    ensures { result ≡ nest_after what place nest }
{
    match what {
        What::Begin(_) if nest.depth == 0 => Nest {
            depth: nest.depth + 1,
            first: place,
        },
        What::Begin(_) => Nest {
            depth: nest.depth + 1,
            first: nest.first,
        },
        What::End => Nest {
            depth: nest.depth.saturating_sub(1),
            first: nest.first,
        },
        _ => nest,
    }
}

// What is open of the thread.
pub(crate) fn nest_of(nests: &[Nest], thread: u32) -> Nest
    ensures { result ≡ nest_at nests.now thread }
{
    match nests.get(thread as usize) {
        Some(nest) => *nest,
        None => Nest { depth: 0, first: 0 },
    }
}

fn put(nests: &mut Vec<Nest>, thread: u32, nest: Nest) -> Result<(), AllocError>
    ensures { OnOk result ((t : ℕ) →
        nest_at nests.new.items t ≡ (if thread == t then nest else nest_at nests.old.items t)) }
{
    let at = thread as usize;
    if nests.len() <= at {
        nests.resize(at + 1, Nest { depth: 0, first: 0 })?;
    }
    nests[at] = nest;
    Ok(())
}
