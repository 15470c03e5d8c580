//! Whether events conflict.
ghost use Rattle.std.specs.Prelude.{◌≡◌, ◌↔◌, ◌<◌, IsTrue};
ghost use Rattle.aero_model.specs.Graph.{Conflict};
ghost use Rattle.aero_model.specs.Shape.{is_fork_of, is_join_of};
ghost use Rattle.aero_model.specs.Deciding.{deeds_conflict, conflicting};

use aero_model::{Numbered, What};

// Whether one variable is accessed and one of the two writes it, or a lock is released and then acquired.
fn deeds_conflict(first: What, second: What) -> bool
    ensures { result ≡ deeds_conflict first second }
{
    match (first, second) {
        (What::Write(x), What::Read(y) | What::Write(y)) => x == y,
        (What::Read(x), What::Write(y)) => x == y,
        (What::Release(l), What::Acquire(m)) => l == m,
        _ => false,
    }
}

fn is_fork_of(u: u32, what: What) -> bool
    ensures { result ≡ is_fork_of u what }
{
    match what {
        What::Fork(v) => u == v,
        _ => false,
    }
}

fn is_join_of(u: u32, what: What) -> bool
    ensures { result ≡ is_join_of u what }
{
    match what {
        What::Join(v) => u == v,
        _ => false,
    }
}

// Whether the first event conflicts with the second, where that is the later one.
fn conflicting(first: &Numbered, second: &Numbered) -> bool
    ensures { result ≡ conflicting first.now second.now }
{
    first.thread == second.thread
        || deeds_conflict(first.what, second.what)
        || is_fork_of(second.thread, first.what)
        || is_join_of(first.thread, second.what)
}

/// Whether the event at the first place conflicts with the one at the second, a later one.
pub(crate) fn conflict(events: &[Numbered], first: u32, second: u32) -> bool
    ensures { IsTrue result ↔ Conflict events.now first second }
{
    if second <= first {
        return false;
    }
    let Some(one) = events.get(first as usize) else {
        return false;
    };
    let Some(other) = events.get(second as usize) else {
        return false;
    };
    conflicting(one, other)
}
