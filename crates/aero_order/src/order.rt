//! The order of numbers along edges, each time the least that may come.
ghost use Rattle.std.specs.Prelude.{◌≡◌, ◌≢◌, ◌+◌, ◌<◌, ◌==◌, ◌&&◌, ℕ, [], length, vec_len, slice_index, OnOk, IfOk, All};
ghost use Rattle.aero_order.specs.Held.{held};
ghost use Rattle.aero_order.specs.Order.{IsOrder};
ghost use Rattle.aero_order.specs.Waiting.{one_if, is_due, missing_count, numbers_of, GivesWay};

use crate::free::Free;
use crate::targets::Targets;
use std::alloc::{AllocError, Global};

/// The numbers below `count`, as far as no edges go round: each time the least is next to which
/// no edge leads from one that isn't there yet.
pub fn least_order(alloc: Global, count: u32, edges: &[(u32, u32)]) -> Result<Vec<u32>, AllocError>
    requires { All (λ e. (e.0 < count) × (e.1 < count)) edges.now }
    ensures { IfOk result (λ order. IsOrder count edges.now order.items) }
{
    let targets = Targets::new(alloc, count, edges)?;
    let mut waiting = count_waiting(alloc, count, edges)?;
    let mut free = first_free(alloc, count, &waiting)?;
    let mut order = vec![in alloc]?;
    while let Some(u) = free.take_least() {
        order.push(u)?;
        release_all(targets.of(u), &mut waiting, &mut free)?;
    }
    Ok(order)
}

// How many edges lead to each number.
fn count_waiting(alloc: Global, count: u32, edges: &[(u32, u32)]) -> Result<Vec<usize>, AllocError>
    requires { All (λ e. e.1 < count) edges.now }
    ensures len { IfOk result (λ waiting. (vec_len waiting ≡ count) ×
        (length waiting.items ≡ count)) }
    ensures counts { IfOk result (λ waiting. (v : ℕ) → v < count →
        slice_index waiting.items v ≡ missing_count edges.now [] v) }
{
    let mut waiting = vec![in alloc; 0; count as usize]?;
    for e in edges {
        waiting[e.1 as usize] += 1;
    }
    Ok(waiting)
}

// The numbers to which no edge leads.
fn first_free(alloc: Global, count: u32, waiting: &[usize]) -> Result<Free, AllocError>
    requires { length waiting.now ≡ count }
    ensures { IfOk result (λ free. (v : ℕ) →
        held free v ≡ one_if (is_due count [] v (slice_index waiting.now v))) }
{
    let mut free = Free::new(alloc);
    for v in 0..count {
        if waiting[v as usize] == 0 {
            free.hold(v)?;
        }
    }
    Ok(free)
}

// One edge to each of the targets is waited for no longer.
fn release_all(targets: &[u32], waiting: &mut [usize], free: &mut Free) -> Result<(), AllocError>
    requires { All (λ v. v < length waiting.old) targets.now }
    ensures { OnOk result (GivesWay targets.now waiting.old (held free.old) waiting.new
        (held free.new)) }
{
    for v in targets {
        release(*v, waiting, free)?;
    }
    Ok(())
}

// One edge to `v` is waited for no longer.
fn release(v: u32, waiting: &mut [usize], free: &mut Free) -> Result<(), AllocError>
    requires { v < length waiting.old }
    ensures others { (w : ℕ) → w ≢ v → slice_index waiting.new w ≡ slice_index waiting.old w }
    ensures less { 0 < slice_index waiting.old v →
        slice_index waiting.new v + 1 ≡ slice_index waiting.old v }
    ensures holds { OnOk result ((w : ℕ) →
        held free.new w ≡ one_if ((slice_index waiting.new v == 0) && (v == w)) + held free.old w) }
{
    let left = waiting[v as usize].saturating_sub(1);
    waiting[v as usize] = left;
    if left == 0 {
        free.hold(v)?;
    }
    Ok(())
}
