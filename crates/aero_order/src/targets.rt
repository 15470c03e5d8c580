//! The targets of edges, by the numbers from which the edges lead.
ghost use Rattle.std.specs.Prelude.{◌≡◌, ◌+◌, ◌<◌, ◌≤◌, ◌-◌, ◌^◌, ℕ, sum, take, length, vec_len, slice_index, IfOk, All};
ghost use Rattle.std.proofs.Props.{props};
ghost use Rattle.aero_order.specs.Starts.{from_count, from_below};

use std::alloc::{AllocError, Global};

/// For each number below a count the targets of the edges from it.
///
/// Those of `u` stand in the list from `starts[u]` up to `starts[u + 1]`.
#[derive(Drop)]
pub struct Targets {
    starts: Vec<usize>,
    list: Vec<u32>,
    ghost within: { (u : ℕ) → u + 1 < vec_len starts →
        (slice_index starts.items u ≤ slice_index starts.items (u + 1)) ×
        (slice_index starts.items (u + 1) ≤ vec_len list) } by { Prim.hlevel props },
}

impl Targets {
    ghost use Rattle.aero_order.specs.Waiting.{times, edge_count};
    ghost use Rattle.aero_order.specs.TargetWords.{count_of, targets_of};

    /// Groups the targets of the edges. An `AllocError` says that memory was refused.
    pub fn new(alloc: Global, count: u32, edges: &[(u32, u32)]) -> Result<Targets, AllocError>
        requires { All (λ e. e.0 < count) edges.now }
        ensures count { IfOk result (λ targets. count_of targets ≡ count) }
        ensures each { IfOk result (λ targets. (u v : ℕ) → u < count →
            times v (targets_of targets u) ≡ edge_count edges.now u v) }
    {
        let starts = add_up(count_from(alloc, count, edges)?);
        let list = vec![in alloc; 0; edges.len()]?;
        Ok(Targets::fill(edges, starts, list))
    }

    // Writes each target in front of those that its number has so far. At first each start is the end
    // of its number's targets.
    fn fill(edges: &[(u32, u32)], mut starts: Vec<usize>, mut list: Vec<u32>) -> Targets
        requires from { All (λ e. e.0 + 1 < vec_len starts) edges.now }
        requires ends { (u : ℕ) → u < vec_len starts →
            slice_index starts.items u ≡ from_below edges.now (u + 1) }
        requires room { vec_len list ≡ length edges.now }
        ensures count { count_of result ≡ vec_len starts - 1 }
        ensures each { (u v : ℕ) → u + 1 < vec_len starts →
            times v (targets_of result u) ≡ edge_count edges.now u v }
    {
        for e in edges {
            let at = starts[e.0 as usize] - 1;
            starts[e.0 as usize] = at;
            list[at] = e.1;
        }
        Targets { starts, list }
    }

    /// The numbers to which edges lead from `u`, each as often as there are such edges.
    pub fn of(&self, u: u32) -> &[u32]
        requires { u < count_of self.now }
        ensures { result.now ≡ targets_of self.now u }
    {
        let first = self.starts[u as usize];
        let end = self.starts[u as usize + 1];
        &self.list[first..end]
    }
}

// How many edges lead from each number up to `count`; from `count` itself none does.
fn count_from(alloc: Global, count: u32, edges: &[(u32, u32)]) -> Result<Vec<usize>, AllocError>
    requires { All (λ e. e.0 < count) edges.now }
    ensures len { IfOk result (λ counts. vec_len counts ≡ count + 1) }
    ensures counts { IfOk result (λ counts. (u : ℕ) → u < count + 1 →
        slice_index counts.items u ≡ from_count edges.now u) }
{
    let mut counts = vec![in alloc; 0; count as usize + 1]?;
    for e in edges {
        counts[e.0 as usize] += 1;
    }
    Ok(counts)
}

// Each count with the sum of those before it.
fn add_up(counts: Vec<usize>) -> Vec<usize>
    requires { sum counts.items < 2 ^ 64 }
    ensures len { vec_len result ≡ vec_len counts }
    ensures sums { (u : ℕ) → u < vec_len counts →
        slice_index result.items u ≡ sum (take (u + 1) counts.items) }
{
    let mut sums = counts;
    let mut total = 0;
    for u in 0..sums.len() {
        total += sums[u];
        sums[u] = total;
    }
    sums
}
