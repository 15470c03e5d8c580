//! Lists of pairs of a thread and a number, rising by thread.
ghost use Rattle.std.specs.Prelude.{◌≡◌, ◌<◌, ◌≤◌, ◌↔◌, ℕ, length, Some, slice_get, max, if◌then◌else◌, ◌==◌, ◌+◌, ◌-◌, ◌^◌, IsTrue, IfOk, IsOk, OnOk, OnErr};
ghost use Rattle.aero_clock.specs.Pairs.{number_in, IsRising, HasNoZero, IsPlace, Covers, LeadsWith, merge, raised_to};

use std::alloc::{AllocError, Global};

/// The number that the list gives thread `t`, 0 where it gives none.
#[inline(always)]
pub fn read(pairs: &[(u32, u32)], t: u32) -> u32
    requires { IsRising pairs.now }
    ensures { result ≡ number_in pairs.now t }
{
    number_here(pairs, place(pairs, t), t)
}

// The number of thread t, which stands at this place or nowhere.
#[inline(always)]
fn number_here(pairs: &[(u32, u32)], at: usize, t: u32) -> u32
    requires rising { IsRising pairs.now }
    requires place { IsPlace pairs.now t at }
    ensures { result ≡ number_in pairs.now t }
{
    if at < pairs.len() {
        let (thread, number) = pairs[at];
        if thread == t {
            return number;
        }
    }
    0
}

// Where thread t stands in the list, or would have to.
#[inline(always)]
fn place(pairs: &[(u32, u32)], t: u32) -> usize
    requires { IsRising pairs.now }
    ensures { IsPlace pairs.now t result }
{
    // Where all lesser threads have a number, no search is needed.
    let at = t as usize;
    if at < pairs.len() && pairs[at].0 == t {
        return at;
    }
    search(pairs, t)
}

// The same by halving.
fn search(pairs: &[(u32, u32)], t: u32) -> usize
    requires { IsRising pairs.now }
    ensures { IsPlace pairs.now t result }
{
    let mut low = 0;
    let mut high = pairs.len();
    while low < high {
        let middle = low + (high - low) / 2;
        if pairs[middle].0 < t {
            low = middle + 1;
        } else {
            high = middle;
        }
    }
    low
}

// Where thread t stands in the list, or would have to: not before this place.
#[inline(always)]
fn skip(pairs: &[(u32, u32)], from: usize, t: u32) -> usize
    requires rising { IsRising pairs.now }
    requires within { from ≤ length pairs.now }
    requires below { (i : ℕ) (p : ℕ × ℕ) → i < from → slice_get pairs.now i ≡ Some p → p.0 < t }
    ensures place { IsPlace pairs.now t result }
    ensures onwards { from ≤ result }
{
    let mut at = from;
    while at < pairs.len() && pairs[at].0 < t {
        at += 1;
    }
    at
}

// Whether each number is at most the other list's in the same place, which is of the same thread.
// Without an early exit the test is made for several places at once.
fn are_at_most_in_place(pairs: &[(u32, u32)], others: &[(u32, u32)]) -> bool
    requires { IsRising others.now }
    ensures { IsTrue result → (t : ℕ) → number_in pairs.now t ≤ number_in others.now t }
{
    if pairs.len() > others.len() {
        return false;
    }
    let mut fitting = 0;
    for i in 0..pairs.len() {
        if (pairs[i].0 == others[i].0) & (pairs[i].1 <= others[i].1) {
            fitting += 1;
        }
    }
    fitting == pairs.len()
}

/// Whether each number is at most the other list's for the same thread.
pub fn are_at_most(pairs: &[(u32, u32)], others: &[(u32, u32)]) -> bool
    requires rising { IsRising pairs.now }
    requires nonzero { HasNoZero pairs.now }
    requires other { IsRising others.now }
    ensures { IsTrue result ↔ ((t : ℕ) → number_in pairs.now t ≤ number_in others.now t) }
{
    if are_at_most_in_place(pairs, others) {
        return true;
    }
    let mut at = 0;
    for i in 0..pairs.len() {
        let (t, number) = pairs[i];
        at = skip(others, at, t);
        if number_here(others, at, t) < number {
            return false;
        }
    }
    true
}

// Whether each thread of the other list stands in this one.
fn covers(pairs: &[(u32, u32)], others: &[(u32, u32)]) -> bool
    requires rising { IsRising pairs.now }
    requires other { IsRising others.now }
    ensures { IsTrue result ↔ Covers pairs.now others.now }
{
    let mut at = 0;
    for j in 0..others.len() {
        let (t, _) = others[j];
        at = skip(pairs, at, t);
        if number_here(pairs, at, t) == 0 {
            return false;
        }
    }
    true
}

// Raises each number to the other list's for the same thread.
fn raise_all(pairs: &mut [(u32, u32)], others: &[(u32, u32)])
    requires rising { IsRising pairs.old }
    requires other { IsRising others.now }
    ensures { pairs.new ≡ raised_to others.now pairs.old }
{
    let mut at = 0;
    for i in 0..pairs.len() {
        let (t, number) = pairs[i];
        at = skip(others, at, t);
        pairs[i].1 = number.max(number_here(others, at, t));
    }
}

// The two lists as one, with the greater number where a thread stands in both.
fn merged(
    alloc: Global,
    pairs: &[(u32, u32)],
    others: &[(u32, u32)],
) -> Result<Vec<(u32, u32)>, AllocError>
    ensures { IfOk result (λ all. all.items ≡ merge pairs.now others.now) }
{
    let mut all = Vec::with_capacity(alloc, pairs.len().saturating_add(others.len()))?;
    let mut i = 0;
    let mut j = 0;
    while i < pairs.len() && j < others.len() {
        let (t, number) = pairs[i];
        let (u, other) = others[j];
        if t < u {
            all.push((t, number))?;
            i += 1;
        } else if u < t {
            all.push((u, other))?;
            j += 1;
        } else {
            all.push((t, number.max(other)))?;
            i += 1;
            j += 1;
        }
    }
    let (_, rest) = pairs.split_at(i);
    all.extend_from_slice(rest)?;
    let (_, rest) = others.split_at(j);
    all.extend_from_slice(rest)?;
    Ok(all)
}

// Whether the other list's threads are the first of this one's, each in its place. Without an early
// exit the test is made for several places at once.
fn leads_with(pairs: &[(u32, u32)], others: &[(u32, u32)]) -> bool
    ensures { IsTrue result → LeadsWith pairs.now others.now }
{
    if others.len() > pairs.len() {
        return false;
    }
    let mut same = 0;
    for i in 0..others.len() {
        if pairs[i].0 == others[i].0 {
            same += 1;
        }
    }
    same == others.len()
}

// Raises each number to the other list's for the same thread, which stands in the same place.
fn raise_front(pairs: &mut [(u32, u32)], others: &[(u32, u32)])
    requires rising { IsRising pairs.old }
    requires other { IsRising others.now }
    requires front { LeadsWith pairs.old others.now }
    ensures { pairs.new ≡ raised_to others.now pairs.old }
{
    for i in 0..others.len() {
        let (t, number) = pairs[i];
        pairs[i] = (t, number.max(others[i].1));
    }
}

/// Raises each number to the other list's for the same thread. Where each thread of the other
/// stands in this list it takes no memory.
pub fn join(pairs: &mut Vec<(u32, u32)>, others: &[(u32, u32)]) -> Result<(), AllocError>
    requires rising { IsRising pairs.old.items }
    requires nonzero { HasNoZero pairs.old.items }
    requires other { IsRising others.now }
    requires other_nonzero { HasNoZero others.now }
    ensures ok { OnOk result ((t : ℕ) →
        number_in pairs.new.items t ≡ max (number_in pairs.old.items t) (number_in others.now t)) }
    ensures err { OnErr result (pairs.new.items ≡ pairs.old.items) }
    ensures room { Covers pairs.old.items others.now → IsOk result }
    ensures rising { IsRising pairs.new.items }
    ensures nonzero { HasNoZero pairs.new.items }
{
    if leads_with(pairs, others) {
        raise_front(pairs, others);
        return Ok(());
    }
    if covers(pairs, others) {
        raise_all(pairs, others);
        return Ok(());
    }
    *pairs = merged(*pairs.allocator(), pairs, others)?;
    Ok(())
}

/// One more for thread `t`.
pub fn raise(pairs: &mut Vec<(u32, u32)>, t: u32) -> Result<(), AllocError>
    requires rising { IsRising pairs.old.items }
    requires nonzero { HasNoZero pairs.old.items }
    requires room { number_in pairs.old.items t < 2 ^ 32 - 1 }
    ensures ok { OnOk result ((u : ℕ) →
        number_in pairs.new.items u ≡ (if u == t then number_in pairs.old.items u + 1 else number_in
        pairs.old.items u)) }
    ensures err { OnErr result (pairs.new.items ≡ pairs.old.items) }
    ensures counted { 0 < number_in pairs.old.items t → IsOk result }
    ensures rising { IsRising pairs.new.items }
    ensures nonzero { HasNoZero pairs.new.items }
{
    let at = place(pairs, t);
    let number = number_here(pairs, at, t);
    if number == 0 {
        pairs.insert(at, (t, 1))?;
    } else {
        pairs[at].1 = number + 1;
    }
    Ok(())
}

/// The same pairs as the other list, in the room that is there where they fit.
pub fn copy_from(pairs: &mut Vec<(u32, u32)>, others: &[(u32, u32)]) -> Result<(), AllocError>
    ensures ok { OnOk result (pairs.new.items ≡ others.now) }
    ensures err { OnErr result (pairs.new.items ≡ pairs.old.items) }
{
    if pairs.len() < others.len() {
        let (_, rest) = others.split_at(pairs.len());
        pairs.extend_from_slice(rest)?;
    }
    pairs.truncate(others.len());
    pairs.copy_from_slice(others);
    Ok(())
}
