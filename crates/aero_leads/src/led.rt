//! To which threads the open blocks lead, so that an end visits these alone.
ghost use Rattle.std.specs.Prelude.{◌≡◌, ◌==◌, ◌<◌, ◌++◌, ◌∷◌, [], ℕ, Some, OnOk, OnErr, vec_len, length, slice_get, if◌then◌else◌};
ghost use Rattle.aero_leads.specs.Listed.{followers, followers_in};

use crate::index::{Index, no_row};
use std::alloc::{AllocError, Global};

/// A thread to which a block leads. In the thread's row the block stands at this place, unless a lead was moved: a hint alone.
#[derive(Clone, Copy)]
pub struct Entry {
    pub thread: u32,
    pub at: u32,
}

/// Threads to which a block leads, and the hints.
#[derive(Drop)]
pub struct Followers {
    pub threads: Vec<u32>,
    pub hints: Vec<u32>,
}

/// Those of the open block of each thread, by the thread's number. The index is room to work in, while a row is changed.
#[derive(Drop)]
pub struct Led {
    pub lists: Vec<Followers>,
    pub index: Index,
}

/// No block.
pub(crate) fn no_block(alloc: Global) -> Led
    ensures { (v : ℕ) → followers result v ≡ [] }
{
    Led {
        lists: Vec::new(alloc),
        index: no_row(alloc),
    }
}

/// How many threads are listed with thread `t`.
pub(crate) fn count(led: &Led, t: u32) -> usize
    ensures { result ≡ length (followers led.now t) }
{
    match led.lists.get(t as usize) {
        Some(list) => list.threads.len(),
        None => 0,
    }
}

/// One of these.
pub(crate) fn follower(led: &Led, t: u32, i: usize) -> u32
    requires { i < length (followers led.now t) }
    ensures { slice_get (followers led.now t) i ≡ Some result }
{
    led.lists[t as usize].threads[i]
}

/// One of these, with its hint.
pub(crate) fn listed_at(led: &Led, t: u32, i: usize) -> Entry
    requires { i < length (followers led.now t) }
    ensures { slice_get (followers led.now t) i ≡ Some result.thread }
{
    Entry {
        thread: follower(led, t, i),
        at: hint_at(led, t, i),
    }
}

fn hint_at(led: &Led, t: u32, i: usize) -> u32 {
    match led.lists.get(t as usize) {
        Some(list) => match list.hints.get(i) {
            Some(at) => *at,
            None => 0,
        },
        None => 0,
    }
}

/// This thread, and a hint for the place.
pub(crate) fn entry_at(thread: u32, at: usize) -> Entry
    ensures { result.thread ≡ thread }
{
    Entry {
        thread,
        at: hint_for(at),
    }
}

fn hint_for(at: usize) -> u32 {
    (at % MOST_PLACES) as u32
}

/// The open block of thread `w` leads to thread `o`, in whose row it comes to stand at this place.
pub(crate) fn note(led: &mut Led, w: u32, o: u32, at: usize) -> Result<(), AllocError>
    ensures noted { OnOk result ((v : ℕ) →
        followers led.new v ≡ (if v == w then followers led.old v ++
        o ∷ [] else followers led.old v)) }
    ensures err { OnErr result ((v : ℕ) → followers led.new v ≡ followers led.old v) }
    ensures index { led.new.index ≡ led.old.index }
{
    reach(&mut led.lists, w)?;
    led.lists[w as usize].hints.push(hint_for(at))?;
    led.lists[w as usize].threads.push(o)?;
    Ok(())
}

/// Thread `t` has no open block any more.
pub(crate) fn forget(led: &mut Led, t: u32)
    ensures { (v : ℕ) → followers led.new v ≡ (if v == t then [] else followers led.old v) }
{
    if (t as usize) < led.lists.len() {
        empty(&mut led.lists[t as usize].hints);
        empty(&mut led.lists[t as usize].threads);
    }
}

// Of how many places of a row a hint can tell.
const MOST_PLACES: usize = 1 << 32;

// How many places a list keeps for the next block.
const MOST_KEPT: usize = 64;

// No threads, and no more memory than for a few.
fn empty(threads: &mut Vec<u32>)
    ensures { threads.new.items ≡ [] }
{
    threads.clear();
    if threads.capacity() > MOST_KEPT {
        threads.shrink_to_fit();
    }
}

fn reach(lists: &mut Vec<Followers>, w: u32) -> Result<(), AllocError>
    ensures room { OnOk result (w < vec_len lists.new) }
    ensures same { (v : ℕ) → followers_in (slice_get lists.new.items v) ≡
        followers_in (slice_get lists.old.items v) }
{
    let at = w as usize;
    while lists.len() <= at {
        let alloc = *lists.allocator();
        lists.push(Followers {
            threads: Vec::new(alloc),
            hints: Vec::new(alloc),
        })?;
    }
    Ok(())
}
