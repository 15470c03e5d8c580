//! What is kept of the events so far: the numbers of the transactions of last events, and of reads
//! since the last write. Threads, variables and locks go by numbers from 0.
ghost use Rattle.std.specs.Prelude.{◌≡◌, ◌≢◌, ◌↔◌, ◌-◌, ◌==◌, ◌<◌, ℕ, [], length, slice_get, Some, None, if◌then◌else◌, vec_len, IsTrue, OnOk};
ghost use Rattle.std.specs.Option.{option_to_list};
ghost use Rattle.aero_engine.specs.declared.slot.Slot.TheVariants.{OfThread};
ghost use Rattle.aero_engine.specs.Slots.{is_write_of, of_slot};
ghost use Rattle.aero_model.specs.Shape.{is_release_of};
ghost use Rattle.aero_order.specs.LastNumbers.{AreReadersWith, AreReadsAfter, AreLinked};
ghost use Rattle.aero_order.specs.MarkWords.{mark_at, reads_at};

use aero_model::{Numbered, What};
use std::alloc::{AllocError, Global};

/// The numbers of the transactions that read a variable since its last write.
#[derive(Drop)]
pub struct Readers {
    pub numbers: Vec<u32>,
}

impl Readers {
    fn ends_with(&self, number: u32) -> bool
        ensures { IsTrue result ↔ (slice_get self.now.numbers.items
            (length self.now.numbers.items - 1) ≡ Some number) }
    {
        match self.numbers.last() {
            Some(last) => *last == number,
            None => false,
        }
    }

    // A transaction that reads again stands there already.
    fn add(&mut self, number: u32) -> Result<(), AllocError>
        ensures { OnOk result (AreReadersWith self.old.numbers.items number self.new.numbers.items) }
    {
        if self.ends_with(number) {
            return Ok(());
        }
        self.numbers.push(number)?;
        Ok(())
    }

    fn forget(&mut self)
        ensures { self.new.numbers.items ≡ [] }
    {
        self.numbers.clear();
    }
}

/// The numbers that are kept.
#[derive(Drop)]
pub struct Marks {
    last: Vec<Option<u32>>,
    own: Vec<Option<u32>>,
    writes: Vec<Option<u32>>,
    reads: Vec<Readers>,
    releases: Vec<Option<u32>>,
}

impl Marks {
    ghost use Rattle.std.specs.Prelude.{true};
    ghost use Rattle.aero_engine.specs.declared.slot.Slot.{Slot};
    ghost use Rattle.aero_order.specs.LastNumbers.{is_looked_at, looked_back};
    ghost use Rattle.aero_order.specs.MarkWords.{kept_of, reads_of, own_of};

    /// Nothing is kept.
    pub fn new(alloc: Global) -> Marks
        ensures slots { (s : Slot) → kept_of result s ≡ None }
        ensures reads { (x : ℕ) → reads_of result x ≡ [] }
        ensures own { (t : ℕ) → own_of result t ≡ None }
    {
        Marks {
            last: Vec::new(alloc),
            own: Vec::new(alloc),
            writes: Vec::new(alloc),
            reads: Vec::new(alloc),
            releases: Vec::new(alloc),
        }
    }

    /// The number of the last event of thread `t`.
    pub fn own(&self, t: u32) -> Option<u32>
        ensures { result ≡ own_of self.now t }
    {
        mark(&self.own, t)
    }

    /// Adds edges to `number` from the numbers that the event looks back to; one that stands last isn't
    /// put there again.
    #[tactic(auto, using(crate::proofs::Linked::linked_append))]
    pub fn look_back(
        &self,
        event: &Numbered,
        number: u32,
        edges: &mut Vec<(u32, u32)>,
    ) -> Result<(), AllocError>
        ensures { OnOk result (AreLinked edges.old.items number
            (looked_back (kept_of self.now) (reads_of self.now) (own_of self.now) event.now)
            edges.new.items) }
    {
        link(edges, mark(&self.last, event.thread), number)?;
        match event.what {
            What::Read(x) => link(edges, mark(&self.writes, x), number),
            What::Write(x) => {
                link(edges, mark(&self.writes, x), number)?;
                link_all(edges, numbers_at(&self.reads, x), number)
            }
            What::Acquire(l) => link(edges, mark(&self.releases, l), number),
            What::Join(t) => link(edges, mark(&self.own, t), number),
            _ => Ok(()),
        }
    }

    /// Keeps the number of the event.
    pub fn note(&mut self, event: &Numbered, number: u32) -> Result<(), AllocError>
        ensures slots { OnOk result ((s : Slot) → is_looked_at s ≡ true →
            kept_of self.new s ≡ (if of_slot s event.now then Some number else kept_of self.old s)) }
        ensures reads { OnOk result (AreReadsAfter event.now.what number (reads_of self.old)
            (reads_of self.new)) }
        ensures own { OnOk result ((t : ℕ) →
            own_of self.new t ≡ (if event.now.thread == t then Some number else own_of self.old t)) }
    {
        put(&mut self.own, event.thread, number)?;
        note_last(&mut self.last, event, number)?;
        note_write(&mut self.writes, event.what, number)?;
        note_release(&mut self.releases, event.what, number)?;
        note_reads(&mut self.reads, event.what, number)
    }
}

// The number at this place, if there is one.
fn mark(marks: &[Option<u32>], place: u32) -> Option<u32>
    ensures { result ≡ mark_at marks.now place }
{
    let place = place as usize;
    if place < marks.len() {
        marks[place]
    } else {
        None
    }
}

fn put(marks: &mut Vec<Option<u32>>, place: u32, number: u32) -> Result<(), AllocError>
    ensures { OnOk result ((k : ℕ) →
        mark_at marks.new.items k ≡ (if place == k then Some number else mark_at marks.old.items k)) }
{
    let at = place as usize;
    if marks.len() <= at {
        marks.resize(at + 1, None)?;
    }
    marks[at] = Some(number);
    Ok(())
}

// The reads of the variable since its last write.
fn numbers_at(reads: &[Readers], x: u32) -> &[u32]
    ensures { result.now ≡ reads_at reads.now x }
{
    match reads.get(x as usize) {
        Some(readings) => &readings.numbers,
        None => &[],
    }
}

// Makes a place for the variable.
fn reach(reads: &mut Vec<Readers>, x: u32) -> Result<(), AllocError>
    ensures room { OnOk result (x < vec_len reads.new) }
    ensures same { (y : ℕ) → reads_at reads.new.items y ≡ reads_at reads.old.items y }
{
    let at = x as usize;
    while reads.len() <= at {
        let numbers = Vec::new(*reads.allocator());
        reads.push(Readers { numbers })?;
    }
    Ok(())
}

fn add_read(reads: &mut Vec<Readers>, x: u32, number: u32) -> Result<(), AllocError>
    ensures one { OnOk result (AreReadersWith (reads_at reads.old.items x) number
        (reads_at reads.new.items x)) }
    ensures others { OnOk result ((y : ℕ) → y ≢ x →
        reads_at reads.new.items y ≡ reads_at reads.old.items y) }
{
    reach(reads, x)?;
    reads[x as usize].add(number)
}

fn forget_reads(reads: &mut [Readers], x: u32)
    ensures one { reads_at reads.new x ≡ [] }
    ensures others { (y : ℕ) → y ≢ x → reads_at reads.new y ≡ reads_at reads.old y }
{
    let at = x as usize;
    if at < reads.len() {
        reads[at].forget();
    }
}

// An event is the last of its thread, and a fork the last of the thread that it forks.
fn note_last(last: &mut Vec<Option<u32>>, event: &Numbered, number: u32) -> Result<(), AllocError>
    ensures { OnOk result ((t : ℕ) →
        mark_at last.new.items t ≡ (if of_slot (OfThread t) event.now then Some number else mark_at
        last.old.items t)) }
{
    put(last, event.thread, number)?;
    match event.what {
        What::Fork(t) => put(last, t, number),
        _ => Ok(()),
    }
}

fn note_write(writes: &mut Vec<Option<u32>>, what: What, number: u32) -> Result<(), AllocError>
    ensures { OnOk result ((x : ℕ) →
        mark_at writes.new.items x ≡ (if is_write_of x what then Some number else mark_at
        writes.old.items x)) }
{
    match what {
        What::Write(x) => put(writes, x, number),
        _ => Ok(()),
    }
}

fn note_release(releases: &mut Vec<Option<u32>>, what: What, number: u32) -> Result<(), AllocError>
    ensures { OnOk result ((l : ℕ) →
        mark_at releases.new.items l ≡
        (if is_release_of l what then Some number else mark_at releases.old.items l)) }
{
    match what {
        What::Release(l) => put(releases, l, number),
        _ => Ok(()),
    }
}

fn note_reads(reads: &mut Vec<Readers>, what: What, number: u32) -> Result<(), AllocError>
    ensures { OnOk result (AreReadsAfter what number (reads_at reads.old.items)
        (reads_at reads.new.items)) }
{
    match what {
        What::Read(x) => add_read(reads, x, number),
        What::Write(x) => {
            forget_reads(reads, x);
            Ok(())
        }
        _ => Ok(()),
    }
}

fn ends_with(edges: &[(u32, u32)], from: u32, to: u32) -> bool
    ensures { IsTrue result ↔ (slice_get edges.now (length edges.now - 1) ≡ Some (from, to)) }
{
    match edges.last() {
        Some(last) => last.0 == from && last.1 == to,
        None => false,
    }
}

// An edge from the number, if there is one, and it is another. What stands last isn't put there again.
fn link(edges: &mut Vec<(u32, u32)>, from: Option<u32>, number: u32) -> Result<(), AllocError>
    ensures { OnOk result (AreLinked edges.old.items number (option_to_list from) edges.new.items) }
{
    if let Some(u) = from
        && u != number
        && !ends_with(edges, u, number)
    {
        edges.push((u, number))?;
    }
    Ok(())
}

fn link_all(edges: &mut Vec<(u32, u32)>, from: &[u32], number: u32) -> Result<(), AllocError>
    ensures { OnOk result (AreLinked edges.old.items number from.now edges.new.items) }
{
    for u in from {
        link(edges, Some(*u), number)?;
    }
    Ok(())
}
