//! The first events of each kind that are noted, by which later ones conflict with them.
ghost use Rattle.std.specs.Prelude.{◌≡◌, ℕ, ◌==◌, if◌then◌else◌, OnOk};
ghost use Rattle.aero_model.specs.Shape.{is_release_of};
ghost use Rattle.aero_witness.specs.MarkWords.{mark_at, with_first, least, is_ahead, is_write_of, is_read_of};

use aero_model::{Numbered, What};
use std::alloc::{AllocError, Global};

// Of each thread, variable and lock the place of its first noted event of a kind.
#[derive(Drop)]
pub(crate) struct Marks {
    own: Vec<Option<u32>>,
    ahead: Vec<Option<u32>>,
    writes: Vec<Option<u32>>,
    reads: Vec<Option<u32>>,
    releases: Vec<Option<u32>>,
}

impl Marks {
    ghost use Rattle.std.specs.Prelude.{◌≡◌, None, if◌then◌else◌, OnOk};
    ghost use Rattle.aero_witness.specs.MarkWords.{with_first};
    ghost use Rattle.aero_witness.specs.Marks.{Key, mark_of, of_key, source_of};

    // Nothing is noted.
    pub(crate) fn new(alloc: Global) -> Marks
        ensures { (k : Key) → mark_of result k ≡ None }
    {
        Marks {
            own: Vec::new(alloc),
            ahead: Vec::new(alloc),
            writes: Vec::new(alloc),
            reads: Vec::new(alloc),
            releases: Vec::new(alloc),
        }
    }

    // The earliest of the noted events that conflict with this one, which comes next.
    pub(crate) fn source(&self, event: &Numbered) -> Option<u32>
        ensures { result ≡ source_of (mark_of self.now) event.now }
    {
        let source = mark(&self.ahead, event.thread);
        match event.what {
            What::Read(x) => least(source, mark(&self.writes, x)),
            What::Write(x) => least(least(source, mark(&self.writes, x)), mark(&self.reads, x)),
            What::Acquire(l) => least(source, mark(&self.releases, l)),
            What::Join(u) => least(source, mark(&self.own, u)),
            _ => source,
        }
    }

    // Notes the event at this place.
    pub(crate) fn note(&mut self, event: &Numbered, place: u32) -> Result<(), AllocError>
        ensures { OnOk result ((k : Key) →
            mark_of self.new k ≡ (if of_key k event.now then with_first (mark_of self.old k) place
            else mark_of self.old k)) }
    {
        put(&mut self.own, event.thread, place)?;
        note_ahead(&mut self.ahead, event, place)?;
        note_write(&mut self.writes, event.what, place)?;
        note_read(&mut self.reads, event.what, place)?;
        note_release(&mut self.releases, event.what, place)
    }
}

fn least(one: Option<u32>, other: Option<u32>) -> Option<u32>
    ensures { result ≡ least one other }
{
    match (one, other) {
        (Some(i), Some(j)) => Some(i.min(j)),
        (Some(i), None) => Some(i),
        (None, other) => other,
    }
}

fn mark(marks: &[Option<u32>], number: u32) -> Option<u32>
    ensures { result ≡ mark_at marks.now number }
{
    let at = number as usize;
    if at < marks.len() { marks[at] } else { None }
}

fn first_mark(mark: Option<u32>, place: u32) -> Option<u32>
    ensures { result ≡ with_first mark place }
{
    match mark {
        Some(first) => Some(first),
        None => Some(place),
    }
}

fn put(marks: &mut Vec<Option<u32>>, number: u32, place: u32) -> Result<(), AllocError>
    ensures { OnOk result ((k : ℕ) →
        mark_at marks.new.items k ≡ (if number == k then with_first (mark_at marks.old.items k)
        place else mark_at marks.old.items k)) }
{
    let at = number as usize;
    if marks.len() <= at {
        marks.resize(at + 1, None)?;
    }
    marks[at] = first_mark(marks[at], place);
    Ok(())
}

// A thread's events come after its fork.
fn note_ahead(ahead: &mut Vec<Option<u32>>, event: &Numbered, place: u32) -> Result<(), AllocError>
    ensures { OnOk result ((t : ℕ) →
        mark_at ahead.new.items t ≡ (if is_ahead t event.now then with_first
        (mark_at ahead.old.items t) place else mark_at ahead.old.items t)) }
{
    put(ahead, event.thread, place)?;
    match event.what {
        What::Fork(u) => put(ahead, u, place),
        _ => Ok(()),
    }
}

fn note_write(writes: &mut Vec<Option<u32>>, what: What, place: u32) -> Result<(), AllocError>
    ensures { OnOk result ((x : ℕ) →
        mark_at writes.new.items x ≡ (if is_write_of x what then with_first
        (mark_at writes.old.items x) place else mark_at writes.old.items x)) }
{
    match what {
        What::Write(x) => put(writes, x, place),
        _ => Ok(()),
    }
}

fn note_read(reads: &mut Vec<Option<u32>>, what: What, place: u32) -> Result<(), AllocError>
    ensures { OnOk result ((x : ℕ) →
        mark_at reads.new.items x ≡ (if is_read_of x what then with_first
        (mark_at reads.old.items x) place else mark_at reads.old.items x)) }
{
    match what {
        What::Read(x) => put(reads, x, place),
        _ => Ok(()),
    }
}

fn note_release(releases: &mut Vec<Option<u32>>, what: What, place: u32) -> Result<(), AllocError>
    ensures { OnOk result ((l : ℕ) →
        mark_at releases.new.items l ≡
        (if is_release_of l what then with_first (mark_at releases.old.items l) place else mark_at
        releases.old.items l)) }
{
    match what {
        What::Release(l) => put(releases, l, place),
        _ => Ok(()),
    }
}
