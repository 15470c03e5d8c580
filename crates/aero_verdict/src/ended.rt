//! Blocks that end without an end: the events of a chunk of lines with an end before each join for each block of the
//! joined thread that is open, and the ends of the blocks that are open at the end.
ghost use Rattle.std.specs.Prelude.{◌≡◌, ◌<◌, ◌==◌, ◌++◌, [], ℕ, List, All, length, slice_index_or, replicate, map, IfOk, OnOk, if◌then◌else◌};
ghost use Rattle.aero_model.specs.Ended.{open_of, ended_after, ends_at_end};
ghost use Rattle.aero_model.specs.Exempt.{Listed, marked_trace};
ghost use Rattle.aero_model.specs.Named.{Named};
ghost use Rattle.aero_model.specs.Numbering.{Tables, tables_of};
ghost use Rattle.aero_grammar.specs.Tabled.{lines_in, name_at};
ghost use Rattle.aero_names.specs.Indexed.{AreDistinct};
ghost use Rattle.aero_shape.specs.Standing.{StandsFor};
ghost use Rattle.aero_verdict.specs.Ending.{AreOpen, AreEnded, IsFrom, IsWithin, an_end, blocks_after, ends_for, joined_by};
ghost use Rattle.aero_verdict.specs.Limited.{names_in};
ghost use Rattle.aero_verdict.specs.Standing.{up_to};

use crate::numbering::Numbering;
use aero_grammar::LineEvent;
use aero_model::{Numbered, What};
use aero_names::NameList;
use aero_shape::Shape;
use std::alloc::{AllocError, Global};

// How many blocks are open of each of these threads after the events that have these names and this shape. An `AllocError`
// says that memory was refused.
pub(crate) fn open_blocks(
    alloc: Global,
    numbering: &Numbering,
    shape: &Shape,
    threads: &NameList,
) -> Result<Vec<usize>, AllocError>
    ensures { IfOk result (λ counts. (labels : Listed) (front : List Named) →
        names_in numbering.now ≡ tables_of front →
        StandsFor shape.now (marked_trace labels front) →
        counts.items ≡ map (open_of front) threads.now) }
{
    let mut counts = Vec::new(alloc);
    for n in 0..threads.len() {
        counts.push(open_at(numbering, shape, threads, n))?;
    }
    Ok(counts)
}

// How many are open of the thread at place `n`.
fn open_at(numbering: &Numbering, shape: &Shape, threads: &NameList, n: u32) -> usize
    requires { n < length threads.now }
    ensures { (labels : Listed) (front : List Named) →
        names_in numbering.now ≡ tables_of front →
        StandsFor shape.now (marked_trace labels front) →
        result ≡ open_of front (name_at threads.now n) }
{
    let Some(name) = threads.name(n) else {
        unreachable!();
    };
    match numbering.threads.find(name) {
        Some(thread) => shape.open_blocks(thread),
        None => 0,
    }
}

// The events on lines up to `most`, one after the other, where so many blocks of the chunk's threads are counts: before each
// event that joins another thread an end on its line for each block of that thread that is open. An `AllocError` says that
// memory was refused.
pub(crate) fn with_ends(
    alloc: Global,
    mut counts: Vec<usize>,
    events: &[LineEvent],
    most: u32,
) -> Result<Vec<LineEvent>, AllocError>
    ensures named { IfOk result (λ ended. (tables : Tables) (labels : List (List ℕ))
        (front : List Named) → AreDistinct tables.threads →
        AreOpen front tables.threads counts.items →
        All (λ e. IsWithin (length tables.threads) e.1) events.now →
        lines_in tables labels ended.items ≡
        ended_after front (up_to most (lines_in tables labels events.now))) }
    ensures each { IfOk result (λ ended. All (λ e. IsWithin (length counts.items) e.1) events.now →
        All (IsFrom (length counts.items) events.now) ended.items) }
{
    let mut ended = Vec::new(alloc);
    for event in events {
        let (line, event) = event.parts();
        if line > most {
            continue;
        }
        if let Some(joined) = joined_by(event) {
            push_ends(&mut ended, blocks_of(&counts, joined), line, joined)?;
            put(&mut counts, joined, 0);
        }
        let blocks = blocks_after(event.what, blocks_of(&counts, event.thread))?;
        put(&mut counts, event.thread, blocks);
        ended.push(LineEvent::new(line, event))?;
    }
    Ok(ended)
}

// The thread other than its own that the event joins, if it joins one.
fn joined_by(event: Numbered) -> Option<u32>
    ensures { result ≡ joined_by event }
{
    match event.what {
        What::Join(joined) if joined != event.thread => Some(joined),
        _ => None,
    }
}

// How many blocks of the thread are open.
fn blocks_of(counts: &[usize], thread: u32) -> usize
    ensures { result ≡ slice_index_or counts.now thread 0 }
{
    match counts.get(thread as usize) {
        Some(blocks) => *blocks,
        None => 0,
    }
}

// From now on so many blocks of the thread are open.
fn put(counts: &mut [usize], thread: u32, blocks: usize)
    ensures { thread < length counts.old → (n : ℕ) → slice_index_or counts.new n 0 ≡
        (if thread == n then blocks else slice_index_or counts.old n 0) }
{
    if (thread as usize) < counts.len() {
        counts[thread as usize] = blocks;
    }
}

// How many blocks of a thread are open after it has done this, if so many were. An `AllocError` says that they are too many to count.
fn blocks_after(what: What, blocks: usize) -> Result<usize, AllocError>
    ensures { IfOk result (λ after. after ≡ blocks_after what blocks) }
{
    match what {
        What::Begin(_) => blocks.checked_add(1).ok_or(AllocError),
        What::End | What::Exempt => Ok(blocks.saturating_sub(1)),
        _ => Ok(blocks),
    }
}

// As many ends of the thread on the line.
fn push_ends(
    events: &mut Vec<LineEvent>,
    blocks: usize,
    line: u32,
    thread: u32,
) -> Result<(), AllocError>
    ensures { OnOk result (events.new.items ≡ events.old.items ++
        replicate blocks (line, an_end thread)) }
{
    let what = What::End;
    for _ in 0..blocks {
        events.push(LineEvent::new(line, Numbered { thread, what }))?;
    }
    Ok(())
}

// The names of all threads, and on line 1 an end for each block that is open after the events that have these names and this
// shape, thread by thread. An `AllocError` says that memory was refused.
pub(crate) fn last_ends(
    alloc: Global,
    numbering: &Numbering,
    shape: &Shape,
) -> Result<(NameList, Vec<LineEvent>), AllocError>
    ensures names { IfOk result (λ told. told.0 ≡ numbering.now.threads.names) }
    ensures ends { IfOk result (λ told. (labels : Listed) (front : List Named) →
        names_in numbering.now ≡ tables_of front →
        StandsFor shape.now (marked_trace labels front) →
        lines_in (record { threads = told.0; variables = []; locks = [] }) [] told.1.items ≡
        ends_at_end front 1) }
    ensures each { IfOk result (λ told. All (IsFrom (length told.0) []) told.1.items) }
{
    let mut names = NameList::new(alloc);
    let mut ends = Vec::new(alloc);
    for thread in 0..numbering.threads.len() {
        let Some(name) = numbering.threads.name(thread) else {
            unreachable!();
        };
        names.push(name)?;
        push_ends(&mut ends, shape.open_blocks(thread), 1, thread)?;
    }
    Ok((names, ends))
}
