//! Events that are put into batches, and judged by a monitor as they come: `judge` and `see` are the example in
//! the head of `aero_verdict::monitor`.
ghost use Rattle.std.specs.Prelude.{◌≡◌};

use crate::model::except_of;
use crate::verdict::{parsed, says};
use aero_grammar::{Batch, Parsed, parse_line};
use aero_leads::Leads;
use aero_model::{Event, Except, Limits, Numbered, Verdict, What};
use aero_verdict::Monitor;
use std::alloc::{AllocError, Global};
use std::mem;

// Hands what was gathered to the monitor, and begins to gather anew. The answer says whether the verdict is certain.
fn judge(
    alloc: Global,
    monitor: &mut Monitor<Leads>,
    batch: &mut Batch,
    except: &Except,
) -> Result<bool, AllocError>
    requires { except.now ≡ monitor.old.rules.labels }
    ensures { monitor.new.rules ≡ monitor.old.rules }
{
    let part = mem::replace(batch, Batch::new(alloc)).into_parsed()?;
    monitor.feed(&part, except)
}

// Takes the next event of a run.
fn see(
    alloc: Global,
    monitor: &mut Monitor<Leads>,
    batch: &mut Batch,
    event: &Event,
    except: &Except,
) -> Result<bool, AllocError>
    requires { except.now ≡ monitor.old.rules.labels }
    ensures { monitor.new.rules ≡ monitor.old.rules }
{
    batch.push(event)?;
    if batch.lines() < 2 {
        return Ok(false);
    }
    judge(alloc, monitor, batch, except)
}

// The helpers below say that a row doesn't hold where memory is refused.

// Takes the events of a run, up to one by which the verdict is certain.
fn see_all(
    alloc: Global,
    monitor: &mut Monitor<Leads>,
    run: &[Event],
    except: &Except,
) -> Result<bool, AllocError>
    requires { except.now ≡ monitor.old.rules.labels }
{
    let mut batch = Batch::new(alloc);
    for event in run {
        if see(alloc, monitor, &mut batch, event, except)? {
            break;
        }
    }
    judge(alloc, monitor, &mut batch, except)
}

// Whether the run has the verdict, which is certain before the run ends, or isn't.
fn is_watched(alloc: Global, run: &[Event], except: &Except, wanted: (bool, &str)) -> bool {
    let mut monitor = Monitor::<Leads>::new(alloc, &Limits::greatest(), except);
    let is_certain = see_all(alloc, &mut monitor, run, except).ok();
    is_certain == Some(wanted.0) && says(alloc, monitor.finish().ok(), wanted.1)
}

// Puts what the line says into the batch, and an event among the others too.
fn take_line(alloc: Global, batch: &mut Batch, run: &mut Vec<Event>, line: &str) -> bool {
    match parse_line(alloc, line.as_bytes()) {
        Ok(Some(event)) => batch.push(&event).is_ok() && run.push(event).is_ok(),
        Ok(None) => batch.push_blank().is_ok(),
        Err(_) => false,
    }
}

// The lines of the text, as a batch, and their events.
fn taken(alloc: Global, text: &str) -> Option<(Parsed, Vec<Event>)> {
    let mut batch = Batch::new(alloc);
    let mut run = Vec::new(alloc);
    let mut fits = true;
    for line in text.split('\n') {
        fits &= take_line(alloc, &mut batch, &mut run, line);
    }
    let part = batch.into_parsed().ok()?;
    fits.then_some((part, run))
}

// Whether both have the same names, events and lines, and no fault.
fn is_same(one: &Parsed, other: &Parsed) -> bool {
    one.threads.has_same_names(&other.threads)
        && one.variables.has_same_names(&other.variables)
        && one.locks.has_same_names(&other.locks)
        && one.labels.has_same_names(&other.labels)
        && one.events.as_slice() == other.events.as_slice()
        && one.lines == other.lines
        && one.fault.is_none()
        && other.fault.is_none()
}

// A line's number, and its event by its names' places in order of first appearance.
type Line = (u32, u32, What);

fn has_events(part: &Parsed, wanted: &[Line]) -> bool {
    let mut fits = part.events.len() == wanted.len();
    for (event, wanted) in part.events.iter().zip(wanted) {
        let (line, thread, what) = *wanted;
        fits &= event.parts() == (line, Numbered { thread, what });
    }
    fits
}

// A text, its events, whether its verdict is certain before it ends, and the verdict.
type Row = (&'static str, &'static [Line], bool, &'static str);

fn is_so(alloc: Global, row: Row) -> Option<bool> {
    let (text, events, is_certain, verdict) = row;
    let (part, run) = taken(alloc, text)?;
    let parsed = parsed(alloc, text.as_bytes())?;
    let except = except_of(alloc, "")?;
    let is_read = is_same(&part, &parsed) && has_events(&part, events);
    Some(is_read && is_watched(alloc, &run, &except, (is_certain, verdict)))
}

// The first row that doesn't hold.
fn first_misread(alloc: Global, rows: &[Row]) -> Option<usize> {
    rows.iter().position(|row| is_so(alloc, *row) != Some(true))
}

static ROWS: [Row; 4] = [
    (
        "T1|begin(f)\nT1|w(x)\nT2|fork(T3)\n\nT3|acq(l)\nT1|r(y)\nT3|rel(l)\nT1|end\nT2|begin(a_label_that_is_longer)",
        &[
            (1, 0, What::Begin(Some(0))),
            (2, 0, What::Write(0)),
            (3, 1, What::Fork(2)),
            (5, 2, What::Acquire(0)),
            (6, 0, What::Read(1)),
            (7, 2, What::Release(0)),
            (8, 0, What::End),
            (9, 1, What::Begin(Some(1))),
        ],
        false,
        "pending 8 2 1",
    ),
    (
        "T1|begin\nT2|begin\nT1|w(x)\nT2|r(x)\nT2|w(y)\nT1|r(y)\nT1|end",
        &[
            (1, 0, What::Begin(None)),
            (2, 1, What::Begin(None)),
            (3, 0, What::Write(0)),
            (4, 1, What::Read(0)),
            (5, 1, What::Write(1)),
            (6, 0, What::Read(1)),
            (7, 0, What::End),
        ],
        true,
        "violation 6 T1 1",
    ),
    (
        "T1|join(T1)",
        &[(1, 0, What::Join(0))],
        true,
        "ill-formed 1 JoinSelf",
    ),
    (
        "T2|w(T2)\nT1|acq(T2)\nT2|join(T1)",
        &[
            (1, 0, What::Write(0)),
            (2, 1, What::Acquire(0)),
            (3, 0, What::Join(1)),
        ],
        false,
        "serializable 3 0",
    ),
];

#[test]
fn a_batch_reads_as_its_text_and_is_judged_as_it_comes(rt: HostRuntime) {
    assert_eq!(rt; first_misread(rt.alloc(), &ROWS), None);
}

// One part of so many reads.
fn long_part(alloc: Global, count: u32) -> Option<Parsed> {
    let event = parse_line(alloc, b"T1|r(x)").ok()??;
    let mut batch = Batch::new(alloc);
    for _ in 0..count {
        batch.push(&event).ok()?;
    }
    batch.into_parsed().ok()
}

// The verdict on it.
fn long_verdict(alloc: Global, count: u32) -> Option<Verdict> {
    let except = except_of(alloc, "")?;
    let part = long_part(alloc, count)?;
    let mut monitor = Monitor::<Leads>::new(alloc, &Limits::greatest(), &except);
    monitor.feed(&part, &except).ok()?;
    monitor.finish().ok()
}

// A piece of a file is never so long, so no run of the program has such a part.
#[test]
fn a_part_of_over_a_million_events_is_judged(rt: HostRuntime) {
    let verdict = long_verdict(rt.alloc(), 1_048_577);
    assert!(rt; says(rt.alloc(), verdict, "serializable 1048577 0"));
}
