//! The telling cycle that shows a violation, event by event.
ghost use Rattle.std.specs.Prelude.{◌≡◌, ◌++◌, ◌-◌, ◌<◌, ◌^◌, ℕ, List, All, Some, length, slice_get, flat_map, IfOk, OnOk};
ghost use Rattle.std.specs.List.{AllZip};
ghost use Rattle.aero_grammar.specs.Reading.{Reading};
ghost use Rattle.aero_witness.specs.Parts.{AreOf};
ghost use Rattle.aero_witness.specs.Telling.{visit_of, visits_of};
ghost use Rattle.aero_verdict.specs.Explained.{ShowsCertain, ShowsVerdict, visit_places, IsExplained};
ghost use Rattle.aero_judge.specs.Records.{IsJudged, IsRecord, IsRecordOf, AreShown, CanBeShown, IsEventAt, IsStepAt, IsTransactionAt, IsTransactionOf, round_of, end_line, extent_of};
ghost use Rattle.aero_model.specs.Terms.{Rules};

use crate::recorder::Recorder;
use crate::shown::event_shown;
use crate::spans::{Span, spans_of};
use aero_model::{Cycle, CycleStep, CycleTransaction, Event, Extent, Name, Verdict, What};
use aero_verdict::{Monitor, Numbering};
use aero_witness::{Shortest, Visit, shortest_of};
use std::alloc::{AllocError, Global};

// What shows the verdict that is certain by now, whatever parts come: `None` if no verdict is certain, or one that is
// no `Violation`. An `AllocError` says that memory was refused.
pub(crate) fn explain(monitor: &Monitor<Recorder>) -> Result<Option<Cycle>, AllocError>
    ensures { IfOk result (ShowsCertain monitor.now.certain monitor.now.parts monitor.now.rules) }
{
    let checker = monitor.checker();
    let recorder = &checker.engine;
    match monitor.certain() {
        Some(verdict) => cycle_in(recorder.alloc, &checker.numbering, recorder, verdict),
        None => Ok(None),
    }
}

// What shows the verdict, where it is a violation.
pub(crate) fn cycle_in(
    alloc: Global,
    names: &Numbering,
    recorder: &Recorder,
    verdict: &Verdict,
) -> Result<Option<Cycle>, AllocError>
    requires { (parts : List Reading) × (rules : Rules) ×
        IsJudged parts rules names.now recorder.now verdict.now }
    ensures { (parts : List Reading) (rules : Rules) →
        IsJudged parts rules names.now recorder.now verdict.now →
        IfOk result (ShowsVerdict parts rules verdict.now) }
{
    let Verdict::Violation { begun, .. } = verdict else {
        return Ok(None);
    };
    let cycle = cycle_of(alloc, names, recorder, *begun)?;
    Ok(Some(cycle))
}

// A shortest cycle that begins in the block that begins on this line.
fn cycle_of(
    alloc: Global,
    names: &Numbering,
    recorder: &Recorder,
    begun: u32,
) -> Result<Cycle, AllocError>
    requires { IsRecord names.now recorder.now begun }
    ensures { (parts : List Reading) (rules : Rules) (line : ℕ) (thread : List ℕ) →
        IsRecordOf parts rules names.now recorder.now line thread begun →
        IfOk result (IsExplained parts rules line thread begun) }
{
    let begin = place_of(&recorder.lines, begun);
    let shortest = shortest_of(alloc, &recorder.events, begin)?;
    let places = round_of(alloc, &shortest.visits)?;
    let firsts = &shortest.transactions.firsts;
    let steps = steps_at(alloc, names, recorder, firsts, &places)?;
    let transactions = transactions_of(alloc, names, recorder, &shortest)?;
    let opener = event_at(alloc, names, recorder, begin)?;
    let closing = closing_event(alloc, names, recorder)?;
    Ok(Cycle {
        label: opener.target,
        steps,
        transactions,
        closing,
    })
}

// The place of the line.
fn place_of(lines: &[u32], line: u32) -> u32
    requires few { length lines.now < 2 ^ 32 }
    requires there { (place : ℕ) × (slice_get lines.now place ≡ Some line) }
    ensures { slice_get lines.now result ≡ Some line }
{
    for (place, at) in lines.iter().enumerate() {
        if *at == line {
            return place as u32;
        }
    }
    unreachable!()
}

// The places of the cycle, from where its first visit goes out to where that comes in.
fn round_of(alloc: Global, visits: &[Visit]) -> Result<Vec<u32>, AllocError>
    ensures { IfOk result (λ places. places.items ≡ round_of visits.now) }
{
    let mut places = Vec::new(alloc);
    let [first, rest @ ..] = visits else {
        return Ok(places);
    };
    places.push(first.leaves)?;
    append_places(&mut places, rest)?;
    places.push(first.enters)?;
    Ok(places)
}

fn append_places(places: &mut Vec<u32>, visits: &[Visit]) -> Result<(), AllocError>
    ensures { OnOk result (places.new.items ≡ places.old.items ++
        flat_map visit_places (visits_of visits.now)) }
{
    for visit in visits {
        append_visit(places, *visit)?;
    }
    Ok(())
}

fn append_visit(places: &mut Vec<u32>, visit: Visit) -> Result<(), AllocError>
    ensures { OnOk result (places.new.items ≡ places.old.items ++ visit_places (visit_of visit)) }
{
    places.push(visit.enters)?;
    if visit.enters != visit.leaves {
        places.push(visit.leaves)?;
    }
    Ok(())
}

// The events at these places, where these are the first places of transactions.
fn steps_at(
    alloc: Global,
    names: &Numbering,
    recorder: &Recorder,
    firsts: &[u32],
    places: &[u32],
) -> Result<Vec<CycleStep>, AllocError>
    requires shown { CanBeShown names.now recorder.now firsts.now }
    requires within { All (λ place. place < length recorder.now.events.items) places.now }
    ensures { IfOk result (λ steps. AllZip (IsStepAt names.now recorder.now firsts.now) places.now
        steps.items) }
{
    let mut steps = Vec::with_capacity(alloc, places.len())?;
    for place in places {
        steps.push(step_at(alloc, names, recorder, firsts, *place)?)?;
    }
    Ok(steps)
}

fn step_at(
    alloc: Global,
    names: &Numbering,
    recorder: &Recorder,
    firsts: &[u32],
    place: u32,
) -> Result<CycleStep, AllocError>
    requires shown { CanBeShown names.now recorder.now firsts.now }
    requires within { place < length recorder.now.events.items }
    ensures { IfOk result (λ step. IsStepAt names.now recorder.now firsts.now place step) }
{
    let lines = recorder.lines.as_slice();
    let line = lines[place as usize];
    let first = lines[firsts[place as usize] as usize];
    let event = event_at(alloc, names, recorder, place)?;
    Ok(CycleStep { line, first, event })
}

// The transactions into which the visits come, in their order.
fn transactions_of(
    alloc: Global,
    names: &Numbering,
    recorder: &Recorder,
    shortest: &Shortest,
) -> Result<Vec<CycleTransaction>, AllocError>
    requires few { length recorder.now.events.items < 2 ^ 32 }
    requires shown { AreShown names.now recorder.now }
    requires of { AreOf recorder.now.events.items shortest.now.transactions }
    requires within { All (λ visit. visit.enters < length recorder.now.events.items)
        shortest.now.visits.items }
    ensures { IfOk result (λ told. AllZip (IsTransactionOf names.now recorder.now)
        shortest.now.visits.items told.items) }
{
    let spans = spans_of(
        alloc,
        &recorder.events,
        &shortest.transactions,
        &shortest.visits,
    )?;
    transactions_at(alloc, names, recorder, &spans)
}

fn transactions_at(
    alloc: Global,
    names: &Numbering,
    recorder: &Recorder,
    spans: &[Span],
) -> Result<Vec<CycleTransaction>, AllocError>
    requires shown { AreShown names.now recorder.now }
    requires within { All (λ span. span.first < length recorder.now.events.items) spans.now }
    ensures { IfOk result (λ told. AllZip (IsTransactionAt names.now recorder.now) spans.now
        told.items) }
{
    let mut told = Vec::with_capacity(alloc, spans.len())?;
    for span in spans {
        told.push(transaction_at(alloc, names, recorder, *span)?)?;
    }
    Ok(told)
}

fn transaction_at(
    alloc: Global,
    names: &Numbering,
    recorder: &Recorder,
    span: Span,
) -> Result<CycleTransaction, AllocError>
    requires shown { AreShown names.now recorder.now }
    requires within { span.first < length recorder.now.events.items }
    ensures { IfOk result (IsTransactionAt names.now recorder.now span) }
{
    let lines = recorder.lines.as_slice();
    let events = recorder.events.as_slice();
    let first = lines[span.first as usize];
    let what = events[span.first as usize].what;
    let end = end_line(lines, span.last);
    let event = event_at(alloc, names, recorder, span.first)?;
    Ok(CycleTransaction {
        first,
        thread: event.thread,
        extent: extent_of(what, event.target, end),
    })
}

// The line of the last place, if there is one.
fn end_line(lines: &[u32], last: Option<u32>) -> Option<u32>
    ensures { result ≡ end_line lines.now last }
{
    match last {
        Some(last) => lines.get(last as usize).copied(),
        None => None,
    }
}

// What a transaction is, by what its first event does, the label of that, and the line of its end.
fn extent_of(what: What, label: Option<Name>, end: Option<u32>) -> Extent
    ensures { result ≡ extent_of what label end }
{
    match what {
        What::Begin(_) => Extent::Block { label, end },
        _ => Extent::Alone,
    }
}

// The event that was recorded last, which closes the cycle.
fn closing_event(alloc: Global, names: &Numbering, recorder: &Recorder) -> Result<Event, AllocError>
    requires few { length recorder.now.events.items < 2 ^ 32 }
    requires some { 0 < length recorder.now.events.items }
    requires shown { AreShown names.now recorder.now }
    ensures { IfOk result (IsEventAt names.now recorder.now (length recorder.now.events.items - 1)) }
{
    let last = recorder.events.as_slice().len() - 1;
    event_at(alloc, names, recorder, last as u32)
}

// The event at this place.
pub(crate) fn event_at(
    alloc: Global,
    names: &Numbering,
    recorder: &Recorder,
    place: u32,
) -> Result<Event, AllocError>
    requires shown { AreShown names.now recorder.now }
    requires within { place < length recorder.now.events.items }
    ensures { IfOk result (IsEventAt names.now recorder.now place) }
{
    let events = recorder.events.as_slice();
    let codes = recorder.said.as_slice();
    let event = events[place as usize];
    let code = codes[place as usize];
    event_shown(alloc, names, &recorder.labels, event, code)
}
