//! The blocks that are open at the end of a trace, and what shows a verdict.
ghost use Rattle.std.specs.Prelude.{◌≡◌, ◌↔◌, ◌++◌, ◌∷◌, [], ◌<◌, ◌^◌, Bool, List, All, true, false, if◌then◌else◌, length, take, slice_get, option_map, Some, IsTrue, IfOk, OnOk};
ghost use Rattle.std.specs.List.{AllZip};
ghost use Rattle.aero_grammar.specs.Reading.{Reading};
ghost use Rattle.aero_witness.specs.Parts.{AreOf};
ghost use Rattle.aero_verdict.specs.Explained.{ShowsVerdict};
ghost use Rattle.aero_judge.specs.Finding.{HasOwnVerdict, IsTraceFinding};
ghost use Rattle.aero_model.specs.Terms.{on, Rules};
ghost use Rattle.aero_model.specs.Verdicts.{verdict_of};
ghost use Rattle.aero_judge.specs.Opened.{AreOpenBlocks, ShowsBlocks};
ghost use Rattle.aero_verdict.specs.Ordered.{has_order};
ghost use Rattle.aero_judge.specs.Records.{IsJudged, IsWhole, IsWholeRecord, AreShown, IsBegunAt, AreBegunTo, IsBlockAt};
ghost use Rattle.aero_verdict.specs.Verdict.{IsVerdict};

use crate::explained::{cycle_in, event_at};
use crate::recorder::Recorder;
use aero_model::{Cycle, Finding, Numbered, OpenBlock, Verdict, What};
use aero_verdict::{Monitor, Numbering};
use aero_witness::{TransactionTable, has_ended, transactions_of};
use std::alloc::{AllocError, Global};

// How many open blocks are told at most: the first in the order of their begins.
const MOST: usize = 64;

// What is found of exactly the parts that a monitor was fed: the verdict with what shows it, a telling cycle if it is a
// `Violation`, and the first 64 open blocks if it is `Pending`. An `AllocError` says that memory was refused.
pub(crate) fn finish_to_explain(monitor: Monitor<Recorder>) -> Result<Finding, AllocError>
    ensures finding { IfOk result (IsTraceFinding monitor.parts (on monitor.rules false true)) }
    ensures own_fault { IfOk result HasOwnVerdict }
{
    let (verdict, checker) = monitor.into_verdict();
    let verdict = verdict?;
    let recorder = &checker.engine;
    finding_shown(recorder.alloc, &checker.numbering, recorder, verdict)
}

// What is found, where this is the verdict, and no order goes with it: the verdict with what shows it.
pub(crate) fn finding_shown(
    alloc: Global,
    names: &Numbering,
    recorder: &Recorder,
    verdict: Verdict,
) -> Result<Finding, AllocError>
    requires { (parts : List Reading) × (rules : Rules) ×
        IsJudged parts rules names.now recorder.now verdict }
    ensures finding { (parts : List Reading) (rules : Rules) (order : Bool) →
        IsJudged parts rules names.now recorder.now verdict → has_order order verdict ≡ false →
        IfOk result (IsTraceFinding parts (on rules order true)) }
    ensures same { IfOk result (λ finding. verdict_of finding ≡ Some verdict) }
{
    let cycle = cycle_in(alloc, names, recorder, &verdict)?;
    let blocks = blocks_in(alloc, names, recorder, &verdict)?;
    Ok(finding_with(verdict, cycle, blocks))
}

// The same, where this is what shows the verdict.
fn finding_with(verdict: Verdict, cycle: Option<Cycle>, blocks: Option<Vec<OpenBlock>>) -> Finding
    ensures finding { (parts : List Reading) (rules : Rules) (order : Bool) →
        IsVerdict parts rules verdict → has_order order verdict ≡ false →
        ShowsVerdict parts rules verdict cycle →
        ShowsBlocks parts rules verdict (option_map (λ blocks. blocks.items) blocks) →
        IsTraceFinding parts (on rules order true) result }
    ensures same { verdict_of result ≡ Some verdict }
{
    match (cycle, blocks) {
        (Some(cycle), _) => Finding::Explained(verdict, cycle),
        (None, Some(blocks)) => Finding::Opened(verdict, blocks),
        (None, None) => Finding::Judged(verdict),
    }
}

// The blocks that are open, where the verdict is that some are.
pub(crate) fn blocks_in(
    alloc: Global,
    names: &Numbering,
    recorder: &Recorder,
    verdict: &Verdict,
) -> Result<Option<Vec<OpenBlock>>, AllocError>
    requires { (parts : List Reading) × (rules : Rules) ×
        IsJudged parts rules names.now recorder.now verdict.now }
    ensures { (parts : List Reading) (rules : Rules) →
        IsJudged parts rules names.now recorder.now verdict.now →
        IfOk result (λ blocks. ShowsBlocks parts rules verdict.now
        (option_map (λ b. b.items) blocks)) }
{
    let Verdict::Pending { .. } = verdict else {
        return Ok(None);
    };
    let blocks = open_blocks(alloc, names, recorder)?;
    Ok(Some(blocks))
}

// The first blocks that are open at the end, where all events are recorded.
fn open_blocks(
    alloc: Global,
    names: &Numbering,
    recorder: &Recorder,
) -> Result<Vec<OpenBlock>, AllocError>
    requires { IsWhole names.now recorder.now }
    ensures { (parts : List Reading) (rules : Rules) →
        IsWholeRecord parts rules names.now recorder.now →
        IfOk result (λ blocks. AreOpenBlocks parts rules blocks.items) }
{
    let transactions = transactions_of(alloc, &recorder.events)?;
    let places = openings(alloc, &recorder.events, &transactions)?;
    blocks_at(alloc, names, recorder, first_of(&places))
}

// The places of the begins whose transactions haven't ended, in their order.
fn openings(
    alloc: Global,
    events: &[Numbered],
    transactions: &TransactionTable,
) -> Result<Vec<u32>, AllocError>
    requires few { length events.now < 2 ^ 32 }
    requires of { AreOf events.now transactions.now }
    ensures { IfOk result (λ places. AreBegunTo events.now (length events.now) places.items) }
{
    let mut places = Vec::new(alloc);
    for (place, event) in events.iter().enumerate() {
        let opens = is_opening(events, transactions, event.what, place as u32);
        push_if(&mut places, opens, place as u32)?;
    }
    Ok(places)
}

// Whether the event at this place, which does this, is a begin, and its transaction hasn't ended.
fn is_opening(events: &[Numbered], transactions: &TransactionTable, what: What, place: u32) -> bool
    requires of { AreOf events.now transactions.now }
    requires there { option_map (λ e. e.what) (slice_get events.now place) ≡ Some what }
    ensures { IsTrue result ↔ IsBegunAt events.now place }
{
    match what {
        What::Begin(_) => !has_ended(events, transactions, place),
        _ => false,
    }
}

fn push_if(places: &mut Vec<u32>, wanted: bool, place: u32) -> Result<(), AllocError>
    ensures { OnOk result (places.new.items ≡ places.old.items ++
        (if wanted then place ∷ [] else [])) }
{
    if wanted {
        places.push(place)?;
    }
    Ok(())
}

// The first of these, as many as are told.
fn first_of(places: &[u32]) -> &[u32]
    ensures { result.now ≡ take 64 places.now }
{
    &places[..MOST.min(places.len())]
}

// The blocks that begin at these places.
fn blocks_at(
    alloc: Global,
    names: &Numbering,
    recorder: &Recorder,
    places: &[u32],
) -> Result<Vec<OpenBlock>, AllocError>
    requires shown { AreShown names.now recorder.now }
    requires within { All (λ place. place < length recorder.now.events.items) places.now }
    ensures { IfOk result (λ blocks. AllZip (IsBlockAt names.now recorder.now) places.now
        blocks.items) }
{
    let mut blocks = Vec::with_capacity(alloc, places.len())?;
    for place in places {
        blocks.push(block_at(alloc, names, recorder, *place)?)?;
    }
    Ok(blocks)
}

fn block_at(
    alloc: Global,
    names: &Numbering,
    recorder: &Recorder,
    place: u32,
) -> Result<OpenBlock, AllocError>
    requires shown { AreShown names.now recorder.now }
    requires within { place < length recorder.now.events.items }
    ensures { IfOk result (IsBlockAt names.now recorder.now place) }
{
    let line = recorder.lines.as_slice()[place as usize];
    let event = event_at(alloc, names, recorder, place)?;
    Ok(OpenBlock {
        line,
        thread: event.thread,
        label: event.target,
    })
}
