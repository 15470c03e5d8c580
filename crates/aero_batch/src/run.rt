//! A run over many sources.
ghost use Rattle.std.specs.Prelude.{◌≡◌, ◌≤◌, ◌+◌, None, Some, true, false, length, map, vec_len, [], IfOk, IfErr, OnOk};
ghost use Rattle.aero_report.specs.Forms.{summary_line_in};
ghost use Rattle.aero_model.specs.Verdicts.{no_counts};
ghost use Rattle.aero_model.specs.CallCounts.{seen_by};
ghost use Rattle.aero_intake.specs.PlanTerms.{options_in, terms_of};
ghost use Rattle.aero_intake.specs.Source.{counted};
ghost use Rattle.aero_telling.specs.Founds.{sighted, WasRun, WasTold};
ghost use Rattle.aero_batch.specs.Inquiries.{open_count};
ghost use Rattle.aero_batch.specs.Holding.{HasNumbers, IsBegun};
ghost use Rattle.aero_batch.specs.Runs.{HasRun, KeepsStanding, StopsRun};
ghost use Rattle.aero_telling.specs.Labels.{AreLabelsOf, HasNoneBegun};
ghost use Rattle.aero_telling.specs.Telling.{SumsUp};

use crate::helpers::{Helpers, Nobody};
use crate::outcome::{Cause, Outcome};
use crate::setting::Setting;
use crate::standing::Standing;
use crate::step::step;
use crate::tell::tell_next;
use crate::underway::Underway;
use aero_gather::Tally;
use aero_intake::{Begun, Followed, Plan, Source, SourceOf};
use aero_model::{Counting, Counts};
use aero_telling::{Report, Style, Told, sum_up};
use aero_worker::{Crew, Gate, NoGate};
use std::alloc::{AllocError, Global};
use std::io::{Read, Write};
use std::sync::{Arc, Wait};
use std::thread::Threads;

/// Reads the sources, one after the other, and writes the report: the line of each source, in their
/// order, and the summary. As many workers as the plan says read chunks and find verdicts, or as many
/// as the system gives, and the gate runs in each of them. Where none can be started all is done
/// here. However many they are, and in whatever order they answer, the report is the same.
///
/// A source is whole where a read gives 0 bytes, broken where a read fails, of whatever kind, and
/// too large once one byte more has come than the limit. Where memory is refused, or a write fails,
/// the run stops: the outcome tells of the sources whose lines were written whole, and says why.
/// How far later sources were read isn't said. Nothing is flushed.
pub fn run<R: Read, W: Write, G: Gate + Drop + 'static, T: Threads + Wait + Copy + Send + 'static>(
    rt: T,
    alloc: Global,
    sources: &mut [Source<R>],
    writer: &mut Counting<W>,
    plan: &Plan,
    gate: Arc<G>,
) -> Outcome
    requires { length sources.old ≤ 65536 }
    ensures ran { WasRun (terms_of plan.now) plan.now.form
        (map (sighted (counted R.remaining)) sources.old)
        (map (sighted (counted R.remaining)) sources.new)
        (seen_by W.contents writer.old) (seen_by W.contents writer.new) result.endings.items
        result.notables.items result.counts result.cause }
    ensures labels { AreLabelsOf (terms_of plan.now)
        (map (sighted (counted R.remaining)) sources.old)
        (map (sighted (counted R.remaining)) sources.new) result.endings.items result.begun }
    ensures all_settled { result.cause ≡ None →
        result.tally.asked ≡ result.tally.kept + result.tally.done_here }
    ensures tallied { result.tally.kept + result.tally.done_here ≤ result.tally.asked }
    ensures workers { result.workers ≤ plan.now.workers }
{
    let setting = Setting {
        rt: &rt,
        alloc,
        plan,
    };
    let outcome = run_lines(&setting, sources, writer, gate);
    with_summary(alloc, plan, writer, outcome)
}

/// The same with helpers of the caller's own, of whom nothing is promised: whatever they reply, in
/// whatever order, and whether they reply at all, the report is the same.
pub fn run_over<R: Read, W: Write, H: Helpers, T: Wait>(
    rt: &T,
    alloc: Global,
    sources: &mut [Source<R>],
    writer: &mut Counting<W>,
    plan: &Plan,
    helpers: &mut H,
) -> Outcome
    requires { length sources.old ≤ 65536 }
    ensures ran { WasRun (terms_of plan.now) plan.now.form
        (map (sighted (counted R.remaining)) sources.old)
        (map (sighted (counted R.remaining)) sources.new)
        (seen_by W.contents writer.old) (seen_by W.contents writer.new) result.endings.items
        result.notables.items result.counts result.cause }
    ensures labels { AreLabelsOf (terms_of plan.now)
        (map (sighted (counted R.remaining)) sources.old)
        (map (sighted (counted R.remaining)) sources.new) result.endings.items result.begun }
    ensures all_settled { result.cause ≡ None →
        result.tally.asked ≡ result.tally.kept + result.tally.done_here }
    ensures tallied { result.tally.kept + result.tally.done_here ≤ result.tally.asked }
    ensures workers { result.workers ≡ H.count helpers.old }
{
    let setting = Setting { rt, alloc, plan };
    let outcome = run_lines_over(&setting, sources, writer, helpers);
    with_summary(alloc, plan, writer, outcome)
}

/// A run as by `run` that writes the lines alone. The summary is left to the caller, who may write another than the plan's:
/// `told::sum_up` does.
pub fn run_lines<
    R: Followed,
    W: Write,
    G: Gate + Drop + 'static,
    T: Threads + Wait + Copy + Send + 'static,
>(
    setting: &Setting<'_, T>,
    sources: &mut [SourceOf<R>],
    writer: &mut Counting<W>,
    gate: Arc<G>,
) -> Outcome
    requires { length sources.old ≤ 65536 }
    ensures told { WasTold (terms_of setting.now.plan.now) setting.now.plan.now.form
        (map (sighted R.sight) sources.old) (map (sighted R.sight) sources.new)
        (seen_by W.contents writer.old) (seen_by W.contents writer.new) result.endings.items
        result.notables.items result.counts result.cause }
    ensures labels { AreLabelsOf (terms_of setting.now.plan.now)
        (map (sighted R.sight) sources.old) (map (sighted R.sight) sources.new)
        result.endings.items result.begun }
    ensures all_settled { result.cause ≡ None →
        result.tally.asked ≡ result.tally.kept + result.tally.done_here }
    ensures tallied { result.tally.kept + result.tally.done_here ≤ result.tally.asked }
    ensures workers { result.workers ≤ setting.now.plan.now.workers }
{
    let rt = *setting.rt;
    let Ok(mut crew) = Crew::start(rt, setting.alloc, setting.plan.workers, gate) else {
        return run_lines_over(setting, sources, writer, &mut Nobody);
    };
    let outcome = run_lines_over(setting, sources, writer, &mut crew);
    crew.close(&rt);
    outcome
}

/// The same with helpers of the caller's own, as by `run_over`.
pub fn run_lines_over<R: Followed, W: Write, H: Helpers, T: Wait>(
    setting: &Setting<'_, T>,
    sources: &mut [SourceOf<R>],
    writer: &mut Counting<W>,
    helpers: &mut H,
) -> Outcome
    requires { length sources.old ≤ 65536 }
    ensures told { WasTold (terms_of setting.now.plan.now) setting.now.plan.now.form
        (map (sighted R.sight) sources.old) (map (sighted R.sight) sources.new)
        (seen_by W.contents writer.old) (seen_by W.contents writer.new) result.endings.items
        result.notables.items result.counts result.cause }
    ensures labels { AreLabelsOf (terms_of setting.now.plan.now)
        (map (sighted R.sight) sources.old) (map (sighted R.sight) sources.new)
        result.endings.items result.begun }
    ensures all_settled { result.cause ≡ None →
        result.tally.asked ≡ result.tally.kept + result.tally.done_here }
    ensures tallied { result.tally.kept + result.tally.done_here ≤ result.tally.asked }
    ensures workers { result.workers ≡ H.count helpers.old }
{
    let workers = helpers.workers();
    let Ok(mut standing) = begin(setting.alloc, setting.plan, sources.len(), workers == 0) else {
        return refused(setting.alloc, workers);
    };
    match run_on(setting, sources, writer, helpers, &mut standing) {
        Ok(()) => outcome_of(standing, None, workers),
        Err(cause) => outcome_of(standing, Some(cause), workers),
    }
}

// The outcome of these lines once the summary stands behind them, where they are all written.
fn with_summary<W: Write>(
    alloc: Global,
    plan: &Plan,
    writer: &mut Counting<W>,
    outcome: Outcome,
) -> Outcome
    ensures endings { result.endings ≡ outcome.endings }
    ensures notables { result.notables ≡ outcome.notables }
    ensures counts { result.counts ≡ outcome.counts }
    ensures begun { result.begun ≡ outcome.begun }
    ensures tally { result.tally ≡ outcome.tally }
    ensures workers { result.workers ≡ outcome.workers }
    ensures summed { SumsUp (summary_line_in plan.now.form (options_in (terms_of plan.now))
        outcome.counts) outcome.cause
        (seen_by W.contents writer.old) (seen_by W.contents writer.new) result.cause }
    ensures whole { result.cause ≡ None → outcome.cause ≡ None }
{
    let mut outcome = outcome;
    let style = style_of(alloc, plan);
    outcome.cause = sum_up(
        style,
        plan.options(),
        &outcome.counts,
        outcome.cause,
        writer,
    );
    outcome
}

// What stands before the first step, over so many sources.
fn begin(alloc: Global, plan: &Plan, sources: usize, is_alone: bool) -> Result<Standing, AllocError>
    requires { sources ≤ 65536 }
    ensures { IfOk result (λ begun. IsBegun (terms_of plan.now) sources begun.underway begun.told) }
{
    let told = Told::new(alloc, sources, plan.terms.except())?;
    let underway = Underway::new(alloc, plan, sources, is_alone)?;
    Ok(Standing { underway, told })
}

/// The lines alone, by `run_lines`, over sources that are handed over and come back, in their order: it is called as
/// `aero_lanes::run_in_lanes` is. For one source, and for small ones, it is faster.
pub fn run_in_turn<R: Followed, W: Write, T: Threads + Wait + Copy + Send + 'static>(
    rt: T,
    alloc: Global,
    mut sources: Vec<SourceOf<R>>,
    writer: &mut Counting<W>,
    plan: &Plan,
) -> (Report, Vec<SourceOf<R>>)
    requires { vec_len sources ≤ 65536 }
    ensures told { WasTold (terms_of plan.now) plan.now.form (map (sighted R.sight) sources.items)
        (map (sighted R.sight) result.1.items)
        (seen_by W.contents writer.old) (seen_by W.contents writer.new) result.0.told.endings.items
        result.0.told.notables.items result.0.told.counts result.0.cause }
    ensures labels { AreLabelsOf (terms_of plan.now) (map (sighted R.sight) sources.items)
        (map (sighted R.sight) result.1.items) result.0.told.endings.items result.0.told.begun }
{
    let Ok(gate) = Arc::new(alloc, NoGate) else {
        return (Report::refused(alloc), sources);
    };
    let setting = Setting {
        rt: &rt,
        alloc,
        plan,
    };
    let Outcome {
        endings,
        notables,
        counts,
        begun,
        cause,
        ..
    } = run_lines(&setting, &mut sources, writer, gate);
    let told = Told {
        endings,
        notables,
        counts,
        begun,
    };
    (Report { told, cause }, sources)
}

// Where memory was refused before the first step.
fn refused(alloc: Global, workers: u32) -> Outcome
    ensures endings { result.endings.items ≡ [] }
    ensures notables { result.notables.items ≡ [] }
    ensures counts { result.counts ≡ no_counts }
    ensures begun { HasNoneBegun result.begun }
    ensures cause { result.cause ≡ Some Cause.Memory }
    ensures nothing { (result.tally.asked ≡ 0) × (result.tally.kept ≡ 0) ×
        (result.tally.done_here ≡ 0) }
    ensures workers { result.workers ≡ workers }
{
    let tally = Tally {
        asked: 0,
        kept: 0,
        done_here: 0,
    };
    Outcome {
        endings: Vec::new(alloc),
        notables: Vec::new(alloc),
        counts: Counts::none(),
        begun: Some(Begun::none(alloc)),
        cause: Some(Cause::Memory),
        tally,
        workers,
    }
}

// What a run that came so far has told, asked and kept.
fn outcome_of(standing: Standing, cause: Option<Cause>, workers: u32) -> Outcome
    ensures endings { result.endings ≡ standing.told.endings }
    ensures notables { result.notables ≡ standing.told.notables }
    ensures counts { result.counts ≡ standing.told.counts }
    ensures begun { result.begun ≡ standing.told.begun }
    ensures cause { result.cause ≡ cause }
    ensures asked { result.tally.asked ≡ standing.underway.inquiry.asked }
    ensures tallied { result.tally.kept + result.tally.done_here ≤ result.tally.asked }
    ensures settled { open_count standing.underway.inquiry ≡ 0 →
        result.tally.asked ≡ result.tally.kept + result.tally.done_here }
    ensures workers { result.workers ≡ workers }
{
    let Standing { underway, told } = standing;
    let Told {
        endings,
        notables,
        counts,
        begun,
    } = told;
    Outcome {
        endings,
        notables,
        counts,
        begun,
        cause,
        tally: underway.inquiry.tally(),
        workers,
    }
}

// All steps.
fn run_on<R: Followed, W: Write, H: Helpers, T: Wait>(
    setting: &Setting<'_, T>,
    sources: &mut [SourceOf<R>],
    writer: &mut Counting<W>,
    helpers: &mut H,
    standing: &mut Standing,
) -> Result<(), Cause>
    requires { IsBegun (terms_of setting.now.plan.now) (length sources.old) standing.old.underway
        standing.old.told }
    ensures done { OnOk result (HasRun setting.now.plan.now (map (sighted R.sight) sources.old)
        (map (sighted R.sight) sources.new)
        (seen_by W.contents writer.old) (seen_by W.contents writer.new) standing.new.told None) }
    ensures stopped { IfErr result
        (λ cause. HasRun setting.now.plan.now (map (sighted R.sight) sources.old)
        (map (sighted R.sight) sources.new)
        (seen_by W.contents writer.old) (seen_by W.contents writer.new) standing.new.told
        (Some cause)) }
    ensures settled { OnOk result (open_count standing.new.underway.inquiry ≡ 0) }
{
    'steps: for _ in setting.rt.forever() {
        if advance(setting, sources, writer, helpers, standing)? {
            return Ok(());
        }
    }
    unreachable!()
}

// The next line is written, or else one step is done. The answer says whether all is done.
fn advance<R: Followed, W: Write, H: Helpers, T: Wait>(
    setting: &Setting<'_, T>,
    sources: &mut [SourceOf<R>],
    writer: &mut Counting<W>,
    helpers: &mut H,
    standing: &mut Standing,
) -> Result<bool, Cause>
    requires { HasNumbers (terms_of setting.now.plan.now) (length sources.old) standing.old.underway
        standing.old.told }
    ensures stands { OnOk result (KeepsStanding setting.now.plan.now
        (map (sighted R.sight) sources.old) (map (sighted R.sight) sources.new)
        (seen_by W.contents writer.old) (seen_by W.contents writer.new) standing.old.underway
        standing.new.underway standing.old.told standing.new.told) }
    ensures stopped { IfErr result
        (StopsRun setting.now.plan.now (map (sighted R.sight) sources.old)
        (map (sighted R.sight) sources.new)
        (seen_by W.contents writer.old) (seen_by W.contents writer.new) standing.old.underway
        standing.old.told standing.new.told) }
    ensures all_told { IfOk result (λ is_done. is_done ≡ true →
        vec_len standing.new.told.endings ≡ length sources.new) }
    ensures all_settled { IfOk result (λ is_done. is_done ≡ true →
        open_count standing.new.underway.inquiry ≡ 0) }
{
    if tell_ready(
        setting,
        sources,
        &standing.underway,
        writer,
        &mut standing.told,
    )? {
        return Ok(false);
    }
    if standing.told.endings.len() == sources.len() && standing.underway.inquiry.is_settled() {
        return Ok(true);
    }
    match step(setting, sources, helpers, &mut standing.underway) {
        Ok(()) => Ok(false),
        Err(refused) => Err(cause_of(refused)),
    }
}

// How the texts of a run by this plan are made.
fn style_of(alloc: Global, plan: &Plan) -> Style
    ensures { result.form ≡ plan.now.form }
{
    Style {
        alloc,
        form: plan.form,
    }
}

// Why a run stops whose step was refused.
fn cause_of(_refused: AllocError) -> Cause
    ensures { result ≡ Cause.Memory }
{
    Cause::Memory
}

// Writes the next line, where it is found what it is to say. The answer says whether it is.
fn tell_ready<R: Followed, W: Write, T>(
    setting: &Setting<'_, T>,
    sources: &[SourceOf<R>],
    underway: &Underway,
    writer: &mut Counting<W>,
    told: &mut Told,
) -> Result<bool, Cause>
    requires { HasNumbers (terms_of setting.now.plan.now) (length sources.now) underway.now told.old }
    ensures stands { IfOk result (λ is_told. is_told ≡ true →
        KeepsStanding setting.now.plan.now (map (sighted R.sight) sources.now)
        (map (sighted R.sight) sources.now)
        (seen_by W.contents writer.old) (seen_by W.contents writer.new) underway.now underway.now
        told.old told.new) }
    ensures unchanged { IfOk result (λ is_told. is_told ≡ false →
        (seen_by W.contents writer.new ≡ seen_by W.contents writer.old) × (told.new ≡ told.old)) }
    ensures stopped { IfErr result
        (StopsRun setting.now.plan.now (map (sighted R.sight) sources.now)
        (map (sighted R.sight) sources.now)
        (seen_by W.contents writer.old) (seen_by W.contents writer.new) underway.now told.old
        told.new) }
{
    let place = told.endings.len();
    if place >= underway.checked {
        return Ok(false);
    }
    let name = sources[place].name.as_slice();
    tell_next(
        style_of(setting.alloc, setting.plan),
        name,
        &underway.tracks[place],
        writer,
        told,
    )
}
