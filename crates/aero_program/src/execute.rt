//! What the program does with what its words ask for.
ghost use Rattle.std.specs.Prelude.{◌≡◌, ◌⊎◌, ◌≤◌, ◌++◌, ℕ, List, [], false, true, if◌then◌else◌, map, option_map, slice_get, unwrap_or, vec_len, None, Some, IfOk, IfSome, IsSome, OnOk, OnErr};
ghost use Rattle.aero_model.specs.CallCounts.{Seen, seen_by};
ghost use Rattle.aero_telling.specs.Founds.{Sighted, sighted, Took, WasTold};
ghost use Rattle.aero_telling.specs.Labels.{AreLabelsOf};
ghost use Rattle.aero_telling.specs.Telling.{SumsUp};
ghost use Rattle.aero_intake.specs.PlanTerms.{options_with, terms_of};
ghost use Rattle.aero_program.specs.Executed.{Executes, Ends, IsLeftOf, Fails, Helps, Judges, Stops, TellsNoWords, TellsUnlabelled, TellsUnlisted, TellsWord};
ghost use Rattle.aero_program.specs.declared.failure.Failure.TheVariants.{Memory};
ghost use Rattle.aero_program.specs.declared.listing.Unlisted.TheVariants.{Unread};
ghost use Rattle.aero_program.specs.Command.{listed_by};
ghost use Rattle.aero_program.specs.Inputs.{IsUntouched};
ghost use Rattle.aero_program.specs.LabelFiles.{AreListed};
ghost use Rattle.aero_program.specs.Notes.{AreNotes, label_lines, note_at, note_text, note_texts, noted_of_all};
ghost use Rattle.aero_program.specs.Retries.{seen_within, tried_by};
ghost use Rattle.aero_program.specs.Streams.{IsTold, WasCut, shown_by};
ghost use Rattle.aero_program.specs.Traces.{came_in, input_of, sight_of};
ghost use Rattle.aero_report.specs.Asked.{note_of};
ghost use Rattle.aero_report.specs.Forms.{summary_line_in};

use crate::arguments;
use crate::command::{Config, Refused, Stop};
use crate::failure::{Failure, odd_word_line};
use crate::files::Opener;
use crate::label_files::{LabelFault, Unlabelled, label_set};
use crate::labels::{lines_on, unused_labels};
use crate::lasting::flush_fault;
use crate::listing::Unlisted;
use crate::looker::Looker;
use crate::notes::{line_note, note_texts, notes_of, reason_note};
use crate::output::Output;
use crate::reason::Reason;
use crate::retrying::Retrying;
use crate::sizes::{are_worth_threads, look_at_all};
use crate::sources::{Gathered, Ungathered, sources_of, untouched};
use crate::status::{end_after, end_checked};
use crate::traced::Traced;
use aero_batch::{Cause, run_in_turn, sum_up};
use aero_intake::{Followed, Plan, SourceOf};
use aero_lanes::run_in_lanes;
use aero_model::{Counting, Ending, Except, Name};
use aero_report::{Cut, Note, put};
use aero_telling::{Report, Style};
use std::alloc::{AllocError, Global};
use std::io::{Read, Write};
use std::sync::Wait;
use std::thread::Threads;

/// What a run takes time, threads and memory from.
#[derive(Clone, Copy)]
pub struct Host<T> {
    pub rt: T,
    pub alloc: Global,
}

/// The streams that the program writes to. At the return of a function that takes them, contracts see standard output as
/// `exit.0`, and standard error as `exit.1.0`.
pub struct Streams<'a, O: Write, E: Write> {
    pub output: &'a mut Output<O>,
    pub errors: &'a mut Counting<Retrying<E>>,
}

/// Does what the words ask for, and gives the exit status, and standard input as it left it, unless memory was refused.
///
/// Where they ask for traces to be judged, it judges the files, or standard input where there are
/// none, in which blocks with the labels that they give are no transactions, and in which blocks that are open end where they
/// ask for that, writes the report, with the serial orders and the events of cycles where they ask for those, to standard
/// output and flushes it, and then writes the notes on the sources and on labels, which the summary as JSON has too, to
/// standard error. Where the files stand in a
/// list that can't be had, it says why, and judges nothing. Help goes to standard
/// output, which is flushed; why there is nothing to judge, and why the program fails, goes to
/// standard error. Where standard error takes nothing, the status still tells. A read, a write or a
/// flush that is interrupted is tried again.
pub fn execute<
    S: Read + Drop + Send,
    F: Opener + Drop + Sync,
    O: Write,
    E: Write,
    T: Threads + Wait + Copy + Send + Sync + 'static,
>(
    host: Host<T>,
    asked: Result<Config, Stop>,
    files: &F,
    stdin: S,
    streams: Streams<'_, O, E>,
) -> (u8, Option<Retrying<S>>)
where
    F::File: Send,
    ensures { Executes (F.known files.now) F.can_fail F.holds asked (S.remaining stdin)
        (option_map (seen_within S.remaining) result.1)
        (shown_by O.contents streams.entry.output.now) (shown_by O.contents streams.exit.0.now)
        (seen_by (λ w. E.contents (tried_by w)) streams.entry.errors.now)
        (seen_by (λ w. E.contents (tried_by w)) streams.exit.1.0.now) result.0 }
{
    let Streams { output, errors } = streams;
    match asked {
        Ok(config) => judge(Place { host, files }, config, stdin, output, errors),
        Err(stop) => stop_for(host.alloc, stop, stdin, output, errors),
    }
}

// Tells why nothing is judged, and leaves standard input as it is.
fn stop_for<S: Read + Drop, O: Write, E: Write>(
    alloc: Global,
    stop: Stop,
    stdin: S,
    output: &mut Output<O>,
    errors: &mut Counting<E>,
) -> (u8, Option<Retrying<S>>)
    ensures untouched { IsUntouched (S.remaining stdin)
        (option_map (seen_within S.remaining) result.1) }
    ensures stops { Stops stop (shown_by O.contents output.old) (shown_by O.contents output.new)
        (seen_by E.contents errors.old) (seen_by E.contents errors.new) result.0 }
{
    let status = tell_stop(alloc, &stop, output, errors);
    (status, Some(untouched(stdin)))
}

// What a run takes time, threads and memory from, and the files of the machine.
struct Place<'a, T, F> {
    host: Host<T>,
    files: &'a F,
}

// What is asked for, and the set of labels that files have, if there are files of labels.
struct Chosen {
    config: Config,
    set: Option<Except>,
}

// Reads the files of labels, judges the sources, and tells what is found.
fn judge<
    S: Read + Drop + Send,
    F: Opener + Drop + Sync,
    O: Write,
    E: Write,
    T: Threads + Wait + Copy + Send + Sync + 'static,
>(
    place: Place<'_, T, F>,
    config: Config,
    stdin: S,
    output: &mut Output<O>,
    errors: &mut Counting<E>,
) -> (u8, Option<Retrying<S>>)
where
    F::File: Send,
    ensures { Judges (F.known place.entry.files.now) F.can_fail F.holds config (S.remaining stdin)
        (option_map (seen_within S.remaining) result.1) (shown_by O.contents output.old)
        (shown_by O.contents output.new)
        (seen_by E.contents errors.old) (seen_by E.contents errors.new) result.0 }
{
    let Place { host, files } = place;
    let alloc = host.alloc;
    match label_set(alloc, files, &config) {
        Ok(set) => {
            let place = Place { host, files };
            judge_by(place, Chosen { config, set }, stdin, output, errors)
        }
        Err(fault) => {
            let status = tell_label_fault(alloc, fault, config.terminals.errors, errors);
            (status, Some(untouched(stdin)))
        }
    }
}

// Judges the sources by the labels that were chosen, and tells what is found.
fn judge_by<
    S: Read + Drop + Send,
    F: Opener + Drop + Sync,
    O: Write,
    E: Write,
    T: Threads + Wait + Copy + Send + Sync + 'static,
>(
    place: Place<'_, T, F>,
    chosen: Chosen,
    stdin: S,
    output: &mut Output<O>,
    errors: &mut Counting<E>,
) -> (u8, Option<Retrying<S>>)
where
    F::File: Send,
    requires { AreListed (F.known place.files.now) chosen.config
        (unwrap_or chosen.set (listed_by chosen.config.except.items chosen.config.only.items)) }
    ensures { Judges (F.known place.entry.files.now) F.can_fail F.holds chosen.config
        (S.remaining stdin) (option_map (seen_within S.remaining) result.1)
        (shown_by O.contents output.old) (shown_by O.contents output.new)
        (seen_by E.contents errors.old) (seen_by E.contents errors.new) result.0 }
{
    let Place { host, files } = place;
    let alloc = host.alloc;
    let Chosen { config, set } = chosen;
    let long = config.long;
    let fail_open = config.fail_open;
    let fail_unchecked = config.fail_unchecked;
    let on_terminal = config.terminals.errors;
    let Ok((plan, asked)) = config.into_plan(alloc, set) else {
        return (fail(Failure::Memory, errors), None);
    };
    let gathered = match sources_of(alloc, files, stdin, &asked) {
        Ok(gathered) => gathered,
        Err(Ungathered { why, stdin }) => {
            let status = tell_unlisted(alloc, asked.list_path(), why, on_terminal, errors);
            return (status, stdin);
        }
    };
    let Gathered {
        mut sources,
        stdin: rest,
    } = gathered;
    let extent = look_at_all(files, &asked, &mut sources);
    files.begin(extent.work);
    let in_lanes = are_worth_threads(extent);
    let (report, sources) = run_all(host, in_lanes, sources, &mut output.writer, &plan);
    let unused = unused_labels(alloc, &plan.terms, &report.told.begun);
    let looker = Looker::new(alloc, files);
    let notes = all_notes(&looker, &sources, &report, long, asked.are_words());
    let beside = Asides { unused, notes };
    let cause = sum_up_with(alloc, &plan, &report, &beside, &mut output.writer);
    let flushed = output.flush();
    let end = end_after(cause, &report.told.counts, &flushed, fail_open);
    let end = end_checked(end, fail_unchecked, &report.told.notables);
    let told = told_after(&beside.unused, cause);
    let lines = all_lines(alloc, &beside.notes, told, on_terminal);
    (finish(end, lines, errors), left_beside(rest, sources))
}

// Standard input as it was left beside the sources, or else as a run left it, where it was the one source.
fn left_beside<S: Read + Drop, F: Opener + Drop>(
    rest: Option<Retrying<S>>,
    sources: Vec<SourceOf<Traced<S, F>>>,
) -> Option<Retrying<S>>
    ensures kept { IsSome rest → result ≡ rest }
    ensures source { rest ≡ None → vec_len sources ≡ 1 → (s : Sighted) →
        slice_get (map (sighted (sight_of S.remaining F.known F.File.remaining)) sources.items) 0 ≡
        Some s
        → IsLeftOf s (option_map (seen_within S.remaining) result) }
{
    match rest {
        Some(stdin) => Some(stdin),
        None => standard_left(sources),
    }
}

// Standard input as a run left it, where it was the one source.
fn standard_left<S: Read + Drop, F: Opener + Drop>(
    mut sources: Vec<SourceOf<Traced<S, F>>>,
) -> Option<Retrying<S>>
    ensures { vec_len sources ≡ 1 → (s : Sighted) →
        slice_get (map (sighted (sight_of S.remaining F.known F.File.remaining)) sources.items) 0 ≡
        Some s
        → IsLeftOf s (option_map (seen_within S.remaining) result) }
{
    let source = sources.pop()?;
    let SourceOf { reader, .. } = source;
    reader.into_inner().into_standard()
}

// What is told beside the lines of the sources: the labels with which no block begins, and the notes on the sources. `None`
// says that memory was refused for them.
#[derive(Drop)]
struct Asides<'a> {
    unused: Option<Vec<&'a Name>>,
    notes: Option<Vec<Note>>,
}

// Writes the summary behind the lines of a run, with what is told beside these. Where memory was refused for that, the
// run stops for it. The answer says why it stops, if it does.
fn sum_up_with<W: Write>(
    alloc: Global,
    plan: &Plan,
    report: &Report,
    beside: &Asides<'_>,
    writer: &mut Counting<W>,
) -> Option<Cause>
    ensures summed { (text : List ℕ) →
        IfSome beside.now.unused (λ names. IfSome beside.now.notes (λ notes.
        summary_line_in plan.now.form
        (options_with (terms_of plan.now) (map (λ label. label.now) names.items)
        (map note_of notes.items)) report.now.told.counts ≡ text))
        → SumsUp text report.now.cause (seen_by W.contents writer.old)
        (seen_by W.contents writer.new) result }
    ensures known { result ≡ None → IsSome beside.now.unused }
    ensures whole { result ≡ None → report.now.cause ≡ None }
{
    let Some(names) = &beside.unused else {
        return refused_after(report.cause);
    };
    let Some(notes) = &beside.notes else {
        return refused_after(report.cause);
    };
    let style = Style {
        alloc,
        form: plan.form,
    };
    let options = plan.options_with(names.as_slice(), notes.as_slice());
    sum_up(style, options, &report.told.counts, report.cause, writer)
}

// Why a run stops to which memory is refused behind its lines, where it may have stopped before.
fn refused_after(stopped: Option<Cause>) -> Option<Cause>
    ensures summed { (text : List ℕ) (at : Seen) → SumsUp text stopped at at result }
    ensures stops { IsSome result }
{
    match stopped {
        Some(why) => Some(why),
        None => Some(Cause::Memory),
    }
}

// The labels that are told beside the report: where the run stopped, none.
fn told_after<'u, 'a>(unused: &'u Option<Vec<&'a Name>>, cause: Option<Cause>) -> &'u [&'a Name]
    ensures whole { cause ≡ None → IfSome unused.now (λ names. result.now ≡ names.items) }
    ensures stopped { IfSome cause (λ why. result.now ≡ []) }
{
    match cause {
        Some(_) => &[],
        None => found_in(unused),
    }
}

// The labels that were found, where memory wasn't refused.
fn found_in<'u, 'a>(unused: &'u Option<Vec<&'a Name>>) -> &'u [&'a Name]
    ensures { IfSome unused.now (λ names. result.now ≡ names.items) }
{
    match unused {
        Some(names) => names.as_slice(),
        None => &[],
    }
}

// The notes on the sources of a run, where memory isn't refused for them.
fn all_notes<S: Read + Drop, F: Opener + Drop, G: Opener>(
    looker: &Looker<'_, G>,
    sources: &[SourceOf<Traced<S, F>>],
    report: &Report,
    long: bool,
    are_words: bool,
) -> Option<Vec<Note>>
    ensures { IfSome result (λ notes.
        AreNotes G.holds (noted_of_all input_of came_in are_words sources.now
        (if long then [] else report.now.told.endings.items) report.now.told.notables.items)
        (map note_of notes.items)) }
{
    let endings = noted(&report.told.endings, long);
    match notes_of(looker, sources, endings, &report.told.notables, are_words) {
        Ok(notes) => Some(notes),
        Err(_) => None,
    }
}

// The lines of notes on sources, where memory wasn't refused for these, and those on labels.
fn all_lines(
    alloc: Global,
    notes: &Option<Vec<Note>>,
    unused: &[&Name],
    on_terminal: bool,
) -> Result<Vec<u8>, AllocError>
    ensures known { IfOk result (λ text. IsSome notes.now) }
    ensures lines { IfOk result (λ text.
        IfSome notes.now (λ notes. text.items ≡ note_texts on_terminal (map note_of notes.items) ++
        label_lines on_terminal (map (λ label. label.now) unused.now))) }
{
    let Some(notes) = notes else {
        return Err(AllocError);
    };
    let mut text = note_texts(alloc, notes, on_terminal)?;
    let lines = lines_on(alloc, unused, on_terminal)?;
    text.extend_from_slice(&lines)?;
    Ok(text)
}

// Writes the lines of the sources: by a thread for each, or in turn. With one worker they are read in turn, because it reads
// ahead while the calling thread judges.
fn run_all<R: Followed + Drop + Send, W: Write, T: Threads + Wait + Copy + Send + Sync + 'static>(
    host: Host<T>,
    in_lanes: bool,
    sources: Vec<SourceOf<R>>,
    writer: &mut Counting<W>,
    plan: &Plan,
) -> (Report, Vec<SourceOf<R>>)
    requires { vec_len sources ≤ 65536 }
    ensures told { WasTold (terms_of plan.now) plan.now.form (map (sighted R.sight) sources.items)
        (map (sighted R.sight) result.1.items)
        (seen_by W.contents writer.old) (seen_by W.contents writer.new) result.0.told.endings.items
        result.0.told.notables.items result.0.told.counts result.0.cause }
    ensures labels { AreLabelsOf (terms_of plan.now) (map (sighted R.sight) sources.items)
        (map (sighted R.sight) result.1.items) result.0.told.endings.items result.0.told.begun }
{
    if in_lanes && plan.workers > 1 {
        return run_in_lanes(host.rt, host.alloc, sources, writer, plan);
    }
    run_in_turn(host.rt, host.alloc, sources, writer, plan)
}

// Tells why there are no sources, where the list with their names, at this path, can't be had.
fn tell_unlisted<E: Write>(
    alloc: Global,
    path: &str,
    why: Unlisted,
    on_terminal: bool,
    errors: &mut Counting<E>,
) -> u8
    ensures { TellsUnlisted on_terminal path.now why (seen_by E.contents errors.old)
        (seen_by E.contents errors.new) result
        ⊎ Fails Memory (seen_by E.contents errors.old) (seen_by E.contents errors.new) result }
{
    match why {
        Unlisted::Unread(reason) => tell_unread(alloc, path, reason, on_terminal, errors),
        Unlisted::TooMany => fail(Failure::TooManyFiles, errors),
        Unlisted::Memory => fail(Failure::Memory, errors),
    }
}

// Tells why the list at this path couldn't be opened or read.
fn tell_unread<E: Write>(
    alloc: Global,
    path: &str,
    reason: Reason,
    on_terminal: bool,
    errors: &mut Counting<E>,
) -> u8
    ensures { TellsUnlisted on_terminal path.now (Unread reason) (seen_by E.contents errors.old)
        (seen_by E.contents errors.new) result
        ⊎ Fails Memory (seen_by E.contents errors.old) (seen_by E.contents errors.new) result }
{
    let Ok(line) = reason_note(alloc, path.as_bytes(), reason, on_terminal) else {
        return fail(Failure::Memory, errors);
    };
    let _ = tell(errors, &line);
    3
}

// Tells why there is no list of labels.
fn tell_label_fault<E: Write>(
    alloc: Global,
    fault: LabelFault<'_>,
    on_terminal: bool,
    errors: &mut Counting<E>,
) -> u8
    ensures { TellsUnlabelled on_terminal fault.entry.path.now fault.entry.why
        (seen_by E.contents errors.old) (seen_by E.contents errors.new) result
        ⊎ Fails Memory (seen_by E.contents errors.old) (seen_by E.contents errors.new) result }
{
    let path = fault.path;
    match fault.why {
        Unlabelled::Unread(reason) => tell_unread(alloc, path, reason, on_terminal, errors),
        Unlabelled::NoLabel(line) => {
            let place = LineAt { path, line };
            tell_on_line(alloc, place, b"not a label", on_terminal, errors)
        }
        Unlabelled::TooMany(line) => {
            let place = LineAt { path, line };
            tell_on_line(alloc, place, b"more than 65536 labels", on_terminal, errors)
        }
        Unlabelled::Memory => fail(Failure::Memory, errors),
    }
}

// A line of the file at a path.
#[derive(Clone, Copy)]
struct LineAt<'a> {
    path: &'a str,
    line: u64,
}

// Tells what is wrong with a line of a file.
fn tell_on_line<E: Write>(
    alloc: Global,
    at: LineAt<'_>,
    words: &[u8],
    on_terminal: bool,
    errors: &mut Counting<E>,
) -> u8
    ensures { (IsTold (seen_by E.contents errors.old) (seen_by E.contents errors.new)
        (note_text on_terminal (note_at at.entry.path.now (Some at.entry.line) words.now)) ×
        (result ≡ 3))
        ⊎ Fails Memory (seen_by E.contents errors.old) (seen_by E.contents errors.new) result }
{
    let Ok(line) = line_note(alloc, at.path.as_bytes(), at.line, words, on_terminal) else {
        return fail(Failure::Memory, errors);
    };
    let _ = tell(errors, &line);
    3
}

// The endings by which it is noted which sources are too large: of long ones none are.
fn noted(endings: &[(u64, Ending)], long: bool) -> &[(u64, Ending)]
    ensures { result.now ≡ (if long then [] else endings.now) }
{
    if long { &[] } else { endings }
}

// Tells the notes, and then why the program fails, where it does.
fn finish<E: Write>(
    end: Result<u8, Failure>,
    notes: Result<Vec<u8>, AllocError>,
    errors: &mut Counting<E>,
) -> u8
    ensures { (text : List ℕ) → IfOk notes (λ notes. notes.items ≡ text) →
        Ends text end (seen_by E.contents errors.old) (seen_by E.contents errors.new) result }
{
    let Ok(notes) = notes else {
        return match end {
            Ok(_) => fail(Failure::Memory, errors),
            Err(failure) => fail(failure, errors),
        };
    };
    let told = tell(errors, &notes);
    match end {
        Ok(status) => status,
        Err(failure) => match told {
            Ok(()) => fail(failure, errors),
            Err(_) => failure.status(),
        },
    }
}

// Tells why nothing is judged: the help on standard output, all else on standard error.
fn tell_stop<O: Write, E: Write>(
    alloc: Global,
    stop: &Stop,
    output: &mut Output<O>,
    errors: &mut Counting<E>,
) -> u8
    ensures { Stops stop.now (shown_by O.contents output.old) (shown_by O.contents output.new)
        (seen_by E.contents errors.old) (seen_by E.contents errors.new) result }
{
    match stop {
        Stop::Refused(Refused::Help(text)) => tell_help(text.as_str(), output, errors),
        Stop::Refused(Refused::Usage(text)) => {
            let _ = tell(errors, text.as_bytes());
            3
        }
        Stop::Refused(Refused::TooManyFiles) => fail(Failure::TooManyFiles, errors),
        Stop::Refused(Refused::BadLabel) => fail(Failure::BadLabel, errors),
        Stop::Refused(Refused::TooManyLabels) => fail(Failure::TooManyLabels, errors),
        Stop::Refused(Refused::Memory) => fail(Failure::Memory, errors),
        Stop::Unread(why) => tell_no_words(alloc, why, errors),
    }
}

// Tells why the words can't be had.
fn tell_no_words<E: Write>(alloc: Global, why: &arguments::Unread, errors: &mut Counting<E>) -> u8
    ensures { TellsNoWords why.now (seen_by E.contents errors.old) (seen_by E.contents errors.new)
        result }
{
    match why {
        arguments::Unread::NotUtf8(word) => tell_odd_word(alloc, word, errors),
        arguments::Unread::Memory => fail(Failure::Memory, errors),
    }
}

// Tells which word isn't UTF-8.
fn tell_odd_word<E: Write>(alloc: Global, word: &[u8], errors: &mut Counting<E>) -> u8
    ensures { TellsWord word.now (seen_by E.contents errors.old) (seen_by E.contents errors.new)
        result }
{
    let Ok(line) = odd_word_line(alloc, word) else {
        return fail(Failure::NotUtf8, errors);
    };
    let _ = tell(errors, &line);
    3
}

fn tell_help<O: Write, E: Write>(text: &str, output: &mut Output<O>, errors: &mut Counting<E>) -> u8
    ensures { Helps text.now (shown_by O.contents output.old) (shown_by O.contents output.new)
        (seen_by E.contents errors.old) (seen_by E.contents errors.new) result }
{
    let told = tell(&mut output.writer, text.as_bytes());
    let fault = flush_fault(&output.flush());
    if told.is_err() {
        return fail(Failure::of_cut(fault), errors);
    }
    match fault {
        Some(kind) => fail(Failure::of_write(kind), errors),
        None => 0,
    }
}

// Tells why the program fails, and gives its status.
fn fail<E: Write>(failure: Failure, errors: &mut Counting<E>) -> u8
    ensures { Fails failure (seen_by E.contents errors.old) (seen_by E.contents errors.new) result }
{
    let _ = tell(errors, failure.line().as_bytes());
    failure.status()
}

// Writes a text, or a front of it where a write fails.
fn tell<W: Write>(writer: &mut Counting<W>, text: &[u8]) -> Result<(), Cut>
    ensures whole { OnOk result (Took (seen_by W.contents writer.old)
        (seen_by W.contents writer.new) text.now) }
    ensures cut { OnErr result (WasCut (seen_by W.contents writer.old)
        (seen_by W.contents writer.new) text.now) }
{
    put(writer, text)
}
