//! What was told so far of the sources, and telling it.
ghost use Rattle.std.specs.Prelude.{◌≡◌, ◌<◌, ◌≤◌, ◌+◌, ◌++◌, ◌∷◌, [], vec_len, vec_capacity, Ok, Err, None, Some, IfOk, IfErr, OnOk};
ghost use Rattle.aero_model.specs.CallCounts.{seen_by};
ghost use Rattle.aero_report.specs.Asked.{options_of};
ghost use Rattle.aero_report.specs.Forms.{summary_line_in};
ghost use Rattle.aero_model.specs.Verdicts.{no_counts};
ghost use Rattle.aero_telling.specs.Labels.{HasFlagsFor, HasNoneBegun};
ghost use Rattle.aero_telling.specs.Telling.{JoinsLabels, SumsUp, TellsFound, TellsText, HasRoom};

use crate::cause::Cause;
use crate::notable::{Notable, notable_of};
use aero_intake::{Begun, Found};
use aero_model::{Counting, Counts, Ending, Except};
use aero_report::{Form, Options, put, source_text, totals_text};
use std::alloc::{AllocError, Global};
use std::io::Write;

/// The endings of the sources that were told, in order, what is noted of each beside its line, and how many were
/// found to be what.
#[derive(Drop)]
pub struct Told {
    pub endings: Vec<(u64, Ending)>,
    pub notables: Vec<Option<Notable>>,
    pub counts: Counts,
    /// Which labels of the list begin a block of one of the sources. It is `None` if one of them wasn't read to its end or has a
    /// malformed line, and where sources are read no further than they must be. It may be `None` too if a block begins with
    /// each label.
    pub begun: Option<Begun>,
}

impl Told {
    /// Nothing is told yet, and there is room for so many sources, and for each label of the list.
    pub fn new(alloc: Global, sources: usize, except: &Except) -> Result<Told, AllocError>
        ensures endings { IfOk result (λ told. told.endings.items ≡ []) }
        ensures room { IfOk result (λ told. vec_capacity told.endings ≡ sources) }
        ensures notables { IfOk result (λ told. told.notables.items ≡ []) }
        ensures notables_room { IfOk result (λ told. vec_capacity told.notables ≡ sources) }
        ensures counts { IfOk result (λ told. told.counts ≡ no_counts) }
        ensures begun { IfOk result (λ told. HasNoneBegun told.begun) }
        ensures flags { IfOk result (λ told. HasFlagsFor except.now.labels told.begun) }
    {
        let mut begun = Begun::none(alloc);
        begun.make_room(alloc, except.labels().len())?;
        Ok(Told {
            endings: Vec::with_capacity(alloc, sources)?,
            notables: Vec::with_capacity(alloc, sources)?,
            counts: Counts::none(),
            begun: Some(begun),
        })
    }
}

/// What was found of the sources whose lines were written whole, which are the first ones, and why the run stopped.
#[derive(Drop)]
pub struct Report {
    /// What was told of these sources: 65,536 at most.
    pub told: Told,
    /// Why not all lines were written, if so.
    pub cause: Option<Cause>,
}

impl Report {
    /// Memory was refused before any source was read.
    pub fn refused(alloc: Global) -> Report
        ensures endings { result.told.endings.items ≡ [] }
        ensures notables { result.told.notables.items ≡ [] }
        ensures counts { result.told.counts ≡ no_counts }
        ensures begun { HasNoneBegun result.told.begun }
        ensures cause { result.cause ≡ Some Cause.Memory }
    {
        let told = Told {
            endings: Vec::new(alloc),
            notables: Vec::new(alloc),
            counts: Counts::none(),
            begun: Some(Begun::none(alloc)),
        };
        Report {
            told,
            cause: Some(Cause::Memory),
        }
    }
}

/// How texts are made: in which memory, and in which form.
#[derive(Clone, Copy)]
pub struct Style {
    pub alloc: Global,
    pub form: Form,
}

/// Writes the text of the next source, of which this was found, and notes its ending: the result is `Ok(true)`. An `Err`
/// changes nothing that was told.
pub fn tell_found<W: Write>(
    style: Style,
    name: &[u8],
    found: &Found,
    writer: &mut Counting<W>,
    told: &mut Told,
) -> Result<bool, Cause>
    requires room { HasRoom told.old }
    ensures { TellsFound style.form name.now found.now (seen_by W.contents writer.old)
        (seen_by W.contents writer.new) told.old told.new result }
{
    let text = source_text(style.alloc, style.form, name, &found.finding).map_err(
        |_| Cause::Memory,
    )?;
    tell(writer, &text)?;
    told.endings.push_reserved((found.bytes, found.ending));
    told.notables.push_reserved(notable_of(&found.finding));
    told.counts = told.counts.with(&found.finding);
    join(&mut told.begun, &found.begun);
    Ok(true)
}

// Adds the labels that begin a block of a source, or of none if nothing is told of them.
fn join(told: &mut Option<Begun>, found: &Option<Begun>)
    ensures { JoinsLabels told.old found.now told.new }
{
    let Some(mut begun) = told.take() else {
        return;
    };
    if let Some(more) = found {
        begun.join(more);
        *told = Some(begun);
    }
}

/// Writes the summary of sources that were judged so.
pub fn tell_summary<W: Write>(
    style: Style,
    options: Options<'_>,
    counts: &Counts,
    writer: &mut Counting<W>,
) -> Result<(), Cause>
    ensures { TellsText (summary_line_in style.form (options_of options.entry) counts.now)
        (seen_by W.contents writer.old) (seen_by W.contents writer.new) result }
{
    let text = totals_text(style.alloc, style.form, options, counts).map_err(|_| Cause::Memory)?;
    tell(writer, &text)
}

/// The same behind the lines of a run that stopped for this cause, or for none: where it stopped, nothing is written. The
/// answer says why the run stops, if it does.
pub fn sum_up<W: Write>(
    style: Style,
    options: Options<'_>,
    counts: &Counts,
    stopped: Option<Cause>,
    writer: &mut Counting<W>,
) -> Option<Cause>
    ensures summed { SumsUp (summary_line_in style.form (options_of options.entry) counts.now)
        stopped (seen_by W.contents writer.old) (seen_by W.contents writer.new) result }
    ensures whole { result ≡ None → stopped ≡ None }
{
    match stopped {
        Some(why) => Some(why),
        None => match tell_summary(style, options, counts, writer) {
            Ok(()) => None,
            Err(cause) => Some(cause),
        },
    }
}

// Writes a text.
fn tell<W: Write>(writer: &mut Counting<W>, text: &[u8]) -> Result<(), Cause>
    ensures { TellsText text.now (seen_by W.contents writer.old) (seen_by W.contents writer.new)
        result }
{
    match put(writer, text) {
        Ok(()) => Ok(()),
        Err(_) => Err(Cause::Write),
    }
}
