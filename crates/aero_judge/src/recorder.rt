//! First places as an engine that also records the events that it is given, for the cycle that closes with one.
ghost use Rattle.std.specs.Prelude.{◌≡◌, ◌⊎◌, ◌≤◌, ◌++◌, ◌∷◌, [], ℕ, List, length, Option, option_copied, IfOk, OnOk};
ghost use Rattle.std.specs.List.{AllZip};
ghost use Rattle.aero_model.specs.declared.numbered.Numbered.{Numbered};
ghost use Rattle.aero_model.specs.Exempt.{IsJudgedAs};
ghost use Rattle.aero_engine.specs.Given.{Given};
ghost use Rattle.aero_engine.specs.Judging.{IsAdmitted, ComesAfter, Tells};
ghost use Rattle.aero_judge.specs.Recorded.{inner_what, recorded_what, IsLabelSaid, IsSaid, HasStill, HasRecorded, StandsForLeads, IsNotedNext, IsSwept, IsAsBefore, SaysSame};
ghost use Rattle.aero_judge.specs.Swept.{label_in};

use crate::sweep::{keep_at, marks_of, set_places};
use aero_engine::{Engine, Spent, by_kind};
use aero_leads::Leads;
use aero_model::{Numbered, What};
use aero_names::Names;
use aero_shape::Admitted;
use std::alloc::{AllocError, Global};

/// What judges the events, by first places, and what records them with their lines. Of their begins and ends the outermost
/// ones alone are recorded as such, the others as exempt. So a code says of each event whether it is a begin, and with
/// which label.
///
/// Events to which no open block leads are in no cycle that closes later. They are forgotten each time when there are
/// twice as many events as were left by the last time, and at least 8,192.
#[derive(Drop)]
pub struct Recorder {
    leads: Leads,
    pub(crate) events: Vec<Numbered>,
    pub(crate) lines: Vec<u32>,
    pub(crate) said: Vec<u32>,
    // The place of each event among those that were given.
    places: Vec<u32>,
    pub(crate) labels: Names,
    // How many events were given.
    count: u32,
    // At how many recorded events some are forgotten.
    due: usize,
    pub(crate) alloc: Global,
}

// As long as fewer events are recorded none is forgotten. So few stay in a processor's cache.
const FEW: usize = 1 << 13;

impl Recorder {
    ghost use Rattle.std.specs.Prelude.{◌≡◌};
    ghost use Rattle.aero_leads.specs.Standing.{in_block_at};

    // Whether the thread is in a block.
    pub(crate) fn in_block(&self, t: u32) -> bool
        ensures { result ≡ in_block_at self.now.leads t }
    {
        self.leads.in_block(t)
    }
}

impl Engine for Recorder {
    ghost use Rattle.std.specs.Prelude.{true};

    ghost stands_for = { StandsForLeads };

    ghost keeps = { HasRecorded };

    const ASKS_LABELS: bool = true;

    ghost ASKS_LABELS = { true };

    fn new(alloc: Global) -> Recorder {
        Recorder {
            leads: Leads::new(alloc),
            events: Vec::new(alloc),
            lines: Vec::new(alloc),
            said: Vec::new(alloc),
            places: Vec::new(alloc),
            labels: Names::new(alloc, u32::MAX),
            count: 0,
            due: FEW,
            alloc,
        }
    }

    fn judge(
        &mut self,
        line: u32,
        event: &Numbered,
        admitted: Admitted,
        label: Option<&[u8]>,
    ) -> Result<Option<u32>, Spent> {
        judge(self, line, event, admitted, label)
    }
}

// Records the event, and gives the thread whose open block closes a cycle with it, if there is one.
fn judge(
    recorder: &mut Recorder,
    line: u32,
    event: &Numbered,
    admitted: Admitted,
    label: Option<&[u8]>,
) -> Result<Option<u32>, Spent>
    requires { IsAdmitted (StandsForLeads recorder.old) event.now admitted }
    ensures told { (h : List Numbered) (judged : Numbered) → IsJudgedAs event.now judged →
        ComesAfter (StandsForLeads recorder.old) h judged admitted →
        IfOk result (Tells (StandsForLeads recorder.new) (h ++ judged ∷ []) (length h)) }
    ensures kept { OnOk result ((given : List Given) (named : Option (List ℕ)) →
        option_copied label.entry ≡ named → HasRecorded recorder.old given →
        HasRecorded recorder.new (given ++
        record { line = line; event = event.now; admitted = admitted; label = named } ∷ [])) }
{
    sweep_if_due(recorder)?;
    note(recorder, line, event, admitted, label)?;
    by_kind::judge(&mut recorder.leads, event, admitted)
}

// Forgets the events to which no open block leads, where twice as many events are recorded as were left by the last time.
fn sweep_if_due(recorder: &mut Recorder) -> Result<(), AllocError>
    ensures { OnOk result (IsSwept recorder.old recorder.new ⊎ IsAsBefore recorder.old recorder.new) }
{
    if recorder.events.len() < recorder.due {
        return Ok(());
    }
    sweep(recorder)?;
    recorder.due = due_after(recorder.events.len());
    Ok(())
}

fn due_after(left: usize) -> usize
    ensures { left ≤ result }
{
    left.saturating_mul(2).max(FEW)
}

fn sweep(recorder: &mut Recorder) -> Result<(), AllocError>
    ensures { OnOk result (IsSwept recorder.old recorder.new) }
{
    let alloc = recorder.alloc;
    let marks = marks_of(alloc, &recorder.leads, &recorder.events, &recorder.places)?;
    let led = set_places(alloc, &marks)?;
    keep_at(alloc, &mut recorder.events, &led)?;
    keep_at(alloc, &mut recorder.lines, &led)?;
    keep_at(alloc, &mut recorder.said, &led)?;
    keep_at(alloc, &mut recorder.places, &led)?;
    relabel(alloc, &mut recorder.labels, &mut recorder.said)?;
    Ok(())
}

// Forgets the labels that none of these codes names, and numbers the others anew.
fn relabel(alloc: Global, labels: &mut Names, said: &mut Vec<u32>) -> Result<(), AllocError>
    ensures { OnOk result (AllZip (SaysSame labels.old.names labels.new.names) said.old.items
        said.new.items) }
{
    let mut left = Names::new(alloc, u32::MAX);
    let mut codes = Vec::new(alloc);
    recode_all(labels, &mut left, &mut codes, said)?;
    *labels = left;
    *said = codes;
    Ok(())
}

fn recode_all(
    labels: &Names,
    left: &mut Names,
    codes: &mut Vec<u32>,
    said: &[u32],
) -> Result<(), AllocError>
    requires { codes.old.items ≡ [] }
    ensures { OnOk result (AllZip (SaysSame labels.now.names left.new.names) said.now
        codes.new.items) }
{
    for code in said {
        codes.push(recode(labels, left, *code)?)?;
    }
    Ok(())
}

// What says by the labels that are left what the code says.
fn recode(labels: &Names, left: &mut Names, code: u32) -> Result<u32, AllocError>
    ensures same { IfOk result (SaysSame labels.now.names left.new.names code) }
    ensures still { OnOk result (HasStill left.old.names left.new.names) }
{
    match code {
        0 => Ok(0),
        code => code_of_begin(left, label_of(labels, code)),
    }
}

fn label_of(labels: &Names, code: u32) -> Option<&[u8]>
    ensures { option_copied result ≡ label_in labels.now.names code }
{
    if code < 2 {
        return None;
    }
    labels.name(code - 2)
}

// Records the event, its line, its place, and the code of its begin.
fn note(
    recorder: &mut Recorder,
    line: u32,
    event: &Numbered,
    admitted: Admitted,
    label: Option<&[u8]>,
) -> Result<(), AllocError>
    ensures firsts { OnOk result (recorder.new.leads ≡ recorder.old.leads) }
    ensures noted { OnOk result (IsNotedNext recorder.old recorder.new
        (record {
          line = line;
          event = event.now;
          admitted = admitted;
          label = option_copied
              label.entry;
        })) }
{
    let what = recorded_what(admitted, event.what);
    push(
        &mut recorder.events,
        &mut recorder.lines,
        line,
        Numbered { what, ..*event },
    )?;
    let code = code_of(&mut recorder.labels, event.what, label)?;
    push_number(&mut recorder.said, code)?;
    push_number(&mut recorder.places, recorder.count)?;
    recorder.count = recorder.count.checked_add(1).ok_or(AllocError)?;
    Ok(())
}

// Puts the event, and its line, behind the others.
fn push(
    events: &mut Vec<Numbered>,
    lines: &mut Vec<u32>,
    line: u32,
    event: Numbered,
) -> Result<(), AllocError>
    ensures events { OnOk result (events.new.items ≡ events.old.items ++ event ∷ []) }
    ensures lines { OnOk result (lines.new.items ≡ lines.old.items ++ line ∷ []) }
{
    events.push(event)?;
    lines.push(line)?;
    Ok(())
}

fn push_number(numbers: &mut Vec<u32>, number: u32) -> Result<(), AllocError>
    ensures { OnOk result (numbers.new.items ≡ numbers.old.items ++ number ∷ []) }
{
    numbers.push(number)?;
    Ok(())
}

fn recorded_what(admitted: Admitted, what: What) -> What
    ensures { result ≡ recorded_what admitted what }
{
    match admitted {
        Admitted::OuterBegin => What::Begin(None),
        Admitted::OuterEnd => What::End,
        Admitted::IdleJoin | Admitted::Plain { .. } => inner_what(what),
    }
}

// What it is that is no outermost begin or end.
fn inner_what(what: What) -> What
    ensures { result ≡ inner_what what }
{
    match what {
        What::Begin(_) | What::End => What::Exempt,
        what => what,
    }
}

// The code of an event: 0, or of a begin 1 where it has no label, and 2 more than the label's number where it has one. New
// labels get the next number.
fn code_of(labels: &mut Names, what: What, label: Option<&[u8]>) -> Result<u32, AllocError>
    ensures said { IfOk result (IsSaid labels.new.names what (option_copied label.entry)) }
    ensures still { OnOk result (HasStill labels.old.names labels.new.names) }
{
    match what {
        What::Begin(_) => code_of_begin(labels, label),
        _ => Ok(0),
    }
}

fn code_of_begin(labels: &mut Names, label: Option<&[u8]>) -> Result<u32, AllocError>
    ensures said { IfOk result (IsLabelSaid labels.new.names (option_copied label.entry)) }
    ensures still { OnOk result (HasStill labels.old.names labels.new.names) }
{
    let Some(bytes) = label else {
        return Ok(1);
    };
    match labels.number_of_bytes(bytes) {
        Ok(number) => number.checked_add(2).ok_or(AllocError),
        Err(_) => Err(AllocError),
    }
}
