//! First places as an engine that keeps both what a serial order is made of and what shows a cycle.
ghost use Rattle.std.specs.Prelude.{◌≡◌, ◌++◌, ◌∷◌, [], ℕ, List, length, true, Some, option_map, option_copied, Option, IfOk, OnOk};
ghost use Rattle.aero_grammar.specs.Reading.{Reading};
ghost use Rattle.aero_model.specs.declared.numbered.Numbered.{Numbered};
ghost use Rattle.aero_model.specs.Exempt.{IsJudgedAs};
ghost use Rattle.aero_engine.specs.Given.{Given};
ghost use Rattle.aero_engine.specs.Judging.{IsAdmitted, ComesAfter, Tells};
ghost use Rattle.aero_judge.specs.Finding.{HasOwnVerdict, IsTraceFinding};
ghost use Rattle.aero_model.specs.Terms.{on, Rules};
ghost use Rattle.aero_model.specs.Verdicts.{verdict_of};
ghost use Rattle.aero_judge.specs.InFull.{StandsForFull, KeepsInFull};
ghost use Rattle.aero_verdict.specs.Explained.{ShowsCertain};
ghost use Rattle.aero_verdict.specs.Ordered.{TellsInOrder};
ghost use Rattle.aero_judge.specs.Records.{IsJudged};

use crate::explained::cycle_in;
use crate::opened::finding_shown;
use crate::recorder::Recorder;
use aero_engine::{Engine, Spent};
use aero_model::{Cycle, Finding, Numbered, Step, Verdict};
use aero_order::Transactions;
use aero_shape::Admitted;
use aero_verdict::{Monitor, Numbering, steps_in_order};
use std::alloc::{AllocError, Global};

/// What judges the events, by first places, what records them, and what keeps their transactions.
#[derive(Drop)]
pub struct InFull {
    pub(crate) recorder: Recorder,
    pub(crate) transactions: Transactions,
}

impl Engine for InFull {
    ghost use Rattle.std.specs.Prelude.{true};

    ghost stands_for = { StandsForFull };

    ghost keeps = { KeepsInFull };

    const ASKS_LABELS: bool = true;

    ghost ASKS_LABELS = { true };

    fn new(alloc: Global) -> InFull {
        InFull {
            recorder: Recorder::new(alloc),
            transactions: Transactions::new(alloc),
        }
    }

    fn judge(
        &mut self,
        line: u32,
        event: &Numbered,
        admitted: Admitted,
        label: Option<&[u8]>,
    ) -> Result<Option<u32>, Spent> {
        judge(self, line, event, admitted, label)
    }
}

// The thread whose open block closes a cycle with this event, if there is one. The event is recorded, and kept with its
// transaction.
fn judge(
    full: &mut InFull,
    line: u32,
    event: &Numbered,
    admitted: Admitted,
    label: Option<&[u8]>,
) -> Result<Option<u32>, Spent>
    requires { IsAdmitted (StandsForFull full.old) event.now admitted }
    ensures told { (h : List Numbered) (judged : Numbered) → IsJudgedAs event.now judged →
        ComesAfter (StandsForFull full.old) h judged admitted →
        IfOk result (Tells (StandsForFull full.new) (h ++ judged ∷ []) (length h)) }
    ensures kept { OnOk result ((given : List Given) (named : Option (List ℕ)) →
        option_copied label.entry ≡ named → KeepsInFull full.old given →
        KeepsInFull full.new (given ++
        record { line = line; event = event.now; admitted = admitted; label = named } ∷ [])) }
{
    let inside = full.recorder.in_block(event.thread);
    let told = full.recorder.judge(line, event, admitted, label)?;
    full.transactions.add(line, event, inside)?;
    Ok(told)
}

// What shows the verdict that is certain by now, as a monitor of its record shows it.
pub(crate) fn explain(monitor: &Monitor<InFull>) -> Result<Option<Cycle>, AllocError>
    ensures { IfOk result (ShowsCertain monitor.now.certain monitor.now.parts monitor.now.rules) }
{
    let checker = monitor.checker();
    let recorder = &checker.engine.recorder;
    match monitor.certain() {
        Some(verdict) => cycle_in(recorder.alloc, &checker.numbering, recorder, verdict),
        None => Ok(None),
    }
}

// What is found of exactly the parts that a monitor was fed: the verdict, with the serial order if it is `Serializable`,
// with a telling cycle if it is a `Violation`, and with the first 64 open blocks if it is `Pending`. An `AllocError` says
// that memory was refused.
pub(crate) fn finish_in_full(monitor: Monitor<InFull>) -> Result<Finding, AllocError>
    ensures finding { IfOk result (IsTraceFinding monitor.parts (on monitor.rules true true)) }
    ensures own_fault { IfOk result HasOwnVerdict }
{
    let (verdict, checker) = monitor.into_verdict();
    let (numbering, full) = checker.into_parts();
    let (recorder, transactions) = full.into_parts();
    let alloc = recorder.alloc;
    let (verdict, steps) = steps_in_order(alloc, &numbering, transactions, verdict)?;
    finding_of(alloc, &numbering, &recorder, verdict, steps)
}

impl InFull {
    ghost use Rattle.std.specs.Prelude.{◌≡◌};

    // The record, and the transactions of the events so far.
    fn into_parts(self) -> (Recorder, Transactions)
        ensures recorder { result.0 ≡ self.recorder }
        ensures transactions { result.1 ≡ self.transactions }
    {
        let InFull {
            recorder,
            transactions,
        } = self;
        (recorder, transactions)
    }
}

// What is found, where this is the verdict, and these are the steps of the order that goes with it, if one does.
fn finding_of(
    alloc: Global,
    names: &Numbering,
    recorder: &Recorder,
    verdict: Verdict,
    steps: Option<Vec<Step>>,
) -> Result<Finding, AllocError>
    requires { (parts : List Reading) × (rules : Rules) ×
        IsJudged parts rules names.now recorder.now verdict }
    ensures finding { (parts : List Reading) (rules : Rules) →
        IsJudged parts rules names.now recorder.now verdict →
        TellsInOrder parts rules verdict (option_map (λ steps. steps.items) steps) →
        IfOk result (IsTraceFinding parts (on rules true true)) }
    ensures same { IfOk result (λ finding. verdict_of finding ≡ Some verdict) }
{
    match steps {
        Some(steps) => Ok(Finding::Ordered(verdict, steps)),
        None => finding_shown(alloc, names, recorder, verdict),
    }
}
