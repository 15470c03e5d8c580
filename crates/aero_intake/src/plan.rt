//! How a run is made.
ghost use Rattle.std.specs.Prelude.{◌≡◌, ◌<◌, ◌≤◌, ◌^◌, if◌then◌else◌};

use aero_model::{Limits, Name, SharedExcept, Terms};
use aero_report::{Form, Note, Options};

/// How many events of a source are kept at most until it is judged. Once more have come its chunks are judged as they
/// come, and let go. It changes how much memory a run takes, who judges a source, and when, and not what is found.
#[derive(Clone, Copy, Debug, PartialEq, Eq)]
pub struct Keeping {
    /// Of a source that isn't the last.
    pub events: u64,
    /// Of the last source: no other is read meanwhile.
    pub last_events: u64,
}

impl Keeping {
    /// How many are kept of a source, where it is the last, or isn't.
    pub fn most(self, is_last: bool) -> u64
        ensures { result ≡ (if is_last then self.last_events else self.events) }
    {
        if is_last {
            self.last_events
        } else {
            self.events
        }
    }
}

/// How many workers are to be started, 1 to 16, how many bytes one read asks for at most, 1 to
/// 1,048,576, on what terms each source is judged, how much is kept of a source, and the form of the report.
#[derive(Drop)]
pub struct Plan {
    pub workers: u32,
    pub piece: u32,
    pub terms: Terms,
    pub keeping: Keeping,
    pub form: Form,
    ghost some_workers: { 0 < workers },
    ghost most_workers: { workers ≤ 16 },
    ghost some_piece: { 0 < piece },
    ghost most_piece: { piece ≤ 2 ^ 20 },
}

const MOST_WORKERS: u32 = 16;

const MOST_PIECE: u32 = 1 << 20;

const KEEPING: Keeping = Keeping {
    events: 1 << 20,
    last_events: 1 << 16,
};

impl Plan {
    ghost use Rattle.std.specs.Prelude.{◌≡◌, ◌<◌, ◌≤◌, ◌^◌, ◌↔◌, IsSome, IfSome, map, true, false};
    ghost use Rattle.aero_intake.specs.Plans.{IsPlan};
    ghost use Rattle.aero_intake.specs.PlanTerms.{options_in, options_with, terms_of};
    ghost use Rattle.aero_report.specs.Asked.{note_of, options_of};
    ghost use Rattle.aero_report.specs.declared.form.Form.TheVariants.{Text};
    ghost use Rattle.aero_model.specs.Terms.{asking};

    /// This plan, or `None` where a number is 0, there are more than 16 workers, or a piece is of
    /// more than 1,048,576 bytes. Of a source 1,048,576 events are kept at most, and 65,536 of the last one. Nothing
    /// that is found is to be explained, and the report is for people.
    pub fn new(
        workers: u32,
        piece: u32,
        limits: Limits,
        except: SharedExcept,
        order: bool,
    ) -> Option<Plan>
        ensures within { IsSome result ↔ IsPlan workers piece }
        ensures workers { IfSome result (λ plan. plan.workers ≡ workers) }
        ensures piece { IfSome result (λ plan. plan.piece ≡ piece) }
        ensures terms { IfSome result (λ plan. plan.terms ≡ asking limits except order false) }
        ensures events { IfSome result (λ plan. plan.keeping.events ≡ 2 ^ 20) }
        ensures last_events { IfSome result (λ plan. plan.keeping.last_events ≡ 2 ^ 16) }
        ensures form { IfSome result (λ plan. plan.form ≡ Text) }
    {
        if workers == 0 || workers > MOST_WORKERS {
            return None;
        }
        if piece == 0 || piece > MOST_PIECE {
            return None;
        }
        Some(Plan {
            workers,
            piece,
            terms: Terms::new(limits, except, order, false),
            keeping: KEEPING,
            form: Form::Text,
        })
    }

    /// The same plan, by which so much is kept of a source.
    pub fn with_keeping(self, keeping: Keeping) -> Plan
        ensures { result ≡ record self { keeping = keeping } }
    {
        let mut plan = self;
        plan.keeping = keeping;
        plan
    }

    /// The same plan, by which what is found is to be explained.
    pub fn explaining(self) -> Plan
        ensures { result ≡ record self { terms = record self.terms { explain = true } } }
    {
        let mut plan = self;
        plan.terms.ask_for_explanation();
        plan
    }

    /// The same plan, by which blocks that are open end before their thread is joined, and at the end of a source.
    pub fn ending(self) -> Plan
        ensures { result ≡ record self {
          terms = record self.terms {
            rules = record self.terms.rules
                { end = true };
          };
        } }
    {
        let mut plan = self;
        plan.terms.ask_to_end();
        plan
    }

    /// The same plan, by which each source is read no further once its verdict is certain. So that this is known early,
    /// nothing is kept of a source: it is judged as it comes.
    pub fn stopping(self) -> Plan
        ensures { result ≡ record self {
          terms = record self.terms { stop = true };
          keeping = record
              { events = 0; last_events = 0 };
        } }
    {
        let mut plan = self;
        plan.terms.ask_to_stop();
        plan.with_keeping(Keeping {
            events: 0,
            last_events: 0,
        })
    }

    /// The same plan, by which the report has this form.
    pub fn with_form(self, form: Form) -> Plan
        ensures { result ≡ record self { form = form } }
    {
        let mut plan = self;
        plan.form = form;
        plan
    }

    /// How the sources are judged, as the summary of a report tells it. No label is told as one with which no block
    /// begins, and no note on a source.
    pub fn options(&self) -> Options<'_>
        ensures { options_of result ≡ options_in (terms_of self.now) }
    {
        self.options_with(&[], &[])
    }

    /// The same, with the labels with which no block begins, and the notes on sources.
    pub fn options_with<'a>(&'a self, unused: &'a [&'a Name], notes: &'a [Note]) -> Options<'a>
        ensures { options_of result ≡ options_with (terms_of self.now)
            (map (λ label. label.now) unused.now) (map note_of notes.now) }
    {
        Options {
            terms: &self.terms,
            unused,
            notes,
        }
    }
}
