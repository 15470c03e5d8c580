//! The check of a trace that comes part by part.
//!
//! A program that judges a run while it goes on sees events and has no text of them. It gathers some in a `Batch`
//! of aero_grammar and feeds that to a monitor, until the verdict is certain or the run ends. Here two events are
//! judged at a time, and nothing is judged after an error:
//!
//! ```text
//! // Hands what was gathered to the monitor, and begins to gather anew. Returns whether the verdict is certain.
//! fn judge(
//!     alloc: Global,
//!     monitor: &mut Monitor<Leads>,
//!     batch: &mut Batch,
//!     except: &Except,
//! ) -> Result<bool, AllocError>
//!     requires { except.now ≡ monitor.old.rules.labels }
//!     ensures { monitor.new.rules ≡ monitor.old.rules }
//! {
//!     let part = mem::replace(batch, Batch::new(alloc)).into_parsed()?;
//!     monitor.feed(&part, except)
//! }
//!
//! // Takes the next event of a run.
//! fn see(
//!     alloc: Global,
//!     monitor: &mut Monitor<Leads>,
//!     batch: &mut Batch,
//!     event: &Event,
//!     except: &Except,
//! ) -> Result<bool, AllocError>
//!     requires { except.now ≡ monitor.old.rules.labels }
//!     ensures { monitor.new.rules ≡ monitor.old.rules }
//! {
//!     batch.push(event)?;
//!     if batch.lines() < 2 {
//!         return Ok(false);
//!     }
//!     judge(alloc, monitor, batch, except)
//! }
//!
//! let mut monitor = Monitor::<Leads>::new(alloc, &Limits::greatest(), &except);
//! let mut batch = Batch::new(alloc);
//! for event in run {
//!     if see(alloc, &mut monitor, &mut batch, event, &except)? {
//!         break;
//!     }
//! }
//! judge(alloc, &mut monitor, &mut batch, &except)?;
//! let is_certain = monitor.certain().is_some();
//! let verdict = monitor.finish()?;
//! ```
ghost use Rattle.std.specs.Prelude.{◌≡◌, ◌+◌, ◌++◌, ◌∷◌, [], ◌<◌, ◌≤◌, ◌↔◌, ℕ, Bool, List, All, true, false, is_some, None, Some, Ok, IsTrue, IfOk, IfSome, OnErr, option_map};
ghost use Rattle.aero_model.specs.Exempt.{Listed};
ghost use Rattle.aero_grammar.specs.Reading.{Reading, IsReading, whole_reading};
ghost use Rattle.aero_model.specs.Verdicts.{HasOwnFault};
ghost use Rattle.aero_engine.specs.Given.{words_of};
ghost use Rattle.aero_verdict.specs.declared.monitor.State.TheVariants.{Undecided};
ghost use Rattle.aero_verdict.specs.Fed.{IsCertain, IsOpen};
ghost use Rattle.aero_verdict.specs.Laws.{HidesNothing};
ghost use Rattle.aero_verdict.specs.Monitored.{FedSo, is_spent, certain_of, TellsFed};
ghost use Rattle.aero_verdict.specs.Parts.{IsPartExpected};
ghost use Rattle.aero_verdict.specs.Verdict.{IsVerdict};
ghost use Rattle.aero_model.specs.Terms.{ruled, under};

use crate::check::{check_part, faultless, stopped_at};
use crate::checker::Checker;
use crate::ghost_parts::GhostParts;
use aero_engine::Engine;
use aero_grammar::Parsed;
use aero_model::{Except, Limits, LineFault, Verdict};
use std::alloc::{AllocError, Global};
use std::marker::Model;

// How far a check is.
#[derive(Drop)]
enum State {
    // Nothing is wrong yet.
    Undecided,
    // This is the verdict, whatever comes.
    Decided(Verdict),
    // Memory was refused.
    Spent,
}

/// A trace that is checked while it comes, part by part. A part is judged as it is fed, and needn't
/// be kept: what is kept are the names, and what the engine keeps of threads, variables, locks and open
/// blocks.
///
/// Contracts see the rules and the parts that were fed, one after the other, and what is certain by
/// then. Lines count from 1 through all parts.
#[derive(Drop)]
pub struct Monitor<E: Engine> {
    pub(crate) alloc: Global,
    limits: Limits,
    ends: bool,
    checker: Checker<E>,
    // The lines of the parts so far, up to the one that decides. A number that a `u32` can't tell is past every limit.
    lines: u32,
    state: State,
    fed: GhostParts,
}

impl<E: Engine> Model for Monitor<E> {
    ghost use Rattle.aero_verdict.specs.Fed.{Fed};

    ghost Value = { Fed };

    ghost use Rattle.aero_engine.specs.Given.{words_of};
    ghost use Rattle.aero_model.specs.Terms.{ruled};
    ghost use Rattle.aero_verdict.specs.Monitored.{FedSo, is_spent, certain_of};

    ghost view = { λ m. record {
      rules = ruled m.limits m.fed.labels m.ends;
      parts = m.fed.parts;
      certain = certain_of m.state;
      is_spent = is_spent m.state;
    } };

    ghost use Rattle.std.specs.Prelude.{◌≡◌, ◌≤◌, ◌+◌, All};
    ghost use Rattle.aero_grammar.specs.Reading.{IsReading};
    ghost use Rattle.aero_verdict.specs.declared.monitor.State.TheVariants.{Undecided};

    ghost invariant = { λ m. record { so : FedSo (words_of E.stands_for E.keeps) (ruled m.limits m.fed.labels m.ends) m.fed.parts m.lines m.checker m.state; few : m.state ≡ Undecided → m.lines ≤ m.limits.lines + 1; readings : All IsReading m.fed.parts } };
}

impl<E: Engine> Monitor<E> {
    /// A check of a trace of which no part has come, under these limits. A block that begins with one of the labels
    /// of `except` is no transaction.
    pub fn new(alloc: Global, limits: &Limits, except: &Except) -> Monitor<E>
        ensures rules { result.rules ≡ under limits.now except.now }
        ensures none { result.parts ≡ [] }
        ensures undecided { result.certain ≡ None }
        ensures fresh { result.is_spent ≡ false }
    {
        Monitor::ruled(alloc, limits, except, false)
    }

    /// The same, where blocks that are open end if `ends` is true: before their thread is joined by another one, on the line
    /// of the join, and, if no line is malformed, at the end of the trace, on the line after the last. Their ends are
    /// events that count.
    pub fn ruled(alloc: Global, limits: &Limits, except: &Except, ends: bool) -> Monitor<E>
        ensures rules { result.rules ≡ ruled limits.now except.now ends }
        ensures none { result.parts ≡ [] }
        ensures undecided { result.certain ≡ None }
        ensures fresh { result.is_spent ≡ false }
    {
        Monitor {
            alloc,
            limits: *limits,
            ends,
            checker: Checker::new(alloc, limits, ends),
            lines: 0,
            state: State::Undecided,
            fed: GhostParts::none(except),
        }
    }

    /// Judges the next part, with the same labels as at first. Returns whether the verdict is certain,
    /// whatever parts come after it: there is an event that is ill-formed or closes a cycle, a malformed line, or
    /// two lines more than may be. Otherwise none of these is there. What is fed from then on is passed over.
    ///
    /// # Errors
    ///
    /// `AllocError` where memory is refused, and at each call from then on.
    pub fn feed(&mut self, part: &Parsed, except: &Except) -> Result<bool, AllocError>
        requires { except.now ≡ self.old.rules.labels }
        ensures rules { self.new.rules ≡ self.old.rules }
        ensures fed { self.new.parts ≡ self.old.parts ++ part.now ∷ [] }
        ensures told { IfOk result (λ is_certain. is_certain ≡ is_some self.new.certain) }
        ensures certain { IfSome self.new.certain (IsCertain self.new.parts self.new.rules) }
        ensures going_on { IfOk result (λ is_certain. is_certain ≡ false →
            IsOpen self.new.parts self.new.rules) }
        ensures within { IfOk result (λ is_certain. is_certain ≡ false →
            (whole_reading self.new.parts).lines ≤ self.new.rules.limits.lines + 1) }
        ensures stays { IfSome self.old.certain (λ verdict. self.new.certain ≡ Some verdict) }
        ensures spent { OnErr result (self.new.is_spent ≡ true) }
        ensures stays_spent { self.old.is_spent ≡ true → self.new.is_spent ≡ true }
    {
        is_reading(part);
        self.fed = GhostParts::with(&self.fed, part);
        if !is_undecided(&self.state) {
            return is_told(&self.state);
        }
        let (lines, state) = judge_part(
            self.alloc,
            &mut self.checker,
            part,
            self.lines,
            &self.limits,
            except,
        );
        self.lines = lines;
        self.state = state;
        is_told(&self.state)
    }

    /// The verdict that is certain whatever parts come, if one is.
    pub fn certain(&self) -> Option<&Verdict>
        ensures same { option_map (λ verdict. verdict.now) result ≡ self.now.certain }
        ensures certain { IfSome self.now.certain (IsCertain self.now.parts self.now.rules) }
    {
        match &self.state {
            State::Decided(verdict) => Some(verdict),
            State::Undecided | State::Spent => None,
        }
    }

    /// What judged the events of the parts that were fed. If a violation is certain, it keeps those up to the one with
    /// which the cycle closes.
    pub fn checker(&self) -> &Checker<E>
        ensures tells { IfSome self.now.certain (TellsFed (words_of E.stands_for E.keeps)
            self.now.rules self.now.parts result.now) }
        ensures readings { All IsReading self.now.parts }
        ensures few { self.now.rules.limits.lines ≤ 4000000000 }
    {
        &self.checker
    }

    /// The verdict on exactly the parts that were fed. If blocks that are open end, it isn't that some are open, and the trace
    /// is serializable only if it is without their ends too.
    ///
    /// # Errors
    ///
    /// `AllocError` where memory was refused, or is refused to the ends of blocks that are open.
    pub fn finish(self) -> Result<Verdict, AllocError>
        ensures verdict { IfOk result (IsVerdict self.parts self.rules) }
        ensures own_fault { IfOk result HasOwnFault }
        ensures hides_nothing { self.rules.end ≡ true →
            IfOk result (HidesNothing self.parts self.rules) }
        ensures spent { OnErr result (self.rules.end ≡ false → self.is_spent ≡ true) }
    {
        let (verdict, _checker) = self.into_verdict();
        verdict
    }

    /// The verdict on exactly the parts that were fed, with what judged their events. It keeps all of them if nothing is
    /// wrong, and those up to the one with which the cycle closes if the verdict is a violation.
    ///
    /// # Errors
    ///
    /// `AllocError` in place of the verdict if memory was refused.
    pub fn into_verdict(self) -> (Result<Verdict, AllocError>, Checker<E>)
        ensures tells { IfOk result.0 (TellsFed (words_of E.stands_for E.keeps) self.rules
            self.parts result.1) }
        ensures readings { All IsReading self.parts }
        ensures few { self.rules.limits.lines ≤ 4000000000 }
        ensures spent { OnErr result.0 (self.rules.end ≡ false → self.is_spent ≡ true) }
    {
        let Monitor {
            alloc,
            limits,
            ends: _,
            mut checker,
            lines,
            state,
            fed: _,
        } = self;
        let verdict = verdict_of(alloc, &mut checker, lines, &limits, state);
        (verdict, checker)
    }
}

// That a part is a reading, which is known of one part at a time.
fn is_reading(part: &Parsed)
    ensures { IsReading part.now }
{
    let _lines = part.lines;
}

fn is_undecided(state: &State) -> bool
    ensures { IsTrue result ↔ (state.now ≡ Undecided) }
{
    matches!(state, State::Undecided)
}

// Whether the verdict is certain.
fn is_told(state: &State) -> Result<bool, AllocError>
    ensures told { IfOk result (λ is_certain. is_certain ≡ is_some (certain_of state.now)) }
    ensures going_on { IfOk result (λ is_certain. is_certain ≡ false → state.now ≡ Undecided) }
    ensures spent { OnErr result (is_spent state.now ≡ true) }
{
    match state {
        State::Undecided => Ok(false),
        State::Decided(_) => Ok(true),
        State::Spent => Err(AllocError),
    }
}

// How many lines there are with the next part, and how far the check is then.
fn judge_part<E: Engine>(
    alloc: Global,
    checker: &mut Checker<E>,
    part: &Parsed,
    lines: u32,
    limits: &Limits,
    except: &Except,
) -> (u32, State)
    requires { IsPartExpected (words_of E.stands_for E.keeps)
        (ruled limits.now except.now checker.old.ends) lines checker.old part.now }
    ensures so { (fed : List Reading) →
        FedSo (words_of E.stands_for E.keeps) (ruled limits.now except.now checker.old.ends) fed
        lines checker.old Undecided →
        FedSo (words_of E.stands_for E.keeps) (ruled limits.now except.now checker.old.ends)
        (fed ++ part.now ∷ []) result.0 checker.new result.1 }
    ensures few { result.1 ≡ Undecided → result.0 ≤ limits.now.lines + 1 }
{
    match check_part(alloc, checker, part, lines, limits, except) {
        Ok(None) => {}
        Ok(Some(verdict)) => return (lines, State::Decided(verdict)),
        Err(_) => return (lines, State::Spent),
    }
    let lines = lines.saturating_add(part.lines);
    if lines > limits.lines + 1 {
        return (lines, State::Decided(too_many_lines(limits)));
    }
    (lines, State::Undecided)
}

// The verdict after all parts.
fn verdict_of<E: Engine>(
    alloc: Global,
    checker: &mut Checker<E>,
    lines: u32,
    limits: &Limits,
    state: State,
) -> Result<Verdict, AllocError>
    requires { (labels : Listed) × (ends : Bool) × (fed : List Reading) ×
        FedSo (words_of E.stands_for E.keeps) (ruled limits.now labels ends) fed lines checker.old
        state }
    ensures tells { (labels : Listed) (ends : Bool) (fed : List Reading) →
        FedSo (words_of E.stands_for E.keeps) (ruled limits.now labels ends) fed lines checker.old
        state →
        IfOk result (TellsFed (words_of E.stands_for E.keeps) (ruled limits.now labels ends) fed
        checker.new) }
    ensures spent { (labels : Listed) (ends : Bool) (fed : List Reading) →
        FedSo (words_of E.stands_for E.keeps) (ruled limits.now labels ends) fed lines checker.old
        state → OnErr result (ends ≡ false → is_spent state ≡ true) }
{
    match state {
        State::Undecided => at_end(alloc, checker, lines, limits),
        State::Decided(verdict) => Ok(verdict),
        State::Spent => Err(AllocError),
    }
}

// The verdict after all parts, where nothing was wrong with any. An `AllocError` says that memory was refused to the ends of
// blocks.
fn at_end<E: Engine>(
    alloc: Global,
    checker: &mut Checker<E>,
    lines: u32,
    limits: &Limits,
) -> Result<Verdict, AllocError>
    requires { (labels : Listed) × (ends : Bool) × (fed : List Reading) ×
        FedSo (words_of E.stands_for E.keeps) (ruled limits.now labels ends) fed lines checker.old
        Undecided }
    ensures tells { (labels : Listed) (ends : Bool) (fed : List Reading) →
        FedSo (words_of E.stands_for E.keeps) (ruled limits.now labels ends) fed lines checker.old
        Undecided → IfOk result (TellsFed (words_of E.stands_for E.keeps)
        (ruled limits.now labels ends) fed checker.new) }
    ensures spent { (labels : Listed) (ends : Bool) (fed : List Reading) →
        FedSo (words_of E.stands_for E.keeps) (ruled limits.now labels ends) fed lines checker.old
        Undecided → OnErr result (ends ≡ true) }
{
    if lines > limits.lines {
        return Ok(too_many_lines(limits));
    }
    match checker.admit_last_ends(alloc, lines)? {
        Some((line, stop)) => stopped_at(alloc, checker, line, stop),
        None => Ok(faultless(checker)),
    }
}

// The verdict where there is a line too many, and nothing else is wrong.
fn too_many_lines(limits: &Limits) -> Verdict
    ensures { result ≡ Verdict.Malformed (limits.now.lines + 1) LineFault.TooManyLines }
{
    Verdict::Malformed {
        line: limits.lines + 1,
        fault: LineFault::TooManyLines,
    }
}

/// Feeds the parts, one after the other. Where memory is refused the monitor says so at its end.
pub fn feed_all<E: Engine>(monitor: &mut Monitor<E>, parts: &[Parsed], except: &Except)
    requires { except.now ≡ monitor.old.rules.labels }
    ensures rules { monitor.new.rules ≡ monitor.old.rules }
    ensures fed { monitor.new.parts ≡ monitor.old.parts ++ parts.now }
{
    for part in parts {
        let _ = monitor.feed(part, except);
    }
}
