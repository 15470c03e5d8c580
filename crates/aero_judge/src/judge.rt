//! What judges a trace that comes part by part, on the terms that are asked for.
ghost use Rattle.std.specs.Prelude.{◌≡◌, ◌≤◌, ◌^◌, ◌++◌, ◌∷◌, [], true, false, length, Some, is_some, option_map, IfOk, IfSome, OnOk, OnErr};
ghost use Rattle.aero_grammar.specs.Reading.{reading_of};
ghost use Rattle.aero_model.specs.Terms.{on, to_the_end};
ghost use Rattle.aero_model.specs.Verdicts.{HasOwnFault, verdict_of};
ghost use Rattle.aero_verdict.specs.Explained.{ShowsIfAsked};
ghost use Rattle.aero_verdict.specs.Fed.{IsCertain, IsOpen, fed_nothing};
ghost use Rattle.aero_verdict.specs.Laws.{HidesNothing};
ghost use Rattle.aero_judge.specs.Finding.{HasOwnVerdict, IsTraceFinding};
ghost use Rattle.aero_judge.specs.Judging.{judging_of, nothing_judged};
ghost use Rattle.aero_verdict.specs.Verdict.{IsVerdict};

use crate::full::InFull;
use crate::opened::finish_to_explain;
use crate::recorder::Recorder;
use crate::{explained, full};
use aero_engine::Engine;
use aero_grammar::{Parsed, parse_block};
use aero_leads::Leads;
use aero_model::{Cycle, Except, Finding, Terms, Verdict};
use aero_verdict::{InOrder, Monitor, feed_all};
use std::alloc::{AllocError, Global};

/// What is found of the trace that the parts hold, on these terms: the verdict; with the transactions in their serial
/// order if that is asked for and the verdict is `Serializable`; and if it is to be explained, with the events of a telling
/// cycle if it is `Violation`, or with the blocks that are open if it is `Pending`.
///
/// # Errors
///
/// `AllocError` if memory was refused.
pub fn judge_trace(alloc: Global, parts: &[Parsed], terms: &Terms) -> Result<Finding, AllocError>
    ensures finding { IfOk result (IsTraceFinding parts.now (to_the_end terms.now)) }
    ensures own_fault { IfOk result HasOwnVerdict }
{
    let mut judge = Judge::new(alloc, terms)?;
    judge.feed_all(parts, terms.except());
    judge.finish()
}

/// A monitor with the engine that keeps what is asked for. A part is judged as it is fed, and needn't be kept.
///
/// Contracts see by `judging_of` on which terms it judges, the parts that were fed, in their order, the verdict that is
/// certain, and whether memory was refused.
#[derive(Drop)]
pub enum Judge {
    /// It finds the verdict alone.
    Plain(Box<Monitor<Leads>, Global>),
    /// It also finds the serial order, if the verdict is `Serializable`.
    InOrder(Box<Monitor<InOrder>, Global>),
    /// It also finds what explains the verdict, if that is `Violation` or `Pending`.
    Explaining(Box<Monitor<Recorder>, Global>),
    /// It also finds both, each with the verdict that it goes with.
    InFull(Box<Monitor<InFull>, Global>),
}

impl Judge {
    /// It was fed no part, and judges on these terms, but to the end of the trace.
    ///
    /// # Errors
    ///
    /// `AllocError` if memory was refused.
    pub fn new(alloc: Global, terms: &Terms) -> Result<Judge, AllocError>
        ensures { IfOk result (λ judge. judging_of judge ≡ nothing_judged (to_the_end terms.now)) }
    {
        match (terms.order(), terms.explain()) {
            (false, false) => Ok(Judge::Plain(boxed(alloc, terms)?)),
            (true, false) => Ok(Judge::InOrder(boxed(alloc, terms)?)),
            (false, true) => Ok(Judge::Explaining(boxed(alloc, terms)?)),
            (true, true) => Ok(Judge::InFull(boxed(alloc, terms)?)),
        }
    }

    /// Judges the next part, with the same labels as at first. Returns whether the verdict is certain, whatever parts come
    /// after it: a line is malformed, an event is ill-formed or completes a cycle, or there are two lines more than may be.
    /// What is fed from then on is passed over.
    ///
    /// # Errors
    ///
    /// `AllocError` if memory was refused, and at each call from then on.
    pub fn feed(&mut self, part: &Parsed, except: &Except) -> Result<bool, AllocError>
        requires { except.now ≡ (judging_of self.old).terms.rules.labels }
        ensures terms { (judging_of self.new).terms ≡ (judging_of self.old).terms }
        ensures fed { (judging_of self.new).parts ≡ (judging_of self.old).parts ++ part.now ∷ [] }
        ensures told { IfOk result (λ is_certain. is_certain ≡
            is_some (judging_of self.new).certain) }
        ensures certain { IfSome (judging_of self.new).certain
            (IsCertain (judging_of self.new).parts (judging_of self.new).terms.rules) }
        ensures going_on { IfOk result (λ is_certain. is_certain ≡ false →
            IsOpen (judging_of self.new).parts (judging_of self.new).terms.rules) }
        ensures stays { IfSome (judging_of self.old).certain
            (λ verdict. (judging_of self.new).certain ≡ Some verdict) }
        ensures spent { OnErr result ((judging_of self.new).is_spent ≡ true) }
        ensures stays_spent { (judging_of self.old).is_spent ≡ true →
            (judging_of self.new).is_spent ≡ true }
    {
        match self {
            Judge::Plain(monitor) => monitor.feed(part, except),
            Judge::InOrder(monitor) => monitor.feed(part, except),
            Judge::Explaining(monitor) => monitor.feed(part, except),
            Judge::InFull(monitor) => monitor.feed(part, except),
        }
    }

    /// Reads a text of whole lines, at most 1,073,741,824 bytes, and judges it as the next part, as `feed` does.
    ///
    /// # Errors
    ///
    /// `AllocError` if memory was refused. The text is then no part, or the judge returns one at each call from then on.
    pub fn feed_text(
        &mut self,
        alloc: Global,
        text: &[u8],
        except: &Except,
    ) -> Result<bool, AllocError>
        requires labels { except.now ≡ (judging_of self.old).terms.rules.labels }
        requires short { length text.now ≤ 2 ^ 30 }
        ensures terms { (judging_of self.new).terms ≡ (judging_of self.old).terms }
        ensures fed { OnOk result ((judging_of self.new).parts ≡ (judging_of self.old).parts ++
            reading_of text.now ∷ []) }
        ensures told { IfOk result (λ is_certain. is_certain ≡
            is_some (judging_of self.new).certain) }
        ensures certain { IfSome (judging_of self.old).certain
            (IsCertain (judging_of self.old).parts (judging_of self.old).terms.rules) →
            IfSome (judging_of self.new).certain
            (IsCertain (judging_of self.new).parts (judging_of self.new).terms.rules) }
        ensures going_on { IfOk result (λ is_certain. is_certain ≡ false →
            IsOpen (judging_of self.new).parts (judging_of self.new).terms.rules) }
        ensures stays { IfSome (judging_of self.old).certain
            (λ verdict. (judging_of self.new).certain ≡ Some verdict) }
        ensures stays_spent { (judging_of self.old).is_spent ≡ true →
            (judging_of self.new).is_spent ≡ true }
        ensures refused { OnErr result ((judging_of self.new).is_spent ≡ false →
            judging_of self.new ≡ judging_of self.old) }
    {
        let part = parse_block(alloc, text)?;
        self.feed(&part, except)
    }

    /// Judges these parts, one after the other, with the same labels as at first. If memory is refused, `finish` and
    /// `verdict` say so.
    pub fn feed_all(&mut self, parts: &[Parsed], except: &Except)
        requires { except.now ≡ (judging_of self.old).terms.rules.labels }
        ensures terms { (judging_of self.new).terms ≡ (judging_of self.old).terms }
        ensures fed { (judging_of self.new).parts ≡ (judging_of self.old).parts ++ parts.now }
    {
        match self {
            Judge::Plain(monitor) => feed_all(monitor, parts, except),
            Judge::InOrder(monitor) => feed_all(monitor, parts, except),
            Judge::Explaining(monitor) => feed_all(monitor, parts, except),
            Judge::InFull(monitor) => feed_all(monitor, parts, except),
        }
    }

    /// The verdict that is certain whatever parts come, if one is.
    pub fn certain(&self) -> Option<&Verdict>
        ensures same { option_map (λ verdict. verdict.now) result ≡ (judging_of self.now).certain }
        ensures certain { IfSome (judging_of self.now).certain
            (IsCertain (judging_of self.now).parts (judging_of self.now).terms.rules) }
    {
        match self {
            Judge::Plain(monitor) => monitor.certain(),
            Judge::InOrder(monitor) => monitor.certain(),
            Judge::Explaining(monitor) => monitor.certain(),
            Judge::InFull(monitor) => monitor.certain(),
        }
    }

    /// Whether a verdict is certain, whatever parts come.
    pub fn is_certain(&self) -> bool
        ensures told { result ≡ is_some (judging_of self.now).certain }
        ensures certain { IfSome (judging_of self.now).certain
            (IsCertain (judging_of self.now).parts (judging_of self.now).terms.rules) }
    {
        self.certain().is_some()
    }

    /// What shows the violation that is certain by now, if one is and the terms ask for an explanation: a telling cycle, as
    /// `finish` finds it. It takes as long as there are events, each time. The judge goes on as before.
    ///
    /// # Errors
    ///
    /// `AllocError` if memory was refused.
    pub fn explain(&self) -> Result<Option<Cycle>, AllocError>
        ensures { IfOk result (ShowsIfAsked (judging_of self.now).terms.explain
            (judging_of self.now).certain (judging_of self.now).parts
            (judging_of self.now).terms.rules) }
    {
        match self {
            Judge::Plain(_) | Judge::InOrder(_) => Ok(None),
            Judge::Explaining(monitor) => explained::explain(monitor),
            Judge::InFull(monitor) => full::explain(monitor),
        }
    }

    /// What is found of exactly the parts that were fed, as `judge_trace` finds it. If blocks that are open end, the verdict
    /// isn't that some are open, and the trace is serializable only if it is without their ends too.
    ///
    /// # Errors
    ///
    /// `AllocError` if memory was refused.
    pub fn finish(self) -> Result<Finding, AllocError>
        ensures finding { IfOk result (IsTraceFinding (judging_of self).parts
            (judging_of self).terms) }
        ensures own_fault { IfOk result HasOwnVerdict }
        ensures hides_nothing { (judging_of self).terms.rules.end ≡ true → IfOk result
            (λ finding. IfSome (verdict_of finding) (HidesNothing (judging_of self).parts
            (judging_of self).terms.rules)) }
    {
        match self {
            Judge::Plain(monitor) => judged(Box::into_inner(monitor)),
            Judge::InOrder(monitor) => ordered(Box::into_inner(monitor)),
            Judge::Explaining(monitor) => finish_to_explain(Box::into_inner(monitor)),
            Judge::InFull(monitor) => full::finish_in_full(Box::into_inner(monitor)),
        }
    }

    /// The verdict alone on exactly the parts that were fed, as `finish` has it.
    ///
    /// # Errors
    ///
    /// `AllocError` if memory was refused.
    pub fn verdict(self) -> Result<Verdict, AllocError>
        ensures verdict { IfOk result (IsVerdict (judging_of self).parts
            (judging_of self).terms.rules) }
        ensures own_fault { IfOk result HasOwnFault }
        ensures hides_nothing { (judging_of self).terms.rules.end ≡ true → IfOk result
            (HidesNothing (judging_of self).parts (judging_of self).terms.rules) }
    {
        match self {
            Judge::Plain(monitor) => Box::into_inner(monitor).finish(),
            Judge::InOrder(monitor) => Box::into_inner(monitor).finish(),
            Judge::Explaining(monitor) => Box::into_inner(monitor).finish(),
            Judge::InFull(monitor) => Box::into_inner(monitor).finish(),
        }
    }
}

// A monitor that was fed no part, on these terms. It lies in a box, because it is large. An `AllocError` says that memory
// was refused.
fn boxed<E: Engine>(alloc: Global, terms: &Terms) -> Result<Box<Monitor<E>, Global>, AllocError>
    ensures { IfOk result (λ monitor. monitor.value ≡ fed_nothing terms.now.rules) }
{
    let monitor = Monitor::ruled(alloc, terms.limits(), terms.except(), terms.end());
    Ok(Box::new(alloc, monitor)?)
}

// The verdict on what a monitor was fed.
fn judged(monitor: Monitor<Leads>) -> Result<Finding, AllocError>
    ensures finding { IfOk result (IsTraceFinding monitor.parts (on monitor.rules false false)) }
    ensures own_fault { IfOk result HasOwnVerdict }
{
    monitor.finish().map(Finding::Judged)
}

// The verdict on what a monitor was fed, with the order if that goes with it.
fn ordered(monitor: Monitor<InOrder>) -> Result<Finding, AllocError>
    ensures finding { IfOk result (IsTraceFinding monitor.parts (on monitor.rules true false)) }
    ensures own_fault { IfOk result HasOwnVerdict }
{
    let (verdict, steps) = monitor.finish_in_order()?;
    match steps {
        Some(steps) => Ok(Finding::Ordered(verdict, steps)),
        None => Ok(Finding::Judged(verdict)),
    }
}
