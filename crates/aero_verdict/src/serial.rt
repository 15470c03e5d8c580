//! The serial order of the transactions of a trace.
ghost use Rattle.std.specs.Prelude.{◌≡◌, ◌↔◌, ℕ, true, false, List, length, map, option_map, Ok, All, IfOk, IfSome, IsOk, IsOkAnd, IsSome, IsTrue, OnOk, OnErr};
ghost use Rattle.aero_model.specs.declared.numbered.Numbered.{Numbered};
ghost use Rattle.aero_model.specs.declared.verdict.Verdict.{Verdict};
ghost use Rattle.aero_model.specs.Cycle.{IsSerializable};
ghost use Rattle.aero_grammar.specs.Reading.{Reading};
ghost use Rattle.aero_order.specs.Standing.{StandsFor};
ghost use Rattle.aero_verdict.specs.InOrder.{AreFirstsInOrder, IsGathered, step_in};
ghost use Rattle.aero_verdict.specs.Limited.{IsNamedThread};
ghost use Rattle.aero_verdict.specs.Ordered.{is_faultless, has_order, AreLinesInOrder, TellsInOrder};
ghost use Rattle.aero_verdict.specs.Verdict.{IsVerdict, checked_trace};
ghost use Rattle.aero_model.specs.Terms.{Rules, under};

use crate::first_steps::{lines_of, steps_of};
use crate::in_order::InOrder;
use crate::monitor::{Monitor, feed_all};
use crate::numbering::Numbering;
use aero_grammar::Parsed;
use aero_model::{Except, Limits, Step, Verdict};
use aero_order::Transactions;
use aero_order::first::First;
use std::alloc::{AllocError, Global};

/// The lines of the first events of all transactions that the parts hold, in the serial order: each
/// time, of the transactions all of whose predecessors already stand, the one with the earliest
/// first event is next.
///
/// `None` where there is a cycle, and where the verdict is `Malformed`, `IllFormed` or `Violation`.
/// Where it is `Serializable`, there is an order.
///
/// An `AllocError` says that memory was refused.
pub fn serial_order(
    alloc: Global,
    parts: &[Parsed],
    limits: &Limits,
    except: &Except,
) -> Result<Option<Vec<u32>>, AllocError>
    ensures exact { IfOk result (λ order. (verdict : Verdict) →
        IsVerdict parts.now (under limits.now except.now) verdict →
        IsSome order ↔ (IsTrue (is_faultless verdict) ×
        IsSerializable (checked_trace parts.now (under limits.now except.now))
        (length (checked_trace parts.now (under limits.now except.now))))) }
    ensures serializable { IfOk result (λ order. (events blocks : ℕ) →
        IsVerdict parts.now (under limits.now except.now) (Verdict.Serializable events blocks) →
        IsSome order) }
    ensures lines { IfOk result (λ order.
        IfSome order (λ lines. AreLinesInOrder parts.now (under limits.now except.now) lines.items)) }
{
    let mut monitor = Monitor::<InOrder>::new(alloc, limits, except);
    feed_all(&mut monitor, parts, except);
    monitor.finish_with_lines()
}

impl Monitor<InOrder> {
    ghost use Rattle.std.specs.Prelude.{◌↔◌, ℕ, length, option_map, IfOk, IfSome, IsSome, IsTrue};
    ghost use Rattle.aero_model.specs.declared.verdict.Verdict.{Verdict};
    ghost use Rattle.aero_model.specs.Cycle.{IsSerializable};
    ghost use Rattle.aero_model.specs.Verdicts.{HasOwnFault};
    ghost use Rattle.aero_verdict.specs.Ordered.{is_faultless, AreLinesInOrder, TellsInOrder};
    ghost use Rattle.aero_verdict.specs.Verdict.{IsVerdict, checked_trace};

    /// The verdict on exactly the parts that were fed. If it is `Serializable`, the transactions come with it in the serial
    /// order, each by the line and the thread of its first event.
    ///
    /// # Errors
    ///
    /// `AllocError` if memory was refused.
    pub fn finish_in_order(self) -> Result<(Verdict, Option<Vec<Step>>), AllocError>
        ensures told { IfOk result (λ told. TellsInOrder self.parts self.rules told.0
            (option_map (λ steps. steps.items) told.1)) }
        ensures own_fault { IfOk result (λ told. HasOwnFault told.0) }
    {
        let alloc = self.alloc;
        let (verdict, checker) = self.into_verdict();
        let (numbering, both) = checker.into_parts();
        steps_in_order(alloc, &numbering, both.into_transactions(), verdict)
    }

    // The lines of the first events in the serial order, where nothing is wrong and there is no cycle.
    fn finish_with_lines(self) -> Result<Option<Vec<u32>>, AllocError>
        ensures exact { IfOk result (λ order. (verdict : Verdict) →
            IsVerdict self.parts self.rules verdict →
            IsSome order ↔ (IsTrue (is_faultless verdict) ×
            IsSerializable (checked_trace self.parts self.rules)
            (length (checked_trace self.parts self.rules)))) }
        ensures serializable { IfOk result (λ order. (events blocks : ℕ) →
            IsVerdict self.parts self.rules (Verdict.Serializable events blocks) → IsSome order) }
        ensures lines { IfOk result (λ order.
            IfSome order (λ lines. AreLinesInOrder self.parts self.rules lines.items)) }
    {
        let alloc = self.alloc;
        let (verdict, checker) = self.into_verdict();
        let (_names, both) = checker.into_parts();
        let wanted = is_right(&verdict);
        let firsts = firsts_where(alloc, both.into_transactions(), wanted);
        lines_told(alloc, verdict, firsts)
    }
}

/// The verdict, where these are the names and the transactions of the events that it is on. If it is `Serializable`, the
/// transactions come with it in the serial order, each by the line and the thread of its first event.
///
/// # Errors
///
/// `AllocError` if memory was refused, or if one stands for the verdict.
pub fn steps_in_order(
    alloc: Global,
    numbering: &Numbering,
    transactions: Transactions,
    verdict: Result<Verdict, AllocError>,
) -> Result<(Verdict, Option<Vec<Step>>), AllocError>
    requires { (parts : List Reading) × (rules : Rules) ×
        IsGathered parts rules numbering.now transactions verdict }
    ensures told { (parts : List Reading) (rules : Rules) →
        IsGathered parts rules numbering.now transactions verdict →
        IfOk result (λ told. TellsInOrder parts rules told.0
        (option_map (λ steps. steps.items) told.1)) }
    ensures same { IfOk result (λ told. verdict ≡ Ok told.0) }
{
    let wanted = is_ordered(&verdict);
    let firsts = firsts_where(alloc, transactions, wanted);
    steps_told(alloc, numbering, verdict, firsts)
}

// The first events of the transactions in the serial order, where it is wanted and there is one.
fn firsts_where(
    alloc: Global,
    transactions: Transactions,
    wanted: bool,
) -> Result<Option<Vec<First>>, AllocError>
    requires { wanted ≡ true → (trace : List Numbered) × StandsFor transactions trace }
    ensures { IfOk result (λ found. AreFirstsInOrder transactions wanted
        (option_map (λ firsts. firsts.items) found)) }
{
    if !wanted {
        return Ok(None);
    }
    transactions.order(alloc)
}

// The verdict, with the lines and the threads' names of the first events.
fn steps_told(
    alloc: Global,
    numbering: &Numbering,
    verdict: Result<Verdict, AllocError>,
    firsts: Result<Option<Vec<First>>, AllocError>,
) -> Result<(Verdict, Option<Vec<Step>>), AllocError>
    requires { IfOk firsts (λ found.
        IfSome found (λ firsts. All (λ f. IsNamedThread numbering.now f.thread) firsts.items)) }
    ensures verdict { IfOk result (λ told. verdict ≡ Ok told.0) }
    ensures steps { IfOk result (λ told.
        IsOkAnd firsts (λ found. option_map (λ steps. steps.items) told.1 ≡
        option_map (λ firsts. map (step_in numbering.now) firsts.items) found)) }
{
    let verdict = verdict?;
    match firsts? {
        Some(firsts) => Ok((verdict, Some(steps_of(alloc, numbering, &firsts)?))),
        None => Ok((verdict, None)),
    }
}

// The lines of the first events, where there is a verdict.
fn lines_told(
    alloc: Global,
    verdict: Result<Verdict, AllocError>,
    firsts: Result<Option<Vec<First>>, AllocError>,
) -> Result<Option<Vec<u32>>, AllocError>
    ensures verdict { OnOk result (IsOk verdict) }
    ensures lines { IfOk result (λ told.
        IsOkAnd firsts (λ found. option_map (λ lines. lines.items) told ≡
        option_map (λ firsts. map (λ f. f.line) firsts.items) found)) }
{
    let _ = verdict?;
    match firsts? {
        Some(firsts) => Ok(Some(lines_of(alloc, &firsts)?)),
        None => Ok(None),
    }
}

// Whether there is a verdict, and nothing is wrong.
fn is_right(verdict: &Result<Verdict, AllocError>) -> bool
    ensures ok { IfOk verdict.now (λ told. result ≡ is_faultless told) }
    ensures err { OnErr verdict.now (result ≡ false) }
{
    match verdict {
        Ok(told) => is_faultless(told),
        Err(_) => false,
    }
}

// Whether there is a verdict with which the order goes.
fn is_ordered(verdict: &Result<Verdict, AllocError>) -> bool
    ensures ok { IfOk verdict.now (λ told. result ≡ has_order true told) }
    ensures err { OnErr verdict.now (result ≡ false) }
{
    match verdict {
        Ok(told) => is_serializable(told),
        Err(_) => false,
    }
}

// Whether nothing is wrong.
fn is_faultless(verdict: &Verdict) -> bool
    ensures { result ≡ is_faultless verdict.now }
{
    matches!(
        verdict,
        Verdict::Serializable { .. } | Verdict::Pending { .. }
    )
}

// Whether nothing is wrong, and no block is open.
fn is_serializable(verdict: &Verdict) -> bool
    ensures { result ≡ has_order true verdict.now }
{
    matches!(verdict, Verdict::Serializable { .. })
}
