//! The verdict on what the parts of a trace say.
ghost use Rattle.std.specs.Prelude.{◌≡◌, ◌≢◌, ◌-◌, ℕ, true, false, List, Some, IsTrue, IfOk, IfSome, OnOk, OnErr};
ghost use Rattle.aero_model.specs.Verdicts.{HasOwnFault};
ghost use Rattle.aero_grammar.specs.Reading.{Reading, fault_within, is_own_fault};
ghost use Rattle.aero_engine.specs.Given.{words_of};
ghost use Rattle.aero_verdict.specs.Verdict.{IsVerdict, IsFaultless};
ghost use Rattle.aero_model.specs.Terms.{Rules, ruled, under};
ghost use Rattle.aero_verdict.specs.Standing.{CanBeTold, TellsStop};
ghost use Rattle.aero_verdict.specs.Ordered.{is_faultless};
ghost use Rattle.aero_verdict.specs.Parts.{IsPartExpected, ComesNext, TellsPart};

use crate::checker::{Checker, Stop};
use crate::known::{ChunkNames, told_exemptions};
use crate::monitor::{Monitor, feed_all};
use aero_engine::Engine;
use aero_grammar::Parsed;
use aero_leads::Leads;
use aero_model::{Except, Limits, LineFault, ShapeFault, Verdict};
use std::alloc::{AllocError, Global};

/// The verdict on the trace that the parts hold, one after the other, under the limits. A block that
/// begins with one of the labels of `except` is no transaction: its begin and its end are events of
/// their thread, and nothing more.
///
/// Line numbers count from 1 through all parts: those of a part follow the lines of the parts
/// before it. What follows a part with a fault is ignored, and so is each event on a line after
/// `limits.lines`. Of what is wrong, what stands first by line decides:
///
/// - `IllFormed`: the first event that is ill-formed, with the number of its line and the first
///   cause, in the order of the variants of `ShapeFault`. The limits on threads and names are
///   looked at first, and the actor before the target.
/// - `Violation`: the first event that completes a telling cycle, by its line, with the name of the
///   thread whose open block the cycle begins in, and the line on which that block began. If several
///   blocks begin such a cycle, the thread is the one that the trace names first.
/// - `Malformed`: the faulty line, where nothing is wrong with the events, which all stand before
///   it. Line `limits.lines + 1` is `TooManyLines` where it has no fault of its own.
/// - `Pending`: nothing is wrong, and blocks are open: how many events, outermost begins and open
///   blocks there are.
/// - `Serializable`: nothing is wrong, and no block is open.
///
/// No fault of a verdict is `Memory`. An `AllocError` says that memory was refused: to the names, the
/// states, the first places or the verdict's name. It also says that the different names of the threads have
/// over 2^32 - 1 bytes in all, or those of the variables, or those of the locks.
pub fn check_trace(
    alloc: Global,
    parts: &[Parsed],
    limits: &Limits,
    except: &Except,
) -> Result<Verdict, AllocError>
    ensures verdict { IfOk result (λ verdict. IsVerdict parts.now (under limits.now except.now)
        verdict) }
    ensures own_fault { IfOk result HasOwnFault }
{
    check_trace_by::<Leads>(alloc, parts, limits, except)
}

/// The same, judged by an engine of the caller's choice.
pub fn check_trace_by<E: Engine>(
    alloc: Global,
    parts: &[Parsed],
    limits: &Limits,
    except: &Except,
) -> Result<Verdict, AllocError>
    ensures verdict { IfOk result (λ verdict. IsVerdict parts.now (under limits.now except.now)
        verdict) }
    ensures own_fault { IfOk result HasOwnFault }
{
    let mut monitor = Monitor::<E>::new(alloc, limits, except);
    feed_all(&mut monitor, parts, except);
    monitor.finish()
}

// The verdict on all parts where something is wrong with this one. So many lines stand before it.
pub(crate) fn check_part<E: Engine>(
    alloc: Global,
    checker: &mut Checker<E>,
    part: &Parsed,
    lines: u32,
    limits: &Limits,
    except: &Except,
) -> Result<Option<Verdict>, AllocError>
    requires { IsPartExpected (words_of E.stands_for E.keeps)
        (ruled limits.now except.now checker.old.ends) lines checker.old part.now }
    ensures told { IfOk result (λ told. (parts : List Reading) (k : ℕ) →
        ComesNext (words_of E.stands_for E.keeps)
        (ruled limits.now except.now checker.old.ends) parts k lines checker.old part.now →
        TellsPart (words_of E.stands_for E.keeps)
        (ruled limits.now except.now checker.old.ends) parts k lines checker.new part.now told) }
    ensures own_fault { IfOk result (λ told. IfSome told HasOwnFault) }
    ensures wrong { IfOk result (λ told. IfSome told (λ verdict. is_faultless verdict ≡ false)) }
{
    let most = limits.lines.saturating_sub(lines);
    let exempt = told_exemptions(alloc, &part.labels, except)?;
    let chunk = ChunkNames {
        threads: &part.threads,
        variables: &part.variables,
        locks: &part.locks,
        labels: &part.labels,
        exempt: &exempt,
    };
    if let Some((line, stop)) = checker.admit_part(alloc, chunk, &part.events, lines, most)? {
        let verdict = stopped_at(alloc, checker, line, stop)?;
        return Ok(Some(verdict));
    }
    let Some((line, fault)) = part.fault else {
        return Ok(None);
    };
    let (line, fault) = malformed_line(lines.saturating_add(line), fault, limits);
    Ok(Some(Verdict::Malformed { line, fault }))
}

// The verdict where no further event is admitted after the one on this line.
pub(crate) fn stopped_at<E: Engine>(
    alloc: Global,
    checker: &Checker<E>,
    line: u32,
    stop: Stop,
) -> Result<Verdict, AllocError>
    requires { CanBeTold checker.now stop }
    ensures told { IfOk result (λ verdict. TellsStop checker.now line stop verdict) }
    ensures own_fault { IfOk result HasOwnFault }
    ensures wrong { IfOk result (λ verdict. is_faultless verdict ≡ false) }
{
    match stop {
        Stop::Refused(fault) => Ok(Verdict::IllFormed {
            line,
            fault: own_fault(fault)?,
        }),
        Stop::Closed(t) => Ok(Verdict::Violation {
            line,
            thread: checker.thread_name(alloc, t)?,
            begun: checker.begin_line(t),
        }),
    }
}

// The verdict where nothing is wrong.
pub(crate) fn faultless<E: Engine>(checker: &Checker<E>) -> Verdict
    ensures verdict { (parts : List Reading) (rules : Rules) →
        IsFaultless parts rules checker.now.shape.admitted checker.now.blocks.begun
        (checker.now.blocks.begun - checker.now.blocks.ended) → IsVerdict parts rules result }
    ensures own_fault { HasOwnFault result }
    ensures right { is_faultless result ≡ true }
{
    let events = checker.events();
    let blocks = checker.blocks();
    let pending = checker.pending();
    if pending == 0 {
        Verdict::Serializable { events, blocks }
    } else {
        Verdict::Pending {
            events,
            blocks,
            pending,
        }
    }
}

// The malformed line, where this one has a fault by itself: it, unless one before it is one too many.
fn malformed_line(line: u32, fault: LineFault, limits: &Limits) -> (u32, LineFault)
    ensures told { (lines : ℕ) → fault_within limits.now.lines lines (Some (line, fault)) ≡
        Some result }
    ensures own_fault { IsTrue (is_own_fault fault) → result.1 ≢ LineFault.Memory }
{
    let first_too_many = limits.lines + 1;
    if line > first_too_many {
        (first_too_many, LineFault::TooManyLines)
    } else {
        (line, fault)
    }
}

// The fault, where the event has it by itself.
fn own_fault(fault: ShapeFault) -> Result<ShapeFault, AllocError>
    ensures same { IfOk result (λ own. own ≡ fault) }
    ensures not_memory { OnOk result (fault ≢ ShapeFault.Memory) }
    ensures memory { OnErr result (fault ≡ ShapeFault.Memory) }
{
    match fault {
        ShapeFault::Memory => Err(AllocError),
        fault => Ok(fault),
    }
}
