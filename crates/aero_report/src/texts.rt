//! The text of a finding.
ghost use Rattle.std.specs.Prelude.{◌≡◌, ◌++◌, codes, decimal, flat_map, IfOk, OnOk};
ghost use Rattle.aero_report.specs.Texts.{line_fault_name, shape_fault_name, sizes_text, verdict_text, finding_text, op_name, target_text, event_text, cycle_line, cycle_lines, label_line, step_line, step_lines, source_line};

use aero_model::{
    Cycle, CycleStep, Event, Finding, LineFault, Name, Op, ShapeFault, Step, Verdict,
};
use itoa::Buffer;
use std::alloc::{AllocError, Global};

/// The line of a source: its name as its bytes stand, what was found of it, and a newline. Where
/// that has the transactions in order, or the events of a cycle, a line of each follows.
///
/// Numbers are decimal, and lines count from 1. Fails only where memory runs out.
pub fn trace_text(alloc: Global, name: &[u8], finding: &Finding) -> Result<Vec<u8>, AllocError>
    ensures { IfOk result (λ text. text.items ≡ source_line name.now finding.now) }
{
    let mut text = Vec::from_slice(alloc, name)?;
    append_finding(&mut text, finding)?;
    text.push(b'\n')?;
    append_steps_of(&mut text, finding)?;
    Ok(text)
}

/// The lines that show a violation behind its source's line: the label of the block, if it has one, and the events of the
/// cycle, a line of each. Fails only where memory runs out.
pub fn cycle_text(alloc: Global, cycle: &Cycle) -> Result<Vec<u8>, AllocError>
    ensures { IfOk result (λ text. text.items ≡ cycle_lines cycle.now) }
{
    let mut text = Vec::new(alloc);
    append_cycle(&mut text, cycle)?;
    Ok(text)
}

fn append_finding(text: &mut Vec<u8>, finding: &Finding) -> Result<(), AllocError>
    ensures { OnOk result (text.new.items ≡ text.old.items ++ finding_text finding.now) }
{
    match finding {
        Finding::Judged(verdict) => append_verdict(text, verdict),
        Finding::Ordered(verdict, _) => append_verdict(text, verdict),
        Finding::Explained(verdict, _) => append_verdict(text, verdict),
        Finding::Opened(verdict, _) => append_verdict(text, verdict),
        Finding::Broken(bytes) => {
            text.extend_from_slice(b": broken after ")?;
            append_number(text, *bytes)?;
            text.extend_from_slice(b" bytes")
        }
        Finding::TooLarge => text.extend_from_slice(b": too large"),
    }
}

fn append_steps_of(text: &mut Vec<u8>, finding: &Finding) -> Result<(), AllocError>
    ensures { OnOk result (text.new.items ≡ text.old.items ++ step_lines finding.now) }
{
    match finding {
        Finding::Ordered(_, steps) => append_steps(text, steps),
        Finding::Explained(_, cycle) => append_cycle(text, cycle),
        Finding::Judged(_) => Ok(()),
        Finding::Opened(_, _) => Ok(()),
        Finding::Broken(_) => Ok(()),
        Finding::TooLarge => Ok(()),
    }
}

fn append_steps(text: &mut Vec<u8>, steps: &[Step]) -> Result<(), AllocError>
    ensures { OnOk result (text.new.items ≡ text.old.items ++ flat_map step_line steps.now) }
{
    for step in steps {
        append_step(text, step.line, step.thread.bytes())?;
    }
    Ok(())
}

// The line of a transaction's first event, and its thread.
fn append_step(text: &mut Vec<u8>, line: u32, thread: &[u8]) -> Result<(), AllocError>
    ensures { OnOk result (text.new.items
        ≡ text.old.items ++ (codes "  " ++ decimal line ++ codes " " ++ thread.now ++ codes "\n")) }
{
    append_count(text, b"  ", line)?;
    text.extend_from_slice(b" ")?;
    text.extend_from_slice(thread)?;
    text.extend_from_slice(b"\n")
}

// The label of the block, if it has one, and the events.
fn append_cycle(text: &mut Vec<u8>, cycle: &Cycle) -> Result<(), AllocError>
    ensures { OnOk result (text.new.items ≡ text.old.items ++ cycle_lines cycle.now) }
{
    append_label(text, &cycle.label)?;
    append_cycle_steps(text, &cycle.steps)
}

fn append_label(text: &mut Vec<u8>, label: &Option<Name>) -> Result<(), AllocError>
    ensures { OnOk result (text.new.items ≡ text.old.items ++ label_line label.now) }
{
    let Some(label) = label else {
        return Ok(());
    };
    text.extend_from_slice(b"  label ")?;
    text.extend_from_slice(label.bytes())?;
    text.extend_from_slice(b"\n")
}

fn append_cycle_steps(text: &mut Vec<u8>, steps: &[CycleStep]) -> Result<(), AllocError>
    ensures { OnOk result (text.new.items ≡ text.old.items ++ flat_map cycle_line steps.now) }
{
    for step in steps {
        append_cycle_step(text, step)?;
    }
    Ok(())
}

// The lines of an event of a cycle and of its transaction's first, and what it says.
fn append_cycle_step(text: &mut Vec<u8>, step: &CycleStep) -> Result<(), AllocError>
    ensures { OnOk result (text.new.items ≡ text.old.items ++ cycle_line step.now) }
{
    append_count(text, b"  ", step.line)?;
    append_count(text, b" ", step.first)?;
    text.extend_from_slice(b" ")?;
    append_event(text, &step.event)?;
    text.extend_from_slice(b"\n")
}

// An event as a line of a trace has it.
fn append_event(text: &mut Vec<u8>, event: &Event) -> Result<(), AllocError>
    ensures { OnOk result (text.new.items ≡ text.old.items ++ event_text event.now) }
{
    text.extend_from_slice(event.thread.bytes())?;
    text.extend_from_slice(b"|")?;
    text.extend_from_slice(op_name(event.op).as_bytes())?;
    append_target(text, &event.target)
}

fn append_target(text: &mut Vec<u8>, target: &Option<Name>) -> Result<(), AllocError>
    ensures { OnOk result (text.new.items ≡ text.old.items ++ target_text target.now) }
{
    let Some(target) = target else {
        return Ok(());
    };
    text.extend_from_slice(b"(")?;
    text.extend_from_slice(target.bytes())?;
    text.extend_from_slice(b")")
}

fn append_verdict(text: &mut Vec<u8>, verdict: &Verdict) -> Result<(), AllocError>
    ensures { OnOk result (text.new.items ≡ text.old.items ++ verdict_text verdict.now) }
{
    match verdict {
        Verdict::Serializable { events, blocks } => {
            text.extend_from_slice(b": serializable ")?;
            append_sizes(text, *events, *blocks)
        }
        Verdict::Pending {
            events,
            blocks,
            pending,
        } => append_pending(text, *events, *blocks, *pending),
        Verdict::Violation {
            line,
            thread,
            begun,
        } => append_violation(text, *line, thread.bytes(), *begun),
        Verdict::Malformed { line, fault } => {
            append_fault(
                text,
                *line,
                b": malformed: ",
                line_fault_name(*fault).as_bytes(),
            )
        }
        Verdict::IllFormed { line, fault } => {
            append_fault(
                text,
                *line,
                b": ill-formed: ",
                shape_fault_name(*fault).as_bytes(),
            )
        }
    }
}

// What has no violation so far, behind the number of its open blocks.
fn append_pending(
    text: &mut Vec<u8>,
    events: u32,
    blocks: u32,
    pending: u32,
) -> Result<(), AllocError>
    ensures { OnOk result (text.new.items
        ≡ text.old.items ++ (codes ": no violation, " ++ decimal pending ++ codes " blocks open " ++
        sizes_text events blocks)) }
{
    append_count(text, b": no violation, ", pending)?;
    text.extend_from_slice(b" blocks open ")?;
    append_sizes(text, events, blocks)
}

// The lines of a violation's event and of its block's begin.
fn append_violation(
    text: &mut Vec<u8>,
    line: u32,
    thread: &[u8],
    begun: u32,
) -> Result<(), AllocError>
    ensures { OnOk result (text.new.items
        ≡ text.old.items ++ (codes ": violation at line " ++ decimal line ++
        (codes ": block of " ++ thread.now ++ (codes " from line " ++ decimal begun)))) }
{
    append_count(text, b": violation at line ", line)?;
    append_block(text, thread, begun)
}

// The thread of a block, and the line of its begin.
fn append_block(text: &mut Vec<u8>, thread: &[u8], begun: u32) -> Result<(), AllocError>
    ensures { OnOk result (text.new.items
        ≡ text.old.items ++ (codes ": block of " ++ thread.now ++
        (codes " from line " ++ decimal begun))) }
{
    text.extend_from_slice(b": block of ")?;
    text.extend_from_slice(thread)?;
    append_count(text, b" from line ", begun)
}

// A number behind its label.
fn append_count(text: &mut Vec<u8>, label: &[u8], number: u32) -> Result<(), AllocError>
    ensures { OnOk result (text.new.items ≡ text.old.items ++ (label.now ++ decimal number)) }
{
    text.extend_from_slice(label)?;
    append_number(text, u64::from(number))
}

fn append_sizes(text: &mut Vec<u8>, events: u32, blocks: u32) -> Result<(), AllocError>
    ensures { OnOk result (text.new.items ≡ text.old.items ++ sizes_text events blocks) }
{
    text.extend_from_slice(b"(")?;
    append_number(text, u64::from(events))?;
    text.extend_from_slice(b" events, ")?;
    append_number(text, u64::from(blocks))?;
    text.extend_from_slice(b" blocks)")
}

// `:LINE`, and then the kind of fault and its name.
fn append_fault(text: &mut Vec<u8>, line: u32, kind: &[u8], name: &[u8]) -> Result<(), AllocError>
    ensures { OnOk result (text.new.items
        ≡ text.old.items ++ (codes ":" ++ decimal line ++ kind.now ++ name.now)) }
{
    text.extend_from_slice(b":")?;
    append_number(text, u64::from(line))?;
    text.extend_from_slice(kind)?;
    text.extend_from_slice(name)
}

pub fn append_number(text: &mut Vec<u8>, number: u64) -> Result<(), AllocError>
    ensures { OnOk result (text.new.items ≡ text.old.items ++ decimal number) }
{
    let mut buffer = Buffer::new();
    text.extend_from_slice(buffer.format(number).as_bytes())
}

pub fn op_name(op: Op) -> &'static str
    ensures { result.now ≡ op_name op }
{
    match op {
        Op::Read => "r",
        Op::Write => "w",
        Op::Acquire => "acq",
        Op::Release => "rel",
        Op::Fork => "fork",
        Op::Join => "join",
        Op::Begin => "begin",
        Op::End => "end",
    }
}

pub fn line_fault_name(fault: LineFault) -> &'static str
    ensures { result.now ≡ line_fault_name fault }
{
    match fault {
        LineFault::TooLong => "TooLong",
        LineFault::BadByte => "BadByte",
        LineFault::NoOperation => "NoOperation",
        LineFault::EmptyThread => "EmptyThread",
        LineFault::UnknownOperation => "UnknownOperation",
        LineFault::BadParenthesis => "BadParenthesis",
        LineFault::MissingTarget => "MissingTarget",
        LineFault::NameTooLong => "NameTooLong",
        LineFault::TooManyLines => "TooManyLines",
        LineFault::Memory => "Memory",
    }
}

pub fn shape_fault_name(fault: ShapeFault) -> &'static str
    ensures { result.now ≡ shape_fault_name fault }
{
    match fault {
        ShapeFault::TooManyThreads => "TooManyThreads",
        ShapeFault::TooManyNames => "TooManyNames",
        ShapeFault::ThreadJoined => "ThreadJoined",
        ShapeFault::LockHeldByOther => "LockHeldByOther",
        ShapeFault::LockNotHeld => "LockNotHeld",
        ShapeFault::ForkSelf => "ForkSelf",
        ShapeFault::ForkStarted => "ForkStarted",
        ShapeFault::JoinSelf => "JoinSelf",
        ShapeFault::EndWithoutBegin => "EndWithoutBegin",
        ShapeFault::Memory => "Memory",
    }
}
