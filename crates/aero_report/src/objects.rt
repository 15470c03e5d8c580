//! What is said of a source, as JSON.
ghost use Rattle.std.specs.Prelude.{◌≡◌, [], ◌∷◌, ◌++◌, codes, map, flat_map, IfOk, OnOk};
ghost use Rattle.json.specs.Tree.{json_tokens};
ghost use Rattle.aero_report.specs.Json.{object_of, count, word, name, verdict_members, step_value, list, finding_members, open_block_value, source_value, json_line, ReadsBack};
ghost use Rattle.aero_report.specs.Members.{member_tokens, all_members_tokens};

use crate::cycles::{write_cycle, write_label};
use crate::line::Line;
use crate::texts::{line_fault_name, shape_fault_name};
use aero_model::words::{line_words, shape_words};
use aero_model::{Finding, OpenBlock, Step, Verdict};
use std::alloc::{AllocError, Global};

/// The line of a source as JSON, with a newline.
pub fn source_object(alloc: Global, name: &[u8], finding: &Finding) -> Result<Vec<u8>, AllocError>
    ensures text { IfOk result (λ text. text.items ≡ json_line (source_value name.now finding.now)) }
    ensures reads_back { OnOk result (ReadsBack (source_value name.now finding.now)) }
{
    let mut out = Line::new(alloc);
    write_source(&mut out, name, finding)?;
    out.into_text()
}

fn write_source(out: &mut Line, name: &[u8], finding: &Finding) -> Result<(), AllocError>
    ensures { OnOk result (out.new ≡ out.old ++ json_tokens (source_value name.now finding.now)) }
{
    out.begin_object()?;
    out.name("source", name)?;
    write_finding(out, finding)?;
    out.end_object()
}

fn write_finding(out: &mut Line, finding: &Finding) -> Result<(), AllocError>
    ensures { OnOk result (out.new ≡ out.old ++ all_members_tokens (finding_members finding.now)) }
{
    match finding {
        Finding::Judged(verdict) => write_verdict(out, verdict),
        Finding::Ordered(verdict, steps) => {
            write_verdict(out, verdict)?;
            write_order(out, steps)
        }
        Finding::Explained(verdict, cycle) => {
            write_verdict(out, verdict)?;
            write_cycle(out, cycle)
        }
        Finding::Opened(verdict, blocks) => {
            write_verdict(out, verdict)?;
            write_opened(out, blocks)
        }
        Finding::Broken(bytes) => {
            out.word("verdict", "broken")?;
            out.long_count("bytes", *bytes)
        }
        Finding::TooLarge => out.word("verdict", "too large"),
    }
}

fn write_verdict(out: &mut Line, verdict: &Verdict) -> Result<(), AllocError>
    ensures { OnOk result (out.new ≡ out.old ++ all_members_tokens (verdict_members verdict.now)) }
{
    match verdict {
        Verdict::Serializable { events, blocks } => {
            write_sizes(out, "serializable", *events, *blocks)
        }
        Verdict::Pending {
            events,
            blocks,
            pending,
        } => {
            write_sizes(out, "open", *events, *blocks)?;
            out.count("open", *pending)
        }
        Verdict::Violation {
            line,
            thread,
            begun,
        } => write_violation(out, *line, thread.bytes(), *begun),
        Verdict::Malformed { line, fault } => {
            let name = line_fault_name(*fault);
            write_fault(out, "malformed", *line, name, line_words(*fault))
        }
        Verdict::IllFormed { line, fault } => {
            let name = shape_fault_name(*fault);
            write_fault(out, "ill-formed", *line, name, shape_words(*fault))
        }
    }
}

fn write_sizes(out: &mut Line, verdict: &str, events: u32, blocks: u32) -> Result<(), AllocError>
    ensures { OnOk result (out.new ≡ out.old ++ all_members_tokens
        (word (codes "verdict") verdict.now ∷ count (codes "events") events ∷ count (codes "blocks")
        blocks ∷ [])) }
{
    out.word("verdict", verdict)?;
    out.count("events", events)?;
    out.count("blocks", blocks)
}

fn write_violation(out: &mut Line, line: u32, thread: &[u8], begun: u32) -> Result<(), AllocError>
    ensures { OnOk result (out.new ≡ out.old ++ all_members_tokens
        (word (codes "verdict") (codes "violation") ∷ count (codes "line") line ∷ name
        (codes "thread") thread.now ∷ count (codes "begun") begun ∷ [])) }
{
    out.word("verdict", "violation")?;
    out.count("line", line)?;
    out.name("thread", thread)?;
    out.count("begun", begun)
}

// The line of a fault, its name, and what it is in words.
fn write_fault(
    out: &mut Line,
    verdict: &str,
    line: u32,
    fault: &str,
    words: &str,
) -> Result<(), AllocError>
    ensures { OnOk result (out.new ≡ out.old ++ all_members_tokens
        (word (codes "verdict") verdict.now ∷ count (codes "line") line ∷ word (codes "fault")
        fault.now ∷ word (codes "note") words.now ∷ [])) }
{
    out.word("verdict", verdict)?;
    out.count("line", line)?;
    out.word("fault", fault)?;
    out.word("note", words)
}

fn write_order(out: &mut Line, steps: &[Step]) -> Result<(), AllocError>
    ensures { OnOk result (out.new ≡ out.old ++
        member_tokens (list (codes "order") (map step_value steps.now))) }
{
    out.begin_array("order")?;
    write_steps(out, steps)?;
    out.end_array()
}

fn write_steps(out: &mut Line, steps: &[Step]) -> Result<(), AllocError>
    ensures { OnOk result (out.new ≡ out.old ++ flat_map (λ s. json_tokens (step_value s))
        steps.now) }
{
    for step in steps {
        write_step(out, step.line, step.thread.bytes())?;
    }
    Ok(())
}

// The line of a transaction's first event, and its thread.
fn write_step(out: &mut Line, line: u32, thread: &[u8]) -> Result<(), AllocError>
    ensures { OnOk result (out.new ≡ out.old ++ json_tokens
        (object_of (count (codes "line") line ∷ name (codes "thread") thread.now ∷ []))) }
{
    out.begin_object()?;
    out.count("line", line)?;
    out.name("thread", thread)?;
    out.end_object()
}

fn write_opened(out: &mut Line, blocks: &[OpenBlock]) -> Result<(), AllocError>
    ensures { OnOk result (out.new ≡ out.old ++
        member_tokens (list (codes "opened") (map open_block_value blocks.now))) }
{
    out.begin_array("opened")?;
    write_open_blocks(out, blocks)?;
    out.end_array()
}

fn write_open_blocks(out: &mut Line, blocks: &[OpenBlock]) -> Result<(), AllocError>
    ensures { OnOk result (out.new ≡ out.old ++ flat_map (λ b. json_tokens (open_block_value b))
        blocks.now) }
{
    for block in blocks {
        write_open_block(out, block)?;
    }
    Ok(())
}

// The line of a block's begin, its thread and its label.
fn write_open_block(out: &mut Line, block: &OpenBlock) -> Result<(), AllocError>
    ensures { OnOk result (out.new ≡ out.old ++ json_tokens (open_block_value block.now)) }
{
    out.begin_object()?;
    out.count("line", block.line)?;
    out.name("thread", block.thread.bytes())?;
    write_label(out, &block.label)?;
    out.end_object()
}
