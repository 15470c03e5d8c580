//! What shows a violation, as JSON.
ghost use Rattle.std.specs.Prelude.{◌≡◌, [], ◌∷◌, ◌++◌, codes, map, flat_map, OnOk};
ghost use Rattle.json.specs.Tree.{json_tokens};
ghost use Rattle.aero_report.specs.Json.{object_of, cycle_members, cycle_step_value, end_members, event_members, extent_members, label_members, list, target_members, transaction_value};
ghost use Rattle.aero_report.specs.Members.{member_tokens, all_members_tokens};

use crate::line::Line;
use crate::texts::op_name;
use aero_model::{Cycle, CycleStep, CycleTransaction, Event, Extent, Name};
use std::alloc::AllocError;

/// The label of the block, if it has one, the events, the transactions, and the closing event.
pub fn write_cycle(out: &mut Line, cycle: &Cycle) -> Result<(), AllocError>
    ensures { OnOk result (out.new ≡ out.old ++ all_members_tokens (cycle_members cycle.now)) }
{
    write_label(out, &cycle.label)?;
    write_events(out, &cycle.steps)?;
    write_transactions(out, &cycle.transactions)?;
    write_closing(out, &cycle.closing)
}

pub(crate) fn write_label(out: &mut Line, label: &Option<Name>) -> Result<(), AllocError>
    ensures { OnOk result (out.new ≡ out.old ++ all_members_tokens (label_members label.now)) }
{
    match label {
        Some(label) => out.name("label", label.bytes()),
        None => Ok(()),
    }
}

fn write_events(out: &mut Line, steps: &[CycleStep]) -> Result<(), AllocError>
    ensures { OnOk result (out.new ≡ out.old ++
        member_tokens (list (codes "cycle") (map cycle_step_value steps.now))) }
{
    out.begin_array("cycle")?;
    write_cycle_steps(out, steps)?;
    out.end_array()
}

fn write_cycle_steps(out: &mut Line, steps: &[CycleStep]) -> Result<(), AllocError>
    ensures { OnOk result (out.new ≡ out.old ++ flat_map (λ s. json_tokens (cycle_step_value s))
        steps.now) }
{
    for step in steps {
        write_cycle_step(out, step)?;
    }
    Ok(())
}

fn write_cycle_step(out: &mut Line, step: &CycleStep) -> Result<(), AllocError>
    ensures { OnOk result (out.new ≡ out.old ++ json_tokens (cycle_step_value step.now)) }
{
    out.begin_object()?;
    out.count("line", step.line)?;
    out.count("first", step.first)?;
    write_event(out, &step.event)?;
    out.end_object()
}

fn write_event(out: &mut Line, event: &Event) -> Result<(), AllocError>
    ensures { OnOk result (out.new ≡ out.old ++ all_members_tokens (event_members event.now)) }
{
    out.name("thread", event.thread.bytes())?;
    out.word("op", op_name(event.op))?;
    write_target(out, &event.target)
}

fn write_target(out: &mut Line, target: &Option<Name>) -> Result<(), AllocError>
    ensures { OnOk result (out.new ≡ out.old ++ all_members_tokens (target_members target.now)) }
{
    match target {
        Some(target) => out.name("target", target.bytes()),
        None => Ok(()),
    }
}

fn write_transactions(out: &mut Line, transactions: &[CycleTransaction]) -> Result<(), AllocError>
    ensures { OnOk result (out.new ≡ out.old ++
        member_tokens (list (codes "transactions") (map transaction_value transactions.now))) }
{
    out.begin_array("transactions")?;
    write_all_transactions(out, transactions)?;
    out.end_array()
}

fn write_all_transactions(
    out: &mut Line,
    transactions: &[CycleTransaction],
) -> Result<(), AllocError>
    ensures { OnOk result (out.new ≡ out.old ++ flat_map (λ t. json_tokens (transaction_value t))
        transactions.now) }
{
    for transaction in transactions {
        write_transaction(out, transaction)?;
    }
    Ok(())
}

fn write_transaction(out: &mut Line, transaction: &CycleTransaction) -> Result<(), AllocError>
    ensures { OnOk result (out.new ≡ out.old ++ json_tokens (transaction_value transaction.now)) }
{
    out.begin_object()?;
    out.count("first", transaction.first)?;
    out.name("thread", transaction.thread.bytes())?;
    write_extent(out, &transaction.extent)?;
    out.end_object()
}

// Whether it is a block, and then its label and its end.
fn write_extent(out: &mut Line, extent: &Extent) -> Result<(), AllocError>
    ensures { OnOk result (out.new ≡ out.old ++ all_members_tokens (extent_members extent.now)) }
{
    match extent {
        Extent::Alone => out.flag("block", false),
        Extent::Block { label, end } => {
            out.flag("block", true)?;
            write_label(out, label)?;
            write_end(out, *end)
        }
    }
}

fn write_end(out: &mut Line, end: Option<u32>) -> Result<(), AllocError>
    ensures { OnOk result (out.new ≡ out.old ++ all_members_tokens (end_members end)) }
{
    match end {
        Some(line) => out.count("end", line),
        None => Ok(()),
    }
}

fn write_closing(out: &mut Line, event: &Event) -> Result<(), AllocError>
    ensures { OnOk result (out.new ≡ out.old ++
        member_tokens (codes "closing", object_of (event_members event.now))) }
{
    out.begin_member("closing")?;
    write_event(out, event)?;
    out.end_object()
}
