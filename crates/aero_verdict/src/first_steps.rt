//! The steps of a serial order: lines of first events, with or without their threads.
ghost use Rattle.std.specs.Prelude.{◌≡◌, map, IfOk, All};
ghost use Rattle.aero_verdict.specs.InOrder.{step_in};
ghost use Rattle.aero_verdict.specs.Limited.{IsNamedThread};

use crate::numbering::Numbering;
use aero_model::Step;
use aero_order::first::First;
use std::alloc::{AllocError, Global};

// The lines of these events.
pub(crate) fn lines_of(alloc: Global, firsts: &[First]) -> Result<Vec<u32>, AllocError>
    ensures { IfOk result (λ lines. lines.items ≡ map (λ f. f.line) firsts.now) }
{
    let mut lines = Vec::with_capacity(alloc, firsts.len())?;
    for first in firsts {
        lines.push(first.line)?;
    }
    Ok(lines)
}

// The lines and the threads' names of these events.
pub(crate) fn steps_of(
    alloc: Global,
    numbering: &Numbering,
    firsts: &[First],
) -> Result<Vec<Step>, AllocError>
    requires { All (λ f. IsNamedThread numbering.now f.thread) firsts.now }
    ensures { IfOk result (λ steps. steps.items ≡ map (step_in numbering.now) firsts.now) }
{
    let mut steps = Vec::with_capacity(alloc, firsts.len())?;
    for first in firsts {
        let step = step_of(alloc, numbering, *first)?;
        steps.push(step)?;
    }
    Ok(steps)
}

fn step_of(alloc: Global, numbering: &Numbering, first: First) -> Result<Step, AllocError>
    requires { IsNamedThread numbering.now first.thread }
    ensures { IfOk result (λ step. step ≡ step_in numbering.now first) }
{
    Ok(Step {
        line: first.line,
        thread: numbering.thread_name(alloc, first.thread)?,
    })
}
