// Runs by whoever it is. The callers need nothing of what a run promises.
use crate::batch::habits::{Habit, helper_with};
use aero_batch::helpers::Nobody;
use aero_batch::outcome::Outcome;
use aero_batch::run::{run, run_over};
use aero_intake::plan::Plan;
use aero_intake::source::Source;
use aero_model::counting::Counting;
use aero_model::limits::Limits;
use aero_model::{Except, Name, SharedExcept};
use aero_worker::{Gate, Helpers, NoGate};
use std::alloc::Global;
use std::io::{Read, Write};
use std::sync::{Arc, Wait};
use std::test::Fail;
use std::thread::Threads;

// Who answers the questions of a run.
#[derive(Clone, Copy)]
pub(crate) enum Who {
    // The calling thread.
    Alone,
    // Helpers with this habit.
    Helped(Habit),
    // So many workers.
    Crew(u32),
}

// The list of this label, or of none where it is empty. `None` where memory is refused.
fn listed(alloc: Global, label: &str) -> Option<SharedExcept> {
    let mut names = Vec::new(alloc);
    if !label.is_empty() {
        names.push(Name::read(alloc, label.as_bytes()).ok()?).ok()?;
    }
    SharedExcept::new(alloc, Except::new(names)?).ok()
}

// The plan of a run by these, where this label is listed, or none, and the order is asked for or not.
pub(crate) fn plan_by(
    alloc: Global,
    who: Who,
    limits: Limits,
    piece: u32,
    (label, order): (&str, bool),
) -> Result<Plan, Fail> {
    let workers = match who {
        Who::Crew(workers) => workers,
        Who::Alone | Who::Helped(_) => 1,
    };
    let except = listed(alloc, label).ok_or("the label")?;
    match Plan::new(workers, piece, limits, except, order) {
        Some(plan) => Ok(plan),
        None => Err("no such plan".into()),
    }
}

// Runs by this plan over at most nine sources, or 30 with a crew. Whoever answers is counted, and has answered as much as was to be expected.
pub(crate) fn run_planned<
    R: Read,
    W: Write,
    T: AllocGlobal + Threads + Wait + Copy + Send + 'static,
>(
    rt: T,
    who: Who,
    sources: &mut [Source<R>],
    writer: &mut Counting<W>,
    plan: &Plan,
) -> Result<Outcome, Fail> {
    let (outcome, workers) = match who {
        Who::Alone => (run_few(&rt, sources, writer, plan, &mut Nobody), 0),
        Who::Helped(habit) => (run_helped(&rt, sources, writer, plan, habit), 2),
        Who::Crew(workers) => {
            let gate = Arc::new(rt.alloc(), NoGate)?;
            (run_gated(rt, sources, writer, plan, gate), workers)
        }
    };
    let Some(outcome) = outcome else {
        return Err("too many sources, or a crew that was not closed".into());
    };
    if outcome.workers != workers || !is_by(&outcome, who) {
        return Err("the questions were answered by somebody else".into());
    }
    Ok(outcome)
}

// Whether nothing was worked out here where helpers answer, and all where they don't.
fn is_by(outcome: &Outcome, who: Who) -> bool {
    match who {
        Who::Crew(_) => outcome.tally.done_here == 0,
        Who::Helped(Habit::Newest | Habit::Twice | Habit::Forges) => outcome.tally.done_here == 0,
        // Its own test says how many.
        Who::Helped(Habit::Chatters(_)) => true,
        Who::Helped(_) | Who::Alone => outcome.tally.kept == 0,
    }
}

// Runs over at most nine sources.
pub(crate) fn run_few<R: Read, W: Write, H: Helpers, T: AllocGlobal + Wait>(
    rt: &T,
    sources: &mut [Source<R>],
    writer: &mut Counting<W>,
    plan: &Plan,
    helpers: &mut H,
) -> Option<Outcome> {
    if sources.len() > 9 {
        return None;
    }
    Some(run_over(rt, rt.alloc(), sources, writer, plan, helpers))
}

// `None` also where an answer was awaited of helpers that took no job.
fn run_helped<R: Read, W: Write, T: AllocGlobal + Wait>(
    rt: &T,
    sources: &mut [Source<R>],
    writer: &mut Counting<W>,
    plan: &Plan,
    habit: Habit,
) -> Option<Outcome> {
    let mut helper = helper_with(rt.alloc(), habit);
    let outcome = run_few(rt, sources, writer, plan, &mut helper)?;
    if helper.has_refused && helper.was_awaited {
        return None;
    }
    Some(outcome)
}

// `None` also where a worker still has the gate after the run.
pub(crate) fn run_gated<
    R: Read,
    W: Write,
    G: Gate + Drop + 'static,
    T: AllocGlobal + Threads + Wait + Copy + Send + 'static,
>(
    rt: T,
    sources: &mut [Source<R>],
    writer: &mut Counting<W>,
    plan: &Plan,
    gate: Arc<G>,
) -> Option<Outcome> {
    if sources.len() > 30 {
        return None;
    }
    let Ok(shared) = Arc::try_clone(&gate) else {
        return None;
    };
    let before = Arc::strong_count(&gate);
    let outcome = run(rt, rt.alloc(), sources, writer, plan, shared);
    if Arc::strong_count(&gate).saturating_add(1) != before {
        return None;
    }
    Some(outcome)
}
