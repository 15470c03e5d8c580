// Helpers whose answers on blocks, or whose verdicts, come late: what is asked meanwhile, and what they are given to free.
use crate::batch::habits::{Habit, helper_with};
use crate::batch::runs::{Who, plan_by, run_few};
use crate::batch::{ONE_BLOCK, lines_of, source_of};
use aero_model::counting::Counting;
use aero_model::limits::Limits;
use std::sync::Wait;
use std::test::Fail;

// What is written of five sources, each with one block.
const REPORT_OF_FIVE: &str =
    "a: serializable (5 events, 1 blocks)/b: serializable (5 events, 1 blocks)/c: serializable (5 events, 1 blocks)/d: serializable (5 events, 1 blocks)/e: serializable (5 events, 1 blocks)/traces 5: serializable 5, open 0, violations 0, faults 0/";

// How many late answers are owed at once, at most, in a run over five sources whose reads may wait or don't, and how many
// questions are given to be freed. Fails where the report isn't theirs, or an answer was worked out here.
fn run_over_five<T: AllocGlobal + Wait>(
    rt: &T,
    habit: Habit,
    may_wait: bool,
) -> Result<(usize, usize), Fail> {
    let text = lines_of(rt.alloc(), ONE_BLOCK)?;
    let mut sources = Vec::new(rt.alloc());
    for name in ["a", "b", "c", "d", "e"] {
        let mut source = source_of(rt.alloc(), name, text.as_slice())?;
        source.may_wait = may_wait;
        sources.push(source)?;
    }
    let plan = plan_by(rt.alloc(), Who::Crew(2), Limits::greatest(), 7, ("", false))?;
    let mut helper = helper_with(rt.alloc(), habit);
    let mut writer = Counting::new(Vec::new(rt.alloc()));
    let Some(outcome) = run_few(rt, &mut sources, &mut writer, &plan, &mut helper) else {
        return Err("too many sources".into());
    };
    let is_told = writer.into_inner() == lines_of(rt.alloc(), REPORT_OF_FIVE)?;
    if outcome.cause.is_some() || outcome.tally.done_here != 0 || !is_told {
        return Err("another report, or work done here".into());
    }
    Ok((helper.held, helper.freed))
}

// A late verdict holds none up that is asked for later. Once all sources are read, what was parsed is given to the
// helpers where one of the two is at no verdict, so that of the last two, and else is freed by the run. Late answers on blocks
// hold none up either: there are two for each source, since its last line has no end. At the first four verdicts blocks are
// asked about, and at the last no source is left: what was parsed is given to the helpers at each. Where reads may wait, each
// source is told before the next is read, when no block is asked about: what was parsed is given to them at the last source
// alone.
#[test]
fn a_late_answer_holds_no_later_one_up(rt: HostRuntime) -> Result<(), Fail> {
    let rows = [
        (Habit::LateVerdicts, false, (5, 2)),
        (Habit::LateBlocks, false, (10, 5)),
        (Habit::LateVerdicts, true, (1, 1)),
        (Habit::LateBlocks, true, (2, 1)),
    ];
    for (habit, may_wait, wanted) in rows {
        assert_eq!(rt; run_over_five(&rt, habit, may_wait)?, wanted);
    }
    Ok(())
}
