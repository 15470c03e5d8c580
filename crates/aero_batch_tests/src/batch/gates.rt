// Runs with a crew, under gates.
use crate::batch::runs::{Who, plan_by, run_gated};
use crate::batch::{
    CLOSED_BY_AN_END, CROSSED, REPORT_OF_THREE, lines_of, three_sources, two_sources,
};
use aero_batch::outcome::Outcome;
use aero_intake::plan::Plan;
use aero_intake::source::Source;
use aero_model::counting::Counting;
use aero_model::limits::Limits;
use aero_pieces::answer::Answer;
use aero_pieces::question::Question;
use aero_worker::Gate;
use std::process::Abort;
use std::sync::atomic::{AtomicBool, AtomicU64, Ordering};
use std::sync::{Arc, Wait};
use std::test::Fail;
use std::thread;
use std::thread::Threads;

const TURNS: u32 = 20_000_000;

// Where a gate waits for others.
#[derive(Drop)]
struct Meeting {
    count: AtomicU64,
    is_late: AtomicBool,
}

fn nobody_yet() -> Meeting {
    Meeting {
        count: AtomicU64::new(0),
        is_late: AtomicBool::new(false),
    }
}

impl Meeting {
    fn enter(&self) {
        self.count.fetch_add(1, Ordering::SeqCst);
    }

    // Waits until so many have entered.
    fn wait_for(&self, count: u64) {
        for _ in 0..TURNS {
            if self.count.load(Ordering::SeqCst) >= count {
                return;
            }
            thread::yield_now();
        }
        self.is_late.store(true, Ordering::SeqCst);
    }

    // Whether so many came at least, and no wait for them was in vain.
    fn was_met(&self, count: u64) -> bool {
        self.count.load(Ordering::SeqCst) >= count && !self.is_late.load(Ordering::SeqCst)
    }
}

// The answer to the first question waits for that to the second.
#[derive(Drop)]
struct SecondFirst {
    meeting: Meeting,
}

impl Gate for SecondFirst {
    fn before(&self, _question: &Question) {}

    fn after(&self, answer: &Answer) {
        match answer.question() {
            Question::Parse {
                trace: 0,
                number: 0,
                ..
            } => self.meeting.wait_for(1),
            Question::Parse {
                trace: 0,
                number: 1,
                ..
            } => self.meeting.enter(),
            _ => {}
        }
    }
}

// When the first two who come wait for each other.
#[derive(Clone, Copy, PartialEq, Eq)]
enum Moment {
    // Before a question.
    Before,
    // Before a question on a verdict.
    BeforeVerdict,
    // After an answer.
    After,
}

// Each of the first two waits until the other has entered.
#[derive(Drop)]
struct TwoAtOnce {
    moment: Moment,
    meeting: Meeting,
}

impl TwoAtOnce {
    fn meet(&self) {
        self.meeting.enter();
        self.meeting.wait_for(2);
    }
}

impl Gate for TwoAtOnce {
    fn before(&self, question: &Question) {
        let is_met_here = match question {
            Question::Parse { .. } => self.moment == Moment::Before,
            Question::Check { .. } => self.moment != Moment::After,
        };
        if is_met_here {
            self.meet();
        }
    }

    fn after(&self, _answer: &Answer) {
        if self.moment == Moment::After {
            self.meet();
        }
    }
}

// The report of a run under this gate, and what else it tells.
fn report_under<G: Gate + Drop + 'static, T: AllocGlobal + Threads + Wait + Copy + Send + 'static>(
    rt: T,
    gate: Arc<G>,
    sources: &mut [Source<&[u8]>],
    plan: &Plan,
) -> Result<(Vec<u8>, Outcome), Fail> {
    let mut writer = Counting::new(Vec::new(rt.alloc()));
    let outcome = run_gated(rt, sources, &mut writer, plan, gate).ok_or("a crew not closed")?;
    Ok((writer.into_inner(), outcome))
}

// Whether three sources have their report under this gate, by so many workers and nobody else.
fn has_report_of_three<T: AllocGlobal + Threads + Wait + Copy + Send + 'static>(
    rt: T,
    gate: Arc<SecondFirst>,
    workers: u32,
) -> Result<bool, Fail> {
    let plan = plan_by(
        rt.alloc(),
        Who::Crew(workers),
        Limits::greatest(),
        7,
        ("", false),
    )?;
    let crossed = lines_of(rt.alloc(), CROSSED)?;
    let closed = lines_of(rt.alloc(), CLOSED_BY_AN_END)?;
    let mut sources = three_sources((&crossed, &closed), rt.alloc())?;
    let (report, outcome) = report_under(rt, gate, &mut sources, &plan)?;
    let is_told = report == lines_of(rt.alloc(), REPORT_OF_THREE)?;
    Ok(is_told && outcome.cause.is_none() && outcome.tally.done_here == 0)
}

// Three sources, by so many workers of which the second is the first to answer.
fn expect_second_first<T: Abort + AllocGlobal + Threads + Wait + Copy + Send + 'static>(
    rt: T,
    workers: u32,
) -> Result<(), Fail> {
    let meeting = nobody_yet();
    let gate = Arc::new(rt.alloc(), SecondFirst { meeting })?;
    assert!(rt; has_report_of_three(rt, Arc::try_clone(&gate)?, workers)?);
    assert!(rt; gate.meeting.was_met(1));
    Ok(())
}

// How many violations two sources that never wait have under this gate, and how many answers were worked out by the run itself.
fn violations_under<T: AllocGlobal + Threads + Wait + Copy + Send + 'static>(
    rt: T,
    gate: Arc<TwoAtOnce>,
) -> Result<(u64, u64), Fail> {
    let plan = plan_by(
        rt.alloc(),
        Who::Crew(2),
        Limits::greatest(),
        65_536,
        ("", false),
    )?;
    let crossed = lines_of(rt.alloc(), CROSSED)?;
    let mut sources = two_sources(&crossed, rt.alloc())?;
    let (_, outcome) = report_under(rt, gate, &mut sources, &plan)?;
    Ok((outcome.counts.violations, outcome.tally.done_here))
}

// Two sources, by two workers that meet in the gate.
fn expect_two_at_once<T: Abort + AllocGlobal + Threads + Wait + Copy + Send + 'static>(
    rt: T,
    moment: Moment,
) -> Result<(), Fail> {
    let meeting = nobody_yet();
    let gate = Arc::new(rt.alloc(), TwoAtOnce { moment, meeting })?;
    assert_eq!(rt; violations_under(rt, Arc::try_clone(&gate)?)?, (2, 0));
    assert!(rt; gate.meeting.was_met(2));
    Ok(())
}

#[test]
fn workers_answer_in_another_order_and_at_once(rt: HostRuntime) -> Result<(), Fail> {
    expect_second_first(rt, 2)?;
    expect_second_first(rt, 16)?;
    expect_two_at_once(rt, Moment::Before)?;
    expect_two_at_once(rt, Moment::After)
}

// The second source is read and asked about while the verdict on the first is worked out, where none may wait.
#[test]
fn two_sources_are_judged_at_once(rt: HostRuntime) -> Result<(), Fail> {
    expect_two_at_once(rt, Moment::BeforeVerdict)
}
