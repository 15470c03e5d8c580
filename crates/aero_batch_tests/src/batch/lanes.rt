// Runs in lanes whose writer fails.
use crate::batch::runs::{Who, plan_by};
use crate::batch::streams::TakesBytes;
use crate::batch::{CROSSED, ONE_BLOCK, lines_of, source_of};
use aero_batch::outcome::Cause;
use aero_batch::told::{Style, sum_up};
use aero_lanes::run_in_lanes;
use aero_model::counting::Counting;
use aero_model::limits::Limits;
use std::sync::Wait;
use std::test::Fail;
use std::thread::Threads;

const REPORT: &str =
    "v: violation at line 6: block of T1 from line 1/s: serializable (5 events, 1 blocks)/traces 2: serializable 1, open 0, violations 1, faults 0/";

// Whether so many bytes of the report on the sources v and s, with these texts, are written where the next one can't be, with
// that cause, and the lanes give all sources back.
fn is_cut_in_lanes<T: AllocGlobal + Threads + Wait + Copy + Send + Sync + 'static>(
    rt: &T,
    (crossed, block): (&[u8], &[u8]),
    front: &[u8],
) -> Result<bool, Fail> {
    let plan = plan_by(
        rt.alloc(),
        Who::Crew(2),
        Limits::greatest(),
        512,
        ("", false),
    )?;
    let mut sources = Vec::new(rt.alloc());
    sources.push(source_of(rt.alloc(), "v", crossed)?)?;
    sources.push(source_of(rt.alloc(), "s", block)?)?;
    let mut writer = Counting::new(TakesBytes {
        taken: Vec::new(rt.alloc()),
        left: front.len(),
        takes_nothing: false,
    });
    if sources.len() > 30 {
        return Err("too many sources".into());
    }
    let (report, back) = run_in_lanes(*rt, rt.alloc(), sources, &mut writer, &plan);
    let counts = &report.told.counts;
    let style = Style {
        alloc: rt.alloc(),
        form: plan.form,
    };
    let cause = sum_up(style, plan.options(), counts, report.cause, &mut writer);
    let mut names = Vec::new(rt.alloc());
    for source in &back {
        names.extend_from_slice(&source.name)?;
    }
    Ok(
        writer.into_inner().taken.as_slice() == front
            && report.told.endings.len() == lines_in(front)
            && cause == Some(Cause::Write)
            && names.as_slice() == b"vs".as_slice(),
    )
}

// How many lines are whole.
fn lines_in(text: &[u8]) -> usize {
    text.iter().filter(|byte| **byte == b'\n').count()
}

#[test]
fn a_write_that_fails_at_any_byte_cuts_the_report_in_lanes(rt: HostRuntime) -> Result<(), Fail> {
    let crossed = lines_of(rt.alloc(), CROSSED)?;
    let block = lines_of(rt.alloc(), ONE_BLOCK)?;
    let wanted = lines_of(rt.alloc(), REPORT)?;
    for count in 0..wanted.len() {
        let front = wanted.split_at(count).0;
        assert!(rt; is_cut_in_lanes(&rt, (&crossed, &block), front)?);
    }
    Ok(())
}
