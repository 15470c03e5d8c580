// A text that is cut anywhere, reads and writes that fail at each call in turn, and a reader without an
// end. What is expected stands in the rows, and doesn't hang on who helps: all is done alone.
use crate::batch::runs::{Who, plan_by, run_planned};
use crate::batch::streams::{BreaksOnce, Endless, TakesBytes};
use crate::batch::{LARGE, ONE_BLOCK, expect_end, limits_of, lines_of, source_of};
use aero_batch::outcome::{Cause, Outcome};
use aero_model::counting::Counting;
use aero_model::limits::Limits;
use aero_model::verdict::Ending;
use std::process::Abort;
use std::sync::Wait;
use std::test::Fail;
use std::thread::Threads;

const TEXT: &str = "T1|begin/T1|w(x)";

// What is said of the first 0 to 16 bytes of the text.
const LINES_OF_FRONTS: [&str; 17] = [
    "n: serializable (0 events, 0 blocks)/",
    "n:1: malformed: NoOperation/",
    "n:1: malformed: NoOperation/",
    "n:1: malformed: UnknownOperation/",
    "n:1: malformed: UnknownOperation/",
    "n:1: malformed: UnknownOperation/",
    "n:1: malformed: UnknownOperation/",
    "n:1: malformed: UnknownOperation/",
    "n: no violation, 1 blocks open (1 events, 1 blocks)/",
    "n: no violation, 1 blocks open (1 events, 1 blocks)/",
    "n:2: malformed: NoOperation/",
    "n:2: malformed: NoOperation/",
    "n:2: malformed: UnknownOperation/",
    "n:2: malformed: MissingTarget/",
    "n:2: malformed: BadParenthesis/",
    "n:2: malformed: BadParenthesis/",
    "n: no violation, 1 blocks open (2 events, 1 blocks)/",
];

// Reads give one byte each.
const BY_BYTES: (u32, Who) = (1, Who::Alone);

#[test]
fn a_text_that_is_cut_has_the_line_of_what_came(rt: HostRuntime) -> Result<(), Fail> {
    let text = lines_of(rt.alloc(), TEXT)?;
    let greatest = Limits::greatest();
    for (count, line) in LINES_OF_FRONTS.iter().enumerate() {
        let front = text.split_at(count.min(text.len())).0;
        let ending = (count as u64, Ending::Whole);
        expect_end(&rt, front, greatest, BY_BYTES, line, ending)?;
    }
    Ok(())
}

#[test]
fn a_read_that_fails_at_any_call_breaks_the_source(rt: HostRuntime) -> Result<(), Fail> {
    let text = lines_of(rt.alloc(), TEXT)?;
    let greatest = Limits::greatest();
    for left in 0..17usize {
        let reader = BreaksOnce {
            text: &text,
            left,
            has_failed: false,
        };
        let line = format!(in rt.alloc(); "n: broken after {left} bytes/")?;
        let ending = (left as u64, Ending::Broken);
        expect_end(&rt, reader, greatest, BY_BYTES, &line, ending)?;
    }
    Ok(())
}

#[test]
fn a_source_without_an_end_is_too_large(rt: HostRuntime) -> Result<(), Fail> {
    let short = limits_of(1_000, 1, 1, 1)?;
    let ending = (1_001, Ending::TooLarge);
    expect_end(&rt, Endless, short, (7, Who::Alone), LARGE, ending)?;
    let text = vec![in rt.alloc(); b'a'; 10_000]?;
    let greatest = Limits::greatest();
    let line = "n:1: malformed: TooLong/";
    let ending = (10_000, Ending::Whole);
    expect_end(
        &rt,
        text.as_slice(),
        greatest,
        (7, Who::Alone),
        line,
        ending,
    )
}

const REPORT: &str =
    "n: serializable (5 events, 1 blocks)/traces 1: serializable 1, open 0, violations 0, faults 0/";

// Runs over a text, alone, with a writer that takes one byte a call, so many in all, and from then on
// fails, or takes nothing: what the run came to, and what was written.
fn run_cut<T: Abort + AllocGlobal + Threads + Wait + Copy + Send + 'static>(
    rt: &T,
    text: &[u8],
    left: usize,
    takes_nothing: bool,
) -> Result<(Outcome, Vec<u8>), Fail> {
    let mut sources = Vec::new(rt.alloc());
    sources.push(source_of(rt.alloc(), "n", text)?)?;
    let mut writer = Counting::new(TakesBytes {
        taken: Vec::new(rt.alloc()),
        left,
        takes_nothing,
    });
    let plan = plan_by(rt.alloc(), Who::Alone, Limits::greatest(), 7, ("", false))?;
    let outcome = run_planned(*rt, Who::Alone, &mut sources, &mut writer, &plan)?;
    Ok((outcome, writer.into_inner().taken))
}

// Whether a run that came to this was cut after so many bytes of the report: the line of its source has
// 37, and the source 39.
fn is_cut(outcome: &Outcome, written: &[u8], report: &[u8], count: usize) -> bool {
    let has_endings = if count < 37 {
        outcome.endings.is_empty()
    } else {
        outcome.endings.as_slice() == [(39, Ending::Whole)].as_slice()
    };
    has_endings
        && outcome.cause == Some(Cause::Write)
        && written == report.split_at(count.min(report.len())).0
}

#[test]
fn a_write_that_fails_at_any_call_cuts_the_report(rt: HostRuntime) -> Result<(), Fail> {
    let text = lines_of(rt.alloc(), ONE_BLOCK)?;
    let report = lines_of(rt.alloc(), REPORT)?;
    for count in 0..report.len() {
        for takes_nothing in [false, true] {
            let (outcome, written) = run_cut(&rt, &text, count, takes_nothing)?;
            assert!(rt; is_cut(&outcome, &written, &report, count));
        }
    }
    Ok(())
}
