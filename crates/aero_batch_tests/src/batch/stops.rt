// Sources that are read no further once their verdict is certain: a reader without an end shows that a run ends, and one
// that may wait shows after how many bytes.
use crate::batch::habits::Habit;
use crate::batch::runs::{Who, plan_by, run_planned};
use crate::batch::streams::{BreaksOnce, GoesOn};
use crate::batch::{limits_of, lines_of};
use aero_intake::plan::Plan;
use aero_intake::source::Source;
use aero_model::Ending;
use aero_model::counting::Counting;
use std::alloc::Global;
use std::io::Read;
use std::sync::Wait;
use std::test::Fail;
use std::thread::Threads;

static HELP: [Who; 6] = [
    Who::Alone,
    Who::Crew(1),
    Who::Crew(16),
    Who::Helped(Habit::Newest),
    Who::Helped(Habit::Forges),
    Who::Helped(Habit::Leaves),
];

// A violation that is certain with the last of these bytes.
const AT_LINE_6: &str = "T1|begin/T2|begin/T1|w(x)/T2|r(x)/T2|w(y)/T1|r(y)/";

// Texts whose verdicts are certain with their last bytes, how many bytes they have, and what is written of them.
static CERTAIN: [(&str, u32, &str); 3] = [
    (
        AT_LINE_6,
        50,
        "n: violation at line 6: block of T1 from line 1/traces 1: serializable 0, open 0, violations 1, faults 0/",
    ),
    (
        "T1|begin/T1|r()/",
        16,
        "n:2: malformed: MissingTarget/traces 1: serializable 0, open 0, violations 0, faults 1/",
    ),
    (
        "T1|begin/T2|end/",
        16,
        "n:2: ill-formed: EndWithoutBegin/traces 1: serializable 0, open 0, violations 0, faults 1/",
    ),
];

// A plan that stops early, by reads of so many bytes, under this limit on bytes.
fn stopping(alloc: Global, who: Who, piece: u32, bytes: u32) -> Result<Plan, Fail> {
    let limits = limits_of(bytes, 1_000_000, 9, 9)?;
    Ok(plan_by(alloc, who, limits, piece, ("", false))?.stopping())
}

// What a run over one source wrote, and how its reading ended.
fn run_over_one<R: Read + Drop, T: AllocGlobal + Threads + Wait + Copy + Send + 'static>(
    rt: &T,
    who: Who,
    (reader, may_wait): (R, bool),
    plan: &Plan,
) -> Result<(Vec<u8>, (u64, Ending)), Fail> {
    let mut sources = Vec::new(rt.alloc());
    sources.push(Source {
        name: b"n".to_vec(rt.alloc())?,
        reader: Counting::new(reader),
        may_wait,
    })?;
    let mut writer = Counting::new(Vec::new(rt.alloc()));
    let outcome = run_planned(*rt, who, &mut sources, &mut writer, plan)?;
    let ending = *outcome.endings.first().ok_or("no ending")?;
    Ok((writer.into_inner(), ending))
}

// Whether the run over a text that goes on without an end stops, and writes this.
fn has_stopped<T: AllocGlobal + Threads + Wait + Copy + Send + 'static>(
    rt: &T,
    (who, piece): (Who, u32),
    (text, report): (&[u8], &[u8]),
) -> Result<bool, Fail> {
    let plan = stopping(rt.alloc(), who, piece, 1_000_000)?;
    let reader = GoesOn { text };
    let (written, ending) = run_over_one(rt, who, (reader, false), &plan)?;
    Ok(written.as_slice() == report && ending.1 == Ending::Stopped)
}

// Whether a source that may wait is read no byte further than this text, which a line that decides ends, where its next read
// would fail and no more bytes may come, and whether this is written of it.
fn is_read_to_the_line<T: AllocGlobal + Threads + Wait + Copy + Send + 'static>(
    rt: &T,
    who: Who,
    bytes: u32,
    (text, report): (&[u8], &[u8]),
) -> Result<bool, Fail> {
    let plan = stopping(rt.alloc(), who, 1, bytes)?;
    let reader = BreaksOnce {
        text,
        left: bytes as usize,
        has_failed: false,
    };
    let (written, ending) = run_over_one(rt, who, (reader, true), &plan)?;
    Ok(written.as_slice() == report && ending == (u64::from(bytes), Ending::Stopped))
}

// A read that would fail right behind the line that decides is never made, and a limit of as many bytes is kept. A source
// without an end whose reads don't wait is read no further either, some bytes later.
#[test]
fn what_is_behind_the_line_that_decides_is_not_seen(rt: HostRuntime) -> Result<(), Fail> {
    for (text, bytes, report) in CERTAIN.iter() {
        let text = lines_of(rt.alloc(), text)?;
        let report = lines_of(rt.alloc(), report)?;
        for who in HELP.iter() {
            assert!(rt; is_read_to_the_line(&rt, *who, *bytes, (&text, &report))?);
            for piece in [3, 4_096] {
                assert!(rt; has_stopped(&rt, (*who, piece), (&text, &report))?);
            }
        }
    }
    Ok(())
}

// One byte more than may come is told as ever, and so is a read that fails before the verdict is certain.
#[test]
fn what_is_before_the_line_that_decides_is_told(rt: HostRuntime) -> Result<(), Fail> {
    let text = lines_of(rt.alloc(), AT_LINE_6)?;
    let plan = stopping(rt.alloc(), Who::Alone, 1, 49)?;
    let (_, ending) = run_over_one(&rt, Who::Alone, (GoesOn { text: &text }, true), &plan)?;
    assert_eq!(rt; ending, (50, Ending::TooLarge));
    let plan = stopping(rt.alloc(), Who::Alone, 1, 50)?;
    let reader = BreaksOnce {
        text: &text,
        left: 49,
        has_failed: false,
    };
    let (_, ending) = run_over_one(&rt, Who::Alone, (reader, true), &plan)?;
    assert_eq!(rt; ending, (49, Ending::Broken));
    Ok(())
}
