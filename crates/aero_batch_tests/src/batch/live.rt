// Sources of which little is kept, so that they are judged as they come: what is written of them is what their texts
// say, wherever they turn live.
use crate::batch::runs::{Who, plan_by, run_planned};
use crate::batch::streams::BreaksOnce;
use crate::batch::{limits_of, lines_of, source_of};
use aero_intake::plan::{Keeping, Plan};
use aero_model::counting::Counting;
use std::alloc::Global;
use std::sync::Wait;
use std::test::Fail;
use std::thread::Threads;

// A text of five lines, the last of which has no end: four make a block, and the last one another. Under these limits on
// bytes and lines, by a reader that fails after so many bytes, this is written of it.
#[derive(Drop)]
struct Row {
    text: &'static str,
    limits: (u32, u32),
    fails_after: usize,
    report: &'static str,
}

const NEVER: usize = 1_000_000_000;

const SOUND: &str = "T1|begin/T1|r(x)/T2|r(x)/T2|w(x)/T1|end";

const OPEN: &str = "T1|begin/T1|r(x)/T2|r(x)/T1|r(x)/T2|w(x)";

const AT_LINE_4: &str = "T1|begin/T1|r(x)/T2|w(x)/T1|r(x)/T1|r(x)";

const AT_LINE_5: &str = "T1|begin/T1|r(x)/T2|r(x)/T2|w(x)/T1|r(x)";

static ROWS: [Row; 13] = [
    Row {
        text: SOUND,
        limits: (100, 5),
        fails_after: NEVER,
        report: "n: serializable (5 events, 1 blocks)/traces 1: serializable 1, open 0, violations 0, faults 0/",
    },
    Row {
        text: OPEN,
        limits: (100, 5),
        fails_after: NEVER,
        report: "n: no violation, 1 blocks open (5 events, 1 blocks)/traces 1: serializable 0, open 1, violations 0, faults 0/",
    },
    Row {
        text: "T1|begin/T1|r(x)/T2|w(x)/T1|r()/T1|r(x)",
        limits: (100, 5),
        fails_after: NEVER,
        report: "n:4: malformed: MissingTarget/traces 1: serializable 0, open 0, violations 0, faults 1/",
    },
    Row {
        text: "T1|begin/T1|r(x)/T2|r(x)/T2|w(x)/T1|r()",
        limits: (100, 5),
        fails_after: NEVER,
        report: "n:5: malformed: MissingTarget/traces 1: serializable 0, open 0, violations 0, faults 1/",
    },
    Row {
        text: "T1|begin/T1|r(x)/T2|w(x)/T2|end/T1|r()",
        limits: (100, 5),
        fails_after: NEVER,
        report: "n:4: ill-formed: EndWithoutBegin/traces 1: serializable 0, open 0, violations 0, faults 1/",
    },
    Row {
        text: "T1|begin/T1|r(x)/T2|r(x)/T2|w(x)/T2|end",
        limits: (100, 5),
        fails_after: NEVER,
        report: "n:5: ill-formed: EndWithoutBegin/traces 1: serializable 0, open 0, violations 0, faults 1/",
    },
    Row {
        text: AT_LINE_5,
        limits: (100, 3),
        fails_after: NEVER,
        report: "n:4: malformed: TooManyLines/traces 1: serializable 0, open 0, violations 0, faults 1/",
    },
    Row {
        text: AT_LINE_5,
        limits: (100, 4),
        fails_after: NEVER,
        report: "n:5: malformed: TooManyLines/traces 1: serializable 0, open 0, violations 0, faults 1/",
    },
    // A violation in the last block.
    Row {
        text: AT_LINE_5,
        limits: (100, 5),
        fails_after: NEVER,
        report: "n: violation at line 5: block of T1 from line 1/traces 1: serializable 0, open 0, violations 1, faults 0/",
    },
    // A violation before the line that is one too many is told.
    Row {
        text: AT_LINE_4,
        limits: (100, 4),
        fails_after: NEVER,
        report: "n: violation at line 4: block of T1 from line 1/traces 1: serializable 0, open 0, violations 1, faults 0/",
    },
    Row {
        text: AT_LINE_4,
        limits: (100, 5),
        fails_after: 34,
        report: "n: broken after 34 bytes/traces 1: serializable 0, open 0, violations 0, faults 1/",
    },
    Row {
        text: AT_LINE_4,
        limits: (39, 5),
        fails_after: NEVER,
        report: "n: too large/traces 1: serializable 0, open 0, violations 0, faults 1/",
    },
    Row {
        text: AT_LINE_4,
        limits: (40, 5),
        fails_after: NEVER,
        report: "n: violation at line 4: block of T1 from line 1/traces 1: serializable 0, open 0, violations 1, faults 0/",
    },
];

// How many events are kept at most: the source turns live at its first block, at its last one, or never.
static BOUNDS: [u64; 4] = [0, 3, 4, 5];

// The plan of a run by these, under these limits on bytes and lines, by which so many events are kept.
fn plan_of(alloc: Global, who: Who, (bytes, lines): (u32, u32), most: u64) -> Result<Plan, Fail> {
    let limits = limits_of(bytes, lines, 2, 1)?;
    let plan = plan_by(alloc, who, limits, 7, ("", false))?;
    Ok(plan.with_keeping(Keeping {
        events: most,
        last_events: most,
    }))
}

// What is written of a source with this text.
fn written_of<T: AllocGlobal + Threads + Wait + Copy + Send + 'static>(
    rt: &T,
    who: Who,
    (text, fails_after): (&[u8], usize),
    plan: &Plan,
) -> Result<Vec<u8>, Fail> {
    let reader = BreaksOnce {
        text,
        left: fails_after,
        has_failed: false,
    };
    let mut sources = Vec::new(rt.alloc());
    sources.push(source_of(rt.alloc(), "n", reader)?)?;
    let mut writer = Counting::new(Vec::new(rt.alloc()));
    run_planned(*rt, who, &mut sources, &mut writer, plan)?;
    Ok(writer.into_inner())
}

// Whether this is written of a row's text, alone and by a crew, however many events are kept.
fn has_reports<T: AllocGlobal + Threads + Wait + Copy + Send + 'static>(
    rt: &T,
    row: &Row,
) -> Result<bool, Fail> {
    let text = lines_of(rt.alloc(), row.text)?;
    let report = lines_of(rt.alloc(), row.report)?;
    for who in [Who::Alone, Who::Crew(2)] {
        for most in BOUNDS.iter() {
            let plan = plan_of(rt.alloc(), who, row.limits, *most)?;
            if written_of(rt, who, (&text, row.fails_after), &plan)? != report {
                return Ok(false);
            }
        }
    }
    Ok(true)
}

#[test]
fn a_source_has_its_line_wherever_it_turns_live(rt: HostRuntime) -> Result<(), Fail> {
    for row in ROWS.iter() {
        assert!(rt; has_reports(&rt, row)?, "{}", row.report);
    }
    Ok(())
}
