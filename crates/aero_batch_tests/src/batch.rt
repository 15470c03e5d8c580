// The rows of a run: what is written of a text, whoever helps, and where reads and writes fail. In
// texts and reports `/` stands for the byte 10.
mod damage;
mod gates;
mod gathered;
mod habits;
mod lanes;
mod live;
mod runs;
mod stops;
mod streams;
mod verdicts;

use crate::batch::habits::Habit;
use crate::batch::runs::{Who, plan_by, run_planned};
use crate::batch::streams::{BreaksOnce, CutsOnce, Endless};
use aero_batch::{Cause, Outcome};
use aero_intake::{Plan, Source};
use aero_model::{Counting, Ending, Limits};
use aero_report::Form;
use std::alloc::{AllocError, Global};
use std::io::Read;
use std::process::Abort;
use std::sync::Wait;
use std::test::Fail;
use std::thread::Threads;

static PIECES: [u32; 4] = [1, 2, 7, 65_536];

static EVERYBODY: [Who; 4] = [Who::Alone, Who::Crew(1), Who::Crew(2), Who::Crew(16)];

// All of these, and helpers with each habit by which the answers of a run stay the same.
static ALL: [Who; 11] = [
    Who::Alone,
    Who::Crew(1),
    Who::Crew(2),
    Who::Crew(16),
    Who::Helped(Habit::Newest),
    Who::Helped(Habit::Twice),
    Who::Helped(Habit::Forges),
    Who::Helped(Habit::Misses),
    Who::Helped(Habit::Babbles),
    Who::Helped(Habit::Leaves),
    Who::Helped(Habit::Refuses),
];

static OTHERS: [Who; 4] = [
    Who::Crew(1),
    Who::Crew(2),
    Who::Crew(16),
    Who::Helped(Habit::Newest),
];

// Two blocks that cross, each before the other.
const CROSSED: &str = "T1|begin/T2|begin/T1|w(x)/T2|r(x)/T2|w(y)/T1|r(y)";

// The same, but that the first block has a label.
const OF_ONE_LABEL: &str = "T1|begin(a)/T2|begin/T1|w(x)/T2|r(x)/T2|w(y)/T1|r(y)";

// A cycle through two open blocks, and the end of one of them.
const CLOSED_BY_AN_END: &str = "T1|begin/T2|begin/T2|w(y)/T1|w(x)/T2|r(x)/T1|r(y)/T1|end";

const ONE_BLOCK: &str = "T1|begin/T1|w(x)/T1|r(x)/T1|w(x)/T1|end";

// A block that reads what another thread writes after the block's begin, and so comes after it.
const WRITTEN_BETWEEN: &str = "T1|begin/T2|w(x)/T1|r(x)/T1|end";

const FITS: &str =
    "n: serializable (1 events, 0 blocks)/traces 1: serializable 1, open 0, violations 0, faults 0/";

const BROKEN: &str =
    "n: broken after 20 bytes/traces 1: serializable 0, open 0, violations 0, faults 1/";

const LARGE: &str = "n: too large/traces 1: serializable 0, open 0, violations 0, faults 1/";

// What is written of the sources a, b and c, with these two texts and an empty one between them.
const REPORT_OF_THREE: &str =
    "a: violation at line 6: block of T1 from line 1/b: serializable (0 events, 0 blocks)/c: violation at line 7: block of T2 from line 2/traces 3: serializable 1, open 0, violations 2, faults 0/";

// What is written of the sources a and b, each with the block that comes after a later event, and their orders.
const ORDER_OF_TWO: &str =
    "a: serializable (4 events, 1 blocks)/  2 T2/  1 T1/b: serializable (4 events, 1 blocks)/  2 T2/  1 T1/traces 2: serializable 2, open 0, violations 0, faults 0/";

// What is written of the sources a and b, each with the crossed blocks, where violations are to be explained.
const CYCLE_OF_TWO: &str =
    "a: violation at line 6: block of T1 from line 1/  3 1 T1|w(x)/  4 2 T2|r(x)/  5 2 T2|w(y)/  6 1 T1|r(y)/b: violation at line 6: block of T1 from line 1/  3 1 T1|w(x)/  4 2 T2|r(x)/  5 2 T2|w(y)/  6 1 T1|r(y)/traces 2: serializable 0, open 0, violations 2, faults 0/";

// The same without cycles, as JSON.
const OBJECTS_OF_TWO: &str =
    "{\"source\":\"a\",\"verdict\":\"violation\",\"line\":6,\"thread\":\"T1\",\"begun\":1}/{\"source\":\"b\",\"verdict\":\"violation\",\"line\":6,\"thread\":\"T1\",\"begun\":1}/{\"traces\":2,\"serializable\":0,\"open\":0,\"violations\":2,\"faults\":0,\"version\":\"0.1.0\",\"order\":false,\"explain\":false,\"limits\":{\"bytes\":1073741824,\"lines\":268435456,\"threads\":65536,\"names\":67108864},\"except\":[]}/";

fn lines_of(alloc: Global, text: &str) -> Result<Vec<u8>, AllocError> {
    let mut bytes = text.as_bytes().to_vec(alloc)?;
    for byte in bytes.iter_mut() {
        if *byte == b'/' {
            *byte = b'\n';
        }
    }
    Ok(bytes)
}

fn limits_of(bytes: u32, lines: u32, threads: u32, names: u32) -> Result<Limits, Fail> {
    match Limits::new(bytes, lines, threads, names) {
        Some(limits) => Ok(limits),
        None => Err("no such limits".into()),
    }
}

fn source_of<R: Drop>(alloc: Global, name: &str, reader: R) -> Result<Source<R>, AllocError> {
    Ok(Source {
        name: name.as_bytes().to_vec(alloc)?,
        reader: Counting::new(reader),
        may_wait: false,
    })
}

// Runs over one source with the name n, and expects that what is written begins so.
fn expect_start<R: Read + Drop, T: Abort + AllocGlobal + Threads + Wait + Copy + Send + 'static>(
    rt: &T,
    reader: R,
    limits: Limits,
    piece: u32,
    who: Who,
    start: &str,
) -> Result<Outcome, Fail> {
    let mut sources = Vec::new(rt.alloc());
    sources.push(source_of(rt.alloc(), "n", reader)?)?;
    let mut writer = Counting::new(Vec::new(rt.alloc()));
    let plan = plan_by(rt.alloc(), who, limits, piece, ("", false))?;
    let outcome = run_planned(*rt, who, &mut sources, &mut writer, &plan)?;
    assert_eq!(rt; outcome.cause, None);
    let start = lines_of(rt.alloc(), start)?;
    assert!(rt; writer.into_inner().as_slice().starts_with(&start));
    Ok(outcome)
}

// What a run by this plan writes of these sources, whoever helps, and what else it tells.
fn report_by<T: AllocGlobal + Threads + Wait + Copy + Send + 'static>(
    rt: &T,
    who: Who,
    sources: &mut [Source<&[u8]>],
    plan: &Plan,
) -> Result<(Vec<u8>, Outcome), Fail> {
    let mut writer = Counting::new(Vec::new(rt.alloc()));
    let outcome = run_planned(*rt, who, sources, &mut writer, plan)?;
    Ok((writer.into_inner(), outcome))
}

// A text, how many lines, threads and names it may have, and how what is written of it begins.
type LimitedText = (&'static str, (u32, u32, u32), &'static str);

static LIMITED: [LimitedText; 7] = [
    (
        CROSSED,
        (6, 2, 2),
        "n: violation at line 6: block of T1 from line 1/traces 1: ",
    ),
    (
        "T1|r(x)/T1|r(x)",
        (2, 1, 1),
        "n: serializable (2 events, 0 blocks)/traces 1: ",
    ),
    (
        "T1|r(x)/T1|r(x)/ ",
        (2, 1, 1),
        "n:3: malformed: TooManyLines/traces 1: ",
    ),
    (
        "T1|r(x)/T1|r(x)/T1",
        (2, 1, 1),
        "n:3: malformed: NoOperation/traces 1: ",
    ),
    (
        "T1|r(x)/T1|r(x)/T1|r(x)/T1",
        (2, 1, 1),
        "n:3: malformed: TooManyLines/traces 1: ",
    ),
    (
        "T1|w(x)/T2|w(x)/T3|w(x)",
        (3, 2, 1),
        "n:3: ill-formed: TooManyThreads/traces 1: ",
    ),
    (
        "T1|w(x)/T1|acq(x)/T1|w(y)",
        (3, 1, 1),
        "n:3: ill-formed: TooManyNames/traces 1: ",
    ),
];

// That is so at each size of a piece, by every number of workers, and whatever helps.
fn expect_limited<T: Abort + AllocGlobal + Threads + Wait + Copy + Send + 'static>(
    rt: &T,
    row: &LimitedText,
) -> Result<(), Fail> {
    let (lines, threads, names) = row.1;
    let text = lines_of(rt.alloc(), row.0)?;
    let limits = limits_of(100, lines, threads, names)?;
    for piece in PIECES.iter() {
        expect_start(rt, text.as_slice(), limits, *piece, Who::Alone, row.2)?;
    }
    for who in OTHERS.iter() {
        expect_start(rt, text.as_slice(), limits, 7, *who, row.2)?;
    }
    Ok(())
}

// Texts under the greatest limits, with labels and orders too, are cases of the built program: tests/cases/each_text_..
#[test]
fn a_text_has_its_line_under_the_limits(rt: HostRuntime) -> Result<(), Fail> {
    for row in LIMITED.iter() {
        expect_limited(&rt, row)?;
    }
    Ok(())
}

// Runs over one source with the name n, and expects what is written and how the source ended.
fn expect_end<R: Read + Drop, T: Abort + AllocGlobal + Threads + Wait + Copy + Send + 'static>(
    rt: &T,
    reader: R,
    limits: Limits,
    (piece, who): (u32, Who),
    written: &str,
    ending: (u64, Ending),
) -> Result<(), Fail> {
    let outcome = expect_start(rt, reader, limits, piece, who, written)?;
    assert_eq!(rt; outcome.endings.as_slice(), [ending].as_slice());
    Ok(())
}

// How a source ends that has a text, no end, or a reader that fails after 20 bytes.
fn expect_ends<T: Abort + AllocGlobal + Threads + Wait + Copy + Send + 'static>(
    rt: &T,
    crossed: &[u8],
    by: (u32, Who),
) -> Result<(), Fail> {
    let exact = limits_of(7, 1, 1, 1)?;
    let short = limits_of(6, 1, 1, 1)?;
    let text = b"T1|r(x)".as_slice();
    expect_end(rt, text, exact, by, FITS, (7, Ending::Whole))?;
    expect_end(rt, text, short, by, LARGE, (7, Ending::TooLarge))?;
    expect_end(rt, Endless, short, by, LARGE, (7, Ending::TooLarge))?;
    let reader = BreaksOnce {
        text: crossed,
        left: 20,
        has_failed: false,
    };
    let greatest = Limits::greatest();
    expect_end(rt, reader, greatest, by, BROKEN, (20, Ending::Broken))
}

#[test]
fn a_source_ends_whole_too_large_or_broken(rt: HostRuntime) -> Result<(), Fail> {
    let crossed = lines_of(rt.alloc(), CROSSED)?;
    for piece in PIECES.iter() {
        for who in EVERYBODY.iter() {
            expect_ends(&rt, &crossed, (*piece, *who))?;
        }
    }
    Ok(())
}

// Sources with these names and one text, where this label is listed, or none, and the order is asked for or not, and a writer
// that fails at one call once it has taken so many bytes. What is written follows, how the sources ended whose lines it has whole, how many of
// them are serializable, and why the run stopped.
#[derive(Drop)]
struct Row<'a> {
    names: &'a [&'a str],
    text: &'a str,
    label: &'a str,
    order: bool,
    room: usize,
    written: &'a str,
    endings: &'a [(u64, Ending)],
    serializable: u64,
    cause: Option<Cause>,
}

fn expect_row<T: Abort + AllocGlobal + Threads + Wait + Copy + Send + 'static>(
    rt: &T,
    row: &Row,
    (piece, who): (u32, Who),
) -> Result<(), Fail> {
    let text = lines_of(rt.alloc(), row.text)?;
    let mut sources = Vec::new(rt.alloc());
    for name in row.names {
        sources.push(source_of(rt.alloc(), name, text.as_slice())?)?;
    }
    let mut writer = Counting::new(CutsOnce {
        taken: Vec::new(rt.alloc()),
        left: row.room,
        has_failed: false,
        is_flushed: false,
    });
    let plan = plan_by(
        rt.alloc(),
        who,
        Limits::greatest(),
        piece,
        (row.label, row.order),
    )?;
    let outcome = run_planned(*rt, who, &mut sources, &mut writer, &plan)?;
    let written = lines_of(rt.alloc(), row.written)?;
    let output = writer.into_inner();
    assert_eq!(rt; output.taken, written);
    assert!(rt; !output.is_flushed);
    assert_eq!(rt; outcome.endings.as_slice(), row.endings);
    assert_eq!(rt; outcome.counts.serializable, row.serializable);
    assert_eq!(rt; outcome.cause, row.cause);
    // A verdict was asked for on each source at least, whatever the cause.
    assert!(rt; outcome.tally.asked >= row.names.len() as u64);
    Ok(())
}

static WRITTEN: [Row<'static>; 8] = [
    Row {
        names: &["n"],
        text: CROSSED,
        label: "",
        order: false,
        room: 10,
        written: "n: violati",
        endings: &[],
        serializable: 0,
        cause: Some(Cause::Write),
    },
    Row {
        names: &["a", "b"],
        text: "",
        label: "",
        order: false,
        room: 40,
        written: "a: serializable (0 events, 0 blocks)/b: ",
        endings: &[(0, Ending::Whole)],
        serializable: 1,
        cause: Some(Cause::Write),
    },
    Row {
        names: &["a"],
        text: "",
        label: "",
        order: false,
        room: 40,
        written: "a: serializable (0 events, 0 blocks)/tra",
        endings: &[(0, Ending::Whole)],
        serializable: 1,
        cause: Some(Cause::Write),
    },
    Row {
        names: &["n", "n"],
        text: ONE_BLOCK,
        label: "",
        order: false,
        room: 1000,
        written: "n: serializable (5 events, 1 blocks)/n: serializable (5 events, 1 blocks)/traces 2: serializable 2, open 0, violations 0, faults 0/",
        endings: &[(39, Ending::Whole), (39, Ending::Whole)],
        serializable: 2,
        cause: None,
    },
    Row {
        names: &["a", "b"],
        text: WRITTEN_BETWEEN,
        label: "",
        order: true,
        room: 1000,
        written: ORDER_OF_TWO,
        endings: &[(31, Ending::Whole), (31, Ending::Whole)],
        serializable: 2,
        cause: None,
    },
    Row {
        names: &["n"],
        text: OF_ONE_LABEL,
        label: "a",
        order: false,
        room: 1000,
        written: "n: no violation, 1 blocks open (6 events, 1 blocks)/traces 1: serializable 0, open 1, violations 0, faults 0/",
        endings: &[(52, Ending::Whole)],
        serializable: 0,
        cause: None,
    },
    // The line of the verdict is out, and its steps aren't, so the source isn't told.
    Row {
        names: &["n"],
        text: WRITTEN_BETWEEN,
        label: "",
        order: true,
        room: 41,
        written: "n: serializable (4 events, 1 blocks)/  2 ",
        endings: &[],
        serializable: 0,
        cause: Some(Cause::Write),
    },
    Row {
        names: &[],
        text: "",
        label: "",
        order: false,
        room: 1000,
        written: "traces 0: serializable 0, open 0, violations 0, faults 0/",
        endings: &[],
        serializable: 0,
        cause: None,
    },
];

#[test]
fn what_was_written_whole_is_told(rt: HostRuntime) -> Result<(), Fail> {
    for row in WRITTEN.iter() {
        for piece in PIECES.iter() {
            for who in EVERYBODY.iter() {
                expect_row(&rt, row, (*piece, *who))?;
            }
        }
    }
    Ok(())
}

// The sources a, b and c of the report of three, of which these are the texts of a and c.
fn three_sources<'a>(
    (crossed, closed): (&'a [u8], &'a [u8]),
    alloc: Global,
) -> Result<Vec<Source<&'a [u8]>>, AllocError> {
    let mut sources = Vec::new(alloc);
    sources.push(source_of(alloc, "a", crossed)?)?;
    sources.push(source_of(alloc, "b", b"".as_slice())?)?;
    sources.push(source_of(alloc, "c", closed)?)?;
    Ok(sources)
}

// Two sources of this text.
fn two_sources<'a>(text: &'a [u8], alloc: Global) -> Result<Vec<Source<&'a [u8]>>, AllocError> {
    let mut sources = Vec::new(alloc);
    sources.push(source_of(alloc, "n", text)?)?;
    sources.push(source_of(alloc, "n", text)?)?;
    Ok(sources)
}

// Three sources, in pieces of one byte: the report, and what was asked.
fn expect_three<T: Abort + AllocGlobal + Threads + Wait + Copy + Send + 'static>(
    rt: &T,
    who: Who,
) -> Result<(), Fail> {
    let plan = plan_by(rt.alloc(), who, Limits::greatest(), 1, ("", false))?;
    let crossed = lines_of(rt.alloc(), CROSSED)?;
    let closed = lines_of(rt.alloc(), CLOSED_BY_AN_END)?;
    let mut sources = three_sources((&crossed, &closed), rt.alloc())?;
    let (report, outcome) = report_by(rt, who, &mut sources, &plan)?;
    assert_eq!(rt; report, lines_of(rt.alloc(), REPORT_OF_THREE)?);
    assert_eq!(rt; outcome.cause, None);
    let endings = [
        (CROSSED.len() as u64, Ending::Whole),
        (0, Ending::Whole),
        (CLOSED_BY_AN_END.len() as u64, Ending::Whole),
    ];
    assert_eq!(rt; outcome.endings.as_slice(), endings.as_slice());
    // The lines of a text that a byte 10 ends are a block, since 262,144 bytes are gathered for one, and its last line is
    // another. Each source has a verdict.
    assert_eq!(rt; outcome.tally.asked, 7);
    Ok(())
}

#[test]
fn the_report_is_the_same_whoever_helps(rt: HostRuntime) -> Result<(), Fail> {
    let text = lines_of(rt.alloc(), WRITTEN_BETWEEN)?;
    for who in ALL.iter() {
        expect_three(&rt, *who)?;
        assert!(rt; has_order_of_two(&rt, &text, *who)?);
        assert!(rt; are_crossed_told(&rt, *who)?);
    }
    Ok(())
}

// The 1,024th reply in a row that is of no use is the last that is awaited. Who gives one fewer before each answer answers
// both questions, each of which begins anew; who gives as many answers both too late.
#[test]
fn a_question_is_given_up_after_1024_useless_replies(rt: HostRuntime) -> Result<(), Fail> {
    // How many replies in a row are of no use, and how many of two answers are kept and worked out here.
    let rows = [(1_022, 2, 0), (1_023, 2, 0), (1_024, 0, 2), (1_025, 0, 2)];
    for (times, kept, done_here) in rows {
        let who = Who::Helped(Habit::Chatters(times));
        let text = b"T1|r(x)".as_slice();
        let outcome = expect_start(&rt, text, Limits::greatest(), 65_536, who, FITS)?;
        assert_eq!(rt;
            (outcome.tally.kept, outcome.tally.done_here),
            (kept, done_here)
        );
    }
    Ok(())
}

// Two sources with this text whose order is asked for, in pieces of one byte.
fn has_order_of_two<T: AllocGlobal + Threads + Wait + Copy + Send + 'static>(
    rt: &T,
    text: &[u8],
    who: Who,
) -> Result<bool, Fail> {
    let plan = plan_by(rt.alloc(), who, Limits::greatest(), 1, ("", true))?;
    is_told_of_two(rt, (text, ORDER_OF_TWO), who, &plan)
}

// Two sources with the crossed blocks, in pieces of one byte: their cycles where they are asked for, and their objects
// where the report is to be JSON.
fn are_crossed_told<T: AllocGlobal + Threads + Wait + Copy + Send + 'static>(
    rt: &T,
    who: Who,
) -> Result<bool, Fail> {
    let text = lines_of(rt.alloc(), CROSSED)?;
    let explaining = plan_by(rt.alloc(), who, Limits::greatest(), 1, ("", false))?.explaining();
    let plain = plan_by(rt.alloc(), who, Limits::greatest(), 1, ("", false))?;
    let has_cycles = is_told_of_two(rt, (&text, CYCLE_OF_TWO), who, &explaining)?;
    let objects = plain.with_form(Form::Json);
    Ok(has_cycles && is_told_of_two(rt, (&text, OBJECTS_OF_TWO), who, &objects)?)
}

// Whether this is written of two sources with this text.
fn is_told_of_two<T: AllocGlobal + Threads + Wait + Copy + Send + 'static>(
    rt: &T,
    (text, wanted): (&[u8], &str),
    who: Who,
    plan: &Plan,
) -> Result<bool, Fail> {
    let mut sources = Vec::new(rt.alloc());
    sources.push(source_of(rt.alloc(), "a", text)?)?;
    sources.push(source_of(rt.alloc(), "b", text)?)?;
    let (report, outcome) = report_by(rt, who, &mut sources, plan)?;
    Ok(outcome.cause.is_none() && report == lines_of(rt.alloc(), wanted)?)
}
