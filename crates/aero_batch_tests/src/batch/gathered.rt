// Long sources, of which 262,144 bytes are gathered for a block: what is asked about them, and what is written.
use crate::batch::habits::Habit;
use crate::batch::runs::Who;
use crate::batch::streams::BreaksOnce;
use crate::batch::{LARGE, expect_start, limits_of};
use aero_model::limits::Limits;
use std::alloc::{AllocError, Global};
use std::process::Abort;
use std::sync::Wait;
use std::test::Fail;
use std::thread::Threads;

// A line of so many bytes, its byte 10 counted, that begins so.
fn long_line(alloc: Global, start: &[u8], bytes: usize) -> Result<Vec<u8>, AllocError> {
    let mut line = start.to_vec(alloc)?;
    line.resize(bytes.saturating_sub(1), b'a')?;
    line.push(b'\n')?;
    Ok(line)
}

// A text of so many lines of as many bytes. That of this number, if there is one, is malformed.
fn long_text(
    alloc: Global,
    (lines, bytes): (usize, usize),
    number: usize,
) -> Result<Vec<u8>, AllocError> {
    let line = long_line(alloc, b"T1|w(x)|", bytes)?;
    let malformed = long_line(alloc, b"T1|w(x|", bytes)?;
    let mut text = Vec::new(alloc);
    for i in 0..lines {
        text.extend_from_slice(if i + 1 == number { &malformed } else { &line })?;
    }
    Ok(text)
}

// Whether a run over a text, whose reader fails once after so many bytes, asks so many questions, and writes what begins so.
fn asks<T: Abort + AllocGlobal + Threads + Wait + Copy + Send + 'static>(
    rt: &T,
    (text, left): (&[u8], usize),
    limits: Limits,
    who: Who,
    (start, asked): (&str, u64),
) -> Result<bool, Fail> {
    let reader = BreaksOnce {
        text,
        left,
        has_failed: false,
    };
    let outcome = expect_start(rt, reader, limits, 65_536, who, start)?;
    Ok(outcome.tally.asked == asked)
}

const NEVER: usize = 1_000_000_000;

// Once what is settled decides, no further block is asked about. All the same the source is read on, to its
// end, to a failure, or to one byte more than may be. A text has 320 lines, and each 64 of them are the 262,144 bytes that
// are cut at once, so five blocks. Who is asked answers at once. Each row has how many questions there are.
#[test]
fn no_block_is_asked_about_after_a_fault(rt: HostRuntime) -> Result<(), Fail> {
    let faulty = long_text(rt.alloc(), (320, 4_096), 1)?;
    let sound = long_text(rt.alloc(), (320, 4_096), 0)?;
    let greatest = Limits::greatest();
    // Three blocks have more.
    let few_lines = limits_of(10_000_000, 130, 1, 1)?;
    let narrow = limits_of(1_000_000, 1_000, 1, 1)?;
    let rows = [
        (
            true,
            NEVER,
            greatest,
            "n:1: malformed: BadParenthesis/traces 1: ",
            2,
        ),
        (
            false,
            NEVER,
            few_lines,
            "n:131: malformed: TooManyLines/traces 1: ",
            4,
        ),
        (
            false,
            NEVER,
            greatest,
            "n: serializable (320 events, 0 blocks)/traces 1: ",
            6,
        ),
        (true, NEVER, narrow, LARGE, 1),
        (
            true,
            1_000_000,
            greatest,
            "n: broken after 1000000 bytes/traces 1: ",
            1,
        ),
    ];
    for (is_faulty, left, limits, start, asked) in rows {
        let text = if is_faulty { &faulty } else { &sound };
        for who in [Who::Alone, Who::Helped(Habit::Twice)] {
            assert!(rt; asks(&rt, (text, left), limits, who, (start, asked))?);
        }
    }
    Ok(())
}
