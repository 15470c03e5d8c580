// How sources come and end, step by step, and which plans there are.
use crate::except::listed;
use aero_intake::intake::Taken;
use aero_intake::{Intake, Plan};
use aero_model::{Counting, Ending, Limits};
use std::alloc::{AllocError, Global};
use std::io;
use std::io::Read;
use std::test::Fail;

// A reader that fails at one call, once it has given so many bytes, and works again afterwards.
#[derive(Drop)]
struct BreaksOnce<'a> {
    text: &'a [u8],
    left: usize,
    has_failed: bool,
}

impl Read for BreaksOnce<'_> {
    fn read(&mut self, buf: &mut [u8]) -> io::Result<usize> {
        if self.left == 0 && !self.has_failed {
            self.has_failed = true;
            return Err(io::Error::from(io::ErrorKind::Interrupted));
        }
        let count = self.text.read(buf)?;
        self.left = self.left.saturating_sub(count);
        Ok(count)
    }
}

// The bytes of a text that is written with `/` for each byte 10.
fn lines_of(alloc: Global, text: &str) -> Result<Vec<u8>, AllocError> {
    let mut bytes = text.as_bytes().to_vec(alloc)?;
    for byte in bytes.iter_mut() {
        if *byte == b'/' {
            *byte = b'\n';
        }
    }
    Ok(bytes)
}

// What is asked of a source: a piece of it, or to cut what is held, or to pass it over.
#[derive(Clone, Copy)]
enum Call {
    Next,
    Cut,
    PassOver,
}

use Call::{Cut, Next, PassOver};

// What a call gives: `+` for a piece, the ending, a block, or `-` for none. `~` stands for what was passed over.
fn given<R: Read>(
    intake: &mut Intake,
    reader: &mut Counting<R>,
    (piece, limit): (u32, u64),
    call: Call,
    alloc: Global,
) -> Result<Vec<u8>, Fail> {
    let text = match call {
        Call::Next => name_of(&take(intake, reader, piece, limit)?)
            .as_bytes()
            .to_vec(alloc)?,
        Call::Cut => match intake.cut()? {
            Some(block) => block.into_bytes(),
            None => b"-".to_vec(alloc)?,
        },
        Call::PassOver => passed_over(intake).to_vec(alloc)?,
    };
    Ok(text)
}

// `~` where nothing is held once that was passed over, and it is known that it was.
fn passed_over(intake: &mut Intake) -> &'static [u8] {
    let had_passed = intake.has_passed();
    intake.pass_over();
    if !had_passed && intake.has_passed() && intake.is_cut() {
        b"~"
    } else {
        b"?"
    }
}

fn name_of(taken: &Taken) -> &'static str {
    match taken {
        Taken::Piece => "+",
        Taken::Ended(Ending::Whole) => "whole",
        Taken::Ended(Ending::Broken) => "broken",
        Taken::Ended(Ending::TooLarge) => "too large",
        Taken::Ended(Ending::Stopped) => "stopped",
    }
}

fn take<R: Read>(
    intake: &mut Intake,
    reader: &mut Counting<R>,
    piece: u32,
    limit: u64,
) -> Result<Taken, Fail> {
    if piece == 0 || limit > 1_000_000 || intake.count() > limit + 1 || intake.is_full() {
        return Err("no such step".into());
    }
    Ok(intake.take(reader, piece, limit))
}

fn new_intake(alloc: Global, piece: u32) -> Result<Intake, Fail> {
    if piece > 1_048_576 {
        return Err("no such piece".into());
    }
    Ok(Intake::new(alloc, piece)?)
}

// A source, read under a limit by so many bytes at most a read, by a reader that fails after so many bytes.
// Each call has what it gives, and how many bytes have come then. What is left of the text follows, and
// the last line, which no byte 10 ended.
#[derive(Drop)]
struct Row<'a> {
    text: &'a str,
    piece: u32,
    limit: u64,
    fails_after: usize,
    calls: &'a [(Call, &'a str, u64)],
    left: &'a str,
    last: &'a str,
}

// What is wrong with the source's calls or its end, if anything is.
fn fault_of(alloc: Global, row: &Row) -> Result<Option<&'static str>, Fail> {
    let text = lines_of(alloc, row.text)?;
    fault_in(alloc, &text, row)
}

// The same of its bytes.
fn fault_in(alloc: Global, text: &[u8], row: &Row) -> Result<Option<&'static str>, Fail> {
    let mut intake = new_intake(alloc, row.piece)?;
    fault_at(alloc, &mut intake, text, row)
}

// The same by an intake of which nothing was asked.
fn fault_at(
    alloc: Global,
    intake: &mut Intake,
    text: &[u8],
    row: &Row,
) -> Result<Option<&'static str>, Fail> {
    let mut reader = Counting::new(BreaksOnce {
        text,
        left: row.fails_after,
        has_failed: false,
    });
    if intake.count() != 0 {
        return Ok(Some("bytes before the first call"));
    }
    for call in row.calls {
        if !is_given(alloc, intake, &mut reader, row, *call)? {
            return Ok(Some("a call gives something else"));
        }
    }
    if reader.into_inner().text != row.left.as_bytes() {
        return Ok(Some("other bytes are left"));
    }
    if !has_last(intake, row.last)? {
        return Ok(Some("another last line"));
    }
    // Then another source may be read.
    if intake.count() != 0 || intake.has_passed() || !intake.is_cut() {
        return Ok(Some("it isn't new"));
    }
    Ok(None)
}

// Whether the call gives what it should, and as many bytes have come then.
fn is_given<R: Read>(
    alloc: Global,
    intake: &mut Intake,
    reader: &mut Counting<R>,
    row: &Row,
    (call, wanted, count): (Call, &str, u64),
) -> Result<bool, Fail> {
    let text = given(intake, reader, (row.piece, row.limit), call, alloc)?;
    Ok(is_text(&text, wanted) && intake.count() == count)
}

// Whether these are the bytes of a text that is written with `/` for each byte 10.
fn is_text(bytes: &[u8], text: &str) -> bool {
    let mut is_same = bytes.len() == text.len();
    for (byte, wanted) in bytes.iter().zip(text.as_bytes()) {
        is_same &= *byte == if *wanted == b'/' { b'\n' } else { *wanted };
    }
    is_same
}

// Whether the source has this last line, which no byte 10 ended.
fn has_last(intake: &mut Intake, wanted: &str) -> Result<bool, Fail> {
    match intake.finish()? {
        Some(last) => Ok(last.bytes() == wanted.as_bytes()),
        None => Ok(false),
    }
}

#[test]
fn a_source_comes_in_pieces_until_it_ends(rt: HostRuntime) -> Result<(), Fail> {
    let rows = [
        Row {
            text: "ab/c/d",
            piece: 2,
            limit: 100,
            fails_after: 100,
            calls: &[
                (Next, "+", 2),
                (Next, "+", 4),
                (Cut, "ab/", 4),
                (Next, "+", 6),
                (Cut, "c/", 6),
                (Cut, "-", 6),
                (Next, "whole", 6),
            ],
            left: "",
            last: "d",
        },
        Row {
            text: "a/bcd",
            piece: 7,
            limit: 2,
            fails_after: 100,
            calls: &[(Next, "+", 3), (Next, "too large", 3), (Cut, "a/", 3)],
            left: "cd",
            last: "b",
        },
        // What is passed over is in no block.
        Row {
            text: "ab/c/d",
            piece: 3,
            limit: 100,
            fails_after: 100,
            calls: &[
                (Next, "+", 3),
                (PassOver, "~", 3),
                (Next, "+", 6),
                (Cut, "c/", 6),
                (Next, "whole", 6),
            ],
            left: "",
            last: "d",
        },
        Row {
            text: "abc",
            piece: 7,
            limit: 100,
            fails_after: 3,
            calls: &[
                (Next, "+", 3),
                (Next, "broken", 3),
                (Cut, "-", 3),
                (Next, "whole", 3),
            ],
            left: "",
            last: "abc",
        },
    ];
    for row in &rows {
        let fault = fault_of(rt.alloc(), row)?;
        assert!(rt; fault == None, "{}: {fault:?}", row.text);
    }
    Ok(())
}

// How many reads there were until a source was full, of so many bytes a read, how many bytes had come then, and how
// many the lines have that were whole.
fn filled(alloc: Global, text: &[u8], piece: u32) -> Result<(u32, u64, usize), Fail> {
    let mut intake = new_intake(alloc, piece)?;
    fill(&mut intake, text, piece)
}

fn fill(intake: &mut Intake, text: &[u8], piece: u32) -> Result<(u32, u64, usize), Fail> {
    let mut reader = Counting::new(text);
    for reads in 0..1_000u32 {
        if intake.is_full() {
            let bytes = bytes_cut(intake)?;
            return Ok((reads, intake.count(), bytes));
        }
        let Taken::Piece = take(intake, &mut reader, piece, 1_000_000)? else {
            return Err("the source has ended".into());
        };
    }
    Err("too many reads".into())
}

// How many bytes the block has that is cut.
fn bytes_cut(intake: &mut Intake) -> Result<usize, Fail> {
    match intake.cut()? {
        Some(block) => Ok(block.bytes().len()),
        None => Err("no line".into()),
    }
}

// A read asks for no more than what is lacking, unless a whole read has room for more.
#[test]
fn a_block_is_gathered_by_several_reads(rt: HostRuntime) -> Result<(), Fail> {
    let mut text = Vec::new(rt.alloc());
    for _ in 0..30_000 {
        text.extend_from_slice(b"123456789\n")?;
    }
    // Of 262,144 bytes the last 4 are of a line that isn't whole.
    let rows = [
        (1_000, 263, 262_144, 262_140),
        (65_536, 4, 262_144, 262_140),
        (262_143, 2, 262_144, 262_140),
        (262_144, 1, 262_144, 262_140),
        (262_145, 1, 262_145, 262_140),
        (1_048_576, 1, 300_000, 300_000),
    ];
    for (piece, reads, count, block) in rows {
        assert!(rt; filled(rt.alloc(), &text, piece)? == (reads, count, block));
    }
    Ok(())
}

#[test]
fn a_plan_is_within_its_bounds(rt: HostRuntime) -> Result<(), Fail> {
    let rows = [
        (16, 1_048_576, false, true),
        (1, 1, false, true),
        (16, 1_048_576, true, true),
        (0, 1, false, false),
        (17, 1, true, false),
        (1, 0, false, false),
        (1, 1_048_577, true, false),
    ];
    for (workers, piece, order, is_plan) in rows {
        let labels = listed(rt.alloc(), "a").ok_or("labels")?;
        let plan = Plan::new(workers, piece, Limits::greatest(), labels, order);
        assert!(rt; plan.is_some() == is_plan, "{workers} {piece}");
    }
    Ok(())
}
