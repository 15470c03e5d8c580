// What no clause says: texts known from elsewhere, and writers that fail or take nothing.
ghost use Rattle.std.specs.Prelude.{◌≡◌, ◌≤◌, IfOk, Some};

use aero_model::verdict::{Counts, Finding, Verdict};
use aero_model::{Counting, Name};
use aero_report::{Cut, put, summary_text, trace_text};
use std::alloc::Global;
use std::io;
use std::io::Write;
use std::str::Chars;

// A writer that does as its script says, a letter for each call, of `write` and of `flush` alike: a
// digit takes so many bytes at most, `I` fails as interrupted, `B` as broken. Past the script it
// takes all. It notes each call, `w` or `f`.
#[derive(Drop)]
struct Scripted<'a> {
    script: Chars<'a>,
    taken: Vec<u8>,
    calls: String,
}

impl Scripted<'_> {
    // How many of so many bytes the next call takes.
    fn next_call(&mut self, name: char, count: usize) -> io::Result<usize>
        ensures taken { self.new.taken.items ≡ self.old.taken.items }
        ensures few { IfOk result (λ taken. taken ≤ count) }
    {
        self.calls.push(name)?;
        match self.script.next() {
            None => Ok(count),
            Some('I') => Err(io::Error::from(io::ErrorKind::Interrupted)),
            Some('B') => Err(io::Error::from(io::ErrorKind::BrokenPipe)),
            Some(digit) => Ok(count.min(digit.to_digit(10).unwrap_or(0) as usize)),
        }
    }
}

impl Write for Scripted<'_> {
    ghost contents = { λ scripted. Some scripted.taken.items };

    fn write(&mut self, buf: &[u8]) -> io::Result<usize> {
        let count = self.next_call('w', buf.len())?;
        self.taken.extend_from_slice(&buf[..count])?;
        Ok(count)
    }

    fn flush(&mut self) -> io::Result<()> {
        self.next_call('f', 0)?;
        Ok(())
    }
}

// The text, the writer's script, what `put` says, what went out, and the calls.
type Row = (
    &'static str,
    &'static str,
    Result<(), Cut>,
    &'static str,
    &'static str,
);

// Whether the text is put so to a writer with this script.
fn is_put(alloc: Global, row: &Row) -> bool {
    let (text, script, said, taken, calls) = *row;
    let mut writer = Counting::new(Scripted {
        script: script.chars(),
        taken: Vec::new(alloc),
        calls: String::new(alloc),
    });
    let outcome = put(&mut writer, text.as_bytes());
    let writer = writer.into_inner();
    outcome == said && writer.taken.as_slice() == taken.as_bytes() && writer.calls.as_str() == calls
}

// The first row that doesn't hold.
fn first_misput(alloc: Global, rows: &[Row]) -> Option<usize> {
    for i in 0..rows.len() {
        if !is_put(alloc, &rows[i]) {
            return Some(i);
        }
    }
    None
}

// Whether a vector takes the whole text.
fn is_put_to_a_vector(alloc: Global) -> bool {
    let mut vector = Counting::new(Vec::new(alloc));
    put(&mut vector, b"abc").is_ok() && vector.into_inner().as_slice() == b"abc".as_slice()
}

const CUT_AT_0: Result<(), Cut> = Err(Cut { written: 0 });

const CUT_AT_1: Result<(), Cut> = Err(Cut { written: 1 });

const CUT_AT_2: Result<(), Cut> = Err(Cut { written: 2 });

static PUT: [Row; 8] = [
    ("abc", "", Ok(()), "abc", "w"),
    ("abc", "111", Ok(()), "abc", "www"),
    ("abc", "1B1", CUT_AT_1, "a", "ww"),
    ("abc", "1I1", CUT_AT_1, "a", "ww"),
    ("abc", "201", CUT_AT_2, "ab", "ww"),
    ("abc", "011", CUT_AT_0, "", "w"),
    ("abc", "B", CUT_AT_0, "", "w"),
    ("", "BBB", Ok(()), "", ""),
];

#[test]
fn put_stops_where_a_write_first_fails_or_takes_nothing(rt: HostRuntime) {
    assert!(rt; is_put_to_a_vector(rt.alloc()));
    assert_eq!(rt; first_misput(rt.alloc(), &PUT), None);
}

// The helpers below say that a row doesn't hold where memory is refused.

// Whether a source with the name n has this line.
fn has_line(alloc: Global, finding: &Finding, line: &str) -> bool {
    match trace_text(alloc, b"n", finding) {
        Ok(text) => text.as_slice() == line.as_bytes(),
        Err(_) => false,
    }
}

fn is_serializable_so(alloc: Global, events: u32, blocks: u32, line: &str) -> bool {
    let verdict = Verdict::Serializable { events, blocks };
    has_line(alloc, &Finding::Judged(verdict), line)
}

fn are_serializable_so(alloc: Global) -> bool {
    is_serializable_so(alloc, 0, 0, "n: serializable (0 events, 0 blocks)\n")
        && is_serializable_so(alloc, 1, 1, "n: serializable (1 events, 1 blocks)\n")
        && is_serializable_so(
            alloc,
            90000,
            30000,
            "n: serializable (90000 events, 30000 blocks)\n",
        )
}

fn is_pending_so(alloc: Global) -> bool {
    let verdict = Verdict::Pending {
        events: 5,
        blocks: 2,
        pending: 2,
    };
    let line = "n: no violation, 2 blocks open (5 events, 2 blocks)\n";
    has_line(alloc, &Finding::Judged(verdict), line)
}

fn is_violation_so(alloc: Global) -> bool {
    let Ok(thread) = Name::read(alloc, b"T1") else {
        return false;
    };
    let verdict = Verdict::Violation {
        line: 6,
        thread,
        begun: 1,
    };
    let line = "n: violation at line 6: block of T1 from line 1\n";
    has_line(alloc, &Finding::Judged(verdict), line)
}

#[test]
fn each_finding_has_its_line(rt: HostRuntime) {
    let alloc = rt.alloc();
    let are_told = [
        has_line(alloc, &Finding::Broken(20), "n: broken after 20 bytes\n"),
        has_line(alloc, &Finding::TooLarge, "n: too large\n"),
        are_serializable_so(alloc),
        is_pending_so(alloc),
        is_violation_so(alloc),
    ];
    assert_eq!(rt; are_told, [true; 5]);
}

// Four counts, and the line on them.
type Counted = ([u64; 4], &'static str);

fn is_summed_so(alloc: Global, row: &Counted) -> bool {
    let ([serializable, pending, violations, faults], line) = *row;
    let counts = Counts {
        serializable,
        pending,
        violations,
        faults,
    };
    match summary_text(alloc, &counts) {
        Ok(text) => text.as_slice() == line.as_bytes(),
        Err(_) => false,
    }
}

// The first row that doesn't hold.
fn first_missummed(alloc: Global, rows: &[Counted]) -> Option<usize> {
    for i in 0..rows.len() {
        if !is_summed_so(alloc, &rows[i]) {
            return Some(i);
        }
    }
    None
}

static SUMMARIES: [Counted; 4] = [
    (
        [0, 0, 0, 0],
        "traces 0: serializable 0, open 0, violations 0, faults 0\n",
    ),
    (
        [1, 0, 2, 0],
        "traces 3: serializable 1, open 0, violations 2, faults 0\n",
    ),
    (
        [0, 0, 0, 1],
        "traces 1: serializable 0, open 0, violations 0, faults 1\n",
    ),
    (
        [1, u64::MAX, 0, 0],
        "traces 18446744073709551616: serializable 1, open 18446744073709551615, violations 0, faults 0\n",
    ),
];

#[test]
fn the_summary_counts_what_was_found(rt: HostRuntime) {
    assert_eq!(rt; first_missummed(rt.alloc(), &SUMMARIES), None);
}
