use crate::model::{except_of, terms_of};
use aero_end::EndingClocks;
use aero_grammar::{Parsed, parse_block};
use aero_judge::Judge;
use aero_model::{Except, Limits, Verdict};
use aero_verdict::{check_trace, check_trace_by};
use std::alloc::Global;

// The helpers below say that a row doesn't hold where memory is refused.

// What the text says as a block, or `None` where memory is refused.
pub(crate) fn parsed(alloc: Global, text: &[u8]) -> Option<Parsed> {
    if text.len() > 1 << 30 {
        return None;
    }
    parse_block(alloc, text).ok()
}

fn push_part(alloc: Global, parts: &mut Vec<Parsed>, text: &[u8]) -> bool {
    match parsed(alloc, text) {
        Some(part) => parts.push(part).is_ok(),
        None => false,
    }
}

// Takes a byte of a row's text: a `/` stands for the end of a line, and a `+` ends a part.
fn take_byte(alloc: Global, parts: &mut Vec<Parsed>, text: &mut Vec<u8>, byte: u8) -> bool {
    if byte == b'+' {
        let is_pushed = push_part(alloc, parts, text);
        text.clear();
        return is_pushed;
    }
    text.push(if byte == b'/' { b'\n' } else { byte }).is_ok()
}

// The parts of a row's text.
pub(crate) fn parts_of(alloc: Global, row: &str) -> Option<Vec<Parsed>> {
    let mut parts = Vec::new(alloc);
    let mut text = Vec::new(alloc);
    let mut fits = true;
    for byte in row.as_bytes() {
        fits &= take_byte(alloc, &mut parts, &mut text, *byte);
    }
    fits.then_some(parts)
}

// A verdict in words: its variant, and its numbers and names in the order of their fields.
pub(crate) fn words_of(alloc: Global, verdict: &Verdict) -> Option<String> {
    match verdict {
        Verdict::Serializable { events, blocks } => {
            format!(in alloc; "serializable {events} {blocks}").ok()
        }
        Verdict::Pending {
            events,
            blocks,
            pending,
        } => format!(in alloc; "pending {events} {blocks} {pending}").ok(),
        Verdict::Violation {
            line,
            thread,
            begun,
        } => {
            let thread = str::from_utf8(thread.bytes()).ok()?;
            format!(in alloc; "violation {line} {thread} {begun}").ok()
        }
        Verdict::Malformed { line, fault } => format!(in alloc; "malformed {line} {fault:?}").ok(),
        Verdict::IllFormed { line, fault } => format!(in alloc; "ill-formed {line} {fault:?}").ok(),
    }
}

// Puts the word behind the words so far, and says whether there is one and that went.
pub(crate) fn push_word(words: &mut String, word: Option<String>) -> bool {
    match word {
        Some(word) => words.push_str(&word).is_ok(),
        None => false,
    }
}

// Whether there is a verdict, and it has these words.
pub(crate) fn says(alloc: Global, verdict: Option<Verdict>, wanted: &str) -> bool {
    match verdict {
        Some(verdict) => is(words_of(alloc, &verdict), wanted),
        None => false,
    }
}

// Whether these are the wanted words.
pub(crate) fn is(words: Option<String>, wanted: &str) -> bool {
    match words {
        Some(words) => words.as_str() == wanted,
        None => false,
    }
}

// Labels, a trace, and its verdict where blocks with these labels are no transactions.
type Labelled = (&'static str, &'static str, &'static str);

// Whether the trace has the verdict under the limits, and has it by clocks too.
fn has_verdict(
    alloc: Global,
    parts: &[Parsed],
    limits: &Limits,
    except: &Except,
    wanted: &str,
) -> bool {
    says(
        alloc,
        check_trace(alloc, parts, limits, except).ok(),
        wanted,
    ) && says(
        alloc,
        check_trace_by::<EndingClocks>(alloc, parts, limits, except).ok(),
        wanted,
    )
}

// Whether a judge that was asked for this besides has the verdict.
fn has_verdict_beside(
    alloc: Global,
    parts: &[Parsed],
    limits: &Limits,
    row: (&str, &str),
    asked: (bool, bool),
) -> Option<bool> {
    let (labels, wanted) = row;
    let terms = terms_of(alloc, limits, labels, asked)?;
    let mut judge = Judge::new(alloc, &terms).ok()?;
    judge.feed_all(parts, terms.except());
    Some(says(alloc, judge.verdict().ok(), wanted))
}

// Whether a judge has the verdict, whatever else it was asked for.
fn has_verdict_always(
    alloc: Global,
    parts: &[Parsed],
    limits: &Limits,
    row: (&str, &str),
) -> Option<bool> {
    let mut has_it = true;
    for asked in [(false, false), (true, false), (false, true), (true, true)] {
        has_it &= has_verdict_beside(alloc, parts, limits, row, asked)?;
    }
    Some(has_it)
}

fn is_judged(alloc: Global, limits: &Limits, row: (&str, &str, &str)) -> Option<bool> {
    let (labels, text, wanted) = row;
    let parts = parts_of(alloc, text)?;
    let except = except_of(alloc, labels)?;
    let has_it = has_verdict(alloc, &parts, limits, &except, wanted);
    Some(has_it && has_verdict_always(alloc, &parts, limits, (labels, wanted))?)
}

// The first row that doesn't hold.
fn first_misjudged_by_labels(alloc: Global, rows: &[Labelled]) -> Option<usize> {
    rows.iter().position(|row| is_judged(alloc, &Limits::greatest(), *row) != Some(true))
}

// A trace, and its verdict.
type Row = (&'static str, &'static str);

// The first row that doesn't hold.
fn first_misjudged(alloc: Global, rows: &[Row]) -> Option<usize> {
    rows.iter().position(|row| is_judged(alloc, &Limits::greatest(), ("", row.0, row.1))
        != Some(true))
}

// Limits on lines, threads, and variables and locks, a trace, and its verdict.
type Limited = ((u32, u32, u32), &'static str, &'static str);

fn is_judged_under(alloc: Global, row: &Limited) -> Option<bool> {
    let ((lines, threads, names), text, wanted) = *row;
    let limits = Limits::new(1000, lines, threads, names)?;
    is_judged(alloc, &limits, ("", text, wanted))
}

// The first row that doesn't hold.
fn first_misjudged_under(alloc: Global, rows: &[Limited]) -> Option<usize> {
    rows.iter()
        .position(|row| is_judged_under(alloc, row) != Some(true))
}

// Events and outermost begins are counted, and so are open blocks.
static WITHOUT_A_VIOLATION: [Row; 14] = [
    ("", "serializable 0 0"),
    (
        "T1|begin/T1|w(x)/T1|r(x)/T1|w(x)/T1|end/+",
        "serializable 5 1",
    ),
    (
        "T1|begin/T1|begin/T1|end/T1|begin/T1|end/T1|end/T1|begin/T1|end/+",
        "serializable 8 2",
    ),
    (
        "T1|begin/T1|begin/T1|acq(l)/T1|acq(l)/T1|rel(l)/T1|rel(l)/T1|end/T1|end/+",
        "serializable 8 1",
    ),
    (
        "T1|fork(T2)/T2|w(x)/T1|join(T2)/T1|w(x)/+",
        "serializable 4 0",
    ),
    ("T1|join(T9)/T1|join(T9)/+", "serializable 2 0"),
    (
        "T1|begin/T1|w(x)/T1|r(x)/T1|w(x)/T1|end//++T1|begin/T1|w(x)/T1|r(x)/T1|w(x)/T1|end/+",
        "serializable 10 2",
    ),
    (
        "T1|begin/T1|fork(T2)/T1|join(T2)/T1|end/+",
        "serializable 4 1",
    ),
    (
        "T1|begin/T2|begin/T1|w(x)/T2|w(y)/T1|r(y)/+",
        "pending 5 2 2",
    ),
    (
        "T1|begin/T2|begin/T2|w(y)/T1|w(x)/T2|r(x)/T1|r(y)/+",
        "pending 6 2 2",
    ),
    (
        "T3|begin/T2|begin/T2|w(y)/T1|r(y)/T1|w(v)/T3|w(x)/T2|r(x)/T2|end/+",
        "pending 8 2 1",
    ),
    (
        "T3|begin/T2|begin/T2|w(y)/T1|r(y)/T1|w(v)/T3|w(x)/T2|r(x)/+",
        "pending 7 2 2",
    ),
    ("T1|begin/+T1|begin/T1|end/+", "pending 3 1 1"),
    (
        "T1|begin/T1|w(x)/T1|r(x)/T1|w(x)/T1|end/+T1|begin/+",
        "pending 6 2 1",
    ),
];

#[test]
fn serializable_and_pending_traces(rt: HostRuntime) {
    assert_eq!(rt; first_misjudged(rt.alloc(), &WITHOUT_A_VIOLATION), None);
}

// A violation is told by its line, with the thread and the begin of the block in which its cycle begins.
static VIOLATIONS: [Row; 12] = [
    (
        "T1|begin/T2|begin/T1|w(x)/T2|r(x)/T2|w(y)/T1|r(y)/+",
        "violation 6 T1 1",
    ),
    (
        "T1|begin/+T2|begin/+T1|w(x)/+T2|r(x)/+T2|w(y)/+T1|r(y)/+",
        "violation 6 T1 1",
    ),
    (
        "T1|begin/T2|begin/T2|w(y)/T1|w(x)/T2|r(x)/T1|r(y)/T1|end/+",
        "violation 7 T2 2",
    ),
    (
        "T1|begin/T2|begin/T3|begin/T2|w(a)/T3|w(b)/T1|w(x)/T2|r(x)/T3|r(x)/T1|r(a)/T1|r(b)/T1|end/+",
        "violation 11 T2 2",
    ),
    (
        "T3|begin/T2|begin/T2|w(y)/T1|r(y)/T1|w(v)/T3|w(x)/T2|r(x)/T2|end/T3|r(v)/+",
        "violation 9 T3 1",
    ),
    (
        "T1|begin/T1|acq(l)/T1|rel(l)/T2|acq(l)/T2|rel(l)/T1|acq(l)/+",
        "violation 6 T1 1",
    ),
    (
        "T1|begin/T1|w(y)/T2|r(y)/T2|r(x)/T1|w(x)/+",
        "violation 5 T1 1",
    ),
    (
        "T1|begin/T1|fork(T2)/T2|w(x)/T1|join(T2)/T1|end/+",
        "violation 4 T1 1",
    ),
    (
        "T1|begin/T2|begin/T1|w(x)/T2|r(x)/T2|w(y)/T1|r(y)/T+",
        "violation 6 T1 1",
    ),
    (
        "T1|begin/T2|begin/T1|w(x)/T2|r(x)/T2|w(y)/T1|r(y)/+T1|end/T1|end/+",
        "violation 6 T1 1",
    ),
    (
        "T1|begin/T1|w(x)/T1|r(x)/T1|w(x)/T1|end/+/+T1|begin/T2|begin/T1|w(x)/T2|r(x)/T2|w(y)/T1|r(y)/+",
        "violation 12 T1 7",
    ),
    (
        "T1|begin/T2|begin/T1|w(x)/T2|r(x)//+T2|w(y)/T1|r(y)/+",
        "violation 7 T1 1",
    ),
];

#[test]
fn violations_where_a_cycle_closes(rt: HostRuntime) {
    assert_eq!(rt; first_misjudged(rt.alloc(), &VIOLATIONS), None);
}

static FAULTS: [Row; 19] = [
    (
        "T1|begin/T2|begin/T1|w(x)/T2|r(x)/T2|w(y)/T+T1|r(y)/+",
        "malformed 6 NoOperation",
    ),
    ("T+", "malformed 1 NoOperation"),
    ("T1|begin/T1|r(x)/T+", "malformed 3 NoOperation"),
    ("T1|r(x)//+T+", "malformed 3 NoOperation"),
    ("T1|r(x)/+T1|r(x)/T+T1|end/+", "malformed 3 NoOperation"),
    (
        "T1|rel(l)/+T1|begin/T2|begin/T1|w(x)/T2|r(x)/T2|w(y)/T1|r(y)/+",
        "ill-formed 1 LockNotHeld",
    ),
    ("T1|rel(l)/+", "ill-formed 1 LockNotHeld"),
    ("T1|acq(l)/T2|acq(l)/+", "ill-formed 2 LockHeldByOther"),
    ("T1|acq(l)/T2|rel(l)/+", "ill-formed 2 LockNotHeld"),
    (
        "T1|join(T9)/T1|join(T9)/T9|w(x)/+",
        "ill-formed 3 ThreadJoined",
    ),
    (
        "T1|join(T9)/T1|join(T9)/T1|fork(T9)/+",
        "ill-formed 3 ForkStarted",
    ),
    ("T1|r(x)/T1|fork(T1)/+", "ill-formed 2 ForkSelf"),
    ("T1|join(T1)/+", "ill-formed 1 JoinSelf"),
    ("T1|begin/T1|end/T1|end/+", "ill-formed 3 EndWithoutBegin"),
    ("T1|begin/T2|end/+", "ill-formed 2 EndWithoutBegin"),
    ("T1|r(x)//+T1|r(x)/T1|end/+", "ill-formed 4 EndWithoutBegin"),
    (
        "T1|acq(l)//+T2|acq(l)/T1|end/+",
        "ill-formed 3 LockHeldByOther",
    ),
    ("T1|end/T+", "ill-formed 1 EndWithoutBegin"),
    ("T1|end/+T+", "ill-formed 1 EndWithoutBegin"),
];

#[test]
fn the_first_fault_by_line_with_its_cause(rt: HostRuntime) {
    assert_eq!(rt; first_misjudged(rt.alloc(), &FAULTS), None);
}

// A line past the limit doesn't count, and the one after the limit may have a fault of its own.
static LIMITS_ON_LINES: [Limited; 18] = [
    (
        (5, 10, 10),
        "T1|begin/T2|begin/T1|w(x)/T2|r(x)/T2|w(y)/T1|r(y)/+",
        "malformed 6 TooManyLines",
    ),
    (
        (1, 1, 1),
        "T1|end/T1|r(x)/T1|r(x)/+",
        "ill-formed 1 EndWithoutBegin",
    ),
    (
        (2, 10, 10),
        "T1|r(x)/T1|r(x)//+",
        "malformed 3 TooManyLines",
    ),
    (
        (2, 10, 10),
        "T1|r(x)/T1|r(x)/T1|end/+",
        "malformed 3 TooManyLines",
    ),
    ((2, 10, 10), "T1|r(x)/T1|r(x)/T+", "malformed 3 NoOperation"),
    (
        (2, 10, 10),
        "T1|r(x)/T1|r(x)/T1|end/T+",
        "malformed 3 TooManyLines",
    ),
    (
        (2, 10, 10),
        "T1|r(x)/+T1|r(x)//+",
        "malformed 3 TooManyLines",
    ),
    (
        (2, 10, 10),
        "T1|r(x)/T1|r(x)/+/+",
        "malformed 3 TooManyLines",
    ),
    (
        (2, 10, 10),
        "T1|r(x)/T1|r(x)/+T+",
        "malformed 3 NoOperation",
    ),
    (
        (2, 10, 10),
        "T1|r(x)/++T1|r(x)/T+",
        "malformed 3 NoOperation",
    ),
    (
        (2, 10, 10),
        "T1|r(x)/+T1|r(x)/T1|end/+T+",
        "malformed 3 TooManyLines",
    ),
    (
        (2, 10, 10),
        "T1|r(x)/T1|r(x)/+T1|end/+T1|end/+",
        "malformed 3 TooManyLines",
    ),
    (
        (2, 10, 10),
        "T1|r(x)//+T+T1|end/T1|end/+",
        "malformed 3 NoOperation",
    ),
    ((2, 10, 10), "T1|r(x)/T1|r(x)/+", "serializable 2 0"),
    ((2, 10, 10), "T1|r(x)//++", "serializable 1 0"),
    ((2, 10, 10), "T1|r(x)/++T1|r(x)/+", "serializable 2 0"),
    ((2, 10, 10), "/+/+", "serializable 0 0"),
    (
        (2, 10, 10),
        "T1|r(x)/+T1|end/T1|r(x)/+",
        "ill-formed 2 EndWithoutBegin",
    ),
];

#[test]
fn limits_on_lines(rt: HostRuntime) {
    assert_eq!(rt; first_misjudged_under(rt.alloc(), &LIMITS_ON_LINES), None);
}

// The limits are looked at first, and the actor before the target.
static LIMITS_ON_THREADS_AND_NAMES: [Limited; 12] = [
    (
        (100, 2, 100),
        "T1|w(x)/T2|w(x)/T3|w(x)/+",
        "ill-formed 3 TooManyThreads",
    ),
    (
        (100, 2, 100),
        "T1|w(x)/T2|w(x)/+/+T1|r(x)/T3|w(x)/+",
        "ill-formed 5 TooManyThreads",
    ),
    (
        (100, 2, 100),
        "T1|w(x)/T1|fork(T2)/T2|fork(T3)/+",
        "ill-formed 3 TooManyThreads",
    ),
    (
        (100, 2, 100),
        "T2|w(x)/T1|join(T9)/T1|end/+",
        "ill-formed 2 TooManyThreads",
    ),
    (
        (100, 100, 1),
        "T1|w(x)/T1|acq(x)/T1|w(y)/+",
        "ill-formed 3 TooManyNames",
    ),
    (
        (100, 100, 1),
        "T1|acq(l)/T1|w(x)/T1|r(x)/T1|acq(x)/+",
        "ill-formed 4 TooManyNames",
    ),
    (
        (100, 100, 1),
        "T1|w(x)/+T1|acq(l)/T1|rel(l)/T1|r(l)/+",
        "ill-formed 4 TooManyNames",
    ),
    (
        (100, 100, 1),
        "T1|join(x)/T1|w(x)/T1|w(y)/+",
        "ill-formed 3 TooManyNames",
    ),
    (
        (100, 1, 1),
        "T1|w(x)/T2|w(y)/+",
        "ill-formed 2 TooManyThreads",
    ),
    (
        (100, 1, 1),
        "T1|w(x)/T2|end/+",
        "ill-formed 2 TooManyThreads",
    ),
    (
        (100, 1, 1),
        "T1|acq(l)/T1|rel(m)/+",
        "ill-formed 2 TooManyNames",
    ),
    (
        (100, 1, 1),
        "T1|acq(l)/T2|acq(l)/+",
        "ill-formed 2 TooManyThreads",
    ),
];

#[test]
fn limits_on_threads_and_names(rt: HostRuntime) {
    assert_eq!(rt;
        first_misjudged_under(rt.alloc(), &LIMITS_ON_THREADS_AND_NAMES),
        None
    );
}

static OPEN_AND_CLOSE_NO_BLOCK: [Labelled; 20] = [
    (
        "a",
        "T1|begin(a)/T2|begin/T1|w(x)/T2|r(x)/T2|w(y)/T1|r(y)/+",
        "pending 6 1 1",
    ),
    (
        "",
        "T1|begin(a)/T2|begin/T1|w(x)/T2|r(x)/T2|w(y)/T1|r(y)/+",
        "violation 6 T1 1",
    ),
    (
        "a",
        "T1|begin(a)/T1|begin(b)/T1|w(x)/T2|r(x)/T2|w(y)/T1|r(y)/T1|end/T1|end/+",
        "violation 6 T1 2",
    ),
    (
        "b",
        "T1|begin(a)/T1|begin(b)/T1|w(x)/T2|r(x)/T2|w(y)/T1|r(y)/T1|end/T1|end/+",
        "violation 6 T1 1",
    ),
    (
        "a b",
        "T1|begin(a)/T1|begin(b)/T1|w(x)/T2|r(x)/T2|w(y)/T1|r(y)/T1|end/T1|end/+",
        "serializable 8 0",
    ),
    (
        "a",
        "T1|begin/T1|begin(a)/T1|end/T1|w(x)/T2|w(x)/T1|r(x)/+",
        "violation 6 T1 1",
    ),
    (
        "a",
        "T1|begin(a)/T1|begin(b)/T1|w(x)/T1|end/T2|w(x)/T1|r(x)/T1|end/+",
        "serializable 7 1",
    ),
    (
        "b",
        "T1|begin(a)/T1|begin(b)/T1|w(x)/T1|end/T2|w(x)/T1|r(x)/T1|end/+",
        "violation 6 T1 1",
    ),
    (
        "a",
        "T1|begin/T2|begin(a)/T1|w(x)/T2|end/T2|w(x)/T1|r(x)/+",
        "violation 6 T1 1",
    ),
    ("a", "T1|begin(a)/T1|w(x)/+", "serializable 2 0"),
    // They are events of their thread.
    (
        "a",
        "T1|begin/T1|fork(T2)/T2|begin(a)/T1|join(T2)/+",
        "violation 4 T1 1",
    ),
    ("a", "T2|begin(a)/T1|fork(T2)/+", "ill-formed 2 ForkStarted"),
    (
        "a",
        "T1|begin(a)/T1|end/T1|end/+",
        "ill-formed 3 EndWithoutBegin",
    ),
    ("a", "T1|begin(a)/T2|end/+", "ill-formed 2 EndWithoutBegin"),
    // All but the blocks with the label open and close none.
    (
        "only: b",
        "T1|begin(a)/T1|begin(b)/T1|w(x)/T2|r(x)/T2|w(y)/T1|r(y)/T1|end/T1|end/+",
        "violation 6 T1 2",
    ),
    (
        "only: a",
        "T1|begin(a)/T1|begin(b)/T1|w(x)/T2|r(x)/T2|w(y)/T1|r(y)/T1|end/T1|end/+",
        "violation 6 T1 1",
    ),
    (
        "only: c",
        "T1|begin(a)/T1|begin(b)/T1|w(x)/T2|r(x)/T2|w(y)/T1|r(y)/T1|end/T1|end/+",
        "serializable 8 0",
    ),
    (
        "only: b",
        "T1|begin(a)/T1|begin(b)/T1|w(x)/T1|end/T2|w(x)/T1|r(x)/T1|end/+",
        "serializable 7 1",
    ),
    (
        "only: a",
        "T1|begin/T1|begin(a)/T1|end/T1|w(x)/T2|w(x)/T1|r(x)/+",
        "serializable 6 1",
    ),
    (
        "only: a",
        "T1|begin/T1|end/T1|end/+",
        "ill-formed 3 EndWithoutBegin",
    ),
];

static WHICH_LABELS_AND_OVER_PARTS: [Labelled; 12] = [
    // No begin has the label: a variable has it, or a label begins or ends with it.
    (
        "b",
        "T1|begin(a)/T1|w(x)/T2|w(x)/T1|r(x)/+",
        "violation 4 T1 1",
    ),
    (
        "A aa",
        "T1|begin(a)/T1|w(x)/T2|w(x)/T1|r(x)/+",
        "violation 4 T1 1",
    ),
    (
        "a x",
        "T1|begin(xa)/T1|w(x)/T2|w(x)/T1|r(x)/+",
        "violation 4 T1 1",
    ),
    // A label that is listed twice, and one with a location behind it.
    (
        "a a",
        "T1|begin(a)/T1|w(x)/T2|w(x)/T1|r(x)/+",
        "serializable 4 0",
    ),
    (
        "b a",
        "T1|begin(a)|7/T1|w(x)/T2|w(x)/T1|r(x)/+",
        "serializable 4 0",
    ),
    // The begin in one part, and its end in the next.
    (
        "a",
        "T1|begin(a)/T1|begin/T1|w(x)/+T1|end/T2|w(x)/T1|r(x)/T1|end/+",
        "serializable 7 1",
    ),
    (
        "",
        "T1|begin(a)/T1|begin/T1|w(x)/+T1|end/T2|w(x)/T1|r(x)/T1|end/+",
        "violation 6 T1 1",
    ),
    (
        "a",
        "T1|begin/T1|begin(a)/T1|w(x)/+T1|end/T2|w(x)/T1|r(x)/+",
        "violation 6 T1 1",
    ),
    (
        "a",
        "T1|begin(a)/+T1|end/+T1|end/+",
        "ill-formed 3 EndWithoutBegin",
    ),
    // The second part has the labels in the other order.
    (
        "a",
        "T1|begin(a)/T1|end/T1|begin(b)/T1|end/+T1|begin(b)/T1|w(x)/T2|w(x)/T1|r(x)/T1|begin(a)/T1|end/T1|end/+",
        "violation 8 T1 5",
    ),
    (
        "b",
        "T1|begin(a)/T1|end/T1|begin(b)/T1|end/+T1|begin(b)/T1|w(x)/T2|w(x)/T1|r(x)/T1|begin(a)/T1|end/T1|end/+",
        "serializable 11 2",
    ),
    (
        "a b",
        "T1|begin(a)/T1|end/T1|begin(b)/T1|end/+T1|begin(b)/T1|w(x)/T2|w(x)/T1|r(x)/T1|begin(a)/T1|end/T1|end/+",
        "serializable 11 0",
    ),
];

#[test]
fn blocks_with_listed_labels_are_no_transactions(rt: HostRuntime) {
    let alloc = rt.alloc();
    let misjudged = (
        first_misjudged_by_labels(alloc, &OPEN_AND_CLOSE_NO_BLOCK),
        first_misjudged_by_labels(alloc, &WHICH_LABELS_AND_OVER_PARTS),
    );
    assert!(rt; misjudged == (None, None));
}
