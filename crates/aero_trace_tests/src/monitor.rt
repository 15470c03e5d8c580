//! Traces that are fed to a monitor, as one part and a line at a time.
ghost use Rattle.std.specs.Prelude.{◌≡◌};

use crate::model::except_of;
use crate::verdict::{is, parts_of, says, words_of};
use aero_end::EndingClocks;
use aero_grammar::Parsed;
use aero_leads::Leads;
use aero_model::{Except, Limits};
use aero_verdict::engine::Engine;
use aero_verdict::{Monitor, check_trace};
use std::alloc::Global;

// The helpers below say that a row doesn't hold where memory is refused.

// The limit on lines, the labels of blocks that are no transactions, a trace in which a `/` ends each line, what the
// monitor answers to each line, and the verdict. A `-` is the answer that no verdict is certain yet, a `c` that one is.
type Row = (u32, &'static str, &'static str, &'static str, &'static str);

// The trace as one part.
fn whole(alloc: Global, text: &str) -> Option<Vec<Parsed>> {
    let mut row = String::new(alloc);
    let fits = row.push_str(text).is_ok() && row.push_str("+").is_ok();
    parts_of(alloc, fits.then_some(row)?.as_str())
}

// The trace with each line a part by itself.
fn cut(alloc: Global, text: &str) -> Option<Vec<Parsed>> {
    let mut row = String::new(alloc);
    let mut fits = true;
    for line in text.split_inclusive('/') {
        fits &= row.push_str(line).is_ok() && row.push_str("+").is_ok();
    }
    parts_of(alloc, fits.then_some(row)?.as_str())
}

// Whether the monitor gives this answer to the part.
fn answers<E: Engine>(
    monitor: &mut Monitor<E>,
    part: &Parsed,
    except: &Except,
    answer: Option<u8>,
) -> bool
    requires { except.now ≡ monitor.old.rules.labels }
    ensures { monitor.new.rules ≡ monitor.old.rules }
{
    let is_certain = answer == Some(b'c');
    monitor.feed(part, except).ok() == Some(is_certain) && monitor.certain().is_some() == is_certain
}

// Whether it gives these answers to the parts.
fn answers_all<E: Engine>(
    monitor: &mut Monitor<E>,
    parts: &[Parsed],
    except: &Except,
    wanted: &[u8],
) -> bool
    requires { except.now ≡ monitor.old.rules.labels }
    ensures { monitor.new.rules ≡ monitor.old.rules }
{
    let mut fits = parts.len() == wanted.len();
    for i in 0..parts.len() {
        fits &= answers(monitor, &parts[i], except, wanted.get(i).copied());
    }
    fits
}

// Whether the verdict is this one, and so is the one that is certain, if one is.
fn ends_with<E: Engine>(alloc: Global, monitor: Monitor<E>, wanted: &str) -> bool {
    let is_certain_so = match monitor.certain() {
        Some(verdict) => is(words_of(alloc, verdict), wanted),
        None => true,
    };
    says(alloc, monitor.finish().ok(), wanted) && is_certain_so
}

// How a trace is judged, what is answered to its parts, and its verdict.
#[derive(Clone, Copy)]
struct Case<'a> {
    limits: &'a Limits,
    except: &'a Except,
    ends: bool,
    answers: &'a [u8],
    verdict: &'a str,
}

// Whether the parts are judged so by this engine.
fn is_judged_so<E: Engine>(alloc: Global, parts: &[Parsed], case: Case<'_>) -> bool {
    let mut monitor = Monitor::<E>::ruled(alloc, case.limits, case.except, case.ends);
    let fits = answers_all(&mut monitor, parts, case.except, case.answers);
    ends_with(alloc, monitor, case.verdict) && fits
}

fn is_checked_so(alloc: Global, parts: &[Parsed], case: Case<'_>) -> bool {
    let verdict = check_trace(alloc, parts, case.limits, case.except).ok();
    says(alloc, verdict, case.verdict)
}

// Whether they are judged so by both engines, and by a check of them all, in which no block ends but by an end.
fn are_judged_so(alloc: Global, parts: &[Parsed], case: Case<'_>) -> bool {
    is_judged_so::<Leads>(alloc, parts, case)
        && is_judged_so::<EndingClocks>(alloc, parts, case)
        && (case.ends || is_checked_so(alloc, parts, case))
}

// The answer to the trace as one part is that to its last line.
fn is_so(alloc: Global, row: Row, ends: bool) -> Option<bool> {
    let (lines, labels, text, answers, verdict) = row;
    let limits = Limits::new(1000, lines, 10, 10)?;
    let except = except_of(alloc, labels)?;
    let (cut, whole) = (cut(alloc, text)?, whole(alloc, text)?);
    let last = [answers.as_bytes().last().copied().unwrap_or(b'-')];
    let case = Case {
        limits: &limits,
        except: &except,
        ends,
        answers: answers.as_bytes(),
        verdict,
    };
    let at_once = Case {
        answers: &last,
        ..case
    };
    Some(are_judged_so(alloc, &cut, case) && are_judged_so(alloc, &whole, at_once))
}

// The first row that doesn't hold, where blocks that are open end or don't.
fn first_misjudged(alloc: Global, rows: &[Row], ends: bool) -> Option<usize> {
    rows.iter()
        .position(|row| is_so(alloc, *row, ends) != Some(true))
}

static ROWS: [Row; 15] = [
    (100, "", "", "", "serializable 0 0"),
    (
        100,
        "",
        "T1|begin/T1|w(x)/T1|end/T2|r(x)/",
        "----",
        "serializable 4 1",
    ),
    (
        100,
        "",
        "T1|begin/T2|begin/T1|w(x)/",
        "---",
        "pending 3 2 2",
    ),
    // Once a verdict is certain nothing changes it: no end, no event that is ill-formed, no malformed line.
    (
        100,
        "",
        "T1|begin/T2|begin/T1|w(x)/T2|r(x)/T2|w(y)/T1|r(y)/T1|end/T9|rel(q)/T/",
        "-----cccc",
        "violation 6 T1 1",
    ),
    (
        100,
        "",
        "T1|acq(l)/T2|rel(l)/T/T1|rel(l)/",
        "-ccc",
        "ill-formed 2 LockNotHeld",
    ),
    (
        100,
        "",
        "T1|begin/T1|w(x)/T/T1|end/T1|end/",
        "--ccc",
        "malformed 3 NoOperation",
    ),
    // A block that a listed label begins is no transaction.
    (
        100,
        "a",
        "T1|begin(a)/T1|w(x)/T2|w(x)/T1|r(x)/",
        "----",
        "serializable 4 0",
    ),
    (
        100,
        "b",
        "T1|begin(a)/T1|w(x)/T2|w(x)/T1|r(x)/",
        "---c",
        "violation 4 T1 1",
    ),
    // One line too many decides only at the end, two decide at once.
    (2, "", "//", "--", "serializable 0 0"),
    (2, "", "///", "---", "malformed 3 TooManyLines"),
    (2, "", "////", "---c", "malformed 3 TooManyLines"),
    (2, "", "////T/", "---cc", "malformed 3 TooManyLines"),
    (2, "", "///T/", "---c", "malformed 3 TooManyLines"),
    // The line after the limit may have a fault of its own, and no event.
    (2, "", "//T/", "--c", "malformed 3 NoOperation"),
    (2, "", "//T1|end/", "---", "malformed 3 TooManyLines"),
];

#[test]
fn a_monitor_answers_part_by_part(rt: HostRuntime) {
    assert_eq!(rt; first_misjudged(rt.alloc(), &ROWS, false), None);
}

// Where blocks that are open end.
static ENDED_ROWS: [Row; 9] = [
    // The end of T1's block closes the cycle of T2's: at the end, on the line after the last, or before a join.
    (
        100,
        "",
        "T1|begin/T2|begin/T2|w(y)/T1|w(x)/T2|r(x)/T1|r(y)/",
        "------",
        "violation 7 T2 2",
    ),
    (
        100,
        "",
        "T1|begin/T2|begin/T2|w(y)/T1|w(x)/T2|r(x)/T1|r(y)/T2|join(T1)/T/",
        "------cc",
        "violation 7 T2 2",
    ),
    // The ends are events, and inner blocks and those that a label leaves out end too.
    (
        100,
        "",
        "T1|begin/T1|begin/T2|begin/T1|w(x)/",
        "----",
        "serializable 7 2",
    ),
    (100, "a", "T1|begin(a)/T1|w(x)/", "--", "serializable 3 0"),
    // A thread that joins itself ends no block, and one that was joined has none left.
    (
        100,
        "",
        "T1|begin/T1|join(T1)/",
        "-c",
        "ill-formed 2 JoinSelf",
    ),
    (
        100,
        "",
        "T1|begin/T1|begin/T2|join(T1)/T1|end/",
        "---c",
        "ill-formed 4 ThreadJoined",
    ),
    // Nothing ends where a line is malformed, or one is too many.
    (
        100,
        "",
        "T1|begin/T2|begin/T2|w(y)/T1|w(x)/T2|r(x)/T1|r(y)/T/",
        "------c",
        "malformed 7 NoOperation",
    ),
    (
        5,
        "",
        "T1|begin/T2|begin/T2|w(y)/T1|w(x)/T2|r(x)/T1|r(y)/",
        "------",
        "malformed 6 TooManyLines",
    ),
    // Their line doesn't count.
    (1, "", "T1|begin/", "-", "serializable 2 1"),
];

#[test]
fn open_blocks_end_before_joins_and_at_the_end(rt: HostRuntime) {
    assert_eq!(rt; first_misjudged(rt.alloc(), &ENDED_ROWS, true), None);
}

// Whether the next part is refused where one was before it, and no verdict is certain then. The answer is whether one
// was refused by now, or `None` where it isn't so.
fn is_refused(
    monitor: &mut Monitor<Leads>,
    part: &Parsed,
    except: &Except,
    was_refused: bool,
) -> Option<bool>
    requires { except.now ≡ monitor.old.rules.labels }
    ensures { monitor.new.rules ≡ monitor.old.rules }
{
    let is_refused = monitor.feed(part, except).is_err();
    let is_so = if is_refused {
        monitor.certain().is_none()
    } else {
        !was_refused
    };
    is_so.then_some(is_refused)
}

// The same of many parts.
fn is_one_refused(monitor: &mut Monitor<Leads>, parts: &[Parsed], except: &Except) -> Option<bool>
    requires { except.now ≡ monitor.old.rules.labels }
{
    let mut was_refused = false;
    let mut is_so = true;
    for i in 0..parts.len() {
        match is_refused(monitor, &parts[i], except, was_refused) {
            Some(told) => was_refused = told,
            None => is_so = false,
        }
    }
    is_so.then_some(was_refused)
}

// Whether a monitor to which memory is refused has no verdict from then on, and any other has one. `None` where it
// was refused to the parts.
fn does_a_refusal_stay(alloc: Global, text: &str) -> Option<bool> {
    let parts = cut(alloc, text)?;
    let except = except_of(alloc, "")?;
    let mut monitor = Monitor::<Leads>::new(alloc, &Limits::greatest(), &except);
    let was_refused = is_one_refused(&mut monitor, &parts, &except);
    let is_spent = monitor.finish().is_err();
    Some(was_refused == Some(is_spent))
}

// Holds whichever one allocation is refused, as `rt try --test --fail-alloc N` refuses the N-th.
#[test]
fn a_refusal_stays(rt: HostRuntime) {
    let text =
        "a_thread_with_a_long_name|begin/T1|w(x)/T2|fork(T3)/T3|acq(l)/T3|r(y)/T4|begin(f)/T4|w(z)/T4|end/";
    assert!(rt; does_a_refusal_stay(rt.alloc(), text) != Some(false));
}
