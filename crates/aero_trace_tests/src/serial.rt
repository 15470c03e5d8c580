use crate::model::terms_of;
use crate::verdict::{parts_of, push_word, words_of};
use aero_grammar::Parsed;
use aero_judge::{Judge, judge_trace};
use aero_model::{Except, Finding, Limits, Step, Terms, Verdict};
use aero_verdict::{actor_at, serial_order};
use std::alloc::{AllocError, Global};

// The helpers below say that a row doesn't hold where memory is refused.

fn push_line(alloc: Global, words: &mut String, line: u32) -> bool {
    push_word(words, format!(in alloc; "{line}/").ok())
}

fn push_lines(alloc: Global, words: &mut String, lines: &[u32]) -> bool {
    let mut fits = true;
    for line in lines {
        fits &= push_line(alloc, words, *line);
    }
    fits
}

// Whether these are the lines of its serial order, behind each of them a `/`, or `none`.
fn has_order(
    alloc: Global,
    parts: &[Parsed],
    limits: &Limits,
    except: &Except,
    wanted: &str,
) -> bool {
    match serial_order(alloc, parts, limits, except) {
        Ok(Some(lines)) => are_lines(alloc, &lines, wanted),
        Ok(None) => wanted == "none",
        Err(_) => false,
    }
}

fn are_lines(alloc: Global, lines: &[u32], wanted: &str) -> bool {
    let mut words = String::new(alloc);
    push_lines(alloc, &mut words, lines) && words.as_str() == wanted
}

fn push_step(alloc: Global, words: &mut String, step: &Step) -> bool {
    let line = step.line;
    let Ok(thread) = str::from_utf8(step.thread.bytes()) else {
        return false;
    };
    push_word(words, format!(in alloc; "{line} {thread}/").ok())
}

fn push_steps(alloc: Global, words: &mut String, steps: &[Step]) -> bool {
    let mut fits = words.push_str("/").is_ok();
    for step in steps {
        fits &= push_step(alloc, words, step);
    }
    fits
}

// The verdict, and where it has an order a `/` and its steps, behind each of them a `/`.
fn push_told(
    alloc: Global,
    words: &mut String,
    verdict: &Verdict,
    steps: &Option<Vec<Step>>,
) -> bool {
    if !push_word(words, words_of(alloc, verdict)) {
        return false;
    }
    match steps {
        Some(steps) => push_steps(alloc, words, steps),
        None => true,
    }
}

fn says(alloc: Global, verdict: &Verdict, steps: &Option<Vec<Step>>, wanted: &str) -> bool {
    let mut words = String::new(alloc);
    push_told(alloc, &mut words, verdict, steps) && words.as_str() == wanted
}

// Whether this is found of it. What explains the verdict isn't looked at.
fn finds(alloc: Global, finding: Result<Finding, AllocError>, wanted: &str) -> bool {
    match finding {
        Ok(Finding::Ordered(verdict, steps)) => says(alloc, &verdict, &Some(steps), wanted),
        Ok(Finding::Explained(verdict, _)) => says(alloc, &verdict, &None, wanted),
        Ok(Finding::Opened(verdict, _)) => says(alloc, &verdict, &None, wanted),
        Ok(Finding::Judged(verdict)) => says(alloc, &verdict, &None, wanted),
        _ => false,
    }
}

// Whether this is found of the parts at once, and by a judge at its end.
fn is_found(alloc: Global, parts: &[Parsed], terms: &Terms, wanted: &str) -> bool {
    let Ok(mut judge) = Judge::new(alloc, terms) else {
        return false;
    };
    judge.feed_all(parts, terms.except());
    finds(alloc, judge.finish(), wanted) && finds(alloc, judge_trace(alloc, parts, terms), wanted)
}

// Labels whose blocks are no transactions, a trace, its order, and what is told of it with that.
type Row = (&'static str, &'static str, &'static str, &'static str);

fn is_in_order(alloc: Global, limits: &Limits, row: &Row) -> Option<bool> {
    let (labels, text, order, told) = *row;
    let parts = parts_of(alloc, text)?;
    let terms = terms_of(alloc, limits, labels, (true, false))?;
    let in_full = terms_of(alloc, limits, labels, (true, true))?;
    Some(
        has_order(alloc, &parts, limits, terms.except(), order)
            && is_found(alloc, &parts, &terms, told)
            && is_found(alloc, &parts, &in_full, told),
    )
}

// The first row that doesn't hold.
fn first_wrong(alloc: Global, limits: &Limits, rows: &[Row]) -> Option<usize> {
    rows.iter()
        .position(|row| is_in_order(alloc, limits, row) != Some(true))
}

static ORDERED: [Row; 12] = [
    ("", "", "", "serializable 0 0/"),
    ("", "+//+", "", "serializable 0 0/"),
    (
        "",
        "T1|w(x)|5/T2|r(x)|6/+",
        "1/2/",
        "serializable 2 0/1 T1/2 T2/",
    ),
    (
        "",
        "T1|begin/T1|w(x)/T1|end/+",
        "1/",
        "serializable 3 1/1 T1/",
    ),
    // The write comes first, since the block reads what it writes.
    (
        "",
        "T1|begin/T2|w(x)/T1|r(x)/T1|end/+",
        "2/1/",
        "serializable 4 1/2 T2/1 T1/",
    ),
    (
        "",
        "T3|w(a)/T1|begin/T2|w(a)/T1|r(a)/T1|end/+",
        "1/3/2/",
        "serializable 5 1/1 T3/3 T2/2 T1/",
    ),
    // Once T2's block stands, T1's may go, and goes before T3's, which might have gone too.
    (
        "",
        "T1|begin/T2|begin/T3|begin/T2|w(x)/T2|end/T3|w(y)/T1|r(x)/T1|end/T3|r(x)/T3|end/T1|w(y)/+",
        "2/1/3/11/",
        "serializable 11 3/2 T2/1 T1/3 T3/11 T1/",
    ),
    (
        "",
        "T1|begin/T1|begin/T2|w(x)/T1|r(x)/T1|end/T1|end/T1|r(x)/+",
        "3/1/7/",
        "serializable 7 1/3 T2/1 T1/7 T1/",
    ),
    (
        "",
        "T1|begin/T1|w(x)/T1|fork(T2)/T1|end/T2|begin/T2|r(x)/T2|end/T1|join(T2)/+",
        "1/5/8/",
        "serializable 8 2/1 T1/5 T2/8 T1/",
    ),
    (
        "",
        "T1|begin/T2|begin/T2|acq(l)/T2|rel(l)/T1|acq(l)/T1|rel(l)/T1|end/T2|end/+",
        "2/1/",
        "serializable 8 2/2 T2/1 T1/",
    ),
    // Over several parts, with blank lines.
    (
        "",
        "T1|begin/+T2|w(x)/+/T1|r(x)/+T1|end/+",
        "2/1/",
        "serializable 4 1/2 T2/1 T1/",
    ),
    (
        "",
        "/T2|w(a)/+T1|begin/T3|w(x)/+/T1|r(x)/T1|end/T2|r(x)/+",
        "2/4/3/8/",
        "serializable 6 1/2 T2/4 T3/3 T1/8 T2/",
    ),
];

// Open blocks have an order, if there is no cycle, and it isn't told with the verdict.
static NOT_TOLD: [Row; 11] = [
    ("", "T1|begin/T1|w(x)/+", "1/", "pending 2 1 1"),
    ("", "T1|begin/T2|w(x)/T1|r(x)/+", "2/1/", "pending 3 1 1"),
    (
        "",
        "T1|begin/T2|begin/T1|w(x)/T2|w(y)/T1|r(y)/+",
        "2/1/",
        "pending 5 2 2",
    ),
    (
        "",
        "T1|begin/T2|begin/T1|r(x)/T2|r(y)/T1|w(y)/T2|w(x)/+",
        "none",
        "pending 6 2 2",
    ),
    (
        "",
        "T1|begin/T2|begin/T2|w(y)/T1|w(x)/T2|r(x)/T1|r(y)/+",
        "none",
        "pending 6 2 2",
    ),
    (
        "",
        "T1|begin/T2|begin/T1|w(x)/T2|r(x)/T2|w(y)/T1|r(y)/+",
        "none",
        "violation 6 T1 1",
    ),
    ("", "T1|r()/+", "none", "malformed 1 MissingTarget"),
    ("", "T1|w(x)/T+", "none", "malformed 2 NoOperation"),
    ("", "T1|begin/T+T1|end/+", "none", "malformed 2 NoOperation"),
    (
        "",
        "T1|w(x)/T1|end/+",
        "none",
        "ill-formed 2 EndWithoutBegin",
    ),
    (
        "",
        "T1|w(x)/+T1|rel(l)/T1|w(x)/+",
        "none",
        "ill-formed 2 LockNotHeld",
    ),
];

// The events of a block that is no transaction are transactions by themselves, but for those in other blocks.
static WITH_LABELS: [Row; 5] = [
    (
        "a",
        "T1|begin(a)/T1|w(x)/T2|w(x)/T1|r(x)/T1|end/+",
        "1/2/3/4/5/",
        "serializable 5 0/1 T1/2 T1/3 T2/4 T1/5 T1/",
    ),
    (
        "b",
        "T1|begin(a)/T1|w(x)/T2|w(x)/T1|r(x)/T1|end/+",
        "none",
        "violation 4 T1 1",
    ),
    (
        "a",
        "T1|begin(a)/T1|begin(b)/T2|w(x)/T1|r(x)/T1|end/T1|end/+",
        "1/3/2/6/",
        "serializable 6 1/1 T1/3 T2/2 T1/6 T1/",
    ),
    (
        "b",
        "T1|begin(a)/T1|begin(b)/T2|w(x)/T1|r(x)/T1|end/T1|end/+",
        "3/1/",
        "serializable 6 1/3 T2/1 T1/",
    ),
    (
        "a b",
        "T1|begin(a)/T1|begin(b)/T2|w(x)/+T1|r(x)/T1|end/T1|end/+",
        "1/2/3/4/5/6/",
        "serializable 6 0/1 T1/2 T1/3 T2/4 T1/5 T1/6 T1/",
    ),
];

// Under limits of two lines, threads and names.
static LIMITED: [Row; 2] = [
    ("", "T1|begin/T1|end//+", "none", "malformed 3 TooManyLines"),
    (
        "",
        "T1|w(x)/T2|w(y)/+",
        "1/2/",
        "serializable 2 0/1 T1/2 T2/",
    ),
];

// The first rows of each table that don't hold.
fn first_of_each(alloc: Global) -> Option<[Option<usize>; 4]> {
    let greatest = Limits::greatest();
    let limits = Limits::new(1000, 2, 2, 2)?;
    Some([
        first_wrong(alloc, &greatest, &ORDERED),
        first_wrong(alloc, &greatest, &NOT_TOLD),
        first_wrong(alloc, &greatest, &WITH_LABELS),
        first_wrong(alloc, &limits, &LIMITED),
    ])
}

#[test]
fn transactions_stand_in_the_serial_order(rt: HostRuntime) {
    assert!(rt; first_of_each(rt.alloc()) == Some([None, None, None, None]));
}

fn push_actor(words: &mut String, parts: &[Parsed], line: u32) -> bool {
    let name = actor_at(parts, line).unwrap_or(b"-");
    match str::from_utf8(name) {
        Ok(name) => words.push_str(name).is_ok() && words.push_str("/").is_ok(),
        Err(_) => false,
    }
}

fn push_actors(words: &mut String, parts: &[Parsed], lines: u32) -> bool {
    let mut fits = true;
    for line in 0..lines {
        fits &= push_actor(words, parts, line);
    }
    fits
}

// A trace, how many lines are asked about, from 0 on, and who made the events on them, behind each a `/`;
// `-` where there is none.
type Actors = (&'static str, u32, &'static str);

fn are_actors(alloc: Global, row: &Actors) -> Option<bool> {
    let parts = parts_of(alloc, row.0)?;
    let mut words = String::new(alloc);
    let is_pushed = push_actors(&mut words, &parts, row.1);
    Some(is_pushed && words.as_str() == row.2 && actor_at(&parts, u32::MAX).is_none())
}

// The first row that doesn't hold.
fn first_other_actor(alloc: Global, rows: &[Actors]) -> Option<usize> {
    rows.iter()
        .position(|row| are_actors(alloc, row) != Some(true))
}

static ACTORS: [Actors; 6] = [
    ("", 3, "-/-/-/"),
    ("T1|w(x)/T2|r(x)/+", 4, "-/T1/T2/-/"),
    // The target is none, and a blank line has none.
    (
        "/T1|fork(T2)// T2 |begin(T1)/T1|join(T2)/+",
        7,
        "-/-/T1/-/T2/T1/-/",
    ),
    // Parts name their threads in orders of their own.
    (
        "T1|w(x)/T2|w(x)/+T2|w(x)/T1|w(x)/+/T3|end/+",
        8,
        "-/T1/T2/T2/T1/-/T3/-/",
    ),
    // Nothing counts from a fault on.
    ("T1|w(x)/T/T2|w(x)/+T3|w(x)/+", 6, "-/T1/-/-/-/-/"),
    ("T1|w(x)/+T+T3|w(x)/+", 5, "-/T1/-/-/-/"),
];

#[test]
fn an_event_has_its_actor(rt: HostRuntime) {
    assert_eq!(rt; first_other_actor(rt.alloc(), &ACTORS), None);
}
