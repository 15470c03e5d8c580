use crate::except::listed;
use aero_grammar::{Parsed, parse_block};
use aero_model::{Limits, Step, Verdict, What};
use aero_pieces::{Answer, Bytes, Parts, Question, Value, same};
use std::alloc::Global;

// The helpers give `None` where memory is refused.

// The lines of a text in which `/` stands for a newline.
fn lines(alloc: Global, text: &str) -> Option<Bytes> {
    let text = text.replace(alloc, "/", "\n").ok()?;
    Bytes::new(text.as_bytes().to_vec(alloc).ok()?)
}

// What a block of a trace says.
pub(crate) fn block_question(
    alloc: Global,
    trace: u64,
    number: u64,
    block: &str,
) -> Option<Question> {
    let bytes = lines(alloc, block)?;
    Some(Question::Parse {
        trace,
        number,
        bytes,
    })
}

fn push_part(alloc: Global, parts: &mut Vec<Parsed>, block: &str) -> bool {
    let Some(bytes) = lines(alloc, block) else {
        return false;
    };
    match parse_block(alloc, bytes.get()) {
        Ok(part) => parts.push(part).is_ok(),
        Err(_) => false,
    }
}

// The parts that blocks are, between which `;` stands.
pub(crate) fn parts_of(alloc: Global, blocks: &str) -> Option<Vec<Parsed>> {
    let mut parts = Vec::new(alloc);
    let mut fits = true;
    for block in blocks.split(';') {
        fits &= push_part(alloc, &mut parts, block);
    }
    fits.then_some(parts)
}

// The verdict on a trace, whose blocks stand between `;`, where these labels are listed, and its order
// if that is asked for.
pub(crate) fn trace_question(
    alloc: Global,
    labels: &str,
    blocks: &str,
    order: bool,
) -> Option<Question> {
    let except = listed(alloc, labels)?;
    Some(Question::Check {
        trace: 0,
        parsed: Parts::new(parts_of(alloc, blocks)?),
        limits: Limits::greatest(),
        except,
        end: false,
        order,
        explain: false,
    })
}

// Whether the value is the one event, a read of `x` by `T1` on the first line.
pub(crate) fn is_read(value: &Value) -> bool {
    match value {
        Value::Parsed(parsed) => {
            let [event] = parsed.events.as_slice() else {
                return false;
            };
            let (line, event) = event.parts();
            (parsed.lines, line) == (1, 1)
                && parsed.fault.is_none()
                && event.what == What::Read(0)
                && parsed.threads.name(event.thread) == Some(b"T1".as_slice())
                && parsed.variables.name(0) == Some(b"x".as_slice())
        }
        Value::Judged(_) | Value::Ordered(..) | Value::Explained(..) | Value::Opened(..) => false,
    }
}

// How many events a trace has whose value this is, where it is serializable and has no block.
fn events_in(value: &Value) -> Option<u32> {
    match value {
        Value::Judged(Verdict::Serializable { events, blocks: 0 }) => Some(*events),
        _ => None,
    }
}

// The same of a trace of one block of lines, where these labels are listed.
fn events_of(alloc: Global, labels: &str, block: &str) -> Option<u32> {
    let question = trace_question(alloc, labels, block, false)?;
    let question = question.share(alloc).ok()?;
    let answer = Question::answer(&question, alloc).ok()?;
    events_in(answer.value())
}

// Whether the answer to a question on the block `T1|r(x)` is to that question, and its value is the one event.
fn is_read_told(alloc: Global) -> Option<bool> {
    let question = block_question(alloc, 0, 0, "T1|r(x)")?;
    let question = question.share(alloc).ok()?;
    let answer = Question::answer(&question, alloc).ok()?;
    let is_told = same(answer.question(), &question) && is_read(answer.value());
    Some(is_told & is_read(&answer.into_value()))
}

// Whether bytes are given back as they came.
fn are_bytes_kept(alloc: Global) -> Option<bool> {
    let bytes = Bytes::new(b"ab".to_vec(alloc).ok()?)?;
    Some(bytes.get() == b"ab".as_slice())
}

#[test]
fn a_question_is_answered_by_its_value(rt: HostRuntime) {
    let alloc = rt.alloc();
    assert!(rt; are_bytes_kept(alloc) == Some(true) && is_read_told(alloc) == Some(true));
    assert_eq!(rt; events_of(alloc, "", "T1|r(x)"), Some(1));
    assert_eq!(rt; events_of(alloc, "a", "T1|begin(a)/T1|end"), Some(2));
}

// The helpers below say that a row doesn't hold where memory is refused.

fn push_step(alloc: Global, words: &mut String, step: &Step) -> bool {
    let line = step.line;
    let Ok(thread) = str::from_utf8(step.thread.bytes()) else {
        return false;
    };
    match format!(in alloc; "{line} {thread}/") {
        Ok(word) => words.push_str(&word).is_ok(),
        Err(_) => false,
    }
}

fn push_steps(alloc: Global, words: &mut String, steps: &[Step]) -> bool {
    let mut fits = true;
    for step in steps {
        fits &= push_step(alloc, words, step);
    }
    fits
}

// Appends the order to `words`, or else the kind of the value.
fn push_order(alloc: Global, words: &mut String, value: &Value) -> bool {
    match value {
        Value::Ordered(Verdict::Serializable { .. }, steps) => push_steps(alloc, words, steps),
        Value::Ordered(..) => words.push_str("an order of another verdict").is_ok(),
        Value::Explained(..) => words.push_str("a cycle").is_ok(),
        Value::Opened(..) => words.push_str("open blocks").is_ok(),
        Value::Judged(_) => words.push_str("a verdict").is_ok(),
        Value::Parsed(_) => words.push_str("a block").is_ok(),
    }
}

// Blocks of a trace, whether its order is asked for, and what is told: the order, or what the value is.
type Ordered = (&'static str, bool, &'static str);

fn is_told(alloc: Global, value: &Value, wanted: &str) -> bool {
    let mut words = String::new(alloc);
    push_order(alloc, &mut words, value) && words.as_str() == wanted
}

fn is_answered(alloc: Global, question: Question, wanted: &str) -> bool {
    let Ok(question) = question.share(alloc) else {
        return false;
    };
    match Question::answer(&question, alloc) {
        Ok(answer) => is_told(alloc, answer.value(), wanted),
        Err(_) => false,
    }
}

fn is_ordered_so(alloc: Global, row: &Ordered) -> bool {
    let (blocks, order, wanted) = *row;
    match trace_question(alloc, "a", blocks, order) {
        Some(question) => is_answered(alloc, question, wanted),
        None => false,
    }
}

// The first row that doesn't hold.
fn first_misordered(alloc: Global, rows: &[Ordered]) -> Option<usize> {
    for i in 0..rows.len() {
        if !is_ordered_so(alloc, &rows[i]) {
            return Some(i);
        }
    }
    None
}

static ORDERED: [Ordered; 9] = [
    ("", true, ""),
    ("", false, "a verdict"),
    ("T1|begin/T2|w(x);T1|r(x)/T1|end", true, "2 T2/1 T1/"),
    ("T1|begin/T2|w(x);T1|r(x)/T1|end", false, "a verdict"),
    (
        "T1|begin(a)/T2|w(x);T1|r(x)/T1|end",
        true,
        "1 T1/2 T2/3 T1/4 T1/",
    ),
    ("T1|begin/T2|w(x);T1|r(x)", true, "a verdict"),
    ("T1|begin/T1|w(x);T2|w(x)/T1|r(x)", true, "a verdict"),
    ("T1|w(x);T1", true, "a verdict"),
    ("T1|w(x);T1|end", true, "a verdict"),
];

#[test]
fn the_order_of_a_serializable_trace_is_given_where_it_is_asked_for(rt: HostRuntime) {
    assert_eq!(rt; first_misordered(rt.alloc(), &ORDERED), None);
}

// A question on a block: the numbers of its trace and of itself, and its lines.
type Block = (u64, u64, &'static str);

// Whether the first question is the same as the other, and the other as the first.
fn are_same(alloc: Global, first: Block, other: Block) -> Option<(bool, bool)> {
    let first = block_question(alloc, first.0, first.1, first.2)?;
    let other = block_question(alloc, other.0, other.1, other.2)?;
    Some((same(&first, &other), same(&other, &first)))
}

// Whether the question is the same as itself.
fn is_same(alloc: Global, asked: Block) -> Option<bool> {
    let question = block_question(alloc, asked.0, asked.1, asked.2)?;
    Some(same(&question, &question))
}

// A question, and whether it is the same as `READ`.
type Compared = (Block, bool);

// The first row that doesn't hold.
fn first_miscompared(alloc: Global, rows: &[Compared]) -> Option<usize> {
    for i in 0..rows.len() {
        let (other, wanted) = rows[i];
        if are_same(alloc, READ, other) != Some((wanted, wanted)) {
            return Some(i);
        }
    }
    None
}

const READ: Block = (0, 0, "T1|r(x)");

static BLOCKS: [Compared; 5] = [
    ((0, 0, "T1|r(x)"), true),
    ((0, 0, "T1|w(x)"), false),
    ((0, 0, "T1|r(x)/"), false),
    ((1, 0, "T1|r(x)"), false),
    ((0, 1, "T1|r(x)"), false),
];

#[test]
fn blocks_with_the_same_bytes_are_the_same_question(rt: HostRuntime) {
    assert_eq!(rt; is_same(rt.alloc(), READ), Some(true));
    assert_eq!(rt; first_miscompared(rt.alloc(), &BLOCKS), None);
}
