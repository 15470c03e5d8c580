use crate::pieces::block_question;
use aero_gather::{Gather, Settled, Tally, Ticket};
use aero_grammar::Parsed;
use aero_model::What;
use aero_pieces::{Answer, Question, Value};
use std::alloc::Global;
use std::sync::Arc;

// What is done with a gatherer. A question is a block of one line, and goes by that line.
#[derive(Clone, Copy)]
enum Step {
    Ask(&'static str),
    Accept(&'static str),
    Miss(u64),
    Oldest,
    Front,
    Settle,
    SettleWithQuestion,
    Open,
    Tally,
}

// The helpers below put words behind those so far, and say whether they could: they can't where memory is refused.

fn question(alloc: Global, line: &str) -> Option<Arc<Question, Global>> {
    block_question(alloc, 0, 0, line)?.share(alloc).ok()
}

fn push_bytes(words: &mut String, bytes: &[u8]) -> bool {
    match str::from_utf8(bytes) {
        Ok(text) => words.push_str(text).is_ok(),
        Err(_) => false,
    }
}

// The line that a question goes by.
fn push_line(words: &mut String, question: &Question) -> bool {
    match question {
        Question::Parse { bytes, .. } => push_bytes(words, bytes.get()),
        Question::Check { .. } => words.push_str("a trace").is_ok(),
    }
}

fn push_number(alloc: Global, words: &mut String, number: u64) -> bool {
    match format!(in alloc; "{number}") {
        Ok(text) => words.push_str(&text).is_ok(),
        Err(_) => false,
    }
}

// The ticket's number, or else the question that comes back. At most 2^64 - 1 questions are asked.
fn push_asked(
    alloc: Global,
    words: &mut String,
    gather: &mut Gather,
    question: Arc<Question>,
) -> bool {
    if gather.tally().asked == u64::MAX {
        return false;
    }
    match gather.ask(question) {
        Ok(ticket) => {
            words.push_str("ticket ").is_ok() && push_number(alloc, words, ticket.number)
        }
        Err(full) => words.push_str("full: ").is_ok() && push_line(words, &full.question),
    }
}

// What the only event of a block is.
fn push_event(alloc: Global, words: &mut String, parsed: &Parsed) -> bool {
    if parsed.events.len() != 1 {
        return words.push_str("not one event").is_ok();
    }
    let (_, event) = parsed.events[0].parts();
    push_what(alloc, words, event.what)
}

fn push_what(alloc: Global, words: &mut String, what: What) -> bool {
    match format!(in alloc; "{what:?}") {
        Ok(text) => words.push_str(&text).is_ok(),
        Err(_) => false,
    }
}

// What a block's value says.
fn push_value(alloc: Global, words: &mut String, value: &Value) -> bool {
    match value {
        Value::Parsed(parsed) => push_event(alloc, words, parsed),
        Value::Judged(_) | Value::Ordered(..) | Value::Explained(..) | Value::Opened(..) => words
            .push_str("a verdict")
            .is_ok(),
    }
}

fn push_settled(alloc: Global, words: &mut String, gather: &mut Gather) -> bool {
    match gather.settle() {
        Ok(Some(value)) => push_value(alloc, words, &value),
        Ok(None) => words.push_str("none").is_ok(),
        Err(_) => false,
    }
}

fn push_settled_with_question(alloc: Global, words: &mut String, gather: &mut Gather) -> bool {
    match gather.settle_with_question() {
        Ok(Some(settled)) => push_both(alloc, words, &settled),
        Ok(None) => words.push_str("none").is_ok(),
        Err(_) => false,
    }
}

fn push_both(alloc: Global, words: &mut String, settled: &Settled) -> bool {
    push_line(words, &settled.question)
        && words.push_str(": ").is_ok()
        && push_value(alloc, words, &settled.value)
}

fn push_accepted(alloc: Global, words: &mut String, gather: &mut Gather, answer: Answer) -> bool {
    match format!(in alloc; "{:?}", gather.accept(answer)) {
        Ok(text) => words.push_str(&text).is_ok(),
        Err(_) => false,
    }
}

// What an answer that is worked out afresh counts for.
fn push_answered(alloc: Global, words: &mut String, gather: &mut Gather, line: &str) -> bool {
    let Some(question) = question(alloc, line) else {
        return false;
    };
    match Question::answer(&question, alloc) {
        Ok(answer) => push_accepted(alloc, words, gather, answer),
        Err(_) => false,
    }
}

fn push_oldest(alloc: Global, words: &mut String, gather: &Gather) -> bool {
    match format!(in alloc; "{:?}", gather.oldest()) {
        Ok(text) => words.push_str(&text).is_ok(),
        Err(_) => false,
    }
}

fn push_front(words: &mut String, gather: &Gather) -> bool {
    match gather.front() {
        Some(front) => push_line(words, front),
        None => words.push_str("none").is_ok(),
    }
}

// How many questions are open, and the number of the oldest one's ticket.
fn push_open(alloc: Global, words: &mut String, gather: &Gather) -> bool {
    push_number(alloc, words, gather.len() as u64)
        && words.push_str(" open from ").is_ok()
        && push_number(alloc, words, gather.oldest_ticket().number)
}

fn push_tally(alloc: Global, words: &mut String, tally: Tally) -> bool {
    words.push_str("asked ").is_ok()
        && push_number(alloc, words, tally.asked)
        && words.push_str(", kept ").is_ok()
        && push_number(alloc, words, tally.kept)
        && words.push_str(", done here ").is_ok()
        && push_number(alloc, words, tally.done_here)
}

fn push_question(alloc: Global, words: &mut String, gather: &mut Gather, line: &str) -> bool {
    match question(alloc, line) {
        Some(question) => push_asked(alloc, words, gather, question),
        None => false,
    }
}

fn push_missed(words: &mut String, gather: &mut Gather, number: u64) -> bool {
    let is_news = gather.note_missed(Ticket { number });
    words
        .push_str(if is_news { "true" } else { "false" })
        .is_ok()
}

// Does the step, and says what it answered. Answers are worked out afresh.
fn push_answer(alloc: Global, words: &mut String, gather: &mut Gather, step: Step) -> bool {
    match step {
        Step::Ask(line) => push_question(alloc, words, gather, line),
        Step::Accept(line) => push_answered(alloc, words, gather, line),
        Step::Miss(number) => push_missed(words, gather, number),
        Step::Oldest => push_oldest(alloc, words, gather),
        Step::Front => push_front(words, gather),
        Step::Settle => push_settled(alloc, words, gather),
        Step::SettleWithQuestion => push_settled_with_question(alloc, words, gather),
        Step::Open => push_open(alloc, words, gather),
        Step::Tally => push_tally(alloc, words, gather.tally()),
    }
}

// Whether the step answers so.
fn is_answered_so(alloc: Global, gather: &mut Gather, step: Step, wanted: &str) -> bool {
    let mut words = String::new(alloc);
    push_answer(alloc, &mut words, gather, step) && words.as_str() == wanted
}

// A step, and what it answers.
type Row = (Step, &'static str);

// The place of the first step that answers something else on a new gatherer, if there is one.
fn first_other(alloc: Global, window: u32, steps: &[Row]) -> Option<usize> {
    if window == 0 || window > 64 {
        return Some(0);
    }
    match Gather::new(alloc, window) {
        Ok(gather) => first_other_of(alloc, gather, steps),
        Err(_) => Some(0),
    }
}

// The same of this gatherer.
fn first_other_of(alloc: Global, gather: Gather, steps: &[Row]) -> Option<usize> {
    let mut gather = gather;
    for i in 0..steps.len() {
        if !is_answered_so(alloc, &mut gather, steps[i].0, steps[i].1) {
            return Some(i);
        }
    }
    None
}

static A_FULL_WINDOW_GIVES_THE_QUESTION_BACK: [Row; 6] = [
    (Step::Oldest, "Nothing"),
    (Step::Front, "none"),
    (Step::Settle, "none"),
    (Step::Ask("T1|r(x)"), "ticket 0"),
    (Step::Ask("T1|w(x)"), "full: T1|w(x)"),
    (Step::Front, "T1|r(x)"),
];

// What is missed is worked out by the gatherer itself.
static ONLY_THE_FIRST_ANSWER_TO_AN_OPEN_QUESTION_IS_KEPT: [Row; 15] = [
    (Step::Ask("T1|r(x)"), "ticket 0"),
    (Step::Accept("T1|w(x)"), "Stranger"),
    (Step::Oldest, "Awaited"),
    (Step::Accept("T1|r(x)"), "Kept"),
    (Step::Oldest, "Kept"),
    (Step::Accept("T1|r(x)"), "Repeated"),
    (Step::Settle, "Read(0)"),
    (Step::Accept("T1|r(x)"), "Stranger"),
    (Step::Tally, "asked 1, kept 1, done here 0"),
    (Step::Ask("T1|w(x)"), "ticket 1"),
    (Step::Miss(1), "true"),
    (Step::Miss(1), "false"),
    (Step::Oldest, "Missed"),
    (Step::SettleWithQuestion, "T1|w(x): Write(0)"),
    (Step::Tally, "asked 2, kept 1, done here 1"),
];

static VALUES_COME_IN_THE_ORDER_OF_THE_QUESTIONS: [Row; 16] = [
    (Step::Open, "0 open from 0"),
    (Step::Ask("T1|r(x)"), "ticket 0"),
    (Step::Ask("T1|w(x)"), "ticket 1"),
    (Step::Ask("T1|begin"), "ticket 2"),
    (Step::Ask("T1|r(x)"), "ticket 3"),
    (Step::Open, "4 open from 0"),
    (Step::Miss(3), "true"),
    (Step::Accept("T1|begin"), "Kept"),
    (Step::Accept("T1|r(x)"), "Kept"),
    (Step::Accept("T1|w(x)"), "Kept"),
    (Step::Settle, "Read(0)"),
    (Step::Settle, "Write(0)"),
    (Step::Open, "2 open from 2"),
    (Step::Settle, "Begin(None)"),
    (Step::Settle, "Read(0)"),
    (Step::Tally, "asked 4, kept 3, done here 1"),
];

static AN_ANSWER_THAT_COMES_LATE_IS_KEPT: [Row; 11] = [
    (Step::Ask("T1|r(x)"), "ticket 0"),
    (Step::Miss(1), "false"),
    (Step::Oldest, "Awaited"),
    (Step::Miss(0), "true"),
    (Step::Oldest, "Missed"),
    (Step::Accept("T1|r(x)"), "Kept"),
    (Step::Oldest, "Kept"),
    (Step::Miss(0), "false"),
    (Step::Oldest, "Kept"),
    (Step::SettleWithQuestion, "T1|r(x): Read(0)"),
    (Step::SettleWithQuestion, "none"),
];

#[test]
fn each_step_of_a_gatherer_has_its_answer(rt: HostRuntime) {
    let alloc = rt.alloc();
    let others = [
        first_other(alloc, 1, &A_FULL_WINDOW_GIVES_THE_QUESTION_BACK),
        first_other(alloc, 1, &ONLY_THE_FIRST_ANSWER_TO_AN_OPEN_QUESTION_IS_KEPT),
        first_other(alloc, 4, &VALUES_COME_IN_THE_ORDER_OF_THE_QUESTIONS),
        first_other(alloc, 64, &AN_ANSWER_THAT_COMES_LATE_IS_KEPT),
    ];
    assert_eq!(rt; others, [None; 4]);
}
