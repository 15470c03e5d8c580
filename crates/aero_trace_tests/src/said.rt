//! Traces, and what each engine has to answer to them.
use aero_engine::Spent;
use std::alloc::Global;

#[derive(Clone, Copy)]
pub(crate) enum Event {
    Begin,
    End,
    Read(u32),
    Write(u32),
    Acquire(u32),
    Release(u32),
    Fork(u32),
    Join(u32),
}

fn digit(byte: u8) -> u32 {
    byte.wrapping_sub(b'0') as u32
}

// The event with this deed, as `w(`, on what the digit names.
fn event_on(deed: &[u8], target: u8) -> Option<Event> {
    let target = digit(target);
    match deed {
        b"r(" => Some(Event::Read(target)),
        b"w(" => Some(Event::Write(target)),
        b"acq(" => Some(Event::Acquire(target)),
        b"rel(" => Some(Event::Release(target)),
        b"fork(" => Some(Event::Fork(target)),
        b"join(" => Some(Event::Join(target)),
        _ => None,
    }
}

fn deed_of(what: &[u8]) -> Option<Event> {
    match what {
        b"begin" => Some(Event::Begin),
        b"end" => Some(Event::End),
        [deed @ .., target, b')'] => event_on(deed, *target),
        _ => None,
    }
}

// The event of this line, as `0|w(1)`, where threads, variables and locks are digits, and its thread.
fn event_of(line: &[u8]) -> Option<(u32, Event)> {
    match line {
        [thread, b'|', what @ ..] => Some((digit(*thread), deed_of(what)?)),
        _ => None,
    }
}

// What the tests say of a thread: whether it is in a block, whether it has made an event, and how many
// outermost begins it has made.
pub(crate) type Said = (bool, bool, u32);

// An engine that is given the events of a trace one by one.
pub(crate) trait Given: Drop {
    // It was given no event.
    fn fresh(alloc: Global) -> Self;

    // Makes the event, or refuses one that is not allowed.
    fn make(&mut self, t: u32, event: Event) -> Result<Option<u32>, Spent>;

    // The thread that was answered, if one was.
    fn answered(&self) -> Option<u32>;

    fn said_of(&self, t: u32) -> Said;
}

// The answer to the last event of the trace, with `/` between its lines. Each before it has to answer
// that nothing is told.
pub(crate) fn run<T: Given>(engine: &mut T, trace: &str) -> Result<Option<u32>, Spent> {
    let mut last = None;
    for line in trace.split('/') {
        let (t, event) = event_of(line.as_bytes()).ok_or(Spent)?;
        last = engine.make(t, event)?;
    }
    Ok(last)
}

// A trace, and the thread that is answered to its last event.
pub(crate) type Row = (&'static str, Option<u32>);

fn is_answered<T: Given>(alloc: Global, row: &Row) -> bool {
    let mut engine = T::fresh(alloc);
    run(&mut engine, row.0) == Ok(row.1) && engine.answered() == row.1
}

// The first row that doesn't hold.
pub(crate) fn first_misanswered<T: Given>(alloc: Global, rows: &[Row]) -> Option<usize> {
    for i in 0..rows.len() {
        if !is_answered::<T>(alloc, &rows[i]) {
            return Some(i);
        }
    }
    None
}

pub(crate) const ROWS: [Row; 17] = [
    // A read comes back from a second thread, whose block is open too.
    ("0|begin/1|begin/0|w(0)/1|r(0)/1|w(1)/0|r(1)", Some(0)),
    // An acquire, and a join.
    (
        "0|begin/0|acq(0)/0|rel(0)/1|acq(0)/1|rel(0)/0|acq(0)",
        Some(0),
    ),
    ("0|begin/0|fork(1)/1|w(0)/0|join(1)", Some(0)),
    // A write: only the read shows it.
    ("0|begin/0|w(0)/1|r(0)/1|r(1)/0|w(1)", Some(0)),
    // A write between the read and the write back forgets the read, and shows the same.
    ("0|begin/0|w(0)/1|r(0)/1|r(1)/2|w(1)/0|w(1)", Some(0)),
    // A thread closes none by itself.
    ("0|begin/0|w(0)/0|r(0)/0|w(0)", None),
    ("0|begin/0|acq(0)/0|rel(0)/0|acq(0)", None),
    // There is a cycle, but it passes two open blocks, until one ends.
    ("0|begin/1|begin/1|w(1)/0|w(0)/1|r(0)/0|r(1)", None),
    ("0|begin/1|begin/1|w(1)/0|w(0)/1|r(0)/0|r(1)/0|end", Some(1)),
    // A thread that has made no event is joined, and the block ends.
    ("0|begin/0|fork(1)/0|join(1)", None),
    ("0|begin/0|fork(1)/0|join(1)/0|end", None),
    // Thread 0 joins such a thread and takes nothing of the block that forked it, so what it then
    // writes doesn't come after that block. Where the thread has made an event, it does.
    ("2|begin/2|fork(1)/0|join(1)/0|w(0)/2|r(0)", None),
    ("2|begin/2|fork(1)/1|w(1)/0|join(1)/0|w(0)/2|r(0)", Some(2)),
    // The blocks of threads 1 and 2 both close, in either order in which they came to lead.
    (
        "0|begin/1|begin/2|begin/1|w(0)/2|w(1)/0|w(2)/1|r(2)/2|r(2)/0|r(0)/0|r(1)/0|end",
        Some(1),
    ),
    (
        "0|begin/1|begin/2|begin/1|w(0)/2|w(1)/0|w(2)/1|r(2)/2|r(2)/0|r(1)/0|r(0)/0|end",
        Some(1),
    ),
    // Thread 2 wrote variable 1 after it had read of thread 1's block, into which thread 0 led
    // only later. The end of the block brings thread 0's block to that last write.
    (
        "0|begin/1|begin/1|w(0)/2|r(0)/2|w(1)/0|w(2)/1|r(2)/1|end/0|r(1)",
        Some(0),
    ),
    // The same where thread 2's write stands before it read of thread 1's block.
    (
        "0|begin/1|begin/1|w(0)/2|w(1)/2|r(0)/0|w(2)/1|r(2)/1|end/0|r(1)",
        None,
    ),
];

// A trace, and what the tests say of threads 0 to 2 then.
pub(crate) type Tested = (&'static str, [Said; 3]);

fn is_said<T: Given>(alloc: Global, row: &Tested) -> bool {
    let mut engine = T::fresh(alloc);
    run(&mut engine, row.0).is_ok()
        && [engine.said_of(0), engine.said_of(1), engine.said_of(2)] == row.1
}

// The first row that doesn't hold.
pub(crate) fn first_missaid<T: Given>(alloc: Global, rows: &[Tested]) -> Option<usize> {
    for i in 0..rows.len() {
        if !is_said::<T>(alloc, &rows[i]) {
            return Some(i);
        }
    }
    None
}

pub(crate) const TESTED: [Tested; 5] = [
    (
        "0|begin/0|w(0)/1|r(0)",
        [(true, true, 1), (false, true, 0), (false, false, 0)],
    ),
    // A thread is answered, by an event and by an end: what the tests say stays.
    (
        "0|begin/0|w(0)/1|r(0)/1|r(1)/0|w(1)",
        [(true, true, 1), (false, true, 0), (false, false, 0)],
    ),
    (
        "0|begin/1|begin/1|w(1)/0|w(0)/1|r(0)/0|r(1)/0|end",
        [(true, true, 1), (true, true, 1), (false, false, 0)],
    ),
    // A thread that is forked and joined has made no event.
    (
        "0|begin/0|fork(1)/0|join(1)/0|end",
        [(false, true, 1), (false, false, 0), (false, false, 0)],
    ),
    (
        "0|begin/0|w(0)/1|r(0)/0|end",
        [(false, true, 1), (false, true, 0), (false, false, 0)],
    ),
];
