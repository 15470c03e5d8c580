use aero_clock::Clock;
use std::alloc::Global;

// The helpers below give `None` where memory is refused, and then a row doesn't hold.

// Raises the number of the thread that the digit names.
fn raise(clock: &mut Clock, digit: u8) -> Option<()> {
    let t = digit.wrapping_sub(b'0') as u32;
    if clock.get(t) == u32::MAX {
        return None;
    }
    clock.raise(t).ok()
}

// The clock after one raise for each digit, the number of a thread.
fn raised(alloc: Global, threads: &str) -> Option<Clock> {
    let mut clock = Clock::new(alloc);
    for digit in threads.bytes() {
        raise(&mut clock, digit)?;
    }
    Some(clock)
}

fn joined_of(a: &Clock, b: &Clock) -> Option<Clock> {
    let mut joined = a.copy().ok()?;
    joined.join(b).ok()?;
    Some(joined)
}

// Two clocks by the threads that raise them, whether each is at most the other, and the numbers of
// threads 0, 1 and 2 in their join, with the pairs of those that aren't 0.
type Row = (
    &'static str,
    &'static str,
    (bool, bool),
    [u32; 3],
    &'static [(u32, u32)],
);

// Whether the clock has the numbers of the other once it has copied them.
fn copies(clock: &mut Clock, other: &Clock) -> bool {
    clock.copy_from(other).is_ok() && clock.pairs() == other.pairs()
}

// The same of a copy of the clock.
fn does_a_copy_copy(clock: &Clock, other: &Clock) -> bool {
    match clock.copy() {
        Ok(mut copy) => copies(&mut copy, other),
        Err(_) => false,
    }
}

fn are_compared(a: &Clock, b: &Clock, joined: &Clock, compared: (bool, bool)) -> bool {
    (a.at_most(b), b.at_most(a)) == compared
        && a.at_most(a)
        && a.at_most(joined)
        && b.at_most(joined)
}

fn has(joined: &Clock, numbers: [u32; 3], pairs: &[(u32, u32)]) -> bool {
    [joined.get(0), joined.get(1), joined.get(2)] == numbers && joined.pairs() == pairs
}

// Whether two such clocks are so, and copied numbers are the same, in more room and in less. The
// clock that was copied stays.
fn fit(a: &Clock, b: &Clock, longer: &mut Clock, row: &Row) -> Option<bool> {
    let joined = joined_of(a, b)?;
    Some(
        copies(longer, &joined)
            && does_a_copy_copy(&joined, b)
            && are_compared(a, b, &joined, row.2)
            && has(&joined, row.3, row.4),
    )
}

fn fits(alloc: Global, row: &Row) -> Option<bool> {
    let a = raised(alloc, row.0)?;
    let b = raised(alloc, row.1)?;
    let mut longer = raised(alloc, row.1)?;
    fit(&a, &b, &mut longer, row)
}

// The first row that doesn't hold.
fn first_wrong(alloc: Global, rows: &[Row]) -> Option<usize> {
    rows.iter().position(|row| fits(alloc, row) != Some(true))
}

static ROWS: [Row; 8] = [
    ("", "", (true, true), [0, 0, 0], &[]),
    ("", "2", (true, false), [0, 0, 1], &[(2, 1)]),
    ("2", "20", (true, false), [1, 0, 1], &[(0, 1), (2, 1)]),
    ("20", "2", (false, true), [1, 0, 1], &[(0, 1), (2, 1)]),
    ("02", "20", (true, true), [1, 0, 1], &[(0, 1), (2, 1)]),
    ("202", "", (false, true), [1, 0, 2], &[(0, 1), (2, 2)]),
    (
        "12",
        "202",
        (false, false),
        [1, 1, 2],
        &[(0, 1), (1, 1), (2, 2)],
    ),
    (
        "0122",
        "2020",
        (false, false),
        [2, 1, 2],
        &[(0, 2), (1, 1), (2, 2)],
    ),
];

#[test]
fn clocks_are_compared_and_joined_in_every_place(rt: HostRuntime) {
    assert_eq!(rt; first_wrong(rt.alloc(), &ROWS), None);
}
