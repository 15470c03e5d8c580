use aero_model::{Numbered, ShapeFault, What};
use aero_shape::{Admitted, Shape};
use std::alloc::Global;

// An event, and what is told of it.
type Row = (&'static str, &'static str);

static EACH_CAUSE_AND_EACH_KIND: [Row; 15] = [
    ("0 Begin", "OuterBegin"),
    ("0 Begin", "in a block"),
    ("0 Acquire 0", "in a block"),
    ("1 Acquire 0", "LockHeldByOther"),
    ("1 Release 0", "LockNotHeld"),
    ("0 Fork 0", "ForkSelf"),
    ("0 Fork 1", "in a block"),
    ("0 Fork 1", "ForkStarted"),
    ("0 Join 0", "JoinSelf"),
    ("0 Join 1", "IdleJoin"),
    ("1 Write 0", "ThreadJoined"),
    ("0 End", "in a block"),
    ("0 End", "OuterEnd"),
    ("0 End", "EndWithoutBegin"),
    ("0 Release 0", "outside"),
];

static A_LOCK_IS_FREE_AFTER_AS_MANY_RELEASES_AS_ACQUIRES: [Row; 9] = [
    ("3 Acquire 9", "outside"),
    ("3 Acquire 9", "outside"),
    ("3 Release 9", "outside"),
    ("1 Acquire 9", "LockHeldByOther"),
    ("1 Acquire 2", "outside"),
    ("3 Release 9", "outside"),
    ("3 Release 9", "LockNotHeld"),
    ("1 Acquire 9", "outside"),
    ("3 Acquire 2", "LockHeldByOther"),
];

static A_JOINED_THREAD_DOES_NOTHING_MORE: [Row; 11] = [
    ("40 Begin", "OuterBegin"),
    ("40 Acquire 5", "in a block"),
    ("7 Join 40", "outside"),
    ("40 End", "ThreadJoined"),
    ("40 Acquire 5", "ThreadJoined"),
    ("40 Join 40", "ThreadJoined"),
    ("7 Fork 40", "ForkStarted"),
    ("7 Acquire 5", "LockHeldByOther"),
    ("7 Join 40", "outside"),
    ("7 Join 41", "IdleJoin"),
    ("7 Fork 41", "ForkStarted"),
];

static AN_EXEMPT_BLOCK_IS_NONE: [Row; 7] = [
    ("0 ExemptBegin", "outside"),
    ("0 Begin", "OuterBegin"),
    ("0 ExemptBegin", "in a block"),
    ("0 End", "in a block"),
    ("0 End", "OuterEnd"),
    ("0 End", "outside"),
    ("0 End", "EndWithoutBegin"),
];

fn what_of(deed: &str, target: u32) -> Option<What> {
    match deed {
        "Write" => Some(What::Write(target)),
        "Acquire" => Some(What::Acquire(target)),
        "Release" => Some(What::Release(target)),
        "Fork" => Some(What::Fork(target)),
        "Join" => Some(What::Join(target)),
        "Begin" | "ExemptBegin" => Some(What::Begin(None)),
        "End" => Some(What::End),
        _ => None,
    }
}

// What such a text does behind its thread: with the target if there is one.
fn deed_of(text: &str) -> Option<What> {
    let (deed, target) = text.split_once(' ').unwrap_or((text, "0"));
    what_of(deed, target.parse::<u32>().ok()?)
}

// The event of such a text: a thread, what it does, and the target if there is one.
fn event_of(text: &str) -> Option<Numbered> {
    let (thread, deed) = text.split_once(' ')?;
    let thread = thread.parse::<u32>().ok()?;
    let what = deed_of(deed)?;
    Some(Numbered { thread, what })
}

fn told(answer: Result<Admitted, ShapeFault>) -> &'static str {
    match answer {
        Ok(Admitted::Plain { in_block: true }) => "in a block",
        Ok(Admitted::Plain { in_block: false }) => "outside",
        Ok(Admitted::OuterBegin) => "OuterBegin",
        Ok(Admitted::OuterEnd) => "OuterEnd",
        Ok(Admitted::IdleJoin) => "IdleJoin",
        Err(ShapeFault::TooManyThreads) => "TooManyThreads",
        Err(ShapeFault::TooManyNames) => "TooManyNames",
        Err(ShapeFault::ThreadJoined) => "ThreadJoined",
        Err(ShapeFault::LockHeldByOther) => "LockHeldByOther",
        Err(ShapeFault::LockNotHeld) => "LockNotHeld",
        Err(ShapeFault::ForkSelf) => "ForkSelf",
        Err(ShapeFault::ForkStarted) => "ForkStarted",
        Err(ShapeFault::JoinSelf) => "JoinSelf",
        Err(ShapeFault::EndWithoutBegin) => "EndWithoutBegin",
        Err(ShapeFault::Memory) => "Memory",
    }
}

// Whether the shape tells this of the event.
fn is_told(shape: &mut Shape, row: &Row) -> bool {
    let Some(event) = event_of(row.0) else {
        return false;
    };
    shape.admitted() < 100 && told(shape.admit(&event, row.0.contains("Exempt"))) == row.1
}

// The first row that a new shape tells otherwise, or else how many events it has admitted then.
fn admitted_of(alloc: Global, rows: &[Row]) -> Result<u32, usize> {
    let mut shape = Shape::new(alloc);
    for i in 0..rows.len() {
        if !is_told(&mut shape, &rows[i]) {
            return Err(i);
        }
    }
    Ok(shape.admitted())
}

#[test]
fn each_event_is_admitted_or_has_its_cause(rt: HostRuntime) {
    let alloc = rt.alloc();
    let admitted = [
        admitted_of(alloc, &[]),
        admitted_of(alloc, &EACH_CAUSE_AND_EACH_KIND),
        admitted_of(alloc, &A_LOCK_IS_FREE_AFTER_AS_MANY_RELEASES_AS_ACQUIRES),
        admitted_of(alloc, &A_JOINED_THREAD_DOES_NOTHING_MORE),
        admitted_of(alloc, &AN_EXEMPT_BLOCK_IS_NONE),
    ];
    assert!(rt; admitted == [Ok(0), Ok(8), Ok(6), Ok(5), Ok(6)]);
}
