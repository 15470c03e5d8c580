// What no clause says of a source that one thread reads and judges: how far it reads, and that it can be given up.
use crate::except::listed;
use aero_intake::Plan;
use aero_intake::alone::judge_source;
use aero_model::{Counting, Ending, Limits};
use std::sync::Wait;
use std::sync::atomic::AtomicBool;

// Returns how many bytes of `text` come, by `piece` bytes a read at most, and how they end, where the source is read no
// further once its verdict is certain. `None` if nothing is found, or if memory is refused.
fn end_of<T: AllocGlobal + Wait>(
    rt: &T,
    text: &[u8],
    piece: u32,
    is_given_up: bool,
) -> Option<(u64, Ending)> {
    let labels = listed(rt.alloc(), "")?;
    let plan = Plan::new(1, piece, Limits::greatest(), labels, false)?.stopping();
    let mut reader = Counting::new(text);
    let is_given_up = AtomicBool::new(is_given_up);
    let found = judge_source(rt, rt.alloc(), &mut reader, &plan, &is_given_up)?;
    Some((found.bytes, found.ending))
}

// The verdict is certain with the newline of line 4, and with that of line 1.
const CROSSED: &[u8] = b"T1|begin\nT1|w(x)\nT2|w(x)\nT1|r(x)\nT1|end\n";

const MALFORMED: &[u8] = b"T1|r()\nT1|w(x)\nT1|w(y)\n";

#[test]
fn no_read_follows_the_one_that_decides(rt: HostRuntime) {
    let rows = [
        (CROSSED, 1, 33),
        (CROSSED, 16, 40),
        (MALFORMED, 1, 7),
        (MALFORMED, 16, 16),
    ];
    for (text, piece, bytes) in rows {
        assert_eq!(rt;
            end_of(&rt, text, piece, false),
            Some((bytes, Ending::Stopped))
        );
    }
}

#[test]
fn nothing_is_found_of_a_source_that_is_given_up(rt: HostRuntime) {
    assert_eq!(rt; end_of(&rt, CROSSED, 1, true), None);
}

// Whether blocks begin with the first two of these labels in a source, of one byte a read. The inner `None` is that of `Found`.
fn begun_in<T: AllocGlobal + Wait>(
    rt: &T,
    labels: &str,
    text: &[u8],
    stops: bool,
) -> Option<Option<[bool; 2]>> {
    let labels = listed(rt.alloc(), labels)?;
    let plan = Plan::new(1, 1, Limits::greatest(), labels, false)?;
    let plan = if stops { plan.stopping() } else { plan };
    let mut reader = Counting::new(text);
    let is_given_up = AtomicBool::new(false);
    let found = judge_source(rt, rt.alloc(), &mut reader, &plan, &is_given_up)?;
    Some(found.begun.map(|begun| [begun.has(0), begun.has(1)]))
}

// Its verdict is certain with line 4.
const LABELLED_BEHIND: &[u8] =
    b"T1|begin\nT1|w(x)\nT2|w(x)\nT1|r(x)\nT1|end\nT2|begin(g)\nT2|end\n";

#[test]
fn blocks_behind_a_violation_have_their_labels_told(rt: HostRuntime) {
    let whole: &[u8] = b"T1|begin(f)\nT1|end\n";
    let rows = [
        ("f g", whole, false, Some([true, false])),
        ("g f", whole, false, Some([false, true])),
        ("g f", LABELLED_BEHIND, false, Some([true, false])),
        ("g f", LABELLED_BEHIND, true, None),
        ("f g", b"T1|begin(f)\nT1|begin(g)\nT1|r()\n", false, None),
        ("f g", b"", false, Some([false, false])),
    ];
    for (labels, text, stops, begun) in rows {
        assert_eq!(rt; begun_in(&rt, labels, text, stops), Some(begun));
    }
}
