// What the chunks of a source have beside its verdict.
use crate::except::listed;
use crate::pieces::parts_of;
use aero_intake::survey::Survey;
use aero_model::Limits;
use std::alloc::Global;

// The places from 0 to 3 of the labels that begin a block of the chunks, between which `;` stands, whether all labels do, and
// whether a line is malformed or one too many, where there may be three. `None` if memory is refused.
fn surveyed(alloc: Global, labels: &str, chunks: &str) -> Option<([bool; 4], bool, bool)> {
    let except = listed(alloc, labels)?;
    let mut survey = Survey::none(alloc);
    for part in parts_of(alloc, chunks)? {
        survey.add(alloc, except.get(), &part).ok()?;
    }
    let mut limits = Limits::greatest();
    limits.lines = 3;
    let begun = [0, 1, 2, 3].map(|place| survey.begun.has(place));
    Some((
        begun,
        survey.has_all(except.get()),
        survey.is_faulty(&limits),
    ))
}

#[test]
fn a_label_counts_at_its_first_place(rt: HostRuntime) {
    let [no, yes] = [false, true];
    let rows = [
        ("f g", "T|begin(h)/T|begin", [no, no, no, no], no, no),
        ("f g", "T|begin(g)/T|end", [no, yes, no, no], no, no),
        (
            "f g f",
            "T|begin(f);U|begin(g)",
            [yes, yes, no, no],
            yes,
            no,
        ),
        (
            "f g",
            "T|begin(f)/T|begin(f);T|end",
            [yes, no, no, no],
            no,
            no,
        ),
        ("f", "T|w(f)/T|fork(f)", [no, no, no, no], no, no),
        (
            "f g",
            "T|begin(g)/T|w/T|begin(f)",
            [no, yes, no, no],
            no,
            yes,
        ),
        (
            "f g",
            "T|begin(f);T|w(x);T|w(x);T|begin(g)",
            [yes, yes, no, no],
            yes,
            yes,
        ),
    ];
    for (labels, chunks, begun, has_all, is_faulty) in rows {
        assert_eq!(rt;
            surveyed(rt.alloc(), labels, chunks),
            Some((begun, has_all, is_faulty))
        );
    }
}
