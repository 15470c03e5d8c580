// The statuses of runs and of what isn't judged.
use aero_batch::outcome::{Cause, Outcome};
use aero_gather::gather::Tally;
use aero_model::verdict::Counts;
use aero_program::failure::Failure;
use aero_program::status::{status, status_after};
use std::alloc::Global;
use std::io;
use std::io::ErrorKind;

fn outcome_of(alloc: Global, counts: [u64; 4], cause: Option<Cause>) -> Outcome {
    let [serializable, pending, violations, faults] = counts;
    Outcome {
        endings: Vec::new(alloc),
        notables: Vec::new(alloc),
        counts: Counts {
            serializable,
            pending,
            violations,
            faults,
        },
        begun: None,
        cause,
        tally: Tally {
            asked: 0,
            kept: 0,
            done_here: 0,
        },
        workers: 0,
    }
}

// The highest status that applies to a run, and the line and the status of each failure.
#[test]
fn each_end_has_its_status(rt: HostRuntime) {
    // (what the run found, why it stopped, whether open blocks make the status 1, the status)
    let runs: [([u64; 4], Option<Cause>, bool, u8); 14] = [
        ([0, 0, 0, 0], None, false, 0),
        ([2, 0, 0, 0], None, false, 0),
        ([2, 0, 0, 0], None, true, 0),
        ([0, 3, 0, 0], None, false, 0),
        ([0, 3, 0, 0], None, true, 1),
        ([1, 0, 2, 0], None, false, 1),
        ([1, 0, 2, 0], None, true, 1),
        ([0, 0, 0, 1], None, false, 2),
        ([0, 3, 0, 1], None, true, 2),
        ([1, 1, 1, 1], None, false, 2),
        ([2, 0, 0, 0], Some(Cause::Memory), false, 4),
        ([0, 3, 0, 0], Some(Cause::Memory), true, 4),
        ([0, 0, 1, 0], Some(Cause::Write), false, 4),
        ([0, 0, 0, 1], Some(Cause::Write), false, 4),
    ];
    for (counts, cause, fail_open, expected) in runs {
        let outcome = outcome_of(rt.alloc(), counts, cause);
        assert_eq!(rt; status(&outcome, fail_open), expected);
        let flushed = match status_after(&outcome, &Ok(()), fail_open) {
            Ok(status) => status,
            Err(failure) => failure.status(),
        };
        assert_eq!(rt; flushed, expected);
        let unflushed = Err(io::Error::from(ErrorKind::BrokenPipe));
        assert!(rt; status_after(&outcome, &unflushed, fail_open).is_err());
    }
    let failures = [
        (Failure::Memory, "aerodrome: out of memory\n", 4),
        (Failure::Write, "aerodrome: write failed\n", 4),
        (Failure::Closed, "", 4),
        (
            Failure::TooManyFiles,
            "aerodrome: more than 65536 files\n",
            3,
        ),
        (Failure::BadLabel, "aerodrome: not a label\n", 3),
        (
            Failure::TooManyLabels,
            "aerodrome: more than 64 labels\n",
            3,
        ),
        (Failure::NotUtf8, "aerodrome: a word is not UTF-8\n", 3),
    ];
    for (failure, line, expected) in failures {
        assert!(rt; failure.line() == line);
        assert_eq!(rt; failure.status(), expected);
    }
}
