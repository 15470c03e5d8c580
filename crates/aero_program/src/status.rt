//! The exit status of a run.
ghost use Rattle.std.specs.Prelude.{◌≡◌};
ghost use Rattle.std.specs.IoError.{error_kind};
ghost use Rattle.aero_program.specs.Faults.{fault_of};
ghost use Rattle.std.specs.List.{list_all};
ghost use Rattle.aero_program.specs.Notes.{is_unchecked};
ghost use Rattle.aero_program.specs.Status.{status_of, end_checked, end_of_run, none_checked};

use crate::failure::Failure;
use crate::lasting::flush_fault;
use crate::notes::is_unchecked;
use aero_batch::{Cause, Notable, Outcome};
use aero_model::Counts;
use std::io;

/// The exit status of a run: 4 where it stopped before its summary was written, else 2 where a
/// source is malformed, ill-formed, broken or too large, else 1 where one has a violation, or open blocks
/// and these are to be told so, else 0.
pub fn status(outcome: &Outcome, fail_open: bool) -> u8
    ensures { result ≡ status_of fail_open outcome.now.cause outcome.now.counts }
{
    status_by(outcome.cause, &outcome.counts, fail_open)
}

// The same by why the run stopped, if it did, and its counts.
fn status_by(cause: Option<Cause>, counts: &Counts, fail_open: bool) -> u8
    ensures { result ≡ status_of fail_open cause counts.now }
{
    if cause.is_some() {
        4
    } else if counts.faults > 0 {
        2
    } else if counts.violations > 0 || (fail_open && counts.pending > 0) {
        1
    } else {
        0
    }
}

/// How the program ends after a run: its exit status, where the report was written and the flush of
/// standard output, whose result this is, didn't fail. A flush after a failed write fails as that did.
///
/// # Errors
///
/// `Memory` where the run stopped for that; `Write` where a write or the flush failed, or `Closed` where it did with
/// `ErrorKind::BrokenPipe`.
pub fn status_after(
    outcome: &Outcome,
    flushed: &io::Result<()>,
    fail_open: bool,
) -> Result<u8, Failure>
    ensures { result ≡ end_of_run fail_open outcome.now.cause outcome.now.counts
        (fault_of error_kind flushed.now) }
{
    end_after(outcome.cause, &outcome.counts, flushed, fail_open)
}

// The same by why the run stopped, if it did, and its counts.
pub(crate) fn end_after(
    cause: Option<Cause>,
    counts: &Counts,
    flushed: &io::Result<()>,
    fail_open: bool,
) -> Result<u8, Failure>
    ensures { result ≡ end_of_run fail_open cause counts.now (fault_of error_kind flushed.now) }
{
    match (cause, flush_fault(flushed)) {
        (Some(Cause::Memory), _) => Err(Failure::Memory),
        (Some(Cause::Write), fault) => Err(Failure::of_cut(fault)),
        (None, Some(kind)) => Err(Failure::of_write(kind)),
        (None, None) => Ok(status_by(None, counts, fail_open)),
    }
}

// Returns the same end of a run, but with status 1 instead of 0 if it is asked for (`fail_unchecked`) and no trace has a block
// that was checked. `notables` has an entry for each trace.
pub(crate) fn end_checked(
    end: Result<u8, Failure>,
    fail_unchecked: bool,
    notables: &[Option<Notable>],
) -> Result<u8, Failure>
    ensures { result ≡ end_checked fail_unchecked notables.now end }
{
    match end {
        Ok(status) => {
            if fail_unchecked && (none_checked(notables) && status == 0) {
                Ok(1)
            } else {
                Ok(status)
            }
        }
        Err(failure) => Err(failure),
    }
}

// Returns whether no trace has a block that was checked.
fn none_checked(notables: &[Option<Notable>]) -> bool
    ensures { result ≡ none_checked notables.now }
{
    notables.iter().all(|notable| is_unchecked(*notable))
}
