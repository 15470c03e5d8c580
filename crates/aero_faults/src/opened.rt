//! How many blocks of a thread are open, event by event.
ghost use Rattle.std.specs.Prelude.{◌≡◌, ℕ, List, [], ◌∷◌, ◌++◌, ◌+◌, ◌-◌, Some, None, IfOk};
ghost use Rattle.aero_model.specs.Named.{Named};
ghost use Rattle.aero_faults.specs.Opened.{AreOpen};

use crate::deeds::is_by;
use aero_model::{Event, Op};
use std::alloc::AllocError;

/// How many blocks of the thread are open, after one more event, on this line. `None` says that one
/// has ended that hadn't begun.
///
/// # Errors
///
/// `AllocError` for more than 2^64 - 1 blocks.
pub fn opened_after(
    count: Option<u64>,
    thread: &[u8],
    line: u32,
    event: &Event,
) -> Result<Option<u64>, AllocError>
    ensures { IfOk result (λ now. (before : List (ℕ × Named)) → AreOpen thread.now before count
        → AreOpen thread.now (before ++ (line, event.now) ∷ []) now) }
{
    let Some(count) = count else {
        return Ok(None);
    };
    if !is_by(event, thread) {
        return Ok(Some(count));
    }
    match event.op {
        Op::Begin => Ok(Some(count.checked_add(1).ok_or(AllocError)?)),
        Op::End => Ok(count.checked_sub(1)),
        _ => Ok(Some(count)),
    }
}
