//! The first event that joined a thread, or with which it came too late to fork it.
ghost use Rattle.std.specs.Prelude.{◌≡◌, ℕ, List, [], ◌∷◌, ◌++◌, None, IfOk};
ghost use Rattle.aero_model.specs.Named.{Named};
ghost use Rattle.aero_faults.specs.Firsts.{deed_of as deed_in, is_sought as is_one_sought, IsFound};

use crate::deeds::{is_by, is_fork_of, is_join_of};
use crate::holder::name_of;
use aero_model::{Event, Name};
use std::alloc::{AllocError, Global};

/// Which events of a thread's are looked for.
#[derive(Clone, Copy, Debug, PartialEq, Eq)]
pub enum Sought {
    /// Its joins.
    Joins,
    /// Its own events, its forks and its joins.
    Starts,
}

/// What an event was to a thread.
#[derive(Clone, Copy, Debug, PartialEq, Eq)]
pub enum Deed {
    Acted,
    Forked,
    Joined,
}

/// The first event that was looked for: who made it, on which line, from 1, and what it was.
#[derive(Drop)]
pub struct FirstDeed {
    pub thread: Name,
    pub line: u32,
    pub deed: Deed,
}

/// The first of the events that are sought of the thread, after one more event, on this line.
///
/// # Errors
///
/// `AllocError` where memory is refused, to a name of more than 16 bytes.
pub fn first_after(
    alloc: Global,
    first: Option<FirstDeed>,
    sought: Sought,
    thread: &[u8],
    line: u32,
    event: &Event,
) -> Result<Option<FirstDeed>, AllocError>
    ensures { IfOk result (λ now. (before : List (ℕ × Named)) →
        IsFound (is_one_sought sought thread.now) thread.now before first
        → IsFound (is_one_sought sought thread.now) thread.now (before ++ (line, event.now) ∷ [])
        now) }
{
    match first {
        Some(first) => Ok(Some(first)),
        None => first_of(alloc, sought, thread, line, event),
    }
}

// The event, if it is sought.
fn first_of(
    alloc: Global,
    sought: Sought,
    thread: &[u8],
    line: u32,
    event: &Event,
) -> Result<Option<FirstDeed>, AllocError>
    ensures { IfOk result (λ now. (before : List (ℕ × Named)) →
        IsFound (is_one_sought sought thread.now) thread.now before None
        → IsFound (is_one_sought sought thread.now) thread.now (before ++ (line, event.now) ∷ [])
        now) }
{
    if !is_sought(sought, thread, event) {
        return Ok(None);
    }
    let first = FirstDeed {
        thread: name_of(alloc, event.thread.bytes())?,
        line,
        deed: deed_of(thread, event),
    };
    Ok(Some(first))
}

fn is_sought(sought: Sought, thread: &[u8], event: &Event) -> bool
    ensures { result ≡ is_one_sought sought thread.now event.now }
{
    match sought {
        Sought::Joins => is_join_of(event, thread),
        Sought::Starts => {
            is_by(event, thread) || is_fork_of(event, thread) || is_join_of(event, thread)
        }
    }
}

fn deed_of(thread: &[u8], event: &Event) -> Deed
    ensures { result ≡ deed_in thread.now event.now }
{
    if is_by(event, thread) {
        Deed::Acted
    } else if is_fork_of(event, thread) {
        Deed::Forked
    } else {
        Deed::Joined
    }
}
