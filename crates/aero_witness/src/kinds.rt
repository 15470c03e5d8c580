//! The kinds of conflicts. An event that a kind numbers as a source conflicts with each later one that it numbers so as
//! a target.
ghost use Rattle.std.specs.Prelude.{◌≡◌};
ghost use Rattle.aero_witness.specs.Kinds.{source_number, target_number};

use aero_model::{Numbered, What};

// By a thread, by its fork and by its join, by a write of a variable and by a read of it, and by a release of a lock.
#[derive(Clone, Copy, Debug, PartialEq, Eq)]
pub(crate) enum Kind {
    Threads,
    Forks,
    Joins,
    Writes,
    Reads,
    Releases,
}

// The number of what the event conflicts by as the earlier one, if it does by this kind.
pub(crate) fn source_number(kind: Kind, event: &Numbered) -> Option<u32>
    ensures { result ≡ source_number kind event.now }
{
    match (kind, event.what) {
        (Kind::Threads | Kind::Joins, _) => Some(event.thread),
        (Kind::Forks, What::Fork(u)) => Some(u),
        (Kind::Writes, What::Write(x)) => Some(x),
        (Kind::Reads, What::Read(x)) => Some(x),
        (Kind::Releases, What::Release(l)) => Some(l),
        _ => None,
    }
}

// The same as the later one.
pub(crate) fn target_number(kind: Kind, event: &Numbered) -> Option<u32>
    ensures { result ≡ target_number kind event.now }
{
    match (kind, event.what) {
        (Kind::Threads | Kind::Forks, _) => Some(event.thread),
        (Kind::Joins, What::Join(u)) => Some(u),
        (Kind::Writes, What::Read(x) | What::Write(x)) => Some(x),
        (Kind::Reads, What::Write(x)) => Some(x),
        (Kind::Releases, What::Acquire(l)) => Some(l),
        _ => None,
    }
}
