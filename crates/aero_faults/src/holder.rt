//! Who holds a lock, event by event.
ghost use Rattle.std.specs.Prelude.{◌≡◌, ℕ, List, [], ◌∷◌, ◌++◌, IfOk};
ghost use Rattle.aero_model.specs.Named.{Named};

use crate::deeds::{is_acquire_of, is_release_of};
use aero_model::{Event, Name};
use std::alloc::{AllocError, Global};

/// Who holds a lock after some events.
#[derive(Drop)]
pub enum Holder {
    Nobody,
    Thread(Holding),
    /// An event was no event that can stand there: it acquired the lock of another thread, or
    /// released what its thread didn't hold.
    Unclear,
}

/// A thread that holds a lock: the line of the outermost acquire that it hasn't released, from 1, and
/// how many it hasn't.
#[derive(Drop)]
pub struct Holding {
    pub thread: Name,
    pub line: u32,
    pub depth: u64,
}

impl Holder {
    ghost use Rattle.std.specs.Prelude.{◌≡◌, ℕ, List, [], ◌∷◌, ◌++◌, IfOk};
    ghost use Rattle.aero_model.specs.Named.{Named};
    ghost use Rattle.aero_faults.specs.Holders.{IsHolder};
    ghost use Rattle.aero_faults.specs.Holding.{acquired_by, released_by};

    /// Who holds the lock after one more event, on this line.
    ///
    /// # Errors
    ///
    /// `AllocError` where memory is refused, to a name of more than 16 bytes.
    pub fn after(
        self,
        alloc: Global,
        lock: &[u8],
        line: u32,
        event: &Event,
    ) -> Result<Holder, AllocError>
        ensures { IfOk result (λ holder. (before : List (ℕ × Named)) →
            IsHolder lock.now before self →
            IsHolder lock.now (before ++ (line, event.now) ∷ []) holder) }
    {
        if is_acquire_of(event, lock) {
            self.acquired(alloc, line, event.thread.bytes())
        } else if is_release_of(event, lock) {
            Ok(self.released(event.thread.bytes()))
        } else {
            Ok(self)
        }
    }

    // After an acquire by the thread on this line.
    fn acquired(self, alloc: Global, line: u32, thread: &[u8]) -> Result<Holder, AllocError>
        ensures { IfOk result (λ holder. holder ≡ acquired_by self line thread.now) }
    {
        match self {
            Holder::Nobody => Ok(Holder::Thread(Holding {
                thread: name_of(alloc, thread)?,
                line,
                depth: 1,
            })),
            Holder::Thread(holding) => holding.acquired(thread),
            Holder::Unclear => Ok(Holder::Unclear),
        }
    }

    // After a release by the thread.
    fn released(self, thread: &[u8]) -> Holder
        ensures { result ≡ released_by self thread.now }
    {
        match self {
            Holder::Thread(holding) => holding.released(thread),
            _ => Holder::Unclear,
        }
    }
}

impl Holding {
    ghost use Rattle.std.specs.Prelude.{◌≡◌, IfOk};
    ghost use Rattle.aero_faults.specs.Holding.{acquired_again, released_once};

    fn acquired(self, thread: &[u8]) -> Result<Holder, AllocError>
        ensures { IfOk result (λ holder. holder ≡ acquired_again self thread.now) }
    {
        if self.thread.bytes() != thread {
            return Ok(Holder::Unclear);
        }
        let Some(depth) = self.depth.checked_add(1) else {
            return Err(AllocError);
        };
        Ok(Holder::Thread(Holding { depth, ..self }))
    }

    fn released(self, thread: &[u8]) -> Holder
        ensures { result ≡ released_once self thread.now }
    {
        if self.thread.bytes() != thread {
            return Holder::Unclear;
        }
        if self.depth <= 1 {
            return Holder::Nobody;
        }
        let depth = self.depth - 1;
        Holder::Thread(Holding { depth, ..self })
    }
}

/// A copy of a name.
///
/// # Errors
///
/// `AllocError` where memory is refused, or the bytes are no name.
pub fn name_of(alloc: Global, bytes: &[u8]) -> Result<Name, AllocError>
    ensures { IfOk result (λ name. name ≡ bytes.now) }
{
    match Name::read(alloc, bytes) {
        Ok(name) => Ok(name),
        Err(_) => Err(AllocError),
    }
}
