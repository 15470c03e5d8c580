//! A reader or a writer whose interrupted calls are made again.
ghost use Rattle.std.specs.Prelude.{◌≡◌, ◌≢◌, IfSome, IfNone, IfErr, IsErrAnd};
ghost use Rattle.std.specs.IoError.{error_kind};
ghost use Rattle.std.specs.declared.io.ErrorKind.TheVariants.{Interrupted};

use crate::watched::Watched;
use aero_model::ghost_count::GhostCount;
use std::io;
use std::io::{ErrorKind, Read, Write};

/// A reader or a writer that makes each interrupted call of the one within again, as often as it is
/// interrupted. What it answers is otherwise what the one within does. Contracts count what the calls of the
/// one within answered: a call is done exactly where one of these is, and fails exactly where one of these
/// fails otherwise than by an interruption, or where it is given up.
///
/// # Errors
///
/// Those of the one within, but never `ErrorKind::Interrupted`. After 2^64 - 1 interruptions of one call
/// it is given up, and fails with `ErrorKind::Other`.
#[derive(Drop)]
pub struct Retrying<T> {
    inner: Watched<T>,
    given_up: GhostCount,
}

impl<T> Retrying<T> {
    ghost use Rattle.std.specs.Prelude.{◌≡◌};
    ghost use Rattle.aero_program.specs.Retries.{tried_by, done_of, idle_of, flushed_of, interrupted_of, refused_of};

    /// No call was made yet.
    pub fn new(inner: T) -> Retrying<T>
        ensures inner { tried_by result ≡ inner }
        ensures none_done { done_of result ≡ 0 }
        ensures none_idle { idle_of result ≡ 0 }
        ensures none_flushed { flushed_of result ≡ 0 }
        ensures none_interrupted { interrupted_of result ≡ 0 }
        ensures none_refused { refused_of result ≡ 0 }
    {
        Retrying {
            inner: Watched::new(inner),
            given_up: GhostCount::zero(),
        }
    }

    /// The one within.
    pub fn into_inner(self) -> T
        ensures { result ≡ tried_by self }
    {
        let Retrying { inner, .. } = self;
        inner.into_inner()
    }
}

impl<R: Read> Read for Retrying<R> {
    ghost use Rattle.std.specs.Prelude.{◌≡◌, ◌≢◌, ◌+◌, if◌then◌else◌, is_err, IfErr};
    ghost use Rattle.std.specs.Io.{ReadsAtMost};
    ghost use Rattle.std.specs.Io.KnownBytes.{ReadConsumes};
    ghost use Rattle.std.specs.IoError.{error_kind};
    ghost use Rattle.std.specs.declared.io.ErrorKind.TheVariants.{Interrupted};
    ghost use Rattle.aero_model.specs.CallCounts.{moves_nothing};
    ghost use Rattle.aero_program.specs.Retries.{tried_by, done_of, idle_of, refused_of, IsPatient};

    ghost remaining = { λ r. R.remaining (tried_by r) };

    fn read(&mut self, buf: &mut [u8]) -> io::Result<usize>
        ensures bound { ReadsAtMost result buf.new }
        ensures bytes { ReadConsumes (R.remaining (tried_by self.old))
            (R.remaining (tried_by self.new)) result buf.new }
        ensures done { done_of self.new ≡ done_of self.old + (if is_err result then 0 else 1) }
        ensures idle { idle_of self.new ≡
            idle_of self.old + (if moves_nothing result buf.new then 1 else 0) }
        ensures refused { refused_of self.new ≡
            refused_of self.old + (if is_err result then 1 else 0) }
        ensures patient { IsPatient self.old self.new }
        ensures lasting { IfErr result (λ e. error_kind e ≢ Interrupted) }
    {
        for _ in 0..u64::MAX {
            if let Some(answer) = settled(self.inner.read(buf)) {
                return answer;
            }
        }
        self.given_up = GhostCount::after(&self.given_up);
        Err(io::Error::from(ErrorKind::Other))
    }
}

impl<W: Write> Write for Retrying<W> {
    ghost use Rattle.std.specs.Prelude.{◌≡◌, ◌≢◌, ◌+◌, if◌then◌else◌, is_err, IfErr};
    ghost use Rattle.std.specs.Io.{WritesAtMost};
    ghost use Rattle.std.specs.Io.KnownBytes.{WriteAppends, Keeps};
    ghost use Rattle.std.specs.IoError.{error_kind};
    ghost use Rattle.std.specs.declared.io.ErrorKind.TheVariants.{Interrupted};
    ghost use Rattle.aero_model.specs.CallCounts.{moves_nothing};
    ghost use Rattle.aero_program.specs.Retries.{tried_by, done_of, idle_of, flushed_of, refused_of, IsPatient};

    ghost contents = { λ w. W.contents (tried_by w) };

    fn write(&mut self, buf: &[u8]) -> io::Result<usize>
        ensures bound { WritesAtMost result buf.now }
        ensures bytes { WriteAppends (W.contents (tried_by self.old))
            (W.contents (tried_by self.new)) result buf.now }
        ensures done { done_of self.new ≡ done_of self.old + (if is_err result then 0 else 1) }
        ensures idle { idle_of self.new ≡
            idle_of self.old + (if moves_nothing result buf.now then 1 else 0) }
        ensures refused { refused_of self.new ≡
            refused_of self.old + (if is_err result then 1 else 0) }
        ensures patient { IsPatient self.old self.new }
        ensures lasting { IfErr result (λ e. error_kind e ≢ Interrupted) }
    {
        for _ in 0..u64::MAX {
            if let Some(answer) = settled(self.inner.write(buf)) {
                return answer;
            }
        }
        self.given_up = GhostCount::after(&self.given_up);
        Err(io::Error::from(ErrorKind::Other))
    }

    fn flush(&mut self) -> io::Result<()>
        ensures bytes { Keeps (W.contents (tried_by self.old)) (W.contents (tried_by self.new)) }
        ensures flushed { flushed_of self.new ≡
            flushed_of self.old + (if is_err result then 0 else 1) }
        ensures refused { refused_of self.new ≡
            refused_of self.old + (if is_err result then 1 else 0) }
        ensures patient { IsPatient self.old self.new }
        ensures lasting { IfErr result (λ e. error_kind e ≢ Interrupted) }
    {
        for _ in 0..u64::MAX {
            match self.inner.flush() {
                Ok(()) => return Ok(()),
                Err(error) if error.kind() == ErrorKind::Interrupted => {}
                Err(error) => return Err(error),
            }
        }
        self.given_up = GhostCount::after(&self.given_up);
        Err(io::Error::from(ErrorKind::Other))
    }
}

// What a call of the one within answered, unless it was interrupted.
fn settled(answer: io::Result<usize>) -> Option<io::Result<usize>>
    ensures same { IfSome result (λ it. it ≡ answer) }
    ensures lasting { IfSome result (λ it. IfErr it (λ e. error_kind e ≢ Interrupted)) }
    ensures interrupted { IfNone result (IsErrAnd answer (λ e. error_kind e ≡ Interrupted)) }
{
    match answer {
        Ok(count) => Some(Ok(count)),
        Err(error) if error.kind() == ErrorKind::Interrupted => None,
        Err(error) => Some(Err(error)),
    }
}
