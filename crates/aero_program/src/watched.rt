//! A stream whose calls contracts can count.
use aero_model::ghost_count::GhostCount;
use std::io;
use std::io::{ErrorKind, Read, Write};

// A reader or a writer, with numbers that contracts alone see. It hands each call on to what it was made
// of, and costs nothing when it runs.
//
// - `done_by`, one more exactly where a read or a write was done;
// - `idle_by`, one more exactly where that moved no byte, though there was one to move;
// - `flushed_by`, one more exactly where a flush was done;
// - `interrupted_by`, one more exactly where a call failed with `ErrorKind::Interrupted`;
// - `failed_by`, one more exactly where a call failed with another kind.
#[derive(Drop)]
pub(crate) struct Watched<T> {
    inner: T,
    done: GhostCount,
    idle: GhostCount,
    flushed: GhostCount,
    failings: Failings,
}

// How often calls failed, by interruptions and otherwise.
#[derive(Drop)]
struct Failings {
    interrupted: GhostCount,
    failed: GhostCount,
}

impl Failings {
    ghost use Rattle.std.specs.Prelude.{◌≡◌, ◌≢◌};
    ghost use Rattle.std.specs.IoError.{error_kind};
    ghost use Rattle.std.specs.declared.io.ErrorKind.TheVariants.{Interrupted};
    ghost use Rattle.aero_program.specs.Calls.{OneInterrupted, OneFailed};

    // One call more that failed so.
    #[inline(always)]
    fn note(&mut self, error: &io::Error)
        ensures interrupted { error_kind error.now ≡ Interrupted →
            OneInterrupted self.old self.new }
        ensures failed { error_kind error.now ≢ Interrupted → OneFailed self.old self.new }
    {
        if error.kind() == ErrorKind::Interrupted {
            self.interrupted = GhostCount::after(&self.interrupted);
        } else {
            self.failed = GhostCount::after(&self.failed);
        }
    }
}

impl<T> Watched<T> {
    ghost use Rattle.std.specs.Prelude.{◌≡◌};
    ghost use Rattle.aero_program.specs.Calls.{stream_of, done_by, idle_by, flushed_by, interrupted_by, failed_by};

    // All numbers are 0.
    pub(crate) fn new(inner: T) -> Watched<T>
        ensures inner { stream_of result ≡ inner }
        ensures none_done { done_by result ≡ 0 }
        ensures none_idle { idle_by result ≡ 0 }
        ensures none_flushed { flushed_by result ≡ 0 }
        ensures none_interrupted { interrupted_by result ≡ 0 }
        ensures none_failed { failed_by result ≡ 0 }
    {
        Watched {
            inner,
            done: GhostCount::zero(),
            idle: GhostCount::zero(),
            flushed: GhostCount::zero(),
            failings: Failings {
                interrupted: GhostCount::zero(),
                failed: GhostCount::zero(),
            },
        }
    }

    // What it was made of.
    pub(crate) fn into_inner(self) -> T
        ensures { result ≡ stream_of self }
    {
        let Watched { inner, .. } = self;
        inner
    }
}

impl<R: Read> Read for Watched<R> {
    ghost use Rattle.std.specs.Prelude.{◌≡◌, ◌≢◌, ◌+◌, if◌then◌else◌, is_err, IfErr, OnOk};
    ghost use Rattle.std.specs.Io.{ReadsAtMost};
    ghost use Rattle.std.specs.Io.KnownBytes.{ReadConsumes};
    ghost use Rattle.std.specs.IoError.{error_kind};
    ghost use Rattle.std.specs.declared.io.ErrorKind.TheVariants.{Interrupted};
    ghost use Rattle.aero_model.specs.CallCounts.{moves_nothing};
    ghost use Rattle.aero_program.specs.Calls.{stream_of, done_by, idle_by, flushed_by, failings_of, OneInterrupted, OneFailed};

    ghost remaining = { λ w. R.remaining (stream_of w) };

    #[inline(always)]
    fn read(&mut self, buf: &mut [u8]) -> io::Result<usize>
        ensures bound { ReadsAtMost result buf.new }
        ensures bytes { ReadConsumes (R.remaining (stream_of self.old))
            (R.remaining (stream_of self.new)) result buf.new }
        ensures done { done_by self.new ≡ done_by self.old + (if is_err result then 0 else 1) }
        ensures idle { idle_by self.new ≡
            idle_by self.old + (if moves_nothing result buf.new then 1 else 0) }
        ensures flushed { flushed_by self.new ≡ flushed_by self.old }
        ensures unfailed { OnOk result (failings_of self.new ≡ failings_of self.old) }
        ensures interrupted { IfErr result (λ e. error_kind e ≡ Interrupted →
            OneInterrupted (failings_of self.old) (failings_of self.new)) }
        ensures failed { IfErr result (λ e. error_kind e ≢ Interrupted →
            OneFailed (failings_of self.old) (failings_of self.new)) }
    {
        let result = self.inner.read(buf);
        match &result {
            Ok(count) => {
                self.done = GhostCount::after(&self.done);
                if *count == 0 && !buf.is_empty() {
                    self.idle = GhostCount::after(&self.idle);
                }
            }
            Err(error) => self.failings.note(error),
        }
        result
    }
}

impl<W: Write> Write for Watched<W> {
    ghost use Rattle.std.specs.Prelude.{◌≡◌, ◌≢◌, ◌+◌, if◌then◌else◌, is_err, IfErr, OnOk};
    ghost use Rattle.std.specs.Io.{WritesAtMost};
    ghost use Rattle.std.specs.Io.KnownBytes.{WriteAppends, Keeps};
    ghost use Rattle.std.specs.IoError.{error_kind};
    ghost use Rattle.std.specs.declared.io.ErrorKind.TheVariants.{Interrupted};
    ghost use Rattle.aero_model.specs.CallCounts.{moves_nothing};
    ghost use Rattle.aero_program.specs.Calls.{stream_of, done_by, idle_by, flushed_by, failings_of, OneInterrupted, OneFailed};

    ghost contents = { λ w. W.contents (stream_of w) };

    #[inline(always)]
    fn write(&mut self, buf: &[u8]) -> io::Result<usize>
        ensures bound { WritesAtMost result buf.now }
        ensures bytes { WriteAppends (W.contents (stream_of self.old))
            (W.contents (stream_of self.new)) result buf.now }
        ensures done { done_by self.new ≡ done_by self.old + (if is_err result then 0 else 1) }
        ensures idle { idle_by self.new ≡
            idle_by self.old + (if moves_nothing result buf.now then 1 else 0) }
        ensures flushed { flushed_by self.new ≡ flushed_by self.old }
        ensures unfailed { OnOk result (failings_of self.new ≡ failings_of self.old) }
        ensures interrupted { IfErr result (λ e. error_kind e ≡ Interrupted →
            OneInterrupted (failings_of self.old) (failings_of self.new)) }
        ensures failed { IfErr result (λ e. error_kind e ≢ Interrupted →
            OneFailed (failings_of self.old) (failings_of self.new)) }
    {
        let result = self.inner.write(buf);
        match &result {
            Ok(count) => {
                self.done = GhostCount::after(&self.done);
                if *count == 0 && !buf.is_empty() {
                    self.idle = GhostCount::after(&self.idle);
                }
            }
            Err(error) => self.failings.note(error),
        }
        result
    }

    #[inline(always)]
    fn flush(&mut self) -> io::Result<()>
        ensures bytes { Keeps (W.contents (stream_of self.old)) (W.contents (stream_of self.new)) }
        ensures done { done_by self.new ≡ done_by self.old }
        ensures idle { idle_by self.new ≡ idle_by self.old }
        ensures flushed { flushed_by self.new ≡
            flushed_by self.old + (if is_err result then 0 else 1) }
        ensures unfailed { OnOk result (failings_of self.new ≡ failings_of self.old) }
        ensures interrupted { IfErr result (λ e. error_kind e ≡ Interrupted →
            OneInterrupted (failings_of self.old) (failings_of self.new)) }
        ensures failed { IfErr result (λ e. error_kind e ≢ Interrupted →
            OneFailed (failings_of self.old) (failings_of self.new)) }
    {
        let result = self.inner.flush();
        match &result {
            Ok(()) => self.flushed = GhostCount::after(&self.flushed),
            Err(error) => self.failings.note(error),
        }
        result
    }
}
