//! A reader or a writer whose failures and ends contracts can count.
use crate::ghost_count::GhostCount;
use std::io;
use std::io::{Read, Write};

/// A reader or a writer, with two numbers that contracts alone see. It hands each call on to what
/// it was made of, and costs nothing when it runs.
///
/// - `faults_of`, one more exactly where a read or a write failed, of whatever kind, or a write of
///   at least one byte took nothing;
/// - `ends_of`, one more exactly where a read that asked for at least one byte gave 0.
#[derive(Drop)]
pub struct Counting<T> {
    inner: T,
    faults: GhostCount,
    ends: GhostCount,
}

impl<T> Counting<T> {
    ghost use Rattle.std.specs.Prelude.{◌≡◌};
    ghost use Rattle.aero_model.specs.CallCounts.{inner_of, faults_of, ends_of};

    /// Both numbers are 0.
    pub fn new(inner: T) -> Counting<T>
        ensures inner { inner_of result ≡ inner }
        ensures no_faults { faults_of result ≡ 0 }
        ensures no_ends { ends_of result ≡ 0 }
    {
        Counting {
            inner,
            faults: GhostCount::zero(),
            ends: GhostCount::zero(),
        }
    }

    /// What it was made of.
    pub fn into_inner(self) -> T
        ensures { result ≡ inner_of self }
    {
        let Counting { inner, .. } = self;
        inner
    }
}

impl<R: Read> Read for Counting<R> {
    ghost use Rattle.std.specs.Prelude.{◌≡◌, ◌+◌, ◌||◌, if◌then◌else◌, is_err};
    ghost use Rattle.std.specs.Io.{ReadsAtMost};
    ghost use Rattle.std.specs.Io.KnownBytes.{ReadConsumes};
    ghost use Rattle.aero_model.specs.CallCounts.{inner_of, faults_of, ends_of, moves_nothing};

    ghost remaining = { λ c. R.remaining (inner_of c) };

    #[inline(always)]
    fn read(&mut self, buf: &mut [u8]) -> io::Result<usize>
        ensures bound { ReadsAtMost result buf.new }
        ensures bytes { ReadConsumes (R.remaining (inner_of self.old))
            (R.remaining (inner_of self.new)) result buf.new }
        ensures faults { faults_of self.new ≡ faults_of self.old + (if is_err result then 1 else 0) }
        ensures ends { ends_of self.new ≡
            ends_of self.old + (if moves_nothing result buf.new then 1 else 0) }
    {
        let result = self.inner.read(buf);
        match &result {
            Ok(n) => {
                if *n == 0 && !buf.is_empty() {
                    self.ends = GhostCount::after(&self.ends);
                }
            }
            Err(_) => self.faults = GhostCount::after(&self.faults),
        }
        result
    }
}

impl<W: Write> Write for Counting<W> {
    ghost use Rattle.std.specs.Prelude.{◌≡◌, ◌+◌, ◌||◌, if◌then◌else◌, is_err};
    ghost use Rattle.std.specs.Io.{WritesAtMost};
    ghost use Rattle.std.specs.Io.KnownBytes.{WriteAppends, Keeps};
    ghost use Rattle.aero_model.specs.CallCounts.{inner_of, faults_of, ends_of, moves_nothing};

    ghost contents = { λ c. W.contents (inner_of c) };

    #[inline(always)]
    fn write(&mut self, buf: &[u8]) -> io::Result<usize>
        ensures bound { WritesAtMost result buf.now }
        ensures bytes { WriteAppends (W.contents (inner_of self.old))
            (W.contents (inner_of self.new)) result buf.now }
        ensures faults { faults_of self.new ≡
            faults_of self.old + (if is_err result || moves_nothing result buf.now then 1 else 0) }
        ensures ends { ends_of self.new ≡ ends_of self.old }
    {
        let result = self.inner.write(buf);
        let has_failed = match &result {
            Ok(n) => *n == 0 && !buf.is_empty(),
            Err(_) => true,
        };
        if has_failed {
            self.faults = GhostCount::after(&self.faults);
        }
        result
    }

    #[inline(always)]
    fn flush(&mut self) -> io::Result<()>
        ensures bytes { Keeps (W.contents (inner_of self.old)) (W.contents (inner_of self.new)) }
        ensures faults { faults_of self.new ≡ faults_of self.old }
        ensures ends { ends_of self.new ≡ ends_of self.old }
    {
        self.inner.flush()
    }
}
