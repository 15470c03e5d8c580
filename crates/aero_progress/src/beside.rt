//! A writer beside which the line may stand.
use crate::line::ProgressLine;
use std::io;
use std::io::Write;
use std::sync::{Mutex, Wait};

/// A writer that clears the line, if there is one, before each write, and keeps it away until that has
/// been made. What it answers is what the one within does.
#[derive(Drop)]
pub struct Beside<'a, W, L, R> {
    inner: W,
    line: Option<&'a Mutex<ProgressLine<L>>>,
    rt: R,
}

impl<'a, W, L, R: Wait> Beside<'a, W, L, R> {
    ghost use Rattle.std.specs.Prelude.{◌≡◌};

    /// Nothing was written yet.
    pub fn new(rt: R, inner: W, line: Option<&'a Mutex<ProgressLine<L>>>) -> Beside<'a, W, L, R>
        ensures { result.inner ≡ inner }
    {
        Beside { inner, line, rt }
    }
}

impl<W: Write, L: Write, R: Wait> Write for Beside<'_, W, L, R> {
    ghost use Rattle.std.specs.Io.{WritesAtMost};
    ghost use Rattle.std.specs.Io.KnownBytes.{WriteAppends, Keeps};

    ghost contents = { λ b. W.contents b.inner };

    fn write(&mut self, buf: &[u8]) -> io::Result<usize>
        ensures bound { WritesAtMost result buf.now }
        ensures bytes { WriteAppends (W.contents self.old.inner) (W.contents self.new.inner) result
            buf.now }
    {
        let Some(line) = self.line else {
            return self.inner.write(buf);
        };
        let mut held = line.lock(&self.rt);
        // The line is a help alone: where it can't be cleared, what is written still counts.
        let _ = held.clear();
        self.inner.write(buf)
    }

    fn flush(&mut self) -> io::Result<()>
        ensures bytes { Keeps (W.contents self.old.inner) (W.contents self.new.inner) }
    {
        self.inner.flush()
    }
}
