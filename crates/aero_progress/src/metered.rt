//! A reader that tells a meter what is read, and a writer that tells it what is out.
use crate::gain::{ends_text, gain_of};
use crate::meter::Meter;
use std::io;
use std::io::{Read, Write};

/// A reader of one source or a writer of texts, which hands each call on to what it was made of, and tells the
/// meter, if it has one, what came or went out. Of reads after the source has been read nothing is told. A text is
/// out with the write that takes all that it was handed, where what is left of a text is handed over each time.
#[derive(Drop)]
pub struct Metered<'a, T> {
    /// A read or a write of it by other means than this one's is told by `note_read`, or isn't told.
    pub inner: T,
    meter: Option<&'a Meter>,
}

impl<'a, T> Metered<'a, T> {
    ghost use Rattle.std.specs.Prelude.{◌≡◌};

    /// Nothing was read or written yet.
    pub fn new(inner: T, meter: Option<&'a Meter>) -> Metered<'a, T>
        ensures { result.inner ≡ inner }
    {
        Metered { inner, meter }
    }

    /// Tells the meter of a read of the one within that asked for so many bytes, and had this outcome.
    pub fn note_read(&mut self, outcome: &io::Result<usize>, asked: usize)
        ensures { self.new.inner ≡ self.old.inner }
    {
        let Some(meter) = self.meter else {
            return;
        };
        let gain = gain_of(outcome, asked);
        meter.add(gain);
        if gain.ends {
            self.meter = None;
        }
    }
}

impl<R: Read> Read for Metered<'_, R> {
    ghost use Rattle.std.specs.Io.{ReadsAtMost};
    ghost use Rattle.std.specs.Io.KnownBytes.{ReadConsumes};

    ghost remaining = { λ m. R.remaining m.inner };

    fn read(&mut self, buf: &mut [u8]) -> io::Result<usize>
        ensures bound { ReadsAtMost result buf.new }
        ensures bytes { ReadConsumes (R.remaining self.old.inner) (R.remaining self.new.inner)
            result buf.new }
    {
        let asked = buf.len();
        let outcome = self.inner.read(buf);
        self.note_read(&outcome, asked);
        outcome
    }
}

impl<W: Write> Write for Metered<'_, W> {
    ghost use Rattle.std.specs.Io.{WritesAtMost};
    ghost use Rattle.std.specs.Io.KnownBytes.{WriteAppends, Keeps};

    ghost contents = { λ m. W.contents m.inner };

    fn write(&mut self, buf: &[u8]) -> io::Result<usize>
        ensures bound { WritesAtMost result buf.now }
        ensures bytes { WriteAppends (W.contents self.old.inner) (W.contents self.new.inner) result
            buf.now }
    {
        let outcome = self.inner.write(buf);
        if let Some(meter) = self.meter {
            if ends_text(&outcome, buf.len()) {
                meter.add_text();
            }
        }
        outcome
    }

    fn flush(&mut self) -> io::Result<()>
        ensures bytes { Keeps (W.contents self.old.inner) (W.contents self.new.inner) }
    {
        self.inner.flush()
    }
}
