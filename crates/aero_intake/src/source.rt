//! What is read.
use aero_model::Counting;
use std::io;
use std::io::Read;

/// A reader of which contracts see how many reads failed and found the end, beside the bytes that it has left, and what it
/// says of itself: what it was made for, which bytes it gave, and whether a file of it is open. Any reader is one within a
/// `Counting`: it says nothing of itself then, and opens no file that this crate could close.
pub trait Followed {
    ghost use Rattle.std.specs.Prelude.{◌≡◌, ◌+◌, if◌then◌else◌, is_err, false, true};
    ghost use Rattle.std.specs.Io.{ReadsAtMost};
    ghost use Rattle.std.specs.Io.KnownBytes.{ReadConsumes};
    ghost use Rattle.aero_model.specs.CallCounts.{moves_nothing};
    ghost use Rattle.aero_intake.specs.Source.{faults_by, gained, is_last_read, Closes, Sight, Trails};

    ghost sight: { Self → Sight };

    /// One read, as that of std's `Read`.
    fn read(&mut self, buf: &mut [u8]) -> io::Result<usize>
        ensures bound { ReadsAtMost result buf.new }
        ensures bytes { ReadConsumes (sight self.old).bytes (sight self.new).bytes result buf.new }
        ensures faults { (sight self.new).faults ≡
            (sight self.old).faults + faults_by (is_err result) (sight self.old).closed }
        ensures ends { (sight self.new).ends ≡
            (sight self.old).ends + (if moves_nothing result buf.new then 1 else 0) }
        ensures trail { Trails (sight self.old).trail (sight self.new).trail (gained result buf.new) }
        ensures shut { is_last_read result buf.new ≡ true → (sight self.new).is_open ≡ false }
        ensures closed { (sight self.new).closed ≡ (sight self.old).closed };

    /// Closes the file that is open of it, if one is. Nothing is to be read of it afterwards: what a read would give isn't said.
    fn close(&mut self)
        ensures { Closes (sight self.old) (sight self.new) };
}

impl<R: Read> Followed for Counting<R> {
    ghost use Rattle.aero_intake.specs.Source.{counted};

    ghost sight = { counted R.remaining };

    #[inline(always)]
    fn read(&mut self, buf: &mut [u8]) -> io::Result<usize> {
        Read::read(self, buf)
    }

    #[inline(always)]
    fn close(&mut self) {}
}

/// A source: the name that it has in the report, whatever its bytes, and the reader of its text.
#[derive(Drop)]
pub struct SourceOf<R> {
    pub name: Vec<u8>,
    pub reader: R,
    /// Whether a read of it may wait for bytes that are still to be made, as one from a pipe does. What
    /// is asked about the sources before it is then told before its first read. No other clause looks
    /// at it: it changes when a line is written, and not what it says.
    pub may_wait: bool,
}

/// A source whose text any reader reads.
pub type Source<R> = SourceOf<Counting<R>>;
