//! A writer whose first failure lasts.
ghost use Rattle.std.specs.Prelude.{◌≡◌};
ghost use Rattle.std.specs.IoError.{error_kind};
ghost use Rattle.aero_program.specs.Faults.{fault_of, write_fault_of};

use std::io;
use std::io::{ErrorKind, Write};

// A writer that hands each call on to what it was made of, until one fails: from then on each call fails with the
// kind of that one, and none is handed on. So no byte is written behind one that wasn't, and the flush in the end
// tells how the first failure was. A write that takes nothing of at least one byte is a failure too, of the kind
// `ErrorKind::WriteZero`.
#[derive(Drop)]
pub(crate) struct Lasting<W> {
    inner: W,
    first: Option<ErrorKind>,
}

impl<W> Lasting<W> {
    ghost use Rattle.std.specs.Prelude.{◌≡◌, None};
    ghost use Rattle.aero_program.specs.Faults.{kept_by, first_of};

    // Nothing has failed yet.
    pub(crate) fn new(inner: W) -> Lasting<W>
        ensures inner { kept_by result ≡ inner }
        ensures none { first_of result ≡ None }
    {
        Lasting { inner, first: None }
    }

    // What it was made of.
    pub(crate) fn into_inner(self) -> W
        ensures { result ≡ kept_by self }
    {
        let Lasting { inner, .. } = self;
        inner
    }
}

impl<W: Write> Write for Lasting<W> {
    ghost use Rattle.std.specs.Prelude.{◌≡◌, IfSome, IsErrAnd};
    ghost use Rattle.std.specs.Io.{WritesAtMost};
    ghost use Rattle.std.specs.Io.KnownBytes.{WriteAppends, Keeps};
    ghost use Rattle.std.specs.IoError.{error_kind};
    ghost use Rattle.aero_program.specs.Faults.{kept_by, first_of, fault_of, first_fault, write_fault_of};

    ghost contents = { λ w. W.contents (kept_by w) };

    fn write(&mut self, buf: &[u8]) -> io::Result<usize>
        ensures bound { WritesAtMost result buf.now }
        ensures bytes { WriteAppends (W.contents (kept_by self.old)) (W.contents (kept_by self.new))
            result buf.now }
        ensures first { first_of self.new ≡ first_fault (first_of self.old)
            (write_fault_of error_kind result buf.now) }
        ensures lasting { IfSome (first_of self.old)
            (λ kind. IsErrAnd result (λ e. error_kind e ≡ kind)) }
    {
        if let Some(kind) = self.first {
            return Err(io::Error::from(kind));
        }
        let result = self.inner.write(buf);
        self.first = write_fault(&result, buf);
        result
    }

    fn flush(&mut self) -> io::Result<()>
        ensures bytes { Keeps (W.contents (kept_by self.old)) (W.contents (kept_by self.new)) }
        ensures first { first_of self.new ≡ first_fault (first_of self.old)
            (fault_of error_kind result) }
        ensures lasting { IfSome (first_of self.old)
            (λ kind. IsErrAnd result (λ e. error_kind e ≡ kind)) }
        ensures told { fault_of error_kind result ≡ first_of self.new }
    {
        if let Some(kind) = self.first {
            return Err(io::Error::from(kind));
        }
        let result = self.inner.flush();
        self.first = flush_fault(&result);
        result
    }
}

// How a write of these bytes failed, if it did.
fn write_fault(written: &io::Result<usize>, buf: &[u8]) -> Option<ErrorKind>
    ensures { result ≡ write_fault_of error_kind written.now buf.now }
{
    match written {
        Ok(0) if !buf.is_empty() => Some(ErrorKind::WriteZero),
        Ok(_) => None,
        Err(error) => Some(error.kind()),
    }
}

// How a flush failed, if it did.
pub(crate) fn flush_fault(flushed: &io::Result<()>) -> Option<ErrorKind>
    ensures { result ≡ fault_of error_kind flushed.now }
{
    match flushed {
        Ok(()) => None,
        Err(error) => Some(error.kind()),
    }
}
