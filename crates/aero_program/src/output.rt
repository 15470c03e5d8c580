//! Standard output, as a writer whose failures contracts can count.
ghost use Rattle.std.specs.Prelude.{◌≡◌, ◌+◌, if◌then◌else◌, is_err};
ghost use Rattle.std.specs.Io.KnownBytes.{Keeps};
ghost use Rattle.aero_model.specs.CallCounts.{faults_of};
ghost use Rattle.aero_program.specs.Streams.{stream_of, unflushed_of, writer_of};

use crate::lasting::Lasting;
use crate::retrying::Retrying;
use aero_model::Counting;
use aero_model::ghost_count::GhostCount;
use std::io;
use std::io::Write;

/// A writer that is to be flushed in the end. A write or a flush that is interrupted is tried again. Once a call has
/// failed otherwise, each later one fails with the same kind. Contracts count failed writes, as those of every
/// `Counting`, and failed flushes.
#[derive(Drop)]
pub struct Output<W> {
    pub(crate) writer: Counting<Lasting<Retrying<W>>>,
    unflushed: GhostCount,
}

impl<W: Write> Output<W> {
    /// Nothing has failed yet.
    pub fn new(inner: W) -> Output<W>
        ensures inner { stream_of result ≡ inner }
        ensures no_faults { faults_of (writer_of result) ≡ 0 }
        ensures none_unflushed { unflushed_of result ≡ 0 }
    {
        Output {
            writer: Counting::new(Lasting::new(Retrying::new(inner))),
            unflushed: GhostCount::zero(),
        }
    }

    /// What it was made of.
    pub fn into_inner(self) -> W
        ensures { result ≡ stream_of self }
    {
        let Output { writer, .. } = self;
        writer.into_inner().into_inner().into_inner()
    }

    /// Flushes the writer. Where a call has failed, this one does, and tells how the first did.
    pub(crate) fn flush(&mut self) -> io::Result<()>
        ensures bytes { Keeps (W.contents (stream_of self.old)) (W.contents (stream_of self.new)) }
        ensures faults { faults_of (writer_of self.new) ≡ faults_of (writer_of self.old) }
        ensures unflushed { unflushed_of self.new ≡
            unflushed_of self.old + (if is_err result then 1 else 0) }
    {
        let result = self.writer.flush();
        if result.is_err() {
            self.unflushed = GhostCount::after(&self.unflushed);
        }
        result
    }
}
