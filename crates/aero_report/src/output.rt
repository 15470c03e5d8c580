//! Writing a text whole.
ghost use Rattle.std.specs.Prelude.{◌≡◌, ◌+◌, ◌<◌, length, take, OnOk, IfErr, OnErr};
ghost use Rattle.std.specs.Io.KnownBytes.{Appends};
ghost use Rattle.aero_model.specs.CallCounts.{inner_of, faults_of, ends_of};

use aero_model::Counting;
use std::io::Write;

/// Where a text was cut off: its first `written` bytes went out, which is not all of it.
#[derive(Clone, Copy, Debug, PartialEq, Eq)]
pub struct Cut {
    pub written: usize,
}

/// Writes the whole text, in as many writes as the writer needs; an empty text makes none.
///
/// Stops with a `Cut` at the first write that fails, of whatever kind (an interrupted one too), or
/// that takes nothing. After a `Cut` the text's first `written` bytes are out, and no more; the
/// writer can be used again. Nothing is flushed.
pub fn put<W: Write>(writer: &mut Counting<W>, text: &[u8]) -> Result<(), Cut>
    ensures all_written { OnOk result (Appends (W.contents (inner_of writer.old))
        (W.contents (inner_of writer.new)) text.now) }
    ensures no_fault { OnOk result (faults_of writer.new ≡ faults_of writer.old) }

    ensures cut_written { IfErr result (λ cut. Appends (W.contents (inner_of writer.old))
        (W.contents (inner_of writer.new)) (take cut.written text.now)) }
    ensures cut_short { IfErr result (λ cut. cut.written < length text.now) }
    ensures cut_at_fault { OnErr result (faults_of writer.new ≡ faults_of writer.old + 1) }

    ensures same_ends { ends_of writer.new ≡ ends_of writer.old }
{
    let mut written = 0;
    while written < text.len() {
        let taken = writer.write(&text[written..]).unwrap_or(0);
        if taken == 0 {
            return Err(Cut { written });
        }
        written += taken;
    }
    Ok(())
}
