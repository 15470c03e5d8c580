//! What one read of a source adds to what was read, and one write of a report to what was told.
ghost use Rattle.std.specs.Prelude.{◌≡◌, ◌↔◌, IfErr, IfOk, false};
ghost use Rattle.std.specs.IoError.{error_kind};
ghost use Rattle.std.specs.declared.io.ErrorKind.TheVariants.{Interrupted};
ghost use Rattle.aero_progress.specs.Gains.{bytes_in, finds_end, takes_all};

use std::io;
use std::io::ErrorKind;

/// What one read adds: so many bytes, and whether the source has been read with it.
#[derive(Clone, Copy, Debug, PartialEq, Eq)]
pub struct Gain {
    pub bytes: u64,
    pub ends: bool,
}

/// What a read adds that asked for `asked` bytes. A source has been read where the read finds its end,
/// or fails otherwise than by an interruption.
pub fn gain_of(outcome: &io::Result<usize>, asked: usize) -> Gain
    ensures bytes { result.bytes ≡ bytes_in outcome.now }
    ensures ends { IfOk outcome.now (λ count. result.ends ≡ finds_end count asked) }
    ensures fails { IfErr outcome.now (λ error. result.ends ≡ false ↔ error_kind error ≡
        Interrupted) }
{
    match outcome {
        Ok(count) => Gain {
            bytes: *count as u64,
            ends: *count == 0 && asked > 0,
        },
        Err(error) => gain_of_failure(error),
    }
}

/// What a failed read, or a failed open, adds.
pub fn gain_of_failure(error: &io::Error) -> Gain
    ensures bytes { result.bytes ≡ 0 }
    ensures ends { result.ends ≡ false ↔ error_kind error.now ≡ Interrupted }
{
    Gain {
        bytes: 0,
        ends: error.kind() != ErrorKind::Interrupted,
    }
}

/// Whether a write ends a text, of which all its calls hand over what is left: it took all the bytes, at least one,
/// of the `handed`.
pub fn ends_text(outcome: &io::Result<usize>, handed: usize) -> bool
    ensures { result ≡ takes_all outcome.now handed }
{
    match outcome {
        Ok(count) => *count == handed && handed > 0,
        Err(_) => false,
    }
}
