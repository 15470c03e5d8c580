//! Why the program stops without a whole report, apart from what the words' reader says itself.
ghost use Rattle.std.specs.Prelude.{◌≡◌, IfOk};
ghost use Rattle.aero_program.specs.Failure.{cut_failure, failure_status, line_of, word_line, write_failure};

use aero_report::shown::append_text;
use std::alloc::{AllocError, Global};
use std::io::ErrorKind;

/// Why the program stops without a whole report. For each but `Closed` it writes one line to standard error.
#[derive(Clone, Copy, Debug, PartialEq, Eq)]
pub enum Failure {
    /// Memory was refused.
    Memory,
    /// A write to standard output failed or took nothing, or the flush failed.
    Write,
    /// Standard output is a pipe whose reader has gone.
    Closed,
    /// The command line names more than 65,536 files.
    TooManyFiles,
    /// The command line gives as a label what is none.
    BadLabel,
    /// The command line gives more than 64 labels.
    TooManyLabels,
    /// A word of the command line is not UTF-8, and memory was refused for the line that names it.
    NotUtf8,
}

impl Failure {
    /// Why a write or a flush of standard output that failed so stops the program.
    pub fn of_write(kind: ErrorKind) -> Failure
        ensures { result ≡ write_failure kind }
    {
        match kind {
            ErrorKind::BrokenPipe => Failure::Closed,
            _ => Failure::Write,
        }
    }

    /// Why a write that failed does, where this is how the flush after it did.
    pub fn of_cut(flush: Option<ErrorKind>) -> Failure
        ensures { result ≡ cut_failure flush }
    {
        match flush {
            Some(kind) => Failure::of_write(kind),
            None => Failure::Write,
        }
    }

    /// The line on standard error, with its line end; nothing of `Closed`.
    pub fn line(self) -> &'static str
        ensures { result.now ≡ line_of self }
    {
        match self {
            Failure::Memory => "aerodrome: out of memory\n",
            Failure::Write => "aerodrome: write failed\n",
            Failure::Closed => "",
            Failure::TooManyFiles => "aerodrome: more than 65536 files\n",
            Failure::BadLabel => "aerodrome: not a label\n",
            Failure::TooManyLabels => "aerodrome: more than 64 labels\n",
            Failure::NotUtf8 => "aerodrome: a word is not UTF-8\n",
        }
    }

    /// The exit status: 3 for a refused command line, else 4.
    pub fn status(self) -> u8
        ensures { result ≡ failure_status self }
    {
        match self {
            Failure::TooManyFiles | Failure::BadLabel | Failure::TooManyLabels | Failure::NotUtf8 =>
                3,
            Failure::Memory | Failure::Write | Failure::Closed => 4,
        }
    }
}

impl From<AllocError> for Failure {
    ghost use Rattle.std.specs.Prelude.{◌≡◌};
    ghost use Rattle.aero_program.specs.declared.failure.Failure.{Failure};
    ghost use Rattle.aero_program.specs.declared.failure.Failure.TheVariants.{Memory};

    ghost from_gives = { λ _ failure. failure ≡ Memory };

    fn from(_error: AllocError) -> Failure {
        Failure::Memory
    }
}

// What stands behind a word that isn't UTF-8. No file of such a name can be opened.
const WAY_OUT: &[u8] =
    b"\naerodrome: to judge a file of this name, run aerodrome < FILE; a list for --files0-from may have such names, and its other files are judged\n";

/// The lines on a word of the command line that isn't UTF-8, with their line ends. The first has the word, which is shown
/// without control characters, and each byte that is no character as `\xNN`. The second says how files are judged of which
/// one has such a name.
///
/// # Errors
///
/// `AllocError` where memory is refused.
pub fn odd_word_line(alloc: Global, word: &[u8]) -> Result<Vec<u8>, AllocError>
    ensures { IfOk result (λ line. line.items ≡ word_line word.now) }
{
    let mut line = Vec::from_slice(alloc, b"aerodrome: a word is not UTF-8: ")?;
    append_text(&mut line, word)?;
    line.extend_from_slice(WAY_OUT)?;
    Ok(line)
}
