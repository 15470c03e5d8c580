//! Why a source couldn't be opened or read, in the system's words where it was asked.
ghost use Rattle.std.specs.Prelude.{◌≡◌};
ghost use Rattle.std.specs.IoError.{raw_os_error};
ghost use Rattle.aero_program.specs.Reasons.{reason_in, reason_words, system_words};

use std::io;

/// Why an open or a read failed.
#[derive(Clone, Copy, Debug, PartialEq, Eq)]
pub enum Reason {
    /// The system's number for it.
    System(u32),
    /// The system gave no number.
    Unnumbered,
    /// The system wasn't asked: the name isn't UTF-8, and only such names can be opened.
    NotUtf8,
}

impl Reason {
    /// The reason of an error.
    pub fn of(error: &io::Error) -> Reason
        ensures { result ≡ reason_in (raw_os_error error.now) }
    {
        match error.raw_os_error() {
            Some(number) if number >= 0 => Reason::System(number.unsigned_abs()),
            Some(_) | None => Reason::Unnumbered,
        }
    }

    /// What `strerror` says of it, or `Unknown error`, or that the name isn't UTF-8.
    pub fn words(self) -> &'static str
        ensures { result.now ≡ reason_words self }
    {
        match self {
            Reason::System(number) => words_of_number(number),
            Reason::Unnumbered => "Unknown error",
            Reason::NotUtf8 => "the name isn't UTF-8",
        }
    }
}

// Linux's numbers, on x86-64 and aarch64.
fn words_of_number(number: u32) -> &'static str
    ensures { result.now ≡ system_words number }
{
    match number {
        1 => "Operation not permitted",
        2 => "No such file or directory",
        4 => "Interrupted system call",
        5 => "Input/output error",
        6 => "No such device or address",
        9 => "Bad file descriptor",
        11 => "Resource temporarily unavailable",
        12 => "Cannot allocate memory",
        13 => "Permission denied",
        20 => "Not a directory",
        21 => "Is a directory",
        22 => "Invalid argument",
        23 => "Too many open files in system",
        24 => "Too many open files",
        36 => "File name too long",
        40 => "Too many levels of symbolic links",
        116 => "Stale file handle",
        _ => "Unknown error",
    }
}
