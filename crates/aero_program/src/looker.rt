//! A second look at the faulty line of a file, once the run is over.
ghost use Rattle.std.specs.Prelude.{◌≡◌, ◌≢◌, IfErr, IfOk, IfSome};
ghost use Rattle.std.specs.IoError.{error_kind};
ghost use Rattle.std.specs.declared.io.ErrorKind.TheVariants.{Interrupted};

use crate::files::{Opened, Opener};
use crate::stamp::{Stamp, is_stamp};
use aero_batch::{Fault, FaultyLine};
use aero_faults::look::Look;
use aero_faults::reading::{ill_formed_look, line_at, malformed_look};
use aero_model::{LineFault, ShapeFault};
use std::alloc::Global;
use std::io::ErrorKind;
use std::{io, str};

/// Looks again at files that an `F` opens.
#[derive(Drop)]
pub struct Looker<'a, F> {
    pub(crate) alloc: Global,
    files: &'a F,
}

impl<'a, F: Opener> Looker<'a, F> {
    ghost use Rattle.std.specs.Prelude.{IfOk};
    ghost use Rattle.aero_program.specs.Looks.{IsSecondLook, ShowsAs};

    pub fn new(alloc: Global, files: &'a F) -> Looker<'a, F> {
        Looker { alloc, files }
    }

    /// What a second look shows at the faulty line of the source of this name, whose file had this stamp when it was
    /// opened: one without a fault, and one without a stamp, as standard input is, shows nothing.
    pub fn look(&self, name: &[u8], opened: Option<Stamp>, fault: Option<FaultyLine>) -> Look
        ensures { ShowsAs F.holds name.now opened fault result }
    {
        let Some(faulty) = fault else {
            return Look::Nothing;
        };
        let Some(stamp) = opened else {
            return Look::Nothing;
        };
        match str::from_utf8(name) {
            Ok(path) => self.look_at(path, stamp, faulty),
            Err(_) => Look::Nothing,
        }
    }

    /// What a second look shows at the faulty line of the file at the path: its line, or its event and what stands in
    /// its way. It shows nothing where the file hasn't this stamp, before, at each open and afterwards: so another
    /// file at the path, and one that was written to, are never told of. Nor does it where an open or a read fails,
    /// where memory is refused, or where the line hasn't the fault.
    pub fn look_at(&self, path: &str, stamp: Stamp, faulty: FaultyLine) -> Look
        ensures { IsSecondLook (F.can_open path.now) (F.holds path.now stamp) faulty result }
    {
        if !is_shown(faulty.fault) || !self.is_same(path, stamp) {
            return Look::Nothing;
        }
        match self.seen_at(path, stamp, faulty) {
            Ok(look) if self.is_same(path, stamp) => look,
            Ok(_) | Err(_) => Look::Nothing,
        }
    }

    // Whether a plain file is at the path now that has this stamp.
    fn is_same(&self, path: &str, stamp: Stamp) -> bool {
        is_stamp(self.files.look(path), stamp)
    }

    // The same of a file that can be read.
    fn seen_at(&self, path: &str, stamp: Stamp, faulty: FaultyLine) -> io::Result<Look>
        ensures { IfOk result (IsSecondLook (F.can_open path.now) (F.holds path.now stamp) faulty) }
    {
        let FaultyLine { line, fault } = faulty;
        if line == 0 {
            return Ok(Look::Nothing);
        }
        let file = open_same(self.files, path, stamp)?;
        let Some(bytes) = line_at(self.alloc, file, line)? else {
            return Ok(Look::Nothing);
        };
        match fault {
            Fault::Malformed(fault) => Ok(malformed_look(self.alloc, fault, bytes)),
            Fault::IllFormed(fault) => {
                let file = open_same(self.files, path, stamp)?;
                let look = ill_formed_look(self.alloc, file, line, &bytes, fault)?;
                Ok(look)
            }
        }
    }
}

// Whether a look at the lines can show more of the fault than its words say.
fn is_shown(fault: Fault) -> bool {
    match fault {
        Fault::Malformed(LineFault::TooManyLines | LineFault::Memory) => false,
        Fault::IllFormed(
            ShapeFault::TooManyThreads | ShapeFault::TooManyNames | ShapeFault::Memory,
        ) => false,
        Fault::Malformed(_) | Fault::IllFormed(_) => true,
    }
}

// Opens the file again that had this stamp. Where what is opened has another, there is no such file any more.
fn open_same<F: Opener>(files: &F, path: &str, stamp: Stamp) -> io::Result<F::File>
    ensures lasting { IfErr result (λ e. error_kind e ≢ Interrupted) }
    ensures worked { IfOk result (λ _. F.can_open path.now) }
    ensures held { IfOk result (λ file. F.holds path.now stamp (F.File.remaining file)) }
{
    let opened = open_again(files, path)?;
    if is_stamp(opened.stamp, stamp) {
        Ok(opened.file)
    } else {
        Err(io::Error::from(ErrorKind::NotFound))
    }
}

// Opens a file again. An open that is interrupted is tried again.
fn open_again<F: Opener>(files: &F, path: &str) -> io::Result<Opened<F::File>>
    ensures lasting { IfErr result (λ e. error_kind e ≢ Interrupted) }
    ensures worked { IfOk result (λ _. F.can_open path.now) }
    ensures stamped { IfOk result (λ opened.
        IfSome opened.stamp (λ stamp. F.holds path.now stamp (F.File.remaining opened.file))) }
{
    for _ in 0..u64::MAX {
        match files.open_again(path) {
            Ok(opened) => return Ok(opened),
            Err(error) if error.kind() == ErrorKind::Interrupted => {}
            Err(error) => return Err(error),
        }
    }
    Err(io::Error::from(ErrorKind::Other))
}
