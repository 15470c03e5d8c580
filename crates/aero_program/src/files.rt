//! The files of a run, which tell a meter what is read of them.
ghost use Rattle.std.specs.Prelude.{◌≡◌, ℕ, List, Option, None, IfErr, IfOk, IfSome, ⊤};
ghost use Rattle.std.specs.Io.{ReadsAtMost};
ghost use Rattle.std.specs.Io.KnownBytes.{Keeps, ReadConsumes};
ghost use Rattle.aero_program.specs.Sizes.{MayBear};
ghost use Rattle.aero_program.specs.declared.stamp.Stamp.{Stamp};

use crate::stamp::{Stamp, stamp_in, stamp_of};
use aero_progress::gain::gain_of_failure;
use aero_progress::meter::Meter;
use aero_progress::metered::Metered;
use aero_progress::reached::Work;
use std::fs::File;
use std::io::Read;
use std::rt::Files;
use std::{fs, io};

/// A file that was opened, to be read from its start, and its stamp then, if it is a plain one and has one.
#[derive(Drop)]
pub struct Opened<T> {
    pub file: T,
    pub stamp: Option<Stamp>,
}

/// What a run needs of files. Its ghost member `can_open` says of which paths an open may work, `can_fail` of which an open may
/// fail, or a read of the file that it gave, `known` which bytes each file has that is opened at a path, where they are known,
/// and `holds` which bytes a file may have that was opened at a path and bore a stamp, also when it is opened again.
pub trait Opener {
    ghost can_open: { List ℕ → Type 0 };

    ghost can_fail: { List ℕ → Type 0 } = { λ _. ⊤ };

    ghost known: { Self → List ℕ → Option (List ℕ) } = { λ _ _. None };

    ghost holds: { List ℕ → Stamp → Option (List ℕ) → Type 0 };

    type File: Read + Drop;

    /// Opens the file at the path, to be read from its start.
    fn open(&self, path: &str) -> io::Result<Opened<Self::File>>
        ensures worked { IfOk result (λ _. can_open path.now) }
        ensures failed { IfErr result (λ _. can_fail path.now) }
        ensures given { IfOk result (λ opened. Keeps (known self.now path.now)
            (Self.File.remaining opened.file)) }
        ensures stamped { IfOk result (λ opened.
            IfSome opened.stamp (λ stamp. holds path.now stamp (Self.File.remaining opened.file))) };

    /// One read of a file that `open` gave, as that of std's `Read`. Contracts don't see at which path it was opened: a read
    /// fails only if a file may fail wherever it is.
    fn read_file(file: &mut Self::File, buf: &mut [u8]) -> io::Result<usize>
        ensures bound { ReadsAtMost result buf.new }
        ensures bytes { ReadConsumes (Self.File.remaining file.old) (Self.File.remaining file.new)
            result buf.new }
        ensures failed { IfErr result (λ _. (path : List ℕ) → can_fail path) };

    /// Opens it again once the run is over, which no meter hears of.
    fn open_again(&self, path: &str) -> io::Result<Opened<Self::File>>
        ensures worked { IfOk result (λ _. can_open path.now) }
        ensures stamped { IfOk result (λ opened.
            IfSome opened.stamp (λ stamp. holds path.now stamp (Self.File.remaining opened.file))) };

    /// Looks for a plain file at the path, of which no read waits, and returns its stamp, or `None` if there is no such file or
    /// its stamp can't be told.
    fn look(&self, path: &str) -> Option<Stamp>
        ensures found { IfSome result (MayBear holds path.now) };

    /// Hears how much there is to do, once each file of a run was looked at. All that was read before is of no source. It is for
    /// a meter alone, if there is one.
    fn begin(&self, _work: Work) {}
}

impl<O: Opener> Opener for &O {
    ghost can_open = { O.can_open };

    ghost can_fail = { O.can_fail };

    ghost known = { λ o path. O.known o.now path };

    ghost holds = { O.holds };

    type File = O::File;

    fn open(&self, path: &str) -> io::Result<Opened<O::File>> {
        (**self).open(path)
    }

    fn read_file(file: &mut O::File, buf: &mut [u8]) -> io::Result<usize> {
        O::read_file(file, buf)
    }

    fn open_again(&self, path: &str) -> io::Result<Opened<O::File>> {
        (**self).open_again(path)
    }

    fn look(&self, path: &str) -> Option<Stamp> {
        (**self).look(path)
    }

    fn begin(&self, work: Work) {
        (**self).begin(work)
    }
}

/// The files that an `F` reaches, as a runtime does.
#[derive(Drop)]
pub struct FilesOf<F> {
    files: F,
}

impl<F: Files> FilesOf<F> {
    pub fn new(files: F) -> FilesOf<F> {
        FilesOf { files }
    }
}

impl<F: Files> Opener for FilesOf<F> {
    // Of the system's files nothing is known.
    ghost can_open = { λ _. ⊤ };

    ghost can_fail = { λ _. ⊤ };

    ghost known = { λ _ _. None };

    ghost holds = { λ _ _ _. ⊤ };

    type File = F::File;

    fn open(&self, path: &str) -> io::Result<Opened<F::File>> {
        let file = File::open(&self.files, path)?;
        let stamp = stamp_of(&file);
        Ok(Opened { file, stamp })
    }

    fn read_file(file: &mut F::File, buf: &mut [u8]) -> io::Result<usize> {
        file.read(buf)
    }

    fn open_again(&self, path: &str) -> io::Result<Opened<F::File>> {
        self.open(path)
    }

    fn look(&self, path: &str) -> Option<Stamp> {
        let metadata = fs::metadata(&self.files, path).ok()?;
        stamp_in(&metadata)
    }
}

/// The files that an `O` opens, each of which is one source: it tells the meter, if there is one, what
/// is read of it, and that it has been read where it can't be opened. One that is opened again tells nothing.
#[derive(Drop)]
pub struct MeteredFiles<'a, O> {
    opener: O,
    meter: Option<&'a Meter>,
}

impl<'a, O: Opener> MeteredFiles<'a, O> {
    pub fn new(opener: O, meter: Option<&'a Meter>) -> MeteredFiles<'a, O> {
        MeteredFiles { opener, meter }
    }
}

impl<'a, O: Opener> Opener for MeteredFiles<'a, O> {
    ghost can_open = { O.can_open };

    ghost can_fail = { O.can_fail };

    ghost known = { λ o path. O.known o.opener path };

    ghost holds = { O.holds };

    type File = Metered<'a, O::File>;

    fn open(&self, path: &str) -> io::Result<Opened<Metered<'a, O::File>>> {
        match self.opener.open(path) {
            Ok(opened) => Ok(metered(opened, self.meter)),
            Err(error) => {
                if let Some(meter) = self.meter {
                    meter.add(gain_of_failure(&error));
                }
                Err(error)
            }
        }
    }

    fn read_file(file: &mut Metered<'a, O::File>, buf: &mut [u8]) -> io::Result<usize> {
        let asked = buf.len();
        let outcome = O::read_file(&mut file.inner, buf);
        file.note_read(&outcome, asked);
        outcome
    }

    fn open_again(&self, path: &str) -> io::Result<Opened<Metered<'a, O::File>>> {
        let opened = self.opener.open_again(path)?;
        Ok(metered(opened, None))
    }

    fn look(&self, path: &str) -> Option<Stamp> {
        self.opener.look(path)
    }

    fn begin(&self, work: Work) {
        if let Some(meter) = self.meter {
            meter.begin(work);
        }
    }
}

// A file that tells the meter, if there is one, what is read of it.
fn metered<T: Drop>(opened: Opened<T>, meter: Option<&Meter>) -> Opened<Metered<'_, T>>
    ensures file { result.file.inner ≡ opened.file }
    ensures stamp { result.stamp ≡ opened.stamp }
{
    let Opened { file, stamp } = opened;
    Opened {
        file: Metered::new(file, meter),
        stamp,
    }
}
