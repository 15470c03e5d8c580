//! Standard input or a file, as a reader that opens its file at the first read, and notes which file that
//! was, how its bytes begin, and why a read failed.
ghost use Rattle.std.specs.Prelude.{◌≡◌, ◌≢◌, ℕ, List, IfErr, IfOk, IfSome};
ghost use Rattle.std.specs.Io.{ReadsAtMost};
ghost use Rattle.std.specs.Io.KnownBytes.{Keeps, ReadConsumes};
ghost use Rattle.std.specs.IoError.{error_kind};
ghost use Rattle.std.specs.declared.io.ErrorKind.TheVariants.{Interrupted};

use crate::files::{Opened, Opener};
use crate::reason::Reason;
use crate::retrying::Retrying;
use crate::stamp::Stamp;
use crate::start::Start;
use std::alloc::{AllocError, Global};
use std::io::{ErrorKind, Read};
use std::snapshot::Snapshot;
use std::{io, mem};

/// A source of bytes: standard input, read by an `S`, or the file at a path, which an `O` opens.
///
/// Standard input is read for as long as somebody reads. A file is opened at the first read, and
/// closed where a read finds its end or fails, or by `close`. A read after the end gives 0 bytes; after a failed
/// open, a failed read or `close` each later read fails. So of many files that are read one
/// after the other, each to its end or until it is closed, one at most is open. An open or a read that is interrupted is
/// tried again.
#[derive(Drop)]
pub struct Input<S, O: Opener> {
    stage: Stage<S, O>,
    start: Start,
    reason: Option<Reason>,
}

// How far an input has come. A file that was opened had this stamp then, if it had one. Contracts alone see the path of one
// that couldn't be opened, and one that couldn't be read, or was closed, as it was then: what it has left stays known.
#[derive(Drop)]
enum Stage<S, O: Opener> {
    Standard(Retrying<S>),
    Unopened(O, String),
    Reading(O::File, Option<Stamp>),
    Ended(Option<Stamp>),
    // Its name isn't UTF-8.
    Unnamed,
    // An open failed so.
    Refused(ErrorKind, O, Snapshot<String>),
    // A read failed so.
    Failed(ErrorKind, Option<Stamp>, Snapshot<O::File>),
    // It was closed before its end was found or a read failed.
    Closed(Option<Stamp>, Snapshot<O::File>),
}

impl<S: Read + Drop, O: Opener + Drop> Input<S, O> {
    ghost use Rattle.std.specs.Prelude.{◌≡◌, [], Some, None, IfOk, bytes_eq, option_map, take};
    ghost use Rattle.aero_program.specs.Inputs.{closed_in, opened_of, shut, standing_of, start_of, reason_of, unopened, unread, IsStandardOf, Standard, Failed};
    ghost use Rattle.aero_program.specs.Retries.{seen_within};
    ghost use Rattle.aero_program.specs.declared.reason.Reason.TheVariants.{NotUtf8};
    ghost use Rattle.aero_program.specs.Starts.{byte_order_mark, gzip_mark};

    /// Standard input.
    pub fn standard(stdin: S) -> Input<S, O>
        ensures standing { standing_of S.remaining O.known O.File.remaining result ≡
            Standard (unread (S.remaining stdin)) }
        ensures start { start_of result ≡ [] }
        ensures reason { reason_of result ≡ None }
        ensures opened { opened_of result ≡ None }
    {
        Input {
            stage: Stage::Standard(Retrying::new(stdin)),
            start: Start::Nothing,
            reason: None,
        }
    }

    /// The file at the path, which isn't touched yet. `-` is a path like any other.
    pub fn path(alloc: Global, files: O, path: &str) -> Result<Input<S, O>, AllocError>
        ensures standing { IfOk result
            (λ input. standing_of S.remaining O.known O.File.remaining input ≡
            unopened (O.known files) path.now) }
        ensures start { IfOk result (λ input. start_of input ≡ []) }
        ensures reason { IfOk result (λ input. reason_of input ≡ None) }
        ensures opened { IfOk result (λ input. opened_of input ≡ None) }
    {
        let path = String::from_str(alloc, path)?;
        Ok(Input {
            stage: Stage::Unopened(files, path),
            start: Start::Nothing,
            reason: None,
        })
    }

    /// A file whose name isn't UTF-8, and which can't be opened for that.
    pub fn unnamed() -> Input<S, O>
        ensures standing { standing_of S.remaining O.known O.File.remaining result ≡ Failed None }
        ensures start { start_of result ≡ [] }
        ensures reason { reason_of result ≡ Some NotUtf8 }
        ensures opened { opened_of result ≡ None }
    {
        Input {
            stage: Stage::Unnamed,
            start: Start::Nothing,
            reason: Some(Reason::NotUtf8),
        }
    }

    /// Standard input, if it is that, as the reads of it have left it.
    pub fn into_standard(self) -> Option<Retrying<S>>
        ensures { IsStandardOf (standing_of S.remaining O.known O.File.remaining self)
            (option_map (seen_within S.remaining) result) }
    {
        let Input { stage, .. } = self;
        match stage {
            Stage::Standard(stdin) => Some(stdin),
            Stage::Unopened(_, _)
            | Stage::Reading(_, _)
            | Stage::Ended(_)
            | Stage::Unnamed
            | Stage::Refused(_, _, _)
            | Stage::Failed(_, _, _)
            | Stage::Closed(_, _) => None,
        }
    }

    /// Closes its file, if one is open. Nothing else changes, but that each later read of that file fails.
    pub fn close(&mut self)
        ensures standing { standing_of S.remaining O.known O.File.remaining self.new ≡
            shut (standing_of S.remaining O.known O.File.remaining self.old) }
        ensures start { start_of self.new ≡ start_of self.old }
        ensures reason { reason_of self.new ≡ reason_of self.old }
        ensures opened { opened_of self.new ≡ opened_of self.old }
    {
        self.stage = mem::replace(&mut self.stage, Stage::Ended(None)).closed();
    }

    /// Returns whether its file was closed by `close`, before a read found the end or failed.
    pub fn is_closed(&self) -> bool
        ensures { result ≡ closed_in
            (standing_of S.remaining O.known O.File.remaining self.now) }
    {
        match &self.stage {
            Stage::Closed(_, _) => true,
            Stage::Standard(_)
            | Stage::Unopened(_, _)
            | Stage::Reading(_, _)
            | Stage::Ended(_)
            | Stage::Unnamed
            | Stage::Refused(_, _, _)
            | Stage::Failed(_, _, _) => false,
        }
    }

    /// Whether the bytes that came begin with a byte order mark, EF BB BF.
    pub fn has_mark(&self) -> bool
        ensures { result ≡ bytes_eq (start_of self.now) byte_order_mark }
    {
        self.start.is_mark()
    }

    /// Whether the bytes that came begin as all that gzip makes, with 1F 8B.
    pub fn is_gzip(&self) -> bool
        ensures { result ≡ bytes_eq (take 2 (start_of self.now)) gzip_mark }
    {
        self.start.is_gzip()
    }

    /// Why the first read that failed did, if one did.
    pub fn reason(&self) -> Option<Reason>
        ensures { result ≡ reason_of self.now }
    {
        self.reason
    }

    /// The stamp that its file had when it was opened, if it is a plain file at a path and was opened.
    pub fn opened(&self) -> Option<Stamp>
        ensures { result ≡ opened_of self.now }
    {
        match &self.stage {
            Stage::Reading(_, stamp)
            | Stage::Ended(stamp)
            | Stage::Failed(_, stamp, _)
            | Stage::Closed(stamp, _) => *stamp,
            Stage::Standard(_) | Stage::Unopened(_, _) | Stage::Unnamed | Stage::Refused(_, _, _) =>
                None,
        }
    }
}

impl<S: Read + Drop, O: Opener + Drop> Read for Input<S, O> {
    ghost use Rattle.std.specs.Prelude.{ℕ, List, IfErr};
    ghost use Rattle.std.specs.Io.{ReadsAtMost};
    ghost use Rattle.std.specs.Io.KnownBytes.{ReadConsumes};
    ghost use Rattle.aero_program.specs.Inputs.{standing_of, bytes_left, opened_of, start_of, reason_of, MayFailFrom, OpensTo, StepsTo};
    ghost use Rattle.aero_program.specs.Starts.{start_after};
    ghost use Rattle.std.specs.IoError.{raw_os_error};
    ghost use Rattle.aero_program.specs.Reasons.{reason_after};

    ghost remaining = { λ input. bytes_left (standing_of S.remaining O.known O.File.remaining input) };

    fn read(&mut self, buf: &mut [u8]) -> io::Result<usize>
        ensures bound { ReadsAtMost result buf.new }
        ensures bytes { ReadConsumes (bytes_left
            (standing_of S.remaining O.known O.File.remaining self.old))
            (bytes_left (standing_of S.remaining O.known O.File.remaining self.new)) result buf.new }
        ensures steps { StepsTo O.can_open
            (standing_of S.remaining O.known O.File.remaining self.old)
            (standing_of S.remaining O.known O.File.remaining self.new) buf.new result }
        ensures failed { IfErr result (λ _.
            MayFailFrom O.can_fail (standing_of S.remaining O.known O.File.remaining self.old)) }
        ensures opened { OpensTo O.holds (standing_of S.remaining O.known O.File.remaining self.old)
            (opened_of self.old) (opened_of self.new) }
        ensures start { start_of self.new ≡ start_after (start_of self.old) result buf.new }
        ensures reason { reason_of self.new ≡ reason_after raw_os_error (reason_of self.old) result }
    {
        let (stage, outcome) = mem::replace(&mut self.stage, Stage::Ended(None)).read(buf);
        self.stage = stage;
        match &outcome {
            Ok(count) => self.start = self.start.after_all(&buf[..*count]),
            Err(error) => self.reason = self.reason.or(Some(Reason::of(error))),
        }
        outcome
    }
}

impl<S: Read + Drop, O: Opener + Drop> Stage<S, O> {
    ghost use Rattle.std.specs.Io.{ReadsAtMost};
    ghost use Rattle.std.specs.Io.KnownBytes.{ReadConsumes};
    ghost use Rattle.std.specs.Prelude.{◌≡◌, ℕ, List, IfErr};
    ghost use Rattle.aero_program.specs.Inputs.{shut, stage_standing, stage_opened, bytes_left, MayFailFrom, OpensTo, StepsTo, Leaves};

    // One read, and the stage after it.
    fn read(self, buf: &mut [u8]) -> (Stage<S, O>, io::Result<usize>)
        ensures bound { ReadsAtMost result.1 buf.new }
        ensures bytes { ReadConsumes (bytes_left
            (stage_standing S.remaining O.known O.File.remaining self))
            (bytes_left (stage_standing S.remaining O.known O.File.remaining result.0)) result.1
            buf.new }
        ensures steps { StepsTo O.can_open
            (stage_standing S.remaining O.known O.File.remaining self)
            (stage_standing S.remaining O.known O.File.remaining result.0) buf.new result.1 }
        ensures failed { IfErr result.1
            (λ _. MayFailFrom O.can_fail (stage_standing S.remaining O.known O.File.remaining self)) }
        ensures opened { OpensTo O.holds (stage_standing S.remaining O.known O.File.remaining self)
            (stage_opened self) (stage_opened result.0) }
    {
        match self {
            Stage::Standard(mut stdin) => {
                let outcome = stdin.read(buf);
                (Stage::Standard(stdin), outcome)
            }
            Stage::Unopened(files, path) => match open(&files, path.as_str()) {
                Ok(Opened { file, stamp }) => Stage::read_file(file, stamp, buf),
                Err(refusal) => (
                    Stage::Refused(refusal.kind(), files, Snapshot::of(&path)),
                    Err(refusal),
                ),
            },
            Stage::Reading(file, stamp) => Stage::read_file(file, stamp, buf),
            Stage::Ended(stamp) => (Stage::Ended(stamp), Ok(0)),
            Stage::Unnamed => (
                Stage::Unnamed,
                Err(io::Error::from(ErrorKind::InvalidFilename)),
            ),
            Stage::Refused(kind, files, path) => {
                (
                    Stage::Refused(kind, files, path),
                    Err(io::Error::from(kind)),
                )
            }
            Stage::Failed(kind, stamp, file) => {
                (Stage::Failed(kind, stamp, file), Err(io::Error::from(kind)))
            }
            Stage::Closed(stamp, file) => (
                Stage::Closed(stamp, file),
                Err(io::Error::from(ErrorKind::Other)),
            ),
        }
    }

    // The stage in which its file is closed, if one was open.
    fn closed(self) -> Stage<S, O>
        ensures standing { stage_standing S.remaining O.known O.File.remaining result ≡
            shut (stage_standing S.remaining O.known O.File.remaining self) }
        ensures opened { stage_opened result ≡ stage_opened self }
    {
        match self {
            Stage::Reading(file, stamp) => Stage::Closed(stamp, Snapshot::of(&file)),
            Stage::Standard(_)
            | Stage::Unopened(_, _)
            | Stage::Ended(_)
            | Stage::Unnamed
            | Stage::Refused(_, _, _)
            | Stage::Failed(_, _, _)
            | Stage::Closed(_, _) => self,
        }
    }

    // One read of an open file, which is closed where its end is found or the read fails.
    fn read_file(
        mut file: O::File,
        stamp: Option<Stamp>,
        buf: &mut [u8],
    ) -> (Stage<S, O>, io::Result<usize>)
        ensures bound { ReadsAtMost result.1 buf.new }
        ensures bytes { ReadConsumes (O.File.remaining file)
            (bytes_left (stage_standing S.remaining O.known O.File.remaining result.0)) result.1
            buf.new }
        ensures leaves { Leaves (stage_standing S.remaining O.known O.File.remaining result.0)
            buf.new result.1 }
        ensures failed { IfErr result.1 (λ _. (path : List ℕ) → O.can_fail path) }
        ensures opened { stage_opened result.0 ≡ stamp }
    {
        match read_on::<O>(&mut file, buf) {
            Err(error) => (
                Stage::Failed(error.kind(), stamp, Snapshot::of(&file)),
                Err(error),
            ),
            Ok(0) if !buf.is_empty() => (Stage::Ended(stamp), Ok(0)),
            Ok(count) => (Stage::Reading(file, stamp), Ok(count)),
        }
    }
}

// Opens a file. An open that is interrupted is tried again.
fn open<O: Opener>(files: &O, path: &str) -> io::Result<Opened<O::File>>
    ensures lasting { IfErr result (λ e. error_kind e ≢ Interrupted) }
    ensures worked { IfOk result (λ _. O.can_open path.now) }
    ensures failed { IfErr result (λ _. O.can_fail path.now) }
    ensures given { IfOk result (λ opened. Keeps (O.known files.now path.now)
        (O.File.remaining opened.file)) }
    ensures stamped { IfOk result (λ opened.
        IfSome opened.stamp (λ stamp. O.holds path.now stamp (O.File.remaining opened.file))) }
{
    for _ in 0..u64::MAX {
        match files.open(path) {
            Ok(opened) => return Ok(opened),
            Err(error) if error.kind() == ErrorKind::Interrupted => {}
            Err(error) => return Err(error),
        }
    }
    Err(io::Error::from(ErrorKind::Other))
}

// Reads an open file once. A read that is interrupted is tried again.
fn read_on<O: Opener>(file: &mut O::File, buf: &mut [u8]) -> io::Result<usize>
    ensures bound { ReadsAtMost result buf.new }
    ensures bytes { ReadConsumes (O.File.remaining file.old) (O.File.remaining file.new) result
        buf.new }
    ensures lasting { IfErr result (λ e. error_kind e ≢ Interrupted) }
    ensures failed { IfErr result (λ _. (path : List ℕ) → O.can_fail path) }
{
    for _ in 0..u64::MAX {
        match O::read_file(file, buf) {
            Ok(count) => return Ok(count),
            Err(error) if error.kind() == ErrorKind::Interrupted => {}
            Err(error) => return Err(error),
        }
    }
    Err(io::Error::from(ErrorKind::Other))
}
