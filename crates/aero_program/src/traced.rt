//! An input of which contracts see what it was made for, and which bytes it gave.
ghost use Rattle.std.specs.Prelude.{◌≡◌, ◌+◌, [], None, if◌then◌else◌, is_err};
ghost use Rattle.std.specs.Io.{ReadsAtMost};
ghost use Rattle.aero_model.specs.CallCounts.{moves_nothing};
ghost use Rattle.aero_intake.specs.Source.{gained};
ghost use Rattle.aero_program.specs.Inputs.{opened_of, reason_of, standing_of, start_of};
ghost use Rattle.aero_program.specs.Led.{IsLed, IsUnread, place_of, reason_at, sight_at};

use crate::files::Opener;
use crate::ghost_text::GhostText;
use crate::input::Input;
use aero_intake::Followed;
use aero_model::ghost_count::GhostCount;
use std::io;
use std::io::{ErrorKind, Read};
use std::snapshot::Snapshot;

/// An input, and how it was at first, which bytes it gave, and how many of its reads failed and found the end, which contracts
/// alone see. What it has noted is of these bytes, and of these reads: its ghost field says so of each. It hands each
/// read on until it is closed. Afterwards each read fails, which counts as no failed read of the input.
#[derive(Drop)]
pub struct Traced<S: Read, O: Opener> {
    input: Input<S, O>,
    first: Snapshot<Input<S, O>>,
    given: GhostText,
    faults: GhostCount,
    ends: GhostCount,
    ghost led: { ∥ IsLed S.remaining O.known O.File.remaining O.can_fail O.holds first.value input given.bytes faults.number ends.number ∥₁ },
}

impl<S: Read + Drop, O: Opener + Drop> Traced<S, O> {
    // An input that was just made.
    pub(crate) fn new(input: Input<S, O>) -> Traced<S, O>
        requires start { start_of input ≡ [] }
        requires reason { reason_of input ≡
            reason_at (place_of (standing_of S.remaining O.known O.File.remaining input)) }
        requires opened { opened_of input ≡ None }
        requires unread { IsUnread (standing_of S.remaining O.known O.File.remaining input) }
        ensures input { result.input ≡ input }
        ensures first { result.first.value ≡ input }
        ensures given { result.given.bytes ≡ [] }
        ensures faults { result.faults.number ≡ 0 }
        ensures ends { result.ends.number ≡ 0 }
    {
        let first = Snapshot::of(&input);
        Traced {
            input,
            first,
            given: GhostText::none(),
            faults: GhostCount::zero(),
            ends: GhostCount::zero(),
        }
    }

    /// The input.
    pub fn input(&self) -> &Input<S, O>
        ensures { result.now ≡ self.now.input }
    {
        &self.input
    }

    /// What it was made of.
    pub fn into_inner(self) -> Input<S, O>
        ensures { result ≡ self.input }
    {
        let Traced { input, .. } = self;
        input
    }
}

impl<S: Read + Drop, O: Opener + Drop> Followed for Traced<S, O> {
    ghost sight = { λ t. sight_at S.remaining O.known O.File.remaining t.first.value t.input t.given.bytes t.faults.number t.ends.number };

    fn read(&mut self, buf: &mut [u8]) -> io::Result<usize> {
        if self.input.is_closed() {
            return Err(io::Error::from(ErrorKind::Other));
        }
        let result = self.input.read(buf);
        self.given = GhostText::with(&self.given, came(&result, buf));
        count_failure(&result, &mut self.faults);
        count_end(&result, buf, &mut self.ends);
        result
    }

    fn close(&mut self) {
        self.input.close();
    }
}

// The bytes that a read gave, into this buffer.
fn came<'b>(answer: &io::Result<usize>, buf: &'b [u8]) -> &'b [u8]
    requires { ReadsAtMost answer.now buf.now }
    ensures { result.now ≡ gained answer.now buf.now }
{
    match answer {
        Ok(count) => &buf[..*count],
        Err(_) => &[],
    }
}

// Counts a read that failed.
fn count_failure(answer: &io::Result<usize>, faults: &mut GhostCount)
    ensures { faults.new.number ≡ faults.old.number + (if is_err answer.now then 1 else 0) }
{
    match answer {
        Ok(_) => {}
        Err(_) => *faults = GhostCount::after(faults),
    }
}

// Counts a read that found the end.
fn count_end(answer: &io::Result<usize>, buf: &[u8], ends: &mut GhostCount)
    ensures { ends.new.number ≡ ends.old.number +
        (if moves_nothing answer.now buf.now then 1 else 0) }
{
    match answer {
        Ok(count) => {
            if *count == 0 && !buf.is_empty() {
                *ends = GhostCount::after(ends);
            }
        }
        Err(_) => {}
    }
}
