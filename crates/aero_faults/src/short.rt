//! A reader of lines that are no longer than a line may be.
ghost use Rattle.std.specs.Prelude.{◌≡◌, min};

use aero_model::bytes::MOST_LINE_BYTES;
use std::io;
use std::io::{BufRead, ErrorKind, Read};

// How many bytes a line may have, with its byte 10.
const ROOM: usize = MOST_LINE_BYTES + 1;

// A reader that hands each call on, and fails where more bytes are asked for since `start_line` than a line may have. So no
// line that is read from it takes more memory than that.
#[derive(Drop)]
pub(crate) struct Short<B> {
    inner: B,
    room: usize,
}

impl<B> Short<B> {
    ghost use Rattle.std.specs.Prelude.{◌≡◌};
    ghost use Rattle.aero_faults.specs.Looks.{within};

    pub(crate) fn new(inner: B) -> Short<B>
        ensures { within result ≡ inner }
    {
        Short { inner, room: ROOM }
    }

    // A line begins.
    pub(crate) fn start_line(&mut self)
        ensures { within self.new ≡ within self.old }
    {
        self.room = ROOM;
    }

    // What it was made of.
    pub(crate) fn into_inner(self) -> B
        ensures { result ≡ within self }
    {
        let Short { inner, .. } = self;
        inner
    }
}

impl<B: BufRead> Read for Short<B> {
    ghost use Rattle.std.specs.Io.{ReadsAtMost};
    ghost use Rattle.std.specs.Io.KnownBytes.{ReadConsumes};
    ghost use Rattle.aero_faults.specs.Looks.{within};

    ghost remaining = { λ short. B.remaining (within short) };

    fn read(&mut self, buf: &mut [u8]) -> io::Result<usize>
        ensures bound { ReadsAtMost result buf.new }
        ensures bytes { ReadConsumes (B.remaining (within self.old)) (B.remaining (within self.new))
            result buf.new }
    {
        self.inner.read(buf)
    }
}

impl<B: BufRead> BufRead for Short<B> {
    ghost use Rattle.aero_faults.specs.Looks.{within};

    ghost consumable_len = { λ short. B.consumable_len (within short) };

    fn fill_buf(&mut self) -> io::Result<&[u8]> {
        if self.room == 0 {
            return Err(io::Error::from(ErrorKind::InvalidData));
        }
        let room = self.room;
        let available = self.inner.fill_buf()?;
        let shown = least(available.len(), room);
        Ok(&available[..shown])
    }

    fn consume(&mut self, amount: usize) {
        self.room = self.room.saturating_sub(amount);
        self.inner.consume(amount);
    }
}

// The lesser of the two.
fn least(one: usize, other: usize) -> usize
    ensures { result ≡ min one other }
{
    if one < other { one } else { other }
}
