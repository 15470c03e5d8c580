//! A source that is being read.
ghost use Rattle.std.specs.Prelude.{◌≡◌, ◌<◌, ◌≤◌, ◌+◌, ◌^◌, ◌↔◌, length, IsTrue, IfOk, IfSome, OnOk, OnErr, Ok};
ghost use Rattle.aero_model.specs.Lines.{most_line_bytes};
ghost use Rattle.aero_lines.specs.Cutting.{block_of, last_block};
ghost use Rattle.aero_intake.specs.Intake.{Takes, Fills, nothing_taken, with_cut, with_passing};

use crate::source::Followed;
use aero_lines::{Block, Cutter};
use aero_model::Ending;
use std::alloc::{AllocError, Global};
use std::marker::Model;
use std::{io, mem};

/// How many bytes are gathered before they are cut, unless the source ends: so many by several reads,
/// however short. A question is asked about each chunk that comes of it, and at most 64 are open: with
/// chunks of 64 KiB these are soon behind one verdict, and further workers have nothing to do.
const BLOCK_BYTES: usize = 1 << 18;

/// What one step of reading a source gave.
#[derive(Drop)]
pub enum Taken {
    /// A piece came, and is held.
    Piece,
    /// The source has ended so. Nothing more is to be read of it.
    Ended(Ending),
}

/// One source as far as it was read: where its cutting stands, the bytes that came and aren't cut yet,
/// how many have come in all, and whether some were passed over.
#[derive(Drop)]
pub struct Intake {
    alloc: Global,
    cutter: Cutter,
    // What is held stands at its front.
    buffer: Vec<u8>,
    held: usize,
    count: u64,
    has_passed: bool,
}

impl Model for Intake {
    ghost use Rattle.std.specs.Prelude.{take};
    ghost use Rattle.aero_intake.specs.Intake.{Taking};

    ghost Value = { Taking };

    ghost view = { λ i. record { cutting = i.cutter; held = take i.held i.buffer.items; count = i.count; passed = i.has_passed } };

    ghost use Rattle.std.specs.Prelude.{◌≤◌, ◌^◌, vec_len};

    ghost invariant = { λ i. record { held : i.held ≤ vec_len i.buffer; room : 2 ^ 18 ≤ vec_len i.buffer; short : vec_len i.buffer ≤ 2 ^ 20 } };
}

impl Intake {
    /// A source of which nothing was read, with room for a read of so many bytes, 1,048,576 at most,
    /// and for 262,144 at least.
    ///
    /// # Errors
    ///
    /// `AllocError` where memory is refused.
    pub fn new(alloc: Global, piece: u32) -> Result<Intake, AllocError>
        requires { piece ≤ 2 ^ 20 }
        ensures { IfOk result (λ intake. intake ≡ nothing_taken) }
    {
        let room = BLOCK_BYTES.max(piece as usize);
        Ok(Intake {
            alloc,
            cutter: Cutter::new(alloc),
            buffer: vec![in alloc; 0u8; room]?,
            held: 0,
            count: 0,
            has_passed: false,
        })
    }

    /// How many bytes have come.
    pub fn count(&self) -> u64
        ensures { result ≡ self.now.count }
    {
        self.count
    }

    /// Whether what is held is to be cut before more is read: 262,144 bytes or more.
    pub fn is_full(&self) -> bool
        ensures { IsTrue result ↔ (2 ^ 18 ≤ length self.now.held) }
    {
        self.held >= BLOCK_BYTES
    }

    /// Whether nothing is held.
    pub fn is_cut(&self) -> bool
        ensures { IsTrue result ↔ (length self.now.held ≡ 0) }
    {
        self.held == 0
    }

    /// Whether some bytes of the source were passed over.
    pub fn has_passed(&self) -> bool
        ensures { result ≡ self.now.passed }
    {
        self.has_passed
    }

    /// Reads one piece, which is held until it is cut. A read asks for at least 1 byte, for so many at
    /// most, and for none past `limit + 1` in all. The source has ended where the read failed, of
    /// whatever kind (`Broken`), where it gave 0 bytes (`Whole`), and, without a read, where
    /// `limit + 1` bytes have come (`TooLarge`). Once it has ended no file of the reader is open.
    ///
    /// The limit is at most 2^46, and `limit + 1` bytes have come at most.
    pub fn take<R: Followed>(&mut self, reader: &mut R, piece: u32, limit: u64) -> Taken
        requires some_room { 0 < piece }
        requires not_full { length self.old.held < 2 ^ 18 }
        requires limited { limit ≤ 2 ^ 46 }
        requires within { self.old.count ≤ limit + 1 }
        ensures { Takes (R.sight reader.old) (R.sight reader.new) piece limit self.old self.new
            result }
    {
        let left = limit + 1 - self.count;
        if left == 0 {
            reader.close();
            return Taken::Ended(Ending::TooLarge);
        }
        let room = (self.buffer.len() - self.held)
            .min(piece as usize)
            .min(left as usize);
        match read_behind(reader, &mut self.buffer, self.held, room) {
            Err(_) => Taken::Ended(Ending::Broken),
            Ok(0) => Taken::Ended(Ending::Whole),
            Ok(count) => {
                self.held += count;
                self.count += count as u64;
                Taken::Piece
            }
        }
    }

    /// Cuts what is held, and gives all lines that are whole now, or None where there is none.
    ///
    /// # Errors
    ///
    /// `AllocError` where memory is refused. Nothing has changed then.
    pub fn cut(&mut self) -> Result<Option<Block>, AllocError>
        ensures block { IfOk result (λ block. block ≡ block_of self.old.cutting self.old.held) }
        ensures few { IfOk result (λ block.
            IfSome block (λ bytes. length bytes ≤ most_line_bytes + 2 ^ 20)) }
        ensures after { OnOk result (self.new ≡ with_cut self.old) }
        ensures refused { OnErr result (self.new ≡ self.old) }
    {
        let block = self.cutter.feed(&self.buffer[..self.held])?;
        self.held = 0;
        Ok(block)
    }

    /// Passes over what is held: it counts as having come, and is in no chunk. What `cut` and `finish` give of the
    /// source from then on isn't what follows in it.
    pub fn pass_over(&mut self)
        ensures { self.new ≡ with_passing self.old }
    {
        self.held = 0;
        self.has_passed = true;
    }

    /// Gives the last line of a source that is whole and was cut, where no byte 10 ended it: 4,096
    /// bytes at most. Another source may be read then, of which nothing has come.
    ///
    /// # Errors
    ///
    /// None: no memory is needed, and the result is always Ok.
    pub fn finish(&mut self) -> Result<Option<Block>, AllocError>
        ensures last { result ≡ Ok (last_block self.old.cutting) }
        ensures few { IfOk result (λ block. IfSome block (λ bytes. length bytes ≤ most_line_bytes)) }
        ensures fresh { self.new ≡ nothing_taken }
    {
        let cutter = mem::replace(&mut self.cutter, Cutter::new(self.alloc));
        self.held = 0;
        self.count = 0;
        self.has_passed = false;
        cutter.finish()
    }
}

// One read of at most so many bytes, behind so many that stay as they are.
fn read_behind<R: Followed>(
    reader: &mut R,
    buffer: &mut [u8],
    held: usize,
    room: usize,
) -> io::Result<usize>
    requires some { 0 < room }
    requires fits { held + room ≤ length buffer.old }
    ensures { Fills (R.sight reader.old) (R.sight reader.new) held room buffer.old buffer.new result }
{
    reader.read(&mut buffer[held..held + room])
}
