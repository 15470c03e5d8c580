//! The cutter, which is fed pieces and gives blocks of whole lines.
use crate::scan::bytes_to_too_long;
use memchr::memrchr;
use std::alloc::{AllocError, Global};
use std::marker::Model;
use std::mem;

/// Bytes of a text, cut where a line ends, where a line is too long, or where the text ends.
#[derive(Drop)]
pub struct Block {
    bytes: Vec<u8>,
}

impl Model for Block {
    ghost use Rattle.std.specs.Prelude.{ℕ, List};

    ghost Value = { List ℕ };

    ghost view = { λ block. block.bytes.items };
}

impl Block {
    ghost use Rattle.std.specs.Prelude.{◌≡◌};

    /// The bytes of the block.
    pub fn bytes(&self) -> &[u8]
        ensures { result.now ≡ self.now }
    {
        self.bytes.as_slice()
    }

    /// The bytes of the block, for whoever keeps them.
    pub fn into_bytes(self) -> Vec<u8>
        ensures { result.items ≡ self }
    {
        let Block { bytes } = self;
        bytes
    }
}

/// Cuts one text, piece by piece. It keeps the bytes since the last cut, 4,096 at most, and whether
/// it is shut, since a line was too long.
#[derive(Drop)]
pub struct Cutter {
    alloc: Global,
    rest: Vec<u8>,
    shut: bool,
}

impl Model for Cutter {
    ghost use Rattle.aero_lines.specs.Cutting.{Cutting, IsOpenLine};

    ghost Value = { Cutting };

    ghost view = { λ c. record { rest = c.rest.items; shut = c.shut } };

    ghost invariant = { λ c. IsOpenLine c.rest.items };
}

impl Cutter {
    ghost use Rattle.std.specs.Prelude.{◌≡◌, ◌<◌, ◌≤◌, ◌+◌, ◌++◌, [], true, length, IfOk, OnOk, OnErr, IfSome, IsOk, IsTrue, Ok, Some};
    ghost use Rattle.aero_model.specs.Lines.{most_line_bytes};
    ghost use Rattle.aero_lines.specs.Cutting.{IsOpenLine, nothing_yet, fed, block_of, last_block};

    /// A cutter before its first piece. It takes no memory yet.
    pub fn new(alloc: Global) -> Cutter
        ensures { result ≡ nothing_yet }
    {
        Cutter {
            alloc,
            rest: Vec::new(alloc),
            shut: false,
        }
    }

    /// Takes the next piece, and gives all lines that are whole now, with their bytes 10, or None
    /// where there is none: at most 4,096 bytes more than the piece. Where a line is too long, the
    /// block ends with its first 4,097 bytes, and the cutter is shut: every later call gives None
    /// and drops the piece.
    ///
    /// The time is linear in the pieces so far, however short they are: each byte is looked at three
    /// times at most and copied once, and the memory that holds it grows by doubling.
    ///
    /// # Errors
    ///
    /// `AllocError` where memory runs out. The cutter is then as it was before the call, and the
    /// same piece may be fed again. An empty piece takes no memory, nor does any to a cutter that is
    /// shut.
    pub fn feed(&mut self, piece: &[u8]) -> Result<Option<Block>, AllocError>
        ensures block { IfOk result (λ block. block ≡ block_of self.old piece.now) }
        ensures few { IfOk result (λ block.
            IfSome block (λ bytes. length bytes ≤ most_line_bytes + length piece.now)) }
        ensures after { OnOk result (self.new ≡ fed self.old piece.now) }
        ensures refused { OnErr result (self.new ≡ self.old) }
        ensures shut { IsTrue self.old.shut → IsOk result }
        ensures empty { OnErr result (0 < length piece.now) }
    {
        if self.shut {
            return Ok(None);
        }
        if let Some(bytes) = bytes_to_too_long(&self.rest, piece) {
            return self.shut_with(&piece[..bytes]);
        }
        match memrchr(b'\n', piece) {
            None => {
                self.hold(piece)?;
                Ok(None)
            }
            Some(last) => {
                let (lines, left) = piece.split_at(last + 1);
                self.cut(lines, left)
            }
        }
    }

    /// Ends the text: gives the bytes that no byte 10 ended, 4,096 at most, or None where there are
    /// none or the cutter is shut.
    ///
    /// # Errors
    ///
    /// None: no memory is needed, and the result is always Ok.
    pub fn finish(self) -> Result<Option<Block>, AllocError>
        ensures last { result ≡ Ok (last_block self) }
        ensures few { IfOk result (λ block. IfSome block (λ bytes. length bytes ≤ most_line_bytes)) }
    {
        let Cutter { rest, shut, .. } = self;
        if shut || rest.is_empty() {
            return Ok(None);
        }
        Ok(Some(Block { bytes: rest }))
    }

    // The piece is kept, and no line is whole yet.
    fn hold(&mut self, piece: &[u8]) -> Result<(), AllocError>
        requires { IsOpenLine (self.old.rest ++ piece.now) }
        ensures after { OnOk result (self.new ≡
            record self.old { rest = self.old.rest ++ piece.now }) }
        ensures refused { OnErr result (self.new ≡ self.old) }
        ensures some { OnErr result (0 < length piece.now) }
    {
        self.rest.extend_from_slice(piece)
    }

    // These bytes end the last line that is whole now, and an open line follows them. The memory
    // for the open line comes first, so a refusal changes nothing.
    fn cut(&mut self, lines: &[u8], left: &[u8]) -> Result<Option<Block>, AllocError>
        requires { IsOpenLine left.now }
        ensures block { IfOk result (λ block. block ≡ Some (self.old.rest ++ lines.now)) }
        ensures after { OnOk result (self.new ≡ record self.old { rest = left.now }) }
        ensures refused { OnErr result (self.new ≡ self.old) }
    {
        let rest = Vec::from_slice(self.alloc, left)?;
        self.rest.extend_from_slice(lines)?;
        let bytes = mem::replace(&mut self.rest, rest);
        Ok(Some(Block { bytes }))
    }

    // These bytes show that a line is too long, and nothing more is taken.
    fn shut_with(&mut self, front: &[u8]) -> Result<Option<Block>, AllocError>
        ensures block { IfOk result (λ block. block ≡ Some (self.old.rest ++ front.now)) }
        ensures after { OnOk result (self.new ≡ record { rest = []; shut = true }) }
        ensures refused { OnErr result (self.new ≡ self.old) }
        ensures some { OnErr result (0 < length front.now) }
    {
        self.rest.extend_from_slice(front)?;
        let bytes = mem::replace(&mut self.rest, Vec::new(self.alloc));
        self.shut = true;
        Ok(Some(Block { bytes }))
    }
}
