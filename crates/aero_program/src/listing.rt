//! A list of names of files, each ended by a byte 0, as `find -print0` writes it.
ghost use Rattle.std.specs.Prelude.{◌≡◌, ◌<◌, ◌≤◌, ◌∷◌, ◌^◌, [], IfErr, IfOk, None, OnOk, length};
ghost use Rattle.std.specs.List.{count_by};
ghost use Rattle.aero_program.specs.Inputs.{MayFailFrom, bytes_left, reason_of, standing_of};
ghost use Rattle.aero_program.specs.Listing.{IsFaultOf, IsWhole, StandsAfter, is_name_end, names_in};

use crate::command::MOST_FILES;
use crate::files::Opener;
use crate::input::Input;
use crate::reason::Reason;
use aero_grammar::bytes::split_at_byte;
use std::alloc::{AllocError, Global};
use std::io::Read;

// How many bytes one read of a list asks for at most.
const PIECE: usize = 65_536;

/// Why there are no sources.
#[derive(Clone, Copy, Debug, PartialEq, Eq)]
pub enum Unlisted {
    /// The list with their names couldn't be opened or read, for this reason.
    Unread(Reason),
    /// It has more than 65,536 names.
    TooMany,
    /// Memory was refused.
    Memory,
}

impl From<AllocError> for Unlisted {
    ghost use Rattle.std.specs.Prelude.{◌≡◌};
    ghost use Rattle.aero_program.specs.declared.listing.Unlisted.{Unlisted};
    ghost use Rattle.aero_program.specs.declared.listing.Unlisted.TheVariants.{Memory};

    ghost from_gives = { λ _ unlisted. unlisted ≡ Memory };

    fn from(_error: AllocError) -> Unlisted {
        Unlisted::Memory
    }
}

/// Reads a list to its end. Of one with too many names no more is read than shows it. An input that was standard input is that still.
///
/// # Errors
///
/// `Unread` where a read failed, with its reason; `TooMany`; `Memory` where memory was refused.
pub fn read_list<S: Read + Drop, O: Opener + Drop>(
    alloc: Global,
    input: &mut Input<S, O>,
) -> Result<Vec<u8>, Unlisted>
    ensures whole { IfOk result (λ list.
        IsWhole (bytes_left (standing_of S.remaining O.known O.File.remaining input.old))
        list.items) }
    ensures fault { reason_of input.old ≡ None →
        IfErr result (IsFaultOf (MayFailFrom O.can_fail
        (standing_of S.remaining O.known O.File.remaining input.old))
        (bytes_left (standing_of S.remaining O.known O.File.remaining input.old))
        (reason_of input.new)) }
    ensures stream { StandsAfter (standing_of S.remaining O.known O.File.remaining input.old)
        (standing_of S.remaining O.known O.File.remaining input.new) result }
{
    let mut buffer = vec![in alloc; 0u8; PIECE]?;
    let mut list = Vec::new(alloc);
    match gather(input, &mut buffer, &mut list) {
        Ok(()) => Ok(list),
        Err(why) => Err(why),
    }
}

// Reads until the end, into a buffer of some bytes, and gathers what came.
fn gather<S: Read + Drop, O: Opener + Drop>(
    input: &mut Input<S, O>,
    buffer: &mut [u8],
    list: &mut Vec<u8>,
) -> Result<(), Unlisted>
    requires some { 0 < length buffer.old }
    requires few { length buffer.old ≤ 2 ^ 20 }
    requires empty { list.old.items ≡ [] }
    ensures whole { OnOk result (IsWhole
        (bytes_left (standing_of S.remaining O.known O.File.remaining input.old)) list.new.items) }
    ensures fault { reason_of input.old ≡ None →
        IfErr result (IsFaultOf (MayFailFrom O.can_fail
        (standing_of S.remaining O.known O.File.remaining input.old))
        (bytes_left (standing_of S.remaining O.known O.File.remaining input.old))
        (reason_of input.new)) }
    ensures stream { StandsAfter (standing_of S.remaining O.known O.File.remaining input.old)
        (standing_of S.remaining O.known O.File.remaining input.new) result }
{
    let mut ends = 0usize;
    for _ in 0..u64::MAX {
        let count = match input.read(buffer) {
            Ok(0) => return Ok(()),
            Ok(count) => count,
            Err(error) => return Err(Unlisted::Unread(Reason::of(&error))),
        };
        let piece = &buffer[..count];
        list.extend_from_slice(piece)?;
        ends += count_ends(piece);
        if ends > MOST_FILES {
            return Err(Unlisted::TooMany);
        }
    }
    Err(Unlisted::Memory)
}

// How many names end in a piece.
fn count_ends(piece: &[u8]) -> usize
    ensures { result ≡ count_by is_name_end piece.now }
{
    let mut ends = 0;
    for byte in piece {
        if *byte == 0 {
            ends += 1;
        }
    }
    ends
}

/// The first name in a list that isn't empty, and what follows it.
pub fn first_name(list: &[u8]) -> (&[u8], &[u8])
    requires { 0 < length list.now }
    ensures names { names_in list.now ≡ result.0.now ∷ names_in result.1.now }
    ensures shorter { length result.1.now < length list.now }
{
    split_at_byte(0, list)
}
