//! The words that the program was started with.
ghost use Rattle.std.specs.Prelude.{◌≡◌, ◌++◌, ◌∷◌, [], IfErr, IfOk, OnOk, map, string_bytes};
ghost use Rattle.aero_program.specs.Arguments.{IsOdd, IsUnread, IsWordOf};

use std::alloc::{AllocError, Global};
use std::env::{Env, FillError};
use std::str;

// How many bytes a word has room for at first.
const ROOM: usize = 256;

/// Why the words can't be had. In checking order.
#[derive(Debug, PartialEq, Eq, Drop)]
pub enum Unread {
    /// This word is not UTF-8.
    NotUtf8(Vec<u8>),
    /// Memory was refused.
    Memory,
}

impl From<AllocError> for Unread {
    ghost use Rattle.std.specs.Prelude.{◌≡◌};
    ghost use Rattle.aero_program.specs.declared.arguments.Unread.{Unread};
    ghost use Rattle.aero_program.specs.declared.arguments.Unread.TheVariants.{Memory};

    ghost from_gives = { λ _ unread. unread ≡ Memory };

    fn from(_error: AllocError) -> Unread {
        Unread::Memory
    }
}

/// The words of the command line, in order, without the program's name.
///
/// # Errors
///
/// `NotUtf8` with the first word that isn't UTF-8; `Memory` where memory is refused, or a word takes more than there is.
pub fn words_of<R: Env>(alloc: Global, arguments: &R) -> Result<Vec<String>, Unread>
    ensures { IfErr result IsOdd }
{
    let words = bytes_of_words(alloc, arguments)?;
    texts_of(alloc, &words)
}

/// The texts that the words are, in order.
///
/// # Errors
///
/// `NotUtf8` with the first word that isn't UTF-8; `Memory` where memory is refused.
pub fn texts_of(alloc: Global, words: &[Vec<u8>]) -> Result<Vec<String>, Unread>
    ensures texts { IfOk result (λ texts. map string_bytes texts.items ≡
        map (λ word. word.items) words.now) }
    ensures unread { IfErr result (IsUnread (map (λ word. word.items) words.now)) }
{
    let mut texts = Vec::new(alloc);
    for word in words {
        match text_of(alloc, word) {
            Ok(text) => push_text(&mut texts, text)?,
            Err(unread) => return Err(unread),
        }
    }
    Ok(texts)
}

// The text that a word is.
fn text_of(alloc: Global, word: &[u8]) -> Result<String, Unread>
    ensures { IsWordOf string_bytes word.now result }
{
    match str::from_utf8(word) {
        Ok(text) => Ok(String::from_str(alloc, text)?),
        Err(_) => Err(Unread::NotUtf8(Vec::from_slice(alloc, word)?)),
    }
}

fn push_text(texts: &mut Vec<String>, text: String) -> Result<(), AllocError>
    ensures { OnOk result (texts.new.items ≡ texts.old.items ++ text ∷ []) }
{
    texts.push(text)?;
    Ok(())
}

// The bytes of the words, in order, without the program's name.
fn bytes_of_words<R: Env>(alloc: Global, arguments: &R) -> Result<Vec<Vec<u8>>, AllocError> {
    let mut words = Vec::new(alloc);
    let mut room = Vec::new(alloc);
    room.resize(ROOM, 0u8)?;
    for place in 1..usize::MAX {
        let Some(count) = read_word(arguments, place, &mut room)? else {
            break;
        };
        let Some(word) = room.get(..count) else {
            return Err(AllocError);
        };
        words.push(Vec::from_slice(alloc, word)?)?;
    }
    Ok(words)
}

// Reads the argument at this place into the room, which grows until it has it, and gives its length, if there is one.
fn read_word<R: Env>(
    arguments: &R,
    place: usize,
    room: &mut Vec<u8>,
) -> Result<Option<usize>, AllocError> {
    for _ in 0..usize::BITS {
        match arguments.arg(place, room) {
            Ok(count) => return Ok(Some(count)),
            Err(FillError::NotPresent) => return Ok(None),
            Err(FillError::TooLong) => room.resize(room.len().saturating_mul(2), 0)?,
        }
    }
    Err(AllocError)
}
