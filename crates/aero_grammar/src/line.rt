//! What one line says.
ghost use Rattle.std.specs.Prelude.{◌≡◌, true, false};
ghost use Rattle.std.specs.List.{list_any};
ghost use Rattle.aero_model.specs.Names.{is_bad_byte};
ghost use Rattle.aero_grammar.specs.Meaning.{TellsMeaning, meaning};
ghost use Rattle.aero_grammar.specs.Words.{ReadsMeaning};

use crate::bytes::{fields, is_all_blank, is_bad_text, without_return};
use crate::operation::parse_operation;
use crate::words::{Words, event_of};
use aero_model::bytes::MOST_LINE_BYTES;
use aero_model::{Event, LineFault};
use std::alloc::Global;

/// The event of one line, which comes without the byte 10 that ends it, or `None` for a blank
/// line. One byte 13 at the end is dropped, and the line's length is counted before that.
///
/// The target of a begin is its label: what stands between the field's first `(` and its last byte,
/// if that is 1 to 255 bytes. A begin without a label, or with a longer one, has no target.
///
/// The error is the first fault that the line has, in the order of `LineFault`'s variants:
///
/// - `TooLong`: it has over 4,096 bytes.
/// - `BadByte`: one of its bytes is 0 to 8, 10 to 31 or 127.
/// - `NoOperation`: it has no `|`.
/// - `EmptyThread`: nothing but spaces and tabs stands before the first `|`.
/// - `UnknownOperation`: the word before the field's first `(`, or the whole field, is none of
///   `r`, `w`, `acq`, `rel`, `fork`, `join`, `begin` and `end`.
/// - `BadParenthesis`: the field has a `(`, and its last byte is no `)`.
/// - `MissingTarget`: an operation other than a begin or an end has nothing in its parentheses.
/// - `NameTooLong`: the thread's name has over 255 bytes, or the target of an operation other than a
///   begin or an end.
/// - `Memory`: the line has an event, one of its names, or its label, has over 16 bytes, and memory
///   is refused.
pub fn parse_line(alloc: Global, line: &[u8]) -> Result<Option<Event>, LineFault>
    ensures { TellsMeaning result (meaning line.now) }
{
    match words_of(line, false) {
        Ok(None) => Ok(None),
        Ok(Some(words)) => event_of(alloc, words).map(Some),
        Err(fault) => Err(fault),
    }
}

// The words of one line, with no name copied. Where it is known that none of its bytes is bad, none is
// looked at for that.
#[inline(always)]
pub(crate) fn words_of(line: &[u8], is_clean: bool) -> Result<Option<Words<'_>>, LineFault>
    requires { is_clean ≡ true → list_any is_bad_byte line.now ≡ false }
    ensures { ReadsMeaning result (meaning line.now) }
{
    if line.len() > MOST_LINE_BYTES {
        return Err(LineFault::TooLong);
    }
    let text = without_return(line);
    if is_bad_text(text, is_clean) {
        return Err(LineFault::BadByte);
    }
    if is_all_blank(text) {
        return Ok(None);
    }
    let Some((thread, field)) = fields(text) else {
        return Err(LineFault::NoOperation);
    };
    if thread.is_empty() {
        return Err(LineFault::EmptyThread);
    }
    parse_operation(thread, field).map(Some)
}
