//! Parts of a malformed line.
ghost use Rattle.std.specs.Prelude.{◌≡◌};
ghost use Rattle.aero_grammar.specs.Meaning.{operation_field as operation_field_of, operation_word as operation_word_of};
ghost use Rattle.aero_faults.specs.Texts.{bad_place as bad_place_in};

use aero_grammar::bytes::{split_at_byte, trimmed};
use aero_model::bytes::is_bad_byte;

/// The place, from 1, of the first byte that may stand in no line, or the place behind the text.
pub fn bad_place(text: &[u8]) -> u64
    ensures { result ≡ bad_place_in text.now }
{
    let mut place = 0;
    while place < text.len() && !is_bad_byte(text[place]) {
        place += 1;
    }
    place as u64 + 1
}

/// The operation's word: what stands before the first `(` of the second field.
pub fn operation_word(text: &[u8]) -> &[u8]
    ensures { result.now ≡ operation_word_of (operation_field_of text.now) }
{
    split_at_byte(b'(', operation_field(text)).0
}

// The second field: what stands between the first `|` and the next, or the end.
fn operation_field(text: &[u8]) -> &[u8]
    ensures { result.now ≡ operation_field_of text.now }
{
    let (_, behind) = split_at_byte(b'|', text);
    let (field, _) = split_at_byte(b'|', behind);
    trimmed(field)
}
