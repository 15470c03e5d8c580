//! Lines of the common shape, read with few tests that a processor can't guess: the places of their fields
//! are found in 32 bytes at once.
ghost use Rattle.std.specs.Prelude.{◌≡◌, ◌<◌, ◌≤◌, ◌+◌, ◌==◌, ◌∷◌, length, take, drop, map, true, false, Some, IfSome, IsTrue, option_copied, if◌then◌else◌};
ghost use Rattle.std.specs.List.{list_any, position_or_len, before_first, after_first};
ghost use Rattle.std.specs.Int.{w64, to_le_bytes, trailing_zeros};
ghost use Rattle.std.specs.Simd.Lanes.{mask_l};
ghost use Rattle.aero_model.specs.Lines.{lines_of};
ghost use Rattle.aero_model.specs.Names.{is_bad_byte};
ghost use Rattle.aero_model.specs.Exempt.{label_of};
ghost use Rattle.aero_model.specs.Named.{stands_alone};
ghost use Rattle.aero_grammar.specs.Meaning.{Means, meaning, is_unfit, is_bar, trimmed};
ghost use Rattle.aero_grammar.specs.Words.{named_of};
ghost use Rattle.aero_grammar.specs.Short.{IsShort, IsSign, word_of};

use crate::bytes::is_blank;
use crate::words::Words;
use aero_model::Op;
use aero_model::bytes::MOST_LINE_BYTES;
use memchr::memchr;
use std::simd::prelude::*;

const LANES: usize = 32;

// So many bytes a text has at least, so that 32 stand behind each place in its first 32.
const FEWEST_BYTES: usize = 64;

// A text's first line, what follows it, and the words of the line.
#[derive(Clone, Copy)]
pub struct ShortLine<'a> {
    pub line: &'a [u8],
    pub behind: &'a [u8],
    pub words: Words<'a>,
}

// The first line of a text in which no byte is bad but those that end lines. It is told only where it has
// an event, up to 4,096 bytes, and first fields of fewer than 32 each, without blanks round them.
#[inline(always)]
pub fn short_line(text: &[u8]) -> Option<ShortLine<'_>>
    requires { list_any is_unfit text.now ≡ false }
    ensures lines { IfSome result (λ s. lines_of text.now ≡ s.line.now ∷ lines_of s.behind.now) }
    ensures shorter { IfSome result (λ s. length s.behind.now < length text.now) }
    ensures fit { IfSome result (λ s. list_any is_unfit s.behind.now ≡ false) }
    ensures meaning { IfSome result (λ s. meaning s.line.now ≡ Means (named_of s.words)) }
{
    if text.len() < FEWEST_BYTES {
        return None;
    }
    let end = line_end(text)?;
    let words = short_words(text, end)?;
    Some(ShortLine {
        line: &text[..end],
        behind: &text[end + 1..],
        words,
    })
}

// The place of the byte 10 that ends the first line of such a text, where that has up to 4,096 bytes, and, where it has
// 64 or more, a `|` among the first 32.
#[inline(always)]
fn line_end(text: &[u8]) -> Option<usize>
    requires wide { 64 ≤ length text.now }
    requires clean { list_any is_unfit text.now ≡ false }
    ensures lines { IfSome result (λ end. lines_of text.now ≡
        take end text.now ∷ lines_of (drop (end + 1) text.now)) }
    ensures good { IfSome result (λ end. list_any is_bad_byte (take end text.now) ≡ false) }
    ensures within { IfSome result (λ end. end < length text.now) }
    ensures few { IfSome result (λ end. end ≤ 4096) }
{
    let end = near_line_end(text);
    if end < FEWEST_BYTES {
        return Some(end);
    }
    if place_in(b'|', text, 0, LANES) == LANES {
        return None;
    }
    far_line_end(text)
}

// The place of the first byte 10 among the first 64 bytes of such a text, or 64 where there is none.
#[inline(always)]
fn near_line_end(text: &[u8]) -> usize
    requires { 64 ≤ length text.now }
    ensures { result ≡ position_or_len (λ b. b == 10) (take 64 text.now) }
{
    let end = place_in(b'\n', text, 0, LANES);
    if end < LANES {
        return end;
    }
    LANES + place_in(b'\n', text, LANES, LANES)
}

// The place of the byte 10 that ends the first line of such a text, where that has up to 4,096 bytes.
fn far_line_end(text: &[u8]) -> Option<usize>
    requires clean { list_any is_unfit text.now ≡ false }
    ensures lines { IfSome result (λ end. lines_of text.now ≡
        take end text.now ∷ lines_of (drop (end + 1) text.now)) }
    ensures good { IfSome result (λ end. list_any is_bad_byte (take end text.now) ≡ false) }
    ensures within { IfSome result (λ end. end < length text.now) }
    ensures few { IfSome result (λ end. end ≤ 4096) }
{
    match memchr(b'\n', text) {
        Some(end) if end <= MOST_LINE_BYTES => Some(end),
        _ => None,
    }
}

// The words of the line that ends at this place.
#[inline(always)]
fn short_words(text: &[u8], end: usize) -> Option<Words<'_>>
    requires wide { 64 ≤ length text.now }
    requires within { end < length text.now }
    requires few { end ≤ 4096 }
    requires good { list_any is_bad_byte (take end text.now) ≡ false }
    ensures { IfSome result (λ w. meaning (take end text.now) ≡ Means (named_of w)) }
{
    let (thread, field, word) = short_fields(text, end)?;
    if !is_trimmed(thread) {
        return None;
    }
    let (op, target) = short_operation(field, word)?;
    Some(Words { thread, op, target })
}

// What stands before the first `|` of that line, what stands between it and the next, or the end, and the
// eight bytes behind the first `|` as one number. It is told only where both have fewer than 32 bytes.
#[inline(always)]
fn short_fields(text: &[u8], end: usize) -> Option<(&[u8], &[u8], u64)>
    requires wide { 64 ≤ length text.now }
    requires within { end < length text.now }
    ensures barred { IfSome result (λ f. list_any is_bar (take end text.now) ≡ true) }
    ensures thread { IfSome result (λ f. f.0.now ≡ before_first is_bar (take end text.now)) }
    ensures short { IfSome result (λ f. length f.0.now < 32) }
    ensures field { IfSome result (λ f. f.1.now ≡
        before_first is_bar (after_first is_bar (take end text.now))) }
    ensures within { IfSome result (λ f. length f.1.now < 32) }
    ensures word { IfSome result (λ f. take (length f.1.now) (to_le_bytes w64 f.2) ≡ take 8 f.1.now) }
{
    let near = end.min(LANES);
    let bar = place_in(b'|', text, 0, near);
    if bar == near {
        return None;
    }
    let behind = bar + 1;
    let limit = (end - behind).min(LANES);
    let more = place_in(b'|', text, behind, limit);
    if more == LANES {
        return None;
    }
    let word = word_at(text, behind)?;
    Some((&text[..bar], &text[behind..behind + more], word))
}

// The eight bytes from this place on, as one number.
#[inline(always)]
fn word_at(text: &[u8], at: usize) -> Option<u64>
    requires { at + 32 ≤ length text.now }
    ensures { IfSome result (λ word. to_le_bytes w64 word ≡ take 8 (drop at text.now)) }
{
    let bytes = text[at..].first_chunk::<8>()?;
    Some(u64::from_le_bytes(*bytes))
}

// The place of the first such byte among so many from this place on, or their number where there is none.
#[inline(always)]
fn place_in(sought: u8, text: &[u8], at: usize, limit: usize) -> usize
    requires lanes { at + 32 ≤ length text.now }
    requires near { limit ≤ 32 }
    ensures place { result ≡ position_or_len (λ b. b == sought) (take limit (drop at text.now)) }
    ensures within { result ≤ limit }
{
    let found = places_of(sought, text, at);
    first_set(found).min(limit)
}

// A bit for each of 32 bytes that is the one sought.
#[inline(always)]
fn places_of(sought: u8, text: &[u8], at: usize) -> u64
    requires { at + 32 ≤ length text.now }
    ensures { result ≡ mask_l (map (λ b. b == sought) (take 32 (drop at text.now))) }
{
    let lanes = u8x32::from_slice(&text[at..]);
    lanes.simd_eq(u8x32::splat(sought)).to_bitmask()
}

// The place of the lowest bit that is set, or 32.
#[inline(always)]
fn first_set(mask: u64) -> usize
    ensures { result ≡ (if mask == 0 then 32 else trailing_zeros w64 mask) }
{
    if mask == 0 {
        LANES
    } else {
        mask.trailing_zeros() as usize
    }
}

// Whether there are bytes, and neither the first nor the last is a blank.
#[inline(always)]
fn is_trimmed(bytes: &[u8]) -> bool
    ensures some { IsTrue result → 0 < length bytes.now }
    ensures trimmed { IsTrue result → trimmed bytes.now ≡ bytes.now }
{
    match bytes {
        [first, .., last] => !is_blank(*first) && !is_blank(*last),
        [only] => !is_blank(*only),
        [] => false,
    }
}

// What the field of an operation says, where it is a begin or an end alone, or the word of any with at
// least a byte behind it in parentheses. The field's first bytes are given as one number.
#[inline(always)]
fn short_operation(field: &[u8], word: u64) -> Option<(Op, Option<&[u8]>)>
    requires few { length field.now < 32 }
    requires word { take (length field.now) (to_le_bytes w64 word) ≡ take 8 field.now }
    ensures { IfSome result (λ r. IsShort field.now r.0 (option_copied r.1)) }
{
    let sign = sign_of(word);
    let Sign { op, width, .. } = sign;
    if field.len() < width || !is_worded(sign, word) {
        return None;
    }
    if field.len() == width {
        return Some((alone(op)?, None));
    }
    Some((op, enclosed(field, op, width)?))
}

// An operation with its word: how long that is, and its bytes as one number, which are the bits of the
// mask.
#[derive(Clone, Copy)]
struct Sign {
    op: Op,
    width: usize,
    mask: u64,
    number: u64,
}

const READ: Sign = Sign {
    op: Op::Read,
    width: 1,
    mask: 255,
    number: 114,
};

const WRITE: Sign = Sign {
    op: Op::Write,
    width: 1,
    mask: 255,
    number: 119,
};

const ACQUIRE: Sign = Sign {
    op: Op::Acquire,
    width: 3,
    mask: 16_777_215,
    number: 7_431_009,
};

const RELEASE: Sign = Sign {
    op: Op::Release,
    width: 3,
    mask: 16_777_215,
    number: 7_103_858,
};

const FORK: Sign = Sign {
    op: Op::Fork,
    width: 4,
    mask: 4_294_967_295,
    number: 1_802_661_734,
};

const JOIN: Sign = Sign {
    op: Op::Join,
    width: 4,
    mask: 4_294_967_295,
    number: 1_852_403_562,
};

const BEGIN: Sign = Sign {
    op: Op::Begin,
    width: 5,
    mask: 1_099_511_627_775,
    number: 474_214_786_402,
};

const END: Sign = Sign {
    op: Op::End,
    width: 3,
    mask: 16_777_215,
    number: 6_581_861,
};

// For a number made of two bytes, the one operation whose field may begin with them.
static SIGNS: [Sign; 32] = [
    READ, READ, READ, READ, ACQUIRE, READ, READ, BEGIN, READ, READ, READ, READ, READ, READ, READ,
    READ, READ, READ, READ, END, READ, FORK, READ, RELEASE, READ, JOIN, READ, READ, READ, READ,
    READ, WRITE,
];

// The operation that a field is likely to have by its first two bytes. It is to be tested.
#[inline(always)]
fn sign_of(word: u64) -> Sign
    ensures { IsSign result }
{
    let place = (word.wrapping_add(word >> 8) & 31) as usize;
    SIGNS[place]
}

// Whether the first bytes are the operation's word.
#[inline(always)]
fn is_worded(sign: Sign, word: u64) -> bool
    requires { IsSign sign }
    ensures { IsTrue result → take (length (word_of sign.op)) (to_le_bytes w64 word) ≡
        word_of sign.op }
{
    word & sign.mask == sign.number
}

// A begin or an end.
#[inline(always)]
fn alone(op: Op) -> Option<Op>
    ensures { IfSome result (λ r. (r ≡ op) × (stands_alone op ≡ true)) }
{
    if matches!(op, Op::Begin | Op::End) {
        Some(op)
    } else {
        None
    }
}

// The target or label of the operation, whose word stands in front, where it has one of at least a byte
// in parentheses.
#[inline(always)]
fn enclosed(field: &[u8], op: Op, width: usize) -> Option<Option<&[u8]>>
    requires few { length field.now < 32 }
    requires word { take (length (word_of op)) field.now ≡ word_of op }
    requires width { width ≡ length (word_of op) }
    requires longer { width < length field.now }
    ensures { IfSome result (λ r. IsShort field.now op (option_copied r)) }
{
    let last = field.len() - 1;
    if last < width + 2 || field[width] != b'(' || field[last] != b')' {
        return None;
    }
    Some(target_in(op, &field[width + 1..last]))
}

// What the operation has of what stands in its parentheses.
#[inline(always)]
fn target_in(op: Op, inside: &[u8]) -> Option<&[u8]>
    ensures { option_copied result ≡
        (if stands_alone op then label_of op (Some inside.now) else Some inside.now) }
{
    match op {
        Op::End => None,
        _ => Some(inside),
    }
}
