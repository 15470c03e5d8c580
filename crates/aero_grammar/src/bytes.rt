//! Parts of the bytes of a text and of a line.
ghost use Rattle.std.specs.Prelude.{◌≡◌, ◌-◌, ◌<◌, ◌≤◌, ◌==◌, ◌∷◌, length, take, drop, is_some, IfSome, IsTrue, true, false};
ghost use Rattle.std.specs.List.{list_any, list_all, prefix_len, suffix_len, position_or_len, before_first, after_first};
ghost use Rattle.std.specs.Str.Lines.{strip_carriage_return};
ghost use Rattle.aero_model.specs.Lines.{is_line_end, lines_of};
ghost use Rattle.aero_model.specs.Names.{is_bad_byte as is_bad};
ghost use Rattle.aero_grammar.specs.Meaning.{is_bar, is_unfit, is_blank as is_blank_byte, trimmed as trimmed_bytes, thread_field, operation_field};

use aero_model::bytes::is_bad_byte;
use memchr::memchr;

/// The first line of a text that isn't empty, without the byte 10 that ends it, and what follows that byte.
#[inline(always)]
pub fn first_line(text: &[u8]) -> (&[u8], &[u8])
    requires { 0 < length text.now }
    ensures line { result.0.now ≡ before_first is_line_end text.now }
    ensures behind { result.1.now ≡ after_first is_line_end text.now }
    ensures lines { lines_of text.now ≡ result.0.now ∷ lines_of result.1.now }
    ensures shorter { length result.1.now < length text.now }
    ensures good { list_any is_unfit text.now ≡ false → list_any is_bad result.0.now ≡ false }
    ensures fit { list_any is_unfit text.now ≡ false → list_any is_unfit result.1.now ≡ false }
{
    split_at_byte(b'\n', text)
}

/// What stands before the first such byte, and what follows that byte: all and nothing if there is none.
#[inline(always)]
pub fn split_at_byte(sought: u8, bytes: &[u8]) -> (&[u8], &[u8])
    ensures before { result.0.now ≡ before_first (λ b. b == sought) bytes.now }
    ensures after { result.1.now ≡ after_first (λ b. b == sought) bytes.now }
{
    match memchr(sought, bytes) {
        Some(place) => (&bytes[..place], &bytes[place + 1..]),
        None => (bytes, &[]),
    }
}

/// The line without one byte 13 at its end.
#[inline(always)]
pub fn without_return(line: &[u8]) -> &[u8]
    ensures { result.now ≡ strip_carriage_return line.now }
{
    match line {
        [front @ .., b'\r'] => front,
        _ => line,
    }
}

// It looks at every byte of the line, which is short, since many are then tested at once.
#[inline(always)]
pub(crate) fn has_bad_byte(text: &[u8]) -> bool
    ensures { result ≡ list_any is_bad text.now }
{
    let mut bad = false;
    for byte in text {
        bad |= is_bad_byte(*byte);
    }
    bad
}

// Whether a byte of the text is bad. Where it is known that none is, none is looked at.
#[inline(always)]
pub(crate) fn is_bad_text(text: &[u8], is_clean: bool) -> bool
    requires { is_clean ≡ true → list_any is_bad text.now ≡ false }
    ensures { result ≡ list_any is_bad text.now }
{
    !is_clean && has_bad_byte(text)
}

// Whether no byte of the block is bad but those that end lines. It looks at every byte, since many are
// then tested at once.
pub(crate) fn has_clean_lines(block: &[u8]) -> bool
    ensures { IsTrue result → list_any is_unfit block.now ≡ false }
{
    let mut unfit = false;
    for byte in block {
        unfit |= is_unfit_byte(*byte);
    }
    !unfit
}

// Without a branch, so that many bytes can be tested at once.
#[inline(always)]
fn is_unfit_byte(byte: u8) -> bool
    ensures { result ≡ is_unfit byte }
{
    (byte < 9) | ((byte > 10) & (byte < 32)) | (byte == 127)
}

// A space or a tab.
#[inline(always)]
pub(crate) fn is_blank(byte: u8) -> bool
    ensures { result ≡ is_blank_byte byte }
{
    byte == b' ' || byte == b'\t'
}

#[inline(always)]
pub(crate) fn is_all_blank(text: &[u8]) -> bool
    ensures { result ≡ list_all is_blank_byte text.now }
{
    text.iter().all(|byte| is_blank(*byte))
}

// The place of the first such byte, or the length where there is none.
#[inline(always)]
pub(crate) fn place_of(sought: u8, bytes: &[u8]) -> usize
    ensures place { result ≡ position_or_len (λ b. b == sought) bytes.now }
    ensures within { result ≤ length bytes.now }
{
    let mut place = 0;
    while place < bytes.len() && bytes[place] != sought {
        place += 1;
    }
    place
}

// The same, where the byte may be far away: many bytes are looked at at once.
#[inline(always)]
fn far_place_of(sought: u8, bytes: &[u8]) -> usize
    ensures place { result ≡ position_or_len (λ b. b == sought) bytes.now }
    ensures within { result ≤ length bytes.now }
{
    match memchr(sought, bytes) {
        Some(place) => place,
        None => bytes.len(),
    }
}

/// The bytes without the spaces and tabs at both ends.
#[inline(always)]
pub fn trimmed(bytes: &[u8]) -> &[u8]
    ensures { result.now ≡ trimmed_bytes bytes.now }
{
    trimmed_back(trimmed_front(bytes))
}

#[inline(always)]
fn trimmed_front(bytes: &[u8]) -> &[u8]
    ensures { result.now ≡ drop (prefix_len is_blank_byte bytes.now) bytes.now }
{
    let mut start = 0;
    while start < bytes.len() && is_blank(bytes[start]) {
        start += 1;
    }
    &bytes[start..]
}

#[inline(always)]
fn trimmed_back(bytes: &[u8]) -> &[u8]
    ensures { result.now ≡ take (length bytes.now - suffix_len is_blank_byte bytes.now) bytes.now }
{
    let mut end = bytes.len();
    while end > 0 && is_blank(bytes[end - 1]) {
        end -= 1;
    }
    &bytes[..end]
}

// The first field of a line, the thread, and the second, the operation, or `None` where the line
// has no `|`. A field ends before the next `|`, or at the line's end.
#[inline(always)]
pub(crate) fn fields(text: &[u8]) -> Option<(&[u8], &[u8])>
    ensures barred { is_some result ≡ list_any is_bar text.now }
    ensures thread { IfSome result (λ fields. fields.0.now ≡ thread_field text.now) }
    ensures operation { IfSome result (λ fields. fields.1.now ≡ operation_field text.now) }
{
    let bar = far_place_of(b'|', text);
    if bar == text.len() {
        return None;
    }
    let thread = trimmed(&text[..bar]);
    let behind = &text[bar + 1..];
    let end = far_place_of(b'|', behind);
    Some((thread, trimmed(&behind[..end])))
}
