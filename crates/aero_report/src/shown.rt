//! Bytes that others chose, as a terminal is shown them: names of files and of threads, labels, words.
//!
//! A terminal obeys control characters: one can move it to another line, or colour or hide what stands there. So these
//! are shown as `\xNN`, a byte each, and so are bytes that aren't UTF-8. Every other character stands as it is, a
//! backslash too. `append_text` is for what stands on one line, and `append_lines` keeps line ends. `append_bytes` takes
//! each byte alone, and shows those from 128 on as `\xNN` too.
//!
//! ```text
//! append_text(&mut text, b"caf\xc3\xa9\n\xff")?;      // café\x0a\xff
//! ```
ghost use Rattle.std.specs.Prelude.{◌≡◌, ◌<◌, ◌∷◌, ◌++◌, drop, take, flat_map, length, OnOk};
ghost use Rattle.std.specs.Str.{is_utf8};
ghost use Rattle.aero_report.specs.Shown.{characters, followers as followers_of, hex_digit as hex_digit_of, shown_byte, shown_character, shown_lines, shown_text, stands as stands_of};

use std::alloc::AllocError;
use std::str;

/// Adds each byte as itself, or as `\xNN` where it is a control byte or from 128 on.
///
/// # Errors
///
/// `AllocError` where memory is refused. A front of it may be there.
pub fn append_bytes(text: &mut Vec<u8>, bytes: &[u8]) -> Result<(), AllocError>
    ensures { OnOk result (text.new.items ≡ text.old.items ++ flat_map shown_byte bytes.now) }
{
    for byte in bytes {
        append_byte(text, *byte)?;
    }
    Ok(())
}

/// Adds bytes as they are shown on one line of a terminal.
///
/// # Errors
///
/// `AllocError` where memory is refused. A front of it may be there.
pub fn append_text(text: &mut Vec<u8>, bytes: &[u8]) -> Result<(), AllocError>
    ensures { OnOk result (text.new.items ≡ text.old.items ++ shown_text bytes.now) }
{
    append_shown(text, bytes, false)
}

/// Adds bytes as they are shown on some lines of a terminal: each byte 10 stays.
///
/// # Errors
///
/// `AllocError` where memory is refused. A front of it may be there.
pub fn append_lines(text: &mut Vec<u8>, bytes: &[u8]) -> Result<(), AllocError>
    ensures { OnOk result (text.new.items ≡ text.old.items ++ shown_lines bytes.now) }
{
    append_shown(text, bytes, true)
}

// Adds the bytes as they are shown.
fn append_shown(text: &mut Vec<u8>, bytes: &[u8], ends_stay: bool) -> Result<(), AllocError>
    ensures { OnOk result (text.new.items ≡ text.old.items ++ flat_map (shown_character ends_stay)
        (characters bytes.now)) }
{
    let mut rest = bytes;
    while !rest.is_empty() {
        let (character, behind) = split_character(rest);
        append_character(text, character, ends_stay)?;
        rest = behind;
    }
    Ok(())
}

// Adds a character, or a byte that belongs to none, as it is shown.
fn append_character(text: &mut Vec<u8>, character: &[u8], ends_stay: bool) -> Result<(), AllocError>
    ensures { OnOk result (text.new.items ≡ text.old.items ++
        shown_character ends_stay character.now) }
{
    if stands(character, ends_stay) {
        text.extend_from_slice(character)
    } else {
        append_bytes(text, character)
    }
}

// Adds the byte, or `\xNN` in its place.
fn append_byte(text: &mut Vec<u8>, byte: u8) -> Result<(), AllocError>
    ensures { OnOk result (text.new.items ≡ text.old.items ++ shown_byte byte) }
{
    if byte < 32 || byte > 126 {
        text.extend_from_slice(&[b'\\', b'x', hex_digit(byte / 16), hex_digit(byte % 16)])
    } else {
        text.extend_from_slice(&[byte])
    }
}

// The first character, or the first byte where it begins none, and what stands behind it.
fn split_character(bytes: &[u8]) -> (&[u8], &[u8])
    requires { 0 < length bytes.now }
    ensures first { characters bytes.now ≡ result.0.now ∷ characters result.1.now }
    ensures shorter { length result.1.now < length bytes.now }
{
    let size = 1 + followers(bytes);
    (front_of(bytes, size), behind(bytes, size))
}

// How many bytes follow the first one in its character, and 0 where none begins with it.
fn followers(bytes: &[u8]) -> usize
    requires { 0 < length bytes.now }
    ensures as_defined { result ≡ followers_of bytes.now }
    ensures few { result < 4 }
{
    if bytes[0] < 128 {
        0
    } else if is_text(front_of(bytes, 2)) {
        1
    } else if is_text(front_of(bytes, 3)) {
        2
    } else if is_text(front_of(bytes, 4)) {
        3
    } else {
        0
    }
}

// Whether a character stands as it is.
fn stands(character: &[u8], ends_stay: bool) -> bool
    ensures { result ≡ stands_of ends_stay character.now }
{
    match character {
        [byte] => (31 < *byte && *byte < 127) || (ends_stay && *byte == b'\n'),
        [first, second] => !(*first == 0xC2 && *second < 160),
        _ => true,
    }
}

// The first of the bytes, so many, or all.
fn front_of(bytes: &[u8], count: usize) -> &[u8]
    ensures { result.now ≡ take count bytes.now }
{
    if bytes.len() <= count {
        bytes
    } else {
        &bytes[..count]
    }
}

// The bytes without the first ones, so many, or none.
fn behind(bytes: &[u8], count: usize) -> &[u8]
    ensures { result.now ≡ drop count bytes.now }
{
    if bytes.len() <= count {
        &[]
    } else {
        &bytes[count..]
    }
}

// Whether the bytes are UTF-8.
fn is_text(bytes: &[u8]) -> bool
    ensures { result ≡ is_utf8 bytes.now }
{
    match str::from_utf8(bytes) {
        Ok(_) => true,
        Err(_) => false,
    }
}

// 0 to 9, then a to f.
fn hex_digit(number: u8) -> u8
    requires { number < 16 }
    ensures { result ≡ hex_digit_of number }
{
    if number < 10 {
        b'0' + number
    } else {
        b'a' - 10 + number
    }
}
