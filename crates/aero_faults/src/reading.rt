//! A second reading of a source, up to its faulty line.
ghost use Rattle.std.specs.Prelude.{◌≡◌, ◌≢◌, ◌<◌, ℕ, List, [], true, false, IfOk, IfSome};
ghost use Rattle.std.specs.Io.{StopsAt};
ghost use Rattle.std.specs.Io.BufRead.{ends_with_byte};
ghost use Rattle.std.specs.Io.KnownBytes.{Consumes};
ghost use Rattle.aero_model.specs.Named.{Named};
ghost use Rattle.aero_grammar.specs.Meaning.{Faulty, meaning};
ghost use Rattle.aero_faults.specs.Looks.{ended, has_end, AreSeen, AreWhole, IsEventLook, IsLine, IsLineLook, IsNext, IsSameSearch, IsSearchLook, SeesLine, within};
ghost use Rattle.aero_faults.specs.Searches.{HasSeen};

use crate::look::Look;
use crate::search::Search;
use crate::short::Short;
use aero_grammar::parse_line;
use aero_model::bytes::MOST_LINE_BYTES;
use aero_model::{LineFault, ShapeFault};
use std::alloc::{AllocError, Global};
use std::io;
use std::io::{BufRead, BufReader, Read};

// How many bytes one read asks for.
const PIECE: usize = 65_536;

/// The line of this number, from 1, without its byte 10, or the first 4,097 bytes of one that is too
/// long; `None` where the source has fewer lines. It keeps one line at a time, and no more than 4,097 bytes of any.
///
/// # Errors
///
/// Those of the reader, one where memory is refused, and `InvalidData` where a line before it is too long.
pub fn line_at<R: Read + Drop>(alloc: Global, reader: R, number: u32) -> io::Result<Option<Vec<u8>>>
    requires { 0 < number }
    ensures { IfOk result (λ found.
        IfSome found (λ line. IsLine (R.remaining reader) number line.items)) }
{
    let buffered = BufReader::with_capacity(alloc, PIECE, reader)?;
    let mut lines = Short::new(buffered);
    if !pass_lines(alloc, &mut lines, number - 1)? {
        return Ok(None);
    }
    last_line(alloc, lines.into_inner())
}

// Reads so many lines, each up to its byte 10; whether there are so many.
fn pass_lines<B: BufRead>(alloc: Global, lines: &mut Short<B>, count: u32) -> io::Result<bool>
    ensures { IfOk result (λ whole. whole ≡ true →
        AreWhole (B.remaining (within lines.old)) (B.remaining (within lines.new)) count) }
{
    let mut line = Vec::new(alloc);
    for _ in 0..count {
        if !next_line(lines, &mut line)? {
            return Ok(false);
        }
    }
    Ok(true)
}

// Reads a line up to its byte 10, without which it is kept; whether it has one. It fails at one that is too long.
fn next_line<B: BufRead>(lines: &mut Short<B>, line: &mut Vec<u8>) -> io::Result<bool>
    ensures endless { IfOk result (λ whole. whole ≡ true → has_end line.new.items ≡ false) }
    ensures came { IfOk result (λ whole. whole ≡ true →
        Consumes (B.remaining (within lines.old)) (B.remaining (within lines.new))
        (ended line.new.items)) }
{
    line.clear();
    lines.start_line();
    lines.read_until(b'\n', line)?;
    Ok(cut_end(line))
}

// The next line, without its byte 10, or the first 4,097 bytes of one that is too long; `None` at the end.
fn last_line<B: BufRead + Drop>(alloc: Global, lines: B) -> io::Result<Option<Vec<u8>>>
    ensures { IfOk result (λ found. IfSome found (λ line. IsNext (B.remaining lines) line.items)) }
{
    let mut line = Vec::new(alloc);
    let mut lines = lines.take(MOST_LINE_BYTES as u64 + 1);
    if lines.read_until(b'\n', &mut line)? == 0 {
        return Ok(None);
    }
    cut_end(&mut line);
    Ok(Some(line))
}

// Drops the byte 10 at the end; whether there was one.
fn cut_end(line: &mut Vec<u8>) -> bool
    requires { StopsAt line.old.items 10 }
    ensures endless { has_end line.new.items ≡ false }
    ensures whole { result ≡ true → line.old.items ≡ ended line.new.items }
    ensures open { result ≡ false → line.new.items ≡ line.old.items }
{
    if !ends_line(line) {
        return false;
    }
    line.pop();
    true
}

// Whether the last byte is 10.
fn ends_line(line: &[u8]) -> bool
    ensures { result ≡ ends_with_byte 10 line.now }
{
    0 < line.len() && line[line.len() - 1] == b'\n'
}

/// What is told of the line where a malformed one was: its bytes, if it has this fault.
pub fn malformed_look(alloc: Global, fault: LineFault, line: Vec<u8>) -> Look
    ensures { IsLineLook fault line.items result }
{
    if has_fault(alloc, &line, fault) {
        Look::Line(line)
    } else {
        Look::Nothing
    }
}

// Whether the line has this fault by itself.
fn has_fault(alloc: Global, line: &[u8], fault: LineFault) -> bool
    ensures has { result ≡ true → meaning line.now ≡ Faulty fault }
    ensures lacks { result ≡ false → meaning line.now ≢ Faulty fault }
{
    match parse_line(alloc, line) {
        Err(LineFault::Memory) | Ok(_) => false,
        Err(found) => found == fault,
    }
}

/// What is told of the line of this number, from 1, where an ill-formed event was: the event and what
/// stands in its way, if the line is still this one and that explains the fault. The reader has the
/// source from its start. It keeps one line at a time, and no more than 4,097 bytes of any.
///
/// # Errors
///
/// Those of the reader, one where memory is refused, and `InvalidData` where a line before it is too long.
pub fn ill_formed_look<R: Read + Drop>(
    alloc: Global,
    reader: R,
    number: u32,
    line: &[u8],
    fault: ShapeFault,
) -> io::Result<Look>
    requires { 0 < number }
    ensures { IfOk result (IsEventLook (R.remaining reader) number line.now fault) }
{
    let Ok(said) = parse_line(alloc, line) else {
        return Ok(Look::Nothing);
    };
    let Some(event) = said else {
        return Ok(Look::Nothing);
    };
    let buffered = BufReader::with_capacity(alloc, PIECE, reader)?;
    let mut lines = Short::new(buffered);
    let search = Search::new(fault, event);
    let Some(search) = see_lines(alloc, &mut lines, number - 1, search)? else {
        return Ok(Look::Nothing);
    };
    if !is_next(alloc, lines.into_inner(), line)? {
        return Ok(Look::Nothing);
    }
    Ok(look_of(search))
}

// Whether the next line is this one.
fn is_next<B: BufRead + Drop>(alloc: Global, lines: B, line: &[u8]) -> io::Result<bool>
    ensures { IfOk result (λ is. is ≡ true → IsNext (B.remaining lines) line.now) }
{
    match last_line(alloc, lines)? {
        Some(next) => Ok(next.as_slice() == line),
        None => Ok(false),
    }
}

// What a search tells.
fn look_of(search: Search) -> Look
    ensures { IsSearchLook search result }
{
    match search.finish() {
        (event, Some(hindrance)) => Look::Event(event, hindrance),
        (_, None) => Look::Nothing,
    }
}

// Reads so many lines, each up to its byte 10, and shows their events to the search; `None` where there aren't so
// many, or one is malformed.
fn see_lines<B: BufRead>(
    alloc: Global,
    lines: &mut Short<B>,
    count: u32,
    first: Search,
) -> io::Result<Option<Search>>
    requires { HasSeen first [] }
    ensures same { IfOk result (λ found. IfSome found (λ seen. IsSameSearch first seen)) }
    ensures seen { IfOk result (λ found.
        IfSome found (AreSeen (B.remaining (within lines.old)) (B.remaining (within lines.new))
        count)) }
{
    let mut line = Vec::new(alloc);
    let mut search = first;
    for before in 0..count {
        if !next_line(lines, &mut line)? {
            return Ok(None);
        }
        match see_line(alloc, before + 1, &line, search)? {
            Some(seen) => search = seen,
            None => return Ok(None),
        }
    }
    Ok(Some(search))
}

// Shows the line's event to the search, if it has one; `None` where the line is malformed.
fn see_line(
    alloc: Global,
    number: u32,
    line: &[u8],
    search: Search,
) -> Result<Option<Search>, AllocError>
    ensures same { IfOk result (λ found. IfSome found (λ seen. IsSameSearch search seen)) }
    ensures seen { IfOk result (λ found. IfSome found (λ seen. (before : List (ℕ × Named)) →
        HasSeen search before
        → SeesLine seen before number (meaning line.now))) }
{
    let said = match parse_line(alloc, line) {
        Ok(said) => said,
        Err(LineFault::Memory) => return Err(AllocError),
        Err(_) => return Ok(None),
    };
    let Some(event) = said else {
        return Ok(Some(search));
    };
    let seen = search.see(alloc, number, &event)?;
    Ok(Some(seen))
}
