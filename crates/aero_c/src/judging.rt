//! What is done to a trace, whoever holds it.
ghost use Rattle.std.specs.Prelude.{◌≡◌, ◌⊎◌, ◌<◌, ◌++◌, take, length, IfOk};
ghost use Rattle.aero_c.specs.Statuses.{done, short};
ghost use Rattle.aero_c.specs.Answers.{Answered, IsAsked, Concludes, Shows, Tells, lines_shown};

use crate::numbers::{Numbers, in_numbers};
use crate::status::{DONE, NO_MEMORY, SHORT};
use aero_feed::Feed;
use aero_model::{Cycle, Finding, Verdict};
use aero_report::{cycle_text, trace_text};
use std::alloc::{AllocError, Global};

// Takes the next piece.
pub(crate) fn feed_piece(feed: &mut Feed, piece: &[u8]) -> u32
    ensures { Answered feed.old feed.new result (feed.new.text ≡ feed.old.text ++ piece.now) }
{
    match feed.feed(piece) {
        Ok(()) => DONE,
        Err(_) => NO_MEMORY,
    }
}

// Writes whether the verdict is certain.
pub(crate) fn ask(feed: &mut Feed, is_certain: &mut u32) -> u32
    ensures { Answered feed.old feed.new result (IsAsked feed.old feed.new is_certain.new) }
{
    match feed.is_certain() {
        Ok(true) => {
            *is_certain = 1;
            DONE
        }
        Ok(false) => {
            *is_certain = 0;
            DONE
        }
        Err(_) => NO_MEMORY,
    }
}

// Judges what came so far, and writes how many bytes the lines have that show the violation, if one is certain by then and is
// to be shown, and these lines if the buffer has room.
pub(crate) fn show(alloc: Global, feed: &mut Feed, buffer: &mut [u8], size: &mut usize) -> u32
    ensures { Shows feed.old feed.new result buffer.new size.new }
{
    let Ok(cycle) = feed.explain() else {
        return NO_MEMORY;
    };
    let Ok(lines) = shown_lines(alloc, &cycle) else {
        feed.spend();
        return NO_MEMORY;
    };
    *size = lines.len();
    copy(&lines, buffer)
}

// The lines that show a violation, if one is shown.
fn shown_lines(alloc: Global, cycle: &Option<Cycle>) -> Result<Vec<u8>, AllocError>
    ensures { IfOk result (λ lines. lines.items ≡ lines_shown cycle.now) }
{
    match cycle {
        Some(cycle) => cycle_text(alloc, cycle),
        None => Ok(Vec::new(alloc)),
    }
}

// Judges the trace. Writes the verdict as numbers, how many bytes its line in the report has behind the source's name,
// with the byte 10 that ends it, and these bytes if the buffer has room.
pub(crate) fn conclude(
    alloc: Global,
    feed: Feed,
    numbers: &mut Numbers,
    buffer: &mut [u8],
    size: &mut usize,
) -> u32
    ensures { Concludes feed result numbers.new buffer.new size.new }
{
    match feed.finish() {
        Ok(verdict) => tell(alloc, verdict, numbers, buffer, size),
        Err(_) => NO_MEMORY,
    }
}

// Writes the verdict as numbers, and its line.
fn tell(
    alloc: Global,
    verdict: Verdict,
    numbers: &mut Numbers,
    buffer: &mut [u8],
    size: &mut usize,
) -> u32
    ensures { Tells verdict result numbers.new buffer.new size.new }
{
    *numbers = in_numbers(&verdict);
    let Ok(line) = trace_text(alloc, b"", &Finding::Judged(verdict)) else {
        return NO_MEMORY;
    };
    *size = line.len();
    copy(&line, buffer)
}

// Copies the line to the front of the buffer, if that has room.
fn copy(line: &[u8], buffer: &mut [u8]) -> u32
    ensures told { (result ≡ done) ⊎ (result ≡ short) }
    ensures copied { result ≡ done → take (length line.now) buffer.new ≡ line.now }
    ensures room { result ≡ short → length buffer.new < length line.now }
{
    if line.len() > buffer.len() {
        return SHORT;
    }
    buffer[..line.len()].copy_from_slice(line);
    DONE
}
