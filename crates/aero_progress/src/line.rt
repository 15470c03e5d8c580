//! A line that is written again in place, and its text.
ghost use Rattle.std.specs.Prelude.{◌≡◌, ◌++◌, codes, decimal, IfOk, OnOk, true, false};
ghost use Rattle.std.specs.Io.KnownBytes.{Appends};
ghost use Rattle.aero_progress.specs.Texts.{amount_text, blank_text, judged_text, line_text, shown_text, sources_text};

use crate::reached::{Reached, Work};
use itoa::Buffer;
use std::alloc::{AllocError, Global};
use std::io;
use std::io::Write;

/// What the line stands on.
#[derive(Clone, Copy, Debug, PartialEq, Eq)]
pub enum Surface {
    /// A terminal, which knows the escapes for lines that aren't wrapped, and for what clears one.
    Terminal,
    /// Anything else, as a file.
    Other,
}

// Leads back to where the line begins, and clears what stands from there on.
const CLEARED: &[u8] = b"\r\x1b[K";

// Leads back to where the line begins, writes 89 blanks over it, and leads back again.
const BLANK: &[u8] =
    b"\r                                                                                         \r";

const MEBIBYTE: u64 = 1_048_576;

/// The line that says how many of the sources have been read, how many bytes came, of how many where this is
/// known, how many sources have been judged, and how many seconds have passed. It begins with the byte 13. On a
/// terminal, escapes keep it from being wrapped. Of at most 65,536 sources of fewer than 10^8 MiB it has at most
/// 89 characters in the first 10^7 seconds.
///
/// # Errors
///
/// `AllocError` where memory is refused.
pub fn text_of(
    alloc: Global,
    surface: Surface,
    work: Work,
    reached: Reached,
) -> Result<Vec<u8>, AllocError>
    ensures { IfOk result (λ text. text.items ≡ shown_text surface work reached) }
{
    let mut text = Vec::new(alloc);
    if surface == Surface::Other {
        text.extend_from_slice(b"\r")?;
        append_line(&mut text, work, reached)?;
    } else {
        text.extend_from_slice(b"\r\x1b[?7l")?;
        append_line(&mut text, work, reached)?;
        text.extend_from_slice(b"\x1b[?7h")?;
    }
    Ok(text)
}

// What the line says.
fn append_line(text: &mut Vec<u8>, work: Work, reached: Reached) -> Result<(), AllocError>
    ensures { OnOk result (text.new.items ≡ text.old.items ++ line_text work reached) }
{
    append_sources(text, reached.ended, work.sources)?;
    append_amount(text, reached.bytes, work.size)?;
    append_judged(text, reached)
}

// How many of the sources have been read.
fn append_sources(text: &mut Vec<u8>, ended: u64, sources: u64) -> Result<(), AllocError>
    ensures { OnOk result (text.new.items ≡ text.old.items ++ sources_text ended sources) }
{
    append_number(text, b"aerodrome: ", ended)?;
    append_number(text, b" of ", sources)
}

// How many have been judged, and since when.
fn append_judged(text: &mut Vec<u8>, reached: Reached) -> Result<(), AllocError>
    ensures { OnOk result (text.new.items ≡ text.old.items ++ judged_text reached) }
{
    append_number(text, b" MiB read, ", reached.judged)?;
    append_number(text, b" judged, ", reached.seconds)?;
    text.extend_from_slice(b" s")
}

// How many whole mebibytes came, and of how many, where this is known.
fn append_amount(text: &mut Vec<u8>, bytes: u64, size: Option<u64>) -> Result<(), AllocError>
    ensures { OnOk result (text.new.items ≡ text.old.items ++ amount_text bytes size) }
{
    append_number(text, b" sources, ", bytes / MEBIBYTE)?;
    match size {
        Some(size) => append_number(text, b" of ", size / MEBIBYTE),
        None => Ok(()),
    }
}

// A number behind its label.
fn append_number(text: &mut Vec<u8>, label: &[u8], number: u64) -> Result<(), AllocError>
    ensures { OnOk result (text.new.items ≡ text.old.items ++ (label.now ++ decimal number)) }
{
    let mut buffer = Buffer::new();
    text.extend_from_slice(label)?;
    text.extend_from_slice(buffer.format(number).as_bytes())
}

/// A line on a writer, which stands there or doesn't. Once it is over it isn't shown again.
#[derive(Drop)]
pub struct ProgressLine<W> {
    writer: W,
    surface: Surface,
    stands: bool,
    is_over: bool,
}

impl<W: Write> ProgressLine<W> {
    /// No line stands.
    pub fn new(writer: W, surface: Surface) -> ProgressLine<W>
        ensures writer { result.writer ≡ writer }
        ensures surface { result.surface ≡ surface }
        ensures stands { result.stands ≡ false }
        ensures is_over { result.is_over ≡ false }
    {
        ProgressLine {
            writer,
            surface,
            stands: false,
            is_over: false,
        }
    }

    /// Writes the text in the place of the line, unless that is over.
    ///
    /// # Errors
    ///
    /// Those of the writer. A front of the text may stand there.
    pub fn show(&mut self, text: &[u8]) -> io::Result<()>
        ensures shown { self.old.is_over ≡ false →
            OnOk result (Appends (W.contents self.old.writer) (W.contents self.new.writer) text.now) }
        ensures stands { self.old.is_over ≡ false → self.new.stands ≡ true }
        ensures over { self.old.is_over ≡ true → self.new ≡ self.old }
        ensures same { self.new.is_over ≡ self.old.is_over }
        ensures surface { self.new.surface ≡ self.old.surface }
    {
        if self.is_over {
            return Ok(());
        }
        self.stands = true;
        self.writer.write_all(text)
    }

    /// Clears the line, where one stands.
    ///
    /// # Errors
    ///
    /// Those of the writer.
    pub fn clear(&mut self) -> io::Result<()>
        ensures cleared { self.old.stands ≡ true →
            OnOk result (Appends (W.contents self.old.writer) (W.contents self.new.writer)
            (blank_text self.old.surface)) }
        ensures stands { self.new.stands ≡ false }
        ensures untouched { self.old.stands ≡ false → self.new ≡ self.old }
        ensures same { self.new.is_over ≡ self.old.is_over }
        ensures surface { self.new.surface ≡ self.old.surface }
    {
        if !self.stands {
            return Ok(());
        }
        self.stands = false;
        self.writer.write_all(blank(self.surface))
    }

    /// Clears the line, and it is over.
    ///
    /// # Errors
    ///
    /// Those of the writer.
    pub fn end(&mut self) -> io::Result<()>
        ensures cleared { self.old.stands ≡ true →
            OnOk result (Appends (W.contents self.old.writer) (W.contents self.new.writer)
            (blank_text self.old.surface)) }
        ensures stands { self.new.stands ≡ false }
        ensures is_over { self.new.is_over ≡ true }
        ensures surface { self.new.surface ≡ self.old.surface }
    {
        self.is_over = true;
        self.clear()
    }

    /// What it stands on.
    pub fn surface(&self) -> Surface
        ensures { result ≡ self.now.surface }
    {
        self.surface
    }

    /// Whether it is over.
    pub fn is_over(&self) -> bool
        ensures { result ≡ self.now.is_over }
    {
        self.is_over
    }
}

// What clears a line.
fn blank(surface: Surface) -> &'static [u8]
    ensures { result.now ≡ blank_text surface }
{
    match surface {
        Surface::Terminal => CLEARED,
        Surface::Other => BLANK,
    }
}
