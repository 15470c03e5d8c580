//! What a block of lines says.
ghost use Rattle.std.specs.Prelude.{◌≡◌, ◌<◌, ◌≤◌, ◌^◌, ◌∷◌, [], length, true, false, IfOk, OnErr};
ghost use Rattle.std.specs.List.{list_any};
ghost use Rattle.aero_model.specs.Lines.{lines_of};
ghost use Rattle.aero_grammar.specs.Meaning.{is_unfit, meaning};
ghost use Rattle.aero_grammar.specs.Words.{ReadsMeaning};
ghost use Rattle.aero_grammar.specs.Lists.{lists_in, labels_in, HasRoom};
ghost use Rattle.aero_grammar.specs.Reading.{reading_of};
ghost use Rattle.aero_grammar.specs.Tabled.{lines_in, IsBlock};

use crate::bytes::{first_line, has_clean_lines};
use crate::line::words_of;
use crate::line_event::LineEvent;
use crate::parsed::Parsed;
use crate::short::{ShortLine, short_line};
use crate::tables::Tables;
use crate::words::Words;
use aero_model::LineFault;
use std::alloc::{AllocError, Global};

// A short line's bytes: a block has seldom more lines than one for as many.
const FEW_BYTES: usize = 10;

/// What a block of lines says, up to its first fault: each line ends at a byte 10 or at the
/// block's end, and no line follows a byte 10 at the end. The block has at most 2^30 bytes, and
/// the lines are no more than its bytes. The labels of its begins are numbered like its names, in a
/// table of their own, as many as there are.
///
/// An `AllocError` says that memory was refused, to the list of events, a name or a label. So the block
/// has an event: one without, or with none before its first fault, isn't refused.
#[inline(always)]
pub fn parse_block(alloc: Global, bytes: &[u8]) -> Result<Parsed, AllocError>
    requires { length bytes.now ≤ 2 ^ 30 }
    ensures reading { IfOk result (λ parsed. parsed ≡ reading_of bytes.now) }
    ensures lines { IfOk result (λ parsed. parsed.lines ≤ length bytes.now) }
    ensures refused { OnErr result (0 < length (reading_of bytes.now).events) }
{
    let mut tables = Tables::new(alloc);
    let mut events = room_for(alloc, bytes.len());
    let LinesRead { lines, fault } = read_lines(&mut tables, &mut events, bytes)?;
    Ok(parsed(tables, events, lines, fault))
}

// How many lines were read, and the fault of the last of them, if it has one.
struct LinesRead {
    lines: u32,
    fault: Option<(u32, LineFault)>,
}

// Reads a block's lines up to its first fault, and adds its names and events to what has none yet.
#[inline(always)]
fn read_lines(
    tables: &mut Tables,
    events: &mut Vec<LineEvent>,
    bytes: &[u8],
) -> Result<LinesRead, AllocError>
    requires short { length bytes.now ≤ 2 ^ 30 }
    requires none { lists_in tables.old ≡ record { threads = []; variables = []; locks = [] } }
    requires unlabelled { labels_in tables.old ≡ [] }
    requires room { HasRoom tables.old u32.MAX }
    requires empty { events.old.items ≡ [] }
    ensures block { IfOk result (λ read. IsBlock (lists_in tables.new) (labels_in tables.new)
        events.new.items read.lines read.fault) }
    ensures reading { IfOk result (λ read.
        record {
          events = lines_in (lists_in tables.new) (labels_in tables.new) events.new.items;
          lines = read.lines;
          fault = read.fault;
        } ≡ reading_of bytes.now) }
    ensures lines { IfOk result (λ read. read.lines ≤ length bytes.now) }
    ensures refused { OnErr result (0 < length (reading_of bytes.now).events) }
{
    let mut lines = 0;
    let is_clean = has_clean_lines(bytes);
    let mut rest = bytes;
    'lines: while !rest.is_empty() {
        let LineRead { behind, words, .. } = read_line(rest, is_clean);
        rest = behind;
        lines += 1;
        match words {
            Ok(words) => match words {
                None => {}
                Some(words) => events.push(LineEvent::new(lines, tables.number(words)?))?,
            },
            Err(fault) => {
                let fault = Some((lines, fault));
                return Ok(LinesRead { lines, fault });
            }
        }
    }
    let fault = None;
    Ok(LinesRead { lines, fault })
}

// Room for the events of a block of so many bytes, where most of its lines are longer than a few bytes and
// memory isn't refused. What isn't needed is given back once the block is read.
fn room_for(alloc: Global, bytes: usize) -> Vec<LineEvent>
    ensures { result.items ≡ [] }
{
    let mut events = Vec::new(alloc);
    let _ = events.reserve(bytes / FEW_BYTES);
    events
}

// A text's first line, what follows it, and the line's words.
#[derive(Drop)]
struct LineRead<'a> {
    line: &'a [u8],
    behind: &'a [u8],
    words: Result<Option<Words<'a>>, LineFault>,
}

// Reads the text's first line, at once where it is empty or has the common shape.
#[inline(always)]
fn read_line(text: &[u8], is_clean: bool) -> LineRead<'_>
    requires some { 0 < length text.now }
    requires clean { is_clean ≡ true → list_any is_unfit text.now ≡ false }
    ensures lines { lines_of text.now ≡ result.line.now ∷ lines_of result.behind.now }
    ensures shorter { length result.behind.now < length text.now }
    ensures fit { is_clean ≡ true → list_any is_unfit result.behind.now ≡ false }
    ensures meaning { ReadsMeaning result.words (meaning result.line.now) }
{
    if let [b'\n', behind @ ..] = text {
        return LineRead {
            line: &[],
            behind,
            words: Ok(None),
        };
    }
    if is_clean && let Some(short) = short_line(text) {
        let ShortLine {
            line,
            behind,
            words,
        } = short;
        let words = Ok(Some(words));
        return LineRead {
            line,
            behind,
            words,
        };
    }
    let (line, behind) = first_line(text);
    let words = words_of(line, is_clean);
    LineRead {
        line,
        behind,
        words,
    }
}

// What the block says, by its parts. What is kept takes no more memory than it needs.
pub(crate) fn parsed(
    tables: Tables,
    mut events: Vec<LineEvent>,
    lines: u32,
    fault: Option<(u32, LineFault)>,
) -> Parsed
    requires { IsBlock (lists_in tables) (labels_in tables) events.items lines fault }
    ensures { result ≡ record {
      events = lines_in (lists_in tables) (labels_in tables) events.items;
      lines = lines;
      fault = fault;
    } }
{
    let Tables {
        threads,
        variables,
        locks,
        labels,
    } = tables;
    events.shrink_to_fit();
    Parsed {
        threads: threads.into_list(),
        variables: variables.into_list(),
        locks: locks.into_list(),
        labels: labels.into_list(),
        events,
        lines,
        fault,
    }
}
