//! What the program has to tell of its sources beside the report: in the JSON's summary, and on standard error.
ghost use Rattle.std.specs.Prelude.{◌≡◌, [], ◌∷◌, ◌++◌, map, None, IfOk, OnOk, bytes_eq, codes, decimal};
ghost use Rattle.std.specs.Option.{option_copied};
ghost use Rattle.aero_report.specs.Asked.{note_of};
ghost use Rattle.aero_program.specs.Notes.{AreNotes, GrowsBy, block_notes, fault_notes, faulty_in, is_unchecked, notable_told, is_missing, mark_notes, note_at, note_text, note_texts, noted_of, noted_of_all, place_text, reason_notes, reason_text, said_on, sentence_of, sentence_on, size_notes, was_too_large};
ghost use Rattle.aero_program.specs.Reasons.{reason_words};
ghost use Rattle.aero_program.specs.Traces.{came_in, input_of};

use crate::files::Opener;
use crate::looker::Looker;
use crate::reason::Reason;
use crate::traced::Traced;
use aero_batch::{Fault, FaultyLine, Notable};
use aero_faults::look::{Look, append_ill_formed, append_malformed};
use aero_intake::SourceOf;
use aero_model::Ending;
use aero_report::Note;
use aero_report::shown::append_text;
use itoa::Buffer;
use std::alloc::{AllocError, Global};
use std::io::Read;

// What is told of the first line of what gzip made, which is none of a trace.
const GZIP_SENTENCE: &str =
    "the input is compressed by gzip: to judge it, run zcat FILE | aerodrome";

/// The notes on the sources, in order: of each that it starts with a byte order mark, if it does,
/// then why its first read that failed did, if one did, then how it is judged all the same, if it
/// was too large, then that nothing was checked, if there was no block to check, and then what is wrong with
/// its faulty line, if it has one, as far as a second look at its file shows it. The endings are those of the
/// first sources, each with how many bytes came, and the notables are theirs. Where the names are FILE words, one `-` that names no file is told what would
/// be read without it.
///
/// # Errors
///
/// `AllocError` where memory is refused. Where it is refused to a second look, the note on the fault has
/// its words alone.
pub fn notes_of<S: Read + Drop, F: Opener + Drop, G: Opener>(
    looker: &Looker<'_, G>,
    sources: &[SourceOf<Traced<S, F>>],
    endings: &[(u64, Ending)],
    notables: &[Option<Notable>],
    are_words: bool,
) -> Result<Vec<Note>, AllocError>
    ensures { IfOk result (λ notes.
        AreNotes G.holds (noted_of_all input_of came_in are_words sources.now endings.now
        notables.now) (map note_of notes.items)) }
{
    let mut notes = Vec::new(looker.alloc);
    for place in 0..sources.len() {
        let notable = notable_of(notables.get(place));
        let found = Found {
            too_large: is_too_large(endings.get(place)),
            notable,
        };
        add_notes(&mut notes, looker, &sources[place], found, are_words)?;
    }
    Ok(notes)
}

// What a run found of a source, beside its line in the report: whether it was too large, and what is notable.
#[derive(Clone, Copy)]
struct Found {
    too_large: bool,
    notable: Option<Notable>,
}

// Whether the reading of a source ended as too large. One that the run didn't come to has no ending.
fn is_too_large(ending: Option<&(u64, Ending)>) -> bool
    ensures { result ≡ was_too_large (option_copied ending.entry) }
{
    matches!(ending, Some((_, Ending::TooLarge)))
}

// What is notable of a source. Of one that the run didn't come to nothing is.
fn notable_of(notable: Option<&Option<Notable>>) -> Option<Notable>
    ensures { result ≡ notable_told (option_copied notable.entry) }
{
    match notable {
        Some(notable) => *notable,
        None => None,
    }
}

// The faulty line of a source, if it has one.
fn faulty_in(notable: Option<Notable>) -> Option<FaultyLine>
    ensures { result ≡ faulty_in notable }
{
    match notable {
        Some(Notable::Faulty(line)) => Some(line),
        _ => None,
    }
}

// Whether there was no block to check in a source.
pub(crate) fn is_unchecked(notable: Option<Notable>) -> bool
    ensures { result ≡ is_unchecked notable }
{
    matches!(notable, Some(Notable::Unchecked))
}

fn add_notes<S: Read + Drop, F: Opener + Drop, G: Opener>(
    notes: &mut Vec<Note>,
    looker: &Looker<'_, G>,
    source: &SourceOf<Traced<S, F>>,
    found: Found,
    are_words: bool,
) -> Result<(), AllocError>
    ensures { OnOk result (GrowsBy G.holds (map note_of notes.old.items)
        (map note_of notes.new.items) (noted_of input_of came_in are_words source.now
        found.too_large found.notable)) }
{
    let name = source.name.as_slice();
    let input = source.reader.input();
    let alloc = looker.alloc;
    let fault = faulty_in(found.notable);
    let seen = looker.look(name, input.opened(), fault);
    add_mark(notes, alloc, name, input.has_mark())?;
    add_reason(notes, alloc, name, input.reason(), are_words)?;
    add_size(notes, alloc, name, found.too_large)?;
    add_unchecked(notes, alloc, name, is_unchecked(found.notable))?;
    let sentence = sentence_on(alloc, input.is_gzip(), fault, &seen)?;
    add_fault(notes, alloc, name, fault, sentence)?;
    Ok(())
}

fn add_mark(
    notes: &mut Vec<Note>,
    alloc: Global,
    name: &[u8],
    has_mark: bool,
) -> Result<(), AllocError>
    ensures { OnOk result (map note_of notes.new.items ≡ map note_of notes.old.items ++
        mark_notes name.now has_mark) }
{
    if !has_mark {
        return Ok(());
    }
    add_words(
        notes,
        alloc,
        name,
        "starts with a byte order mark, which counts as part of the first thread's name",
    )
}

fn add_reason(
    notes: &mut Vec<Note>,
    alloc: Global,
    name: &[u8],
    reason: Option<Reason>,
    is_word: bool,
) -> Result<(), AllocError>
    ensures { OnOk result (map note_of notes.new.items ≡ map note_of notes.old.items ++
        reason_notes is_word name.now reason) }
{
    match reason {
        None => Ok(()),
        Some(reason) => add_words(notes, alloc, name, reason_text(name, reason, is_word)),
    }
}

// Why a source of this name couldn't be read, and of a word `-` that names no file, what is read without one.
fn reason_text(name: &[u8], reason: Reason, is_word: bool) -> &'static str
    ensures { result.now ≡ reason_text is_word name.now reason }
{
    if is_word && is_dash(name) && is_missing(reason) {
        return "No such file or directory (standard input is read if no FILE is given)";
    }
    reason.words()
}

fn is_dash(name: &[u8]) -> bool
    ensures { result ≡ bytes_eq name.now (codes "-") }
{
    match name {
        b"-" => true,
        _ => false,
    }
}

fn is_missing(reason: Reason) -> bool
    ensures { result ≡ is_missing reason }
{
    reason == Reason::System(2)
}

fn add_size(
    notes: &mut Vec<Note>,
    alloc: Global,
    name: &[u8],
    too_large: bool,
) -> Result<(), AllocError>
    ensures { OnOk result (map note_of notes.new.items ≡ map note_of notes.old.items ++
        size_notes name.now too_large) }
{
    if !too_large {
        return Ok(());
    }
    add_words(
        notes,
        alloc,
        name,
        "over 1073741824 bytes: --long accepts inputs of any size",
    )
}

fn add_unchecked(
    notes: &mut Vec<Note>,
    alloc: Global,
    name: &[u8],
    unchecked: bool,
) -> Result<(), AllocError>
    ensures { OnOk result (map note_of notes.new.items ≡ map note_of notes.old.items ++
        block_notes name.now unchecked) }
{
    if !unchecked {
        return Ok(());
    }
    add_words(
        notes,
        alloc,
        name,
        "nothing was checked: no block begins, or each one is left out by its label",
    )
}

fn add_fault(
    notes: &mut Vec<Note>,
    alloc: Global,
    name: &[u8],
    fault: Option<FaultyLine>,
    sentence: Vec<u8>,
) -> Result<(), AllocError>
    ensures { OnOk result (map note_of notes.new.items ≡ map note_of notes.old.items ++
        fault_notes name.now fault sentence.items) }
{
    match fault {
        None => Ok(()),
        Some(faulty) => add_note(notes, alloc, name, Some(faulty.line), sentence),
    }
}

// A note on the source of this name.
fn add_words(
    notes: &mut Vec<Note>,
    alloc: Global,
    name: &[u8],
    words: &str,
) -> Result<(), AllocError>
    ensures { OnOk result (map note_of notes.new.items ≡ map note_of notes.old.items ++
        note_at name.now None words.now ∷ []) }
{
    let text = Vec::from_slice(alloc, words.as_bytes())?;
    add_note(notes, alloc, name, None, text)
}

// A note on the source of this name, or on a line of it.
fn add_note(
    notes: &mut Vec<Note>,
    alloc: Global,
    name: &[u8],
    line: Option<u32>,
    text: Vec<u8>,
) -> Result<(), AllocError>
    ensures { OnOk result (map note_of notes.new.items ≡ map note_of notes.old.items ++
        note_at name.now line text.items ∷ []) }
{
    let source = Vec::from_slice(alloc, name)?;
    notes.push(Note { source, line, text })?;
    Ok(())
}

// What is told of the fault, if there is one, of a source that gzip made, or that it didn't make.
fn sentence_on(
    alloc: Global,
    is_gzip: bool,
    fault: Option<FaultyLine>,
    look: &Look,
) -> Result<Vec<u8>, AllocError>
    ensures { IfOk result (λ text. text.items ≡ sentence_on is_gzip fault look.now) }
{
    match fault {
        None => Ok(Vec::new(alloc)),
        Some(_) if is_gzip => Vec::from_slice(alloc, GZIP_SENTENCE.as_bytes()),
        Some(faulty) => sentence_of(alloc, faulty.fault, look),
    }
}

fn sentence_of(alloc: Global, fault: Fault, look: &Look) -> Result<Vec<u8>, AllocError>
    ensures { IfOk result (λ text. text.items ≡ sentence_of fault look.now) }
{
    let mut text = Vec::new(alloc);
    append_sentence(&mut text, fault, look)?;
    Ok(text)
}

// What is told of a fault.
fn append_sentence(text: &mut Vec<u8>, fault: Fault, look: &Look) -> Result<(), AllocError>
    ensures { OnOk result (text.new.items ≡ text.old.items ++ sentence_of fault look.now) }
{
    match fault {
        Fault::Malformed(fault) => append_malformed(text, fault, look),
        Fault::IllFormed(fault) => append_ill_formed(text, fault, look),
    }
}

/// The lines of notes, in order. A terminal is shown no control characters of names and of texts.
///
/// # Errors
///
/// `AllocError` where memory is refused.
pub fn note_texts(alloc: Global, notes: &[Note], on_terminal: bool) -> Result<Vec<u8>, AllocError>
    ensures { IfOk result (λ text. text.items ≡ note_texts on_terminal (map note_of notes.now)) }
{
    let mut text = Vec::new(alloc);
    for note in notes {
        append_note(&mut text, note, on_terminal)?;
    }
    Ok(text)
}

/// The line that says why what has this name couldn't be opened or read. A terminal is shown no control characters
/// of the name.
///
/// # Errors
///
/// `AllocError` where memory is refused.
pub fn reason_note(
    alloc: Global,
    name: &[u8],
    reason: Reason,
    on_terminal: bool,
) -> Result<Vec<u8>, AllocError>
    ensures { IfOk result (λ text. text.items ≡
        note_text on_terminal (note_at name.now None (reason_words reason))) }
{
    let source = Vec::from_slice(alloc, name)?;
    let text = Vec::from_slice(alloc, reason.words().as_bytes())?;
    let note = Note {
        source,
        line: None,
        text,
    };
    let mut line = Vec::new(alloc);
    append_note(&mut line, &note, on_terminal)?;
    Ok(line)
}

/// The line that says what is wrong with a line of a file, which is numbered from 1.
///
/// # Errors
///
/// `AllocError` where memory is refused.
pub fn line_note(
    alloc: Global,
    name: &[u8],
    number: u64,
    words: &[u8],
    on_terminal: bool,
) -> Result<Vec<u8>, AllocError>
    ensures { IfOk result (λ text. text.items ≡
        note_text on_terminal (note_at name.now (Some number) words.now)) }
{
    let mut text = Vec::new(alloc);
    text.extend_from_slice(b"aerodrome: ")?;
    append_said(&mut text, name, on_terminal)?;
    append_line(&mut text, number)?;
    text.extend_from_slice(b": ")?;
    append_said(&mut text, words, on_terminal)?;
    text.extend_from_slice(b"\n")?;
    Ok(text)
}

// The line of a note.
fn append_note(text: &mut Vec<u8>, note: &Note, on_terminal: bool) -> Result<(), AllocError>
    ensures { OnOk result (text.new.items ≡ text.old.items ++
        note_text on_terminal (note_of note.now)) }
{
    text.extend_from_slice(b"aerodrome: ")?;
    append_said(text, &note.source, on_terminal)?;
    append_place(text, note.line)?;
    text.extend_from_slice(b": ")?;
    append_said(text, &note.text, on_terminal)?;
    text.extend_from_slice(b"\n")?;
    Ok(())
}

// The line of a source of which something is told, if it is one.
fn append_place(text: &mut Vec<u8>, line: Option<u32>) -> Result<(), AllocError>
    ensures { OnOk result (text.new.items ≡ text.old.items ++ place_text line) }
{
    match line {
        None => Ok(()),
        Some(line) => append_line(text, u64::from(line)),
    }
}

fn append_line(text: &mut Vec<u8>, line: u64) -> Result<(), AllocError>
    ensures { OnOk result (text.new.items ≡ text.old.items ++ (codes ":" ++ decimal line)) }
{
    let mut buffer = Buffer::new();
    text.extend_from_slice(b":")?;
    text.extend_from_slice(buffer.format(line).as_bytes())?;
    Ok(())
}

/// Adds bytes that others chose, as they are told: a terminal is shown no control characters of theirs.
///
/// # Errors
///
/// `AllocError` where memory is refused. A front of it may be there.
pub fn append_said(text: &mut Vec<u8>, bytes: &[u8], on_terminal: bool) -> Result<(), AllocError>
    ensures { OnOk result (text.new.items ≡ text.old.items ++ said_on on_terminal bytes.now) }
{
    if on_terminal {
        append_text(text, bytes)
    } else {
        text.extend_from_slice(bytes)
    }
}
