//! What is told of a faulty line that was looked at again.
ghost use Rattle.std.specs.Prelude.{◌≡◌, ◌++◌, ◌<◌, ◌≤◌, codes, decimal, take, length, nat_lt, if◌then◌else◌, [], ◌∷◌, OnOk};
ghost use Rattle.std.specs.Str.Lines.{strip_carriage_return};
ghost use Rattle.aero_model.specs.Words.{line_words as line_words_of};
ghost use Rattle.aero_faults.specs.Texts.{bad_place as bad_place_in, deed_text, hindrance_text, line_text, shown, verb as verb_of};

use crate::fields::{bad_place, operation_word};
use crate::hindrance::Hindrance;
use crate::search::target_of;
use aero_grammar::bytes::without_return;
use aero_model::words::line_words;
use aero_model::{Event, LineFault, Op, ShapeFault};
use aero_report::shown::append_bytes;
use itoa::Buffer;
use std::alloc::AllocError;

// How many of a line's bytes are shown at most.
const MOST_SHOWN: usize = 200;

/// Adds what is told of a malformed line with these bytes: its first control byte's place, from 1, or
/// the word that is no operation, and of any other the line.
///
/// # Errors
///
/// `AllocError` where memory is refused. A front of it may be there.
pub fn append_line(text: &mut Vec<u8>, fault: LineFault, line: &[u8]) -> Result<(), AllocError>
    ensures { OnOk result (text.new.items ≡ text.old.items ++ line_text fault line.now) }
{
    let line = without_return(line);
    match fault {
        LineFault::BadByte => append_place(text, line),
        LineFault::UnknownOperation => append_words(text, fault, operation_word(line)),
        _ => append_words(text, fault, line),
    }
}

// The place of the line's first control byte, and the line.
fn append_place(text: &mut Vec<u8>, line: &[u8]) -> Result<(), AllocError>
    ensures { OnOk result (text.new.items ≡ text.old.items ++
        (codes "byte " ++ decimal (bad_place_in line.now) ++
        (codes " is a control byte: " ++ shown line.now))) }
{
    append_number(text, b"byte ", bad_place(line))?;
    text.extend_from_slice(b" is a control byte: ")?;
    append_shown(text, line)?;
    Ok(())
}

// The fault in words, and the bytes that have it.
fn append_words(text: &mut Vec<u8>, fault: LineFault, bytes: &[u8]) -> Result<(), AllocError>
    ensures { OnOk result (text.new.items ≡ text.old.items ++
        (line_words_of fault ++ (codes ": " ++ shown bytes.now))) }
{
    text.extend_from_slice(line_words(fault).as_bytes())?;
    text.extend_from_slice(b": ")?;
    append_shown(text, bytes)
}

// The first of the bytes, and two dots where there are more.
fn append_shown(text: &mut Vec<u8>, bytes: &[u8]) -> Result<(), AllocError>
    ensures { OnOk result (text.new.items ≡ text.old.items ++ shown bytes.now) }
{
    if bytes.len() > MOST_SHOWN {
        append_bytes(text, front_of(bytes, MOST_SHOWN))?;
        text.extend_from_slice(b"..")?;
        Ok(())
    } else {
        append_bytes(text, bytes)?;
        Ok(())
    }
}

// The first of the bytes, so many.
fn front_of(bytes: &[u8], count: usize) -> &[u8]
    requires { count ≤ length bytes.now }
    ensures { result.now ≡ take count bytes.now }
{
    &bytes[..count]
}

/// Adds what is told of an ill-formed event and of what stands in its way.
///
/// # Errors
///
/// `AllocError` where memory is refused. A front of it may be there.
pub fn append_hindrance(
    text: &mut Vec<u8>,
    fault: ShapeFault,
    event: &Event,
    hindrance: &Hindrance,
) -> Result<(), AllocError>
    ensures { OnOk result (text.new.items ≡ text.old.items ++
        hindrance_text fault event.now hindrance.now) }
{
    match hindrance {
        Hindrance::Held { thread, line } => append_held(text, event, thread.bytes(), *line),
        Hindrance::Free => append_free(text, event),
        Hindrance::Acted { line } => {
            append_deed_on(text, event, b", which has acted on line ", *line)
        }
        Hindrance::Forked { line } => {
            append_deed_on(text, event, b", which was forked on line ", *line)
        }
        Hindrance::Joined { thread, line } => {
            append_join(text, fault, event, thread.bytes(), *line)
        }
        Hindrance::Itself => append_itself(text, event),
        Hindrance::NoneOpen => append_none_open(text, event),
    }
}

fn append_held(
    text: &mut Vec<u8>,
    event: &Event,
    thread: &[u8],
    line: u32,
) -> Result<(), AllocError>
    ensures { OnOk result (text.new.items ≡ text.old.items ++
        (deed_text event.now ++ (codes ", which " ++
        (thread.now ++ (codes " holds since line " ++ decimal line))))) }
{
    append_deed(text, event)?;
    text.extend_from_slice(b", which ")?;
    text.extend_from_slice(thread)?;
    append_at(text, b" holds since line ", line)?;
    Ok(())
}

fn append_free(text: &mut Vec<u8>, event: &Event) -> Result<(), AllocError>
    ensures { OnOk result (text.new.items ≡ text.old.items ++
        (deed_text event.now ++ codes ", which nobody holds")) }
{
    append_deed(text, event)?;
    text.extend_from_slice(b", which nobody holds")?;
    Ok(())
}

// Who does what to what, these words, and a line.
fn append_deed_on(
    text: &mut Vec<u8>,
    event: &Event,
    words: &[u8],
    line: u32,
) -> Result<(), AllocError>
    ensures { OnOk result (text.new.items ≡ text.old.items ++
        (deed_text event.now ++ (words.now ++ decimal line))) }
{
    append_deed(text, event)?;
    append_at(text, words, line)
}

// The line on which the event's thread was joined, and by whom, or the thread that it forks.
fn append_join(
    text: &mut Vec<u8>,
    fault: ShapeFault,
    event: &Event,
    thread: &[u8],
    line: u32,
) -> Result<(), AllocError>
    ensures { OnOk result (text.new.items ≡ text.old.items ++
        hindrance_text fault event.now (Hindrance.Joined thread.now line)) }
{
    match fault {
        ShapeFault::ThreadJoined => append_joined(text, event, thread, line),
        _ => append_deed_on(text, event, b", which was joined on line ", line),
    }
}

fn append_joined(
    text: &mut Vec<u8>,
    event: &Event,
    thread: &[u8],
    line: u32,
) -> Result<(), AllocError>
    ensures { OnOk result (text.new.items ≡ text.old.items ++
        (event.now.thread ++ (codes " acts, but " ++
        (thread.now ++ (codes " joined it on line " ++ decimal line))))) }
{
    text.extend_from_slice(event.thread.bytes())?;
    text.extend_from_slice(b" acts, but ")?;
    text.extend_from_slice(thread)?;
    append_at(text, b" joined it on line ", line)?;
    Ok(())
}

fn append_itself(text: &mut Vec<u8>, event: &Event) -> Result<(), AllocError>
    ensures { OnOk result (text.new.items ≡ text.old.items ++
        (event.now.thread ++ (verb_of event.now.op ++ codes "itself"))) }
{
    text.extend_from_slice(event.thread.bytes())?;
    text.extend_from_slice(verb(event.op).as_bytes())?;
    text.extend_from_slice(b"itself")
}

fn append_none_open(text: &mut Vec<u8>, event: &Event) -> Result<(), AllocError>
    ensures { OnOk result (text.new.items ≡ text.old.items ++
        (event.now.thread ++ codes " ends a block, but has no open block")) }
{
    text.extend_from_slice(event.thread.bytes())?;
    text.extend_from_slice(b" ends a block, but has no open block")
}

// Who does what to what.
fn append_deed(text: &mut Vec<u8>, event: &Event) -> Result<(), AllocError>
    ensures { OnOk result (text.new.items ≡ text.old.items ++ deed_text event.now) }
{
    text.extend_from_slice(event.thread.bytes())?;
    text.extend_from_slice(verb(event.op).as_bytes())?;
    text.extend_from_slice(target_of(event))
}

fn verb(op: Op) -> &'static str
    ensures { result.now ≡ verb_of op }
{
    match op {
        Op::Read => " reads ",
        Op::Write => " writes ",
        Op::Acquire => " acquires ",
        Op::Release => " releases ",
        Op::Fork => " forks ",
        Op::Join => " joins ",
        Op::Begin => " begins ",
        Op::End => " ends ",
    }
}

// A line's number behind its label.
fn append_at(text: &mut Vec<u8>, label: &[u8], line: u32) -> Result<(), AllocError>
    ensures { OnOk result (text.new.items ≡ text.old.items ++ (label.now ++ decimal line)) }
{
    append_number(text, label, u64::from(line))
}

// A number behind its label.
fn append_number(text: &mut Vec<u8>, label: &[u8], number: u64) -> Result<(), AllocError>
    ensures { OnOk result (text.new.items ≡ text.old.items ++ (label.now ++ decimal number)) }
{
    let mut buffer = Buffer::new();
    text.extend_from_slice(label)?;
    text.extend_from_slice(buffer.format(number).as_bytes())
}
