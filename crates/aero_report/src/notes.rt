//! What is told of the sources beside their lines, as the summary as JSON has it.
ghost use Rattle.std.specs.Prelude.{◌≡◌, ◌++◌, map, flat_map, OnOk};
ghost use Rattle.json.specs.Tree.{json_tokens};
ghost use Rattle.aero_report.specs.Asked.{note_of};
ghost use Rattle.aero_report.specs.Json.{line_members, note_value, notes_members};
ghost use Rattle.aero_report.specs.Members.{all_members_tokens};

use crate::line::Line;
use std::alloc::AllocError;

/// What is told of the source of this name, or of a line of it.
#[derive(Drop)]
pub struct Note {
    pub source: Vec<u8>,
    pub line: Option<u32>,
    pub text: Vec<u8>,
}

/// The notes, where there are any.
pub fn write_notes(out: &mut Line, notes: &[Note]) -> Result<(), AllocError>
    ensures { OnOk result (out.new ≡ out.old ++
        all_members_tokens (notes_members (map note_of notes.now))) }
{
    if notes.is_empty() {
        return Ok(());
    }
    out.begin_array("notes")?;
    write_all_notes(out, notes)?;
    out.end_array()
}

fn write_all_notes(out: &mut Line, notes: &[Note]) -> Result<(), AllocError>
    ensures { OnOk result (out.new ≡ out.old ++ flat_map (λ n. json_tokens (note_value n))
        (map note_of notes.now)) }
{
    for note in notes {
        write_note(out, note)?;
    }
    Ok(())
}

fn write_note(out: &mut Line, note: &Note) -> Result<(), AllocError>
    ensures { OnOk result (out.new ≡ out.old ++ json_tokens (note_value (note_of note.now))) }
{
    out.begin_object()?;
    out.name("source", &note.source)?;
    write_line(out, note.line)?;
    out.name("note", &note.text)?;
    out.end_object()
}

fn write_line(out: &mut Line, line: Option<u32>) -> Result<(), AllocError>
    ensures { OnOk result (out.new ≡ out.old ++ all_members_tokens (line_members line)) }
{
    match line {
        Some(line) => out.count("line", line),
        None => Ok(()),
    }
}
