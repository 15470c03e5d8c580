//! The report in the form that is asked for.
ghost use Rattle.std.specs.Prelude.{◌≡◌, IfOk, OnOk};
ghost use Rattle.aero_report.specs.Asked.{options_of};
ghost use Rattle.aero_report.specs.Forms.{shown_source_line, source_line_in, summary_line_in, IsReadable};
ghost use Rattle.aero_report.specs.Json.{source_value, summary_value};

use crate::objects::source_object;
use crate::options::{Options, summary_object};
use crate::shown::{append_lines, append_text};
use crate::summary::summary_text;
use crate::texts::trace_text;
use aero_model::{Counts, Finding};
use std::alloc::{AllocError, Global};

/// The form of a report.
#[derive(Clone, Copy, Debug, PartialEq, Eq)]
pub enum Form {
    /// Lines for people.
    Text,
    /// The same lines on a terminal: what is no character of a name, or a control character, is shown as `\xNN`.
    Terminal,
    /// A JSON object on a line for each source, and one for the summary.
    Json,
}

/// What is said of a source: its name as its bytes stand, and what was found of it, with a newline
/// behind each line.
///
/// For a terminal no byte of a name is a control character. As JSON it is one line. A name is a string where its bytes
/// are UTF-8, and else an object with them in Base64. Lines of a trace count from 1. Fails only where memory runs out.
pub fn source_text(
    alloc: Global,
    form: Form,
    name: &[u8],
    finding: &Finding,
) -> Result<Vec<u8>, AllocError>
    ensures text { IfOk result (λ text. text.items ≡ source_line_in form name.now finding.now) }
    ensures readable { OnOk result (IsReadable form (source_value name.now finding.now)) }
{
    match form {
        Form::Text => trace_text(alloc, name, finding),
        Form::Terminal => shown_trace_text(alloc, name, finding),
        Form::Json => source_object(alloc, name, finding),
    }
}

/// The last line of a report, with a newline: how many sources there are, and how many were found to
/// be what. As JSON it also has the program's version, and how the sources were judged.
///
/// The first number is the sum of the four counts, also where it is above 2^64 - 1. Fails only
/// where memory runs out.
pub fn totals_text(
    alloc: Global,
    form: Form,
    options: Options<'_>,
    counts: &Counts,
) -> Result<Vec<u8>, AllocError>
    ensures text { IfOk result (λ text. text.items ≡ summary_line_in form (options_of options.entry)
        counts.now) }
    ensures readable { OnOk result
        (IsReadable form (summary_value (options_of options.entry) counts.now)) }
{
    match form {
        Form::Text | Form::Terminal => summary_text(alloc, counts),
        Form::Json => summary_object(alloc, options, counts),
    }
}

// The lines of a source as a terminal is shown them.
fn shown_trace_text(alloc: Global, name: &[u8], finding: &Finding) -> Result<Vec<u8>, AllocError>
    ensures { IfOk result (λ text. text.items ≡ shown_source_line name.now finding.now) }
{
    let behind = trace_text(alloc, b"", finding)?;
    let mut text = Vec::new(alloc);
    append_text(&mut text, name)?;
    append_lines(&mut text, &behind)?;
    Ok(text)
}
